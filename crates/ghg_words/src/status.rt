//! The statuses of the program.

ghost use Rattle.std.specs.Prelude.{◌≡◌};
ghost use Rattle.ghg_words.specs.Status.{status_code};
ghost use Rattle.ghg_words.specs.declared.status.Status.TheVariants.{OutOfMemory};

use std::alloc::{AllocError, AllocFailed};

/// What the program ends with.
#[derive(Clone, Copy, Debug, PartialEq, Eq, Drop)]
pub enum Status {
    /// The script was answered to its end, all connections were served, or what is due was written.
    Done,
    /// The words are no command.
    BadCommandLine,
    /// The input is no script.
    NoScript,
    /// The input failed.
    InputFailed,
    /// The output failed.
    OutputFailed,
    /// The store failed: it was not opened or not read, or it did not keep a submission of a script.
    StoreFailed,
    /// The door failed: its port was not opened, or it gave no further connection.
    DoorFailed,
    /// Memory ran out.
    OutOfMemory,
    /// A submission that a store had is refused as it is replayed.
    RowRefused,
    /// The series is not spliced.
    SpliceRefused,
}

impl Status {
    /// The number that the process ends with.
    pub fn code(self) -> u8
        ensures { result ≡ status_code self }
    {
        match self {
            Status::Done => 0,
            Status::BadCommandLine => 2,
            Status::NoScript => 3,
            Status::InputFailed => 4,
            Status::OutputFailed => 5,
            Status::StoreFailed => 6,
            Status::DoorFailed => 7,
            Status::OutOfMemory => 8,
            Status::RowRefused => 9,
            Status::SpliceRefused => 10,
        }
    }
}

impl From<AllocError> for Status {
    ghost from_gives = { λ _ e. e ≡ OutOfMemory };

    fn from(_: AllocError) -> Self {
        Status::OutOfMemory
    }
}

impl<T: Drop> From<AllocFailed<T>> for Status {
    ghost from_gives = { λ _ e. e ≡ OutOfMemory };

    fn from(_: AllocFailed<T>) -> Self {
        Status::OutOfMemory
    }
}
