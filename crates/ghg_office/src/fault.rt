//! Why kept rows are not replayed.

use crate::reply::Reply;
use ghg_keeper::KeepError;

/// Why the kept rows do not make an office.
#[derive(Drop)]
pub enum OpenFault {
    /// The row of this number is the first that is not accepted, and has this reply.
    Kept { seq: u64, reply: Reply },
    /// The keeper failed, and its count of faults rose.
    KeeperFault,
    /// Memory ran out.
    Memory,
}

impl From<KeepError> for OpenFault {
    ghost use Rattle.std.specs.Prelude.{◌≡◌};
    ghost use Rattle.ghg_office.specs.Replays.{keep_fault};

    ghost from_gives = { λ error fault. fault ≡ keep_fault error };

    fn from(error: KeepError) -> OpenFault {
        match error {
            KeepError::Failed => OpenFault::KeeperFault,
            KeepError::Memory => OpenFault::Memory,
        }
    }
}
