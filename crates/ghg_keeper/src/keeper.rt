ghost use Rattle.std.specs.Prelude.{◌≡◌, ◌-◌, ◌≤◌, length, slice_get, Some, IsTrue, IfOk, IfSome, OnOk, OnErr};
ghost use Rattle.ghg_keeper.specs.Id.{is_id};
ghost use Rattle.ghg_keeper.specs.Shelf.{Shelf, Adds, CountsFaults, Keeps, KeepsRows, StaysTold};

use crate::KeptRow;
use sqlite::{Error, ErrorCode};
use std::alloc::AllocError;

/// The most bytes of the id of a submission.
pub const MAX_ID_LEN: usize = 40;

/// Why a call of a keeper has no answer.
#[derive(Clone, Copy, Debug, PartialEq, Eq, Drop)]
pub enum KeepError {
    /// The store failed for another cause than memory, and the keeper's count of faults rose.
    Failed,
    /// Memory ran out. It is not counted.
    Memory,
}

impl From<AllocError> for KeepError {
    ghost use Rattle.std.specs.Prelude.{◌≡◌};
    ghost use Rattle.ghg_keeper.specs.declared.keeper.KeepError.TheVariants.{Memory};

    ghost from_gives = { λ _ error. error ≡ Memory };

    fn from(_: AllocError) -> KeepError {
        KeepError::Memory
    }
}

impl From<Error> for KeepError {
    ghost use Rattle.std.specs.Prelude.{◌≡◌};
    ghost use Rattle.ghg_keeper.specs.Errors.{keep_error};

    ghost from_gives = { λ error kept. kept ≡ keep_error error };

    fn from(error: Error) -> KeepError {
        match error {
            Error::SqliteFailure(ErrorCode::OutOfMemory) => KeepError::Memory,
            _ => KeepError::Failed,
        }
    }
}

/// A list of rows, each an id and a body, in the store that is in use.
///
/// What a call is not said to change stays as it is, also after an error. With any answer but `Failed` the
/// count of faults is as before, so a failure is never told as want of memory.
pub trait Keeper {
    /// What the keeper tells.
    ghost shelf: { Self → Shelf };

    /// Makes the named store the one in use. Its rows are those that were told before the call.
    fn attach(&mut self, name: &str) -> Result<(), KeepError>
        ensures rows { KeepsRows (shelf self.old) (shelf self.new) }
        ensures told { StaysTold (shelf self.old) (shelf self.new) result }
        ensures ok { OnOk result (IfSome (shelf self.new).name (λ used. used ≡ name.now)) }
        ensures err { OnErr result ((shelf self.new).name ≡ (shelf self.old).name) }
        ensures faults { CountsFaults (shelf self.old) (shelf self.new) result };

    /// How many rows there are.
    fn count(&mut self) -> Result<u64, KeepError>
        ensures count { (shelf self.new).tells → IfOk result (λ n. n ≡ length (shelf self.old).rows) }
        ensures keeps { Keeps (shelf self.old) (shelf self.new) }
        ensures told { StaysTold (shelf self.old) (shelf self.new) result }
        ensures faults { CountsFaults (shelf self.old) (shelf self.new) result };

    /// The row of this number, counted from 1.
    fn row(&mut self, seq: u64) -> Result<KeptRow, KeepError>
        requires counted { 1 ≤ seq }
        requires present { (shelf self.old).tells → seq ≤ length (shelf self.old).rows }
        ensures row { (shelf self.new).tells
            → IfOk result (λ row. slice_get (shelf self.old).rows (seq - 1) ≡ Some row) }
        ensures keeps { Keeps (shelf self.old) (shelf self.new) }
        ensures told { StaysTold (shelf self.old) (shelf self.new) result }
        ensures faults { CountsFaults (shelf self.old) (shelf self.new) result };

    /// Puts one row behind the others, and answers its number.
    fn append(&mut self, id: &[u8], body: &[u8]) -> Result<u64, KeepError>
        requires { IsTrue (is_id id.now) }
        ensures ok { OnOk result
            (Adds (shelf self.old) (shelf self.new) (record { id = id.now; body = body.now })) }
        ensures number { (shelf self.new).tells → IfOk result (λ seq. seq ≡ length (shelf self.new).rows) }
        ensures err { OnErr result (Keeps (shelf self.old) (shelf self.new)) }
        ensures told { StaysTold (shelf self.old) (shelf self.new) result }
        ensures faults { CountsFaults (shelf self.old) (shelf self.new) result };
}
