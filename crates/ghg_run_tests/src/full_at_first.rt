//! A keeper that has no memory for the first row that it is to keep.

ghost use Rattle.ghg_keeper.specs.Forms.{stored_shelf};

use ghg_keeper::{KeepError, Keeper, KeptRow, SteadyKeeper};
use std::alloc::Global;

/// Rows in memory, for the first of which memory runs out once.
#[derive(Drop)]
pub struct FullAtFirst {
    inner: SteadyKeeper,
    has_room: bool,
}

impl FullAtFirst {
    /// A keeper with no row.
    pub fn new(alloc: Global) -> FullAtFirst {
        FullAtFirst {
            inner: SteadyKeeper::new(alloc),
            has_room: false,
        }
    }
}

impl Keeper for FullAtFirst {
    ghost shelf = { λ keeper. stored_shelf keeper.inner 0 };

    fn attach(&mut self, name: &str) -> Result<(), KeepError> {
        self.inner.attach(name)
    }

    fn count(&mut self) -> Result<u64, KeepError> {
        self.inner.count()
    }

    fn row(&mut self, seq: u64) -> Result<KeptRow, KeepError> {
        self.inner.row(seq)
    }

    fn append(&mut self, id: &[u8], body: &[u8]) -> Result<u64, KeepError> {
        if !self.has_room {
            self.has_room = true;
            return Err(KeepError::Memory);
        }
        self.inner.append(id, body)
    }
}
