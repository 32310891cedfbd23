//! What an engine proposes.

ghost use Rattle.std.specs.Prelude.{◌≡◌};

use ghg_columns::FreshCells;
use ghg_data::Edits;

/// Edits, and the cells of the nodes that they affect.
#[derive(Drop)]
pub struct Proposal {
    pub(crate) edits: Edits,
    pub(crate) fresh: FreshCells,
    pub(crate) cells: u64,
}

impl Proposal {
    /// How many nodes the edits affect.
    pub fn cells(&self) -> u64
        ensures { result ≡ self.now.cells }
    {
        self.cells
    }
}
