//! The nodes of one layer.

ghost use Rattle.std.specs.Prelude.{◌≡◌, ℕ, ◌<◌, IfOk};

use ghg_cell::Ticket;
use std::alloc::{AllocError, Global};

/// The nodes of one layer. Each stands at a place, from 0, and none is an input of another, so they may be
/// evaluated in any order.
pub trait Layer: Sync {
    /// What a worker keeps of its own from one node to the next, as a buffer or the line that it met last.
    type Reader: Drop + Send;

    /// What the evaluation of a node gives.
    type Outcome: Drop + Send;

    /// How many nodes there are.
    ghost count: { Self → ℕ };

    /// What the node at a place gives.
    ghost outcome: { Self → ℕ → Self.Outcome → Type 0 };

    /// What holds of a reader of the layer.
    ghost suits: { Self → Self.Reader → Type 0 };

    /// The inputs of all its nodes are at hand.
    ghost ready: { Self → Type 0 };

    /// How many nodes there are.
    fn count(&self) -> usize
        ensures { result ≡ count self.now };

    /// A reader for one more worker. It takes no memory.
    fn reader(&self, alloc: Global) -> Self::Reader
        ensures { suits self.now result };

    /// Evaluates the node at a place, which uses up a ticket.
    fn evaluate(
        &self,
        alloc: Global,
        reader: &mut Self::Reader,
        ticket: Ticket,
        place: usize,
    ) -> Result<Self::Outcome, AllocError>
        requires ready { ready self.now }
        requires place { place < count self.now }
        requires reader { suits self.now reader.old }
        ensures reader { suits self.now reader.new }
        ensures outcome { IfOk result (outcome self.now place) };
}
