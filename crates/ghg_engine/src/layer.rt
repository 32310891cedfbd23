//! The nodes of one layer, as workers evaluate them.

ghost use Rattle.std.specs.Prelude.{◌≡◌, length};
ghost use Rattle.ghg_columns.specs.Overlays.{outcomes_of};
ghost use Rattle.ghg_engine.specs.Layers.{AreReady, IsOutcomeAt};

use ghg_cell::Ticket;
use ghg_columns::Overlay;
use ghg_data::Records;
use ghg_evaluation::{Reader, evaluate};
use ghg_shifts::{Evaluated, Shifts};
use ghg_units::Node;
use ghg_workers::Layer;
use std::alloc::{AllocError, Global};

/// The nodes of a layer, with the records that they are of, the cells of the records before, and what is
/// known of earlier layers: the cells of their nodes, and the shifts of the totals.
#[derive(Drop)]
pub(crate) struct NodesOfLayer<'a, 'b, R, C> {
    pub(crate) records: &'a R,
    pub(crate) before: &'b C,
    pub(crate) nodes: &'a [Node],
    pub(crate) cells: &'b Overlay<'a>,
    pub(crate) shifts: &'b Shifts,
}

impl<'a, 'b, R: Records + Sync, C: ghg_graph::Cells + Sync> Layer for NodesOfLayer<'a, 'b, R, C> {
    type Reader = Reader<'a, R>;

    type Outcome = Evaluated;

    ghost count = { λ s. length s.nodes.now };

    ghost outcome = { λ s place e. IsOutcomeAt (R.content s.records.now) s.nodes.now place e };

    ghost suits = { λ s r. r ≡ s.records.now };

    ghost ready = { λ s. AreReady (C.content s.before.now) (R.content s.records.now)
        (outcomes_of s.cells.now) s.shifts.now s.nodes.now };

    fn count(&self) -> usize {
        self.nodes.len()
    }

    fn reader(&self, alloc: Global) -> Reader<'a, R> {
        Reader::new(alloc, self.records)
    }

    fn evaluate(
        &self,
        _alloc: Global,
        reader: &mut Reader<'a, R>,
        ticket: Ticket,
        place: usize,
    ) -> Result<Evaluated, AllocError> {
        evaluate(
            reader,
            self.before,
            self.cells,
            self.shifts,
            &self.nodes[place],
            ticket,
        )
    }
}
