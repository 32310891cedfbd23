//! Fresh cells over cells that are kept.

ghost use Rattle.std.specs.Prelude.{◌≡◌, None, OnOk};
ghost use Rattle.std.specs.Option.{option_map};
ghost use Rattle.ghg_columns.specs.Cells.{no_outcomes, outcome_behind, outcome_in, with_outcome};
ghost use Rattle.ghg_columns.specs.Fresh.{fresh_at};
ghost use Rattle.ghg_columns.specs.Overlays.{outcomes_of};

use crate::cells::Cells;
use crate::fresh::FreshCells;
use ghg_cell::{Input, Value};
use ghg_interval::Over;
use ghg_units::Node;
use std::alloc::{AllocError, Global};

/// Cells of nodes that are evaluated anew, in front of cells that are kept.
#[derive(Drop)]
pub struct Overlay<'a> {
    fresh: FreshCells,
    kept: &'a Cells,
}

impl<'a> Overlay<'a> {
    /// No fresh cells yet. The nodes will have years from the first to the last. It takes no memory.
    pub fn over(alloc: Global, kept: &'a Cells, first: u32, last: u32) -> Overlay<'a>
        ensures fresh { fresh_at result.fresh ≡ no_outcomes }
        ensures kept { result.kept.now ≡ kept.now }
    {
        Overlay {
            fresh: FreshCells::new(alloc, first, last),
            kept,
        }
    }

    /// The outcome of a node, which is blank where it has no cell.
    pub fn outcome(&self, node: &Node) -> Result<Input, Over>
        ensures { result ≡ outcome_in (outcomes_of self.now) node.now }
    {
        match self.get(node) {
            Some(Ok(value)) => Ok(*value.input()),
            Some(Err(Over)) => Err(Over),
            None => Ok(Input::Blank),
        }
    }

    // The outcome of a node, if it has a cell.
    fn get(&self, node: &Node) -> Option<Result<&Value, Over>>
        ensures { option_map outcome_behind result ≡ outcomes_of self.now node.now }
    {
        if let Some(outcome) = self.fresh.get(node) {
            return Some(outcome);
        }
        let value = self.kept.get(node)?;
        Some(Ok(value))
    }

    /// Gives a node without a fresh cell its outcome.
    pub fn insert(&mut self, node: &Node, outcome: Result<Value, Over>) -> Result<(), AllocError>
        requires { fresh_at self.old.fresh node.now ≡ None }
        ensures outcomes { OnOk result (outcomes_of self.new ≡ with_outcome
            (outcomes_of self.old) node.now outcome) }
        ensures fresh { OnOk result (fresh_at self.new.fresh ≡ with_outcome
            (fresh_at self.old.fresh) node.now outcome) }
        ensures kept { OnOk result (self.new.kept.now ≡ self.old.kept.now) }
    {
        self.fresh.insert(node, outcome)
    }

    /// The fresh cells.
    pub fn into_fresh(self) -> FreshCells
        ensures { result ≡ self.entry.fresh }
    {
        self.fresh
    }
}
