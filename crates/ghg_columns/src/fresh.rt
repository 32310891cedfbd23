//! Cells of nodes that are evaluated anew.

ghost use Rattle.std.specs.Prelude.{◌≡◌, None, Ok, OnOk, option_copied};
ghost use Rattle.std.specs.Option.{option_map};
ghost use Rattle.ghg_columns.specs.Cells.{cells_in, no_outcomes, outcome_behind, with_outcome};
ghost use Rattle.ghg_columns.specs.Fresh.{fresh_at};
ghost use Rattle.ghg_columns.specs.Written.{column_in};

use crate::column::Years;
use crate::series::{Series, year_of};
use crate::written::Written;
use ghg_cell::Value;
use ghg_interval::Over;
use ghg_units::Node;
use std::alloc::{AllocError, Global};
use std::collections::BTreeSet;

/// The outcomes of nodes that are evaluated anew, each once.
#[derive(Drop)]
pub struct FreshCells {
    pub(crate) values: Written,
    // The nodes that are over.
    over: BTreeSet<Node>,
    years: Years,
}

impl FreshCells {
    /// No cells. The nodes will have years from the first to the last, in each series mostly in this order.
    /// It takes no memory.
    pub fn new(alloc: Global, first: u32, last: u32) -> FreshCells
        ensures { fresh_at result ≡ no_outcomes }
    {
        FreshCells {
            values: Written::new(alloc),
            over: BTreeSet::new(alloc),
            years: Years { first, last },
        }
    }

    /// The outcome of a node, if it has a cell.
    pub fn get(&self, node: &Node) -> Option<Result<&Value, Over>>
        ensures { option_map outcome_behind result ≡ fresh_at self.now node.now }
    {
        match self.value(node) {
            Some(value) => Some(Ok(value)),
            None if self.over.contains(node) => Some(Err(Over)),
            None => None,
        }
    }

    // The value of a node, if it has one.
    fn value(&self, node: &Node) -> Option<&Value>
        ensures { option_map Ok (option_copied result) ≡ cells_in (column_in self.now.values) node.now }
    {
        let column = self.values.column(&Series::of(node))?;
        column.get(year_of(node))
    }

    /// Gives a node without a cell its outcome.
    pub fn insert(&mut self, node: &Node, outcome: Result<Value, Over>) -> Result<(), AllocError>
        requires { fresh_at self.old node.now ≡ None }
        ensures { OnOk result (fresh_at self.new ≡ with_outcome (fresh_at self.old) node.now outcome) }
    {
        match outcome {
            Ok(value) => self.values.put(node, value, &self.years),
            Err(Over) => {
                self.over.insert(*node)?;
                Ok(())
            }
        }
    }
}
