//! Dependencies of a workbook: the order of its lines, rings, and the inputs of its nodes.
#![tactic(auto)]

mod cells;
mod clear;
mod components;
mod dependencies;
mod gases;
mod least;
mod links;
mod moves;
mod nodes;
mod numbers;
mod operands;
mod ordering;
mod rings;
mod search;
mod slots;
mod walk;

pub use cells::Cells;
pub use dependencies::check_changed;
pub use gases::{line_gas, potential};
pub use links::Links;
pub use moves::{Moved, moved_totals};
pub use nodes::Nodes;
pub use numbers::{equation_of, links_of, number_of};
pub use operands::{Operand, bound_operand, differ};
pub use ordering::{check_acyclic, line_order};
pub use rings::{CycleRefusal, Ring};
pub use slots::{Scope, Slot, counts_in_gross, first_year, inputs_of, is_in_tree, is_within};
pub use walk::{Met, Stop, order};
