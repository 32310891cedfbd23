//! Cells: the outcomes of nodes, in dense columns with empty slots, and fresh cells over those that are kept.
#![tactic(auto)]

mod cells;
mod column;
mod fresh;
mod overlay;
mod series;
mod written;

pub use cells::Cells;
pub use fresh::FreshCells;
pub use overlay::Overlay;
pub use series::{Series, year_of};
