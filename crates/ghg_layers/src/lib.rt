//! The nodes of a workbook by layers: each behind those of its inputs that are given.
#![tactic(auto)]

mod arranged;
mod buckets;
mod grid;
mod laws;
mod lines;
mod ranks;
mod turns;

pub use arranged::layers;
pub use buckets::Layers;
pub use laws::layers_are_in_turn;
