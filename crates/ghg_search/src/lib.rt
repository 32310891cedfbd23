//! The nodes that edits affect, found by a search from those that are changed.
#![tactic(auto)]

mod changed;
mod edited;
mod found;
mod index;
mod seeds;
mod spreading;
mod years;

pub use edited::affected;
pub use index::{Index, Source};
