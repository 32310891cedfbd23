//! The generator: submissions that a seed and a number of lines decide, and the summary of their run.
//!
//! [`generate`] answers them in memory, and its contract says which text comes of that: a function of the two
//! numbers, whatever the number of workers.
#![tactic(auto)]

mod bodies;
mod draws;
mod progress;
mod running;

pub use running::generate;
