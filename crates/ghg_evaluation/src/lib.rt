//! The evaluation of one node over the cells of its inputs.
//!
//! A line and an equivalent follow from the outcomes of their inputs, a total from what it was in the
//! workbook before and what its categories have lost and gained since. A reader serves one evaluation after
//! another, of any nodes in any order.
#![tactic(auto)]

mod arguments;
mod emission;
mod kept;
mod reader;

pub use emission::emitted_at;
pub use reader::{Reader, evaluate, kept_input};
