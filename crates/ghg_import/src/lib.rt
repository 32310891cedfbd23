//! The rows of a submission, read from its body.
#![tactic(auto)]

mod columns;
mod fault;
mod form;
mod kind;
mod laws;
mod reader;
mod rows;
mod sum;
mod table;

pub use laws::{limit_is_number, rows_are_well_formed};
pub use rows::{MAX_BODY, Rows, is_too_long, read_rows};
