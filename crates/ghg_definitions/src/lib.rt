//! What a workbook is: its records, what rows do to them, the rules that they keep, and the value of each
//! line.
//!
//! The definitions stand in `specs/`. The types that code and definitions share are Rust's.
#![tactic(auto)]

mod laws;
mod limits;
mod place;
mod record;

pub use laws::{
    choices_exist, choices_have_valuations, compilations_contain, factors_in_force_are_latest,
    have_one_trial, inputs_hold_their_figures, limits_are_numbers, overflows_are_least,
    overflows_break, plans_keep_workbooks, rings_are_named, rules_are_in_order, trials_are_finite,
    valuations_are_equal,
};
pub use limits::{LONGEST_SPAN, MOST_KEPT_BYTES, MOST_LINES, MOST_RECORDS};
pub use place::Place;
pub use record::{Record, RecordKey};
