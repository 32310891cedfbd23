//! Totals after a change of data, from what they were.
//!
//! Where the old data have a compilation, a total of the new data is what it was, less what the changed lines
//! gave, plus what they give now. So it reads no other line and no other total.
#![tactic(auto)]

mod evaluated;
mod extents;
mod laws;
mod shift;
mod shifts;
mod sum;

pub use evaluated::Evaluated;
pub use laws::{shifts_have_room, total_is_noted, totals_are_exchanged, totals_have_shifts};
pub use shift::Shift;
pub use shifts::Shifts;
pub use sum::Sum;
