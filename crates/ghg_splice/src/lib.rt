//! Splicing: what a series lacks is filled from what it has, or from another series beside it.
//!
//! The techniques are those of the 2006 IPCC Guidelines, Volume 1, Chapter 5 (Time Series Consistency), each
//! in the profile of this program: linear interpolation, surrogate data and overlap. The answer is the body
//! of a submission, which a person reviews.
#![tactic(auto)]

mod fills;
mod formulas;
mod laws;
mod method;
mod quantity;
mod records;
mod refusal;
mod series;
mod splicing;
mod text;

pub use laws::{fills_hold_exact_fractions, limit_is_number};
pub use method::Method;
pub use refusal::{SpliceRefusal, append_refusal};
pub use splicing::{MAX_BODY, Spliced, splice};
