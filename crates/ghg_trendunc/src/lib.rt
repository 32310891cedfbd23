//! The uncertainty of a trend, by propagation of errors.
//!
//! Source: 2006 IPCC Guidelines, Volume 1, Chapter 3, Table 3.2. Uncertainties of a line are in hundredths of
//! a percent, and what they make of the trend is in millionths of a percent.
#![tactic(auto)]

mod laws;
mod lines;
mod printing;
mod totals;

pub use laws::{trend_totals_hold_roots, trends_are_sound};
pub use lines::{TrendShare, sides};
pub use printing::print_trend;
pub use totals::{Sides, trend_total};
