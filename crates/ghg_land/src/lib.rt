//! The equations of land: 2006 IPCC Guidelines, Volume 4, chapter 2.
//!
//! Each call is one row of the table of equations, and each takes the inputs of a node in the order of its
//! parameters, in the base units of their dimensions. It gives the value of the row's expression, on points
//! and on ranges: blank where an input is, else `Over` exactly where a result on the way is beyond the limit
//! of intervals.
#![tactic(auto)]

mod biomass;
mod dispatch;
mod fire;
mod stocks;

pub use dispatch::evaluate;
