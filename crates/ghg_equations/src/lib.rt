//! The equations of national inventories: gases, dimensions, and the table of equations.
//!
//! Source: 2006 IPCC Guidelines for National Greenhouse Gas Inventories, Volumes 2 to 5.
#![tactic(auto)]

mod eq_id;
mod laws;
mod quantity;
mod row;
mod sector;
mod table;

pub use eq_id::EqId;
pub use laws::{each_code_names_itself, each_expression_takes_its_parameters};
pub use quantity::{Dim, Gas, Output};
pub use row::{Equation, Param};
pub use sector::Sector;
pub use table::{eq_named, equation};
