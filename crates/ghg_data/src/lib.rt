//! The records of a workbook: reading them, planning what rows make of them, and committing a plan.
#![tactic(auto)]

mod bindings;
mod book;
mod brackets;
mod calendar;
mod draft;
mod edits;
mod holdings;
mod lasting;
mod limits;
mod lookups;
mod measures;
mod names;
mod parameters;
mod plan;
mod records;
mod refusal;
mod rows;
mod series;
mod slots;
mod unsettled;
mod view;
mod year_set;

pub use book::{Book, after};
pub use edits::Edits;
pub use lasting::Lasting;
pub use lookups::input_of_key;
pub use names::take_name;
pub use parameters::params_of;
pub use records::Records;
pub use refusal::PlanRefusal;
pub use view::After;
pub use year_set::YearSet;
