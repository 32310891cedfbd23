//! The tree of categories that emissions and removals are reported at (2006 IPCC Guidelines, Volume 1, Table
//! 8.2).
#![tactic(auto)]

mod category;
mod laws;
mod tree;

pub use category::Category;
pub use laws::{codes_are_ordered, each_code_names_itself, under_is_by_parents};
pub use tree::{DEPTH, all, code, is_leaf, is_under, named, parent};
