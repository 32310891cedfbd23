//! The compilation of a workbook: the value of each line, equivalent and total in each year.
#![tactic(auto)]

mod change;
mod engine;
mod evaluation;
mod layer;
mod nodes;
mod notes;
mod progress;
mod proposal;
mod refusal;
mod withdrawn;

pub use engine::Engine;
pub use proposal::Proposal;
pub use refusal::EngineRefusal;
