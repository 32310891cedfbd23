//! A layer of nodes, evaluated by several workers.
//!
//! The workers claim the places of the layer one by one on a board, since nodes are uneven. What the slots
//! hold in the end depends neither on how many workers there are nor on who claims what.
#![tactic(auto)]

mod entry;
mod gate;
mod layer;
mod slots;
mod whole;
mod worker;
mod workers;

pub use gate::{Gate, OpenGate};
pub use layer::Layer;
pub use whole::evaluate_layer;
pub use workers::Workers;
