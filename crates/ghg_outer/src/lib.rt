//! The outside as the program sees it: where bytes come from, where they go, and how often that failed.
//!
//! Contracts see each object of the outside as a tape: what is left to be read, what was taken and what was
//! written, where that is known, and how many calls failed. A read takes from the front of what is left, and
//! a write appends. Neither does anything else, and the count rises exactly where a call fails.
//!
//! A link is both a source and a sink, and a door gives links and takes them back.
//!
//! The forms in memory are proved to meet this. [`InputSource`], [`OutputSink`], [`TcpDoor`] and [`TcpLink`]
//! are the trusted edge: what the process's own input, output and connections hold is known to no contract.
//! It is proved that their count rose where they answer an error, and that they give and take the bytes of
//! readers, writers and streams that tell them. They make a call again that a signal interrupted, and no such
//! interruption is counted as an error.
#![tactic(auto)]

mod door;
mod fault_plan;
mod links;
mod memory;
mod memory_door;
mod sink;
mod source;
mod steady;
mod streams;
mod tcp;
mod told;
mod writing;

pub use door::Door;
pub use fault_plan::FaultPlan;
pub use links::{MemoryLink, SteadyLink};
pub use memory::{MemorySink, MemorySource};
pub use memory_door::MemoryDoor;
pub use sink::{Sink, WriteError};
pub use source::{Failed, Source};
pub use steady::{SteadySink, SteadySource};
pub use streams::{InputSource, OutputSink};
pub use tcp::{TcpDoor, TcpLink};
pub use told::Told;
pub use writing::write_all;
