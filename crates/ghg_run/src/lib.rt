//! All that the program does, over any input, output, keeper and door.
//!
//! [`run`] does what the words of a command line ask for, and its contract says what that is: a script of
//! submissions and requests is answered, connections are served, a sample is generated, a series is filled,
//! or a script of a review is answered.
#![tactic(auto)]

mod commands;
mod laws;
mod opening;
mod serving;
mod splicing;

pub use commands::{run, run_counted};
pub use laws::{replies_are_sound, reviews_are_sound};
