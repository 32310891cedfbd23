//! The program's command line: the words that it reads, and the statuses that it ends with.
//!
//! [`read_command`] gives the command that the words after the program's name ask for. Its contract says for
//! every list of words which command that is, or that there is none: a function of the words, which
//! `specs/Command.antt` defines. [`options_stand_in_any_order`] says that the order of the options decides
//! nothing.
#![tactic(auto)]

mod command;
mod laws;
mod options;
mod status;
mod values;

pub use command::{Command, Review, Sample, Service, Settings, Splicing, read_command};
pub use laws::options_stand_in_any_order;
pub use status::Status;
pub use values::StoreName;
