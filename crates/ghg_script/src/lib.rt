//! Scripts: commands, which are read from a source one by one.
//!
//! A script is a sequence of lines, some of which have a body behind them. What its lines may say is a
//! [`Dialect`]: [`Script`] is that of submissions and requests for tables, and [`Review`] has requests for
//! comparisons with earlier data besides. [`next_command`] reads the next command and takes no byte behind
//! it; of what is no command it takes at most a line, or a line and the body that this asks for.
//! [`parses_texts`] says how the commands are written, and [`lines_say_forms`] what their lines may say.
#![tactic(auto)]

mod command;
mod dialect;
mod laws;
mod reading;
mod review;
mod script;
mod word;

pub use command::{Command, Line, Request};
pub use dialect::Dialect;
pub use laws::{limits_are_numbers, lines_say_forms, parses_texts, reads_locally, reads_once};
pub use reading::{MOST_COMMANDS, next_command};
pub use review::{Review, ReviewQuery};
pub use script::{Script, TableQuery};
pub use word::Word;
