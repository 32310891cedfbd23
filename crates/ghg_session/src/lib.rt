//! Sessions: a script of submissions and requests for tables is read from a source, and answered to a sink.
//!
//! What a session is, is defined over any forms of lines and any steps that requests come to.
//! [`answer_script`] answers a script in any dialect for one office. Its contract says
//! what was read, what was written and how the office stands, with every result:
//!
//! - Where the session ends, its whole output was written. After END nothing was read, and of a malformed
//!   command at most a line, or a line and the body that this asks for.
//! - Where it is interrupted, the replies of the requests done were written, each before the next command was
//!   read, and at most a proper prefix of the next reply, or of the line that gives the malformed command. So
//!   a failure of the output never follows a complete output.
//! - Where submissions are stored, the rows that the keeper tells are the accepted submissions. A submission
//!   that the keeper fails to keep is left undone. A session that has none to keep does not touch the keeper.
//! - A failure of the input, the output or the keeper comes only where its count of faults rose.
#![tactic(auto)]

mod environment;
mod laws;
mod office;
mod reply;
mod session;
mod writing;

pub use environment::Environment;
pub use laws::what_is_left_decides;
pub use reply::{Lines, one_line, table_lines};
pub use session::{answer_script, refuse, write_lines};
pub use writing::report;
