//! An office with frozen versions: what was reported once can be set beside what holds now.
//!
//! Source: 2006 IPCC Guidelines, Volume 1, Chapter 5, Section 5.2 (recalculations).
#![tactic(auto)]

mod command;
mod desk;
mod recalculation;
mod reply;
mod version;

pub use command::Command;
pub use desk::Desk;
pub use reply::{DeskReply, append_desk_reply};
