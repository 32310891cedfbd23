//! One HTTP request and its reply.
//!
//! [`serve_one`] serves one connection. Its contract says what was read of it, what was written, and how the
//! office and the keeper stand, however the connection ends.
#![tactic(auto)]

mod decision;
mod fields;
mod head;
mod laws;
mod reply;
mod request;
mod route;
mod serve;
mod status;

pub use decision::Refusal;
pub use laws::{
    finds_targets, holds_none_early, holds_one_request, limits_are_numbers, replies_to_repeats,
};
pub use request::Request;
pub use route::{Route, routes};
pub use serve::{LinkEnd, serve_one};
