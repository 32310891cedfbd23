//! Reviews: sessions whose script may also freeze the present figures, and ask what became of them.
//!
//! [`answer_review`] answers a script of `review` at a desk. What a session is, and what holds of every one,
//! is said over any requests, and here they are put to a desk. No store keeps what a review accepts.
#![tactic(auto)]

mod answering;
mod laws;
mod reply;
mod session;

pub use laws::what_is_left_decides;
pub use session::answer_review;
