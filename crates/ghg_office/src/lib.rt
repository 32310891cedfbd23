//! The office that answers submissions and requests for tables.
#![tactic(auto)]

mod accepted;
mod fault;
mod id;
mod keeping;
mod laws;
mod office;
mod proposing;
mod reply;
mod request;

pub use fault::OpenFault;
pub use laws::{
    accepted_lists_rebuild_states, bounds_hold_in_force, repeats_act_once, replays_rebuild_states,
    states_stay_in_force,
};
pub use office::Office;
pub use reply::{Reply, ShortLine, append_reply, short_text};
pub use request::Request;
