//! What is told of evaluations.

/// Is told of each evaluation before it begins, by the node's place in the list of affected nodes arranged
/// by layers, from 0. Gates of tests count, or let places wait for others.
pub trait Gate: Sync {
    /// Called before the node at the place is evaluated.
    fn at(&self, place: u64);
}

/// The gate of the program. It does nothing.
#[derive(Drop)]
pub struct OpenGate;

impl Gate for OpenGate {
    fn at(&self, _place: u64) {}
}
