//! What a worker hands in.

/// A place of a layer, and what its node gave.
#[derive(Drop)]
pub(crate) struct Entry<O> {
    pub(crate) place: u64,
    pub(crate) outcome: O,
}
