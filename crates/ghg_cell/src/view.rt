//! What a pass knows.

use std::collections::LinkedList;

/// What one pass knows. No value of it is made: it stands in proofs alone.
pub struct View {
    /// How many places the board has.
    pub places: u64,
    /// The places that the pass claimed, in order.
    pub claimed: LinkedList<u64>,
    /// How many more claims the pass, and those that are split off from it, may make in vain.
    pub stake: u64,
    /// How many claims found no place left.
    pub misses: u64,
}
