//! What a command works with.

use ghg_workers::Workers;
use std::alloc::Global;

/// What a command works with.
#[derive(Drop)]
pub struct Environment<'a, T, G> {
    /// Its memory.
    pub alloc: Global,
    /// Who evaluates.
    pub workers: Workers<'a, T, G>,
    /// Whether the keeper keeps the accepted submissions.
    pub stored: bool,
}
