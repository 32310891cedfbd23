//! What edits change.

use ghg_definitions::RecordKey;

/// The records that edits lead to, the cells of the records before, and the keys at which alone these may
/// differ.
#[derive(Drop)]
pub(crate) struct Change<'a, R, C> {
    pub(crate) records: &'a R,
    pub(crate) before: &'a C,
    pub(crate) keys: &'a [RecordKey],
}
