//! The submissions that were accepted.

ghost use Rattle.std.specs.Prelude.{◌≡◌, ◌+◌, ◌≤◌, ◌<◌, [], ◌∷◌, ◌++◌, length, option_map, None, OnOk};
ghost use Rattle.ghg_definitions.specs.Rules.{most_kept_bytes};
ghost use Rattle.ghg_office.specs.Accepted.{kept_bytes, kept_from};

use crate::id::SubmissionId;
use ghg_units::Text;
use indexmap::IndexMap;
use std::alloc::{AllocError, Global};
use std::hash::RandomState;
use std::marker::Model;

/// The bodies of the accepted submissions under their ids, in the order in which they were accepted.
///
/// Contracts see the list of rows, and how many more fit without memory.
#[derive(Drop)]
pub(crate) struct Accepted {
    bodies: IndexMap<SubmissionId, Text, RandomState>,
    // The sum of the lengths of the bodies.
    bytes: u64,
}

impl Model for Accepted {
    ghost use Rattle.std.specs.Prelude.{◌≡◌, ◌≤◌, ◌<◌, ◌^◌, length, map};
    ghost use Rattle.indexmap.specs.IndexMap.{spare};
    ghost use Rattle.ghg_definitions.specs.Rules.{most_kept_bytes};
    ghost use Rattle.ghg_office.specs.Accepted.{AcceptedList, accepted_code, entry_row, kept_bytes};

    ghost Value = { AcceptedList };

    ghost coded = { accepted_code };

    ghost view = { λ a. record { list = map entry_row a.bodies.entries; spare = spare a.bodies } };

    ghost invariant = { λ a.
        (a.bytes ≡ kept_bytes (map entry_row a.bodies.entries)) ×
        (a.bytes ≤ most_kept_bytes) ×
        (length a.bodies.entries < 2 ^ 64) };
}

impl Accepted {
    /// No submission. The map hashes with `hasher`. It takes no memory.
    pub(crate) fn new(alloc: Global, hasher: RandomState) -> Accepted
        ensures { result.list ≡ [] }
    {
        Accepted {
            bodies: IndexMap::with_hasher(alloc, hasher),
            bytes: 0,
        }
    }

    /// The number and the body of the submission under an id.
    pub(crate) fn find(&self, id: &SubmissionId) -> Option<(u64, &Text)>
        ensures { option_map (λ found. record { seq = found.0; body = found.1.now }) result ≡
            kept_from 1 id.now self.now.list }
    {
        let (index, _, body) = self.bodies.get_full(id)?;
        Some((index as u64 + 1, body))
    }

    /// How many submissions there are.
    pub(crate) fn len(&self) -> u64
        ensures { result ≡ length self.now.list }
    {
        self.bodies.len() as u64
    }

    /// How many bytes the bodies have.
    pub(crate) fn kept_bytes(&self) -> u64
        ensures sum { result ≡ kept_bytes self.now.list }
        ensures limit { result ≤ most_kept_bytes }
    {
        self.bytes
    }

    /// Makes room for one more submission.
    pub(crate) fn reserve(&mut self) -> Result<(), AllocError>
        ensures list { self.new.list ≡ self.old.list }
        ensures room { OnOk result (0 < self.new.spare) }
    {
        self.bodies.reserve(1)
    }

    /// Puts a submission with a new id at the end, and gives its number. It takes no memory.
    pub(crate) fn push(&mut self, id: SubmissionId, body: Text) -> u64
        requires room { 0 < self.old.spare }
        requires new_id { kept_from 1 id self.old.list ≡ None }
        requires limit { kept_bytes self.old.list + length body ≤ most_kept_bytes }
        ensures list { self.new.list ≡ self.old.list ++ (record { id = id; body = body } ∷ []) }
        ensures seq { result ≡ length self.old.list + 1 }
    {
        self.bytes += body.as_slice().len() as u64;
        drop(self.bodies.insert(id, body).unwrap());
        self.bodies.len() as u64
    }
}
