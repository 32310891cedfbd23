//! Ids of submissions.

ghost use Rattle.std.specs.Prelude.{◌≡◌, IsTrue, SomeIff};
ghost use Rattle.std.specs.List.{list_all};
ghost use Rattle.ghg_keeper.specs.Id.{is_id, is_id_byte};

use ghg_keeper::MAX_ID_LEN;
use ghg_units::ShortText;
use std::marker::Model;

/// A text of at least one byte and at most `MAX_ID_LEN`, out of letters, digits, `.`, `_` and `-`.
#[derive(Clone, Copy, PartialEq, Eq, Hash)]
pub(crate) struct SubmissionId {
    text: ShortText<MAX_ID_LEN>,
}

impl Model for SubmissionId {
    ghost use Rattle.std.specs.Prelude.{ℕ, List, IsTrue};
    ghost use Rattle.ghg_keeper.specs.Id.{is_id};

    ghost Value = { List ℕ };

    ghost view = { λ i. i.text };

    ghost invariant = { λ i. IsTrue (is_id i.text) };

    ghost inverse = { λ text. record { text = text } };
}

impl SubmissionId {
    #[tactic(auto, unfolding(ghg_keeper::specs::Id::is_id))]
    /// The id that a text is; `None` exactly where it is none.
    pub(crate) fn new(text: &[u8]) -> Option<SubmissionId>
        ensures { SomeIff result (IsTrue (is_id text.now)) text.now }
    {
        if !is_id(text) {
            return None;
        }
        let text = ShortText::new(text)?;
        Some(SubmissionId { text })
    }

    /// The bytes of the id.
    pub(crate) fn as_bytes(&self) -> &[u8]
        ensures same { result.now ≡ self.now }
        ensures form { IsTrue (is_id result.now) }
    {
        self.text.as_bytes()
    }
}

#[tactic(auto, unfolding(ghg_keeper::specs::Id::is_id))]
fn is_id(text: &[u8]) -> bool
    ensures { result ≡ is_id text.now }
{
    !text.is_empty() && text.len() <= MAX_ID_LEN && has_id_bytes(text)
}

fn has_id_bytes(text: &[u8]) -> bool
    ensures { result ≡ list_all is_id_byte text.now }
{
    text.iter().all(|b| is_id_byte(*b))
}

fn is_id_byte(b: u8) -> bool
    ensures { result ≡ is_id_byte b }
{
    b.is_ascii_alphanumeric() || matches!(b, b'.' | b'_' | b'-')
}
