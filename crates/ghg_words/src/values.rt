//! The values of options.

ghost use Rattle.std.specs.Prelude.{◌≡◌, ◌≤◌, IfSome, IsTrue};
ghost use Rattle.std.specs.Char.{is_ascii_digit};
ghost use Rattle.std.specs.List.{list_all};
ghost use Rattle.ghg_words.specs.Values.{is_store_byte, is_store_name, number_within, store_name};

use std::marker::Model;

/// The name of a store: 1 to 64 letters, digits, `.`, `_` and `-`, of which the first is neither `.` nor `-`.
#[derive(Debug, Drop)]
pub struct StoreName<'a> {
    text: &'a str,
}

impl<'a> Model for StoreName<'a> {
    ghost use Rattle.std.specs.Prelude.{List, ℕ, IsTrue};
    ghost use Rattle.ghg_words.specs.Values.{is_store_name};

    ghost Value = { List ℕ };

    ghost view = { λ name. name.text.now };

    ghost invariant = { λ name. IsTrue (is_store_name name.text.now) };
}

impl<'a> StoreName<'a> {
    /// The name that the text is. `None` where it may name no store.
    pub fn new(text: &'a str) -> Option<StoreName<'a>>
        ensures { result ≡ store_name text.now }
    {
        if is_store_name(text) {
            Some(StoreName { text })
        } else {
            None
        }
    }

    /// The name as a text.
    pub fn as_str(&self) -> &str
        ensures text { result.now ≡ self.now }
        ensures name { IsTrue (is_store_name self.now) }
    {
        self.text
    }
}

#[tactic(auto, unfolding(crate::specs::Values::is_store_name))]
fn is_store_name(text: &str) -> bool
    ensures { result ≡ is_store_name text.now }
{
    let bytes = text.as_bytes();
    if bytes.is_empty() || bytes.len() > 64 || bytes[0] == b'.' || bytes[0] == b'-' {
        return false;
    }
    all_store_bytes(bytes)
}

fn all_store_bytes(bytes: &[u8]) -> bool
    ensures { result ≡ list_all is_store_byte bytes.now }
{
    bytes.iter().all(|b| b.is_ascii_alphanumeric() || *b == b'.' || *b == b'_' || *b == b'-')
}

/// A number of 1 to 10 digits between two bounds.
#[tactic(auto, unfolding(crate::specs::Values::number_within))]
pub fn number_within(low: u32, high: u32, text: &str) -> Option<u32>
    ensures value { result ≡ number_within low high text.now }
    ensures least { IfSome result (λ n. low ≤ n) }
    ensures bound { IfSome result (λ n. n ≤ high) }
{
    if text.len() > 10 || !all_digits(text.as_bytes()) {
        return None;
    }
    let number = text.parse::<u32>().ok()?;
    if low <= number && number <= high {
        Some(number)
    } else {
        None
    }
}

fn all_digits(bytes: &[u8]) -> bool
    ensures { result ≡ list_all is_ascii_digit bytes.now }
{
    bytes.iter().all(|b| b.is_ascii_digit())
}
