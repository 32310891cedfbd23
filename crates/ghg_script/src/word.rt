//! Words of a line, and buffers of fixed size for them.

ghost use Rattle.std.specs.Prelude.{◌≡◌, ◌≤◌, ◌<◌, ◌==◌, length, position, IfSome, MatchOption, Some, None};
ghost use Rattle.ghg_script.specs.Commands.{split_at};
ghost use Rattle.ghg_script.specs.Words.{has_length, year_in};

use arrayvec::ArrayVec;
use ghg_units::read_number;
use std::marker::Model;

/// The most bytes of an id, and of the name of a version.
pub const LONGEST_ID: usize = 60;

/// A word of a line, with room for the longest id. Contracts see its bytes as a list. It takes no memory.
#[derive(Drop)]
pub struct Word {
    bytes: ArrayVec<u8, LONGEST_ID>,
}

impl Model for Word {
    ghost use Rattle.std.specs.Prelude.{ℕ, List};

    ghost Value = { List ℕ };

    ghost view = { λ w. w.bytes.items };
}

impl Word {
    /// The word of these bytes.
    pub fn new(text: &[u8]) -> Word
        requires { length text.now ≤ LONGEST_ID }
        ensures { result ≡ text.now }
    {
        let mut bytes = ArrayVec::new();
        bytes.try_extend_from_slice(text).unwrap();
        Word { bytes }
    }

    /// The bytes of the word.
    pub fn as_slice(&self) -> &[u8]
        ensures { result.now ≡ self.now }
    {
        self.bytes.as_slice()
    }
}

/// What stands before the first space, and behind it.
pub fn parts(words: &[u8]) -> Option<(&[u8], &[u8])>
    ensures { MatchOption result (split_at 32 words.now ≡ None)
        (λ parts. split_at 32 words.now ≡ Some (parts.0.now, parts.1.now)) }
{
    match space(words) {
        Some(at) => Some((&words[..at], &words[at + 1..])),
        None => None,
    }
}

fn space(words: &[u8]) -> Option<usize>
    ensures value { result ≡ position (λ b. b == 32) words.now }
    ensures within { IfSome result (λ at. at < length words.now) }
{
    words.iter().position(|b| *b == b' ')
}

/// Whether a word has so many bytes, at the fewest and at the most.
pub fn is_between(word: &[u8], fewest: usize, most: usize) -> bool
    ensures { result ≡ has_length fewest most word.now }
{
    fewest <= word.len() && word.len() <= most
}

/// How many digits a year has.
const YEAR_DIGITS: usize = 4;

/// The year that four digits write.
pub fn year_from(digits: &[u8]) -> Option<u32>
    ensures { result ≡ year_in digits.now }
{
    match read_number(digits, YEAR_DIGITS) {
        Some(year) if digits.len() == YEAR_DIGITS => Some(year as u32),
        _ => None,
    }
}
