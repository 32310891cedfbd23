//! Sets of years.

ghost use Rattle.std.specs.Prelude.{◌≡◌, ℕ, ◌≤◌, ◌<◌, Bool, true, false, cond, not, ◌&&◌, ◌||◌, ◌==◌, ◌↔◌, IsTrue, MatchOption, nat_lt};
ghost use Rattle.ghg_units.specs.Year.{is_year};
ghost use Rattle.ghg_data.specs.YearSet.{HasNoYear, has_bit, has_place, has_year};

use ghg_units::{EARLIEST_YEAR, LATEST_YEAR};

// How many years a word holds.
const WORD: u32 = 128;

/// Years up to the last one, each as a bit. The lowest bit is for the last year.
#[derive(Clone, Copy, Drop)]
pub struct YearSet {
    late: u128,
    early: u128,
}

impl YearSet {
    /// No years.
    pub fn empty() -> YearSet
        ensures { HasNoYear result }
    {
        YearSet { late: 0, early: 0 }
    }

    /// Whether it holds no year.
    pub fn is_empty(&self) -> bool
        ensures { IsTrue result ↔ HasNoYear self.now }
    {
        self.last_until(LATEST_YEAR).is_none()
    }

    /// The set with this year, or without it. A year that no record may be of changes nothing.
    pub fn with(&self, year: u32, present: bool) -> YearSet
        ensures { (y : ℕ) → has_year result y ≡ cond (is_year year && (y == year)) present
            (has_year self.now y) }
    {
        if year < EARLIEST_YEAR || year > LATEST_YEAR {
            return *self;
        }
        let place = LATEST_YEAR - year;
        if place < WORD {
            YearSet {
                late: with_bit(self.late, place, present),
                early: self.early,
            }
        } else {
            YearSet {
                late: self.late,
                early: with_bit(self.early, place - WORD, present),
            }
        }
    }

    /// Puts a year in, or takes it out. A year that no record may be of changes nothing.
    pub(crate) fn note(&mut self, year: u32, present: bool)
        ensures { (y : ℕ) → has_year self.new y ≡ cond (is_year year && (y == year)) present
            (has_year self.old y) }
    {
        *self = self.with(year, present);
    }

    /// The set once some years are put in and others are taken out.
    pub fn changed(&self, put: &YearSet, taken: &YearSet) -> YearSet
        ensures { (y : ℕ) → has_year result y ≡ has_year put.now y ||
            (has_year self.now y && not (has_year taken.now y)) }
    {
        YearSet {
            late: changed_word(self.late, put.late, taken.late),
            early: changed_word(self.early, put.early, taken.early),
        }
    }

    /// The greatest year that is not after this one.
    pub(crate) fn last_until(&self, year: u32) -> Option<u32>
        ensures { MatchOption result ((y : ℕ) → y ≤ year → has_year self.now y ≡ false)
            (λ s. (s ≤ year) × (has_year self.now s ≡ true) ×
            ((y : ℕ) → s < y → y ≤ year → has_year self.now y ≡ false)) }
    {
        match self.next_place(LATEST_YEAR.saturating_sub(year)) {
            Some(place) => Some(LATEST_YEAR - place),
            None => None,
        }
    }

    /// The least year that is after this one.
    pub fn first_after(&self, year: u32) -> Option<u32>
        ensures { MatchOption result ((y : ℕ) → year < y → has_year self.now y ≡ false)
            (λ s. (year < s) × (has_year self.now s ≡ true) ×
            ((y : ℕ) → year < y → y < s → has_year self.now y ≡ false)) }
    {
        match self.last_place(LATEST_YEAR.saturating_sub(year)) {
            Some(place) => Some(LATEST_YEAR - place),
            None => None,
        }
    }

    /// Whether it holds a year.
    pub(crate) fn has(&self, year: u32) -> bool
        ensures { result ≡ has_year self.now year }
    {
        match self.last_until(year) {
            Some(found) => found == year,
            None => false,
        }
    }

    // The first place from this one on that is taken.
    fn next_place(&self, from: u32) -> Option<u32>
        ensures { MatchOption result ((i : ℕ) → from ≤ i → has_place self.now i ≡ false)
            (λ p. (from ≤ p) × (p < 256) × (has_place self.now p ≡ true) ×
            ((i : ℕ) → from ≤ i → i < p → has_place self.now i ≡ false)) }
    {
        if let Some(place) = next_bit(self.late, from) {
            return Some(place);
        }
        match next_bit(self.early, from.saturating_sub(WORD)) {
            Some(place) => Some(WORD + place),
            None => None,
        }
    }

    // The last place below this one that is taken.
    fn last_place(&self, below: u32) -> Option<u32>
        ensures { MatchOption result ((i : ℕ) → i < below → has_place self.now i ≡ false)
            (λ p. (p < below) × (has_place self.now p ≡ true) ×
            ((i : ℕ) → p < i → i < below → has_place self.now i ≡ false)) }
    {
        if let Some(place) = last_bit(self.early, below.saturating_sub(WORD)) {
            return Some(WORD + place);
        }
        last_bit(self.late, below.min(WORD))
    }
}

// The word with this bit set, or cleared.
fn with_bit(word: u128, place: u32, present: bool) -> u128
    requires { place < 128 }
    ensures { (i : ℕ) → has_bit result i ≡ cond (i == place) present (has_bit word i) }
{
    if present {
        word | (1 << place)
    } else {
        word & !(1 << place)
    }
}

// The word once some bits are set and others are cleared.
fn changed_word(word: u128, put: u128, taken: u128) -> u128
    ensures { (i : ℕ) → has_bit result i ≡ has_bit put i || (has_bit word i && not (has_bit taken i)) }
{
    put | (word & !taken)
}

// The place of the first bit from this one on that is set.
fn next_bit(word: u128, from: u32) -> Option<u32>
    ensures { MatchOption result ((i : ℕ) → from ≤ i → has_bit word i ≡ false)
        (λ p. (from ≤ p) × (p < 128) × (has_bit word p ≡ true) ×
        ((i : ℕ) → from ≤ i → i < p → has_bit word i ≡ false)) }
{
    if from >= WORD {
        return None;
    }
    let rest = word >> from;
    if rest == 0 {
        return None;
    }
    Some(from + rest.trailing_zeros())
}

// The place of the last bit below this one that is set.
fn last_bit(word: u128, below: u32) -> Option<u32>
    ensures { MatchOption result ((i : ℕ) → i < below → has_bit word i ≡ false)
        (λ p. (p < below) × (p < 128) × (has_bit word p ≡ true) ×
        ((i : ℕ) → p < i → i < below → has_bit word i ≡ false)) }
{
    let rest = bits_below(word, below);
    if rest == 0 {
        return None;
    }
    Some(WORD - 1 - rest.leading_zeros())
}

// The bits below this one alone.
fn bits_below(word: u128, below: u32) -> u128
    ensures { (i : ℕ) → has_bit result i ≡ has_bit word i && nat_lt i below }
{
    if below >= WORD {
        word
    } else {
        word & ((1 << below) - 1)
    }
}
