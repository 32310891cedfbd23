//! The years of the records of each activity and factor, and where these records may stand.

ghost use Rattle.std.specs.Prelude.{◌≡◌, ℕ, ◌+◌, ◌≤◌, ◌<◌, true, false, is_some, map, option_copied, OnOk};
ghost use Rattle.std.specs.Map.{lookup};
ghost use Rattle.indexmap.specs.IndexMap.{spare};
ghost use Rattle.ghg_data.specs.declared.series.Series.{Series};
ghost use Rattle.ghg_data.specs.Series.{EachHasAYear, same_series};
ghost use Rattle.ghg_data.specs.YearSet.{has_year};

use crate::series::{Series, date_of};
use crate::slots::Slots;
use crate::year_set::YearSet;
use ghg_definitions::RecordKey;
use ghg_units::Span;
use indexmap::IndexMap;
use std::alloc::{AllocError, Global};
use std::hash::RandomState;

/// The years of each series that has any, in the order of the columns of slots, and room for more series.
#[derive(Drop)]
pub(crate) struct Calendar {
    years: IndexMap<Series, YearSet, RandomState>,
    slots: Slots,
    ghost none_empty: { EachHasAYear years.entries },
}

impl Calendar {
    ghost use Rattle.ghg_data.specs.Calendar.{HasSameDates, HasYearSet, IsNoted, has_date};

    /// No years of any series. It takes no memory.
    pub(crate) fn new(alloc: Global, hasher: RandomState) -> Calendar
        ensures { (s : Series) (y : ℕ) → has_date result s y ≡ false }
    {
        Calendar {
            years: IndexMap::with_hasher(alloc, hasher),
            slots: Slots::new(alloc),
        }
    }

    /// Makes room for so many more series.
    pub(crate) fn reserve(&mut self, additional: usize) -> Result<(), AllocError>
        ensures dates { HasSameDates self.old self.new }
        ensures room { OnOk result (additional ≤ spare self.new.years) }
    {
        self.years.reserve(additional)
    }

    /// Makes room for so many more columns of slots.
    pub(crate) fn reserve_slots(&mut self, additional: usize) -> Result<(), AllocError>
        ensures { self.new.years ≡ self.old.years }
    {
        self.slots.reserve(additional)
    }

    /// Whether there are slots for each year of a span.
    pub(crate) fn has_slots(&self, span: &Span) -> bool {
        self.slots.cover(span)
    }

    /// Puts slots without places where the slots were, for the years of a span and those of before.
    pub(crate) fn widen_slots(&mut self, alloc: Global, span: &Span) -> Result<(), AllocError>
        ensures { self.new.years ≡ self.old.years }
    {
        self.slots = self.slots.widened(alloc, span, self.years.len())?;
        Ok(())
    }

    /// The series that have years, each once.
    pub(crate) fn series(&self) -> &[Series]
        ensures { result.now ≡ map (λ e. e.0) self.now.years.entries }
    {
        self.years.keys().as_slice()
    }

    /// The years of a series.
    pub(crate) fn years(&self, series: &Series) -> YearSet
        ensures { (y : ℕ) → has_year result y ≡ has_date self.now series.now y }
    {
        match self.find(series) {
            Some(years) => *years,
            None => YearSet::empty(),
        }
    }

    // The years of a series, if it has any.
    fn find(&self, series: &Series) -> Option<&YearSet>
        ensures { option_copied result ≡ lookup (same_series series.now) self.now.years.entries }
    {
        // A look-up costs a hash of the series, even where there are no entries. The series that came last is
        // tried first, since rows of one name often follow each other.
        if self.years.is_empty() {
            return None;
        }
        match self.years.get_index(self.years.len().saturating_sub(1)) {
            Some((last, years)) if last == series => Some(years),
            _ => self.years.get(series),
        }
    }

    // The number of a series, which is that of its column.
    fn number(&self, series: &Series) -> Option<usize> {
        let last = self.years.len().checked_sub(1)?;
        match self.years.get_index(last) {
            Some((name, _)) if name == series => Some(last),
            _ => self.years.get_index_of(series),
        }
    }

    /// The place where the record of a key may stand.
    pub(crate) fn place(&self, key: &RecordKey) -> Option<usize> {
        let (series, year) = date_of(key)?;
        self.slots.get(self.number(&series)?, year)
    }

    /// Writes at which place the record of a key stands. It takes no memory.
    pub(crate) fn set_place(&mut self, key: &RecordKey, place: usize)
        ensures { self.new.years ≡ self.old.years }
    {
        let Some((series, year)) = date_of(key) else {
            return;
        };
        if let Some(column) = self.number(&series) {
            self.slots.set(column, year, place);
        }
    }

    /// Notes that a key has a record, or that it has none. It takes no memory.
    pub(crate) fn note(&mut self, key: &RecordKey, present: bool)
        requires { 0 < spare self.old.years }
        ensures dates { IsNoted self.old self.new key.now present }
        ensures room { spare self.old.years ≤ spare self.new.years + 1 }
    {
        let Some((series, year)) = date_of(key) else {
            return;
        };
        if present {
            self.put(series, year);
        } else {
            self.take(&series, year);
        }
    }

    // Gives a series one more year.
    fn put(&mut self, series: Series, year: u32)
        requires { 0 < spare self.old.years }
        ensures dates { HasYearSet self.old self.new series year true }
        ensures room { spare self.old.years ≤ spare self.new.years + 1 }
    {
        if !self.put_last(&series, year) {
            self.put_any(series, year);
        }
    }

    // The same, by a search of the series.
    fn put_any(&mut self, series: Series, year: u32)
        requires { 0 < spare self.old.years }
        ensures dates { HasYearSet self.old self.new series year true }
        ensures room { spare self.old.years ≤ spare self.new.years + 1 }
    {
        if let Some(years) = self.years.get_mut(&series) {
            years.note(year, true);
            return;
        }
        let mut years = YearSet::empty();
        years.note(year, true);
        // A year that no record may be of is in no set.
        if !years.is_empty() {
            self.years.insert(series, years).unwrap();
            self.slots.add_column();
        }
    }

    // Gives the series that came last one more year, if it is this one. Answers whether it is.
    fn put_last(&mut self, series: &Series, year: u32) -> bool
        ensures dates { result ≡ true → HasYearSet self.old self.new series.now year true }
        ensures other { result ≡ false → self.new ≡ self.old }
        ensures room { spare self.old.years ≤ spare self.new.years }
    {
        let last = self.years.len().saturating_sub(1);
        match self.years.get_index(last) {
            Some((name, _)) if name == series => {}
            _ => return false,
        }
        match self.years.get_index_mut(last) {
            Some(years) => {
                years.note(year, true);
                true
            }
            None => false,
        }
    }

    // Takes a year from a series.
    fn take(&mut self, series: &Series, year: u32)
        ensures dates { HasYearSet self.old self.new series.now year false }
        ensures room { spare self.old.years ≤ spare self.new.years }
    {
        if self.years.is_empty() {
            return;
        }
        if let Some(years) = self.years.get_mut(series) {
            years.note(year, false);
            if years.is_empty() {
                let column = self.years.get_index_of(series);
                self.years.swap_remove(series);
                self.slots.remove_column(column);
            }
        }
    }
}
