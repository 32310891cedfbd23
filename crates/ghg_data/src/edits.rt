//! Edits of a book.

ghost use Rattle.std.specs.Prelude.{◌≡◌, ℕ, ◌^◌, ◌<◌, ◌&&◌, true, [], Some, length, map, slice_get, option_copied, IfOk, OnOk, OnErr};
ghost use Rattle.std.specs.FinMap.{find};
ghost use Rattle.std.specs.List.{IsDistinct};
ghost use Rattle.std.specs.Ordering.{eq_by_cmp};
ghost use Rattle.ghg_definitions.specs.Data.{Data, key_cmp};
ghost use Rattle.ghg_definitions.specs.Listed.{IsListed};
ghost use Rattle.ghg_definitions.specs.Rows.{with_record};
ghost use Rattle.ghg_data.specs.Calendar.{is_put, is_taken};
ghost use Rattle.ghg_data.specs.declared.series.Series.{Series};
ghost use Rattle.ghg_data.specs.Series.{dated};
ghost use Rattle.ghg_data.specs.Changes.{ChangesAlso, applied};
ghost use Rattle.ghg_units.specs.Year.{is_year};
ghost use Rattle.ghg_data.specs.YearSet.{has_year};

use crate::calendar::Calendar;
use crate::series::Series;
use crate::year_set::YearSet;
use ghg_definitions::{Record, RecordKey};
use indexmap::IndexMap;
use std::alloc::{AllocError, Global};
use std::hash::RandomState;
use std::marker::Model;

/// Keys that are set or removed, each once, and room for them in their book.
#[derive(Drop)]
pub struct Edits {
    changes: IndexMap<RecordKey, Option<Record>, RandomState>,
    // The dates that are set, and those that are removed.
    put: Calendar,
    taken: Calendar,
}

impl Model for Edits {
    ghost use Rattle.std.specs.Prelude.{List};
    ghost use Rattle.std.specs.FinMap.{find};
    ghost use Rattle.ghg_definitions.specs.Data.{key_cmp};
    ghost use Rattle.ghg_data.specs.Calendar.{IsCalendarOf, is_put, is_taken};
    ghost use Rattle.ghg_data.specs.Changes.{Change};

    ghost Value = { List Change };

    ghost view = { λ e. e.changes.entries };

    ghost invariant = { λ e. IsCalendarOf (λ k. is_put (find key_cmp k e.changes.entries)) e.put
        × IsCalendarOf (λ k. is_taken (find key_cmp k e.changes.entries)) e.taken };
}

impl Edits {
    /// No changes. It takes no memory.
    pub(crate) fn new(alloc: Global, hasher: RandomState) -> Edits
        ensures { result ≡ [] }
    {
        Edits {
            changes: IndexMap::with_hasher(alloc, hasher),
            put: Calendar::new(alloc, hasher),
            taken: Calendar::new(alloc, hasher),
        }
    }

    /// No changes, and room for so many.
    pub(crate) fn with_capacity(
        alloc: Global,
        hasher: RandomState,
        count: usize,
    ) -> Result<Edits, AllocError>
        ensures { IfOk result (λ edits. edits ≡ []) }
    {
        Ok(Edits {
            changes: IndexMap::with_capacity_and_hasher(alloc, count, hasher)?,
            put: Calendar::new(alloc, hasher),
            taken: Calendar::new(alloc, hasher),
        })
    }

    /// The keys that are set or removed, each once.
    pub fn keys(&self) -> &[RecordKey]
        ensures keys { result.now ≡ map (λ c. c.0) self.now }
        ensures differ { IsDistinct (eq_by_cmp key_cmp) result.now }
    {
        self.changes.keys().as_slice()
    }

    /// How many keys are set or removed.
    pub(crate) fn len(&self) -> usize
        ensures len { result ≡ length self.now }
        ensures small { result < 2 ^ 63 }
    {
        self.changes.len()
    }

    /// A change by its number.
    pub(crate) fn at(&self, index: usize) -> (&RecordKey, &Option<Record>)
        requires { index < length self.now }
        ensures { slice_get self.now index ≡ Some (result.0.now, result.1.now) }
    {
        self.changes.get_index(index).unwrap()
    }

    /// The change of a key.
    pub(crate) fn get(&self, key: &RecordKey) -> Option<&Option<Record>>
        ensures { option_copied result ≡ find key_cmp key.now self.now }
    {
        // A look-up costs a hash of the key, even where there are no changes. The last change is tried first,
        // since rows of one name often follow each other.
        if self.changes.is_empty() {
            return None;
        }
        match self.changes.get_index(self.changes.len().saturating_sub(1)) {
            Some((last, change)) if last == key => Some(change),
            _ => self.changes.get(key),
        }
    }

    /// Makes one more change.
    pub(crate) fn put(&mut self, key: RecordKey, change: Option<Record>) -> Result<(), AllocError>
        ensures ok { OnOk result ((m : Data) → applied m self.new ≡ with_record
            (applied m self.old) key change) }
        ensures keys { OnOk result (ChangesAlso key self.old self.new) }
        ensures err { OnErr result (self.new ≡ self.old) }
    {
        self.changes.reserve(1)?;
        self.put.reserve(1)?;
        self.taken.reserve(1)?;
        self.put.note(&key, change.is_some());
        self.taken.note(&key, change.is_none());
        drop(self.changes.insert(key, change).unwrap());
        Ok(())
    }

    /// The years of a series for which a record is set.
    pub(crate) fn years_put(&self, series: &Series) -> YearSet
        ensures { (y : ℕ) → has_year result y ≡ is_year y && is_put
            (find key_cmp (dated series.now y) self.now) }
    {
        self.put.years(series)
    }

    /// The series of which a record is set, each once.
    pub(crate) fn series_put(&self) -> &[Series]
        ensures { (s : Series) (y : ℕ) → is_year y && is_put
            (find key_cmp (dated s y) self.now) ≡ true → IsListed s result.now }
    {
        self.put.series()
    }

    /// The years of a series for which the record is removed.
    pub(crate) fn years_taken(&self, series: &Series) -> YearSet
        ensures { (y : ℕ) → has_year result y ≡ is_year y && is_taken
            (find key_cmp (dated series.now y) self.now) }
    {
        self.taken.years(series)
    }

    /// The series of which a record is removed, each once.
    pub(crate) fn series_taken(&self) -> &[Series]
        ensures { (s : Series) (y : ℕ) → is_year y && is_taken
            (find key_cmp (dated s y) self.now) ≡ true → IsListed s result.now }
    {
        self.taken.series()
    }

    /// The changes themselves.
    pub(crate) fn into_changes(self) -> IndexMap<RecordKey, Option<Record>, RandomState>
        ensures { result.entries ≡ self }
    {
        let Edits { changes, .. } = self;
        changes
    }
}
