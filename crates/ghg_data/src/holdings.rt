//! Records by their keys.

ghost use Rattle.std.specs.Prelude.{◌≡◌, ℕ, ◌+◌, ◌^◌, ◌≤◌, ◌<◌, ◌&&◌, true, false, OnOk, Some, None, is_some, option_copied, length};
ghost use Rattle.std.specs.FinMap as finite;
ghost use Rattle.std.specs.FinMap.{from_entries};
ghost use Rattle.std.specs.List.{AllByRecursion};
ghost use Rattle.indexmap.specs.IndexMap.{spare};
ghost use Rattle.ghg_definitions.specs.Data.{key_cmp, line, line_names};
ghost use Rattle.ghg_definitions.specs.Rows.{with_record};
ghost use Rattle.ghg_data.specs.Calendar.{IsCalendarOf, IsNoted};
ghost use Rattle.ghg_data.specs.Series.{dated};
ghost use Rattle.ghg_data.specs.Changes.{applied};
ghost use Rattle.ghg_roots.specs.Decay.{decay_bounds};
ghost use Rattle.ghg_units.specs.WellFormed.{IsHalfLife, IsWellFormed};
ghost use Rattle.ghg_units.specs.Year.{is_year};
ghost use Rattle.ghg_data.specs.YearSet.{has_year};

use crate::brackets::Brackets;
use crate::calendar::Calendar;
use crate::draft::equation_in;
use crate::edits::Edits;
use crate::names::change_names;
use crate::series::Series;
use crate::year_set::YearSet;
use ghg_definitions::{Record, RecordKey};
use ghg_equations::EqId;
use ghg_interval::Interval;
use ghg_units::{Name, Row, Span};
use indexmap::IndexMap;
use std::alloc::{AllocError, Global};
use std::hash::RandomState;
use std::marker::Model;

/// Records by their keys with the names of the lines in order, the years of the records of each activity and
/// factor, where these may stand, and the brackets of half-lives; and room for more.
#[derive(Drop)]
pub(crate) struct Holdings {
    records: IndexMap<RecordKey, Record, RandomState>,
    lines: Vec<Name>,
    calendar: Calendar,
    brackets: Brackets,
}

impl Model for Holdings {
    ghost use Rattle.std.specs.Prelude.{◌≡◌, ◌-◌, is_some, min, vec_len, vec_capacity};
    ghost use Rattle.std.specs.FinMap.{from_entries, get};
    ghost use Rattle.std.specs.Coded.{codes};
    ghost use Rattle.indexmap.specs.IndexMap.{spare};
    ghost use Rattle.ghg_definitions.specs.Data.{key_cmp, line_names};
    ghost use Rattle.ghg_data.specs.Calendar.{IsCalendarOf};
    ghost use Rattle.ghg_data.specs.Shelf.{Shelf, shelf_code};

    ghost Value = { Shelf };

    ghost coded = { shelf_code (Prim.hlevel codes) (Prim.hlevel codes) };

    ghost view = { λ h. record {
      content = from_entries h.records.entries;
      spare = min (spare h.records) (min (vec_capacity h.lines - vec_len h.lines) (spare h.calendar.years));
    } };

    ghost invariant = { λ h. (h.lines.items ≡ line_names (from_entries h.records.entries)) × IsCalendarOf
        (λ k. is_some (get {R = key_cmp} (from_entries h.records.entries) k)) h.calendar };
}

impl Holdings {
    /// No records. It takes no memory.
    pub(crate) fn new(alloc: Global, hasher: RandomState) -> Holdings
        ensures { result.content ≡ finite.empty }
    {
        Holdings {
            records: IndexMap::with_hasher(alloc, hasher),
            lines: Vec::new(alloc),
            calendar: Calendar::new(alloc, hasher),
            brackets: Brackets::new(alloc),
        }
    }

    /// What the maps hash with.
    pub(crate) fn hasher(&self) -> RandomState {
        *self.records.hasher()
    }

    /// The record under a key.
    pub(crate) fn get(&self, key: &RecordKey) -> Option<&Record>
        ensures { option_copied result ≡ finite.get self.now.content key.now }
    {
        // A look-up costs a hash of the key, even where there are no records.
        if self.records.is_empty() {
            return None;
        }
        // Where the key has no slot, the first record is tried.
        let place = self.calendar.place(key).unwrap_or(0);
        match self.records.get_index(place) {
            Some((there, record)) if there == key => Some(record),
            _ => self.records.get(key),
        }
    }

    /// The equation of a line that is present.
    pub(crate) fn line(&self, name: &Name) -> Option<EqId>
        ensures { result ≡ line self.now.content name.now }
    {
        equation_in(self.get(&RecordKey::Line(*name)))
    }

    /// How many records there are.
    pub(crate) fn len(&self) -> usize
        ensures len { result ≡ finite.len self.now.content }
        ensures small { result < 2 ^ 63 }
    {
        self.records.len()
    }

    /// The names of the lines, in order.
    pub(crate) fn lines(&self) -> &[Name]
        ensures { result.now ≡ line_names self.now.content }
    {
        &self.lines
    }

    /// The years of the records of a series.
    pub(crate) fn years(&self, series: &Series) -> YearSet
        ensures { (y : ℕ) → has_year result y ≡ is_year y && is_some
            (finite.get self.now.content (dated series.now y)) }
    {
        self.calendar.years(series)
    }

    /// Keeps the brackets of the half-lives that rows name, so that a look-up finds them.
    pub(crate) fn keep_brackets(&mut self, rows: &[Row]) -> Result<(), AllocError>
        requires { AllByRecursion IsWellFormed rows.now }
        ensures { self.new ≡ self.old }
    {
        self.brackets.keep(rows)
    }

    /// The bracket of the yearly decay factor of a half-life in tenths of a year.
    pub(crate) fn decay_bracket(&self, half_life: u32) -> Interval
        requires { IsHalfLife half_life }
        ensures { result ≡ decay_bounds half_life }
    {
        self.brackets.get(half_life)
    }

    /// Makes room for changes, after which the inventory has the years of a span. If there are no slots for
    /// these, all slots are made anew.
    pub(crate) fn reserve(
        &mut self,
        alloc: Global,
        edits: &Edits,
        span: Option<Span>,
    ) -> Result<(), AllocError>
        ensures content { self.new.content ≡ self.old.content }
        ensures room { OnOk result (length edits.now ≤ self.new.spare) }
    {
        let additional = edits.len();
        self.records.reserve(additional)?;
        self.lines.reserve(additional)?;
        self.calendar.reserve(additional)?;
        make_slots(alloc, &self.records, &mut self.calendar, span)?;
        self.calendar.reserve_slots(edits.series_put().len())
    }

    /// Makes the changes. It takes no memory.
    pub(crate) fn apply(&mut self, edits: Edits)
        requires { length edits ≤ self.old.spare }
        ensures { self.new.content ≡ applied self.old.content edits }
    {
        change_names(&mut self.lines, &edits);
        change_records(&mut self.records, &mut self.calendar, edits.into_changes());
    }
}

// Makes slots for the years of a span, unless there are.
fn make_slots(
    alloc: Global,
    records: &IndexMap<RecordKey, Record, RandomState>,
    calendar: &mut Calendar,
    span: Option<Span>,
) -> Result<(), AllocError>
    ensures { calendar.new.years ≡ calendar.old.years }
{
    let Some(span) = span else {
        return Ok(());
    };
    if calendar.has_slots(&span) {
        return Ok(());
    }
    calendar.widen_slots(alloc, &span)?;
    for place in 0..records.len() {
        if let Some((key, _)) = records.get_index(place) {
            calendar.set_place(key, place);
        }
    }
    Ok(())
}

// Makes the changes of records, and notes their years and places. It takes no memory.
fn change_records(
    records: &mut IndexMap<RecordKey, Record, RandomState>,
    calendar: &mut Calendar,
    mut changes: IndexMap<RecordKey, Option<Record>, RandomState>,
)
    requires room { length changes.entries ≤ spare records.old }
    requires years_room { length changes.entries ≤ spare calendar.old.years }
    requires years { IsCalendarOf (λ k. is_some
        (finite.get {R = key_cmp} (from_entries records.old.entries) k)) calendar.old }
    ensures content { from_entries records.new.entries ≡ applied
        (from_entries records.old.entries) changes.entries }
    ensures years { IsCalendarOf (λ k. is_some
        (finite.get {R = key_cmp} (from_entries records.new.entries) k)) calendar.new }
{
    while let Some((key, change)) = changes.pop() {
        match change {
            Some(entry) => put_record(records, calendar, key, entry),
            None => take_record(records, calendar, &key),
        }
    }
}

// Gives a key a record.
fn put_record(
    records: &mut IndexMap<RecordKey, Record, RandomState>,
    calendar: &mut Calendar,
    key: RecordKey,
    entry: Record,
)
    requires room { 0 < spare records.old }
    requires years_room { 0 < spare calendar.old.years }
    ensures content { from_entries records.new.entries ≡ with_record
        (from_entries records.old.entries) key (Some entry) }
    ensures dates { IsNoted calendar.old calendar.new key true }
    ensures room { spare records.old ≤ spare records.new + 1 }
    ensures years_room { spare calendar.old.years ≤ spare calendar.new.years + 1 }
{
    let (place, before) = records.insert_full(key, entry).unwrap();
    drop(before);
    calendar.note(&key, true);
    calendar.set_place(&key, place);
}

// Takes the record of a key. The last one comes to stand in its place.
fn take_record(
    records: &mut IndexMap<RecordKey, Record, RandomState>,
    calendar: &mut Calendar,
    key: &RecordKey,
)
    requires years_room { 0 < spare calendar.old.years }
    ensures content { from_entries records.new.entries ≡ with_record
        (from_entries records.old.entries) key.now None }
    ensures dates { IsNoted calendar.old calendar.new key.now false }
    ensures room { spare records.old ≤ spare records.new + 1 }
    ensures years_room { spare calendar.old.years ≤ spare calendar.new.years + 1 }
{
    calendar.note(key, false);
    let Some((place, _, before)) = records.swap_remove_full(key) else {
        return;
    };
    drop(before);
    if let Some((moved, _)) = records.get_index(place) {
        calendar.set_place(moved, place);
    }
}
