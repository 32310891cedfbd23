//! The values of a series, year by year.

ghost use Rattle.std.specs.Prelude.{◌≡◌, ℕ, ◌+◌, ◌<◌, ◌≤◌, ◌==◌, [], if◌then◌else◌, length, slice_index_or, None, Some, IfOk, OnOk, option_copied};
ghost use Rattle.std.specs.Option.{option_or};
ghost use Rattle.ghg_columns.specs.Columns.{CanTake, end_of, value_in};

use ghg_cell::Value;
use std::alloc::{AllocError, Global};
use std::mem::size_of;

/// A slot takes 96 bytes.
const _: () = prove!(size_of::<Option<Value>>() == 96);

/// The years that fresh nodes have, from the first to the last.
#[derive(Clone, Copy)]
pub(crate) struct Years {
    pub(crate) first: u32,
    pub(crate) last: u32,
}

/// The values of a series: a slot for each year from the first on, empty where the year has no value.
#[derive(Drop)]
pub(crate) struct Column {
    first: u32,
    slots: Vec<Option<Value>>,
}

impl Column {
    /// No slots. It takes no memory.
    pub(crate) fn new(alloc: Global) -> Column
        ensures { result.slots.items ≡ [] }
    {
        Column {
            first: 0,
            slots: Vec::new(alloc),
        }
    }

    /// A single slot, with the value of its year.
    pub(crate) fn of(alloc: Global, year: u32, value: Value) -> Result<Column, AllocError>
        ensures { IfOk result (λ column. (y : ℕ) → value_in column y ≡
            (if y == year then Some value else None)) }
    {
        let mut slots = Vec::with_capacity(alloc, 1)?;
        slots.push(Some(value))?;
        Ok(Column { first: year, slots })
    }

    /// The value of a year, if it has one.
    pub(crate) fn get(&self, year: u32) -> Option<&Value>
        ensures { option_copied result ≡ value_in self.now year }
    {
        let offset = year.checked_sub(self.first)?;
        self.slots.get(offset as usize)?.as_ref()
    }

    /// Gives a year its value. If the year has no slot, the column is made to reach over it.
    pub(crate) fn put(&mut self, year: u32, value: Value, years: &Years) -> Result<(), AllocError>
        ensures { OnOk result ((y : ℕ) → value_in self.new y ≡
            (if y == year then Some value else value_in self.old y)) }
    {
        self.reach(year, years)?;
        let offset = (year - self.first) as usize;
        self.slots[offset] = Some(value);
        Ok(())
    }

    // Makes it reach over a year. More years are likely to follow. So at its end it grows up to the last year
    // of the fresh nodes, and at its front down to the first.
    fn reach(&mut self, year: u32, years: &Years) -> Result<(), AllocError>
        ensures values { (y : ℕ) → value_in self.new y ≡ value_in self.old y }
        ensures first { OnOk result (self.new.first ≤ year) }
        ensures end { OnOk result (year < end_of self.new) }
    {
        if year < self.first {
            self.begin_with(years.first.min(year))?;
        }
        let offset = (year - self.first) as usize;
        if self.slots.len() <= offset {
            let behind = years.last.saturating_sub(year) as usize;
            self.lengthen(offset + 1 + behind)?;
        }
        Ok(())
    }

    /// Makes room for the slots of a fresh column, by empty slots. A column without slots has room for any.
    pub(crate) fn make_room(&mut self, fresh: &Column) -> Result<(), AllocError>
        ensures values { (y : ℕ) → value_in self.new y ≡ value_in self.old y }
        ensures room { OnOk result (CanTake self.new fresh.now) }
    {
        if self.slots.is_empty() {
            return Ok(());
        }
        self.begin_with(fresh.first)?;
        let before = (fresh.first - self.first) as usize;
        self.lengthen(before + fresh.slots.len())
    }

    /// Takes over the values of a fresh column, in place of those of the same years. It takes no memory.
    pub(crate) fn take(&mut self, fresh: Column)
        requires { CanTake self.old fresh }
        ensures { (y : ℕ) → value_in self.new y ≡ option_or (value_in fresh y) (value_in self.old y) }
    {
        if self.slots.is_empty() {
            *self = fresh;
        } else {
            self.overwrite(fresh);
        }
    }

    // Writes the values of a fresh column into the slots of their years.
    fn overwrite(&mut self, fresh: Column)
        requires first { self.old.first ≤ fresh.first }
        requires end { end_of fresh ≤ end_of self.old }
        ensures { (y : ℕ) → value_in self.new y ≡ option_or (value_in fresh y) (value_in self.old y) }
    {
        let before = (fresh.first - self.first) as usize;
        let mut slots = fresh.slots;
        while let Some(slot) = slots.pop() {
            if slot.is_some() {
                let offset = before + slots.len();
                self.slots[offset] = slot;
            }
        }
    }

    // Makes it begin with a year or before it, by empty slots.
    fn begin_with(&mut self, first: u32) -> Result<(), AllocError>
        ensures values { (y : ℕ) → value_in self.new y ≡ value_in self.old y }
        ensures first { OnOk result (self.new.first ≤ first) }
    {
        if self.first <= first {
            return Ok(());
        }
        let count = (self.first - first) as usize;
        let mut slots = Vec::with_capacity(*self.slots.allocator(), count + self.slots.len())?;
        add_empty(&mut slots, count)?;
        slots.append(&mut self.slots)?;
        self.slots = slots;
        self.first = first;
        Ok(())
    }

    // Makes it have so many slots, if it has fewer, by empty ones.
    fn lengthen(&mut self, count: usize) -> Result<(), AllocError>
        ensures values { (y : ℕ) → value_in self.new y ≡ value_in self.old y }
        ensures first { self.new.first ≡ self.old.first }
        ensures count { OnOk result (count ≤ length self.new.slots.items) }
    {
        let missing = count.saturating_sub(self.slots.len());
        add_empty(&mut self.slots, missing)
    }
}

// Adds so many empty slots at the end, and makes no room for more.
fn add_empty(slots: &mut Vec<Option<Value>>, count: usize) -> Result<(), AllocError>
    ensures values { (i : ℕ) → slice_index_or slots.new.items i None ≡ slice_index_or slots.old.items i None }
    ensures count { OnOk result (length slots.new.items ≡ length slots.old.items + count) }
{
    slots.reserve_exact(count)?;
    for _ in 0..count {
        slots.push(None)?;
    }
    Ok(())
}
