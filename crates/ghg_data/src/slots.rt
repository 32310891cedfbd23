//! Where records may stand.

use ghg_units::Span;
use std::alloc::{AllocError, Global};

/// A column for each activity and factor, one after the other, with a slot of four bytes for each year. A
/// slot says where the record of the year may stand: who reads it looks whether it does.
#[derive(Drop)]
pub(crate) struct Slots {
    first: u32,
    years: usize,
    places: Vec<u32>,
}

impl Slots {
    /// No years. It takes no memory.
    pub(crate) fn new(alloc: Global) -> Slots {
        Slots {
            first: 0,
            years: 0,
            places: Vec::new(alloc),
        }
    }

    /// So many columns without places, for the years of a span and those that these slots are for.
    pub(crate) fn widened(
        &self,
        alloc: Global,
        span: &Span,
        columns: usize,
    ) -> Result<Slots, AllocError> {
        let mut first = span.first;
        let mut end = end_of(span);
        if self.years > 0 {
            first = first.min(self.first);
            end = end.max(self.end());
        }
        let years = end.saturating_sub(first as usize);
        let mut places = Vec::new(alloc);
        places.resize(columns.saturating_mul(years), 0)?;
        Ok(Slots {
            first,
            years,
            places,
        })
    }

    /// Whether there are slots for each year of a span.
    pub(crate) fn cover(&self, span: &Span) -> bool {
        self.first <= span.first && end_of(span) <= self.end()
    }

    // The year behind the last.
    fn end(&self) -> usize {
        (self.first as usize).saturating_add(self.years)
    }

    /// Makes room for so many more columns.
    pub(crate) fn reserve(&mut self, columns: usize) -> Result<(), AllocError> {
        self.places.reserve(columns.saturating_mul(self.years))
    }

    /// Adds a column without places, if there is room for it. It takes no memory.
    pub(crate) fn add_column(&mut self) {
        let len = self.places.len().saturating_add(self.years);
        if len <= self.places.capacity() {
            self.places.resize(len, 0).unwrap();
        }
    }

    /// Removes the column with a number, if there is one. The last one comes to stand in its place.
    pub(crate) fn remove_column(&mut self, number: Option<usize>) {
        let Some(number) = number else {
            return;
        };
        let last = self.places.len().saturating_sub(self.years);
        let to = number.saturating_mul(self.years);
        if to < last {
            self.places.copy_within(last.., to);
        }
        self.places.truncate(last);
    }

    /// Where the record of a year may stand.
    pub(crate) fn get(&self, column: usize, year: u32) -> Option<usize> {
        let place = *self.places.get(self.slot(column, year)?)?;
        Some(place as usize)
    }

    /// Writes where the record of a year stands, if the year has a slot.
    pub(crate) fn set(&mut self, column: usize, year: u32, place: usize) {
        let Some(slot) = self.slot(column, year) else {
            return;
        };
        if slot < self.places.len() {
            self.places[slot] = u32::try_from(place).unwrap_or(0);
        }
    }

    // The number of a year's slot.
    fn slot(&self, column: usize, year: u32) -> Option<usize> {
        let offset = year.checked_sub(self.first)? as usize;
        if offset >= self.years {
            return None;
        }
        column.checked_mul(self.years)?.checked_add(offset)
    }
}

// The year behind the last one of a span.
fn end_of(span: &Span) -> usize {
    (span.last as usize).saturating_add(1)
}
