//! Columns that are written.

ghost use Rattle.std.specs.Prelude.{◌≡◌, ℕ, ◌==◌, false, None, Ok, Some, IfOk, OnOk, if◌then◌else◌, option_copied};
ghost use Rattle.std.specs.BTreeMap.{is_at};
ghost use Rattle.ghg_columns.specs.Cells.{cells_in, series_order, value_of_series, with_outcome};
ghost use Rattle.ghg_columns.specs.Columns.{value_in};
ghost use Rattle.ghg_columns.specs.Written.{column_in, is_last};

use crate::column::{Column, Years};
use crate::series::{Series, year_of};
use ghg_cell::Value;
use ghg_units::Node;
use std::alloc::{AllocError, Global};
use std::collections::BTreeMap;
use std::mem::replace;

/// Columns that are written year by year. The last one stays out of the map until another is written, since
/// the years of a series mostly follow each other.
#[derive(Drop)]
pub(crate) struct Written {
    alloc: Global,
    /// The series of the last column; `None` before one is written.
    pub(crate) series: Option<Series>,
    /// The last column. It stands in front of that of its series in the map.
    pub(crate) last: Column,
    pub(crate) columns: BTreeMap<Series, Column>,
}

impl Written {
    /// No columns. It takes no memory.
    pub(crate) fn new(alloc: Global) -> Written
        ensures { (s : Series) → column_in result s ≡ None }
    {
        Written {
            alloc,
            series: None,
            last: Column::new(alloc),
            columns: BTreeMap::new(alloc),
        }
    }

    /// The column of a series, if it has one.
    pub(crate) fn column(&self, series: &Series) -> Option<&Column>
        ensures { option_copied result ≡ column_in self.now series.now }
    {
        if self.is_last(series) {
            Some(&self.last)
        } else {
            self.columns.get(series)
        }
    }

    // Whether the last column is that of a series.
    fn is_last(&self, series: &Series) -> bool
        ensures { result ≡ is_last self.now series.now }
    {
        match &self.series {
            Some(last) => last == series,
            None => false,
        }
    }

    /// Gives a node its value. The column of its series is made, or made to reach over its year. The `years`
    /// are those of the fresh nodes.
    pub(crate) fn put(&mut self, node: &Node, value: Value, years: &Years) -> Result<(), AllocError>
        ensures { OnOk result (cells_in (column_in self.new) ≡ with_outcome
            (cells_in (column_in self.old)) node.now (Ok value)) }
    {
        let series = Series::of(node);
        let year = year_of(node);
        if self.is_last(&series) {
            return self.last.put(year, value, years);
        }
        let column = self.take_out(&series, year, value, years)?;
        self.put_last(series, column)
    }

    // Takes the column of a series out of the map, with the value of a year.
    fn take_out(
        &mut self,
        series: &Series,
        year: u32,
        value: Value,
        years: &Years,
    ) -> Result<Column, AllocError>
        requires { is_last self.old series.now ≡ false }
        ensures others { (s : Series) → is_at (series_order series.now) s ≡ false →
            column_in self.new s ≡ column_in self.old s }
        ensures values { IfOk result (λ column. (y : ℕ) → value_in column y ≡
            (if y == year then Some value else value_of_series (column_in self.old) series.now y)) }
    {
        let Some(found) = self.columns.remove(series) else {
            return Column::of(self.alloc, year, value);
        };
        let mut column = found;
        column.put(year, value, years)?;
        Ok(column)
    }

    // Makes a column the last one. That which was the last goes into the map.
    fn put_last(&mut self, series: Series, column: Column) -> Result<(), AllocError>
        ensures { OnOk result ((s : Series) → column_in self.new s ≡
            (if is_at (series_order series) s then Some column else column_in self.old s)) }
    {
        let written = replace(&mut self.last, column);
        match self.series.replace(series) {
            Some(other) => {
                self.columns.insert(other, written)?;
                Ok(())
            }
            None => Ok(()),
        }
    }
}
