//! Cells that are kept: the value of each node.

ghost use Rattle.std.specs.Prelude.{◌≡◌, ℕ, if◌then◌else◌, Ok, OnOk, option_copied};
ghost use Rattle.std.specs.BTreeMap.{get, is_at};
ghost use Rattle.std.specs.Option.{option_map, option_or};
ghost use Rattle.ghg_columns.specs.Cells.{HasRoomForAll, HasRoomIn, SameElsewhere, cell_at, column_of, found_in, no_outcomes, series_order, value_of_series, without_series};
ghost use Rattle.ghg_columns.specs.Columns.{value_in};
ghost use Rattle.ghg_columns.specs.Fresh.{HasRoomFor, NoneOver, fresh_at};
ghost use Rattle.ghg_columns.specs.Written.{column_in};

use crate::column::Column;
use crate::fresh::FreshCells;
use crate::series::{Series, year_of};
use crate::written::Written;
use ghg_cell::Value;
use ghg_units::Node;
use std::alloc::{AllocError, Global};
use std::collections::BTreeMap;

/// The values of nodes. Those of a series stand in a column, year by year.
#[derive(Drop)]
pub struct Cells {
    alloc: Global,
    columns: BTreeMap<Series, Column>,
}

impl Cells {
    /// No cells. It takes no memory.
    pub fn new(alloc: Global) -> Cells
        ensures { cell_at result ≡ no_outcomes }
    {
        Cells {
            alloc,
            columns: BTreeMap::new(alloc),
        }
    }

    /// The value of a node, if it has a cell.
    pub fn get(&self, node: &Node) -> Option<&Value>
        ensures { option_map Ok (option_copied result) ≡ cell_at self.now node.now }
    {
        let column = self.columns.get(&Series::of(node))?;
        column.get(year_of(node))
    }

    /// Makes room for the values of fresh cells, by empty slots in the columns of their series. The cells
    /// stay as they are, also where the memory does not suffice.
    pub fn make_room(&mut self, fresh: &FreshCells) -> Result<(), AllocError>
        ensures same { cell_at self.new ≡ cell_at self.old }
        ensures room { OnOk result (HasRoomFor self.new fresh.now) }
    {
        self.make_room_for(&fresh.values.columns)?;
        match &fresh.values.series {
            Some(series) => self.make_room_in(series, &fresh.values.last),
            None => Ok(()),
        }
    }

    // Makes room for the values of fresh columns.
    fn make_room_for(&mut self, columns: &BTreeMap<Series, Column>) -> Result<(), AllocError>
        ensures same { cell_at self.new ≡ cell_at self.old }
        ensures room { OnOk result (HasRoomForAll self.new (get series_order columns.now)) }
    {
        for (series, column) in columns {
            self.make_room_in(series, column)?;
        }
        Ok(())
    }

    // Makes room for the values of a fresh column. A series without a column gets one without slots.
    fn make_room_in(&mut self, series: &Series, fresh: &Column) -> Result<(), AllocError>
        ensures same { cell_at self.new ≡ cell_at self.old }
        ensures room { OnOk result (HasRoomIn self.new series.now fresh.now) }
        ensures others { OnOk result (SameElsewhere series.now self.old self.new) }
    {
        if let Some(column) = self.columns.get_mut(series) {
            return column.make_room(fresh);
        }
        self.columns.insert(*series, Column::new(self.alloc))?;
        Ok(())
    }

    /// Takes over the values of fresh cells, of which none is over, in place of those of the same nodes. It
    /// takes no memory.
    pub fn take(&mut self, fresh: FreshCells)
        requires room { HasRoomFor self.old fresh }
        requires none_over { NoneOver (fresh_at fresh) }
        ensures { cell_at self.new ≡ found_in (fresh_at fresh) (cell_at self.old) }
    {
        let columns = self.take_last(fresh.values);
        self.take_columns(columns);
    }

    // Takes over the values of the column that was written last, and returns the other columns.
    fn take_last(&mut self, fresh: Written) -> BTreeMap<Series, Column>
        requires { HasRoomForAll self.old (column_in fresh) }
        ensures room { HasRoomForAll self.new (get series_order result) }
        ensures values { (s : Series) (year : ℕ) →
            option_or (value_of_series (get series_order result) s year)
            (value_of_series (column_of self.new) s year) ≡
            option_or (value_of_series (column_in fresh) s year)
            (value_of_series (column_of self.old) s year) }
    {
        let Written {
            series,
            last,
            mut columns,
            ..
        } = fresh;
        let Some(series) = series else {
            return columns;
        };
        columns.remove(&series);
        self.take_column(&series, last);
        columns
    }

    // Takes over the values of fresh columns.
    fn take_columns(&mut self, fresh: BTreeMap<Series, Column>)
        requires { HasRoomForAll self.old (get series_order fresh) }
        ensures { (s : Series) (year : ℕ) → value_of_series (column_of self.new) s year ≡
            option_or (value_of_series (get series_order fresh) s year)
            (value_of_series (column_of self.old) s year) }
    {
        let mut columns = fresh;
        while let Some((series, column)) = columns.pop_first() {
            self.take_column(&series, column);
        }
    }

    // Takes over the values of a fresh column.
    fn take_column(&mut self, series: &Series, fresh: Column)
        requires { HasRoomIn self.old series.now fresh }
        ensures values { (s : Series) (year : ℕ) → value_of_series (column_of self.new) s year ≡
            (if is_at (series_order series.now) s
            then option_or (value_in fresh year) (value_of_series (column_of self.old) s year)
            else value_of_series (column_of self.old) s year) }
        ensures others { SameElsewhere series.now self.old self.new }
    {
        let column = self.columns.get_mut(series).unwrap();
        column.take(fresh);
    }

    /// Removes the values of a series.
    pub fn remove(&mut self, series: &Series)
        ensures { cell_at self.new ≡ without_series (cell_at self.old) series.now }
    {
        self.columns.remove(series);
    }
}
