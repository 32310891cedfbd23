//! Cells of lines that are withdrawn.

ghost use Rattle.std.specs.Prelude.{◌≡◌, if◌then◌else◌, is_some};
ghost use Rattle.ghg_columns.specs.Cells.{cell_at, without_series};
ghost use Rattle.ghg_columns.specs.declared.series.Series.TheVariants as series;
ghost use Rattle.ghg_definitions.specs.Compilation.{emits};
ghost use Rattle.ghg_definitions.specs.Data.{line};
ghost use Rattle.ghg_engine.specs.Withdrawn.{without_withdrawn};

use crate::nodes::{emits, is_line};
use ghg_columns::{Cells, Series};
use ghg_data::Records;
use ghg_definitions::RecordKey;
use ghg_units::Name;

/// Drops the cells of lines that are not among the records any more, and the equivalents of those that emit
/// no gas any more, where the keys are about them. All other cells stay. It takes no memory.
pub(crate) fn drop_withdrawn<R: Records>(cells: &mut Cells, records: &R, keys: &[RecordKey])
    ensures { cell_at cells.new ≡ without_withdrawn (R.content records.now) keys.now (cell_at cells.old) }
{
    for key in keys {
        if let RecordKey::Line(name) = key {
            drop_values(cells, records, name);
            drop_equivalents(cells, records, name);
        }
    }
}

// Drops the values of a line, unless it is present.
fn drop_values<R: Records>(cells: &mut Cells, records: &R, name: &Name)
    ensures { cell_at cells.new ≡ (if is_some (line (R.content records.now) name.now)
        then cell_at cells.old
        else without_series (cell_at cells.old) (series.Line name.now)) }
{
    if is_line(records, name) {
        return;
    }
    cells.remove(&Series::Line(*name));
}

// Drops the equivalents of a line, unless it emits a gas.
fn drop_equivalents<R: Records>(cells: &mut Cells, records: &R, name: &Name)
    ensures { cell_at cells.new ≡ (if emits (R.content records.now) name.now
        then cell_at cells.old
        else without_series (cell_at cells.old) (series.Equivalent name.now)) }
{
    if emits(records, name) {
        return;
    }
    cells.remove(&Series::Equivalent(*name));
}
