//! The names of tables.

ghost use Rattle.std.specs.Prelude.{◌≡◌};
ghost use Rattle.std.specs.Str.{bytes_eq};
ghost use Rattle.ghg_tables.specs.Names.{table_in, table_name, tables};

/// A table of a year.
#[derive(Clone, Copy, Debug, PartialEq, Eq, Drop)]
pub enum Table {
    /// The value of each line.
    Cells,
    /// The total of each category, and the national total without land.
    Summary,
    /// The national total, with and without land, of each year from the first.
    Series,
    /// CO2 of fuel combustion by the reference approach, beside the sectoral one.
    Reference,
    /// The uncertainty of each line and of the total, by propagation of errors.
    Uncertainty,
    /// Each category and gas by its part in the year's emissions and removals.
    Level,
    /// Each category and gas by its part in the trend since the base year.
    Trend,
    /// Each category and gas beside the year before.
    Checks,
}

impl Table {
    /// Each table.
    pub const ALL: &'static [Table] = &[
        Table::Cells,
        Table::Summary,
        Table::Series,
        Table::Reference,
        Table::Uncertainty,
        Table::Level,
        Table::Trend,
        Table::Checks,
    ];

    /// The word that names the table.
    pub fn name(self) -> &'static str
        ensures { result.now ≡ table_name self }
    {
        match self {
            Table::Cells => "cells",
            Table::Summary => "summary",
            Table::Series => "series",
            Table::Reference => "reference",
            Table::Uncertainty => "uncertainty",
            Table::Level => "level",
            Table::Trend => "trend",
            Table::Checks => "checks",
        }
    }
}

/// The table that a text names; `None` exactly where the text names no table.
pub fn table_named(text: &[u8]) -> Option<Table>
    ensures { result ≡ table_in text.now }
{
    Table::ALL
        .iter()
        .copied()
        .find(|table| has_name(*table, text))
}

fn has_name(table: Table, text: &[u8]) -> bool
    ensures { result ≡ bytes_eq (table_name table) text.now }
{
    table.name().as_bytes() == text
}
