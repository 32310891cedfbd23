//! The tables of a year.

ghost use Rattle.std.specs.Prelude.{◌≡◌, ◌≤◌, ◌++◌, IfOk, OnOk, Some, true};
ghost use Rattle.ghg_definitions.specs.Compilation.{compilation, first_year, is_year_of};
ghost use Rattle.ghg_definitions.specs.Data.{span};
ghost use Rattle.ghg_tables.specs.SoundTexts.{IsSoundText};
ghost use Rattle.ghg_tables.specs.Tables.{category_row, cells_text, checks_text, gross_row, line_row, reference_text, series_text, summary_text, table_text, year_row};

use crate::analyses::append_approaches;
use crate::assessments::{print_checks, print_first_checks, print_level, print_trend};
use crate::pairs::Years;
use crate::propagation::print_uncertainty;
use crate::rows::{append_cell, append_total, append_year};
use crate::sums::{co2_under, shown};
use crate::table::Table;
use ghg_categories::{Category, all, code};
use ghg_data::Records;
use ghg_graph::Cells;
use ghg_units::{Name, Node, Span, Text};
use std::alloc::{AllocError, Global};

// Room for a row. None is longer: each of three figures takes at most 23 bytes, and with the commas between
// them 71.

/// With the words of a line and their commas, which take at most 53.
const LONGEST_CELL: usize = 128;

/// With the name of a total.
const LONGEST_TOTAL: usize = 80;

/// Of a year with both its totals.
const LONGEST_YEAR: usize = 160;

/// The text of a table for a year of the span.
///
/// Wherever the inputs are within their supplied bounds, the exact value of each node is within the bounds
/// that the tables `cells`, `summary` and `series` have of it. The only error is that memory ran out.
pub fn print<C: Cells>(
    alloc: Global,
    table: Table,
    year: u32,
    cells: &C,
) -> Result<Text, AllocError>
    requires { is_year_of (span (C.content cells.now)) year ≡ true }
    ensures text { IfOk result (λ text.
        text ≡ table_text table (C.content cells.now) (compilation (C.content cells.now)) year) }
    ensures bounds { IfOk result (IsSoundText table (C.content cells.now) year) }
{
    let span = cells.book().span().unwrap();
    print_in(alloc, table, span, year, cells)
}

// The text of a table for a year of these.
#[tactic(auto, unfolding(crate::specs::Tables::level_text, crate::specs::Tables::trend_text))]
fn print_in<C: Cells>(
    alloc: Global,
    table: Table,
    years: Span,
    year: u32,
    cells: &C,
) -> Result<Text, AllocError>
    requires years { span (C.content cells.now) ≡ Some years }
    requires year { is_year_of (span (C.content cells.now)) year ≡ true }
    ensures { IfOk result (λ text.
        text ≡ table_text table (C.content cells.now) (compilation (C.content cells.now)) year) }
{
    let since_base = Years {
        base: years.base,
        current: year,
    };
    match table {
        Table::Cells => print_cells(alloc, year, cells),
        Table::Summary => print_summary(alloc, year, cells),
        Table::Series => print_series(alloc, years.first, year, cells),
        Table::Reference => print_reference(alloc, year, cells),
        Table::Uncertainty => print_uncertainty(alloc, year, cells),
        Table::Level => print_level(alloc, since_base, cells),
        Table::Trend => print_trend(alloc, since_base, cells),
        Table::Checks => checks(alloc, years.first, year, cells),
    }
}

// The value of each line, by name.
#[tactic(auto, unfolding(crate::specs::Tables::cells_text))]
fn print_cells<C: Cells>(alloc: Global, year: u32, cells: &C) -> Result<Text, AllocError>
    ensures { IfOk result (λ text.
        text ≡ cells_text (C.content cells.now) (compilation (C.content cells.now)) year) }
{
    let header = b"code,category,equation,gas,unit,value,low,high\n";
    let names = cells.book().lines(alloc)?;
    let mut out = Vec::with_capacity(alloc, header.len() + names.len() * LONGEST_CELL)?;
    out.extend_from_slice(header)?;
    for name in &names {
        append_line(&mut out, cells, name, year)?;
    }
    Ok(Text::new(out))
}

#[tactic(auto, unfolding(crate::specs::Tables::line_row))]
fn append_line<C: Cells>(
    out: &mut Vec<u8>,
    cells: &C,
    name: &Name,
    year: u32,
) -> Result<(), AllocError>
    ensures { OnOk result (out.new.items ≡ out.old.items ++
        line_row (C.content cells.now) (compilation (C.content cells.now)) year name.now) }
{
    match cells.book().line(name) {
        Some((category, id)) => {
            let value = shown(cells, &Node::Line(*name, year));
            append_cell(out, name, category, id, &value)
        }
        None => Ok(()),
    }
}

// The total of each category, and then the gross total.
#[tactic(auto, unfolding(crate::specs::Tables::summary_text))]
fn print_summary<C: Cells>(alloc: Global, year: u32, cells: &C) -> Result<Text, AllocError>
    ensures { IfOk result (λ text. text ≡ summary_text (compilation (C.content cells.now)) year) }
{
    let header = b"category,value,low,high\n";
    let rows = all().len() + 1;
    let mut out = Vec::with_capacity(alloc, header.len() + rows * LONGEST_TOTAL)?;
    out.extend_from_slice(header)?;
    for category in all() {
        append_category(&mut out, cells, *category, year)?;
    }
    append_gross(&mut out, cells, year)?;
    Ok(Text::new(out))
}

#[tactic(auto, unfolding(crate::specs::Tables::category_row))]
fn append_category<C: Cells>(
    out: &mut Vec<u8>,
    cells: &C,
    category: Category,
    year: u32,
) -> Result<(), AllocError>
    ensures { OnOk result (out.new.items ≡ out.old.items ++
        category_row (compilation (C.content cells.now)) year category) }
{
    let total = shown(cells, &Node::Total(category, year));
    append_total(out, code(category).as_bytes(), &total)
}

#[tactic(auto, unfolding(crate::specs::Tables::gross_row))]
fn append_gross<C: Cells>(out: &mut Vec<u8>, cells: &C, year: u32) -> Result<(), AllocError>
    ensures { OnOk result (out.new.items ≡ out.old.items ++
        gross_row (compilation (C.content cells.now)) year) }
{
    append_total(out, b"gross", &shown(cells, &Node::Gross(year)))
}

// The totals of each year from the first to this one.
#[tactic(auto, unfolding(crate::specs::Tables::series_text))]
fn print_series<C: Cells>(
    alloc: Global,
    first: u32,
    year: u32,
    cells: &C,
) -> Result<Text, AllocError>
    requires { first ≤ year }
    ensures { IfOk result (λ text. text ≡ series_text first (compilation (C.content cells.now)) year) }
{
    let header = b"year,total,total_low,total_high,gross,gross_low,gross_high\n";
    let years = (year - first) as usize + 1;
    let mut out = Vec::with_capacity(alloc, header.len() + years * LONGEST_YEAR)?;
    out.extend_from_slice(header)?;
    for each in first..=year {
        append_totals(&mut out, cells, each)?;
    }
    Ok(Text::new(out))
}

#[tactic(auto, unfolding(crate::specs::Tables::year_row))]
fn append_totals<C: Cells>(out: &mut Vec<u8>, cells: &C, year: u32) -> Result<(), AllocError>
    ensures { OnOk result (out.new.items ≡ out.old.items ++
        year_row (compilation (C.content cells.now)) year) }
{
    let total = shown(cells, &Node::Total(Category::National, year));
    let gross = shown(cells, &Node::Gross(year));
    append_year(out, year, &total, &gross)
}

// CO2 of fuel combustion by the reference approach, beside the sectoral one.
#[tactic(auto, unfolding(crate::specs::Tables::reference_text))]
fn print_reference<C: Cells>(alloc: Global, year: u32, cells: &C) -> Result<Text, AllocError>
    ensures { IfOk result (λ text.
        text ≡ reference_text (C.content cells.now) (compilation (C.content cells.now)) year) }
{
    let lines = cells.book().lines(alloc)?;
    let reference = co2_under(cells, &lines, Category::RA, year);
    let sectoral = co2_under(cells, &lines, Category::C1A, year);
    let mut out = Vec::from_slice(alloc, b"item,value\n")?;
    append_approaches(&mut out, reference, sectoral)?;
    Ok(Text::new(out))
}

// Each pair beside the year before, if there is one.
#[tactic(auto, unfolding(crate::specs::Tables::checks_text))]
fn checks<C: Cells>(alloc: Global, first: u32, year: u32, cells: &C) -> Result<Text, AllocError>
    requires { first ≡ first_year (span (C.content cells.now)) }
    ensures { IfOk result (λ text.
        text ≡ checks_text (C.content cells.now) (compilation (C.content cells.now)) year) }
{
    let since_last = Years {
        base: year.saturating_sub(1),
        current: year,
    };
    if year <= first {
        print_first_checks(alloc, since_last, cells)
    } else {
        print_checks(alloc, since_last, cells)
    }
}
