//! The table of the uncertainty of the trend since the base year.

ghost use Rattle.std.specs.Prelude.{◌≡◌, ◌+◌, [], ◌++◌, ◌*◌, ◌≤◌, All, IfOk, IfSome, OnOk, length, true};
ghost use Rattle.std.specs.List.{cons_option, filter_map, flat_map, list_any};
ghost use Rattle.ghg_cell.specs.declared.totals.TheConstants.{MOST_PARTS};
ghost use Rattle.ghg_definitions.specs.Compilation.{compilation, is_year_of};
ghost use Rattle.ghg_definitions.specs.Data.{span};
ghost use Rattle.ghg_tables.specs.Tables.{base_year, emitters};
ghost use Rattle.ghg_trendunc.specs.Ends.{AreSides};
ghost use Rattle.ghg_trendunc.specs.Table.{HasSums, emits, ends_text, l_text, lacks_sides, line_row, line_sides, root_text, sides_text, sum_of, sums_text, total_ends, total_row, trend_of, trendunc_text, words_text};

use crate::lines::{TrendShare, sides};
use crate::totals::{Sides, trend_total};
use ghg_categories::Category;
use ghg_data::Records;
use ghg_equations::Gas;
use ghg_graph::Cells;
use ghg_roots::sqrt_bracket;
use ghg_tables::{
    append_emission_words, append_hundredths, append_hundredths_field, append_tonnes_field,
    emission, emitters, line_tonnes, uncertainty,
};
use ghg_units::{Name, Text};
use std::alloc::{AllocError, Global};

/// A year beside the base year, with what all lines emit in both, in tonnes of CO2 equivalent.
#[derive(Clone, Copy, Drop)]
pub(crate) struct Trend {
    pub(crate) base_year: u32,
    pub(crate) year: u32,
    pub(crate) base_sum: i128,
    pub(crate) now_sum: i128,
}

/// The uncertainty of the trend from the base year to a year of the span: of each line in the tree that emits
/// a gas, and of the total. The only error is that memory ran out.
#[tactic(auto, unfolding(crate::specs::Table::trendunc_text))]
pub fn print_trend<C: Cells>(alloc: Global, year: u32, cells: &C) -> Result<Text, AllocError>
    requires { is_year_of (span (C.content cells.now)) year ≡ true }
    ensures { IfOk result (λ text.
        text ≡ trendunc_text (C.content cells.now) (compilation (C.content cells.now)) year) }
{
    let lines = emitters(alloc, cells)?;
    let trend = trend_at(cells, &lines, year);
    let mut out = Vec::from_slice(
        alloc,
        b"code,category,gas,base,value,k_low,k_high,l_low,l_high\n",
    )?;
    append_lines(&mut out, cells, &lines, trend)?;
    let rows = all_sides(alloc, cells, &lines, trend)?;
    append_total(&mut out, lack_sides(cells, &lines, trend), trend, &rows)?;
    Ok(Text::new(out))
}

// Both years, with their sums.
#[tactic(auto, unfolding(crate::specs::Table::trend_of))]
fn trend_at<C: Cells>(cells: &C, lines: &[Name], year: u32) -> Trend
    requires lines { lines.now ≡ emitters (C.content cells.now) }
    requires few { length lines.now ≤ MOST_PARTS }
    requires in_span { is_year_of (span (C.content cells.now)) year ≡ true }
    ensures value { result ≡ trend_of (C.content cells.now) (compilation (C.content cells.now)) year }
    ensures small { HasSums result }
{
    let base_year = cells.book().span().unwrap().base;
    Trend {
        base_year,
        year,
        base_sum: sum(cells, lines, base_year),
        now_sum: sum(cells, lines, year),
    }
}

// What lines emit in a year.
fn sum<C: Cells>(cells: &C, lines: &[Name], year: u32) -> i128
    requires { length lines.now ≤ MOST_PARTS }
    ensures { result ≡ sum_of (compilation (C.content cells.now)) year lines.now }
{
    let mut sum: i128 = 0;
    for name in lines {
        sum += line_tonnes(cells, name, year);
    }
    sum
}

// ---- lines

// The sides of a line, where it has a record.
#[tactic(auto, unfolding(crate::specs::Table::line_sides))]
fn line_sides<C: Cells>(cells: &C, name: &Name, trend: Trend) -> Option<Sides>
    requires { HasSums trend }
    ensures value { result ≡
        line_sides (C.content cells.now) (compilation (C.content cells.now)) trend name.now }
    ensures small { IfSome result AreSides }
{
    let (activity, factor) = uncertainty(cells.book(), name)?;
    let share = TrendShare {
        base: line_tonnes(cells, name, trend.base_year),
        now: line_tonnes(cells, name, trend.year),
        activity,
        factor,
    };
    sides(&share, trend.base_sum, trend.now_sum)
}

// The sides of the lines that have some.
fn all_sides<C: Cells>(
    alloc: Global,
    cells: &C,
    lines: &[Name],
    trend: Trend,
) -> Result<Vec<Sides>, AllocError>
    requires { HasSums trend }
    ensures value { IfOk result (λ rows. rows.items ≡ filter_map
        (line_sides (C.content cells.now) (compilation (C.content cells.now)) trend) lines.now) }
    ensures each { IfOk result (λ rows. All AreSides rows.items) }
    ensures few { IfOk result (λ rows. length rows.items ≤ length lines.now) }
{
    let mut rows = Vec::new(alloc);
    for name in lines {
        push_sides(&mut rows, line_sides(cells, name, trend))?;
    }
    Ok(rows)
}

fn push_sides(rows: &mut Vec<Sides>, sides: Option<Sides>) -> Result<(), AllocError>
    requires each_old { All AreSides rows.old.items }
    requires small { IfSome sides AreSides }
    ensures items { OnOk result (rows.new.items ≡ rows.old.items ++ cons_option sides []) }
    ensures each { OnOk result (All AreSides rows.new.items) }
    ensures few { OnOk result (length rows.new.items ≤ length rows.old.items + 1) }
{
    if let Some(sides) = sides {
        rows.push(sides)?;
    }
    Ok(())
}

// Whether a line that emits something in one of the years has no sides.
fn lack_sides<C: Cells>(cells: &C, lines: &[Name], trend: Trend) -> bool
    requires { HasSums trend }
    ensures { result ≡ list_any
        (lacks_sides (C.content cells.now) (compilation (C.content cells.now)) trend) lines.now }
{
    lines.iter().any(|name| lacks_sides(cells, name, trend))
}

#[tactic(auto, unfolding(crate::specs::Table::lacks_sides))]
fn lacks_sides<C: Cells>(cells: &C, name: &Name, trend: Trend) -> bool
    requires { HasSums trend }
    ensures { result ≡
        lacks_sides (C.content cells.now) (compilation (C.content cells.now)) trend name.now }
{
    line_sides(cells, name, trend).is_none() && emits(cells, name, trend)
}

// Whether a line emits something in one of the years.
fn emits<C: Cells>(cells: &C, name: &Name, trend: Trend) -> bool
    ensures { result ≡ emits (compilation (C.content cells.now)) trend name.now }
{
    line_tonnes(cells, name, trend.base_year) != 0 || line_tonnes(cells, name, trend.year) != 0
}

// ---- rows

fn append_lines<C: Cells>(
    out: &mut Vec<u8>,
    cells: &C,
    lines: &[Name],
    trend: Trend,
) -> Result<(), AllocError>
    requires { HasSums trend }
    ensures { OnOk result (out.new.items ≡ out.old.items ++ flat_map
        (line_row (C.content cells.now) (compilation (C.content cells.now)) trend) lines.now) }
{
    for name in lines {
        append_line(out, cells, name, trend)?;
    }
    Ok(())
}

#[tactic(auto, unfolding(crate::specs::Table::line_row))]
fn append_line<C: Cells>(
    out: &mut Vec<u8>,
    cells: &C,
    name: &Name,
    trend: Trend,
) -> Result<(), AllocError>
    requires { HasSums trend }
    ensures { OnOk result (out.new.items ≡ out.old.items ++
        line_row (C.content cells.now) (compilation (C.content cells.now)) trend name.now) }
{
    match emission(cells.book(), name) {
        Some(pair) => {
            append_words(out, cells, name, pair, trend)?;
            append_sides(out, line_sides(cells, name, trend))?;
            out.push(b'\n')?;
            Ok(())
        }
        None => Ok(()),
    }
}

#[tactic(auto, unfolding(crate::specs::Table::words_text))]
fn append_words<C: Cells>(
    out: &mut Vec<u8>,
    cells: &C,
    name: &Name,
    pair: (Category, Gas),
    trend: Trend,
) -> Result<(), AllocError>
    ensures { OnOk result (out.new.items ≡ out.old.items ++
        words_text (compilation (C.content cells.now)) trend name.now pair) }
{
    append_emission_words(out, name, pair)?;
    append_tonnes_field(out, line_tonnes(cells, name, trend.base_year))?;
    append_tonnes_field(out, line_tonnes(cells, name, trend.year))
}

// K and L.
#[tactic(auto, unfolding(crate::specs::Table::sides_text, ghg_tables::specs::Texts::field))]
fn append_sides(out: &mut Vec<u8>, sides: Option<Sides>) -> Result<(), AllocError>
    requires { IfSome sides AreSides }
    ensures { OnOk result (out.new.items ≡ out.old.items ++ sides_text sides) }
{
    match sides {
        Some(sides) => {
            append_ends(out, sides.k_low, sides.k_high)?;
            out.push(b',')?;
            append_l(out, sides)
        }
        None => out.extend_from_slice(b"-,-,-,-"),
    }
}

#[tactic(auto, unfolding(crate::specs::Table::l_text))]
fn append_l(out: &mut Vec<u8>, sides: Sides) -> Result<(), AllocError>
    requires { AreSides sides }
    ensures { OnOk result (out.new.items ≡ out.old.items ++ l_text sides) }
{
    let (low, _) = sqrt_bracket(2 * (sides.j_low * sides.j_low));
    let (_, high) = sqrt_bracket(2 * (sides.j_high * sides.j_high));
    append_ends(out, low, high)
}

// Millionths in hundredths, rounded outward.
#[tactic(auto, unfolding(crate::specs::Table::ends_text, ghg_tables::specs::Analyses::bounds_text))]
fn append_ends(out: &mut Vec<u8>, low: u128, high: u128) -> Result<(), AllocError>
    ensures { OnOk result (out.new.items ≡ out.old.items ++ ends_text low high) }
{
    append_hundredths_field(out, (low / 10_000) as i128)?;
    append_hundredths(out, high.div_ceil(10_000) as i128)
}

// ---- the total

#[tactic(auto, unfolding(crate::specs::Table::total_row))]
fn append_total(
    out: &mut Vec<u8>,
    lacks: bool,
    trend: Trend,
    rows: &[Sides],
) -> Result<(), AllocError>
    requires count { length rows.now ≤ MOST_PARTS }
    requires each { All AreSides rows.now }
    ensures { OnOk result (out.new.items ≡ out.old.items ++ total_row lacks trend rows.now) }
{
    append_sums(out, trend.base_sum, trend.now_sum)?;
    append_total_ends(out, lacks, trend.base_sum, rows)?;
    out.push(b'\n')?;
    Ok(())
}

#[tactic(auto, unfolding(crate::specs::Table::sums_text))]
fn append_sums(out: &mut Vec<u8>, base_sum: i128, now_sum: i128) -> Result<(), AllocError>
    ensures { OnOk result (out.new.items ≡ out.old.items ++ sums_text base_sum now_sum) }
{
    out.extend_from_slice(b"total,-,-,")?;
    append_tonnes_field(out, base_sum)?;
    append_tonnes_field(out, now_sum)?;
    out.extend_from_slice(b"-,-,")?;
    Ok(())
}

#[tactic(auto, unfolding(crate::specs::Table::total_ends))]
fn append_total_ends(
    out: &mut Vec<u8>,
    lacks: bool,
    base_sum: i128,
    rows: &[Sides],
) -> Result<(), AllocError>
    requires count { length rows.now ≤ MOST_PARTS }
    requires each { All AreSides rows.now }
    ensures { OnOk result (out.new.items ≡ out.old.items ++ total_ends lacks base_sum rows.now) }
{
    if lacks || base_sum == 0 {
        out.extend_from_slice(b"-,-")
    } else {
        append_root(out, rows)
    }
}

#[tactic(auto, unfolding(crate::specs::Table::root_text))]
fn append_root(out: &mut Vec<u8>, rows: &[Sides]) -> Result<(), AllocError>
    requires count { length rows.now ≤ MOST_PARTS }
    requires each { All AreSides rows.now }
    ensures { OnOk result (out.new.items ≡ out.old.items ++ root_text rows.now) }
{
    let (low, high) = trend_total(rows);
    append_ends(out, low, high)
}
