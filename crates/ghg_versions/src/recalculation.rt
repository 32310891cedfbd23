//! The table of what was reported beside what holds now.

ghost use Rattle.std.specs.Prelude.{◌≡◌, ◌≤◌, ◌<◌, ◌*◌, ◌^◌, ◌++◌, ◌-ℤ◌, All, IfOk, IfSome, OnErr, OnOk, is_some, option_map, true, unsigned_abs};
ghost use Rattle.std.specs.List.{flat_map};
ghost use Rattle.ghg_definitions.specs.Compilation.{is_year_of};
ghost use Rattle.ghg_definitions.specs.Data.{span};
ghost use Rattle.ghg_equations.specs.Quantity.{gases};
ghost use Rattle.ghg_keycat.specs.Sizes.{gross_limit};
ghost use Rattle.ghg_tables.specs.Analyses.{gap_text};
ghost use Rattle.ghg_tables.specs.Texts.{field, tonnes_text};
ghost use Rattle.ghg_versions.specs.Desk.{values_at};
ghost use Rattle.ghg_versions.specs.Recalculation.{amounts_text, compared_row, is_of, pair_text, recalculated_row, recalculation, value_in};

use crate::version::KeptValue;
use ghg_categories::{Category, all, code};
use ghg_data::{Book, Records};
use ghg_equations::Gas;
use ghg_graph::Cells;
use ghg_tables::{PairValue, near, pair_values};
use ghg_units::{Text, write_fixed};
use std::alloc::{AllocError, Global};

// In the order in which tables list them.
const GASES: [Gas; 5] = [Gas::Co2, Gas::Ch4, Gas::N2o, Gas::Cf4, Gas::C2f6];

/// Each pair of a category and a gas of either, with what was reported of a year, what holds now, the
/// difference, and that as a percentage. A value that is missing counts as zero. `None` exactly where the
/// year lies outside the present span.
#[tactic(auto, unfolding(crate::specs::Desk::values_at))]
pub(crate) fn print_recalculation<C: Cells>(
    alloc: Global,
    reported: &[KeptValue],
    year: u32,
    cells: &C,
) -> Result<Option<Text>, AllocError>
    ensures text { IfOk result (λ text.
        text ≡ option_map (recalculation reported.now) (values_at (C.content cells.now) year)) }
    ensures memory { OnErr result (is_some (values_at (C.content cells.now) year) ≡ true) }
{
    if !has_year(cells.book(), year) {
        return Ok(None);
    }
    let now = pair_values(alloc, year, cells)?;
    let text = print_rows(alloc, reported, &now)?;
    Ok(Some(text))
}

// Whether a year is one of a workbook's.
fn has_year(book: &Book, year: u32) -> bool
    ensures { result ≡ is_year_of (span book.now.content) year }
{
    match book.span() {
        Some(span) => span.first <= year && year <= span.last,
        None => false,
    }
}

// The header, and the row of each pair.
#[tactic(auto, unfolding(crate::specs::Recalculation::recalculation))]
fn print_rows(alloc: Global, reported: &[KeptValue], now: &[PairValue]) -> Result<Text, AllocError>
    requires { All (λ value. unsigned_abs value.tonnes ≤ gross_limit) now.now }
    ensures { IfOk result (λ text. text ≡ recalculation reported.now now.now) }
{
    let header = b"category,gas,reported,now,difference,percent\n";
    let mut out = Vec::from_slice(alloc, header)?;
    for category in all() {
        append_gases(&mut out, reported, now, *category)?;
    }
    Ok(Text::new(out))
}

// Appends the rows of a category.
fn append_gases(
    out: &mut Vec<u8>,
    reported: &[KeptValue],
    now: &[PairValue],
    category: Category,
) -> Result<(), AllocError>
    requires { All (λ value. unsigned_abs value.tonnes ≤ gross_limit) now.now }
    ensures { OnOk result (out.new.items ≡ out.old.items
        ++ flat_map (λ g. recalculated_row reported.now now.now (category, g)) gases) }
{
    for gas in GASES {
        append_pair(out, reported, now, (category, gas))?;
    }
    Ok(())
}

// Appends the row of a pair, if either has it.
#[tactic(auto, unfolding(crate::specs::Recalculation::recalculated_row))]
fn append_pair(
    out: &mut Vec<u8>,
    reported: &[KeptValue],
    now: &[PairValue],
    pair: (Category, Gas),
) -> Result<(), AllocError>
    requires { All (λ value. unsigned_abs value.tonnes ≤ gross_limit) now.now }
    ensures { OnOk result (out.new.items ≡ out.old.items ++ recalculated_row reported.now now.now pair) }
{
    let before = reported_in(reported, pair);
    let after = value_in(now, pair);
    if before.is_none() && after.is_none() {
        return Ok(());
    }
    append_compared(out, pair, before.unwrap_or(0), after.unwrap_or(0))
}

fn reported_in(rows: &[KeptValue], pair: (Category, Gas)) -> Option<i128>
    ensures value { result ≡ value_in rows.now pair }
    ensures small { IfSome result (λ tonnes. unsigned_abs tonnes ≤ gross_limit) }
{
    let kept = rows.iter().find(|row| is_of(&row.value(), pair))?;
    Some(kept.value().tonnes)
}

fn value_in(rows: &[PairValue], pair: (Category, Gas)) -> Option<i128>
    requires { All (λ value. unsigned_abs value.tonnes ≤ gross_limit) rows.now }
    ensures value { result ≡ value_in rows.now pair }
    ensures small { IfSome result (λ tonnes. unsigned_abs tonnes ≤ gross_limit) }
{
    let row = rows.iter().find(|row| is_of(row, pair))?;
    Some(row.tonnes)
}

fn is_of(row: &PairValue, pair: (Category, Gas)) -> bool
    ensures { result ≡ is_of pair row.now }
{
    row.category == pair.0 && row.gas == pair.1
}

// Appends the row of a pair with these values, in tonnes.
#[tactic(auto, unfolding(crate::specs::Recalculation::compared_row))]
fn append_compared(
    out: &mut Vec<u8>,
    pair: (Category, Gas),
    reported: i128,
    now: i128,
) -> Result<(), AllocError>
    requires reported_small { unsigned_abs reported ≤ gross_limit }
    requires now_small { unsigned_abs now ≤ gross_limit }
    ensures { OnOk result (out.new.items ≡ out.old.items ++ compared_row pair reported now) }
{
    append_pair_words(out, pair)?;
    append_amounts(out, reported, now)?;
    append_share(out, now - reported, reported)?;
    out.push(b'\n')?;
    Ok(())
}

#[tactic(auto, unfolding(crate::specs::Recalculation::pair_text))]
fn append_pair_words(out: &mut Vec<u8>, pair: (Category, Gas)) -> Result<(), AllocError>
    ensures { OnOk result (out.new.items ≡ out.old.items ++ pair_text pair) }
{
    append_field(out, code(pair.0).as_bytes())?;
    append_field(out, pair.1.word().as_bytes())
}

#[tactic(auto, unfolding(crate::specs::Recalculation::amounts_text))]
fn append_amounts(out: &mut Vec<u8>, reported: i128, now: i128) -> Result<(), AllocError>
    requires reported_small { unsigned_abs reported ≤ gross_limit }
    requires now_small { unsigned_abs now ≤ gross_limit }
    ensures { OnOk result (out.new.items ≡ out.old.items ++ amounts_text reported now) }
{
    append_tonnes_field(out, reported)?;
    append_tonnes_field(out, now)?;
    append_tonnes_field(out, now - reported)
}

// Appends a text and a comma.
#[tactic(auto, unfolding(ghg_tables::specs::Texts::field))]
fn append_field(out: &mut Vec<u8>, text: &[u8]) -> Result<(), AllocError>
    ensures { OnOk result (out.new.items ≡ out.old.items ++ field text.now) }
{
    out.extend_from_slice(text)?;
    out.push(b',')?;
    Ok(())
}

// Appends a number of tonnes in Gg, and a comma.
#[tactic(auto, unfolding(ghg_tables::specs::Texts::field, ghg_tables::specs::Texts::tonnes_text, ghg_tables::specs::Texts::number_text))]
fn append_tonnes_field(out: &mut Vec<u8>, tonnes: i128) -> Result<(), AllocError>
    ensures { OnOk result (out.new.items ≡ out.old.items ++ field (tonnes_text tonnes)) }
{
    write_fixed(out, tonnes, 3)?;
    out.push(b',')?;
    Ok(())
}

// Appends a difference as a percentage of the magnitude of what it is from, or a dash where that is zero.
#[tactic(auto, unfolding(ghg_tables::specs::Analyses::gap_text, ghg_tables::specs::Texts::percent_text, ghg_tables::specs::Texts::hundredths_text))]
fn append_share(out: &mut Vec<u8>, difference: i128, reported: i128) -> Result<(), AllocError>
    requires { unsigned_abs difference ≤ 2 * gross_limit }
    ensures { OnOk result (out.new.items ≡ out.old.items ++ gap_text difference reported) }
{
    let size = reported.unsigned_abs();
    if size == 0 {
        return out.extend_from_slice(b"-");
    }
    write_fixed(out, near(10_000 * difference, size), 2)
}
