//! The tables of key categories and of checks.

ghost use Rattle.std.specs.Prelude.{◌≡◌, ◌++◌, ◌≤◌, All, IfOk, OnOk};
ghost use Rattle.std.specs.List.{flat_map, sum_by};
ghost use Rattle.ghg_definitions.specs.Compilation.{compilation};
ghost use Rattle.ghg_keycat.specs.Ranking.{AreDistinct};
ghost use Rattle.ghg_keycat.specs.Sizes.{IsTrend, gross, gross_limit};
ghost use Rattle.ghg_tables.specs.Analyses.{check_row, first_check_row, level_rows, trend_rows, untrended_row};
ghost use Rattle.ghg_tables.specs.Assessed.{IsBounded, level_key_row, trend_key_row};
ghost use Rattle.ghg_tables.specs.Sums.{pairs};
ghost use Rattle.ghg_tables.specs.Tables.{header};
ghost use Rattle.ghg_tables.specs.declared.table.Table.TheVariants as tables;

use crate::analyses::{
    append_check, append_first_check, append_pair_words, append_percent_field, append_shares,
    append_tonnes_field, append_trend_words, append_untrended,
};
use crate::pairs::{Years, pairs};
use ghg_graph::Cells;
use ghg_keycat::{KeyRow, Pair, TrendRows, level, trend};
use ghg_units::Text;
use std::alloc::{AllocError, Global};

/// The level assessment: each pair by its part in the emissions and removals of the year.
pub(crate) fn print_level<C: Cells>(
    alloc: Global,
    years: Years,
    cells: &C,
) -> Result<Text, AllocError>
    ensures { IfOk result (λ text. text ≡ header tables.Level ++
        level_rows (pairs (C.content cells.now) (compilation (C.content cells.now)) years)) }
{
    let rows = pairs(alloc, cells, years)?;
    let keys = level(alloc, &rows)?;
    let mut out = Vec::from_slice(alloc, b"category,gas,value,share,cumulative,key\n")?;
    append_levels(&mut out, &keys)?;
    Ok(Text::new(out))
}

fn append_levels(out: &mut Vec<u8>, keys: &[KeyRow]) -> Result<(), AllocError>
    requires { All IsBounded keys.now }
    ensures { OnOk result (out.new.items ≡ out.old.items ++ flat_map level_key_row keys.now) }
{
    for key in keys {
        append_level(out, *key)?;
    }
    Ok(())
}

#[tactic(auto, unfolding(crate::specs::Assessed::level_key_row))]
fn append_level(out: &mut Vec<u8>, key: KeyRow) -> Result<(), AllocError>
    requires { IsBounded key }
    ensures { OnOk result (out.new.items ≡ out.old.items ++ level_key_row key) }
{
    append_pair_words(out, key.pair)?;
    append_tonnes_field(out, key.pair.now)?;
    append_shares(out, key)?;
    out.push(b'\n')?;
    Ok(())
}

/// The trend assessment: each pair by its part in the trend since the base year.
pub(crate) fn print_trend<C: Cells>(
    alloc: Global,
    years: Years,
    cells: &C,
) -> Result<Text, AllocError>
    ensures { IfOk result (λ text. text ≡ header tables.Trend ++
        trend_rows (pairs (C.content cells.now) (compilation (C.content cells.now)) years)) }
{
    let rows = pairs(alloc, cells, years)?;
    let mut out = Vec::from_slice(
        alloc,
        b"category,gas,base,value,trend,share,cumulative,key\n",
    )?;
    let assessment = trend(alloc, &rows)?;
    append_assessment(&mut out, &rows, assessment)?;
    Ok(Text::new(out))
}

// The rows of pairs by their assessment, or in their order where there is none.
fn append_assessment(
    out: &mut Vec<u8>,
    rows: &[Pair],
    assessment: TrendRows,
) -> Result<(), AllocError>
    requires distinct { AreDistinct rows.now }
    requires small { sum_by gross rows.now ≤ gross_limit }
    requires trend { IsTrend rows.now assessment }
    ensures { OnOk result (out.new.items ≡ out.old.items ++ trend_rows rows.now) }
{
    match assessment {
        TrendRows::Rows {
            rows: keys,
            denominator,
        } => append_trends(out, denominator, &keys),
        TrendRows::Undefined => append_untrended_rows(out, rows),
    }
}

fn append_trends(out: &mut Vec<u8>, denominator: u128, keys: &[KeyRow]) -> Result<(), AllocError>
    requires divisor { 1 ≤ denominator }
    requires bounded { All IsBounded keys.now }
    ensures { OnOk result (out.new.items ≡ out.old.items ++ flat_map (trend_key_row denominator) keys.now) }
{
    for key in keys {
        append_trend(out, denominator, *key)?;
    }
    Ok(())
}

#[tactic(auto, unfolding(crate::specs::Assessed::trend_key_row))]
fn append_trend(out: &mut Vec<u8>, denominator: u128, key: KeyRow) -> Result<(), AllocError>
    requires divisor { 1 ≤ denominator }
    requires bounded { IsBounded key }
    ensures { OnOk result (out.new.items ≡ out.old.items ++ trend_key_row denominator key) }
{
    append_trend_words(out, key.pair)?;
    append_percent_field(out, denominator, key.size as i128)?;
    append_shares(out, key)?;
    out.push(b'\n')?;
    Ok(())
}

fn append_untrended_rows(out: &mut Vec<u8>, rows: &[Pair]) -> Result<(), AllocError>
    ensures { OnOk result (out.new.items ≡ out.old.items ++ flat_map untrended_row rows.now) }
{
    for pair in rows {
        append_untrended(out, *pair)?;
    }
    Ok(())
}

const CHECKS_HEADER: &[u8] = b"category,gas,previous,value,change,flag\n";

/// The checks of a year that has one before it.
pub(crate) fn print_checks<C: Cells>(
    alloc: Global,
    years: Years,
    cells: &C,
) -> Result<Text, AllocError>
    ensures { IfOk result (λ text. text ≡ header tables.Checks ++ flat_map check_row
        (pairs (C.content cells.now) (compilation (C.content cells.now)) years)) }
{
    let rows = pairs(alloc, cells, years)?;
    let mut out = Vec::from_slice(alloc, CHECKS_HEADER)?;
    append_checks(&mut out, &rows)?;
    Ok(Text::new(out))
}

fn append_checks(out: &mut Vec<u8>, rows: &[Pair]) -> Result<(), AllocError>
    requires { All (λ p. gross p ≤ gross_limit) rows.now }
    ensures { OnOk result (out.new.items ≡ out.old.items ++ flat_map check_row rows.now) }
{
    for pair in rows {
        append_check(out, *pair)?;
    }
    Ok(())
}

/// The checks of the first year, in which nothing is compared.
pub(crate) fn print_first_checks<C: Cells>(
    alloc: Global,
    years: Years,
    cells: &C,
) -> Result<Text, AllocError>
    ensures { IfOk result (λ text. text ≡ header tables.Checks ++ flat_map first_check_row
        (pairs (C.content cells.now) (compilation (C.content cells.now)) years)) }
{
    let rows = pairs(alloc, cells, years)?;
    let mut out = Vec::from_slice(alloc, CHECKS_HEADER)?;
    for pair in &rows {
        append_first_check(&mut out, *pair)?;
    }
    Ok(Text::new(out))
}
