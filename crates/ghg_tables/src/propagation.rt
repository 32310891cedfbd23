//! The table of uncertainties, by propagation of errors.

ghost use Rattle.std.specs.Prelude.{◌≡◌, ◌++◌, ◌≤◌, false, All, IfOk, IfSome, OnOk, map, length, pos, unsigned_abs};
ghost use Rattle.std.specs.List.{flat_map, list_any};
ghost use Rattle.std.specs.Option.{option_map_or};
ghost use Rattle.ghg_categories.specs.Tree.{stands_under};
ghost use Rattle.ghg_categories.specs.declared.category.Category.TheVariants.{National};
ghost use Rattle.ghg_definitions.specs.Compilation.{compilation};
ghost use Rattle.ghg_definitions.specs.Rules.{most_lines};
ghost use Rattle.ghg_units.specs.declared.uncertainty.TheConstants.{GREATEST_UNCERTAINTY};
ghost use Rattle.ghg_uncertainty.specs.Brackets.{largest_bound};
ghost use Rattle.ghg_uncertainty.specs.Totals.{IsShare, amount_limit, net};
ghost use Rattle.ghg_definitions.specs.Data.{line_names, uncertainty};
ghost use Rattle.ghg_tables.specs.Analyses.{bounds_text, emission_words, record_text, total_bracket, total_row, uncertainties_text, uncertainty_row, value_text};
ghost use Rattle.ghg_tables.specs.Tables.{emitter_row, emitters, lacks_record, line_tonnes, share_of, uncertainty_text};
ghost use Rattle.ghg_tables.specs.Sums.{emission};
ghost use Rattle.ghg_tables.specs.Texts.{field};

use crate::analyses::{
    append_hundredths, append_hundredths_field, append_tonnes, append_tonnes_field,
};
use crate::figures::{append_field, reported};
use crate::groups::emission;
use crate::precision::Precision;
use crate::sums::shown;
use ghg_categories::{Category, code, is_under};
use ghg_cell::Input;
use ghg_data::Records;
use ghg_definitions::{Record, RecordKey};
use ghg_equations::Gas;
use ghg_graph::Cells;
use ghg_uncertainty::{Share, TotalUncertainty, combined, net, total};
use ghg_units::{Name, Node, Text};
use std::alloc::{AllocError, Global};

/// The uncertainty of each line in the tree that emits a gas, and that of the total.
#[tactic(auto, unfolding(crate::specs::Tables::uncertainty_text))]
pub(crate) fn print_uncertainty<C: Cells>(
    alloc: Global,
    year: u32,
    cells: &C,
) -> Result<Text, AllocError>
    ensures { IfOk result (λ text.
        text ≡ uncertainty_text (C.content cells.now) (compilation (C.content cells.now)) year) }
{
    let lines = emitters(alloc, cells)?;
    let mut out = Vec::from_slice(
        alloc,
        b"code,category,gas,value,activity,factor,combined_low,combined_high\n",
    )?;
    append_emitters(&mut out, cells, &lines, year)?;
    let shares = shares(alloc, cells, &lines, year)?;
    append_total(&mut out, lacks_records(cells, &lines, year), &shares)?;
    Ok(Text::new(out))
}

/// The lines in the tree that emit a gas, by name. The only error is that memory ran out.
pub fn emitters<C: Cells>(alloc: Global, cells: &C) -> Result<Vec<Name>, AllocError>
    ensures lines { IfOk result (λ lines. lines.items ≡ emitters (C.content cells.now)) }
    ensures few { IfOk result (λ lines. length lines.items ≤ most_lines) }
{
    let names = cells.book().lines(alloc)?;
    in_tree(alloc, cells, &names)
}

// Those of the lines that are in the tree and emit a gas.
fn in_tree<C: Cells>(alloc: Global, cells: &C, names: &[Name]) -> Result<Vec<Name>, AllocError>
    requires { names.now ≡ line_names (C.content cells.now) }
    ensures { IfOk result (λ lines. lines.items ≡ emitters (C.content cells.now)) }
{
    names
        .iter()
        .filter(|name| is_emitter(cells, name))
        .copied()
        .collect(alloc)
}

fn is_emitter<C: Cells>(cells: &C, name: &Name) -> bool
    ensures { result ≡ option_map_or (λ k. stands_under k.0 National)
        (emission (C.content cells.now) name.now) false }
{
    match emission(cells.book(), name) {
        Some((category, _)) => is_under(category, Category::National),
        None => false,
    }
}

// The rows of lines.
fn append_emitters<C: Cells>(
    out: &mut Vec<u8>,
    cells: &C,
    lines: &[Name],
    year: u32,
) -> Result<(), AllocError>
    ensures { OnOk result (out.new.items ≡ out.old.items ++
        flat_map (emitter_row (C.content cells.now) (compilation (C.content cells.now)) year) lines.now) }
{
    for name in lines {
        append_emitter(out, cells, name, year)?;
    }
    Ok(())
}

#[tactic(auto, unfolding(crate::specs::Tables::emitter_row))]
fn append_emitter<C: Cells>(
    out: &mut Vec<u8>,
    cells: &C,
    name: &Name,
    year: u32,
) -> Result<(), AllocError>
    ensures { OnOk result (out.new.items ≡ out.old.items ++
        emitter_row (C.content cells.now) (compilation (C.content cells.now)) year name.now) }
{
    match emission(cells.book(), name) {
        Some(pair) => {
            let value = shown(cells, &Node::Equiv(*name, year));
            let percentages = uncertainty(cells.book(), name);
            append_uncertainty(out, name, pair, &value, percentages)
        }
        None => Ok(()),
    }
}

/// The percentages of a line's activity and factor, in hundredths; `None` exactly where it has no record.
pub fn uncertainty<R: Records>(records: &R, line: &Name) -> Option<(u32, u32)>
    ensures value { result ≡ uncertainty (R.content records.now) line.now }
    ensures small { IfSome result (λ p. (p.0 ≤ GREATEST_UNCERTAINTY) × (p.1 ≤ GREATEST_UNCERTAINTY)) }
{
    match records.get(&RecordKey::Uncert(*line)) {
        Some(Record::Uncert(activity, factor)) => Some((*activity, *factor)),
        _ => None,
    }
}

#[tactic(auto, unfolding(crate::specs::Analyses::uncertainty_row))]
fn append_uncertainty(
    out: &mut Vec<u8>,
    name: &Name,
    pair: (Category, Gas),
    value: &Input,
    percentages: Option<(u32, u32)>,
) -> Result<(), AllocError>
    requires { IfSome percentages (λ p. (p.0 ≤ GREATEST_UNCERTAINTY) × (p.1 ≤ GREATEST_UNCERTAINTY)) }
    ensures { OnOk result (out.new.items ≡ out.old.items ++
        uncertainty_row name.now pair value.now percentages) }
{
    append_emission_words(out, name, pair)?;
    append_value_field(out, value)?;
    append_uncertainties(out, percentages)?;
    out.push(b'\n')?;
    Ok(())
}

/// Appends the name of a line, where it stands and what it emits.
#[tactic(auto, unfolding(crate::specs::Analyses::emission_words))]
pub fn append_emission_words(
    out: &mut Vec<u8>,
    name: &Name,
    pair: (Category, Gas),
) -> Result<(), AllocError>
    ensures { OnOk result (out.new.items ≡ out.old.items ++ emission_words name.now pair) }
{
    append_field(out, name.as_bytes())?;
    append_field(out, code(pair.0).as_bytes())?;
    append_field(out, pair.1.word().as_bytes())
}

#[tactic(auto, unfolding(crate::specs::Analyses::value_text, crate::specs::Texts::field))]
fn append_value_field(out: &mut Vec<u8>, value: &Input) -> Result<(), AllocError>
    ensures { OnOk result (out.new.items ≡ out.old.items ++ field (value_text value.now)) }
{
    match value {
        Input::Blank => out.extend_from_slice(b"NE,"),
        Input::Known { point, .. } => {
            append_tonnes_field(out, reported(point, Precision::Thousandths))
        }
    }
}

#[tactic(auto, unfolding(crate::specs::Analyses::uncertainties_text))]
fn append_uncertainties(
    out: &mut Vec<u8>,
    percentages: Option<(u32, u32)>,
) -> Result<(), AllocError>
    requires { IfSome percentages (λ p. (p.0 ≤ GREATEST_UNCERTAINTY) × (p.1 ≤ GREATEST_UNCERTAINTY)) }
    ensures { OnOk result (out.new.items ≡ out.old.items ++ uncertainties_text percentages) }
{
    match percentages {
        Some((activity, factor)) => append_record(out, activity, factor),
        None => out.extend_from_slice(b"-,-,-,-"),
    }
}

#[tactic(auto, unfolding(crate::specs::Analyses::record_text))]
fn append_record(out: &mut Vec<u8>, activity: u32, factor: u32) -> Result<(), AllocError>
    requires activity_in { activity ≤ GREATEST_UNCERTAINTY }
    requires factor_in { factor ≤ GREATEST_UNCERTAINTY }
    ensures { OnOk result (out.new.items ≡ out.old.items ++ record_text activity factor) }
{
    let (low, high) = combined(activity, factor);
    append_hundredths_field(out, i128::from(activity))?;
    append_hundredths_field(out, i128::from(factor))?;
    append_hundredths_field(out, i128::from(low))?;
    append_hundredths(out, i128::from(high))
}

/// What a line emits in a year, in tonnes of CO2 equivalent; a blank counts as zero.
#[tactic(auto, unfolding(crate::specs::Tables::line_tonnes))]
pub fn line_tonnes<C: Cells>(cells: &C, name: &Name, year: u32) -> i128
    ensures value { result ≡ line_tonnes (compilation (C.content cells.now)) year name.now }
    ensures small { unsigned_abs result ≤ amount_limit }
{
    match shown(cells, &Node::Equiv(*name, year)) {
        Input::Blank => 0,
        Input::Known { point, .. } => reported(&point, Precision::Thousandths),
    }
}

// The parts of lines in the total.
fn shares<C: Cells>(
    alloc: Global,
    cells: &C,
    lines: &[Name],
    year: u32,
) -> Result<Vec<Share>, AllocError>
    ensures shares { IfOk result (λ shares. shares.items ≡
        map (share_of (C.content cells.now) (compilation (C.content cells.now)) year) lines.now) }
    ensures each { IfOk result (λ shares. All IsShare shares.items) }
{
    let mut shares = Vec::with_capacity(alloc, lines.len())?;
    for name in lines {
        shares.push(share(cells, name, year))?;
    }
    Ok(shares)
}

#[tactic(auto, unfolding(crate::specs::Tables::share_of))]
fn share<C: Cells>(cells: &C, name: &Name, year: u32) -> Share
    ensures value { result ≡
        share_of (C.content cells.now) (compilation (C.content cells.now)) year name.now }
    ensures share { IsShare result }
{
    let tonnes = line_tonnes(cells, name, year);
    let (activity, factor) = uncertainty(cells.book(), name).unwrap_or((0, 0));
    Share {
        tonnes,
        activity,
        factor,
    }
}

// Whether a line that emits something has no record.
fn lacks_records<C: Cells>(cells: &C, lines: &[Name], year: u32) -> bool
    ensures { result ≡ list_any
        (lacks_record (C.content cells.now) (compilation (C.content cells.now)) year) lines.now }
{
    lines.iter().any(|name| lacks_record(cells, name, year))
}

#[tactic(auto, unfolding(crate::specs::Tables::lacks_record))]
fn lacks_record<C: Cells>(cells: &C, name: &Name, year: u32) -> bool
    ensures { result ≡ lacks_record (C.content cells.now) (compilation (C.content cells.now)) year name.now }
{
    uncertainty(cells.book(), name).is_none() && line_tonnes(cells, name, year) != 0
}

#[tactic(auto, unfolding(crate::specs::Analyses::total_row))]
fn append_total(out: &mut Vec<u8>, lacks: bool, shares: &[Share]) -> Result<(), AllocError>
    requires count { length shares.now ≤ most_lines }
    requires each { All IsShare shares.now }
    ensures { OnOk result (out.new.items ≡ out.old.items ++ total_row lacks shares.now) }
{
    out.extend_from_slice(b"total,-,-,")?;
    append_tonnes_field(out, net(shares))?;
    out.extend_from_slice(b"-,-,")?;
    append_bracket(out, lacks, shares)?;
    out.push(b'\n')?;
    Ok(())
}

// The uncertainty of the total, if it has one.
fn append_bracket(out: &mut Vec<u8>, lacks: bool, shares: &[Share]) -> Result<(), AllocError>
    requires count { length shares.now ≤ most_lines }
    requires each { All IsShare shares.now }
    ensures { OnOk result (out.new.items ≡ out.old.items ++ total_bracket lacks shares.now) }
{
    if lacks {
        return out.extend_from_slice(b"-,-");
    }
    match total(shares) {
        TotalUncertainty::Bracket { low, high } => append_bounds(out, low, high),
        TotalUncertainty::Undefined => out.extend_from_slice(b"-,-"),
    }
}

#[tactic(auto, unfolding(crate::specs::Analyses::bounds_text))]
fn append_bounds(out: &mut Vec<u8>, low: u128, high: u128) -> Result<(), AllocError>
    requires low_small { low ≤ largest_bound }
    requires high_small { high ≤ largest_bound }
    ensures { OnOk result (out.new.items ≡ out.old.items ++ bounds_text (pos low) (pos high)) }
{
    append_hundredths_field(out, low as i128)?;
    append_hundredths(out, high as i128)
}
