//! Rows of the analyses.

ghost use Rattle.std.specs.Prelude.{◌≡◌, ◌++◌, ◌^◌, ◌+◌, ◌*◌, ◌<◌, ◌≤◌, codes, OnOk, unsigned_abs};
ghost use Rattle.ghg_keycat.specs.Sizes.{gross, gross_limit};
ghost use Rattle.ghg_tables.specs.Analyses.{amounts_text, approaches_text, change_text, check_row, first_check_row, gap_flag, gap_text, item_text, pair_words, shares_text, trend_words, untrended_row};
ghost use Rattle.ghg_tables.specs.Assessed.{IsBounded};
ghost use Rattle.ghg_tables.specs.Gathering.{largest_tonnes};
ghost use Rattle.ghg_tables.specs.Texts.{answer_text, field, hundredths_text, percent_text, tonnes_text};

use crate::figures::{append_field, append_number};
use crate::precision::Precision;
use crate::rounding::near;
use ghg_categories::code;
use ghg_keycat::{KeyRow, Pair};
use ghg_units::write_fixed;
use std::alloc::AllocError;

// ---- pieces

/// Appends a number of hundredths with two decimals.
#[tactic(auto, unfolding(crate::specs::Texts::hundredths_text))]
pub fn append_hundredths(out: &mut Vec<u8>, n: i128) -> Result<(), AllocError>
    ensures { OnOk result (out.new.items ≡ out.old.items ++ hundredths_text n) }
{
    write_fixed(out, n, 2)
}

/// The same, and a comma.
#[tactic(auto, unfolding(crate::specs::Texts::field))]
pub fn append_hundredths_field(out: &mut Vec<u8>, n: i128) -> Result<(), AllocError>
    ensures { OnOk result (out.new.items ≡ out.old.items ++ field (hundredths_text n)) }
{
    append_hundredths(out, n)?;
    out.push(b',')?;
    Ok(())
}

// Appends n over d as a percentage, to the nearest hundredth.
#[tactic(auto, unfolding(crate::specs::Texts::percent_text))]
fn append_percent(out: &mut Vec<u8>, d: u128, n: i128) -> Result<(), AllocError>
    requires divisor { 1 ≤ d }
    requires bounded { 10000 * unsigned_abs n < 2 ^ 127 }
    ensures { OnOk result (out.new.items ≡ out.old.items ++ percent_text d n) }
{
    append_hundredths(out, near(10_000 * n, d))
}

/// The same, and a comma.
#[tactic(auto, unfolding(crate::specs::Texts::field))]
pub(crate) fn append_percent_field(out: &mut Vec<u8>, d: u128, n: i128) -> Result<(), AllocError>
    requires divisor { 1 ≤ d }
    requires bounded { 10000 * unsigned_abs n < 2 ^ 127 }
    ensures { OnOk result (out.new.items ≡ out.old.items ++ field (percent_text d n)) }
{
    append_percent(out, d, n)?;
    out.push(b',')?;
    Ok(())
}

/// Appends a reported value, in tonnes.
#[tactic(auto, unfolding(crate::specs::Texts::tonnes_text))]
pub(crate) fn append_tonnes(out: &mut Vec<u8>, n: i128) -> Result<(), AllocError>
    ensures { OnOk result (out.new.items ≡ out.old.items ++ tonnes_text n) }
{
    append_number(out, n, Precision::Thousandths)
}

/// The same, and a comma.
#[tactic(auto, unfolding(crate::specs::Texts::field))]
pub fn append_tonnes_field(out: &mut Vec<u8>, n: i128) -> Result<(), AllocError>
    ensures { OnOk result (out.new.items ≡ out.old.items ++ field (tonnes_text n)) }
{
    append_tonnes(out, n)?;
    out.push(b',')?;
    Ok(())
}

fn append_answer(out: &mut Vec<u8>, answer: bool) -> Result<(), AllocError>
    ensures { OnOk result (out.new.items ≡ out.old.items ++ answer_text answer) }
{
    out.extend_from_slice(if answer { b"yes" } else { b"no" })
}

// ---- the reference approach beside the sectoral one

/// Appends the rows of the reference table, of the tonnes of both approaches.
#[tactic(auto, unfolding(crate::specs::Analyses::approaches_text))]
pub(crate) fn append_approaches(
    out: &mut Vec<u8>,
    reference: i128,
    sectoral: i128,
) -> Result<(), AllocError>
    requires reference_small { unsigned_abs reference ≤ largest_tonnes }
    requires sectoral_small { unsigned_abs sectoral ≤ largest_tonnes }
    ensures { OnOk result (out.new.items ≡ out.old.items ++ approaches_text reference sectoral) }
{
    let difference = reference - sectoral;
    append_amounts(out, reference, sectoral, difference)?;
    append_gap(out, difference, sectoral)?;
    append_gap_flag(out, difference, sectoral)
}

#[tactic(auto, unfolding(crate::specs::Analyses::amounts_text))]
fn append_amounts(
    out: &mut Vec<u8>,
    reference: i128,
    sectoral: i128,
    difference: i128,
) -> Result<(), AllocError>
    ensures { OnOk result (out.new.items ≡ out.old.items ++ amounts_text reference sectoral difference) }
{
    append_item(out, b"reference", reference)?;
    append_item(out, b"sectoral", sectoral)?;
    append_item(out, b"difference", difference)
}

#[tactic(auto, unfolding(crate::specs::Analyses::item_text))]
fn append_item(out: &mut Vec<u8>, item: &[u8], tonnes: i128) -> Result<(), AllocError>
    ensures { OnOk result (out.new.items ≡ out.old.items ++ item_text item.now (tonnes_text tonnes)) }
{
    append_field(out, item)?;
    append_tonnes(out, tonnes)?;
    out.push(b'\n')?;
    Ok(())
}

#[tactic(auto, unfolding(crate::specs::Analyses::item_text, crate::specs::Analyses::gap_text))]
fn append_gap(out: &mut Vec<u8>, difference: i128, sectoral: i128) -> Result<(), AllocError>
    requires { unsigned_abs difference ≤ 2 * largest_tonnes }
    ensures { OnOk result (out.new.items ≡ out.old.items ++
        item_text (codes "percent") (gap_text difference sectoral)) }
{
    append_field(out, b"percent")?;
    let size = sectoral.unsigned_abs();
    if size == 0 {
        out.push(b'-')?;
    } else {
        append_percent(out, size, difference)?;
    }
    out.push(b'\n')?;
    Ok(())
}

#[tactic(auto, unfolding(crate::specs::Analyses::item_text, crate::specs::Analyses::gap_flag))]
fn append_gap_flag(out: &mut Vec<u8>, difference: i128, sectoral: i128) -> Result<(), AllocError>
    requires { unsigned_abs difference ≤ 2 * largest_tonnes }
    ensures { OnOk result (out.new.items ≡ out.old.items ++
        item_text (codes "flag") (gap_flag difference sectoral)) }
{
    append_field(out, b"flag")?;
    let size = sectoral.unsigned_abs();
    if size == 0 {
        out.push(b'-')?;
    } else {
        append_answer(out, 20 * difference.unsigned_abs() > size)?;
    }
    out.push(b'\n')?;
    Ok(())
}

// ---- pairs

/// Appends the category and the gas of a pair.
#[tactic(auto, unfolding(crate::specs::Analyses::pair_words))]
pub(crate) fn append_pair_words(out: &mut Vec<u8>, pair: Pair) -> Result<(), AllocError>
    ensures { OnOk result (out.new.items ≡ out.old.items ++ pair_words pair) }
{
    append_field(out, code(pair.category).as_bytes())?;
    append_field(out, pair.gas.word().as_bytes())
}

/// Appends the share of a row in the total, the share up to and with it, and whether it is key.
#[tactic(auto, unfolding(crate::specs::Analyses::shares_text))]
pub(crate) fn append_shares(out: &mut Vec<u8>, key: KeyRow) -> Result<(), AllocError>
    requires { IsBounded key }
    ensures { OnOk result (out.new.items ≡ out.old.items ++ shares_text key.total key.size key.before) }
{
    if key.total == 0 {
        return out.extend_from_slice(b"-,-,no");
    }
    append_percent_field(out, key.total, key.size as i128)?;
    append_percent_field(out, key.total, (key.before + key.size) as i128)?;
    append_answer(out, key.key)
}

/// Appends the words of a pair and what it emits in both years.
#[tactic(auto, unfolding(crate::specs::Analyses::trend_words))]
pub(crate) fn append_trend_words(out: &mut Vec<u8>, pair: Pair) -> Result<(), AllocError>
    ensures { OnOk result (out.new.items ≡ out.old.items ++ trend_words pair) }
{
    append_pair_words(out, pair)?;
    append_tonnes_field(out, pair.base)?;
    append_tonnes_field(out, pair.now)
}

/// Appends the row of a pair where the base year sums to zero.
#[tactic(auto, unfolding(crate::specs::Analyses::untrended_row))]
pub(crate) fn append_untrended(out: &mut Vec<u8>, pair: Pair) -> Result<(), AllocError>
    ensures { OnOk result (out.new.items ≡ out.old.items ++ untrended_row pair) }
{
    append_trend_words(out, pair)?;
    out.extend_from_slice(b"-,-,-,no\n")
}

// ---- checks of a year against the one before

/// Appends the row of a pair beside the year before.
#[tactic(auto, unfolding(crate::specs::Analyses::check_row))]
pub(crate) fn append_check(out: &mut Vec<u8>, pair: Pair) -> Result<(), AllocError>
    requires { gross pair ≤ gross_limit }
    ensures { OnOk result (out.new.items ≡ out.old.items ++ check_row pair) }
{
    append_pair_words(out, pair)?;
    append_tonnes_field(out, pair.base)?;
    append_tonnes_field(out, pair.now)?;
    append_change(out, pair.base, pair.now)?;
    out.push(b'\n')?;
    Ok(())
}

// Appends the change and whether it is more than 20 percent.
#[tactic(auto, unfolding(crate::specs::Analyses::change_text))]
fn append_change(out: &mut Vec<u8>, previous: i128, value: i128) -> Result<(), AllocError>
    requires previous_small { unsigned_abs previous ≤ gross_limit }
    requires value_small { unsigned_abs value ≤ gross_limit }
    ensures { OnOk result (out.new.items ≡ out.old.items ++ change_text previous value) }
{
    let size = previous.unsigned_abs();
    if size == 0 {
        return out.extend_from_slice(b"-,-");
    }
    let change = value - previous;
    append_percent_field(out, size, change)?;
    append_answer(out, 5 * change.unsigned_abs() > size)
}

/// Appends the row of a pair in the first year.
#[tactic(auto, unfolding(crate::specs::Analyses::first_check_row))]
pub(crate) fn append_first_check(out: &mut Vec<u8>, pair: Pair) -> Result<(), AllocError>
    ensures { OnOk result (out.new.items ≡ out.old.items ++ first_check_row pair) }
{
    append_pair_words(out, pair)?;
    out.extend_from_slice(b"-,")?;
    append_tonnes_field(out, pair.now)?;
    out.extend_from_slice(b"-,-\n")
}
