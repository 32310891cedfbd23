//! Percentages of uncertainty records.

ghost use Rattle.std.specs.Prelude.{◌≡◌, IfSome};
ghost use Rattle.ghg_units.specs.Uncertainty.{decimal_places, is_percentage, uncertainty_in};
ghost use Rattle.ghg_units.specs.WellFormed.{IsUncertainty};

use crate::decimal::{Decimal, point_in, read_decimal};
use ghg_interval::SCALE;

/// The greatest percentage of an uncertainty, in hundredths of a percent: 1000 percent.
pub const GREATEST_UNCERTAINTY: u32 = 100_000;

// A hundredth, in 10^-12.
const HUNDREDTH: i128 = SCALE / 100;

/// The percentage that a text writes, in hundredths of a percent: a decimal from 0 to 1000 with at most two
/// digits behind its point, zeros too; `None` exactly where the text is no such percentage.
#[tactic(auto, unfolding(crate::specs::Uncertainty::uncertainty_in))]
pub fn read_uncertainty(text: &[u8]) -> Option<u32>
    ensures reads { result ≡ uncertainty_in text.now }
    ensures keeps { IfSome result IsUncertainty }
{
    let decimal = read_decimal(text)?;
    if decimal_places(text) > 2 || !is_percentage(decimal) {
        return None;
    }
    Some((decimal.scaled / HUNDREDTH) as u32)
}

// How many digits stand behind the first point.
#[tactic(auto, unfolding(crate::specs::Uncertainty::decimal_places))]
fn decimal_places(text: &[u8]) -> usize
    ensures { result ≡ decimal_places text.now }
{
    match point_in(text) {
        None => 0,
        Some(point) => text.len() - (point + 1),
    }
}

// From 0 to the greatest percentage.
fn is_percentage(percent: Decimal) -> bool
    ensures { result ≡ is_percentage percent.scaled }
{
    0 <= percent.scaled && percent.scaled <= i128::from(GREATEST_UNCERTAINTY) * HUNDREDTH
}
