//! Half-lives.

ghost use Rattle.std.specs.Prelude.{◌≡◌, ◌<◌, IfSome};
ghost use Rattle.ghg_units.specs.HalfLife.{half_life_in, tenths_in, years_in};
ghost use Rattle.ghg_units.specs.WellFormed.{IsHalfLife};

use crate::decimal::{point_in, read_number};

/// The shortest half-life, in tenths of a year.
pub const SHORTEST_HALF_LIFE: u32 = 10;

/// The longest half-life, in tenths of a year.
pub const LONGEST_HALF_LIFE: u32 = 600;

/// The half-life, in tenths of a year, that a text writes in a body of a format: in format 1 whole years from
/// 1 to 60, in one or two digits; in format 2 these, or these with a point and one digit. `None` exactly
/// where the text is no such half-life.
#[tactic(auto, unfolding(crate::specs::HalfLife::half_life_in))]
pub fn read_half_life(format: u32, text: &[u8]) -> Option<u32>
    ensures reads { result ≡ half_life_in format text.now }
    ensures keeps { IfSome result IsHalfLife }
{
    let tenths = if format == 2 {
        tenths(text)?
    } else {
        years(text)?
    };
    if (SHORTEST_HALF_LIFE..=LONGEST_HALF_LIFE).contains(&tenths) {
        Some(tenths)
    } else {
        None
    }
}

// The tenths of a year in the whole years that a text writes.
#[tactic(auto, unfolding(crate::specs::HalfLife::years_in))]
fn years(text: &[u8]) -> Option<u32>
    ensures value { result ≡ years_in text.now }
    ensures small { IfSome result (λ tenths. tenths < 1_000) }
{
    let years = read_number(text, 2)?;
    Some(years as u32 * 10)
}

// The tenths of a year that a text writes as years, with one digit behind the point if it has one.
#[tactic(auto, unfolding(crate::specs::HalfLife::tenths_in))]
fn tenths(text: &[u8]) -> Option<u32>
    ensures { result ≡ tenths_in text.now }
{
    match point_in(text) {
        None => years(text),
        Some(point) => {
            let years = years(&text[..point])?;
            let tenth = read_number(&text[point + 1..], 1)?;
            Some(years + tenth as u32)
        }
    }
}
