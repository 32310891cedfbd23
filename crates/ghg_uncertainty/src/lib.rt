//! The uncertainty of an emission and of a total, by propagation of errors.
//!
//! Source: 2006 IPCC Guidelines, Volume 1, Chapter 3, Approach 1. Uncertainties are in hundredths of a
//! percent. A root is given by the whole numbers next to it.
#![tactic(auto)]

mod laws;

ghost use Rattle.std.specs.Prelude.{◌≡◌, ◌≤◌, All, length};
ghost use Rattle.ghg_cell.specs.declared.totals.TheConstants.{MOST_PARTS};
ghost use Rattle.ghg_roots.specs.Roots.{IsRootBracket};
ghost use Rattle.ghg_units.specs.declared.uncertainty.TheConstants.{GREATEST_UNCERTAINTY};
ghost use Rattle.ghg_uncertainty.specs.Totals.{HoldsTotal, IsShare, IsTotal, largest_square_sum, largest_variance, net, spread, square_sum, variance};

use ghg_roots::sqrt_bracket;
pub use laws::{brackets_are_roots, totals_are_small, totals_hold_roots};

/// An amount of a sum, with the uncertainties of the two factors that it is the product of.
#[derive(Clone, Copy, Debug, PartialEq, Eq, Drop)]
pub struct Share {
    /// Emissions less removals, in tonnes of CO2 equivalent.
    pub tonnes: i128,
    /// The uncertainty of the activity data, in hundredths of a percent.
    pub activity: u32,
    /// The uncertainty of the emission factor, in hundredths of a percent.
    pub factor: u32,
}

/// The uncertainty of a total.
#[derive(Clone, Copy, Debug, PartialEq, Eq, Drop)]
pub enum TotalUncertainty {
    /// It lies between two whole numbers of hundredths of a percent.
    Bracket { low: u128, high: u128 },
    /// The total is zero, so that it has no relative uncertainty.
    Undefined,
}

/// The uncertainty of the product of activity data and emission factor (Equation 3.1): the root of the sum of
/// both squares. All are in hundredths of a percent.
pub fn combined(activity: u32, factor: u32) -> (u32, u32)
    requires activity_in { activity ≤ GREATEST_UNCERTAINTY }
    requires factor_in { factor ≤ GREATEST_UNCERTAINTY }
    ensures { IsRootBracket (square_sum activity factor) result.0 result.1 }
{
    let (low, high) = sqrt_bracket(square_sum(activity, factor));
    (low as u32, high as u32)
}

/// The uncertainty of the sum of all amounts (Equation 3.2): each amount times its uncertainty, squared and
/// added up, and the root of that over the magnitude of the sum.
pub fn total(rows: &[Share]) -> TotalUncertainty
    requires count { length rows.now ≤ MOST_PARTS }
    requires shares { All IsShare rows.now }
    ensures total { IsTotal rows.now result }
    ensures holds { HoldsTotal rows.now result }
{
    let net = net(rows);
    let size = net.unsigned_abs();
    if size == 0 {
        TotalUncertainty::Undefined
    } else {
        let (low, high) = sqrt_bracket(spread(rows));
        TotalUncertainty::Bracket {
            low: low / size,
            high: high.div_ceil(size),
        }
    }
}

/// The sum of the amounts.
pub fn net(rows: &[Share]) -> i128
    requires count { length rows.now ≤ MOST_PARTS }
    requires shares { All IsShare rows.now }
    ensures { result ≡ net rows.now }
{
    let mut sum: i128 = 0;
    for row in rows {
        sum += row.tonnes;
    }
    sum
}

// The sum of the variances.
fn spread(rows: &[Share]) -> u128
    requires count { length rows.now ≤ MOST_PARTS }
    requires shares { All IsShare rows.now }
    ensures { result ≡ spread rows.now }
{
    let mut sum: u128 = 0;
    for row in rows {
        sum += row.variance();
    }
    sum
}

impl Share {
    // The square of the amount times its uncertainty.
    fn variance(&self) -> u128
        requires { IsShare self.now }
        ensures value { result ≡ variance self.now }
        ensures small { result ≤ largest_variance }
    {
        let size = self.tonnes.unsigned_abs();
        square_sum(self.activity, self.factor) * (size * size)
    }
}

fn square_sum(activity: u32, factor: u32) -> u128
    requires activity_in { activity ≤ GREATEST_UNCERTAINTY }
    requires factor_in { factor ≤ GREATEST_UNCERTAINTY }
    ensures value { result ≡ square_sum activity factor }
    ensures small { result ≤ largest_square_sum }
{
    let activity = activity as u128;
    let factor = factor as u128;
    activity * activity + factor * factor
}
