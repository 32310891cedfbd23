//! Uncertainties of a trend, of one line and of the total.

ghost use Rattle.std.specs.Prelude.{◌≡◌, ◌≤◌, All, length};
ghost use Rattle.std.specs.List.{sum_by};
ghost use Rattle.ghg_cell.specs.declared.totals.TheConstants.{MOST_PARTS};
ghost use Rattle.ghg_trendunc.specs.Ends.{AreSides, high_square, largest_square, low_square, side_limit, square_sum};
ghost use Rattle.ghg_trendunc.specs.Totals.{HoldsTrend, IsTrendTotal};

use ghg_roots::sqrt_bracket;

/// What a line's uncertainties make of the trend: whole numbers of millionths of a percent, next to the exact
/// ones.
#[derive(Clone, Copy, Debug, PartialEq, Eq, Drop)]
pub struct Sides {
    /// By the emission factor (column K of Table 3.2), rounded down.
    pub k_low: u128,
    /// The same, rounded up.
    pub k_high: u128,
    /// By the activity data (column L of Table 3.2) over the square root of two, rounded down.
    pub j_low: u128,
    /// The same, rounded up.
    pub j_high: u128,
}

/// The uncertainty of the trend of the total, in millionths of a percent, rounded down and rounded up: the
/// root of the sum of the squares of what each line's uncertainties make of it.
pub fn trend_total(rows: &[Sides]) -> (u128, u128)
    requires count { length rows.now ≤ MOST_PARTS }
    requires sides { All AreSides rows.now }
    ensures total { IsTrendTotal rows.now result.0 result.1 }
    ensures holds { HoldsTrend rows.now result.0 result.1 }
{
    let (low, _) = sqrt_bracket(low_squares(rows));
    let (_, high) = sqrt_bracket(high_squares(rows));
    (low, high)
}

// The sum of the squares, rounded down.
fn low_squares(rows: &[Sides]) -> u128
    requires count { length rows.now ≤ MOST_PARTS }
    requires sides { All AreSides rows.now }
    ensures { result ≡ sum_by low_square rows.now }
{
    let mut sum: u128 = 0;
    for row in rows {
        sum += square_sum(row.k_low, row.j_low);
    }
    sum
}

// The sum of the squares, rounded up.
fn high_squares(rows: &[Sides]) -> u128
    requires count { length rows.now ≤ MOST_PARTS }
    requires sides { All AreSides rows.now }
    ensures { result ≡ sum_by high_square rows.now }
{
    let mut sum: u128 = 0;
    for row in rows {
        sum += square_sum(row.k_high, row.j_high);
    }
    sum
}

// The square of the root of two counts twice.
fn square_sum(k: u128, j: u128) -> u128
    requires k_in { k ≤ side_limit }
    requires j_in { j ≤ side_limit }
    ensures value { result ≡ square_sum k j }
    ensures small { result ≤ largest_square }
{
    k * k + 2 * (j * j)
}
