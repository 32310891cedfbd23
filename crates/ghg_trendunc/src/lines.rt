//! What the uncertainties of a line make of the trend.

ghost use Rattle.std.specs.Prelude.{◌≡◌, ◌≤◌, ◌<◌, ◌*◌, ◌^◌, IfSome, false, pos, unsigned_abs, ◌-ℤ◌, ◌*ℤ◌};
ghost use Rattle.ghg_interval.specs.Fractions.{product};
ghost use Rattle.ghg_units.specs.declared.uncertainty.TheConstants.{GREATEST_UNCERTAINTY};
ghost use Rattle.ghg_uncertainty.specs.Totals.{amount_limit};
ghost use Rattle.ghg_trendunc.specs.Ends.{AreOrdered, AreSides, millionths_down, millionths_up, over};
ghost use Rattle.ghg_trendunc.specs.Lines.{IsTrendShare, are_beyond, bounds_of, change, hundredths, is_undefined, raised, sides_of, sum_limit};

use crate::totals::Sides;

/// What a line emits in the base year and in the year that is assessed, with its uncertainties.
#[derive(Clone, Copy, Debug, PartialEq, Eq, Drop)]
pub struct TrendShare {
    /// Emissions less removals of the base year, in tonnes of CO2 equivalent.
    pub base: i128,
    /// The same of the year that is assessed.
    pub now: i128,
    /// The uncertainty of the activity data, in hundredths of a percent.
    pub activity: u32,
    /// The uncertainty of the emission factor, in hundredths of a percent.
    pub factor: u32,
}

// How many parts make one percent.
const MILLION: u128 = 1_000_000;

// The greatest number of a side: 10^6 percent.
const MOST: u128 = 1_000_000_000_000;

/// What a line's uncertainties make of the trend, for the sums of both years over all lines.
///
/// `None` exactly where the base year sums to zero, or would with one percent more of the line, or where a
/// side is above 10^6 percent.
#[tactic(auto, unfolding(crate::specs::Lines::sides_of))]
pub fn sides(row: &TrendShare, base_sum: i128, now_sum: i128) -> Option<Sides>
    requires row { IsTrendShare row.now }
    requires base_in { unsigned_abs base_sum ≤ sum_limit }
    requires now_in { unsigned_abs now_sum ≤ sum_limit }
    ensures value { result ≡ sides_of base_sum now_sum row.entry.now }
    ensures small { IfSome result AreSides }
{
    if is_undefined(*row, base_sum) {
        return None;
    }
    let sides = bounds(*row, base_sum, now_sum);
    if are_beyond(sides) {
        return None;
    }
    Some(sides)
}

// Whether a sensitivity would be over zero.
fn is_undefined(row: TrendShare, base_sum: i128) -> bool
    requires row { IsTrendShare row }
    requires base_in { unsigned_abs base_sum ≤ sum_limit }
    ensures { result ≡ is_undefined base_sum row }
{
    size(base_sum) == 0 || raised(row, base_sum) == 0
}

// Whether a side is above the limit.
fn are_beyond(sides: Sides) -> bool
    ensures { result ≡ are_beyond sides }
{
    sides.k_high > MOST || sides.j_high > MOST
}

// The sides, whether they are above the limit or not.
fn bounds(row: TrendShare, base_sum: i128, now_sum: i128) -> Sides
    requires row { IsTrendShare row }
    requires base_in { unsigned_abs base_sum ≤ sum_limit }
    requires now_in { unsigned_abs now_sum ≤ sum_limit }
    requires defined { is_undefined base_sum row ≡ false }
    ensures value { result ≡ bounds_of base_sum now_sum row }
    ensures ordered { AreOrdered result }
{
    let size = size(base_sum);
    let change = change(row, base_sum, now_sum);
    let (k_low, k_high) = ends(100 * change, size * raised(row, base_sum), row.factor);
    let (j_low, j_high) = ends(row.now.unsigned_abs(), size, row.activity);
    Sides {
        k_low,
        k_high,
        j_low,
        j_high,
    }
}

// The sensitivity n over d times a percentage in hundredths: in millionths, rounded down and rounded up.
fn ends(n: u128, d: u128, percentage: u32) -> (u128, u128)
    requires n_in { n ≤ 10 ^ 27 }
    requires d_in { d ≤ 10 ^ 27 }
    requires positive { 0 < d }
    requires percentage_in { percentage ≤ GREATEST_UNCERTAINTY }
    ensures low { result.0 ≡ millionths_down (product (over n d) (hundredths percentage)) }
    ensures high { result.1 ≡ millionths_up (product (over n d) (hundredths percentage)) }
    ensures ordered { result.0 ≤ result.1 }
{
    let numerator = n * u128::from(percentage) * MILLION;
    let denominator = d * 100;
    (numerator / denominator, numerator.div_ceil(denominator))
}

// The magnitude of the sum of the base year.
fn size(base_sum: i128) -> u128
    requires { unsigned_abs base_sum ≤ sum_limit }
    ensures value { result ≡ unsigned_abs base_sum }
    ensures small { result ≤ sum_limit }
{
    base_sum.unsigned_abs()
}

// A hundred times the sum of the base year where the line has one percent more.
fn raised(row: TrendShare, base_sum: i128) -> u128
    requires row { IsTrendShare row }
    requires base_in { unsigned_abs base_sum ≤ sum_limit }
    ensures value { result ≡ raised base_sum row }
    ensures small { result ≤ 101 * sum_limit }
{
    (100 * base_sum + row.base).unsigned_abs()
}

// How far the line's change is from its part in the change of the sum, times the sum of the base year.
fn change(row: TrendShare, base_sum: i128, now_sum: i128) -> u128
    requires row { IsTrendShare row }
    requires base_in { unsigned_abs base_sum ≤ sum_limit }
    requires now_in { unsigned_abs now_sum ≤ sum_limit }
    ensures value { result ≡ change base_sum now_sum row }
    ensures small { result ≤ 2 * amount_limit * sum_limit }
{
    distance(times(row.now, base_sum), times(row.base, now_sum))
}

fn times(tonnes: i128, sum: i128) -> i128
    requires tonnes_in { unsigned_abs tonnes ≤ amount_limit }
    requires sum_in { unsigned_abs sum ≤ sum_limit }
    ensures value { result ≡ tonnes *ℤ sum }
    ensures small { unsigned_abs result ≤ amount_limit * sum_limit }
{
    tonnes * sum
}

fn distance(own: i128, part: i128) -> u128
    requires own_small { unsigned_abs own ≤ amount_limit * sum_limit }
    requires part_small { unsigned_abs part ≤ amount_limit * sum_limit }
    ensures value { result ≡ unsigned_abs (own -ℤ part) }
    ensures small { result ≤ 2 * amount_limit * sum_limit }
{
    (own - part).unsigned_abs()
}
