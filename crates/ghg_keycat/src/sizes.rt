//! What pairs are ranked by.

ghost use Rattle.std.specs.Prelude.{◌≡◌, ◌+◌, ◌*◌, ◌≤◌, ◌*ℤ◌, pos, unsigned_abs, IfOk};
ghost use Rattle.std.specs.List.{sum_by};
ghost use Rattle.ghg_keycat.specs.Entries.{IsRanked};
ghost use Rattle.ghg_keycat.specs.Sizes.{base_size, base_sum, gross, gross_limit, level_size, now_sum, trend_size};

use crate::Pair;
use crate::ranking::Ranked;
use std::alloc::{AllocError, Global};
use std::cmp::Reverse;

/// Each pair with its magnitude.
pub(crate) fn ranked_by_level(alloc: Global, rows: &[Pair]) -> Result<Vec<Ranked>, AllocError>
    ensures { IfOk result (λ ranked. IsRanked level_size rows.now ranked.items) }
{
    let mut ranked = Vec::with_capacity(alloc, rows.len())?;
    for pair in rows {
        ranked.push(Ranked {
            size: Reverse(pair.now.unsigned_abs()),
            pair: *pair,
        })?;
    }
    Ok(ranked)
}

/// Each pair with what it adds to the trend, for the sums of both years.
pub(crate) fn ranked_by_trend(
    alloc: Global,
    rows: &[Pair],
    base: i128,
    current: i128,
) -> Result<Vec<Ranked>, AllocError>
    requires small { sum_by gross rows.now ≤ gross_limit }
    requires base_small { unsigned_abs base ≤ gross_limit }
    requires current_small { unsigned_abs current ≤ gross_limit }
    ensures { IfOk result (λ ranked. IsRanked (trend_size base current) rows.now ranked.items) }
{
    let mut ranked = Vec::with_capacity(alloc, rows.len())?;
    for pair in rows {
        ranked.push(Ranked {
            size: Reverse(distance(*pair, base, current)),
            pair: *pair,
        })?;
    }
    Ok(ranked)
}

// How far a pair's change is from its part in the change of the sum.
fn distance(pair: Pair, base: i128, current: i128) -> u128
    requires pair_small { gross pair ≤ gross_limit }
    requires base_small { unsigned_abs base ≤ gross_limit }
    requires current_small { unsigned_abs current ≤ gross_limit }
    ensures { result ≡ trend_size base current pair }
{
    let own = times(pair.now - pair.base, base.unsigned_abs());
    let part = times(current - base, pair.base.unsigned_abs());
    (own - part).unsigned_abs()
}

fn times(x: i128, size: u128) -> i128
    requires x_small { unsigned_abs x ≤ 2 * gross_limit }
    requires size_small { size ≤ gross_limit }
    ensures value { result ≡ x *ℤ pos size }
    ensures small { unsigned_abs result ≤ 2 * gross_limit * gross_limit }
{
    x * size as i128
}

/// The sum of the base year's amounts.
pub(crate) fn sum_of_base(rows: &[Pair]) -> i128
    requires { sum_by gross rows.now ≤ gross_limit }
    ensures value { result ≡ base_sum rows.now }
    ensures small { unsigned_abs result ≤ gross_limit }
{
    let mut sum: i128 = 0;
    for pair in rows {
        sum += pair.base;
    }
    sum
}

/// The sum of the amounts of the year that is assessed.
pub(crate) fn sum_of_now(rows: &[Pair]) -> i128
    requires { sum_by gross rows.now ≤ gross_limit }
    ensures value { result ≡ now_sum rows.now }
    ensures small { unsigned_abs result ≤ gross_limit }
{
    let mut sum: i128 = 0;
    for pair in rows {
        sum += pair.now;
    }
    sum
}

/// The sum of the base year's magnitudes.
pub(crate) fn size_of_base(rows: &[Pair]) -> u128
    requires { sum_by gross rows.now ≤ gross_limit }
    ensures value { result ≡ base_size rows.now }
    ensures small { result ≤ gross_limit }
{
    let mut sum: u128 = 0;
    for pair in rows {
        sum += pair.base.unsigned_abs();
    }
    sum
}
