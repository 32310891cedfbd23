//! Key categories: the pairs of category and gas that make up 95 percent of a year's emissions and removals,
//! or of the trend since the base year.
//!
//! Source: 2006 IPCC Guidelines, Volume 1, Chapter 4, Approach 1. The assessments are exact: a pair's share
//! is its size over a denominator that all pairs have in common.
#![tactic(auto)]

mod laws;
mod ranking;
mod sizes;

ghost use Rattle.std.specs.Prelude.{◌≤◌, IfOk};
ghost use Rattle.std.specs.List.{sum_by};
ghost use Rattle.ghg_keycat.specs.Ranking.{AreDistinct, IsRanking};
ghost use Rattle.ghg_keycat.specs.Sizes.{IsTrend, gross, gross_limit, level_size};

use ghg_categories::Category;
use ghg_equations::Gas;
pub use laws::{ascending_pairs_are_distinct, assessments_are_small, rankings_are_in_order};
use std::alloc::{AllocError, Global};

/// What a category emits of a gas, less what it removes, in tonnes of CO2 equivalent.
///
/// Pairs are ordered by the bytes of their category's code, and then by their gas.
#[derive(Clone, Copy, Debug, PartialEq, Eq, PartialOrd, Ord, Drop)]
pub struct Pair {
    pub category: Category,
    pub gas: Gas,
    /// In the base year, or in another year that it is compared with.
    pub base: i128,
    /// In the year that is assessed.
    pub now: i128,
}

/// A pair with its assessment.
#[derive(Clone, Copy, Debug, PartialEq, Eq, Drop)]
pub struct KeyRow {
    pub pair: Pair,
    /// What the pair is ranked by: the numerator of its share.
    pub size: u128,
    /// The sum of the sizes of all pairs before it.
    pub before: u128,
    /// The sum of all sizes.
    pub total: u128,
    /// Whether the pairs before it make up less than 95 percent of the total.
    pub key: bool,
}

/// The trend assessment.
#[derive(Debug, Drop)]
pub enum TrendRows {
    /// A pair's share is its size over the denominator.
    Rows {
        rows: Vec<KeyRow>,
        denominator: u128,
    },
    /// The base year's amounts sum to zero, so that there is no relative change of the sum.
    Undefined,
}

/// The level assessment (Equation 4.1): all pairs by descending magnitude. Pairs of one magnitude are in the
/// order of pairs.
pub fn level(alloc: Global, rows: &[Pair]) -> Result<Vec<KeyRow>, AllocError>
    requires distinct { AreDistinct rows.now }
    requires small { sum_by gross rows.now ≤ gross_limit }
    ensures { IfOk result (λ keys. IsRanking level_size rows.now keys.items) }
{
    let ranked = sizes::ranked_by_level(alloc, rows)?;
    ranking::keyed(alloc, ranked)
}

/// The trend assessment (Equations 4.2 and 4.3): all pairs by descending part in the trend since the base
/// year.
pub fn trend(alloc: Global, rows: &[Pair]) -> Result<TrendRows, AllocError>
    requires distinct { AreDistinct rows.now }
    requires small { sum_by gross rows.now ≤ gross_limit }
    ensures { IfOk result (λ trend. IsTrend rows.now trend) }
{
    let base = sizes::sum_of_base(rows);
    let current = sizes::sum_of_now(rows);
    if base == 0 {
        return Ok(TrendRows::Undefined);
    }
    let ranked = sizes::ranked_by_trend(alloc, rows, base, current)?;
    let keys = ranking::keyed(alloc, ranked)?;
    Ok(TrendRows::Rows {
        rows: keys,
        denominator: sizes::size_of_base(rows) * base.unsigned_abs(),
    })
}
