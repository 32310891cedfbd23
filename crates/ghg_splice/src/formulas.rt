//! The formula of each technique.

ghost use Rattle.std.specs.Prelude.{◌≡◌, ◌<◌, ◌≤◌, length};
ghost use Rattle.ghg_units.specs.Year.{latest_year};
ghost use Rattle.ghg_splice.specs.Fills.{proportional};
ghost use Rattle.ghg_splice.specs.Formulas.{linear, overlap, ratio_sum, surrogate, with_ratio};
ghost use Rattle.ghg_splice.specs.Quantities.{quantities};

use crate::method::Method;
use crate::quantity::Quantity;

/// A year whose quantity is known.
#[derive(Clone, Copy, Drop)]
pub(crate) struct Known<T> {
    pub(crate) year: u32,
    pub(crate) y: T,
}

/// A year that has a quantity in both series.
#[derive(Clone, Copy, Drop)]
pub(crate) struct Base<T> {
    pub(crate) year: u32,
    pub(crate) y: T,
    pub(crate) x: T,
}

/// A year between two known ones: each of these counts by how near it is.
#[tactic(auto, unfolding(crate::specs::Formulas::linear))]
pub(crate) fn linear(
    before: &Known<Quantity>,
    year: u32,
    after: &Known<Quantity>,
) -> Option<Quantity>
    requires later { before.now.year < year }
    requires earlier { year < after.now.year }
    ensures { result ≡ linear quantities before.now year after.now }
{
    let first = before.y.times(after.year - year)?;
    let second = after.y.times(year - before.year)?;
    first.add(&second)?.over(after.year - before.year)
}

/// A year of the other series alone, by the years that have both.
pub(crate) fn proportional(
    method: Method,
    bases: &[Base<Quantity>],
    x: &Quantity,
) -> Option<Quantity>
    requires { length bases.now ≤ latest_year }
    ensures { result ≡ proportional quantities method bases.now x.now }
{
    match method {
        Method::Surrogate => surrogate(bases, x),
        _ => overlap(bases, x),
    }
}

// By the first year that has both.
#[tactic(auto, unfolding(crate::specs::Formulas::surrogate))]
fn surrogate(bases: &[Base<Quantity>], x: &Quantity) -> Option<Quantity>
    ensures { result ≡ surrogate quantities bases.now x.now }
{
    let base = bases.first()?;
    x.div(&base.x)?.mul(&base.y)
}

// By the mean ratio of the years that have both.
#[tactic(auto, unfolding(crate::specs::Formulas::overlap))]
fn overlap(bases: &[Base<Quantity>], x: &Quantity) -> Option<Quantity>
    requires { length bases.now ≤ latest_year }
    ensures { result ≡ overlap quantities bases.now x.now }
{
    let ratio = ratio_sum(bases)?.over(bases.len() as u32)?;
    x.mul(&ratio)
}

// The sum of the ratios, in the order of years.
#[tactic(auto, unfolding(crate::specs::Formulas::ratio_sum))]
fn ratio_sum(bases: &[Base<Quantity>]) -> Option<Quantity>
    ensures { result ≡ ratio_sum quantities bases.now }
{
    let [first, rest @ ..] = bases else {
        return None;
    };
    let mut sum = first.y.div(&first.x);
    for base in rest {
        sum = with_ratio(sum, base);
    }
    sum
}

// A sum of ratios, with that of one year more.
fn with_ratio(sum: Option<Quantity>, base: &Base<Quantity>) -> Option<Quantity>
    ensures { result ≡ with_ratio quantities sum base.now }
{
    let before = sum?;
    let ratio = base.y.div(&base.x)?;
    before.add(&ratio)
}
