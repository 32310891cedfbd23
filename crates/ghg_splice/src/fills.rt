//! The years that a technique fills.

ghost use Rattle.std.specs.Prelude.{◌≡◌, ◌++◌, ◌≤◌, IfOk, OnOk, length, filter_map, find};
ghost use Rattle.ghg_interval.specs.Operations.{holds_zero};
ghost use Rattle.ghg_units.specs.Year.{latest_year};
ghost use Rattle.ghg_splice.specs.Fills.{base_fault, base_in, bases_of, fault_of, fill_from_x, fills_in, fills_of, gap, gaps, known_in, known_of, proportional, unless};
ghost use Rattle.ghg_splice.specs.declared.method.Method.TheVariants as methods;
ghost use Rattle.ghg_splice.specs.Quantities.{quantities};
ghost use Rattle.ghg_splice.specs.Refusals.{Gives};

use crate::formulas::{Base, Known, linear, proportional};
use crate::method::Method;
use crate::quantity::Quantity;
use crate::refusal::{SpliceRefusal, Stop};
use crate::series::Row;
use std::alloc::{AllocError, Global};

/// A year to fill, and what the formula gives; nothing where that is beyond the limit of intervals.
#[derive(Clone, Copy, Drop)]
pub(crate) struct Fill<T> {
    pub(crate) year: u32,
    pub(crate) value: Option<T>,
}

/// The years to fill, in their order, or why there is nothing to fill them from.
#[tactic(auto, unfolding(crate::specs::Fills::fills_in))]
pub(crate) fn fills(
    alloc: Global,
    method: Method,
    rows: &[Row<Quantity>],
) -> Result<Vec<Fill<Quantity>>, Stop>
    requires { length rows.now ≤ latest_year }
    ensures { Gives (λ fills. fills.items) result (fills_in method rows.now) }
{
    match method {
        Method::Linear => interpolated(alloc, rows),
        Method::Surrogate => by_bases(alloc, method, rows),
        Method::Overlap => by_bases(alloc, method, rows),
    }
}

// The years between known ones, of which there must be two.
fn interpolated(alloc: Global, rows: &[Row<Quantity>]) -> Result<Vec<Fill<Quantity>>, Stop>
    ensures { Gives (λ fills. fills.items) result
        (unless (base_fault methods.Linear rows.now) (fills_of quantities methods.Linear rows.now)) }
{
    let known = known_of(alloc, rows)?;
    if known.len() < 2 {
        return Err(Stop::Refusal(SpliceRefusal::NoBase));
    }
    let fills = between_known(alloc, &known)?;
    Ok(fills)
}

// The years of the other series alone, by the bases of a technique.
fn by_bases(
    alloc: Global,
    method: Method,
    rows: &[Row<Quantity>],
) -> Result<Vec<Fill<Quantity>>, Stop>
    requires { length rows.now ≤ latest_year }
    ensures { Gives (λ fills. fills.items) result (unless (fault_of (bases_of method rows.now))
        (filter_map (fill_from_x (proportional quantities method (bases_of method rows.now))) rows.now)) }
{
    let bases = bases_of(alloc, method, rows)?;
    check_bases(&bases)?;
    let fills = fills_from_x(alloc, method, &bases, rows)?;
    Ok(fills)
}

// The years between known ones.
fn between_known(
    alloc: Global,
    known: &[Known<Quantity>],
) -> Result<Vec<Fill<Quantity>>, AllocError>
    ensures { IfOk result (λ fills. fills.items ≡ gaps quantities known.now) }
{
    let mut fills = Vec::new(alloc);
    for at in 1..known.len() {
        append_gap(&mut fills, &known[at - 1], &known[at])?;
    }
    Ok(fills)
}

// The years that are known.
fn known_of(alloc: Global, rows: &[Row<Quantity>]) -> Result<Vec<Known<Quantity>>, AllocError>
    ensures { IfOk result (λ known. known.items ≡ known_of rows.now) }
{
    rows.iter().filter_map(|row| known_in(row)).collect(alloc)
}

// The year of a row, where it is known.
fn known_in(row: &Row<Quantity>) -> Option<Known<Quantity>>
    ensures { result ≡ known_in row.now }
{
    let y = row.y?;
    Some(Known { year: row.year, y })
}

// The years between two known neighbours.
fn append_gap(
    fills: &mut Vec<Fill<Quantity>>,
    before: &Known<Quantity>,
    after: &Known<Quantity>,
) -> Result<(), AllocError>
    ensures { OnOk result (fills.new.items ≡ fills.old.items ++ gap quantities before.now after.now) }
{
    for step in 1..after.year.saturating_sub(before.year) {
        let year = before.year + step;
        let value = linear(before, year, after);
        fills.push(Fill { year, value })?;
    }
    Ok(())
}

// Whether there are bases, none of which divides by zero.
fn check_bases(bases: &[Base<Quantity>]) -> Result<(), SpliceRefusal>
    ensures { result ≡ unless (fault_of bases.now) tt }
{
    if bases.is_empty() {
        return Err(SpliceRefusal::NoBase);
    }
    match first_zero(bases) {
        Some(base) => Err(SpliceRefusal::ZeroRange(base.year)),
        None => Ok(()),
    }
}

// The first base whose range holds zero.
fn first_zero(bases: &[Base<Quantity>]) -> Option<Base<Quantity>>
    ensures { result ≡ find (λ base. holds_zero base.x.range) bases.now }
{
    bases.iter().copied().find(|base| holds_zero(&base.x))
}

// The years of the other series alone.
fn fills_from_x(
    alloc: Global,
    method: Method,
    bases: &[Base<Quantity>],
    rows: &[Row<Quantity>],
) -> Result<Vec<Fill<Quantity>>, AllocError>
    requires { length bases.now ≤ latest_year }
    ensures { IfOk result (λ fills.
        fills.items ≡ filter_map (fill_from_x (proportional quantities method bases.now)) rows.now) }
{
    rows.iter()
        .filter_map(|row| fill_from_x(method, bases, row))
        .collect(alloc)
}

// The year of a row that has the other series alone.
fn fill_from_x(
    method: Method,
    bases: &[Base<Quantity>],
    row: &Row<Quantity>,
) -> Option<Fill<Quantity>>
    requires { length bases.now ≤ latest_year }
    ensures { result ≡ fill_from_x (proportional quantities method bases.now) row.now }
{
    if row.y.is_some() {
        return None;
    }
    let x = row.x?;
    let value = proportional(method, bases, &x);
    Some(Fill {
        year: row.year,
        value,
    })
}

// The years that have both series; of surrogate data the first alone.
fn bases_of(
    alloc: Global,
    method: Method,
    rows: &[Row<Quantity>],
) -> Result<Vec<Base<Quantity>>, AllocError>
    ensures { IfOk result (λ bases. bases.items ≡ bases_of method rows.now) }
{
    let mut bases = all_bases(alloc, rows)?;
    if method == Method::Surrogate {
        bases.truncate(1);
    }
    Ok(bases)
}

// The years that have both series.
fn all_bases(alloc: Global, rows: &[Row<Quantity>]) -> Result<Vec<Base<Quantity>>, AllocError>
    ensures { IfOk result (λ bases. bases.items ≡ filter_map base_in rows.now) }
{
    rows.iter().filter_map(|row| base_in(row)).collect(alloc)
}

// The year of a row that has both series.
fn base_in(row: &Row<Quantity>) -> Option<Base<Quantity>>
    ensures { result ≡ base_in row.now }
{
    let y = row.y?;
    let x = row.x?;
    Some(Base {
        year: row.year,
        y,
        x,
    })
}

// Whether the range holds zero.
fn holds_zero(x: &Quantity) -> bool
    ensures { result ≡ holds_zero x.now.range }
{
    x.range.lo() <= 0 && 0 <= x.range.hi()
}
