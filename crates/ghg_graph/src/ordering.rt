//! The order of a workbook's lines.

ghost use Rattle.std.specs.Prelude.{◌≡◌, length, IfOk, MatchResult};
ghost use Rattle.ghg_definitions.specs.Rings.{IsAcyclic};
ghost use Rattle.ghg_graph.specs.Links.{IsLeast, IsOrder};
ghost use Rattle.ghg_graph.specs.Numbers.{AreNamesOf};
ghost use Rattle.ghg_graph.specs.Ordering.{IsLineOrder};
ghost use Rattle.ghg_graph.specs.Refusal.{IfRing, IsLeastRingOf};

use crate::least::least_ring;
use crate::links::Links;
use crate::numbers::{links_of, names_of};
use crate::rings::{CycleRefusal, Ring};
use crate::walk::{Stop, order};
use ghg_data::Records;
use ghg_units::Name;
use std::alloc::{AllocError, Global};

/// Returns the lines of a workbook, each after those that it depends on in the same year. Where there is no
/// such order, returns a ring that begins with the least line on any.
pub fn line_order<R: Records>(alloc: Global, records: &R) -> Result<Vec<Name>, CycleRefusal>
    ensures { MatchResult result (λ names. IsLineOrder (R.content records.now) names.items)
        (IfRing (IsLeastRingOf (R.content records.now))) }
{
    let lines = records.lines(alloc)?;
    let links = links_of(alloc, records, false, &lines)?;
    named_order(alloc, &lines, &links)
}

/// Returns the lines, each after those among them that it depends on. Where there is no such order,
/// returns a ring that begins with the least line on any.
pub(crate) fn named_order(
    alloc: Global,
    lines: &[Name],
    links: &Links,
) -> Result<Vec<Name>, CycleRefusal>
    requires { length links.now ≡ length lines.now }
    ensures { MatchResult result
        (λ names. AreNamesOf lines.now (IsOrder links.now) names.items)
        (IfRing (AreNamesOf lines.now (IsLeast links.now))) }
{
    match order(alloc, links) {
        Ok(order) => Ok(names_of(alloc, lines, &order)?),
        Err(Stop::Ring(met)) => {
            let ring = least_ring(alloc, links, met)?;
            Err(CycleRefusal::Ring(Ring::new(names_of(alloc, lines, &ring)?)))
        }
        Err(Stop::Memory) => Err(CycleRefusal::Memory),
    }
}

/// Checks that no lines of a workbook form a ring; otherwise returns a ring that begins with the least line
/// on any.
pub fn check_acyclic<R: Records>(alloc: Global, records: &R) -> Result<(), CycleRefusal>
    ensures { MatchResult result (λ _. IsAcyclic (R.content records.now))
        (IfRing (IsLeastRingOf (R.content records.now))) }
{
    line_order(alloc, records)?;
    Ok(())
}
