//! Sets of years.

ghost use Rattle.std.specs.Prelude.{◌≡◌, ℕ, ◌+◌, ◌<◌, ◌≤◌, true, not, ◌&&◌, Some};
ghost use Rattle.ghg_units.specs.WellFormed.{IsSpan};
ghost use Rattle.ghg_units.specs.Year.{is_year};
ghost use Rattle.ghg_data.specs.YearSet.{has_year};
ghost use Rattle.ghg_definitions.specs.Compilation.{is_year_of};
ghost use Rattle.ghg_search.specs.Years.{AreBetween};

use ghg_data::YearSet;
use ghg_units::{EARLIEST_YEAR, Span};

/// The years from one on that are before another, of those that a record may be of.
pub(crate) fn years_between(first: u32, end: u32) -> YearSet
    ensures { AreBetween first end result }
{
    let mut years = YearSet::empty();
    for year in first..end {
        years = years.with(year, true);
    }
    years
}

/// Those of some years that are not among others.
pub(crate) fn years_without(years: &YearSet, others: &YearSet) -> YearSet
    ensures { (year : ℕ) → has_year result year ≡ has_year years.now year && not (has_year others.now year) }
{
    years.changed(&YearSet::empty(), others)
}

/// Those of some years that are not before another.
pub(crate) fn years_from(years: &YearSet, start: u32) -> YearSet
    ensures only { (year : ℕ) → has_year result year ≡ true → has_year years.now year ≡ true }
    ensures all { (year : ℕ) → has_year years.now year ≡ true → start ≤ year → has_year result year ≡ true }
{
    years_without(years, &years_between(EARLIEST_YEAR, start))
}

/// One year alone, if it is among some years.
pub(crate) fn years_at(years: &YearSet, year: u32) -> YearSet
    ensures only { (y : ℕ) → has_year result y ≡ true → has_year years.now y ≡ true }
    ensures all { is_year year ≡ true → has_year years.now year ≡ true → has_year result year ≡ true }
{
    years_without(
        years,
        &years_without(years, &YearSet::empty().with(year, true)),
    )
}

/// Some years where a condition holds, and else none.
pub(crate) fn years_if(condition: bool, years: &YearSet) -> YearSet
    ensures { (year : ℕ) → has_year result year ≡ condition && has_year years.now year }
{
    if condition { *years } else { YearSet::empty() }
}

/// The year after each of some years of a span, if it is one of the span too.
pub(crate) fn next_years(years: &YearSet, span: Span) -> YearSet
    requires { IsSpan span }
    ensures only { (year : ℕ) → has_year result year ≡ true →
        (before : ℕ) × (has_year years.now before ≡ true) × (year ≡ before + 1) × (before < span.last) }
    ensures all { (year : ℕ) → is_year_of (Some span) year ≡ true → has_year years.now year ≡ true →
        year < span.last → has_year result (year + 1) ≡ true }
{
    let mut next = YearSet::empty();
    let mut last = 0;
    while let Some(year) = years.first_after(last) {
        if year >= span.last {
            return next;
        }
        next = next.with(year + 1, true);
        last = year;
    }
    next
}
