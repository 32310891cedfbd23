//! Whether lines and equivalents are changed by edits.

ghost use Rattle.std.specs.Prelude.{◌≡◌, ℕ, ◌&&◌, not, option_copied};
ghost use Rattle.ghg_units.specs.declared.node.Node.TheVariants as node;
ghost use Rattle.ghg_affected.specs.Affected.{is_changed};
ghost use Rattle.ghg_affected.specs.Equalities.{same_input, same_operand};
ghost use Rattle.ghg_data.specs.YearSet.{has_year};
ghost use Rattle.ghg_search.specs.Changed.{given_by, had_equation};
ghost use Rattle.ghg_search.specs.Search.{AreKept};
ghost use Rattle.ghg_search.specs.Years.{AreYears};

use crate::years::years_without;
use ghg_cell::Input;
use ghg_data::{Records, YearSet, params_of};
use ghg_equations::EqId;
use ghg_graph::{bound_operand, differ, equation_of, first_year, line_gas};
use ghg_units::{Binding, Name};

/// Those of some years in which a line is changed: it has another equation, or what it takes differs.
pub(crate) fn changed_lines<R: Records, S: Records>(
    old: &R,
    new: &S,
    name: &Name,
    years: &YearSet,
) -> YearSet
    requires { AreKept (R.content old.now) (S.content new.now) years.now }
    ensures { (year : ℕ) → has_year result year ≡ has_year years.now year &&
        is_changed (R.content old.now) (S.content new.now) (node.Line name.now year) }
{
    let Some(id) = equation_of(new, name) else {
        return YearSet::empty();
    };
    if !had_equation(old, name, id) {
        return *years;
    }
    let mut same = *years;
    for param in params_of(id) {
        let was = old.bound(name, param);
        let is = new.bound(name, param);
        same = same_years(old, new, was, is, &same);
    }
    years_without(years, &same)
}

/// Those of some years in which a line's equivalent is changed: its warming potential differs, or is new.
pub(crate) fn changed_equivalents<R: Records, S: Records>(
    old: &R,
    new: &S,
    name: &Name,
    years: &YearSet,
) -> YearSet
    requires { AreKept (R.content old.now) (S.content new.now) years.now }
    ensures { (year : ℕ) → has_year result year ≡ has_year years.now year &&
        is_changed (R.content old.now) (S.content new.now) (node.Equiv name.now year) }
{
    let Some(gas) = line_gas(new, name) else {
        return YearSet::empty();
    };
    let Some(before) = line_gas(old, name) else {
        return *years;
    };
    let was = Name::potential(before);
    let is = Name::potential(gas);
    let mut changed = YearSet::empty();
    let mut last = 0;
    while let Some(year) = years.first_after(last) {
        let differs = inputs_differ(old.factor(&was, year), new.factor(&is, year));
        changed = changed.with(year, differs);
        last = year;
    }
    changed
}

// Whether a line had an equation.
fn had_equation<R: Records>(old: &R, name: &Name, id: EqId) -> bool
    ensures { result ≡ had_equation (R.content old.now) name.now id }
{
    match equation_of(old, name) {
        Some(before) => before == id,
        None => false,
    }
}

// Those of some years in which a binding gives what another one gave.
fn same_years<R: Records, S: Records>(
    old: &R,
    new: &S,
    was: Option<&Binding>,
    is: Option<&Binding>,
    years: &YearSet,
) -> YearSet
    requires { AreYears years.now }
    ensures { (year : ℕ) → has_year result year ≡ has_year years.now year &&
        same_operand (given_by (R.content old.now) year (option_copied was.entry))
        (given_by (S.content new.now) year (option_copied is.entry)) }
{
    let before = first_year(old);
    let first = first_year(new);
    let mut same = YearSet::empty();
    let mut last = 0;
    while let Some(year) = years.first_after(last) {
        let gave = bound_operand(old, before, was, year);
        let gives = bound_operand(new, first, is, year);
        same = same.with(year, !differ(&gave, &gives));
        last = year;
    }
    same
}

fn inputs_differ(old: Input, new: Input) -> bool
    ensures { result ≡ not (same_input old new) }
{
    old != new
}
