//! Lines by numbers, which are their places in byte order.

ghost use Rattle.std.specs.Prelude.{◌≡◌, ◌<◌, ◌++◌, ◌∷◌, [], ℕ, List, length, map, option_copied, slice_index, IfOk, MatchOption};
ghost use Rattle.std.specs.List.Sorted.{IsStrictlySortedBy};
ghost use Rattle.ghg_definitions.specs.Listed.{IsListed};
ghost use Rattle.ghg_definitions.specs.Data.{Name, line, name_cmp};
ghost use Rattle.ghg_graph.specs.Numbers.{AreNumbers, IsNumbering, lines_taken, name_at, taken_in};

use crate::links::Links;
use ghg_data::{Records, params_of};
use ghg_equations::EqId;
use ghg_units::{Binding, Name};
use std::alloc::{AllocError, Global};
use std::slice;

/// The links of each of the lines to those among them that it takes: in the same year, or in the year before.
/// The lines stand in byte order.
pub fn links_of<R: Records>(
    alloc: Global,
    records: &R,
    before: bool,
    lines: &[Name],
) -> Result<Links, AllocError>
    requires { IsStrictlySortedBy name_cmp lines.now }
    ensures { IfOk result (λ links. IsNumbering before (R.content records.now) lines.now links) }
{
    let mut targets = Vec::new(alloc);
    for line in lines {
        targets.push(targets_of(alloc, records, before, lines, line)?)?;
    }
    Ok(Links::new(targets))
}

/// The equation of a line; `None` exactly where the line is not present.
pub fn equation_of<R: Records>(records: &R, name: &Name) -> Option<EqId>
    ensures { result ≡ line (R.content records.now) name.now }
{
    let (_, id) = records.line(name)?;
    Some(id)
}

// The numbers of the lines that a line takes.
fn targets_of<R: Records>(
    alloc: Global,
    records: &R,
    before: bool,
    lines: &[Name],
    line: &Name,
) -> Result<Vec<usize>, AllocError>
    requires { IsStrictlySortedBy name_cmp lines.now }
    ensures { IfOk result (λ targets. AreNumbers lines.now targets.items
        (lines_taken before (R.content records.now) line.now)) }
{
    let mut targets = Vec::new(alloc);
    let Some(id) = equation_of(records, line) else {
        return Ok(targets);
    };
    for param in params_of(id) {
        add_numbers(
            lines,
            taken_by(before, records.bound(line, param)),
            &mut targets,
        )?;
    }
    Ok(targets)
}

/// The lines whose values a binding takes: those of the same year, or those of the year before.
pub(crate) fn taken_by(before: bool, binding: Option<&Binding>) -> &[Name]
    ensures { result.now ≡ taken_in before (option_copied binding.entry) }
{
    match (before, binding) {
        (false, Some(Binding::Line(name))) => slice::from_ref(name),
        (false, Some(Binding::Sum(names))) => names.as_slice(),
        (true, Some(Binding::Prev(name))) => slice::from_ref(name),
        _ => &[],
    }
}

// Adds the numbers of the names that are among the lines, which stand in byte order.
fn add_numbers(lines: &[Name], names: &[Name], numbers: &mut Vec<usize>) -> Result<(), AllocError>
    requires { IsStrictlySortedBy name_cmp lines.now }
    ensures { IfOk result (λ _. (before : List Name) → AreNumbers lines.now numbers.old.items before
        → AreNumbers lines.now numbers.new.items (before ++ names.now)) }
{
    let mut next = 0;
    for name in names {
        next = add_number(lines, next, name, numbers)?;
    }
    Ok(())
}

// Adds the number of a name if it is among the lines. Returns the number to try first for the next name.
fn add_number(
    lines: &[Name],
    next: usize,
    name: &Name,
    numbers: &mut Vec<usize>,
) -> Result<usize, AllocError>
    requires { IsStrictlySortedBy name_cmp lines.now }
    ensures { IfOk result (λ _. (before : List Name) → AreNumbers lines.now numbers.old.items before
        → AreNumbers lines.now numbers.new.items (before ++ name.now ∷ [])) }
{
    match number_of(lines, next, name) {
        None => Ok(next),
        Some(number) => {
            numbers.push(number)?;
            Ok(number + 1)
        }
    }
}

/// The number of a name, `next` tried first: sums often name lines in their order.
pub fn number_of(lines: &[Name], next: usize, name: &Name) -> Option<usize>
    requires { IsStrictlySortedBy name_cmp lines.now }
    ensures { MatchOption result (¬ IsListed name.now lines.now)
        (λ number. (number < length lines.now) × (name_at lines.now number ≡ name.now)) }
{
    match lines.get(next) {
        Some(line) if line == name => Some(next),
        _ => lines.binary_search(name).ok(),
    }
}

/// The names of the lines with these numbers.
pub(crate) fn names_of(
    alloc: Global,
    lines: &[Name],
    numbers: &[usize],
) -> Result<Vec<Name>, AllocError>
    requires { (k : ℕ) → k < length numbers.now → slice_index numbers.now k < length lines.now }
    ensures { IfOk result (λ names. names.items ≡ map (name_at lines.now) numbers.now) }
{
    let mut names = Vec::with_capacity(alloc, numbers.len())?;
    for number in numbers {
        names.push(lines[*number])?;
    }
    Ok(names)
}
