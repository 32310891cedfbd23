//! The strongly connected components of the links, found by one search in depth.

ghost use Rattle.std.specs.Prelude.{◌≡◌, slice_index_or};

use crate::links::Links;
use std::alloc::{AllocError, Global};

// How far the search has come. A line is open from when it is met until its component is known.
#[derive(Drop)]
struct Survey {
    // The lines that are gone through, each taken by the one before it.
    path: Vec<usize>,
    // For each line, how many of its targets were looked at.
    tried: Vec<usize>,
    // For each line its place in the order in which lines are met, from 1 on; 0 before it is met.
    places: Vec<usize>,
    // The lines that are open, in that order.
    open: Vec<usize>,
    // The places of those lines of the path of which each is the first of its component, as far as is known.
    firsts: Vec<usize>,
    // For each line the number of its component, from 1 on; 0 before it is known.
    numbers: Vec<usize>,
    // How many lines are met.
    met: usize,
    // How many components are known.
    known: usize,
}

/// For each line the number of its component. A component is numbered behind those that its lines lead to.
///
/// No contract says so: who uses the numbers tests them. The time is proportional to the links.
pub(crate) fn component_numbers(alloc: Global, links: &Links) -> Result<Vec<usize>, AllocError> {
    let count = links.len();
    let mut survey = Survey {
        path: Vec::new(alloc),
        tried: vec![in alloc; 0; count]?,
        places: vec![in alloc; 0; count]?,
        open: Vec::new(alloc),
        firsts: Vec::new(alloc),
        numbers: vec![in alloc; 0; count]?,
        met: 0,
        known: 0,
    };
    for line in 0..count {
        if at(&survey.places, line) == 0 {
            explore(links, &mut survey, line)?;
        }
    }
    Ok(survey.numbers)
}

// Goes through the lines that the start leads to, as far as they are not met yet.
fn explore(links: &Links, survey: &mut Survey, start: usize) -> Result<(), AllocError> {
    enter(survey, start)?;
    // Each step meets a line or leaves one.
    for _ in 0..links.len().saturating_mul(2) {
        let Some(line) = survey.path.pop() else {
            return Ok(());
        };
        match next_unmet(links, survey, line) {
            Some(target) => {
                survey.path.push(line)?;
                enter(survey, target)?;
            }
            None => leave(survey, line),
        }
    }
    Ok(())
}

// Puts a line on the path. It begins a component, as far as is known.
fn enter(survey: &mut Survey, line: usize) -> Result<(), AllocError> {
    survey.met = survey.met.saturating_add(1);
    put(&mut survey.places, line, survey.met);
    survey.path.push(line)?;
    survey.open.push(line)?;
    survey.firsts.push(survey.met)?;
    Ok(())
}

// The first target of the line that is not met. The open targets before it are of one component with the
// lines of the path behind them.
fn next_unmet(links: &Links, survey: &mut Survey, line: usize) -> Option<usize> {
    if line >= links.len() {
        return None;
    }
    let targets = links.targets(line);
    for next in at(&survey.tried, line)..targets.len() {
        let target = targets[next];
        let place = at(&survey.places, target);
        if place == 0 {
            put(&mut survey.tried, line, next);
            return Some(target);
        }
        if at(&survey.numbers, target) == 0 {
            join(&mut survey.firsts, place);
        }
    }
    put(&mut survey.tried, line, targets.len());
    None
}

// None of the lines behind this place is the first of its component.
fn join(firsts: &mut Vec<usize>, place: usize) {
    while !firsts.is_empty() && firsts[firsts.len() - 1] > place {
        firsts.pop();
    }
}

// Numbers the line's component, where the line is the first of it.
fn leave(survey: &mut Survey, line: usize) {
    if survey.firsts.last() != Some(&at(&survey.places, line)) {
        return;
    }
    survey.firsts.pop();
    survey.known = survey.known.saturating_add(1);
    while let Some(open) = survey.open.pop() {
        put(&mut survey.numbers, open, survey.known);
        if open == line {
            return;
        }
    }
}

/// The number at a place; 0 where there is none.
pub(crate) fn at(numbers: &[usize], place: usize) -> usize
    ensures { result ≡ slice_index_or numbers.now place 0 }
{
    match numbers.get(place) {
        Some(number) => *number,
        None => 0,
    }
}

// Writes a number at a place, where there is one.
fn put(numbers: &mut [usize], place: usize, number: usize) {
    if place < numbers.len() {
        numbers[place] = number;
    }
}
