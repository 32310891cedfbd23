//! Depth-first search over the lines: it orders them, or finds a ring.

ghost use Rattle.std.specs.Prelude.{◌≡◌, ◌<◌, ◌≤◌, ℕ, [], ◌∷◌, ◌++◌, ◌==◌, length, position, reverse, IfOk, MatchOption, MatchResult, slice_index};
ghost use Rattle.std.specs.List.{Contains};
ghost use Rattle.ghg_graph.specs.Links.{IsLink, IsOrder, targets_of};
ghost use Rattle.ghg_graph.specs.Stops.{IfMet, IsMet};
ghost use Rattle.ghg_graph.specs.Walks.{IsFirstUnmarked, IsMarked, IsOpened, IsPartFrom, IsPut, IsStarted, IsTried, IsTurned, IsUnmarked, IsVisited, IsWalk};

use crate::links::Links;
use std::alloc::{AllocError, Global};

/// A ring that was found, and for each line whether it was placed by then. Such a line is on no ring.
#[derive(Drop)]
pub struct Met {
    pub ring: Vec<usize>,
    pub placed: Vec<bool>,
}

/// Why lines were not placed.
#[derive(Drop)]
pub enum Stop {
    /// A ring was found.
    Ring(Met),
    /// Out of memory.
    Memory,
}

impl From<AllocError> for Stop {
    ghost use Rattle.std.specs.Prelude.{◌≡◌};
    ghost use Rattle.ghg_graph.specs.declared.walk.Stop.TheVariants.{Memory};

    ghost from_gives = { λ _ r. r ≡ Memory };

    fn from(_error: AllocError) -> Stop {
        Stop::Memory
    }
}

// The state of the search.
#[derive(Drop)]
struct Walk {
    // The lines that are placed.
    order: Vec<usize>,
    // The lines that are being searched. Each depends on the next.
    path: Vec<usize>,
    // For each line, how many of its first targets are known to be placed.
    tried: Vec<usize>,
    // The lines that are or were on the path.
    opened: Vec<bool>,
    placed: Vec<bool>,
}

/// The lines, each after those that it depends on, or a ring.
pub fn order(alloc: Global, links: &Links) -> Result<Vec<usize>, Stop>
    ensures { MatchResult result (λ order. IsOrder links.now order.items) (IfMet (IsMet links.now)) }
{
    let mut walk = started(alloc, links.len())?;
    for line in 0..links.len() {
        visit(alloc, links, &mut walk, line)?;
    }
    Ok(walk.order)
}

fn started(alloc: Global, count: usize) -> Result<Walk, AllocError>
    ensures { IfOk result (IsStarted count) }
{
    Ok(Walk {
        order: Vec::new(alloc),
        path: Vec::new(alloc),
        tried: vec![in alloc; 0; count]?,
        opened: vec![in alloc; false; count]?,
        placed: vec![in alloc; false; count]?,
    })
}

// Places the line, and before it all that it depends on.
fn visit(alloc: Global, links: &Links, walk: &mut Walk, start: usize) -> Result<(), Stop>
    requires walk { IsWalk links.now walk.old (reverse walk.old.path.items) }
    requires path { walk.old.path.items ≡ [] }
    requires start { start < length links.now }
    ensures { MatchResult result (λ _. IsVisited links.now start walk.old walk.new)
        (IfMet (IsMet links.now)) }
{
    if walk.opened[start] {
        return Ok(());
    }
    open(walk, start)?;
    while let Some(line) = walk.path.pop() {
        turn(alloc, links, walk, line)?;
    }
    Ok(())
}

// Goes on from the line, which was the last of the path, to a target that is not placed. Places the line if
// all are.
fn turn(alloc: Global, links: &Links, walk: &mut Walk, line: usize) -> Result<(), Stop>
    requires { IsWalk links.now walk.old (line ∷ reverse walk.old.path.items) }
    ensures { MatchResult result (λ _. IsTurned links.now walk.old walk.new) (IfMet (IsMet links.now)) }
{
    match next_target(links, walk, line) {
        None => Ok(put(walk, line)?),
        Some(target) => {
            append(&mut walk.path, line)?;
            if walk.opened[target] {
                let ring = part_from(alloc, &walk.path, target)?;
                let placed = Vec::from_slice(alloc, &walk.placed)?;
                return Err(Stop::Ring(Met { ring, placed }));
            }
            Ok(open(walk, target)?)
        }
    }
}

// The first target of the line that is not placed.
fn next_target(links: &Links, walk: &mut Walk, line: usize) -> Option<usize>
    requires { IsWalk links.now walk.old (line ∷ reverse walk.old.path.items) }
    ensures walk { IsWalk links.now walk.new (line ∷ reverse walk.old.path.items) }
    ensures tried { IsTried walk.old walk.new }
    ensures target { MatchOption result
        ((target : ℕ) → IsLink links.now line target → IsMarked walk.old.placed.items target)
        (λ target. (target < length links.now) × IsLink links.now line target
        × IsUnmarked walk.old.placed.items target) }
{
    let targets = links.targets(line);
    match first_unplaced(&walk.placed, targets, walk.tried[line]) {
        None => None,
        Some(next) => {
            walk.tried[line] = next;
            Some(targets[next])
        }
    }
}

// The index of the first target that is not placed, from one index on.
fn first_unplaced(placed: &[bool], targets: &[usize], from: usize) -> Option<usize>
    requires { (k : ℕ) → k < length targets.now → slice_index targets.now k < length placed.now }
    ensures { MatchOption result
        ((k : ℕ) → from ≤ k → k < length targets.now → IsMarked placed.now (slice_index targets.now k))
        (λ next. IsFirstUnmarked placed.now targets.now from next) }
{
    for next in from..targets.len() {
        if !placed[targets[next]] {
            return Some(next);
        }
    }
    None
}

fn append(lines: &mut Vec<usize>, line: usize) -> Result<(), AllocError>
    ensures { IfOk result (λ _. lines.new.items ≡ lines.old.items ++ line ∷ []) }
{
    lines.push(line)?;
    Ok(())
}

// Puts a line on the path.
fn open(walk: &mut Walk, line: usize) -> Result<(), AllocError>
    requires { line < length walk.old.opened.items }
    ensures { IfOk result (λ _. IsOpened line walk.old walk.new) }
{
    walk.path.push(line)?;
    walk.opened[line] = true;
    Ok(())
}

// Places a line.
fn put(walk: &mut Walk, line: usize) -> Result<(), AllocError>
    requires { line < length walk.old.placed.items }
    ensures { IfOk result (λ _. IsPut line walk.old walk.new) }
{
    walk.order.push(line)?;
    walk.placed[line] = true;
    Ok(())
}

// The part of the lines from this one on.
fn part_from(alloc: Global, lines: &[usize], line: usize) -> Result<Vec<usize>, AllocError>
    requires { Contains lines.now line }
    ensures { IfOk result (λ part. IsPartFrom line lines.now part.items) }
{
    let place = place_of(lines, line).unwrap();
    Vec::from_slice(alloc, &lines[place..])
}

fn place_of(lines: &[usize], line: usize) -> Option<usize>
    ensures { result ≡ position (λ other. other == line) lines.now }
{
    lines.iter().position(|other| *other == line)
}
