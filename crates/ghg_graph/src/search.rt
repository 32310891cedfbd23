//! Breadth-first search for a ring through one line.

ghost use Rattle.std.specs.Prelude.{◌≡◌, ◌<◌, false, length, slice_index_or, IfOk, MatchBool, MatchOption};
ghost use Rattle.ghg_graph.specs.Links.{IsOnNoRing, IsRingFrom};
ghost use Rattle.ghg_graph.specs.Stops.{AreClear};
ghost use Rattle.ghg_graph.specs.Trails.{IsBegun, IsClosed, IsLed, IsNoted, IsOver, IsSearch, IsWay};

use crate::links::Links;
use std::alloc::{AllocError, Global};

// The lines found, the place of the line that led to each, and a mark for each line that is found or on no
// ring.
#[derive(Drop)]
struct Search {
    lines: Vec<usize>,
    led_by: Vec<usize>,
    marks: Vec<bool>,
}

/// A ring that begins with the line; `None` where the line is on none. Passes over the marked lines.
pub(crate) fn ring_through(
    alloc: Global,
    links: &Links,
    clear: &[bool],
    start: usize,
) -> Result<Option<Vec<usize>>, AllocError>
    requires start { start < length links.now }
    requires clear { AreClear links.now clear.now }
    ensures { IfOk result (λ found. MatchOption found (IsOnNoRing links.now start)
        (λ ring. IsRingFrom links.now start ring.items)) }
{
    if clear[start] {
        return Ok(None);
    }
    let mut search = opened(alloc, clear, start)?;
    let mut head = 0;
    while head < search.lines.len() {
        if look(links, &mut search, head, start)? {
            return Ok(Some(way(alloc, &search.lines, &search.led_by, head)?));
        }
        head += 1;
    }
    Ok(None)
}

fn opened(alloc: Global, clear: &[bool], start: usize) -> Result<Search, AllocError>
    ensures { IfOk result (IsBegun clear.now start) }
{
    Ok(Search {
        lines: vec![in alloc; start]?,
        led_by: vec![in alloc; 0]?,
        marks: Vec::from_slice(alloc, clear)?,
    })
}

// Looks at the targets of the line at the head. Returns whether one is the start.
fn look(links: &Links, search: &mut Search, head: usize, start: usize) -> Result<bool, AllocError>
    requires search { IsSearch links.now start search.old head }
    requires head { head < length search.old.lines.items }
    ensures { IfOk result (λ closes. MatchBool closes (IsClosed links.now start search.new head)
        (IsOver links.now start search.old search.new head)) }
{
    let line = search.lines[head];
    for target in links.targets(line) {
        if *target == start {
            return Ok(true);
        }
        note(search, *target, head)?;
    }
    Ok(false)
}

// Notes a line as found from the one at a place if it is new.
fn note(search: &mut Search, line: usize, from: usize) -> Result<(), AllocError>
    requires { line < length search.old.marks.items }
    ensures { IfOk result (λ _. IsNoted
        (slice_index_or search.old.marks.items line false) line from search.old search.new) }
{
    if search.marks[line] {
        return Ok(());
    }
    search.lines.push(line)?;
    search.led_by.push(from)?;
    search.marks[line] = true;
    Ok(())
}

// The way along which the line at a place was found.
fn way(
    alloc: Global,
    lines: &[usize],
    led_by: &[usize],
    end: usize,
) -> Result<Vec<usize>, AllocError>
    requires led { IsLed lines.now led_by.now }
    requires end { end < length lines.now }
    ensures { IfOk result (λ way. IsWay lines.now led_by.now end way.items) }
{
    let mut place = end;
    let mut way = vec![in alloc; lines[place]]?;
    while place != 0 {
        place = led_by[place];
        way.push(lines[place])?;
    }
    way.reverse();
    Ok(way)
}
