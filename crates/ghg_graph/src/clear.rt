//! Lines that are on no ring, told by the numbers of their components.

ghost use Rattle.std.specs.Prelude.{◌≡◌, ◌<◌, IsTrue, length, nat_lt, slice_index_or};
ghost use Rattle.std.specs.List.{list_all};
ghost use Rattle.ghg_graph.specs.Falling.{IsFalling};
ghost use Rattle.ghg_graph.specs.Links.{targets_of};
ghost use Rattle.ghg_graph.specs.Stops.{AreClear};

use crate::components::at;
use crate::links::Links;

/// Marks the lines that depend only on lines of lesser numbers. It marks none where some line depends on one
/// of a greater number. Where none does, the numbers round a ring are all the same.
pub(crate) fn mark_clear(links: &Links, numbers: &[usize], marks: &mut Vec<bool>)
    requires { AreClear links.now marks.old.items }
    ensures { AreClear links.now marks.new.items }
{
    if !falls(links, numbers) {
        return;
    }
    for line in 0..links.len() {
        mark_line(links, numbers, marks, line);
    }
}

// Marks the line if it depends only on lines of lesser numbers.
fn mark_line(links: &Links, numbers: &[usize], marks: &mut Vec<bool>, line: usize)
    requires line { line < length links.now }
    requires falling { IsFalling links.now numbers.now }
    requires clear { AreClear links.now marks.old.items }
    ensures { AreClear links.now marks.new.items }
{
    if are_below(links, line, numbers, at(numbers, line)) {
        marks[line] = true;
    }
}

// Whether no line depends on one of a greater number.
fn falls(links: &Links, numbers: &[usize]) -> bool
    ensures { IsTrue result → IsFalling links.now numbers.now }
{
    for line in 0..links.len() {
        if !are_below(links, line, numbers, at(numbers, line).saturating_add(1)) {
            return false;
        }
    }
    true
}

// Whether the numbers of the lines that a line depends on are below a bound.
fn are_below(links: &Links, line: usize, numbers: &[usize], bound: usize) -> bool
    requires { line < length links.now }
    ensures { result ≡ list_all (λ t. nat_lt (slice_index_or numbers.now t 0) bound)
        (targets_of links.now line) }
{
    links
        .targets(line)
        .iter()
        .all(|target| at(numbers, *target) < bound)
}
