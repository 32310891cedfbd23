//! The nodes that edits affect.

ghost use Rattle.std.specs.Prelude.{◌≡◌, ℕ, true, IfOk};
ghost use Rattle.ghg_units.specs.Year.{is_year};
ghost use Rattle.ghg_data.specs.Changes.{applied};
ghost use Rattle.ghg_data.specs.Shelf.{IsPlanned};
ghost use Rattle.ghg_data.specs.YearSet.{has_year};
ghost use Rattle.ghg_definitions.specs.Compilation.{is_year_of};
ghost use Rattle.ghg_search.specs.Found.{ListsAffected};
ghost use Rattle.ghg_search.specs.Index.{DifferAt, HasUsers};

use crate::found::Found;
use crate::index::Index;
use crate::years::{years_between, years_without};
use ghg_data::{Book, Edits, Records, YearSet, after};
use ghg_definitions::RecordKey;
use ghg_graph::moved_totals;
use ghg_units::{Node, Span};
use std::alloc::{AllocError, Global};

/// The nodes that edits affect, each once and in their order: those that are new or changed, and all that
/// these lead to. `index` is one of the workbook once the edits are made.
///
/// The cost is in proportion to the edited keys times the years in which they are in force, the lines that
/// name what is edited, the affected nodes, and the lines that name an affected line; where years are new, to
/// all lines in them.
pub fn affected(
    alloc: Global,
    book: &Book,
    edits: &Edits,
    index: &Index,
) -> Result<Vec<Node>, AllocError>
    requires planned { IsPlanned book.now edits.now }
    requires index { HasUsers (applied book.now.content edits.now) index.now }
    ensures { IfOk result (λ nodes. ListsAffected book.now.content
        (applied book.now.content edits.now) nodes.items) }
{
    affected_nodes(alloc, book, &after(book, edits), edits.keys(), index)
}

fn affected_nodes<R: Records, S: Records>(
    alloc: Global,
    old: &R,
    new: &S,
    keys: &[RecordKey],
    index: &Index,
) -> Result<Vec<Node>, AllocError>
    requires kept { DifferAt keys.now (R.content old.now) (S.content new.now) }
    requires index { HasUsers (S.content new.now) index.now }
    ensures { IfOk result (λ nodes. ListsAffected (R.content old.now) (S.content new.now) nodes.items) }
{
    let Some(span) = new.span() else {
        return Ok(Vec::new(alloc));
    };
    let all = years_of(Some(span));
    let fresh = years_without(&all, &years_of(old.span()));
    let kept = years_without(&all, &fresh);
    let moved = moved_totals(alloc, old, new, keys)?;
    let mut found = Found::new(alloc);
    found.put_years(alloc, new, &fresh)?;
    found.try_keys(alloc, old, new, keys, index, &kept)?;
    found.put_moved(old, new, &moved, &kept)?;
    found.spread(new, index, span)?;
    let nodes = found.nodes(alloc)?;
    Ok(nodes)
}

// The years of a span.
fn years_of(span: Option<Span>) -> YearSet
    ensures only { (year : ℕ) → has_year result year ≡ true →
        (is_year year ≡ true) × (is_year_of span year ≡ true) }
    ensures all { (year : ℕ) → is_year year ≡ true → is_year_of span year ≡ true →
        has_year result year ≡ true }
{
    match span {
        Some(span) => years_between(span.first, span.last.saturating_add(1)),
        None => YearSet::empty(),
    }
}
