//! Given lines by turns: each behind those that it takes.

ghost use Rattle.std.specs.Prelude.{◌≤◌, ℕ, IfOk};
ghost use Rattle.ghg_definitions.specs.Listed.{IsListed};
ghost use Rattle.std.specs.List.Sorted.{IsSorted};
ghost use Rattle.ghg_units.specs.declared.node.Node.{Node};
ghost use Rattle.ghg_units.specs.declared.node.Node.TheVariants as node;
ghost use Rattle.ghg_definitions.specs.Data.{Data, Name};
ghost use Rattle.ghg_definitions.specs.Nodes.{year_in};
ghost use Rattle.ghg_layers.specs.Lines.{AreLines};
ghost use Rattle.ghg_layers.specs.Turns.{AreTurns, turn_order};

use crate::lines::Lines;
use ghg_graph::number_of;
use ghg_units::Node;
use std::alloc::{AllocError, Global};

/// A given line in a year. Turns are ordered by year, and then by the line's place.
#[derive(Clone, Copy, PartialEq, Eq, PartialOrd, Ord, Drop)]
pub(crate) struct Turn {
    /// How many years behind the first year.
    pub year: usize,
    /// The line's place.
    pub place: usize,
    /// The line's number.
    pub number: usize,
}

/// The turns of the lines among the nodes, in order.
pub(crate) fn turns_of(
    alloc: Global,
    lines: &Lines,
    first: u32,
    nodes: &[Node],
) -> Result<Vec<Turn>, AllocError>
    requires years { (n : Node) → IsListed n nodes.now → first ≤ year_in n }
    requires lines { (m : Data) × AreLines m lines.now }
    requires all { (name : Name) (year : ℕ) → IsListed (node.Line name year) nodes.now →
        IsListed name lines.now.names.items }
    ensures turns { IfOk result (λ turns. AreTurns lines.now first nodes.now turns.items) }
    ensures sorted { IfOk result (λ turns. IsSorted turn_order turns.items) }
{
    let mut turns = Vec::new(alloc);
    let mut guess = 0;
    for node in nodes {
        if let Node::Line(name, year) = node {
            if let Some(number) = number_of(&lines.names, guess, name) {
                let offset = (year - first) as usize;
                let place = lines.places[number];
                turns.push(Turn {
                    year: offset,
                    place,
                    number,
                })?;
                guess = number;
            }
        }
    }
    turns.sort()?;
    Ok(turns)
}
