//! The lines of nodes by numbers, and places of them by which each stands behind those that it takes.

ghost use Rattle.std.specs.Prelude.{◌≡◌, ℕ, List, filter_map, IfOk};
ghost use Rattle.std.specs.List.Sorted.{IsStrictlySortedBy};
ghost use Rattle.ghg_units.specs.declared.node.Node.TheVariants as node;
ghost use Rattle.ghg_definitions.specs.Data.{Name, name_cmp};
ghost use Rattle.ghg_definitions.specs.Listed.{IsListed};
ghost use Rattle.ghg_definitions.specs.Nodes.{node_cmp};
ghost use Rattle.ghg_definitions.specs.Rings.{IsAcyclic, IsRing};
ghost use Rattle.ghg_graph.specs.Links.{IsLink, IsOrder};
ghost use Rattle.ghg_layers.specs.Lines.{AreLines, ArePlaces, line_in};

use ghg_data::Records;
use ghg_graph::{Links, Stop, links_of, order};
use ghg_units::{Name, Node};
use std::alloc::{AllocError, Global};

/// Lines by numbers: their places in byte order.
#[derive(Drop)]
pub(crate) struct Lines {
    pub names: Vec<Name>,
    /// For each line those of them that it takes in the same year.
    pub links: Links,
    /// For each line those of them that it takes in the year before.
    pub previous: Links,
    /// For each line its place in an order in which it stands behind those that it takes in the same year.
    pub places: Vec<usize>,
}

/// The lines whose values are among the nodes.
pub(crate) fn lines_of<R: Records>(
    alloc: Global,
    records: &R,
    nodes: &[Node],
) -> Result<Lines, AllocError>
    requires acyclic { IsAcyclic (R.content records.now) }
    requires order { IsStrictlySortedBy node_cmp nodes.now }
    ensures lines { IfOk result (AreLines (R.content records.now)) }
    ensures all { IfOk result (λ lines. (name : Name) (year : ℕ) → IsListed (node.Line name year) nodes.now →
        IsListed name lines.names.items) }
{
    let names = line_names(alloc, nodes)?;
    let links = links_of(alloc, records, false, &names)?;
    let previous = links_of(alloc, records, true, &names)?;
    let places = places_of(alloc, &links)?;
    Ok(Lines {
        names,
        links,
        previous,
        places,
    })
}

fn line_names(alloc: Global, nodes: &[Node]) -> Result<Vec<Name>, AllocError>
    requires { IsStrictlySortedBy node_cmp nodes.now }
    ensures order { IfOk result (λ names. IsStrictlySortedBy name_cmp names.items) }
    ensures all { IfOk result (λ names. (name : Name) (year : ℕ) → IsListed (node.Line name year) nodes.now →
        IsListed name names.items) }
{
    let mut names = all_names(alloc, nodes)?;
    names.dedup();
    Ok(names)
}

// The line of each value of a line.
fn all_names(alloc: Global, nodes: &[Node]) -> Result<Vec<Name>, AllocError>
    ensures { IfOk result (λ names. names.items ≡ filter_map line_in nodes.now) }
{
    nodes.iter().filter_map(|node| line_in(node)).collect(alloc)
}

fn line_in(node: &Node) -> Option<Name>
    ensures { result ≡ line_in node.now }
{
    match node {
        Node::Line(name, _) => Some(*name),
        _ => None,
    }
}

// ---- places

fn places_of(alloc: Global, links: &Links) -> Result<Vec<usize>, AllocError>
    requires { (ring : List ℕ) → IsRing (IsLink links.now) ring → ⊥ }
    ensures { IfOk result (λ places. ArePlaces links.now places.items) }
{
    let order = order_of(alloc, links)?;
    let mut places = vec![in alloc; 0; links.len()]?;
    for (place, number) in order.iter().enumerate() {
        places[*number] = place;
    }
    Ok(places)
}

// The lines, each behind those that it takes, where no line is on a ring.
fn order_of(alloc: Global, links: &Links) -> Result<Vec<usize>, AllocError>
    requires { (ring : List ℕ) → IsRing (IsLink links.now) ring → ⊥ }
    ensures { IfOk result (λ order. IsOrder links.now order.items) }
{
    match order(alloc, links) {
        Ok(order) => Ok(order),
        Err(Stop::Memory) => Err(AllocError),
        Err(Stop::Ring(_)) => unreachable!(),
    }
}
