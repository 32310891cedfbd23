//! Nodes by layers.

ghost use Rattle.std.specs.Prelude.{IfOk};
ghost use Rattle.std.specs.List.Sorted.{IsStrictlySortedBy};
ghost use Rattle.ghg_definitions.specs.Nodes.{node_cmp};
ghost use Rattle.ghg_definitions.specs.Rings.{IsAcyclic};
ghost use Rattle.ghg_layers.specs.Layers.{AreDistinctNodes, AreLayers};

use crate::buckets::{Layers, by_rank, joined};
use crate::ranks::ranks_of;
use ghg_data::Records;
use ghg_units::Node;
use std::alloc::{AllocError, Global};

/// Nodes of a workbook without a ring by layers, so that the nodes of a layer take none of each other. A node
/// stands in the first layer if none of its inputs is given, and otherwise in the layer just after the last
/// that holds a given input of it. Within a layer the nodes stand in node order. Lines that have no given
/// node are not gone over.
pub fn layers<R: Records>(
    alloc: Global,
    records: &R,
    nodes: Vec<Node>,
) -> Result<Layers, AllocError>
    requires nodes { AreDistinctNodes (R.content records.now) nodes.items }
    requires order { IsStrictlySortedBy node_cmp nodes.items }
    requires acyclic { IsAcyclic (R.content records.now) }
    ensures { IfOk result (AreLayers (R.content records.now) nodes.items) }
{
    let ranks = ranks_of(alloc, records, &nodes)?;
    let buckets = by_rank(alloc, &ranks, &nodes)?;
    drop(nodes);
    joined(alloc, &buckets)
}
