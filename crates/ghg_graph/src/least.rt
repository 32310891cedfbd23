//! The ring that begins with the least line on any.

ghost use Rattle.std.specs.Prelude.{IfOk};
ghost use Rattle.ghg_graph.specs.Links.{IsLeast};
ghost use Rattle.ghg_graph.specs.Stops.{IsMet};

use crate::clear::mark_clear;
use crate::components::component_numbers;
use crate::links::Links;
use crate::search::ring_through;
use crate::walk::Met;
use std::alloc::{AllocError, Global};

/// A ring that begins with the least line on any ring, given one that depth-first search found.
pub(crate) fn least_ring(
    alloc: Global,
    links: &Links,
    mut met: Met,
) -> Result<Vec<usize>, AllocError>
    requires { IsMet links.now met }
    ensures { IfOk result (λ ring. IsLeast links.now ring.items) }
{
    let numbers = component_numbers(alloc, links)?;
    mark_clear(links, &numbers, &mut met.placed);
    for line in 0..met.ring[0] {
        if let Some(ring) = ring_through(alloc, links, &met.placed, line)? {
            return Ok(ring);
        }
    }
    Ok(met.ring)
}
