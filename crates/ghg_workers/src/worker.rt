//! One worker.

ghost use Rattle.std.specs.Prelude.{◌≡◌, ◌+◌, ◌^◌, ◌<◌, [], IfOk};
ghost use Rattle.ghg_workers.specs.Entries.{IsWhole};

use crate::entry::Entry;
use crate::gate::Gate;
use crate::layer::Layer;
use ghg_cell::{Board, Pass};
use std::alloc::{AllocError, Global};

/// What the workers of a layer share: its nodes, who is told of them, the place of the first in the list of
/// affected nodes, and the board on which they are claimed.
#[derive(Drop)]
pub(crate) struct Task<'a, N, G> {
    pub(crate) layer: &'a N,
    pub(crate) gate: &'a G,
    pub(crate) first: u64,
    pub(crate) board: &'a Board,
}

/// Claims places and evaluates them until none is left, or memory runs out. The pass comes back either way.
pub(crate) fn work<N: Layer, G: Gate>(
    alloc: Global,
    task: &Task<'_, N, G>,
    mut pass: Pass,
) -> (Pass, Result<Vec<Entry<N::Outcome>>, AllocError>)
    requires board { (pass.board ≡ task.now.board.now) × (pass.board.places ≡ N.count task.now.layer.now) }
    requires pass { (pass.claimed ≡ []) × (pass.misses < pass.stake) }
    requires ready { N.ready task.now.layer.now }
    requires places { task.now.first + N.count task.now.layer.now < 2 ^ 64 }
    ensures pass { (result.0.board ≡ pass.board) × (result.0.stake ≡ pass.stake) }
    ensures entries { IfOk result.1 (λ entries.
        IsWhole (N.outcome task.now.layer.now) (N.count task.now.layer.now) entries.items result.0) }
{
    let mut reader = task.layer.reader(alloc);
    let mut entries = Vec::new(alloc);
    'claims: loop {
        if entries.reserve(1).is_err() {
            return (pass, Err(AllocError));
        }
        let Some((place, ticket)) = task.board.claim(&mut pass) else {
            break;
        };
        task.gate.at(task.first + place);
        let Ok(outcome) = task
            .layer
            .evaluate(alloc, &mut reader, ticket, place as usize)
        else {
            return (pass, Err(AllocError));
        };
        entries.push_reserved(Entry { place, outcome });
    }
    (pass, Ok(entries))
}
