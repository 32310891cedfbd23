//! Whole layers.

ghost use Rattle.std.specs.Prelude.{◌≡◌, ℕ, ◌+◌, ◌^◌, ◌<◌, ◌≤◌, IfOk};
ghost use Rattle.ghg_workers.specs.Slots.{AreFilled};

use crate::gate::Gate;
use crate::layer::Layer;
use crate::slots::lay;
use crate::worker::Task;
use crate::workers::{Workers, work_together};
use ghg_cell::{Board, take};
use ghg_steps::Steps;
use std::alloc::{AllocError, Global};
use std::sync::ledger::Ledger;
use std::thread::Threads;

/// What each node of a layer gives, for a step each. The workers claim the places one by one; there are no
/// more of them than places. `first` is the place of the layer's first node in the list of affected nodes.
/// If memory runs out for one of them, all end first, and the steps stay spent.
pub fn evaluate_layer<N: Layer, G: Gate, T: Threads + Sync, L: Ledger>(
    alloc: Global,
    workers: &Workers<'_, T, G>,
    layer: &N,
    first: u64,
    steps: &mut Steps<L>,
) -> Result<Vec<Option<N::Outcome>>, AllocError>
    requires workers { (1 ≤ workers.now.count) × (workers.now.count ≤ 64) }
    requires ready { N.ready layer.now }
    requires nodes { N.count layer.now ≤ 1000000000 }
    requires places { first + N.count layer.now < 2 ^ 64 }
    ensures slots { IfOk result (AreFilled (N.outcome layer.now) (N.count layer.now)) }
    ensures steps { steps.new ≡ steps.old + N.count layer.now }
{
    let count = layer.count();
    let permits = take(count as u64, steps);
    let (board, pass) = Board::new(alloc, permits)?;
    let task = Task {
        layer,
        gate: workers.gate,
        first,
        board: &board,
    };
    let (pass, entries) = work_together(
        workers.threads,
        alloc,
        &task,
        at_most(workers.count, count),
        pass,
    );
    let entries = entries?;
    board.close(pass);
    lay(alloc, layer, entries)
}

// So many workers, or as many as there are places, but one at least.
fn at_most(workers: u32, places: usize) -> u32
    requires { 1 ≤ workers }
    ensures { (1 ≤ result) × (result ≤ workers) }
{
    if places == 0 {
        1
    } else if places < workers as usize {
        places as u32
    } else {
        workers
    }
}
