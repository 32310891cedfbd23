//! The run of the submissions.

ghost use Rattle.std.specs.Prelude.{◌≡◌, ◌≤◌, ◌+◌, IfOk};
ghost use Rattle.ghg_office.specs.Office.{start};
ghost use Rattle.ghg_office.specs.Replays.{replay_evaluations};
ghost use Rattle.ghg_generator.specs.Summary.{submissions, summary};

use crate::bodies::{line_body, opening_body};
use crate::progress::Progress;
use ghg_steps::Steps;
use ghg_workers::{Gate, Workers};
use std::alloc::{AllocError, Global};
use std::hash::RandomState;
use std::sync::ledger::Ledger;
use std::thread::Threads;

/// The summary of a run in memory of the submissions that a seed and a number of lines decide.
///
/// No more nodes are evaluated than these submissions affect, each in its turn. The only error is that memory
/// ran out.
pub fn generate<G: Gate, T: Threads + Sync, L: Ledger>(
    alloc: Global,
    hasher: RandomState,
    workers: &Workers<'_, T, G>,
    seed: u32,
    lines: u32,
    steps: &mut Steps<L>,
) -> Result<Vec<u8>, AllocError>
    requires { (1 ≤ workers.now.count) × (workers.now.count ≤ 64) }
    ensures text { IfOk result (λ text. text.items ≡ summary seed lines) }
    ensures steps { steps.new ≤ steps.old + replay_evaluations start (submissions seed lines) }
{
    let mut progress = Progress::new(alloc, hasher);
    let opening = opening_body(alloc)?;
    progress.submit(alloc, workers, 0, &opening, steps)?;
    let mut number = seed;
    for done in 0..lines {
        let body = line_body(alloc, done + 1, &mut number)?;
        progress.submit(alloc, workers, done + 1, &body, steps)?;
    }
    progress.summary(alloc, seed, lines)
}
