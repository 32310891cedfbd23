//! Several workers.

ghost use Rattle.std.specs.Thread.{IsSync};
ghost use Rattle.std.specs.Prelude.{◌≡◌, ◌+◌, ◌-◌, ◌^◌, ◌<◌, ◌≤◌, ◌++◌, [], IfOk, IsOkAnd};
ghost use Rattle.ghg_workers.specs.Entries.{IsWhole};

use crate::entry::Entry;
use crate::gate::Gate;
use crate::layer::Layer;
use crate::worker::{Task, work};
use ghg_cell::Pass;
use std::alloc::{AllocError, Global};
use std::thread::{Threads, join};

/// Who evaluates: the threads' handle, how many workers there are, from 1 to 64, and who is told of each
/// evaluation.
#[derive(Drop)]
pub struct Workers<'a, T, G> {
    /// The handle by which threads are made.
    pub threads: &'a T,
    /// How many workers a layer has at most.
    pub count: u32,
    /// Who is told of each evaluation.
    pub gate: &'a G,
}

/// What `work` does, by several workers who claim on one board.
pub(crate) fn work_together<N: Layer, G: Gate, T: Threads + Sync>(
    threads: &T,
    alloc: Global,
    task: &Task<'_, N, G>,
    count: u32,
    mut pass: Pass,
) -> (Pass, Result<Vec<Entry<N::Outcome>>, AllocError>)
    requires board { (pass.board ≡ task.now.board.now) × (pass.board.places ≡ N.count task.now.layer.now) }
    requires pass { (pass.claimed ≡ []) × (pass.misses + count ≤ pass.stake) }
    requires count { 1 ≤ count }
    requires ready { N.ready task.now.layer.now }
    requires places { task.now.first + N.count task.now.layer.now < 2 ^ 64 }
    ensures pass { (result.0.board ≡ pass.board) × (result.0.stake ≡ pass.stake) }
    ensures entries { IfOk result.1 (λ entries.
        IsWhole (N.outcome task.now.layer.now) (N.count task.now.layer.now) entries.items result.0) }
{
    if count == 1 {
        return work(alloc, task, pass);
    }
    let new = task.board.split(&mut pass);
    let ((other, theirs), (mut pass, mine)) = join(
        threads,
        move || -> (Pass, Result<Vec<Entry<N::Outcome>>, AllocError>)
            requires shared { IsSync N.row × IsSync G.row }
            requires board { (new.board ≡ task.now.board.now)
                × (new.board.places ≡ N.count task.now.layer.now) }
            requires pass { (new.claimed ≡ []) × (new.misses < new.stake) }
            requires ready { N.ready task.now.layer.now }
            requires places { task.now.first + N.count task.now.layer.now < 2 ^ 64 }
            ensures pass { (result.0.board ≡ new.board) × (result.0.stake ≡ new.stake) }
            ensures entries { IfOk result.1 (λ entries. IsWhole (N.outcome task.entry.now.layer.now)
                (N.count task.entry.now.layer.now) entries.items result.0) }
        { work(alloc, task, new) },
        move || -> (Pass, Result<Vec<Entry<N::Outcome>>, AllocError>)
            requires shared { IsSync N.row × IsSync T.row × IsSync G.row }
            requires board { (pass.board ≡ task.now.board.now)
                × (pass.board.places ≡ N.count task.now.layer.now) }
            requires pass { (pass.claimed ≡ []) × (pass.misses + (count - 1) ≤ pass.stake) }
            requires count { 2 ≤ count }
            requires ready { N.ready task.now.layer.now }
            requires places { task.now.first + N.count task.now.layer.now < 2 ^ 64 }
            ensures pass { (result.0.board ≡ pass.board) × (result.0.stake ≡ pass.stake) }
            ensures entries { IfOk result.1 (λ entries. IsWhole (N.outcome task.entry.now.layer.now)
                (N.count task.entry.now.layer.now) entries.items result.0) }
        { work_together(threads, alloc, task, count - 1, pass) },
    );
    task.board.join(&mut pass, other);
    (pass, both(mine, theirs))
}

// The second list after the first.
fn both<O: Drop>(
    mine: Result<Vec<Entry<O>>, AllocError>,
    theirs: Result<Vec<Entry<O>>, AllocError>,
) -> Result<Vec<Entry<O>>, AllocError>
    ensures { IfOk result (λ all. IsOkAnd mine (λ a. IsOkAnd theirs (λ b. all.items ≡ a.items ++ b.items))) }
{
    let mut all = mine?;
    let mut after = theirs?;
    all.append(&mut after)?;
    Ok(all)
}
