//! The office that a run begins with.

ghost use Rattle.std.specs.Prelude.{◌≡◌, ◌≤◌, IfOk, IsErrOf, None};
ghost use Rattle.ghg_run.specs.Opening.{IsKeptIn, Opens, ReportsMade, kept_line};
ghost use Rattle.ghg_office.specs.Laws.{IsInForce};
ghost use Rattle.ghg_outer.specs.Counts.{IsCounted};

use ghg_keeper::{KeepError, Keeper};
use ghg_office::{Office, OpenFault, Reply, append_reply};
use ghg_outer::Sink;
use ghg_session::{Environment, report};
use ghg_steps::Steps;
use ghg_words::{Status, StoreName};
use ghg_workers::Gate;
use std::alloc::{AllocError, Global};
use std::hash::RandomState;
use std::sync::ledger::Ledger;
use std::thread::Threads;

/// Opens the office that a run begins with: a new one, or that of the store of this name, whose rows are
/// replayed. A store that gives an office, or of which a row is refused, is the one in use then.
///
/// Where there is no office, the error is the status that the program ends with.
pub fn open_office<W: Sink, K: Keeper, G: Gate, T: Threads + Sync, L: Ledger>(
    hasher: RandomState,
    environment: &Environment<'_, T, G>,
    store: &Option<StoreName<'_>>,
    out: &mut W,
    keeper: &mut K,
    steps: &mut Steps<L>,
) -> Result<Office, Status>
    requires { (1 ≤ environment.now.workers.count) × (environment.now.workers.count ≤ 64) }
    ensures opened { Opens store.now (K.shelf keeper.old) (K.shelf keeper.new)
        (W.tape out.old) (W.tape out.new) steps.old steps.new result }
    ensures output { IsCounted (W.tape out.old).faults (W.tape out.new).faults
        (IsErrOf result Status.OutputFailed) }
    ensures counted { IsCounted (K.shelf keeper.old).faults (K.shelf keeper.new).faults
        (IsErrOf result Status.StoreFailed) }
    ensures in_force { IfOk result IsInForce }
    ensures kept { IfOk result (λ office. IsKeptIn store.now (K.shelf keeper.new) office.accepted) }
    ensures unkept { store.now ≡ None → keeper.new ≡ keeper.old }
{
    let Environment { alloc, workers, .. } = environment;
    let Some(name) = store else {
        return Ok(Office::new(*alloc, hasher));
    };
    match keeper.attach(name.as_str()) {
        Ok(()) => {}
        Err(KeepError::Failed) => return Err(Status::StoreFailed),
        Err(KeepError::Memory) => return Err(Status::OutOfMemory),
    }
    match Office::reopen(
        workers.threads,
        *alloc,
        hasher,
        keeper,
        workers.count,
        workers.gate,
        steps,
    ) {
        Ok(office) => Ok(office),
        Err(OpenFault::Kept { seq, reply }) => Err(refuse_row(*alloc, out, seq, &reply)),
        Err(OpenFault::KeeperFault) => Err(Status::StoreFailed),
        Err(OpenFault::Memory) => Err(Status::OutOfMemory),
    }
}

// Reports the kept row of this number as refused, with the reply to it.
fn refuse_row<W: Sink>(alloc: Global, out: &mut W, seq: u64, reply: &Reply) -> Status
    ensures reported { ReportsMade (W.tape out.old) (W.tape out.new) (kept_line seq reply.now)
        Status.RowRefused result }
    ensures counted { IsCounted (W.tape out.old).faults (W.tape out.new).faults
        (result ≡ Status.OutputFailed) }
{
    let Ok(line) = kept_line(alloc, seq, reply) else {
        return Status::OutOfMemory;
    };
    report(out, &line, Status::RowRefused)
}

// The line that names the kept row that is refused.
fn kept_line(alloc: Global, seq: u64, reply: &Reply) -> Result<Vec<u8>, AllocError>
    ensures { IfOk result (λ line. line.items ≡ kept_line seq reply.now) }
{
    let mut line = format!(in alloc; "kept row {seq} ")?.into_bytes();
    append_reply(&mut line, reply)?;
    line.push(b'\n')?;
    Ok(line)
}
