//! What the office answers to the requests of a script.

ghost use Rattle.std.specs.Prelude.{◌≡◌, ◌≤◌, ◌+◌, true, false, IfErr, IfOk, IsErrOf, OnErr, OnOk};
ghost use Rattle.ghg_office.specs.Keeping.{KeepsAccepted, Lists};
ghost use Rattle.ghg_office.specs.Requests.{seen};
ghost use Rattle.ghg_outer.specs.Counts.{IsCounted};
ghost use Rattle.ghg_session.specs.Replies.{asked_of, office_step};
ghost use Rattle.ghg_session.specs.Session.{MayLeaveUndone, bytes_of};

use crate::environment::Environment;
use crate::reply::{Lines, one_line, table_lines};
use ghg_keeper::Keeper;
use ghg_office::{Office, Request as Asked};
use ghg_script::{Request, TableQuery};
use ghg_steps::Steps;
use ghg_words::Status;
use ghg_workers::Gate;
use std::sync::ledger::Ledger;
use std::thread::Threads;

/// The lines that reply to a request. It is left undone for want of memory only where it takes memory, and
/// for a fault of the keeper only where it is to be kept.
#[tactic(auto, unfolding(crate::specs::Replies::office_step))]
pub(crate) fn answer<K: Keeper, G: Gate, T: Threads + Sync, L: Ledger>(
    environment: &Environment<'_, T, G>,
    office: &mut Office,
    request: &Request<TableQuery>,
    keeper: &mut K,
    steps: &mut Steps<L>,
) -> Result<Lines, Status>
    requires workers { (1 ≤ environment.now.workers.count) × (environment.now.workers.count ≤ 64) }
    requires same { environment.now.stored ≡ true → Lists (K.shelf keeper.old) office.old.accepted }
    ensures lines { IfOk result
        (λ lines. bytes_of lines ≡ (office_step environment.now.stored office.old request.now).reply) }
    ensures after { OnOk result
        (office.new ≡ (office_step environment.now.stored office.old request.now).after) }
    ensures undone { OnErr result (office.new ≡ office.old) }
    ensures cause { IfErr result
        (MayLeaveUndone (office_step environment.now.stored office.old request.now)) }
    ensures steps { steps.new
        ≤ steps.old + (office_step environment.now.stored office.old request.now).steps }
    // The keeper's rows are the accepted submissions, and it is called only for a request to be kept.
    ensures kept { environment.now.stored ≡ true
        → KeepsAccepted (K.shelf keeper.old) (K.shelf keeper.new) office.new.accepted }
    ensures repeats { (office_step environment.now.stored office.old request.now).is_kept ≡ false
        → keeper.new ≡ keeper.old }
    ensures counted { IsCounted (K.shelf keeper.old).faults (K.shelf keeper.new).faults
        (IsErrOf result Status.StoreFailed) }
{
    let Environment {
        alloc,
        workers,
        stored,
    } = environment;
    let reply = office.answer(*alloc, workers, &asked_of(request), keeper, *stored, steps);
    match request {
        Request::Submit { .. } => one_line(*alloc, &reply),
        Request::Query(show) => table_lines(*alloc, show.table.as_slice(), show.year, reply),
    }
}

// What a script asks of the office.
fn asked_of(request: &Request<TableQuery>) -> Asked<&[u8]>
    ensures { seen result ≡ asked_of request.now }
{
    match request {
        Request::Submit { id, body } => Asked::Submit {
            id: id.as_slice(),
            body: body.as_slice(),
        },
        Request::Query(show) => Asked::Show {
            table: show.table.as_slice(),
            year: show.year,
        },
    }
}
