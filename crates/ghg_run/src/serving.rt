//! Connections, one after the other.

ghost use Rattle.std.specs.Prelude.{◌≡◌, ◌≤◌, true, false};
ghost use Rattle.std.specs.Option.{is_some};
ghost use Rattle.ghg_run.specs.Serve.{Serves, office_at, register_of};
ghost use Rattle.ghg_office.specs.Keeping.{KeepsAccepted, Lists};
ghost use Rattle.ghg_office.specs.Laws.{IsInForce};
ghost use Rattle.ghg_office.specs.Office.{State};
ghost use Rattle.ghg_outer.specs.Counts.{IsCounted};

use ghg_http::{routes, serve_one};
use ghg_keeper::Keeper;
use ghg_office::Office;
use ghg_outer::{Door, Failed};
use ghg_session::Environment;
use ghg_steps::Steps;
use ghg_words::{Service, Status};
use ghg_workers::Gate;
use std::alloc::AllocError;
use std::sync::ledger::Ledger;
use std::thread::Threads;

/// Opens the port, and serves as many connections as are asked for, by an office whose data are in force.
/// However a connection ends, the next one is served.
///
/// The result is the status that the program ends with.
pub fn serve_office<K: Keeper, D: Door, G: Gate, T: Threads + Sync, L: Ledger>(
    environment: &Environment<'_, T, G>,
    service: &Service<'_>,
    mut office: Office,
    keeper: &mut K,
    door: &mut D,
    steps: &mut Steps<L>,
) -> Status
    requires workers { (1 ≤ environment.now.workers.count) × (environment.now.workers.count ≤ 64) }
    requires some { 1 ≤ service.now.connections }
    requires in_force { IsInForce office }
    requires store { environment.now.stored ≡ is_some service.now.settings.store }
    requires same { environment.now.stored ≡ true → Lists (K.shelf keeper.old) office.accepted }
    ensures links { (last : State)
        × Serves service.now (office_at office steps.old (K.shelf keeper.old).faults)
        (office_at last steps.new (K.shelf keeper.new).faults)
        (register_of D.Link.Told.tape (D.register door.old))
        (register_of D.Link.Told.tape (D.register door.new)) result
        × (environment.now.stored ≡ true
        → KeepsAccepted (K.shelf keeper.old) (K.shelf keeper.new) last.accepted) }
    ensures unkept { environment.now.stored ≡ false → keeper.new ≡ keeper.old }
    ensures counted { IsCounted (D.register door.old).faults (D.register door.new).faults
        (result ≡ Status.DoorFailed) }
{
    let Environment {
        alloc,
        workers,
        stored,
    } = environment;
    let Ok(router) = routes(*alloc) else {
        return Status::OutOfMemory;
    };
    if let Err(Failed) = door.listen(service.port) {
        return Status::DoorFailed;
    }
    'links: for _served in 0..service.connections {
        let Ok(mut link) = door.next() else {
            return Status::DoorFailed;
        };
        serve_one(
            workers.threads,
            *alloc,
            &router,
            &mut link,
            &mut office,
            workers.count,
            workers.gate,
            keeper,
            *stored,
            steps,
        );
        if let Err(AllocError) = door.finish(link) {
            return Status::OutOfMemory;
        }
    }
    Status::Done
}
