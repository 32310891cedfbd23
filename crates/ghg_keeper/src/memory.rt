// The form in memory whose calls fail by a list.
ghost use Rattle.std.specs.Prelude.{◌≡◌, ◌-◌, ◌≤◌, length, slice_get, Some, None, IsTrue, IfOk, IfErr, OnOk, OnErr};
ghost use Rattle.ghg_outer.specs.Plans.{planned};
ghost use Rattle.ghg_keeper.specs.Id.{is_id};
ghost use Rattle.ghg_keeper.specs.Forms.{FollowsPlan, planned_shelf};
ghost use Rattle.ghg_keeper.specs.Shelf.{Adds, CountsFaults, Keeps, KeepsRows};

use crate::{KeepError, Keeper, KeptRow, SteadyKeeper};
use ghg_outer::FaultPlan;
use std::alloc::Global;
use std::marker::Model;

/// Rows in memory, in one store under any name. A call answers `Failed` exactly where its number is listed.
#[derive(Drop)]
pub struct MemoryKeeper {
    inner: SteadyKeeper,
    plan: FaultPlan,
}

impl Model for MemoryKeeper {
    ghost use Rattle.ghg_keeper.specs.Forms.{PlannedKeeper};

    ghost Value = { PlannedKeeper };

    ghost view = { λ k. record { stored = k.inner; plan = k.plan } };
}

impl MemoryKeeper {
    /// A keeper with these rows, and the numbers of the calls that are to fail.
    pub fn new(alloc: Global, rows: Vec<KeptRow>, failing: Vec<u64>) -> MemoryKeeper
        ensures stored { result.stored ≡ record { rows = rows.items; name = None } }
        ensures plan { result.plan ≡ planned failing.items }
    {
        MemoryKeeper {
            inner: SteadyKeeper::with_rows(alloc, rows),
            plan: FaultPlan::new(failing),
        }
    }
}

impl Keeper for MemoryKeeper {
    ghost shelf = { planned_shelf };

    fn attach(&mut self, name: &str) -> Result<(), KeepError>
        ensures rows { KeepsRows (planned_shelf self.old) (planned_shelf self.new) }
        ensures ok { OnOk result (self.new.stored.name ≡ Some name.now) }
        ensures err { OnErr result (self.new.stored.name ≡ self.old.stored.name) }
        ensures faults { CountsFaults (planned_shelf self.old) (planned_shelf self.new) result }
        ensures plan { FollowsPlan self.old.plan self.new.plan result }
    {
        if self.plan.next_call() {
            return Err(KeepError::Failed);
        }
        Ok(self.inner.set_name(name)?)
    }

    fn count(&mut self) -> Result<u64, KeepError>
        ensures count { IfOk result (λ n. n ≡ length self.old.stored.rows) }
        // It takes no memory.
        ensures failed { IfErr result (λ error. error ≡ KeepError.Failed) }
        ensures keeps { Keeps (planned_shelf self.old) (planned_shelf self.new) }
        ensures faults { CountsFaults (planned_shelf self.old) (planned_shelf self.new) result }
        ensures plan { FollowsPlan self.old.plan self.new.plan result }
    {
        if self.plan.next_call() {
            return Err(KeepError::Failed);
        }
        Ok(self.inner.len())
    }

    fn row(&mut self, seq: u64) -> Result<KeptRow, KeepError>
        requires counted { 1 ≤ seq }
        requires present { seq ≤ length self.old.stored.rows }
        ensures row { IfOk result (λ row. slice_get self.old.stored.rows (seq - 1) ≡ Some row) }
        ensures keeps { Keeps (planned_shelf self.old) (planned_shelf self.new) }
        ensures faults { CountsFaults (planned_shelf self.old) (planned_shelf self.new) result }
        ensures plan { FollowsPlan self.old.plan self.new.plan result }
    {
        if self.plan.next_call() {
            return Err(KeepError::Failed);
        }
        Ok(self.inner.copied_row(seq)?)
    }

    fn append(&mut self, id: &[u8], body: &[u8]) -> Result<u64, KeepError>
        requires { IsTrue (is_id id.now) }
        ensures ok { OnOk result (Adds (planned_shelf self.old) (planned_shelf self.new)
            (record { id = id.now; body = body.now })) }
        ensures number { IfOk result (λ seq. seq ≡ length self.new.stored.rows) }
        ensures err { OnErr result (Keeps (planned_shelf self.old) (planned_shelf self.new)) }
        ensures faults { CountsFaults (planned_shelf self.old) (planned_shelf self.new) result }
        ensures plan { FollowsPlan self.old.plan self.new.plan result }
    {
        if self.plan.next_call() {
            return Err(KeepError::Failed);
        }
        self.inner.push(id, body)?;
        Ok(self.inner.len())
    }
}
