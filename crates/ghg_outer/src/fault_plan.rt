ghost use Rattle.std.specs.Prelude.{◌≡◌, ⊤, IsTrue};
ghost use Rattle.ghg_outer.specs.Counts.{IsCounted, raised};
ghost use Rattle.ghg_outer.specs.Plans.{planned, fails_next, after_call};

use std::marker::Model;

/// Which calls of a form in memory fail: those whose numbers are listed. Calls count from 1, over all
/// calls of the form that can answer `Failed`. The count of calls and that of faults stand still at their
/// last value.
#[derive(Drop)]
pub struct FaultPlan {
    failing: Vec<u64>,
    calls: u64,
    faults: u64,
}

impl Model for FaultPlan {
    ghost use Rattle.ghg_outer.specs.Plans.{Plan};

    ghost Value = { Plan };

    ghost view = { λ p. record { failing = p.failing.items; calls = p.calls; faults = p.faults } };
}

impl FaultPlan {
    /// Before the first call, with the numbers of those that are to fail.
    pub fn new(failing: Vec<u64>) -> FaultPlan
        ensures { result ≡ planned failing.items }
    {
        FaultPlan {
            failing,
            calls: 0,
            faults: 0,
        }
    }

    /// Counts the next call, and says whether it is to fail, which is counted too.
    pub fn next_call(&mut self) -> bool
        ensures fails { result ≡ fails_next self.old }
        ensures plan { self.new ≡ after_call self.old }
        ensures faults { IsCounted self.old.faults self.new.faults (IsTrue result) }
    {
        self.calls = self.calls.saturating_add(1);
        let fails = self.failing.contains(&self.calls);
        if fails {
            self.faults = self.faults.saturating_add(1);
        }
        fails
    }

    /// Counts a failure that is not listed.
    pub fn fail(&mut self)
        ensures plan { self.new ≡ record self.old { faults = raised self.old.faults } }
        ensures faults { IsCounted self.old.faults self.new.faults ⊤ }
    {
        self.faults = self.faults.saturating_add(1);
    }
}
