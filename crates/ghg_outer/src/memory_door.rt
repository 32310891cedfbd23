// A door in memory.
ghost use Rattle.std.specs.Prelude.{◌≡◌, ◌↔◌, ◌⊎◌, false, [], ◌∷◌, ◌++◌, All, IfOk, IsErr, IsTrue, MatchResult, OnErr, OnOk, Some};
ghost use Rattle.ghg_outer.specs.Counts.{IsCounted};
ghost use Rattle.ghg_outer.specs.Doors.{GivesLink, IsFreshLink, IsKept, Opens, planned_door, planned_register};
ghost use Rattle.ghg_outer.specs.Links.{IsFresh, planned_link_tape};
ghost use Rattle.ghg_outer.specs.Plans.{planned, fails_next, after_call, after_failure};

use crate::{Door, Failed, FaultPlan, MemoryLink};
use std::alloc::{AllocError, Global};
use std::collections::VecDeque;
use std::marker::Model;

/// A door in memory that gives these links, in their order. Calls of `listen` and `next` are counted
/// together, and one fails where its number is listed. `next` fails too where no link is left.
#[derive(Drop)]
pub struct MemoryDoor {
    links: VecDeque<MemoryLink>,
    // How many links there were.
    count: usize,
    port: Option<u16>,
    finished: Vec<MemoryLink>,
    plan: FaultPlan,
}

impl Model for MemoryDoor {
    ghost use Rattle.std.specs.Prelude.{◌≤◌, ◌-◌, All, length};
    ghost use Rattle.ghg_outer.specs.Doors.{IsFreshLink, PlannedDoor};

    ghost Value = { PlannedDoor };

    ghost view = { λ d. record {
      links = d.links.items;
      port = d.port;
      given = d.count - length d.links.items;
      finished = d.finished.items;
      plan = d.plan;
    } };

    ghost invariant = { λ d. (length d.links.items ≤ d.count) × All IsFreshLink d.links.items };
}

impl MemoryDoor {
    /// A door with these links, on which no call was made yet, and the numbers of the calls that are to fail.
    pub fn new(alloc: Global, links: Vec<MemoryLink>, failing: Vec<u64>) -> MemoryDoor
        requires { All IsFreshLink links.items }
        ensures { result ≡ planned_door links.items (planned failing.items) }
    {
        MemoryDoor {
            count: links.len(),
            links: VecDeque::from(links),
            port: None,
            finished: Vec::new(alloc),
            plan: FaultPlan::new(failing),
        }
    }

    /// The links that were taken back.
    pub fn finished(&self) -> &[MemoryLink]
        ensures { result.now ≡ self.now.finished }
    {
        &self.finished
    }
}

impl Door for MemoryDoor {
    type Link = MemoryLink;

    ghost register = { planned_register };

    fn listen(&mut self, port: u16) -> Result<(), Failed>
        ensures opened { OnOk result (Opens (planned_register self.old) (planned_register self.new) port) }
        ensures kept { OnErr result (IsKept (planned_register self.old) (planned_register self.new)) }
        ensures counted { IsCounted (planned_register self.old).faults (planned_register self.new).faults
            (IsErr result) }
        ensures port { OnOk result (self.new.port ≡ Some port) }
        ensures fails { IsErr result ↔ IsTrue (fails_next self.old.plan) }
        ensures plan { self.new.plan ≡ after_call self.old.plan }
        ensures left { self.new.links ≡ self.old.links }
    {
        if self.plan.next_call() {
            return Err(Failed);
        }
        self.port = Some(port);
        Ok(())
    }

    fn next(&mut self) -> Result<MemoryLink, Failed>
        ensures fresh { IfOk result (λ link. IsFresh (planned_link_tape link)) }
        ensures given { OnOk result (GivesLink (planned_register self.old) (planned_register self.new)) }
        ensures kept { OnErr result (IsKept (planned_register self.old) (planned_register self.new)) }
        ensures counted { IsCounted (planned_register self.old).faults (planned_register self.new).faults
            (IsErr result) }
        ensures first { MatchResult result
            (λ link. (fails_next self.old.plan ≡ false) × (self.old.links ≡ link ∷ self.new.links))
            (λ _. IsTrue (fails_next self.old.plan) ⊎ (self.old.links ≡ [])) }
        ensures left { OnErr result (self.new.links ≡ self.old.links) }
        ensures plan { MatchResult result
            (λ _. self.new.plan ≡ after_call self.old.plan)
            (λ _. self.new.plan ≡ after_failure self.old.plan) }
    {
        if self.plan.next_call() {
            return Err(Failed);
        }
        match self.links.pop_front() {
            Some(link) => Ok(link),
            None => {
                self.plan.fail();
                Err(Failed)
            }
        }
    }

    fn finish(&mut self, link: MemoryLink) -> Result<(), AllocError>
        ensures ok { OnOk result (self.new ≡ record self.old { finished = self.old.finished ++ link ∷ [] }) }
        ensures err { OnErr result (self.new ≡ self.old) }
    {
        self.finished.push(link)?;
        Ok(())
    }
}
