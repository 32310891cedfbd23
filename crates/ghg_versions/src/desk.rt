//! The desk.

ghost use Rattle.std.specs.Prelude.{◌≡◌, ◌≤◌, ◌+◌, [], ◌∷◌, ◌++◌, true, OnErr, OnOk};
ghost use Rattle.ghg_office.specs.Office.{evaluations, submitted};
ghost use Rattle.ghg_versions.specs.Desk.{answered, evaluations_for, from_office, frozen, present, recalculated, trended};
ghost use Rattle.ghg_versions.specs.Replies.{Answers, HasNoFailure, Shows, office_reply, takes_memory};

use crate::command::Command;
use crate::recalculation::print_recalculation;
use crate::reply::DeskReply;
use crate::version::{KeptVersion, Report, version_named};
use ghg_data::Records;
use ghg_graph::Cells;
use ghg_keeper::SteadyKeeper;
use ghg_office::{Office, Reply};
use ghg_steps::Steps;
use ghg_trendunc::print_trend;
use ghg_units::Name;
use ghg_workers::Gate;
use std::alloc::{AllocError, Global};
use std::marker::Model;
use std::sync::ledger::Ledger;
use std::thread::Threads;

/// An office, and the versions that were frozen of it. Contracts see the office, and of each version its name
/// and after how many accepted submissions it was frozen.
///
/// A version's values are those of the data that these submissions give, whatever was submitted afterwards.
#[derive(Drop)]
pub struct Desk {
    office: Office,
    versions: Vec<KeptVersion>,
}

impl Model for Desk {
    ghost use Rattle.std.specs.Prelude.{All, map};
    ghost use Rattle.std.specs.Coded.{codes};
    ghost use Rattle.ghg_office.specs.Office.{state_code};
    ghost use Rattle.ghg_versions.specs.Desk.{DeskState, desk_code};
    ghost use Rattle.ghg_versions.specs.Versions.{IsKept, version_of};

    ghost Value = { DeskState };

    ghost coded = { desk_code (state_code (Prim.hlevel codes) (Prim.hlevel codes)) };

    ghost view = { λ d. record { office = d.office; versions = map version_of d.versions.items } };

    ghost invariant = { λ d. All (IsKept d.office.accepted) d.versions.items };
}

/// How many versions a desk has at most.
const MOST_VERSIONS: usize = 100;

impl Desk {
    /// A desk with this office and without versions. It takes no memory.
    pub fn new(alloc: Global, office: Office) -> Desk
        ensures { result ≡ record { office = office; versions = [] } }
    {
        Desk {
            office,
            versions: Vec::new(alloc),
        }
    }

    /// Answers a command.
    ///
    /// Where memory runs out the desk is as before.
    #[tactic(auto, unfolding(crate::specs::Desk::answered))]
    pub fn step<G: Gate, T: Threads + Sync, L: Ledger>(
        &mut self,
        rt: &T,
        alloc: Global,
        command: &Command,
        workers: u32,
        gate: &G,
        steps: &mut Steps<L>,
    ) -> DeskReply
        requires { (1 ≤ workers) × (workers ≤ 64) }
        ensures answer { Answers (answered self.old command.now) result self.old self.new }
        // A repeated submission takes no memory, nor does a refusal to freeze, nor that there is no table.
        ensures memory { result ≡ DeskReply.Memory
            → takes_memory (answered self.old command.now).reply ≡ true }
        // No more nodes are evaluated than the rows of a submission affect, and none by another command.
        ensures steps { steps.new ≤ steps.old + evaluations_for self.old command.now }
        ensures office { HasNoFailure result }
    {
        match command {
            Command::Submit { id, body } => {
                let (id, body) = (id.as_slice(), body.as_slice());
                self.submit(rt, alloc, id, body, workers, gate, steps)
            }
            Command::Show { table, year } => {
                office_reply(self.office.show(alloc, table.as_slice(), *year))
            }
            Command::Freeze { name } => self.freeze(alloc, name.as_slice()),
            Command::Recalc { name, year } => self.recalculate(alloc, name.as_slice(), *year),
            Command::Trend { year } => self.trend(alloc, *year),
        }
    }

    // Answers a submission. It is not stored, so the keeper is not called.
    fn submit<G: Gate, T: Threads + Sync, L: Ledger>(
        &mut self,
        rt: &T,
        alloc: Global,
        id: &[u8],
        body: &[u8],
        workers: u32,
        gate: &G,
        steps: &mut Steps<L>,
    ) -> DeskReply
        requires { (1 ≤ workers) × (workers ≤ 64) }
        ensures answer { Answers (from_office self.old (submitted self.old.office id.now body.now))
            result self.old self.new }
        ensures memory { result ≡ DeskReply.Memory
            → takes_memory (from_office self.old (submitted self.old.office id.now body.now)).reply ≡ true }
        ensures steps { steps.new ≤ steps.old + evaluations self.old.office id.now body.now }
        ensures office { HasNoFailure result }
    {
        let mut keeper = SteadyKeeper::new(alloc);
        let reply = self.office.submit(
            rt,
            alloc,
            id,
            body,
            workers,
            gate,
            &mut keeper,
            false,
            steps,
        );
        office_reply(reply)
    }

    // Freezes the present state under a name.
    #[tactic(auto, unfolding(crate::specs::Desk::frozen))]
    fn freeze(&mut self, alloc: Global, name: &[u8]) -> DeskReply
        ensures answer { Answers (frozen self.old name.now) result self.old self.new }
        ensures memory { result ≡ DeskReply.Memory → takes_memory (frozen self.old name.now).reply ≡ true }
        ensures office { HasNoFailure result }
    {
        let Some(name) = Name::new(name) else {
            return DeskReply::BadVersion;
        };
        let seq = self.office.accepted();
        if let Some(version) = version_named(&self.versions, name.as_bytes()) {
            return if version.seq == seq {
                DeskReply::Frozen { seq }
            } else {
                DeskReply::VersionExists { seq: version.seq }
            };
        }
        if self.versions.len() >= MOST_VERSIONS {
            return DeskReply::TooManyVersions;
        }
        match self.keep(alloc, name) {
            Ok(()) => DeskReply::Frozen { seq },
            Err(_) => DeskReply::Memory,
        }
    }

    // Keeps the present values under a new name.
    fn keep(&mut self, alloc: Global, name: Name) -> Result<(), AllocError>
        ensures kept { OnOk result (self.new ≡ record {
          office = self.old.office;
          versions = self.old.versions ++ record { name = name; seq = present self.old } ∷ [];
        }) }
        ensures unkept { OnErr result (self.new ≡ self.old) }
    {
        let seq = self.office.accepted();
        let report = Report::of(alloc, self.office.engine())?;
        self.versions.push(KeptVersion { name, seq, report })?;
        Ok(())
    }

    // Sets the values of a year that were kept under a name beside the present ones.
    #[tactic(auto, unfolding(crate::specs::Desk::recalculated))]
    fn recalculate(&self, alloc: Global, name: &[u8], year: u32) -> DeskReply
        ensures reply { Shows (recalculated self.now name.now year) result }
        ensures memory { result ≡ DeskReply.Memory
            → takes_memory (recalculated self.now name.now year) ≡ true }
        ensures office { HasNoFailure result }
    {
        let Some(version) = version_named(&self.versions, name) else {
            return DeskReply::NoTable;
        };
        let Some(reported) = version.report.at(year) else {
            return DeskReply::NoTable;
        };
        match print_recalculation(alloc, reported, year, self.office.engine()) {
            Ok(Some(text)) => DeskReply::Table(text),
            Ok(None) => DeskReply::NoTable,
            Err(_) => DeskReply::Memory,
        }
    }

    // The uncertainty of the trend from the base year to a year.
    #[tactic(auto, unfolding(crate::specs::Desk::trended))]
    fn trend(&self, alloc: Global, year: u32) -> DeskReply
        ensures reply { Shows (trended self.now year) result }
        ensures memory { result ≡ DeskReply.Memory → takes_memory (trended self.now year) ≡ true }
        ensures office { HasNoFailure result }
    {
        let cells = self.office.engine();
        match cells.book().span() {
            Some(span) if span.first <= year && year <= span.last => match print_trend(
                alloc, year, cells,
            ) {
                Ok(text) => DeskReply::Table(text),
                Err(_) => DeskReply::Memory,
            },
            _ => DeskReply::NoTable,
        }
    }
}

// The office's answer, where memory did not run out.
fn office_reply(reply: Reply) -> DeskReply
    ensures { result ≡ office_reply reply }
{
    match reply {
        Reply::Memory => DeskReply::Memory,
        reply => DeskReply::Office(reply),
    }
}
