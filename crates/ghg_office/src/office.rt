//! The office.

ghost use Rattle.std.specs.Prelude.{◌≡◌, ◌≢◌, ◌≤◌, ◌+◌, true, false, length, IsErrOf, IfOk, IfErr};
ghost use Rattle.ghg_definitions.specs.Compilation.{compilation, is_year_of};
ghost use Rattle.ghg_definitions.specs.Data.{span};
ghost use Rattle.ghg_outer.specs.Counts.{IsCounted};
ghost use Rattle.ghg_keeper.specs.Shelf.{Keeps};
ghost use Rattle.ghg_tables.specs.Sums.{shown};
ghost use Rattle.ghg_office.specs.Office.{IsRead, evaluations, requested, start, submitted, unchanged};
ghost use Rattle.ghg_office.specs.Keeping.{HadRows, KeepsAccepted, Lists, is_to_append};
ghost use Rattle.ghg_office.specs.Replays.{IsReplay, Takes, replay_evaluations, replayed, taken};
ghost use Rattle.ghg_office.specs.Replies.{Answers, Shows, is_failure, reply_of};
ghost use Rattle.ghg_office.specs.Requests.{MayFail, answer_to, evaluations_for, seen};
ghost use Rattle.ghg_office.specs.Laws.{IsInForce, IsRebuilt};
ghost use Rattle.ghg_office.specs.Sound.{IsSoundReply};

use crate::accepted::Accepted;
use crate::fault::OpenFault;
use crate::id::SubmissionId;
use crate::keeping::keep_body;
use crate::proposing::prepare;
use crate::reply::{Acceptance, Reply};
use crate::request::Request;
use ghg_cell::Input;
use ghg_data::{Book, Records};
use ghg_engine::Engine;
use ghg_graph::Cells;
use ghg_import::is_too_long;
use ghg_keeper::{Keeper, KeptRow};
use ghg_steps::Steps;
use ghg_tables::{print, shown, table_named};
use ghg_units::{Node, Rule, Text};
use ghg_workers::{Gate, Workers};
use std::alloc::Global;
use std::hash::RandomState;
use std::marker::Model;
use std::sync::ledger::Ledger;
use std::thread::Threads;

// A submission whose id is new.
#[derive(Drop)]
struct NewSubmission<'a> {
    id: SubmissionId,
    body: &'a [u8],
}

/// The workbook in force and the submissions that were accepted. Contracts see the two.
///
/// The accepted submissions, entered in their order into an office without data, lead to this workbook.
#[derive(Drop)]
pub struct Office {
    engine: Engine,
    accepted: Accepted,
}

impl Model for Office {
    ghost use Rattle.ghg_office.specs.Office.{State, state_code};
    ghost use Rattle.ghg_office.specs.Laws.{IsRebuilt};
    ghost use Rattle.std.specs.Coded.{codes};

    ghost Value = { State };

    ghost coded = { state_code (Prim.hlevel codes) (Prim.hlevel codes) };

    ghost view = { λ o. record { content = o.engine.content; accepted = o.accepted.list } };

    ghost invariant = { λ o. IsRebuilt (record { content = o.engine.content; accepted = o.accepted.list }) };
}

impl Office {
    /// An office with no data and no submissions. Its maps hash with `hasher`. It takes no memory.
    pub fn new(alloc: Global, hasher: RandomState) -> Office
        ensures { result ≡ start }
    {
        Office {
            engine: Engine::new(alloc, hasher),
            accepted: Accepted::new(alloc, hasher),
        }
    }

    /// The office that the kept rows lead to, submitted again in their order.
    ///
    /// The keeper's rows, and the name in use, are as before with every answer.
    pub fn reopen<K: Keeper, G: Gate, T: Threads + Sync, L: Ledger>(
        rt: &T,
        alloc: Global,
        hasher: RandomState,
        keeper: &mut K,
        workers: u32,
        gate: &G,
        steps: &mut Steps<L>,
    ) -> Result<Office, OpenFault>
        requires { (1 ≤ workers) × (workers ≤ 64) }
        // The result is that of replaying rows, but where the keeper failed or memory ran out. A keeper that
        // told its rows before the call had these. No more nodes are evaluated than each of these rows
        // affects in its turn.
        ensures replays { (rows : _) × HadRows (K.shelf keeper.old) (K.shelf keeper.new) rows
            × IsReplay (replayed rows) result × (steps.new ≤ steps.old + replay_evaluations start rows) }
        ensures keeps { Keeps (K.shelf keeper.old) (K.shelf keeper.new) }
        ensures faults { IsCounted (K.shelf keeper.old).faults (K.shelf keeper.new).faults
            (IsErrOf result OpenFault.KeeperFault) }
        // The accepted submissions are the rows, and the office can go on with this keeper.
        ensures accepted { IfOk result (λ office. Lists (K.shelf keeper.new) office.accepted) }
        ensures in_force { IfOk result IsInForce }
    {
        let count = keeper.count()?;
        let mut office = Office::new(alloc, hasher);
        let workers = Workers {
            threads: rt,
            count: workers,
            gate,
        };
        for done in 0..count {
            let row = keeper.row(done + 1)?;
            office.replay(alloc, &workers, done + 1, row, steps)?;
        }
        Ok(office)
    }

    // Submits the kept row of this number again.
    fn replay<G: Gate, T: Threads + Sync, L: Ledger>(
        &mut self,
        alloc: Global,
        workers: &Workers<'_, T, G>,
        seq: u64,
        row: KeptRow,
        steps: &mut Steps<L>,
    ) -> Result<(), OpenFault>
        requires { (1 ≤ workers.now.count) × (workers.now.count ≤ 64) }
        ensures takes { Takes (taken seq (submitted self.old row.id row.body)) self.new result }
        ensures steps { steps.new ≤ steps.old + evaluations self.old row.id row.body }
    {
        match reply_of(self.submit_row(alloc, workers, row, steps)) {
            Reply::Accepted { .. } => Ok(()),
            Reply::Memory => Err(OpenFault::Memory),
            reply => Err(OpenFault::Kept { seq, reply }),
        }
    }

    // Enters a kept row, and gives its number and how many nodes it affects. With any other reply nothing
    // changes.
    fn submit_row<G: Gate, T: Threads + Sync, L: Ledger>(
        &mut self,
        alloc: Global,
        workers: &Workers<'_, T, G>,
        row: KeptRow,
        steps: &mut Steps<L>,
    ) -> Result<Acceptance, Reply>
        requires { (1 ≤ workers.now.count) × (workers.now.count ≤ 64) }
        ensures answer { Answers (submitted self.old row.id row.body) (reply_of result) self.old self.new }
        ensures keeper { reply_of result ≢ Reply.KeeperFault }
        ensures steps { steps.new ≤ steps.old + evaluations self.old row.id row.body }
    {
        let KeptRow { id, body } = row;
        let id = self.new_id(id.as_slice(), body.as_slice())?;
        let proposal = prepare(
            &mut self.engine,
            &mut self.accepted,
            alloc,
            workers,
            body.as_slice(),
            steps,
        )?;
        let cells = proposal.cells();
        self.engine.accept(proposal);
        let seq = self.accepted.push(id, body);
        Ok(Acceptance { seq, cells })
    }

    /// Answers a submission, and appends it to the keeper's rows where it is accepted and is to be stored.
    ///
    /// With any answer but that it is accepted, the data, the accepted submissions and the keeper's rows are
    /// as before.
    pub fn submit<K: Keeper, G: Gate, T: Threads + Sync, L: Ledger>(
        &mut self,
        rt: &T,
        alloc: Global,
        id: &[u8],
        body: &[u8],
        workers: u32,
        gate: &G,
        keeper: &mut K,
        stored: bool,
        steps: &mut Steps<L>,
    ) -> Reply
        requires workers { (1 ≤ workers) × (workers ≤ 64) }
        requires same { stored ≡ true → Lists (K.shelf keeper.old) self.old.accepted }
        ensures answer { Answers (submitted self.old id.now body.now) result self.old self.new }
        // Only a new submission whose body is read takes memory.
        ensures memory { result ≡ Reply.Memory → IsRead self.old id.now body.now }
        // With any answer no more nodes are evaluated than the rows affect; none for a repeat, or where a
        // rule before the last is broken.
        ensures steps { steps.new ≤ steps.old + evaluations self.old id.now body.now }
        // With any answer the rows that a keeper tells are the accepted submissions.
        ensures kept { stored ≡ true
            → KeepsAccepted (K.shelf keeper.old) (K.shelf keeper.new) self.new.accepted }
        // The keeper is called only for a submission that is to be stored and breaks no rule.
        ensures untouched { is_to_append stored (submitted self.old id.now body.now) ≡ false
            → keeper.new ≡ keeper.old }
        ensures fault { result ≡ Reply.KeeperFault
            → is_to_append stored (submitted self.old id.now body.now) ≡ true }
        ensures faults { IsCounted (K.shelf keeper.old).faults (K.shelf keeper.new).faults
            (result ≡ Reply.KeeperFault) }
    {
        let workers = Workers {
            threads: rt,
            count: workers,
            gate,
        };
        match self.new_id(id, body) {
            Ok(id) => {
                let new = NewSubmission { id, body };
                reply_of(self.enter(alloc, &workers, new, keeper, stored, steps))
            }
            Err(reply) => reply,
        }
    }

    // The id of a submission that is new and whose body is to be read, or the reply to any other.
    #[tactic(auto, unfolding(crate::specs::Office::submitted))]
    fn new_id(&self, id: &[u8], body: &[u8]) -> Result<SubmissionId, Reply>
        ensures new { IfOk result (λ new. (new ≡ id.now) × IsRead self.now id.now body.now) }
        ensures settled { IfErr result
            (λ reply. submitted self.now id.now body.now ≡ unchanged self.now reply) }
        ensures failure { IfErr result (λ reply. is_failure reply ≡ false) }
    {
        let Some(id) = SubmissionId::new(id) else {
            return Err(Reply::Refused(Rule::BadId));
        };
        if let Some((seq, kept)) = self.accepted.find(&id) {
            return Err(if kept.as_slice() == body {
                Reply::Repeated { seq }
            } else {
                Reply::Refused(Rule::IdReused(seq))
            });
        }
        if is_too_long(body) {
            return Err(Reply::Refused(Rule::BodyTooLong));
        }
        Ok(id)
    }

    // Enters a new submission whose body is to be read, and gives its number and how many nodes it affects.
    // With any other reply nothing changes: all memory is taken first, then the row is appended, and what
    // follows cannot fail. Where the row is not appended, the proposal is dropped: for it the engine made
    // room, and its data stayed.
    fn enter<K: Keeper, G: Gate, T: Threads + Sync, L: Ledger>(
        &mut self,
        alloc: Global,
        workers: &Workers<'_, T, G>,
        submission: NewSubmission<'_>,
        keeper: &mut K,
        stored: bool,
        steps: &mut Steps<L>,
    ) -> Result<Acceptance, Reply>
        requires workers { (1 ≤ workers.now.count) × (workers.now.count ≤ 64) }
        requires read { IsRead self.old submission.id submission.body.now }
        requires same { stored ≡ true → Lists (K.shelf keeper.old) self.old.accepted }
        ensures answer { Answers (submitted self.old submission.entry.id submission.entry.body.now)
            (reply_of result) self.old self.new }
        ensures steps { steps.new ≤ steps.old
            + evaluations self.old submission.entry.id submission.entry.body.now }
        ensures kept { stored ≡ true
            → KeepsAccepted (K.shelf keeper.old) (K.shelf keeper.new) self.new.accepted }
        ensures untouched { is_to_append stored
            (submitted self.old submission.entry.id submission.entry.body.now) ≡ false
            → keeper.new ≡ keeper.old }
        ensures fault { reply_of result ≡ Reply.KeeperFault
            → is_to_append stored (submitted self.old submission.entry.id submission.entry.body.now) ≡ true }
        ensures faults { IsCounted (K.shelf keeper.old).faults (K.shelf keeper.new).faults
            (reply_of result ≡ Reply.KeeperFault) }
    {
        let NewSubmission { id, body } = submission;
        let proposal = prepare(
            &mut self.engine,
            &mut self.accepted,
            alloc,
            workers,
            body,
            steps,
        )?;
        match keep_body(alloc, keeper, stored, &id, body) {
            Ok(kept) => {
                let cells = proposal.cells();
                self.engine.accept(proposal);
                let seq = self.accepted.push(id, kept);
                Ok(Acceptance { seq, cells })
            }
            Err(reply) => Err(reply),
        }
    }

    /// Answers a request for a table of a year, printed from the compilation of the data in force.
    #[tactic(auto, unfolding(crate::specs::Office::requested))]
    pub fn show(&self, alloc: Global, table: &[u8], year: u32) -> Reply
        ensures table { Shows (requested self.now table.now year) result }
        // In a table the bounds hold the exact values of its nodes.
        ensures bounds { result ≢ Reply.Memory → IsSoundReply self.now table.now year result }
        // Only a table that there is takes memory.
        ensures memory { result ≡ Reply.Memory → requested self.now table.now year ≢ Reply.NoTable }
    {
        if !has_year(self.engine.book(), year) {
            return Reply::NoTable;
        }
        let Some(table) = table_named(table) else {
            return Reply::NoTable;
        };
        match print(alloc, table, year, &self.engine) {
            Ok(text) => Reply::Table(text),
            Err(_) => Reply::Memory,
        }
    }

    /// Answers a request: a submission as [`Office::submit`] does, and a request for a table as
    /// [`Office::show`] does.
    pub fn answer<K: Keeper, G: Gate, T: Threads + Sync, L: Ledger>(
        &mut self,
        alloc: Global,
        workers: &Workers<'_, T, G>,
        request: &Request<&[u8]>,
        keeper: &mut K,
        stored: bool,
        steps: &mut Steps<L>,
    ) -> Reply
        requires workers { (1 ≤ workers.now.count) × (workers.now.count ≤ 64) }
        requires same { stored ≡ true → Lists (K.shelf keeper.old) self.old.accepted }
        ensures answer { Answers (answer_to self.old (seen request.now)) result self.old self.new }
        ensures failure { MayFail self.old (seen request.now) result }
        ensures store { result ≡ Reply.KeeperFault → stored ≡ true }
        ensures steps { steps.new ≤ steps.old + evaluations_for self.old (seen request.now) }
        // With any answer the rows that a keeper tells are the accepted submissions.
        ensures kept { stored ≡ true
            → KeepsAccepted (K.shelf keeper.old) (K.shelf keeper.new) self.new.accepted }
        // The keeper is called only for a submission that is to be stored and breaks no rule.
        ensures untouched { is_to_append stored (answer_to self.old (seen request.now)) ≡ false
            → keeper.new ≡ keeper.old }
        ensures faults { IsCounted (K.shelf keeper.old).faults (K.shelf keeper.new).faults
            (result ≡ Reply.KeeperFault) }
    {
        match request {
            Request::Submit { id, body } => self.submit(
                workers.threads,
                alloc,
                id,
                body,
                workers.count,
                workers.gate,
                keeper,
                stored,
                steps,
            ),
            Request::Show { table, year } => self.show(alloc, table, *year),
        }
    }

    /// How many submissions were accepted. They lead to the data in force from an office without data.
    pub fn accepted(&self) -> u64
        ensures count { result ≡ length self.now.accepted }
        ensures rebuilt { IsRebuilt self.now }
    {
        self.accepted.len()
    }

    /// The engine with the data in force and their compilation.
    pub fn engine(&self) -> &Engine
        ensures { result.now.content ≡ self.now.content }
    {
        &self.engine
    }

    /// What tables print of a node: its value by the data in force, and a blank where it is no node.
    pub fn shown(&self, node: &Node) -> Input
        ensures { result ≡ shown (compilation self.now.content) node.now }
    {
        shown(&self.engine, node)
    }
}

// Whether a year is one of a workbook's.
fn has_year(book: &Book, year: u32) -> bool
    ensures { result ≡ is_year_of (span book.now.content) year }
{
    match book.span() {
        Some(span) => span.first <= year && year <= span.last,
        None => false,
    }
}

fn reply_of(outcome: Result<Acceptance, Reply>) -> Reply
    ensures { result ≡ reply_of outcome }
{
    match outcome {
        Ok(Acceptance { seq, cells }) => Reply::Accepted { seq, cells },
        Err(reply) => reply,
    }
}
