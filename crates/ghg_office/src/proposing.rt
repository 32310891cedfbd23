//! What a body asks for.

ghost use Rattle.std.specs.Prelude.{◌≡◌, ◌≤◌, ◌<◌, ◌+◌, Ok, Err, length, MatchResult, IfOk, OnOk};
ghost use Rattle.std.specs.List.{AllByRecursion};
ghost use Rattle.ghg_units.specs.WellFormed.{IsWellFormed};
ghost use Rattle.ghg_definitions.specs.Rules.{arranged, most_kept_bytes};
ghost use Rattle.ghg_data.specs.Changes.{applied};
ghost use Rattle.ghg_data.specs.Refusal.{IfRule};
ghost use Rattle.ghg_import.specs.Body.{max_body};
ghost use Rattle.ghg_engine.specs.Proposals.{Proposes};
ghost use Rattle.ghg_office.specs.Accepted.{kept_bytes};
ghost use Rattle.ghg_office.specs.Office.{State, entered, entered_by, evaluations_by, evaluations_of_rows};

use crate::accepted::Accepted;
use ghg_data::PlanRefusal;
use ghg_engine::{Engine, EngineRefusal, Proposal};
use ghg_import::{Rows, read_rows};
use ghg_steps::Steps;
use ghg_units::Rule;
use ghg_workers::{Gate, Workers};
use std::alloc::Global;
use std::sync::ledger::Ledger;
use std::thread::Threads;

/// The proposal that a body asks for, with room for one more submission, or the first rule that is broken.
///
/// The data and the accepted submissions stay. The proposal, once it is made, takes no memory to accept.
pub(crate) fn prepare<G: Gate, T: Threads + Sync, L: Ledger>(
    engine: &mut Engine,
    accepted: &mut Accepted,
    alloc: Global,
    workers: &Workers<'_, T, G>,
    body: &[u8],
    steps: &mut Steps<L>,
) -> Result<Proposal, PlanRefusal>
    requires workers { (1 ≤ workers.now.count) × (workers.now.count ≤ 64) }
    requires body { length body.now ≤ max_body }
    ensures content { engine.new.content ≡ engine.old.content }
    ensures list { accepted.new.list ≡ accepted.old.list }
    ensures room { OnOk result (0 < accepted.new.spare) }
    ensures limit { OnOk result (kept_bytes accepted.old.list + length body.now ≤ most_kept_bytes) }
    ensures proposed { IfOk result (λ p. Proposes engine.new p.edits p) }
    ensures entered { let before : State =
        record { content = engine.old.content; accepted = accepted.old.list } in
        MatchResult result
        (λ p. entered_by before body.now ≡ Ok (applied engine.old.content p.edits))
        (IfRule (λ rule. entered_by before body.now ≡ Err rule)) }
    ensures steps { let before : State =
        record { content = engine.old.content; accepted = accepted.old.list } in
        steps.new ≤ steps.old + evaluations_by before body.now }
{
    let rows = read_rows(alloc, body)?;
    let kept_bytes = accepted.kept_bytes() + body.len() as u64;
    accepted.reserve()?;
    propose(engine, alloc, workers, rows, kept_bytes, steps)
}

// The proposal that the rows of a body ask for, or the first rule that is broken. The records stay.
#[tactic(auto, unfolding(crate::specs::Office::entered, ghg_definitions::specs::Rules::accepted))]
fn propose<G: Gate, T: Threads + Sync, L: Ledger>(
    engine: &mut Engine,
    alloc: Global,
    workers: &Workers<'_, T, G>,
    rows: Rows,
    kept_bytes: u64,
    steps: &mut Steps<L>,
) -> Result<Proposal, PlanRefusal>
    requires workers { (1 ≤ workers.now.count) × (workers.now.count ≤ 64) }
    requires rows { AllByRecursion IsWellFormed rows.rows.items }
    ensures kept { engine.new.content ≡ engine.old.content }
    ensures steps { steps.new ≤ steps.old + evaluations_of_rows engine.old.content
        (arranged engine.old.content rows.rows.items rows.rest kept_bytes) }
    ensures proposed { IfOk result (λ p. Proposes engine.new p.edits p) }
    ensures entered { let made =
        entered engine.old.content (record { rows = rows.rows.items; rest = rows.rest }) kept_bytes in
        MatchResult result
        (λ p. made ≡ Ok (applied engine.old.content p.edits))
        (IfRule (λ rule. made ≡ Err rule)) }
{
    let edits = engine.plan(alloc, &rows.rows, rows.rest, kept_bytes)?;
    match engine.propose(
        workers.threads,
        alloc,
        edits,
        workers.count,
        workers.gate,
        steps,
    ) {
        Ok(proposal) => Ok(proposal),
        Err(EngineRefusal::Overflow(node)) => Err(PlanRefusal::Rule(Rule::Overflow(node))),
        Err(EngineRefusal::Memory) => Err(PlanRefusal::Memory),
    }
}
