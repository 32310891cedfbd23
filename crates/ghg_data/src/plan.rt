//! Planning the rows of a submission.

ghost use Rattle.std.specs.Prelude.{◌≡◌, ℕ, ◌+◌, ◌^◌, ◌<◌, ◌≤◌, Ok, Err, Some, None, MatchResult, OnOk, IfOk};
ghost use Rattle.std.specs.List.{AllByRecursion};
ghost use Rattle.std.specs.FinMap.{len};
ghost use Rattle.ghg_units.specs.WellFormed.{IsWellFormed};
ghost use Rattle.ghg_definitions.specs.Rows.{after, after_row, key_of};
ghost use Rattle.ghg_definitions.specs.Rules.{judged, planned, row_fault, rows_applied};
ghost use Rattle.ghg_definitions.specs.Sound.{IsConsistent, IsWorkbook};
ghost use Rattle.ghg_data.specs.Changes.{AreOfRows, ChangesAlso, applied};
ghost use Rattle.ghg_data.specs.Counts.{count_after};
ghost use Rattle.ghg_data.specs.Refusal.{IfRule, IsPlanOf};

use crate::bindings::unsound_place;
use crate::draft::Draft;
use crate::edits::Edits;
use crate::holdings::Holdings;
use crate::limits::limit_fault;
use crate::refusal::PlanRefusal;
use crate::rows::{key_of, record_of, row_fault};
use ghg_units::{Act, Row, Rule};
use std::alloc::Global;

// The edits of the rows so far, with the number of records that they leave.
#[derive(Drop)]
struct Progress {
    edits: Edits,
    records: usize,
}

/// The edits that rows make, where they break no rule; or the first rule that is broken.
#[tactic(auto, unfolding(ghg_definitions::specs::Rules::planned))]
pub(crate) fn planned_edits(
    alloc: Global,
    holdings: &Holdings,
    rows: &[Row],
    rest: Option<Rule>,
    kept_bytes: u64,
) -> Result<Edits, PlanRefusal>
    requires workbook { IsWorkbook holdings.now.content }
    requires well_formed { AllByRecursion IsWellFormed rows.now }
    ensures planned { IsPlanOf (planned holdings.now.content rows.now rest kept_bytes)
        holdings.now.content result }
    ensures after { IfOk result (λ edits. applied holdings.now.content edits ≡ after
        holdings.now.content rows.now) }
    ensures few { IfOk result (AreOfRows rows.now) }
    ensures workbook { IfOk result (λ edits. IsWorkbook (applied holdings.now.content edits)) }
{
    let progress = progress_of(alloc, holdings, rows)?;
    judge(alloc, holdings, &progress, rest, kept_bytes)?;
    let Progress { edits, .. } = progress;
    Ok(edits)
}

// What the rows make of the records, or the first rule that a row breaks.
#[tactic(auto, unfolding(ghg_definitions::specs::Rules::rows_applied))]
fn progress_of(alloc: Global, holdings: &Holdings, rows: &[Row]) -> Result<Progress, PlanRefusal>
    requires consistent { IsConsistent holdings.now.content }
    requires well_formed { AllByRecursion IsWellFormed rows.now }
    ensures applied { MatchResult result
        (λ p. rows_applied holdings.now.content rows.now ≡ Ok (applied holdings.now.content p.edits))
        (IfRule (λ rule. rows_applied holdings.now.content rows.now ≡ Err rule)) }
    ensures few { IfOk result (λ p. AreOfRows rows.now p.edits) }
    ensures consistent { IfOk result (λ p. IsConsistent (applied holdings.now.content p.edits)) }
    ensures records { IfOk result (λ p. p.records ≡ len (applied holdings.now.content p.edits)) }
{
    let mut progress = Progress {
        edits: Edits::with_capacity(alloc, holdings.hasher(), rows.len())?,
        records: holdings.len(),
    };
    for row in rows {
        add_row(alloc, holdings, &mut progress, row)?;
    }
    Ok(progress)
}

// Makes a row's change on top of the edits so far, where it breaks no rule.
fn add_row(
    alloc: Global,
    holdings: &Holdings,
    progress: &mut Progress,
    row: &Row,
) -> Result<(), PlanRefusal>
    requires consistent { IsConsistent (applied holdings.now.content progress.old.edits) }
    requires well_formed { IsWellFormed row.now }
    requires records { progress.old.records ≡ len (applied holdings.now.content progress.old.edits) }
    requires fits { progress.old.records + 1 < 2 ^ 64 }
    ensures fault { MatchResult result
        (λ _. row_fault (applied holdings.now.content progress.old.edits) row.now ≡ None)
        (IfRule (λ rule. row_fault (applied holdings.now.content progress.old.edits) row.now ≡ Some rule)) }
    ensures added { OnOk result (applied holdings.now.content progress.new.edits ≡ after_row
        (applied holdings.now.content progress.old.edits) row.now) }
    ensures keys { OnOk result (ChangesAlso (key_of row.now.form) progress.old.edits progress.new.edits) }
    ensures consistent { OnOk result (IsConsistent (applied holdings.now.content progress.new.edits)) }
    ensures records { OnOk result (progress.new.records ≡ len
        (applied holdings.now.content progress.new.edits)) }
    ensures bound { progress.new.records ≤ progress.old.records + 1 }
{
    if let Some(rule) = row_fault(&Draft::of(holdings, &progress.edits), row) {
        return Err(PlanRefusal::Rule(rule));
    }
    let change = record_of(alloc, &row.form)?;
    progress.edits.put(key_of(&row.form), change)?;
    progress.records = count_after(row.act, progress.records);
    Ok(())
}

// How many records there are after a row that keeps the rule of presence.
fn count_after(act: Act, records: usize) -> usize
    requires { records + 1 < 2 ^ 64 }
    ensures { result ≡ count_after act records }
{
    match act {
        Act::Enter => records + 1,
        Act::Correct => records,
        Act::Withdraw => records.saturating_sub(1),
    }
}

// Whether the records with all edits made keep the rules that see them whole.
fn judge(
    alloc: Global,
    holdings: &Holdings,
    progress: &Progress,
    rest: Option<Rule>,
    kept_bytes: u64,
) -> Result<(), PlanRefusal>
    requires workbook { IsWorkbook holdings.now.content }
    requires consistent { IsConsistent (applied holdings.now.content progress.now.edits) }
    requires records { progress.now.records ≡ len (applied holdings.now.content progress.now.edits) }
    ensures judged { MatchResult result
        (λ _. judged rest kept_bytes (applied holdings.now.content progress.now.edits) ≡ Ok
        (applied holdings.now.content progress.now.edits))
        (IfRule (λ rule. judged rest kept_bytes
        (applied holdings.now.content progress.now.edits) ≡ Err rule)) }
    ensures workbook { OnOk result (IsWorkbook (applied holdings.now.content progress.now.edits)) }
{
    if let Some(rule) = rest {
        return Err(PlanRefusal::Rule(rule));
    }
    let edits = &progress.edits;
    if let Some(place) = unsound_place(alloc, holdings, edits) {
        return Err(PlanRefusal::Rule(Rule::BadBinding(place.line, place.parameter)));
    }
    let draft = Draft::of(holdings, edits);
    let lines = draft.lines(alloc)?.len();
    if let Some(rule) = limit_fault(&draft, lines, progress.records, kept_bytes) {
        return Err(PlanRefusal::Rule(rule));
    }
    Ok(())
}
