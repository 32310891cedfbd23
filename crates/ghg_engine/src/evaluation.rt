//! The evaluation of nodes, layer by layer.

ghost use Rattle.std.specs.Prelude.{◌≡◌, ◌+◌, ◌≤◌, [], length, MatchResult};
ghost use Rattle.ghg_columns.specs.Cells.{cell_at};
ghost use Rattle.ghg_columns.specs.Fresh.{fresh_at};
ghost use Rattle.ghg_shifts.specs.Progress.{IsEdit};
ghost use Rattle.ghg_engine.specs.Evaluation.{AreEvaluated, AreInTurn, AreKept, NamesLeastBreak, UnlessMemory};
ghost use Rattle.ghg_engine.specs.Layers.{AreLayersOfSome};
ghost use Rattle.ghg_engine.specs.Notes.{AreNotes};

use crate::change::Change;
use crate::layer::NodesOfLayer;
use crate::notes::Notes;
use crate::progress::Progress;
use crate::refusal::EngineRefusal;
use ghg_columns::{Cells, FreshCells, Overlay, year_of};
use ghg_data::Records;
use ghg_layers::Layers;
use ghg_steps::Steps;
use ghg_units::Node;
use ghg_workers::{Gate, Workers, evaluate_layer};
use std::alloc::Global;
use std::sync::ledger::Ledger;
use std::thread::Threads;

/// The cells of nodes, evaluated layer by layer over the others and over cells that are kept, which are right
/// at all other nodes of the workbook; or the least of them that is over while none of its inputs is. No node
/// is left out, also once one breaks. The edited lines are noted already.
pub(crate) fn evaluate_all<
    'a,
    R: Records + Sync,
    C: ghg_graph::Cells + Sync,
    G: Gate,
    T: Threads + Sync,
    L: Ledger,
>(
    alloc: Global,
    workers: &Workers<'_, T, G>,
    change: &Change<'a, R, C>,
    kept: &'a Cells,
    notes: Notes,
    layers: &'a Layers,
    steps: &mut Steps<L>,
) -> Result<FreshCells, EngineRefusal>
    requires workers { (1 ≤ workers.now.count) × (workers.now.count ≤ 64) }
    requires edit { IsEdit (C.content change.now.before.now) (R.content change.now.records.now)
        change.now.keys.now layers.now.nodes.items }
    requires turn { AreInTurn (R.content change.now.records.now) layers.now.nodes.items }
    requires layers { AreLayersOfSome (R.content change.now.records.now) layers.now }
    requires few { length layers.now.nodes.items ≤ 1000000000 }
    requires kept { AreKept (R.content change.now.records.now) layers.now.nodes.items (cell_at kept.now) }
    requires notes { AreNotes (C.content change.now.before.now) (R.content change.now.records.now)
        change.now.keys.now layers.now.nodes.items [] notes }
    ensures evaluated { MatchResult result
        (λ fresh. AreEvaluated (R.content change.now.records.now) layers.now.nodes.items (fresh_at fresh))
        (NamesLeastBreak (R.content change.now.records.now) layers.now.nodes.items) }
    ensures steps { steps.new ≤ steps.old + length layers.now.nodes.items }
    ensures spent { UnlessMemory result (steps.new ≡ steps.old + length layers.now.nodes.items) }
{
    let all = layers.nodes.as_slice();
    let ends = layers.ends.as_slice();
    let (first, last) = years_of(all);
    let cells = Overlay::over(alloc, kept, first, last);
    let mut progress = Progress {
        cells,
        notes,
        least: None,
    };
    let mut start = 0;
    for layer in 0..ends.len() {
        let end = ends[layer];
        let part = &all[start..end];
        let nodes = NodesOfLayer {
            records: change.records,
            before: change.before,
            nodes: part,
            cells: &progress.cells,
            shifts: &progress.notes.shifts,
        };
        let outcomes = evaluate_layer(alloc, workers, &nodes, start as u64, steps)?;
        progress.take_in(alloc, change, all, start, outcomes)?;
        start = end;
    }
    let Progress { cells, least, .. } = progress;
    match least {
        None => Ok(cells.into_fresh()),
        Some(node) => Err(EngineRefusal::Overflow(node)),
    }
}

// The first and the last year of nodes.
fn years_of(nodes: &[Node]) -> (u32, u32) {
    let first = nodes.iter().map(|node| year_of(node)).min().unwrap_or(0);
    let last = nodes.iter().map(|node| year_of(node)).max().unwrap_or(0);
    (first, last)
}
