//! How far the evaluation of nodes has come.

ghost use Rattle.std.specs.Prelude.{◌≡◌, ◌+◌, ◌<◌, ◌≤◌, ℕ, length, slice_index_or, IsSome, None, OnOk, Some};
ghost use Rattle.ghg_affected.specs.Counts.{StandOnce};
ghost use Rattle.ghg_definitions.specs.Nodes.{lesser_node};
ghost use Rattle.ghg_shifts.specs.Progress.{IsEdit};
ghost use Rattle.ghg_engine.specs.Evaluation.{least_with};
ghost use Rattle.ghg_engine.specs.Layers.{AreOutcomesFrom, IsOutcomeAt};
ghost use Rattle.ghg_engine.specs.Progress.{HasCome};

use crate::change::Change;
use crate::notes::Notes;
use ghg_cell::{Input, Value};
use ghg_columns::Overlay;
use ghg_data::Records;
use ghg_evaluation::Reader;
use ghg_interval::Over;
use ghg_shifts::Evaluated;
use ghg_units::Node;
use std::alloc::{AllocError, Global};
use std::cmp::Ordering;

/// The cells of the nodes that are evaluated, over those that are kept; what is noted of them for the totals;
/// and the least of them that is over while none of its inputs is.
#[derive(Drop)]
pub(crate) struct Progress<'a> {
    pub(crate) cells: Overlay<'a>,
    pub(crate) notes: Notes,
    pub(crate) least: Option<Node>,
}

impl<'a> Progress<'a> {
    /// Takes in what the nodes from a place on gave, in their order.
    pub(crate) fn take_in<R: Records, C: ghg_graph::Cells>(
        &mut self,
        alloc: Global,
        change: &Change<'_, R, C>,
        nodes: &[Node],
        start: usize,
        outcomes: Vec<Option<Evaluated>>,
    ) -> Result<(), AllocError>
        requires edit { IsEdit (C.content change.now.before.now) (R.content change.now.records.now)
            change.now.keys.now nodes.now }
        requires once { StandOnce nodes.now }
        requires within { start + length outcomes.items ≤ length nodes.now }
        requires outcomes { AreOutcomesFrom (R.content change.now.records.now) nodes.now start
            outcomes.items }
        requires progress { HasCome (C.content change.now.before.now) (R.content change.now.records.now)
            change.now.keys.now nodes.now start self.old }
        ensures { OnOk result (HasCome (C.content change.now.before.now) (R.content change.now.records.now)
            change.now.keys.now nodes.now (start + length outcomes.items) self.new) }
    {
        let mut reader = Reader::new(alloc, change.records);
        let mut outcomes = outcomes;
        for at in 0..outcomes.len() {
            let evaluated = taken(&mut outcomes, at);
            self.take_one(change, &mut reader, nodes, start + at, evaluated)?;
        }
        Ok(())
    }

    // Takes in what the node at a place gave.
    fn take_one<R: Records, C: ghg_graph::Cells>(
        &mut self,
        change: &Change<'_, R, C>,
        reader: &mut Reader<'_, R>,
        nodes: &[Node],
        place: usize,
        evaluated: Evaluated,
    ) -> Result<(), AllocError>
        requires edit { IsEdit (C.content change.now.before.now) (R.content change.now.records.now)
            change.now.keys.now nodes.now }
        requires reader { reader.old ≡ change.now.records.now }
        requires once { StandOnce nodes.now }
        requires place { place < length nodes.now }
        requires outcome { IsOutcomeAt (R.content change.now.records.now) nodes.now place evaluated }
        requires progress { HasCome (C.content change.now.before.now) (R.content change.now.records.now)
            change.now.keys.now nodes.now place self.old }
        ensures same { reader.new ≡ reader.old }
        ensures progress { OnOk result (HasCome (C.content change.now.before.now)
            (R.content change.now.records.now) change.now.keys.now nodes.now (place + 1) self.new) }
    {
        let node = &nodes[place];
        self.least = least_with(&self.least, evaluated.breaks, node);
        let outcome = input_of(&evaluated.outcome);
        self.notes.note(change, reader, nodes, place, outcome)?;
        self.cells.insert(node, evaluated.outcome)
    }
}

// What a slot has, which is empty from then on.
fn taken(outcomes: &mut Vec<Option<Evaluated>>, at: usize) -> Evaluated
    requires { IsSome (slice_index_or outcomes.old.items at None) }
    ensures taken { Some result ≡ slice_index_or outcomes.old.items at None }
    ensures later { (k : ℕ) → at < k →
        slice_index_or outcomes.new.items k None ≡ slice_index_or outcomes.old.items k None }
    ensures long { length outcomes.new.items ≡ length outcomes.old.items }
{
    match outcomes[at].take() {
        Some(evaluated) => evaluated,
        None => unreachable!(),
    }
}

// What the outcome of a node is for other nodes.
fn input_of(outcome: &Result<Value, Over>) -> Result<Input, Over>
    ensures { result ≡ outcome.now }
{
    match outcome {
        Ok(value) => Ok(*value.input()),
        Err(Over) => Err(Over),
    }
}

// The lesser of the two where the node breaks.
fn least_with(least: &Option<Node>, breaks: bool, node: &Node) -> Option<Node>
    ensures { result ≡ least_with least.now breaks node.now }
{
    if breaks {
        Some(lesser(node, least))
    } else {
        *least
    }
}

fn lesser(node: &Node, least: &Option<Node>) -> Node
    ensures { result ≡ lesser_node node.now least.now }
{
    match least {
        Some(other) if node.cmp(other) == Ordering::Greater => *other,
        _ => *node,
    }
}
