//! What is noted for the totals while nodes are evaluated.

ghost use Rattle.std.specs.Prelude.{◌≡◌, ◌+◌, ◌<◌, [], length, slice_get, Some, IfOk, OnOk, take};
ghost use Rattle.std.specs.List.{IsDistinct, list_any};
ghost use Rattle.std.specs.List.Sorted.{IsStrictlySortedBy};
ghost use Rattle.std.specs.Ordering.{eq_by_cmp};
ghost use Rattle.ghg_units.specs.declared.node.Node.{Node};
ghost use Rattle.ghg_affected.specs.Counts.{StandOnce};
ghost use Rattle.ghg_definitions.specs.Compilation.{compilation};
ghost use Rattle.ghg_definitions.specs.Data.{key_cmp};
ghost use Rattle.ghg_definitions.specs.Nodes.{node_cmp};
ghost use Rattle.ghg_definitions.specs.Trials.{or_blank};
ghost use Rattle.ghg_shifts.specs.Progress.{IsEdit};
ghost use Rattle.ghg_engine.specs.Notes.{AreNotes};

use crate::change::Change;
use ghg_cell::Input;
use ghg_data::Records;
use ghg_definitions::RecordKey;
use ghg_evaluation::{Reader, emitted_at, kept_input};
use ghg_interval::Over;
use ghg_shifts::Shifts;
use ghg_units::{Name, Node};
use std::alloc::{AllocError, Global};
use std::collections::BTreeSet;

/// The shifts of the totals so far, and the lines that are edited.
#[derive(Drop)]
pub(crate) struct Notes {
    pub(crate) shifts: Shifts,
    edited: BTreeSet<Name>,
}

impl Notes {
    /// The edited lines are noted: what each gave in a year goes from where the line stood. Unless its
    /// equivalent is one of the nodes, which are to be evaluated, it comes to where the line stands.
    pub(crate) fn of<R: Records, C: ghg_graph::Cells>(
        alloc: Global,
        change: &Change<'_, R, C>,
        nodes: &[Node],
    ) -> Result<Notes, AllocError>
        requires edit { IsEdit (C.content change.now.before.now) (R.content change.now.records.now)
            change.now.keys.now nodes.now }
        requires differ { IsDistinct (eq_by_cmp key_cmp) change.now.keys.now }
        requires order { IsStrictlySortedBy node_cmp nodes.now }
        ensures { IfOk result (AreNotes (C.content change.now.before.now) (R.content change.now.records.now)
            change.now.keys.now nodes.now []) }
    {
        let mut notes = Notes {
            shifts: Shifts::new(alloc),
            edited: BTreeSet::new(alloc),
        };
        for place in 0..change.keys.len() {
            notes.note_key(change, place, nodes)?;
        }
        Ok(notes)
    }

    // Notes the line whose record a key is, if it is one of a line.
    fn note_key<R: Records, C: ghg_graph::Cells>(
        &mut self,
        change: &Change<'_, R, C>,
        place: usize,
        nodes: &[Node],
    ) -> Result<(), AllocError>
        requires edit { IsEdit (C.content change.now.before.now) (R.content change.now.records.now)
            change.now.keys.now nodes.now }
        requires differ { IsDistinct (eq_by_cmp key_cmp) change.now.keys.now }
        requires order { IsStrictlySortedBy node_cmp nodes.now }
        requires place { place < length change.now.keys.now }
        requires notes { AreNotes (C.content change.now.before.now) (R.content change.now.records.now)
            (take place change.now.keys.now) nodes.now [] self.old }
        ensures { OnOk result (AreNotes (C.content change.now.before.now) (R.content change.now.records.now)
            (take (place + 1) change.now.keys.now) nodes.now [] self.new) }
    {
        let RecordKey::Line(name) = &change.keys[place] else {
            return Ok(());
        };
        self.edited.insert(*name)?;
        let stood = emitted_at(change.before.book(), name);
        if stood.is_none() {
            // It gave nothing, and the equivalents that it has now are all among the nodes.
            return Ok(());
        }
        let Some(years) = change.records.span() else {
            return Ok(());
        };
        let stands = emitted_at(change.records, name);
        for year in years.first..years.last + 1 {
            let node = Node::Equiv(*name, year);
            let kept = kept_input(change.before, &node);
            self.shifts.note_gone(year, stood, &kept)?;
            if !is_given(nodes, &node) {
                self.shifts.note_come(year, stands, Ok(kept))?;
            }
        }
        Ok(())
    }

    /// Notes the outcome of a node, if that is an equivalent: it comes to where the line stands. What it was
    /// goes, unless the line is edited, whose equivalents are gone already.
    pub(crate) fn note<R: Records, C: ghg_graph::Cells>(
        &mut self,
        change: &Change<'_, R, C>,
        reader: &mut Reader<'_, R>,
        nodes: &[Node],
        place: usize,
        outcome: Result<Input, Over>,
    ) -> Result<(), AllocError>
        requires edit { IsEdit (C.content change.now.before.now) (R.content change.now.records.now)
            change.now.keys.now nodes.now }
        requires reader { reader.old ≡ change.now.records.now }
        requires once { StandOnce nodes.now }
        requires place { place < length nodes.now }
        requires outcome { (n : Node) → slice_get nodes.now place ≡ Some n →
            outcome ≡ or_blank (compilation (R.content change.now.records.now) n) }
        requires notes { AreNotes (C.content change.now.before.now) (R.content change.now.records.now)
            change.now.keys.now nodes.now (take place nodes.now) self.old }
        ensures same { reader.new ≡ reader.old }
        ensures notes { OnOk result (AreNotes (C.content change.now.before.now)
            (R.content change.now.records.now) change.now.keys.now nodes.now (take (place + 1) nodes.now)
            self.new) }
    {
        let node = &nodes[place];
        let Node::Equiv(name, year) = node else {
            return Ok(());
        };
        let stands = reader.emitted_at(name);
        if self.edited.contains(name) {
            return self.shifts.note_come(*year, stands, outcome);
        }
        let kept = kept_input(change.before, node);
        self.shifts.note_gone(*year, stands, &kept)?;
        self.shifts.note_come(*year, stands, outcome)
    }
}

// Whether a node is one of others, which are in order.
fn is_given(nodes: &[Node], node: &Node) -> bool
    requires { IsStrictlySortedBy node_cmp nodes.now }
    ensures { result ≡ list_any (eq_by_cmp node_cmp node.now) nodes.now }
{
    nodes.binary_search(node).is_ok()
}
