//! A book with its cells.

ghost use Rattle.std.specs.Prelude.{◌≡◌, ◌≤◌, ◌+◌, length, IfOk, MatchResult, OnOk};
ghost use Rattle.std.specs.FinMap as finite;
ghost use Rattle.std.specs.List.{AllByRecursion};
ghost use Rattle.ghg_columns.specs.Fresh.{HasRoomFor};
ghost use Rattle.ghg_units.specs.WellFormed.{IsWellFormed};
ghost use Rattle.ghg_definitions.specs.Compilation.{compilation};
ghost use Rattle.ghg_definitions.specs.Containment.{HoldsExactValues};
ghost use Rattle.ghg_definitions.specs.Rows.{after};
ghost use Rattle.ghg_definitions.specs.Rules.{arranged};
ghost use Rattle.ghg_definitions.specs.Trials.{value_of};
ghost use Rattle.ghg_data.specs.Changes.{AreOfRows, applied};
ghost use Rattle.ghg_data.specs.Refusal.{IsPlanOf};
ghost use Rattle.ghg_search.specs.Found.{ListsAffected};
ghost use Rattle.ghg_search.specs.Index.{HasUsers};
ghost use Rattle.ghg_engine.specs.Evaluation.{UnlessMemory};
ghost use Rattle.ghg_engine.specs.Proposals.{IsArranged, IsFresh, IsMadeOn};
ghost use Rattle.ghg_engine.specs.Proposals.{NamesOverflow, Proposes, affected_count};
ghost use Rattle.ghg_engine.specs.Views.{shelf_of};

use crate::change::Change;
use crate::evaluation::evaluate_all;
use crate::nodes::is_node;
use crate::notes::Notes;
use crate::proposal::Proposal;
use crate::refusal::EngineRefusal;
use crate::withdrawn::drop_withdrawn;
use ghg_cell::Value;
use ghg_columns::{Cells, FreshCells};
use ghg_data::{Book, Edits, PlanRefusal, after};
use ghg_graph::{CycleRefusal, check_changed};
use ghg_layers::layers;
use ghg_search::{Index, affected};
use ghg_steps::Steps;
use ghg_units::{Node, Row, Rule};
use ghg_workers::{Gate, Workers};
use std::alloc::{AllocError, Global};
use std::hash::RandomState;
use std::marker::Model;
use std::sync::ledger::Ledger;
use std::thread::Threads;

/// The records of a workbook and their compilation, in which nothing is over. Contracts see what they see of
/// its book, its cells and its index.
#[derive(Drop)]
pub struct Engine {
    book: Book,
    // Some of the cells may be of nodes that there are no more: of years that have left the inventory. Others
    // are places for a proposal.
    cells: Cells,
    // That of the book. It may name lines for edits that were not made.
    index: Index,
}

impl Model for Engine {
    ghost use Rattle.std.specs.Coded.{codes};
    ghost use Rattle.ghg_columns.specs.contracts.cells.Cells as kept;
    ghost use Rattle.ghg_columns.specs.Cells.{cell_at};
    ghost use Rattle.ghg_search.specs.contracts.index.Index as named;
    ghost use Rattle.ghg_search.specs.Index.{HasUsers};
    ghost use Rattle.ghg_engine.specs.Compiled.{IsCompiled};
    ghost use Rattle.ghg_engine.specs.Views.{EngineView, engine_code};

    ghost Value = { EngineView };

    ghost coded = { engine_code (Prim.hlevel codes) (Prim.hlevel codes)
        kept.the_row.coded named.the_row.coded };

    ghost view = { λ e. record {
      content = e.book.content;
      spare = e.book.spare;
      cells = e.cells;
      index = e.index;
    } };

    ghost invariant = { λ e. IsCompiled e.book.content (cell_at e.cells) × HasUsers e.book.content e.index };
}

impl ghg_graph::Cells for Engine {
    ghost content = { λ e. e.content };

    fn book(&self) -> &Book {
        &self.book
    }

    fn value(&self, node: &Node) -> Option<&Value> {
        if is_node(&self.book, node) {
            self.cells.get(node)
        } else {
            None
        }
    }
}

impl Engine {
    /// A workbook without records. Its maps hash with `hasher`. It takes no memory.
    pub fn new(alloc: Global, hasher: RandomState) -> Engine
        ensures { result.content ≡ finite.empty }
    {
        Engine {
            book: Book::new(alloc, hasher),
            cells: Cells::new(alloc),
            index: Index::new(alloc),
        }
    }

    /// What the rows of a submission make of the book: the edits, with room made for them, where no rule is
    /// broken.
    ///
    /// `rest` is the rule that stopped the reading of the rows, and `kept_bytes` how many bytes all kept
    /// bodies have with this one. The first rule that is broken is answered: that of the first row that
    /// breaks one on units or presence, `rest`, the least unsound binding, the first limit, and the least
    /// line on a ring. Each key of the edits is that of some row, and there are no more edits than rows. The
    /// records stay with every answer. A ring is searched among the lines that the edits are about, those
    /// that they take, and so on; edits of figures alone lead to no line.
    pub fn plan(
        &mut self,
        alloc: Global,
        rows: &[Row],
        rest: Option<Rule>,
        kept_bytes: u64,
    ) -> Result<Edits, PlanRefusal>
        requires { AllByRecursion IsWellFormed rows.now }
        ensures kept { self.new.content ≡ self.old.content }
        ensures planned { IsPlanOf (arranged self.old.content rows.now rest kept_bytes)
            self.old.content result }
        ensures after { IfOk result (λ edits. applied self.old.content edits ≡ after
            self.old.content rows.now) }
        ensures few { IfOk result (AreOfRows rows.now) }
        ensures ready { IfOk result (IsArranged self.new) }
    {
        let edits = match self.book.plan(alloc, rows, rest, kept_bytes) {
            Ok(edits) => edits,
            Err(refusal) => return Err(refusal),
        };
        match check_changed(alloc, &self.book, &edits) {
            Ok(()) => Ok(edits),
            Err(CycleRefusal::Ring(ring)) => Err(PlanRefusal::Rule(Rule::Cycle(ring.least()))),
            Err(CycleRefusal::Memory) => Err(PlanRefusal::Memory),
        }
    }

    /// The compilation of the book with edits that were planned on it as it stands; or the least node that is
    /// beyond the limits, while none of its inputs is. It spends one step for each node that the edits
    /// affect, also where some overflow, and fewer only if memory runs out. The nodes are evaluated layer by
    /// layer, by so many workers, and `gate` is told of each before; the answer depends on neither. The book
    /// and the outcomes of its nodes stay with every answer; only room is made, and the index may name lines
    /// for these edits. So nothing has to be undone after a refusal, or where a proposal is dropped.
    pub fn propose<G: Gate, T: Threads + Sync, L: Ledger>(
        &mut self,
        rt: &T,
        alloc: Global,
        edits: Edits,
        workers: u32,
        gate: &G,
        steps: &mut Steps<L>,
    ) -> Result<Proposal, EngineRefusal>
        requires arranged { IsArranged self.old edits }
        requires workers { (1 ≤ workers) × (workers ≤ 64) }
        ensures kept { self.new.content ≡ self.old.content }
        ensures steps { steps.new ≤ steps.old + affected_count self.old.content edits }
        ensures spent { UnlessMemory result
            (steps.new ≡ steps.old + affected_count self.old.content edits) }
        ensures proposed { MatchResult result (Proposes self.new edits)
            (NamesOverflow (applied self.old.content edits)) }
        ensures contained { IfOk result (λ p. HoldsExactValues (applied self.old.content p.edits)) }
    {
        let nodes = self.affected(alloc, &edits)?;
        let count = nodes.len() as u64;
        let workers = Workers {
            threads: rt,
            count: workers,
            gate,
        };
        match self.evaluated_with_room(alloc, &workers, &edits, nodes, steps) {
            Ok(fresh) => Ok(Proposal {
                edits,
                fresh,
                cells: count,
            }),
            Err(refusal) => {
                let records = after(&self.book, &edits);
                self.index.prune(&self.book, &records, edits.keys());
                Err(refusal)
            }
        }
    }

    // The nodes that edits affect. First the index grows by what the edited lines name.
    fn affected(&mut self, alloc: Global, edits: &Edits) -> Result<Vec<Node>, AllocError>
        requires { IsArranged self.old edits.now }
        ensures shelf { shelf_of self.new ≡ shelf_of self.old }
        ensures users { OnOk result (HasUsers (applied self.old.content edits.now) self.new.index) }
        ensures nodes { IfOk result (λ nodes. ListsAffected self.old.content
            (applied self.old.content edits.now) nodes.items) }
    {
        self.index.add(&after(&self.book, edits), edits.keys())?;
        affected(alloc, &self.book, edits, &self.index)
    }

    // The cells of the nodes that edits affect, with room for them among the others.
    fn evaluated_with_room<G: Gate, T: Threads + Sync, L: Ledger>(
        &mut self,
        alloc: Global,
        workers: &Workers<'_, T, G>,
        edits: &Edits,
        nodes: Vec<Node>,
        steps: &mut Steps<L>,
    ) -> Result<FreshCells, EngineRefusal>
        requires workers { (1 ≤ workers.now.count) × (workers.now.count ≤ 64) }
        requires arranged { IsArranged self.old edits.now }
        requires nodes { ListsAffected self.old.content (applied self.old.content edits.now) nodes.items }
        ensures steps { steps.new ≤ steps.old + length nodes.items }
        ensures spent { UnlessMemory result (steps.new ≡ steps.old + length nodes.items) }
        ensures shelf { shelf_of self.new ≡ shelf_of self.old }
        ensures index { self.new.index ≡ self.old.index }
        ensures fresh { MatchResult result (IsFresh self.old.content (applied self.old.content edits.now))
            (NamesOverflow (applied self.old.content edits.now)) }
        ensures room { IfOk result (HasRoomFor self.new.cells) }
    {
        let fresh = self.evaluated(alloc, workers, edits, nodes, steps)?;
        self.cells.make_room(&fresh)?;
        Ok(fresh)
    }

    // The cells of the nodes that edits affect, evaluated over the others.
    fn evaluated<G: Gate, T: Threads + Sync, L: Ledger>(
        &self,
        alloc: Global,
        workers: &Workers<'_, T, G>,
        edits: &Edits,
        nodes: Vec<Node>,
        steps: &mut Steps<L>,
    ) -> Result<FreshCells, EngineRefusal>
        requires workers { (1 ≤ workers.now.count) × (workers.now.count ≤ 64) }
        requires arranged { IsArranged self.now edits.now }
        requires nodes { ListsAffected self.now.content (applied self.now.content edits.now) nodes.items }
        ensures steps { steps.new ≤ steps.old + length nodes.items }
        ensures spent { UnlessMemory result (steps.new ≡ steps.old + length nodes.items) }
        ensures fresh { MatchResult result (IsFresh self.now.content (applied self.now.content edits.now))
            (NamesOverflow (applied self.now.content edits.now)) }
    {
        let records = after(&self.book, edits);
        let keys = edits.keys();
        let change = Change {
            records: &records,
            before: self,
            keys,
        };
        let notes = Notes::of(alloc, &change, &nodes)?;
        let layers = layers(alloc, &records, nodes)?;
        evaluate_all(alloc, workers, &change, &self.cells, notes, &layers, steps)
    }

    /// Makes the edits of a proposal that was made on this engine as it stands. It takes no memory, and has
    /// no error to answer.
    pub fn accept(&mut self, proposal: Proposal)
        requires { IsMadeOn self.old proposal }
        ensures made { self.new.content ≡ applied self.old.content proposal.edits }
        ensures contained { HoldsExactValues self.new.content }
    {
        let Proposal { edits, fresh, .. } = proposal;
        self.cells.take(fresh);
        let records = after(&self.book, &edits);
        drop_withdrawn(&mut self.cells, &records, edits.keys());
        self.index.prune(&records, &self.book, edits.keys());
        self.book.commit(edits);
    }
}
