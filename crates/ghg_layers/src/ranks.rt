//! Ranks of nodes: by one above the greatest rank of a node's given inputs.

ghost use Rattle.std.specs.Prelude.{◌≡◌, ◌<◌, ◌≤◌, ◌+◌, ◌-◌, ◌^◌, ℕ, length, IfOk, OnOk};
ghost use Rattle.std.specs.List.Sorted.{IsSorted, IsStrictlySortedBy};
ghost use Rattle.ghg_categories.specs.Places.{place_of};
ghost use Rattle.ghg_units.specs.declared.node.Node.{Node};
ghost use Rattle.ghg_layers.specs.declared.turns.Turn.{Turn};
ghost use Rattle.ghg_definitions.specs.Data.{Data, category};
ghost use Rattle.ghg_definitions.specs.Listed.{IsListed};
ghost use Rattle.ghg_definitions.specs.Nodes.{node_cmp, year_in};
ghost use Rattle.ghg_definitions.specs.Rings.{IsAcyclic};
ghost use Rattle.ghg_layers.specs.Grids.{cell, height};
ghost use Rattle.ghg_layers.specs.Layers.{AreDistinctNodes};
ghost use Rattle.ghg_layers.specs.Lines.{AreLines};
ghost use Rattle.ghg_layers.specs.Ranks.{AreLineRanks, AreOwn, AreRanks, IsRaised, IsRanking, KeepsLines, last, last_of, line_rank, rank_in, sum_rank};
ghost use Rattle.ghg_layers.specs.Turns.{IsTurnOf, turn_order};

use crate::grid::Grid;
use crate::lines::{Lines, lines_of};
use crate::turns::{Turn, turns_of};
use ghg_categories::{Category, all};
use ghg_data::Records;
use ghg_graph::{Scope, first_year, is_within, number_of};
use ghg_units::{Name, Node};
use std::alloc::{AllocError, Global};

/// The ranks of given nodes: 1 if no input is given, and else by one above the greatest of its given inputs'
/// ranks.
#[derive(Drop)]
pub(crate) struct Ranks {
    first: u32,
    names: Vec<Name>,
    // For each line its ranks.
    lines: Grid,
    // For each category the greatest ranks of given equivalents of lines at the category itself.
    own: Grid,
}

// How many categories there are, with those outside the tree.
const CATEGORIES: usize = 79;

/// The ranks of nodes in node order.
pub(crate) fn ranks_of<R: Records>(
    alloc: Global,
    records: &R,
    nodes: &[Node],
) -> Result<Ranks, AllocError>
    requires nodes { AreDistinctNodes (R.content records.now) nodes.now }
    requires order { IsStrictlySortedBy node_cmp nodes.now }
    requires acyclic { IsAcyclic (R.content records.now) }
    ensures ranking { IfOk result IsRanking }
    ensures first { IfOk result (λ ranks. (n : Node) → IsListed n nodes.now → ranks.first ≤ year_in n) }
    ensures ranks { IfOk result (λ ranks. AreRanks (R.content records.now) nodes.now (rank_in ranks)) }
{
    let first = first_year(records);
    let lines = lines_of(alloc, records, nodes)?;
    let turns = turns_of(alloc, &lines, first, nodes)?;
    let ranked = rank_lines(alloc, &lines, &turns)?;
    let mut ranks = Ranks {
        first,
        names: lines.names,
        lines: ranked,
        own: Grid::new(alloc, CATEGORIES)?,
    };
    ranks.add_equivalents(records, nodes)?;
    Ok(ranks)
}

// ---- lines

fn rank_lines(alloc: Global, lines: &Lines, turns: &[Turn]) -> Result<Grid, AllocError>
    requires lines { (m : Data) × AreLines m lines.now }
    requires turns { (t : Turn) → IsListed t turns.now → IsTurnOf lines.now t }
    requires sorted { IsSorted turn_order turns.now }
    requires fits { length turns.now < 2 ^ 63 }
    ensures { IfOk result (AreLineRanks lines.now turns.now) }
{
    let mut ranks = Grid::new(alloc, lines.names.len())?;
    for turn in turns {
        let rank = last(lines, &ranks, turn) + 1;
        ranks.set(turn.number, turn.year, rank)?;
    }
    Ok(ranks)
}

// The greatest rank of those that a line takes; 0 where none has one.
fn last(lines: &Lines, ranks: &Grid, turn: &Turn) -> usize
    requires lines { (m : Data) × AreLines m lines.now }
    requires number { turn.now.number < length lines.now.names.items }
    requires height { height ranks.now ≡ length lines.now.names.items }
    ensures { result ≡ last lines.now ranks.now turn.now.number turn.now.year }
{
    let last = last_of(ranks, lines.links.targets(turn.number), turn.year);
    if turn.year == 0 {
        return last;
    }
    last.max(last_of(ranks, lines.previous.targets(turn.number), turn.year - 1))
}

fn last_of(ranks: &Grid, numbers: &[usize], year: usize) -> usize
    requires { (number : ℕ) → IsListed number numbers.now → number < height ranks.now }
    ensures { result ≡ last_of ranks.now numbers.now year }
{
    let mut last = 0_usize;
    for number in numbers {
        last = last.max(ranks.get(*number, year));
    }
    last
}

impl Ranks {
    /// The rank of a given node. The guess is tried first as the number of the node's line, and becomes it.
    pub(crate) fn rank(&self, guess: &mut usize, node: &Node) -> usize
        requires ranks { IsRanking self.now }
        requires year { self.now.first ≤ year_in node.now }
        ensures { result ≡ rank_in self.now node.now }
    {
        match node {
            Node::Line(name, year) => self.line_rank(guess, name, *year),
            Node::Equiv(name, year) => self.line_rank(guess, name, *year) + 1,
            Node::Total(top, year) => self.sum_rank(&Scope::Under(*top), *year) + 1,
            Node::Gross(year) => self.sum_rank(&Scope::Gross, *year) + 1,
        }
    }

    // The rank of a line in a year; 0 where it is not given.
    fn line_rank(&self, guess: &mut usize, name: &Name, year: u32) -> usize
        requires ranks { IsRanking self.now }
        requires year { self.now.first ≤ year }
        ensures { result ≡ line_rank self.now name.now year }
    {
        match number_of(&self.names, *guess, name) {
            None => 0,
            Some(number) => {
                *guess = number;
                self.lines.get(number, (year - self.first) as usize)
            }
        }
    }

    // ---- totals

    // The greatest rank of given equivalents of lines at the categories whose lines the total adds. The rank
    // is compared first, since most are 0 and the test of a category takes longer.
    fn sum_rank(&self, scope: &Scope, year: u32) -> usize
        requires ranks { IsRanking self.now }
        requires year { self.now.first ≤ year }
        ensures { result ≡ sum_rank self.now scope.now year }
    {
        let offset = (year - self.first) as usize;
        let mut last = 0_usize;
        for category in all() {
            let rank = self.own.get(place(*category), offset);
            if rank > last && is_within(scope, *category) {
                last = rank;
            }
        }
        last
    }

    // Takes in the ranks of the equivalents among the nodes.
    fn add_equivalents<R: Records>(&mut self, records: &R, nodes: &[Node]) -> Result<(), AllocError>
        requires ranks { IsRanking self.old }
        requires years { (n : Node) → IsListed n nodes.now → self.old.first ≤ year_in n }
        requires none { (row year : ℕ) → cell self.old.own row year ≡ 0 }
        ensures ranks { OnOk result (IsRanking self.new) }
        ensures own { OnOk result (AreOwn (R.content records.now) nodes.now self.new) }
        ensures kept { KeepsLines self.old self.new }
    {
        let mut guess = 0;
        for node in nodes {
            if let Node::Equiv(name, year) = node {
                let rank = self.line_rank(&mut guess, name, *year) + 1;
                self.raise(records, name, *year, rank)?;
            }
        }
        Ok(())
    }

    // Takes the rank of an equivalent into those at the line's category.
    fn raise<R: Records>(
        &mut self,
        records: &R,
        name: &Name,
        year: u32,
        rank: usize,
    ) -> Result<(), AllocError>
        requires ranks { IsRanking self.old }
        requires year { self.old.first ≤ year }
        ensures kept { KeepsLines self.old self.new }
        ensures height { height self.new.own ≡ height self.old.own }
        ensures own { OnOk result (IsRaised (category (R.content records.now) name.now)
            (year - self.old.first) rank self.old.own self.new.own) }
    {
        let Some((category, _)) = records.line(name) else {
            return Ok(());
        };
        let offset = (year - self.first) as usize;
        if rank > self.own.get(place(category), offset) {
            self.own.set(place(category), offset, rank)?;
        }
        Ok(())
    }
}

// The place of a category among all.
fn place(category: Category) -> usize
    ensures place { result ≡ place_of category }
    ensures within { result < 79 }
{
    category as usize
}
