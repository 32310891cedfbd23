//! The inputs of a node.

ghost use Rattle.std.specs.Prelude.{◌≡◌, false, filter, map, option_copied, IfOk};
ghost use Rattle.std.specs.Option.{option_map_or};
ghost use Rattle.ghg_units.specs.declared.node.Node.TheVariants as node;
ghost use Rattle.ghg_definitions.specs.Compilation.{bound_to, counts_in_gross, first_year, gas_lines_at, is_in_tree, line_formula, sheet_of};
ghost use Rattle.ghg_definitions.specs.Data.{line, span};
ghost use Rattle.ghg_definitions.specs.Formulas.{Summed, map_formula, map_operand};
ghost use Rattle.ghg_definitions.specs.Lookups.{given};
ghost use Rattle.ghg_graph.specs.Moves.{emits_at};
ghost use Rattle.ghg_graph.specs.Slots.{is_within, slot_of, slots_of};

use crate::gases::{emits_at, potential};
use crate::nodes::Nodes;
use crate::numbers::equation_of;
use crate::operands::{Operand, bound_operand};
use ghg_categories::{Category, is_under};
use ghg_cell::Input;
use ghg_data::{Records, params_of};
use ghg_units::{Binding, Name, Node};
use std::alloc::{AllocError, Global};

/// An operand of a node's formula.
#[derive(Drop)]
pub enum Slot {
    /// A figure of the records, zero, or a blank.
    Input(Input),
    /// A node's value.
    Node(Node),
    /// The sum of the nodes' values.
    Sum(Nodes),
}

/// The inputs of a node. A line has a slot for each parameter of its equation, in their order. An equivalent
/// has its line and the global warming potential of its gas. A total has the sum of its lines' equivalents by
/// name.
pub fn inputs_of<R: Records>(
    alloc: Global,
    records: &R,
    node: &Node,
) -> Result<Vec<Slot>, AllocError>
    ensures { IfOk result (λ slots. slots.items ≡ slots_of
        (map_formula (given (R.content records.now)) ((sheet_of (R.content records.now)).formula node.now))) }
{
    match node {
        Node::Line(name, year) => line_slots(alloc, records, name, *year),
        Node::Equiv(name, year) => {
            let line = Slot::Node(Node::Line(*name, *year));
            let weight = Slot::Input(potential(records, name, *year));
            Ok(vec![in alloc; line, weight]?)
        }
        Node::Total(top, year) => total_slots(alloc, records, &Scope::Under(*top), *year),
        Node::Gross(year) => total_slots(alloc, records, &Scope::Gross, *year),
    }
}

// ---- lines

fn line_slots<R: Records>(
    alloc: Global,
    records: &R,
    name: &Name,
    year: u32,
) -> Result<Vec<Slot>, AllocError>
    ensures { IfOk result (λ slots. slots.items ≡ slots_of
        (map_formula (given (R.content records.now))
        (line_formula (R.content records.now) (first_year (span (R.content records.now))) name.now year
        (line (R.content records.now) name.now)))) }
{
    let Some(id) = equation_of(records, name) else {
        return one_sum(alloc, Vec::new(alloc));
    };
    let first = first_year(records);
    let mut slots = Vec::new(alloc);
    for param in params_of(id) {
        let binding = records.bound(name, param);
        slots.push(bound_slot(alloc, records, first, binding, year)?)?;
    }
    Ok(slots)
}

fn one_sum(alloc: Global, nodes: Vec<Node>) -> Result<Vec<Slot>, AllocError>
    ensures { IfOk result (λ slots. slots.items ≡ slots_of (Summed nodes.items)) }
{
    let slot = Slot::Sum(Nodes::new(nodes));
    Ok(vec![in alloc; slot]?)
}

/// The first year of the inventory; 0 where the workbook has no years.
pub fn first_year<R: Records>(records: &R) -> u32
    ensures { result ≡ first_year (span (R.content records.now)) }
{
    match records.span() {
        Some(span) => span.first,
        None => 0,
    }
}

// What a binding gives in a year of a span whose first year is `first`.
fn bound_slot<R: Records>(
    alloc: Global,
    records: &R,
    first: u32,
    binding: Option<&Binding>,
    year: u32,
) -> Result<Slot, AllocError>
    ensures { IfOk result (λ slot. slot ≡ slot_of
        (map_operand (given (R.content records.now))
        (bound_to (R.content records.now) first year (option_copied binding.entry)))) }
{
    match bound_operand(records, first, binding, year) {
        Operand::Given(input) => Ok(Slot::Input(input)),
        Operand::Value(node) => Ok(Slot::Node(node)),
        Operand::Sum(names, year) => {
            let nodes = lines_in(alloc, names, year)?;
            Ok(Slot::Sum(Nodes::new(nodes)))
        }
    }
}

// The values of lines in a year.
fn lines_in(alloc: Global, names: &[Name], year: u32) -> Result<Vec<Node>, AllocError>
    ensures { IfOk result (λ nodes. nodes.items ≡ map (λ name. node.Line name year) names.now) }
{
    names
        .iter()
        .map(|name| Node::Line(*name, year))
        .collect(alloc)
}

// ---- totals

/// The categories whose lines a total adds.
#[derive(Clone, Copy, Drop)]
pub enum Scope {
    /// Those at a category and under it.
    Under(Category),
    /// Those of the national total but land.
    Gross,
}

fn total_slots<R: Records>(
    alloc: Global,
    records: &R,
    scope: &Scope,
    year: u32,
) -> Result<Vec<Slot>, AllocError>
    ensures { IfOk result (λ slots. slots.items ≡ slots_of
        (Summed (map (λ name. node.Equiv name year)
        (gas_lines_at (is_within scope.now) (R.content records.now))))) }
{
    let lines = records.lines(alloc)?;
    let nodes = equivalents_at(alloc, records, scope, &lines, year)?;
    one_sum(alloc, nodes)
}

// The equivalents of those of lines that emit a gas within the scope.
fn equivalents_at<R: Records>(
    alloc: Global,
    records: &R,
    scope: &Scope,
    lines: &[Name],
    year: u32,
) -> Result<Vec<Node>, AllocError>
    ensures { IfOk result (λ nodes. nodes.items ≡ map (λ name. node.Equiv name year)
        (filter (λ name. option_map_or (is_within scope.now)
        (emits_at (R.content records.now) name) false) lines.now)) }
{
    lines
        .iter()
        .filter(|name| is_some_within(scope, emits_at(records, name)))
        .map(|name| Node::Equiv(*name, year))
        .collect(alloc)
}

/// Whether there is a category and the scope has it.
pub(crate) fn is_some_within(scope: &Scope, category: Option<Category>) -> bool
    ensures { result ≡ option_map_or (is_within scope.now) category false }
{
    match category {
        Some(category) => is_within(scope, category),
        None => false,
    }
}

/// Whether the scope has a category.
pub fn is_within(scope: &Scope, category: Category) -> bool
    ensures { result ≡ is_within scope.now category }
{
    match scope {
        Scope::Under(top) => is_under(category, *top),
        Scope::Gross => counts_in_gross(category),
    }
}

/// Whether the gross total counts the lines at a category. It leaves out land.
pub fn counts_in_gross(category: Category) -> bool
    ensures { result ≡ counts_in_gross category }
{
    is_under(category, Category::National) && !is_under(category, Category::C3B)
}

/// Whether a category is one of the tree, and so has a total: the memo codes are not.
pub fn is_in_tree(category: Category) -> bool
    ensures { result ≡ is_in_tree category }
{
    !matches!(category, Category::MB | Category::MC | Category::RA)
}
