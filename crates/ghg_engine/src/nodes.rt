//! The nodes of a workbook.

ghost use Rattle.std.specs.Prelude.{◌≡◌, is_some};
ghost use Rattle.ghg_definitions.specs.Compilation.{emits, is_node, is_year_of};
ghost use Rattle.ghg_definitions.specs.Data.{line, span};

use ghg_columns::year_of;
use ghg_data::Records;
use ghg_equations::equation;
use ghg_graph::is_in_tree;
use ghg_units::{Name, Node};

/// Whether it is a node of a workbook.
pub(crate) fn is_node<R: Records>(records: &R, node: &Node) -> bool
    ensures { result ≡ is_node (R.content records.now) node.now }
{
    let has_year = is_year(records, year_of(node));
    match node {
        Node::Line(name, _) => is_line(records, name) && has_year,
        Node::Equiv(name, _) => emits(records, name) && has_year,
        Node::Total(category, _) => is_in_tree(*category) && has_year,
        Node::Gross(_) => has_year,
    }
}

// Whether a year is one of the inventory's.
fn is_year<R: Records>(records: &R, year: u32) -> bool
    ensures { result ≡ is_year_of (span (R.content records.now)) year }
{
    match records.span() {
        Some(span) => span.first <= year && year <= span.last,
        None => false,
    }
}

/// Whether a line is present.
pub(crate) fn is_line<R: Records>(records: &R, name: &Name) -> bool
    ensures { result ≡ is_some (line (R.content records.now) name.now) }
{
    records.line(name).is_some()
}

/// Whether a line emits a gas.
pub(crate) fn emits<R: Records>(records: &R, name: &Name) -> bool
    ensures { result ≡ emits (R.content records.now) name.now }
{
    match records.line(name) {
        Some((_, id)) => equation(id).output.gas().is_some(),
        None => false,
    }
}
