//! Series of nodes.

ghost use Rattle.std.specs.Prelude.{◌≡◌};
ghost use Rattle.ghg_definitions.specs.Nodes.{year_in};
ghost use Rattle.ghg_columns.specs.Cells.{node_at, series_of};

use ghg_categories::Category;
use ghg_units::{Name, Node};

/// Nodes that differ in the year alone. The order is that of nodes.
#[derive(Clone, Copy, PartialEq, Eq, PartialOrd, Ord, Drop)]
pub enum Series {
    /// The values of a line.
    Line(Name),
    /// The equivalents of a line.
    Equivalent(Name),
    /// The totals of a category.
    Total(Category),
    /// The gross totals.
    Gross,
}

impl Series {
    /// The series of a node.
    pub fn of(node: &Node) -> Series
        ensures { result ≡ series_of node.now }
    {
        match node {
            Node::Line(name, _) => Series::Line(*name),
            Node::Equiv(name, _) => Series::Equivalent(*name),
            Node::Total(category, _) => Series::Total(*category),
            Node::Gross(_) => Series::Gross,
        }
    }

    /// The node of a year.
    pub fn node(&self, year: u32) -> Node
        ensures { result ≡ node_at self.now year }
    {
        match self {
            Series::Line(name) => Node::Line(*name, year),
            Series::Equivalent(name) => Node::Equiv(*name, year),
            Series::Total(category) => Node::Total(*category, year),
            Series::Gross => Node::Gross(year),
        }
    }
}

/// The year of a node.
pub fn year_of(node: &Node) -> u32
    ensures { result ≡ year_in node.now }
{
    match node {
        Node::Line(_, year) | Node::Equiv(_, year) | Node::Total(_, year) | Node::Gross(year) =>
            *year,
    }
}
