//! The nodes that a sum adds.

ghost use Rattle.std.specs.Prelude.{◌≡◌};

use ghg_units::Node;
use std::marker::Model;

/// Several nodes. Contracts see the list of them.
#[derive(Drop)]
pub struct Nodes {
    items: Vec<Node>,
}

impl Model for Nodes {
    ghost use Rattle.std.specs.Prelude.{List};
    ghost use Rattle.ghg_units.specs.declared.node.Node.{Node};

    ghost Value = { List Node };

    ghost view = { λ n. n.items.items };
}

impl Nodes {
    /// The nodes of a list. Allocates no memory.
    pub(crate) fn new(items: Vec<Node>) -> Nodes
        ensures { result ≡ items.items }
    {
        Nodes { items }
    }

    /// The nodes in their order.
    pub fn as_slice(&self) -> &[Node]
        ensures { result.now ≡ self.now }
    {
        &self.items
    }
}
