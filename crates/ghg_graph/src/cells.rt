//! What reads as the cells of a workbook.

ghost use Rattle.std.specs.Prelude.{◌≡◌, option_copied};
ghost use Rattle.ghg_definitions.specs.Compilation.{compilation, sheet_of};
ghost use Rattle.ghg_definitions.specs.Containment.{HoldsExactValues};
ghost use Rattle.ghg_definitions.specs.Data.{Data};
ghost use Rattle.ghg_definitions.specs.Rings.{IsAcyclic};
ghost use Rattle.ghg_definitions.specs.Trials.{IsCompilation, value_of};

use ghg_cell::Value;
use ghg_data::Book;
use ghg_units::Node;

/// The cells of a workbook: the values that its compilation gives its nodes.
pub trait Cells {
    ghost content: { Self → Data };

    /// The workbook that is compiled.
    fn book(&self) -> &Book
        ensures content { result.now.content ≡ content self.now }
        ensures compiled { IsCompilation (sheet_of (content self.now)) (compilation (content self.now)) }
        ensures acyclic { IsAcyclic (content self.now) };

    /// The value of a node, in the base unit of what it measures; `None` exactly where it is no node of the
    /// workbook.
    fn value(&self, node: &Node) -> Option<&Value>
        ensures value { option_copied result ≡ value_of (compilation (content self.now) node.now) }
        ensures compiled { IsCompilation (sheet_of (content self.now)) (compilation (content self.now)) }
        ensures contained { HoldsExactValues (content self.now) }
        ensures acyclic { IsAcyclic (content self.now) };
}
