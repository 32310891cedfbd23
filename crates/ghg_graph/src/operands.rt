//! The operands of formulas.

ghost use Rattle.std.specs.Prelude.{◌≡◌, map, not, option_copied};
ghost use Rattle.ghg_units.specs.declared.node.Node.TheVariants as node;
ghost use Rattle.ghg_definitions.specs.Compilation.{bound_to};
ghost use Rattle.ghg_definitions.specs.Formulas.{map_operand};
ghost use Rattle.ghg_definitions.specs.Lookups.{given};
ghost use Rattle.ghg_affected.specs.Equalities.{same_nodes, same_operand};
ghost use Rattle.ghg_graph.specs.Operands.{AreBound, operand_of};

use ghg_cell::Input;
use ghg_data::{Records, input_of_key};
use ghg_units::{Binding, Name, Node, NotationKey};

/// What a parameter is bound to in a year.
#[derive(Clone, Copy, Drop)]
pub enum Operand<'a> {
    /// A figure of the records, zero, or a blank.
    Given(Input),
    /// A node's value.
    Value(Node),
    /// The sum of the lines' values of a year.
    Sum(&'a [Name], u32),
}

/// What a binding gives in a year of a span whose first year is `first`; a blank where there is no binding.
/// Allocates no memory.
pub fn bound_operand<'a, R: Records>(
    records: &R,
    first: u32,
    binding: Option<&'a Binding>,
    year: u32,
) -> Operand<'a>
    ensures operand { operand_of result ≡ map_operand (given (R.content records.now))
        (bound_to (R.content records.now) first year (option_copied binding.entry)) }
    ensures names { AreBound (option_copied binding.entry) result }
{
    match binding {
        Some(Binding::Activity(name)) => Operand::Given(records.activity(name, year)),
        Some(Binding::Factor(name)) => Operand::Given(records.factor(name, year)),
        Some(Binding::Line(name)) => Operand::Value(Node::Line(*name, year)),
        Some(Binding::Prev(_)) if year <= first => Operand::Given(input_of_key(NotationKey::No)),
        Some(Binding::Prev(name)) => Operand::Value(Node::Line(*name, year - 1)),
        Some(Binding::Sum(names)) => Operand::Sum(names.as_slice(), year),
        Some(Binding::Key(key)) => Operand::Given(input_of_key(*key)),
        Some(Binding::Decay(name)) => Operand::Given(records.decay(name, year)),
        None => Operand::Given(Input::Blank),
    }
}

/// Whether two operands differ.
pub fn differ(was: &Operand, is: &Operand) -> bool
    ensures { result ≡ not (same_operand (operand_of was.now) (operand_of is.now)) }
{
    match (was, is) {
        (Operand::Given(before), Operand::Given(after)) => before != after,
        (Operand::Value(before), Operand::Value(after)) => before != after,
        (Operand::Sum(before, last), Operand::Sum(after, year)) => {
            sums_differ(before, *last, after, *year)
        }
        _ => true,
    }
}

fn sums_differ(before: &[Name], last: u32, after: &[Name], year: u32) -> bool
    ensures { result ≡ not (same_nodes (map (λ name. node.Line name last) before.now)
        (map (λ name. node.Line name year) after.now)) }
{
    before != after || (last != year && !before.is_empty())
}
