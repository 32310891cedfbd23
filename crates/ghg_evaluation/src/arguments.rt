//! The arguments of a line's equation: what its parameters take in a year.

ghost use Rattle.std.specs.Prelude.{◌≡◌, ◌≤◌, ◌∷◌, [], ◌++◌, List, length, option_copied, IfOk, OnOk, Ok, true};
ghost use Rattle.ghg_equations.specs.Table.{parameters};
ghost use Rattle.ghg_cell.specs.Totals.{equation_outcome};
ghost use Rattle.ghg_cell.specs.Values.{equation_value, then};
ghost use Rattle.ghg_columns.specs.Cells.{outcome_in};
ghost use Rattle.ghg_columns.specs.Overlays.{outcomes_of};
ghost use Rattle.ghg_definitions.specs.Compilation.{first_year};
ghost use Rattle.ghg_definitions.specs.Data.{Data, span};
ghost use Rattle.ghg_definitions.specs.Formulas.{Outcome, gather, operand_outcome};
ghost use Rattle.ghg_definitions.specs.Rules.{most_lines};
ghost use Rattle.ghg_graph.specs.Operands.{operand_of};
ghost use Rattle.ghg_evaluation.specs.Arguments.{AreGathered, AreParts, AreShort, IsArgument, IsHeld, IsShort, IsTaken, lines_in, operand_by, operand_outcomes, operands_by, sum_outcome};
ghost use Rattle.ghg_evaluation.specs.Kept.{AreKeptFactors, copied};

use crate::kept::Factors;
use ghg_cell::{Input, Ticket, Value, sum};
use ghg_columns::Overlay;
use ghg_data::Records;
use ghg_equations::{EqId, Sector};
use ghg_graph::{Operand, bound_operand};
use ghg_interval::Over;
use ghg_units::{Binding, Name, Node};
use std::alloc::{AllocError, Global};

/// What a parameter takes, where that is not over.
#[derive(Clone, Copy, Drop)]
pub(crate) enum Taken {
    Input(Input),
    /// The sum of lines' values, of which a bound is beyond the limit of intervals.
    Beyond,
}

impl Taken {
    fn of(input: Input) -> Taken
        ensures { IsTaken (Ok input) result }
    {
        Taken::Input(input)
    }
}

/// What the parameters of a line take, in their order. The buffers serve one line after another.
#[derive(Drop)]
pub(crate) struct Arguments {
    inputs: Vec<Input>,
    // No sum among them is beyond the limit of intervals.
    fit: bool,
    // One of them is blank.
    blank: bool,
    pub(crate) factors: Factors,
    // The parts of a sum among them.
    parts: Vec<Input>,
}

impl Arguments {
    /// No arguments. It takes no memory.
    pub(crate) fn new(alloc: Global) -> Arguments
        ensures { (m : Data) → AreKeptFactors m result.factors }
    {
        Arguments {
            inputs: Vec::new(alloc),
            fit: true,
            blank: false,
            factors: Factors::new(alloc),
            parts: Vec::new(alloc),
        }
    }

    /// Gathers what parameters take in a year of an inventory that begins with `first`. Answers whether none
    /// of it is over.
    pub(crate) fn gather<R: Records>(
        &mut self,
        records: &R,
        cells: &Overlay<'_>,
        bindings: &[Option<&Binding>],
        first: u32,
        year: u32,
    ) -> Result<bool, AllocError>
        requires first { first ≡ first_year (span (R.content records.now)) }
        requires short { AreShort (R.content records.now) year (copied bindings.now) }
        requires kept { AreKeptFactors (R.content records.now) self.old.factors }
        ensures kept { AreKeptFactors (R.content records.now) self.new.factors }
        ensures gathered { IfOk result (AreGathered (operand_outcomes (outcomes_of cells.now)
            (operands_by (R.content records.now) year (copied bindings.now))) self.new) }
    {
        self.inputs.clear();
        self.fit = true;
        self.blank = false;
        self.factors.begin();
        for binding in bindings {
            let Arguments { factors, parts, .. } = self;
            let Some(taken) = take(records, cells, *binding, first, year, factors, parts)? else {
                return Ok(false);
            };
            self.push(taken)?;
        }
        Ok(true)
    }

    fn push(&mut self, taken: Taken) -> Result<(), AllocError>
        ensures factors { self.new.factors ≡ self.old.factors }
        ensures held { OnOk result ((outcomes : List Outcome) (x : Outcome) → IsHeld outcomes self.old →
            IsTaken x taken → IsHeld (outcomes ++ x ∷ []) self.new) }
    {
        match taken {
            Taken::Input(input) => {
                self.blank = self.blank || input.is_blank();
                self.inputs.push(input)?;
                Ok(())
            }
            Taken::Beyond => {
                self.fit = false;
                Ok(())
            }
        }
    }

    /// The value of an equation over these arguments: blank where one of them is, else over where a sum among
    /// them or a result on the way is beyond the limit of intervals.
    pub(crate) fn value(&self, id: EqId, ticket: Ticket) -> Result<Value, Over>
        requires { self.now.fit ≡ true → length self.now.inputs.items ≡ length (parameters id) }
        ensures { (outcomes : List Outcome) → IsHeld outcomes self.now →
            result ≡ then (gather outcomes) (equation_outcome id) }
    {
        if self.fit {
            equation_value(id, ticket, &self.inputs)
        } else if self.blank {
            Ok(Value::blank(ticket))
        } else {
            Err(Over)
        }
    }
}

// What a parameter takes by its binding, in a year of an inventory that begins with `first`; nothing where
// that is over.
fn take<R: Records>(
    records: &R,
    cells: &Overlay<'_>,
    binding: Option<&Binding>,
    first: u32,
    year: u32,
    factors: &mut Factors,
    parts: &mut Vec<Input>,
) -> Result<Option<Taken>, AllocError>
    requires first { first ≡ first_year (span (R.content records.now)) }
    requires short { IsShort (operand_by (R.content records.now) year (option_copied binding)) }
    requires kept { AreKeptFactors (R.content records.now) factors.old }
    ensures kept { AreKeptFactors (R.content records.now) factors.new }
    ensures taken { IfOk result (IsArgument (operand_outcome (outcome_in (outcomes_of cells.now))
        (operand_by (R.content records.now) year (option_copied binding.entry)))) }
{
    match binding {
        Some(Binding::Factor(name)) => {
            let input = factors.read(records, name, year)?;
            Ok(Some(Taken::of(input)))
        }
        other => argument(cells, &bound_operand(records, first, other, year), parts),
    }
}

// What an operand gives; nothing where that is over.
fn argument(
    cells: &Overlay<'_>,
    operand: &Operand<'_>,
    parts: &mut Vec<Input>,
) -> Result<Option<Taken>, AllocError>
    requires { IsShort (operand_of operand.now) }
    ensures { IfOk result (IsArgument
        (operand_outcome (outcome_in (outcomes_of cells.now)) (operand_of operand.now))) }
{
    match operand {
        Operand::Given(input) => Ok(Some(Taken::of(*input))),
        Operand::Value(node) => match cells.outcome(node) {
            Ok(input) => Ok(Some(Taken::of(input))),
            Err(Over) => Ok(None),
        },
        Operand::Sum(names, year) => sum_of(cells, names, *year, parts),
    }
}

// The sum of lines' values in a year; nothing where one of them is over.
fn sum_of(
    cells: &Overlay<'_>,
    names: &[Name],
    year: u32,
    parts: &mut Vec<Input>,
) -> Result<Option<Taken>, AllocError>
    requires { length names.now ≤ most_lines }
    ensures { IfOk result (IsArgument (sum_outcome (outcomes_of cells.now) (lines_in names.now year))) }
{
    if !gather_lines(cells, names, year, parts)? {
        return Ok(None);
    }
    match sum(parts) {
        Ok(input) => Ok(Some(Taken::of(input))),
        Err(Over) => Ok(Some(Taken::Beyond)),
    }
}

// Gathers the values of lines in a year, in place of what the buffer had. Answers whether none of them is
// over.
fn gather_lines(
    cells: &Overlay<'_>,
    names: &[Name],
    year: u32,
    parts: &mut Vec<Input>,
) -> Result<bool, AllocError>
    ensures { IfOk result (AreParts (outcomes_of cells.now) (lines_in names.now year) parts.new.items) }
{
    parts.clear();
    for name in names {
        match cells.outcome(&Node::Line(*name, year)) {
            Ok(input) => parts.push(input)?,
            Err(Over) => return Ok(false),
        }
    }
    Ok(true)
}

// The value of an equation over its inputs, which stand in the order of its parameters.
fn equation_value(id: EqId, ticket: Ticket, inputs: &[Input]) -> Result<Value, Over>
    requires { length inputs.now ≡ length (parameters id) }
    ensures { result ≡ equation_value id inputs.now }
{
    match id.sector() {
        Sector::Energy => ghg_energy::evaluate(id, ticket, inputs),
        Sector::Industry => ghg_ippu::evaluate(id, ticket, inputs),
        Sector::Livestock => ghg_livestock::evaluate(id, ticket, inputs),
        Sector::Soils => ghg_soils::evaluate(id, ticket, inputs),
        Sector::Land => ghg_land::evaluate(id, ticket, inputs),
        Sector::Waste => ghg_waste::evaluate(id, ticket, inputs),
    }
}
