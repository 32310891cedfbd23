//! The evaluation of one node after another.

ghost use Rattle.std.specs.Prelude.{◌≡◌, true, is_some, IfOk};
ghost use Rattle.ghg_columns.specs.Overlays.{outcomes_of};
ghost use Rattle.ghg_definitions.specs.Compilation.{compilation, is_node, line_gas, potential, sheet_of};
ghost use Rattle.ghg_definitions.specs.Data.{Data, line};
ghost use Rattle.ghg_definitions.specs.Lookups.{given};
ghost use Rattle.ghg_definitions.specs.Sound.{IsWorkbook};
ghost use Rattle.ghg_shifts.specs.Noted.{AreShifts, IsChange, IsOutcomeOf, emitted_at};
ghost use Rattle.ghg_shifts.specs.Shifts.{input_at, total_at};
ghost use Rattle.ghg_evaluation.specs.Evaluation.{IsEvaluatedAt, IsReady};

use crate::arguments::Arguments;
use crate::emission::LastEmission;
use crate::kept::LastLine;
use ghg_categories::Category;
use ghg_cell::{Input, Ticket, equiv};
use ghg_columns::Overlay;
use ghg_data::Records;
use ghg_graph::first_year;
use ghg_interval::Over;
use ghg_shifts::{Evaluated, Shifts};
use ghg_units::{Name, Node};
use std::alloc::{AllocError, Global};
use std::marker::Model;

/// Reads records for one node after another. It keeps buffers, and what it looked up of the last line, since
/// the years of a line mostly follow each other. Contracts see the records alone: what is kept is what they
/// give, so nothing depends on which nodes it read before.
#[derive(Drop)]
pub struct Reader<'a, R: Records> {
    records: &'a R,
    // The first year of the inventory.
    first: u32,
    line: LastLine<'a>,
    emission: LastEmission,
    arguments: Arguments,
}

impl<'a, R: Records> Model for Reader<'a, R> {
    ghost use Rattle.ghg_evaluation.specs.Kept.{IsReader};

    ghost Value = { R };

    ghost view = { λ r. r.records.now };

    ghost invariant = { λ r. IsReader (R.content r.records.now) r.first r.line r.emission
        r.arguments.factors };
}

impl<'a, R: Records> Reader<'a, R> {
    /// A reader that has read nothing. It takes no memory.
    pub fn new(alloc: Global, records: &'a R) -> Reader<'a, R>
        ensures { result ≡ records.now }
    {
        Reader {
            records,
            first: first_year(records),
            line: LastLine::new(alloc),
            emission: LastEmission::new(),
            arguments: Arguments::new(alloc),
        }
    }

    // Evaluates a line's equation over what its parameters take in a year.
    fn line(
        &mut self,
        cells: &Overlay<'_>,
        name: &Name,
        year: u32,
        ticket: Ticket,
    ) -> Result<Evaluated, AllocError>
        requires workbook { IsWorkbook (R.content self.old) }
        requires present { is_some (line (R.content self.old) name.now) ≡ true }
        ensures same { self.new ≡ self.old }
        ensures evaluated { IfOk result (IsEvaluatedAt (sheet_of (R.content self.old)) (outcomes_of cells.now)
            (Node.Line name.now year)) }
    {
        let id = self.line.read(self.records, name)?;
        let bindings = &self.line.bindings;
        if self
            .arguments
            .gather(self.records, cells, bindings, self.first, year)?
        {
            Ok(Evaluated::of(self.arguments.value(id, ticket)))
        } else {
            Ok(Evaluated::passed_on())
        }
    }

    // Evaluates the equivalent of a line in a year: its value times the warming potential of its gas.
    fn equivalent(
        &mut self,
        cells: &Overlay<'_>,
        name: &Name,
        year: u32,
        ticket: Ticket,
    ) -> Result<Evaluated, AllocError>
        ensures same { self.new ≡ self.old }
        ensures evaluated { IfOk result (IsEvaluatedAt (sheet_of (R.content self.old)) (outcomes_of cells.now)
            (Node.Equiv name.now year)) }
    {
        match cells.outcome(&Node::Line(*name, year)) {
            Ok(value) => {
                let potential = self.potential(name, year)?;
                Ok(Evaluated::of(equiv(ticket, &value, &potential)))
            }
            Err(Over) => Ok(Evaluated::passed_on()),
        }
    }

    // The warming potential of a line's gas in a year; blank where it emits none.
    fn potential(&mut self, name: &Name, year: u32) -> Result<Input, AllocError>
        ensures same { self.new ≡ self.old }
        ensures potential { IfOk result (λ x. x ≡ given (R.content self.old)
            (potential (R.content self.old) year (line_gas (R.content self.old) name.now))) }
    {
        self.emission.read(self.records, name);
        let Some(gas) = self.emission.gas else {
            return Ok(Input::Blank);
        };
        let factors = &mut self.arguments.factors;
        factors.begin();
        factors.read(self.records, &Name::potential(gas), year)
    }

    /// The category at which a line emits a gas, if it does.
    pub fn emitted_at(&mut self, name: &Name) -> Option<Category>
        ensures same { self.new ≡ self.old }
        ensures category { result ≡ emitted_at (R.content self.old) name.now }
    {
        self.emission.read(self.records, name);
        self.emission.category
    }
}

/// Evaluates a node of a workbook: a line or an equivalent over the cells of its inputs, and a total from
/// what it was in the workbook before and what its categories have lost and gained since. Where an input is
/// over, so is the node, and it does not break.
pub fn evaluate<R: Records, C: ghg_graph::Cells>(
    reader: &mut Reader<'_, R>,
    before: &C,
    cells: &Overlay<'_>,
    shifts: &Shifts,
    node: &Node,
    ticket: Ticket,
) -> Result<Evaluated, AllocError>
    requires { IsReady (C.content before.now) (R.content reader.old) (outcomes_of cells.now) shifts.now
        node.now }
    ensures same { reader.new ≡ reader.old }
    ensures outcome { IfOk result (IsOutcomeOf (R.content reader.old) node.now) }
{
    match node {
        Node::Line(name, year) => reader.line(cells, name, *year, ticket),
        Node::Equiv(name, year) => reader.equivalent(cells, name, *year, ticket),
        Node::Total(top, year) => Ok(total(before, shifts, node, Some(*top), *year, ticket)),
        Node::Gross(year) => Ok(total(before, shifts, node, None, *year, ticket)),
    }
}

// Evaluates the total of a category in a year, or the gross total where none is given.
fn total<C: ghg_graph::Cells>(
    before: &C,
    shifts: &Shifts,
    node: &Node,
    top: Option<Category>,
    year: u32,
    ticket: Ticket,
) -> Evaluated
    requires { node.now ≡ total_at top year }
    ensures { (new : Data) → IsChange (C.content before.now) new →
        AreShifts (C.content before.now) new year top shifts.now → is_node new node.now ≡ true →
        IsOutcomeOf new node.now result }
{
    let kept = kept_input(before, node);
    shifts.total(&kept, top, year, ticket)
}

/// What a node is for others in a workbook; blank where it is none of its nodes.
pub fn kept_input<C: ghg_graph::Cells>(cells: &C, node: &Node) -> Input
    ensures { result ≡ input_at (compilation (C.content cells.now)) node.now }
{
    match cells.value(node) {
        Some(value) => *value.input(),
        None => Input::Blank,
    }
}
