//! What is kept of the lines that were read last.

ghost use Rattle.std.specs.Prelude.{◌≡◌, true, is_some, map, IfOk, OnOk, Some};
ghost use Rattle.std.specs.List.{AllByRecursion};
ghost use Rattle.ghg_units.specs.Parameter.{is_parameter};
ghost use Rattle.ghg_definitions.specs.Data.{Data, binding, line};
ghost use Rattle.ghg_definitions.specs.Lookups.{factor_input};
ghost use Rattle.ghg_evaluation.specs.Kept.{AreKeptFactors, IsKeptFactor, IsLastLine, bindings_of, copied};

use ghg_cell::Input;
use ghg_data::{Lasting, Records, params_of};
use ghg_equations::{EqId, Param};
use ghg_units::{Binding, Name};
use std::alloc::{AllocError, Global};

/// The line that was read last, which serves as long as the same line is read.
#[derive(Drop)]
pub(crate) struct LastLine<'a> {
    // The line and its equation; nothing where no line is kept.
    line: Option<(Name, EqId)>,
    /// What the parameters of its equation are bound to, in their order.
    pub(crate) bindings: Vec<Option<&'a Binding>>,
}

impl<'a> LastLine<'a> {
    /// No line. It takes no memory.
    pub(crate) fn new(alloc: Global) -> LastLine<'a>
        ensures { (m : Data) → IsLastLine m result }
    {
        LastLine {
            line: None,
            bindings: Vec::new(alloc),
        }
    }

    /// Reads a line, and returns its equation. A line that is kept is not looked up again.
    pub(crate) fn read<R: Records>(
        &mut self,
        records: &'a R,
        name: &Name,
    ) -> Result<EqId, AllocError>
        requires present { is_some (line (R.content records.now) name.now) ≡ true }
        requires kept { IsLastLine (R.content records.now) self.old }
        ensures kept { IsLastLine (R.content records.now) self.new }
        ensures equation { IfOk result (λ id. line (R.content records.now) name.now ≡ Some id) }
        ensures bindings { IfOk result (λ id. copied self.new.bindings.items ≡
            bindings_of (R.content records.now) name.now id) }
    {
        match &self.line {
            Some((last, id)) if last == name => return Ok(*id),
            _ => self.line = None,
        }
        let (_, id) = records.line(name).unwrap();
        read_bindings(records, name, params_of(id), &mut self.bindings)?;
        self.line = Some((*name, id));
        Ok(id)
    }
}

// Reads what parameters of a line are bound to, in place of what the buffer had.
fn read_bindings<'a, R: Records>(
    records: &'a R,
    name: &Name,
    params: &[Param],
    bindings: &mut Vec<Option<&'a Binding>>,
) -> Result<(), AllocError>
    requires { AllByRecursion (λ p. is_parameter p.name.now ≡ true) params.now }
    ensures { OnOk result (copied bindings.new.items ≡
        map (λ p. binding (R.content records.now) name.now p.name.now) params.now) }
{
    bindings.clear();
    for param in params {
        bindings.push(records.bound(name, param))?;
    }
    Ok(())
}

/// A factor, and what it gives in some years that follow each other.
#[derive(Clone, Copy, Drop)]
pub(crate) struct KeptFactor {
    name: Name,
    lasting: Lasting,
}

impl KeptFactor {
    // What a factor gives in a year, and in which years around it.
    fn of<R: Records>(records: &R, name: &Name, year: u32) -> KeptFactor
        ensures kept { IsKeptFactor (R.content records.now) result }
        ensures input { result.lasting.input ≡ factor_input (R.content records.now) name.now year }
    {
        KeptFactor {
            name: *name,
            lasting: records.lasting_factor(name, year),
        }
    }

    // What a factor gives in a year. Where what is kept is of another factor or of other years, it is looked
    // up, and kept in place of that.
    fn input<R: Records>(&mut self, records: &R, name: &Name, year: u32) -> Input
        requires { IsKeptFactor (R.content records.now) self.old }
        ensures kept { IsKeptFactor (R.content records.now) self.new }
        ensures input { result ≡ factor_input (R.content records.now) name.now year }
    {
        match self.lasting.in_year(year) {
            Some(input) if self.name == *name => input,
            _ => {
                *self = KeptFactor::of(records, name, year);
                self.lasting.input
            }
        }
    }
}

/// What the factors of a node give, in the order in which it takes them. Each is kept until a node takes
/// another factor at its place.
#[derive(Drop)]
pub(crate) struct Factors {
    kept: Vec<KeptFactor>,
    // The place of the factor that is read next.
    next: usize,
}

impl Factors {
    /// No factors. It takes no memory.
    pub(crate) fn new(alloc: Global) -> Factors
        ensures { (m : Data) → AreKeptFactors m result }
    {
        Factors {
            kept: Vec::new(alloc),
            next: 0,
        }
    }

    /// Goes back to the first factor of a node.
    pub(crate) fn begin(&mut self)
        ensures { (m : Data) → AreKeptFactors m self.old → AreKeptFactors m self.new }
    {
        self.next = 0;
    }

    /// What the next factor of the node gives in a year.
    pub(crate) fn read<R: Records>(
        &mut self,
        records: &R,
        name: &Name,
        year: u32,
    ) -> Result<Input, AllocError>
        requires { AreKeptFactors (R.content records.now) self.old }
        ensures kept { AreKeptFactors (R.content records.now) self.new }
        ensures input { IfOk result (λ x. x ≡ factor_input (R.content records.now) name.now year) }
    {
        let place = self.next;
        self.next = place.saturating_add(1);
        if let Some(kept) = self.kept.get_mut(place) {
            return Ok(kept.input(records, name, year));
        }
        self.kept.push(KeptFactor::of(records, name, year))?;
        Ok(records.factor(name, year))
    }
}
