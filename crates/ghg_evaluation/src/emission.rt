//! What a line emits, and where.

ghost use Rattle.std.specs.Prelude.{◌≡◌};
ghost use Rattle.ghg_definitions.specs.Compilation.{line_gas};
ghost use Rattle.ghg_definitions.specs.Data.{Data};
ghost use Rattle.ghg_shifts.specs.Noted.{emitted_at};
ghost use Rattle.ghg_evaluation.specs.Kept.{IsLastEmission};

use ghg_categories::Category;
use ghg_data::Records;
use ghg_equations::{Gas, equation};
use ghg_graph::line_gas;
use ghg_units::Name;

/// The category at which a line emits a gas, if it does.
pub fn emitted_at<R: Records>(records: &R, name: &Name) -> Option<Category>
    ensures { result ≡ emitted_at (R.content records.now) name.now }
{
    let (category, id) = records.line(name)?;
    equation(id).output.gas()?;
    Some(category)
}

/// What the line that was read last emits. It serves as long as the same line is read.
#[derive(Drop)]
pub(crate) struct LastEmission {
    // The line; `None` before one is read.
    line: Option<Name>,
    /// The gas that it emits, if it does.
    pub(crate) gas: Option<Gas>,
    /// The category at which it emits that.
    pub(crate) category: Option<Category>,
}

impl LastEmission {
    /// No line is read yet.
    pub(crate) fn new() -> LastEmission
        ensures { (m : Data) → IsLastEmission m result }
    {
        LastEmission {
            line: None,
            gas: None,
            category: None,
        }
    }

    /// Reads what a line emits. A line that is kept is not looked up again.
    pub(crate) fn read<R: Records>(&mut self, records: &R, name: &Name)
        requires { IsLastEmission (R.content records.now) self.old }
        ensures kept { IsLastEmission (R.content records.now) self.new }
        ensures gas { self.new.gas ≡ line_gas (R.content records.now) name.now }
        ensures category { self.new.category ≡ emitted_at (R.content records.now) name.now }
    {
        match &self.line {
            Some(last) if last == name => return,
            _ => {}
        }
        *self = LastEmission {
            line: Some(*name),
            gas: line_gas(records, name),
            category: emitted_at(records, name),
        };
    }
}
