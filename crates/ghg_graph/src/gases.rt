//! Gases of lines, and their global warming potentials.

ghost use Rattle.std.specs.Prelude.{◌≡◌};
ghost use Rattle.ghg_definitions.specs.Compilation.{line_gas, potential};
ghost use Rattle.ghg_definitions.specs.Lookups.{given};
ghost use Rattle.ghg_graph.specs.Moves.{emits_at};

use crate::numbers::equation_of;
use ghg_categories::Category;
use ghg_cell::Input;
use ghg_data::Records;
use ghg_equations::{Gas, equation};
use ghg_units::Name;

/// The category at which a line emits a gas; `None` where it emits none.
pub(crate) fn emits_at<R: Records>(records: &R, name: &Name) -> Option<Category>
    ensures { result ≡ emits_at (R.content records.now) name.now }
{
    line_gas(records, name)?;
    let (category, _) = records.line(name)?;
    Some(category)
}

/// The global warming potential of a line's gas in a year. It is blank where the line emits no gas or no
/// factor is in force.
pub fn potential<R: Records>(records: &R, line: &Name, year: u32) -> Input
    ensures { result ≡ given (R.content records.now)
        (potential (R.content records.now) year (line_gas (R.content records.now) line.now)) }
{
    match line_gas(records, line) {
        Some(gas) => records.factor(&Name::potential(gas), year),
        None => Input::Blank,
    }
}

/// The gas that a line emits; `None` where the line is not present or gives something else.
pub fn line_gas<R: Records>(records: &R, line: &Name) -> Option<Gas>
    ensures { result ≡ line_gas (R.content records.now) line.now }
{
    equation(equation_of(records, line)?).output.gas()
}
