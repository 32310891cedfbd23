//! The lines that emit a gas, by their pairs of a category and a gas.

ghost use Rattle.std.specs.Prelude.{◌≡◌, IfOk, OnOk, [], ◌∷◌, ◌++◌, if◌then◌else◌};
ghost use Rattle.ghg_categories.specs.declared.category.Category.{Category};
ghost use Rattle.ghg_equations.specs.declared.quantity.Gas.{Gas};
ghost use Rattle.ghg_tables.specs.Gathering.{IsGrouping, group_of};
ghost use Rattle.ghg_tables.specs.Sums.{emission, same_pair};

use ghg_categories::Category;
use ghg_data::Records;
use ghg_equations::{Gas, equation};
use ghg_graph::Cells;
use ghg_units::Name;
use std::alloc::{AllocError, Global};
use std::collections::BTreeMap;

/// The category at which a line stands and the gas that it emits; `None` exactly where the line is not
/// present, or gives something else.
pub fn emission<R: Records>(records: &R, name: &Name) -> Option<(Category, Gas)>
    ensures { result ≡ emission (R.content records.now) name.now }
{
    let (category, id) = records.line(name)?;
    let gas = equation(id).output.gas()?;
    Some((category, gas))
}

/// The lines of a workbook that emit a gas, by name, in a group for each pair of a category and a gas.
#[derive(Drop)]
pub struct Groups {
    by_pair: BTreeMap<(Category, Gas), Vec<Name>>,
}

impl Groups {
    /// The groups of the lines of a workbook.
    ///
    /// The only error is that memory ran out.
    pub fn of<C: Cells>(alloc: Global, cells: &C) -> Result<Groups, AllocError>
        ensures { IfOk result (IsGrouping (C.content cells.now)) }
    {
        let book = cells.book();
        let lines = book.lines(alloc)?;
        let mut groups = Groups {
            by_pair: BTreeMap::new(alloc),
        };
        for name in &lines {
            if let Some(pair) = emission(book, name) {
                groups.push(pair, name)?;
            }
        }
        Ok(groups)
    }

    /// The lines of a pair.
    pub(crate) fn at(&self, pair: (Category, Gas)) -> &[Name]
        ensures { result.now ≡ group_of self.now pair }
    {
        match self.by_pair.get(&pair) {
            Some(names) => names.as_slice(),
            None => &[],
        }
    }

    // Puts a line into the group of its pair.
    fn push(&mut self, pair: (Category, Gas), name: &Name) -> Result<(), AllocError>
        ensures { OnOk result ((q : Category × Gas) → group_of self.new q ≡ group_of self.old q ++
            (if same_pair pair q then name.now ∷ [] else [])) }
    {
        self.by_pair.entry(pair)?.or_default().push(*name)?;
        Ok(())
    }
}
