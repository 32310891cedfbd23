//! The values of a year, of each pair of a category and a gas.

ghost use Rattle.std.specs.Prelude.{◌≡◌, ◌≤◌, All, IfOk, true, unsigned_abs};
ghost use Rattle.ghg_definitions.specs.Compilation.{compilation, is_year_of};
ghost use Rattle.ghg_definitions.specs.Data.{span};
ghost use Rattle.ghg_keycat.specs.Sizes.{gross_limit};
ghost use Rattle.ghg_tables.specs.Gathering.{IsGrouping};
ghost use Rattle.ghg_tables.specs.Values.{pair_value, values};

use crate::groups::Groups;
use crate::pairs::{Years, grouped_pairs};
use ghg_categories::Category;
use ghg_equations::Gas;
use ghg_graph::Cells;
use ghg_keycat::Pair;
use std::alloc::{AllocError, Global};

/// A category of the tree and a gas that a line at it emits, with their value of a year.
#[derive(Clone, Copy, Debug, PartialEq, Eq, Drop)]
pub struct PairValue {
    /// The category.
    pub category: Category,
    /// The gas.
    pub gas: Gas,
    /// What the lines at the category emit of the gas, less what they remove, in tonnes of CO2 equivalent.
    pub tonnes: i128,
}

/// The values of a year of the span: of each category and gas for which a line stands in the tree, once, by
/// category and then by gas. A blank counts as zero.
///
/// The only error is that memory ran out.
pub fn pair_values<C: Cells>(
    alloc: Global,
    year: u32,
    cells: &C,
) -> Result<Vec<PairValue>, AllocError>
    requires { is_year_of (span (C.content cells.now)) year ≡ true }
    ensures values { IfOk result (λ rows.
        rows.items ≡ values (C.content cells.now) (compilation (C.content cells.now)) year) }
    ensures small { IfOk result (λ rows.
        All (λ value. unsigned_abs value.tonnes ≤ gross_limit) rows.items) }
{
    let groups = Groups::of(alloc, cells)?;
    grouped_values(alloc, &groups, year, cells)
}

/// The values of a year of the span, of lines that are in groups already: what [`pair_values`] gives.
///
/// The only error is that memory ran out.
#[tactic(auto, unfolding(crate::specs::Values::values))]
pub fn grouped_values<C: Cells>(
    alloc: Global,
    groups: &Groups,
    year: u32,
    cells: &C,
) -> Result<Vec<PairValue>, AllocError>
    requires grouped { IsGrouping (C.content cells.now) groups.now }
    requires year { is_year_of (span (C.content cells.now)) year ≡ true }
    ensures values { IfOk result (λ rows.
        rows.items ≡ values (C.content cells.now) (compilation (C.content cells.now)) year) }
    ensures small { IfOk result (λ rows.
        All (λ value. unsigned_abs value.tonnes ≤ gross_limit) rows.items) }
{
    let years = Years {
        base: year,
        current: year,
    };
    let rows = grouped_pairs(alloc, cells, groups, years)?;
    rows.iter().map(|pair| value_of(*pair)).collect(alloc)
}

// The value of the year that is assessed.
fn value_of(pair: Pair) -> PairValue
    ensures { result ≡ pair_value pair }
{
    PairValue {
        category: pair.category,
        gas: pair.gas,
        tonnes: pair.now,
    }
}
