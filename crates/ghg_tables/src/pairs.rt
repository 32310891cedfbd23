//! The pairs of a category and a gas, with what they emit in two years.

ghost use Rattle.std.specs.Prelude.{◌≡◌, ◌≤◌, ◌++◌, IfOk, OnOk};
ghost use Rattle.std.specs.List.{flat_map, sum_by};
ghost use Rattle.ghg_equations.specs.Quantity.{gases};
ghost use Rattle.ghg_definitions.specs.Compilation.{compilation};
ghost use Rattle.ghg_keycat.specs.Ranking.{AreDistinct};
ghost use Rattle.ghg_keycat.specs.Sizes.{gross, gross_limit};
ghost use Rattle.ghg_tables.specs.Gathering.{IsGrouping};
ghost use Rattle.ghg_tables.specs.Sums.{pair_at, pairs};

use crate::groups::Groups;
use crate::sums::equivalent_tonnes;
use ghg_categories::{Category, all};
use ghg_equations::Gas;
use ghg_graph::Cells;
use ghg_keycat::Pair;
use std::alloc::{AllocError, Global};

/// A year that is assessed, and one that it is compared with.
#[derive(Clone, Copy, Drop)]
pub(crate) struct Years {
    pub(crate) base: u32,
    pub(crate) current: u32,
}

// In the order in which tables list them.
const GASES: [Gas; 5] = [Gas::Co2, Gas::Ch4, Gas::N2o, Gas::Cf4, Gas::C2f6];

/// The pairs of a category of the tree and a gas for which there is a line, by category and then by gas.
pub(crate) fn pairs<C: Cells>(
    alloc: Global,
    cells: &C,
    years: Years,
) -> Result<Vec<Pair>, AllocError>
    ensures pairs { IfOk result (λ rows.
        rows.items ≡ pairs (C.content cells.now) (compilation (C.content cells.now)) years) }
    ensures distinct { IfOk result (λ rows. AreDistinct rows.items) }
    ensures small { IfOk result (λ rows. sum_by gross rows.items ≤ gross_limit) }
{
    let groups = Groups::of(alloc, cells)?;
    grouped_pairs(alloc, cells, &groups, years)
}

/// The pairs of lines in groups.
#[tactic(auto, unfolding(crate::specs::Sums::pairs))]
pub(crate) fn grouped_pairs<C: Cells>(
    alloc: Global,
    cells: &C,
    groups: &Groups,
    years: Years,
) -> Result<Vec<Pair>, AllocError>
    requires { IsGrouping (C.content cells.now) groups.now }
    ensures pairs { IfOk result (λ rows.
        rows.items ≡ pairs (C.content cells.now) (compilation (C.content cells.now)) years) }
    ensures distinct { IfOk result (λ rows. AreDistinct rows.items) }
    ensures small { IfOk result (λ rows. sum_by gross rows.items ≤ gross_limit) }
{
    let mut rows = Vec::new(alloc);
    for category in all() {
        append_gases(&mut rows, cells, groups, *category, years)?;
    }
    Ok(rows)
}

// Appends the pairs of a category.
fn append_gases<C: Cells>(
    rows: &mut Vec<Pair>,
    cells: &C,
    groups: &Groups,
    category: Category,
    years: Years,
) -> Result<(), AllocError>
    requires { IsGrouping (C.content cells.now) groups.now }
    ensures { OnOk result (rows.new.items ≡ rows.old.items ++ flat_map
        (λ g. pair_at (C.content cells.now) (compilation (C.content cells.now)) years (category, g)) gases) }
{
    for gas in GASES {
        append_pair(rows, cells, groups, (category, gas), years)?;
    }
    Ok(())
}

// Appends a pair, if it has a line.
#[tactic(auto, unfolding(crate::specs::Sums::pair_at))]
fn append_pair<C: Cells>(
    rows: &mut Vec<Pair>,
    cells: &C,
    groups: &Groups,
    pair: (Category, Gas),
    years: Years,
) -> Result<(), AllocError>
    requires { IsGrouping (C.content cells.now) groups.now }
    ensures { OnOk result (rows.new.items ≡ rows.old.items ++
        pair_at (C.content cells.now) (compilation (C.content cells.now)) years pair) }
{
    let lines = groups.at(pair);
    if lines.is_empty() {
        return Ok(());
    }
    let now = equivalent_tonnes(cells, lines, years.current);
    let base = if years.base == years.current {
        now
    } else {
        equivalent_tonnes(cells, lines, years.base)
    };
    rows.push(Pair {
        category: pair.0,
        gas: pair.1,
        base,
        now,
    })?;
    Ok(())
}
