//! Sums of what lines emit.

ghost use Rattle.std.specs.Prelude.{◌≡◌, ◌≤◌, ◌*◌, ◌&&◌, false, length, map, unsigned_abs};
ghost use Rattle.std.specs.Option.{option_map_or};
ghost use Rattle.ghg_categories.specs.Tree.{stands_under};
ghost use Rattle.ghg_equations.specs.declared.quantity.Gas.TheVariants.{Co2};
ghost use Rattle.ghg_interval.specs.Bounds.{bound_limit};
ghost use Rattle.ghg_definitions.specs.Compilation.{compilation, sheet_of};
ghost use Rattle.ghg_definitions.specs.Data.{line_names};
ghost use Rattle.ghg_definitions.specs.Rules.{most_lines};
ghost use Rattle.ghg_definitions.specs.Trials.{IsCompilation};
ghost use Rattle.ghg_units.specs.declared.node.Node.TheVariants as node;
ghost use Rattle.ghg_tables.specs.Gathering.{doubled, largest_tonnes};
ghost use Rattle.ghg_tables.specs.Sums.{emission, same_gas, shown, tonnes_of};
ghost use Rattle.ghg_tables.specs.Rounding.{nearest};
ghost use Rattle.ghg_tables.specs.Tables.{co2_under};

use crate::groups::emission;
use crate::precision::Precision;
use crate::rounding::near;
use ghg_categories::{Category, is_under};
use ghg_cell::Input;
use ghg_equations::Gas;
use ghg_graph::Cells;
use ghg_units::{Name, Node};

/// What is known of a node; nothing where it is no node.
pub fn shown<C: Cells>(cells: &C, node: &Node) -> Input
    ensures value { result ≡ shown (compilation (C.content cells.now)) node.now }
    ensures compiled { IsCompilation (sheet_of (C.content cells.now)) (compilation (C.content cells.now)) }
{
    match cells.value(node) {
        Some(value) => *value.input(),
        None => Input::Blank,
    }
}

// Twice the middle of the point, in 10^-12 Gg; a blank counts as zero.
fn doubled(input: &Input) -> i128
    ensures value { result ≡ doubled input.now }
    ensures small { unsigned_abs result ≤ 2 * bound_limit }
{
    match input {
        Input::Blank => 0,
        Input::Known { point, .. } => point.lo() + point.hi(),
    }
}

// The tonnes of the middle of a point, of which the double is given.
fn tonnes(doubled: i128) -> i128
    requires { unsigned_abs doubled ≤ 2 * bound_limit * most_lines }
    ensures value { result ≡ nearest 2000000000 doubled }
    ensures small { unsigned_abs result ≤ largest_tonnes }
{
    near(doubled, 2 * u128::from(Precision::Thousandths.unit()))
}

/// What lines emit in a year, in tonnes of CO2 equivalent. A blank counts as zero.
pub(crate) fn equivalent_tonnes<C: Cells>(cells: &C, lines: &[Name], year: u32) -> i128
    requires { length lines.now ≤ most_lines }
    ensures { result ≡ tonnes_of (compilation (C.content cells.now))
        (map (λ name. node.Equiv name year) lines.now) }
{
    let mut sum: i128 = 0;
    for name in lines {
        sum += doubled(&shown(cells, &Node::Equiv(*name, year)));
    }
    tonnes(sum)
}

/// The CO2 that the lines under a category emit in a year, in tonnes. A blank counts as zero.
#[tactic(auto, unfolding(crate::specs::Tables::co2_under))]
pub(crate) fn co2_under<C: Cells>(cells: &C, lines: &[Name], top: Category, year: u32) -> i128
    requires names { lines.now ≡ line_names (C.content cells.now) }
    requires few { length lines.now ≤ most_lines }
    ensures value { result ≡ co2_under top (C.content cells.now) (compilation (C.content cells.now)) year }
    ensures small { unsigned_abs result ≤ largest_tonnes }
{
    let mut sum: i128 = 0;
    for name in lines {
        if is_co2_under(cells, name, top) {
            sum += doubled(&shown(cells, &Node::Line(*name, year)));
        }
    }
    tonnes(sum)
}

fn is_co2_under<C: Cells>(cells: &C, name: &Name, top: Category) -> bool
    ensures { result ≡ option_map_or (λ k. same_gas k.1 Co2 && stands_under k.0 top)
        (emission (C.content cells.now) name.now) false }
{
    match emission(cells.book(), name) {
        Some((category, gas)) => gas == Gas::Co2 && is_under(category, top),
        None => false,
    }
}
