//! What follows of the definitions alone.

ghost use Rattle.std.specs.Prelude.{◌≡◌, ◌^◌, ◌*◌};
ghost use Rattle.ghg_interval.specs.Bounds.{bound_limit, unit_scale};
ghost use Rattle.ghg_cell.specs.Totals.{reported_limit};
ghost use Rattle.ghg_tables.specs.Laws.{BoundsHold, BurntFuelPrints, NearIsNearest, PairsStandInOrder, PowerPlantPrints, SmallestPrints};

/// The printed bounds, as decimals, hold each fraction inside the range.
pub fn bounds_hold()
    ensures { BoundsHold }
{}

/// A rounded number is off by no more than half, and a tie goes away from zero.
pub fn near_is_nearest()
    ensures { NearIsNearest }
{}

/// The row of a power plant that burns 1000 TJ of gas at 56100 kg/TJ, from 54300 to 58300.
pub fn power_plant_prints()
    ensures { PowerPlantPrints }
{}

/// The row of a line that gives the energy of 2000 t of fuel at 48 TJ/Gg, and of one that burns it at
/// 56100 kg/TJ.
pub fn burnt_fuel_prints()
    ensures { BurntFuelPrints }
{}

/// Half of the last decimal rounds away from zero, and the bounds hold it.
pub fn smallest_prints()
    ensures { SmallestPrints }
{}

/// The categories of the tree, each with the gases, stand in tables in the order that decides among key
/// categories of one size.
pub fn pairs_stand_in_order()
    ensures { PairsStandInOrder }
{}

/// The limits of values, whose bounds are kept in 10^-12 of a base unit: a value is at most 10^14, and an
/// equivalent or a total at most 10^9 Gg.
pub fn limits_are_numbers()
    ensures value { bound_limit ≡ 10 ^ 14 * unit_scale }
    ensures reported { reported_limit ≡ 10 ^ 9 * unit_scale }
    ensures scale { unit_scale ≡ 10 ^ 12 }
{}
