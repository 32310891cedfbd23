//! Scaled numbers times a ratio, rounded outward.

ghost use Rattle.std.specs.Prelude.{◌≡◌, ◌≤◌, OkIff, ◌≤ℤ◌};
ghost use Rattle.ghg_interval.specs.Bounds.{AreBounded, between, exactly, scaled};
ghost use Rattle.ghg_interval.specs.Rounding.{floor_by, ceil_by};
ghost use Rattle.ghg_units.specs.Units.{IsRatioPart};

use ghg_interval::{Interval, Over};

/// A number times a ratio, rounded outward.
pub(crate) fn interval_of(parts: i128, over: u64, under: u64) -> Result<Interval, Over>
    requires over_in { IsRatioPart over }
    requires under_in { IsRatioPart under }
    ensures { let b = scaled over under (exactly parts) in OkIff result (AreBounded b) b }
{
    // A product that leaves 128 bits leaves the limit of intervals by far, also divided.
    match parts.checked_mul(i128::from(over)) {
        Some(product) if under == 1 => between(product, product),
        Some(product) => outward(product, under),
        None => Err(Over),
    }
}

// A quotient, rounded outward, by one division.
fn outward(n: i128, d: u64) -> Result<Interval, Over>
    requires { 1 ≤ d }
    ensures { let b = between (floor_by d n) (ceil_by d n) in OkIff result (AreBounded b) b }
{
    let lo = floor(n, d);
    between(lo, ceil_after(lo, n, d))
}

// The interval between two bounds, where they are within the limit.
fn between(lo: i128, hi: i128) -> Result<Interval, Over>
    requires { lo ≤ℤ hi }
    ensures { OkIff result (AreBounded (record { lo = lo; hi = hi })) (record { lo = lo; hi = hi }) }
{
    Interval::new(lo, hi).ok_or(Over)
}

// A quotient, rounded down.
fn floor(n: i128, d: u64) -> i128
    requires { 1 ≤ d }
    ensures { result ≡ floor_by d n }
{
    n.div_euclid(i128::from(d))
}

// A quotient, rounded up, where it is known rounded down. A multiple that leaves 128 bits is not the number.
fn ceil_after(floor: i128, n: i128, d: u64) -> i128
    requires some { 1 ≤ d }
    requires floor_known { floor ≡ floor_by d n }
    ensures { result ≡ ceil_by d n }
{
    match floor.checked_mul(i128::from(d)) {
        Some(multiple) if multiple == n => floor,
        _ => floor + 1,
    }
}
