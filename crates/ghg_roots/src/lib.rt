//! Square roots and decay factors, each between two whole numbers.
//!
//! No real number is needed: whole numbers bracket the root or the factor by inequalities.
#![tactic(auto)]

ghost use Rattle.std.specs.Prelude.{◌≡◌, ◌+◌, ◌-◌, ◌*◌, ◌<◌, ◌≤◌, ◌+ℤ◌, ◌≤ℤ◌, ◌<ℤ◌, pos};
ghost use Rattle.std.specs.Int.{div_ceil};
ghost use Rattle.ghg_interval.specs.Bounds.{Bounds, between, unit_scale};
ghost use Rattle.ghg_roots.specs.Decay.{HoldsDecay, IsDecayBracket, bracket_of, decay_bounds, most_parts, parts_down, parts_up};
ghost use Rattle.ghg_roots.specs.Roots.{IsRootBracket};

mod laws;

use ghg_interval::{Interval, SCALE, whole_units};
pub use laws::decay_brackets_are_exact;

// How many parts make one unit.
const UNIT: u128 = SCALE as u128;

/// The whole numbers next to the square root of n, the lower one first. Both are the root where n is a
/// square.
pub fn sqrt_bracket(n: u128) -> (u128, u128)
    ensures { IsRootBracket n result.0 result.1 }
{
    let low = n.isqrt();
    if low * low == n {
        (low, low)
    } else {
        (low, low + 1)
    }
}

/// The share of decaying waste that a year leaves, for a half-life in tenths of a year: the factor of which
/// 1024 times the power by the tenths is one, since 1024 is two to the power of ten (2006 IPCC Guidelines,
/// Volume 5, Chapter 3, where it is e^-k with k = ln 2 / half-life).
pub fn decay_bracket(tenths: u32) -> Interval
    requires { (10 ≤ tenths) × (tenths ≤ 600) }
    ensures value { result ≡ decay_bounds tenths }
    ensures bracket { IsDecayBracket 1_024 tenths result }
    ensures only { (b : Bounds) → IsDecayBracket 1_024 tenths b → b ≡ result }
    ensures holds { HoldsDecay 1_024 tenths result }
    ensures width { result.hi ≤ℤ (result.lo +ℤ pos 2_100) }
    ensures sharper { result.hi ≤ℤ (result.lo +ℤ pos 1_025) }
{
    bracket(1_024, tenths)
}

// The number whose power is one of so many parts of a unit.
fn bracket(parts: u128, exponent: u32) -> Interval
    requires some_parts { (2 ≤ parts) × (parts ≤ most_parts) }
    requires positive { 1 ≤ exponent }
    ensures value { result ≡ bracket_of parts exponent }
    ensures bracket { IsDecayBracket parts exponent result }
    ensures only { (b : Bounds) → IsDecayBracket parts exponent b → b ≡ result }
    ensures holds { HoldsDecay parts exponent result }
    ensures width { result.hi ≤ℤ (result.lo +ℤ pos (parts + 1)) }
{
    let (low, high) = bracket_ends(parts, exponent);
    interval_between(low, high)
}

// Both ends of the bracket. The lower one is just below the upper one.
fn bracket_ends(parts: u128, exponent: u32) -> (u128, u128)
    requires some_parts { (2 ≤ parts) × (parts ≤ most_parts) }
    requires positive { 1 ≤ exponent }
    ensures bracket { IsDecayBracket parts exponent (between (pos result.0) (pos result.1)) }
    ensures in_unit { (result.0 < unit_scale) × (result.1 ≤ unit_scale) }
{
    let high = first_reaching(parts, exponent);
    (last_within(parts, exponent, high + 1), high)
}

fn interval_between(low: u128, high: u128) -> Interval
    requires ordered { low ≤ high }
    requires in_unit { high ≤ unit_scale }
    ensures { result ≡ between (pos low) (pos high) }
{
    Interval::new(low as i128, high as i128).unwrap()
}

// The last number of which so many powers, rounded up, are within a unit. The search begins at the guess, and
// goes by Newton's steps from above.
fn last_within(parts: u128, exponent: u32, guess: u128) -> u128
    requires some_parts { (2 ≤ parts) × (parts ≤ most_parts) }
    requires positive { 1 ≤ exponent }
    ensures within { parts_up parts exponent (pos result) ≤ℤ pos unit_scale }
    ensures last { pos unit_scale <ℤ parts_up parts exponent (pos (result + 1)) }
    ensures in_unit { result < unit_scale }
{
    let mut guess = guess;
    let mut low = 0;
    let mut high = UNIT;
    while low + 1 < high {
        let middle = next_between(low, high, guess);
        let reached = parts_up(parts, exponent, middle);
        if reached <= UNIT {
            low = middle;
        } else {
            high = middle;
            guess = step_below(middle, exponent, reached);
        }
    }
    low
}

// The first number of which so many powers, rounded down, reach a unit. The search goes by Newton's steps,
// from a unit.
fn first_reaching(parts: u128, exponent: u32) -> u128
    requires some_parts { (2 ≤ parts) × (parts ≤ most_parts) }
    requires positive { 1 ≤ exponent }
    ensures first { parts_down parts exponent (pos (result - 1)) <ℤ pos unit_scale }
    ensures reaches { pos unit_scale ≤ℤ parts_down parts exponent (pos result) }
    ensures in_unit { (1 ≤ result) × (result ≤ unit_scale) }
{
    let mut guess = step_below(UNIT, exponent, parts * UNIT);
    let mut low = 0;
    let mut high = UNIT;
    while low + 1 < high {
        let middle = next_between(low, high, guess);
        let reached = parts_down(parts, exponent, middle);
        if reached < UNIT {
            low = middle;
        } else {
            high = middle;
            guess = step_below(middle, exponent, reached);
        }
    }
    high
}

// The guess where it is between both numbers, else the middle.
fn next_between(low: u128, high: u128, guess: u128) -> u128
    requires apart { low + 1 < high }
    requires in_unit { high ≤ unit_scale }
    ensures { (low < result) × (result < high) }
{
    if low < guess && guess < high {
        guess
    } else {
        (low + high) / 2
    }
}

// What Newton's step, of at least one, gives below a number of which so many powers reach a unit.
fn step_below(x: u128, exponent: u32, reached: u128) -> u128
    requires positive { 1 ≤ exponent }
    requires reaches { unit_scale ≤ reached }
    ensures { result ≤ x }
{
    let step = x.saturating_mul(reached - UNIT) / reached / u128::from(exponent);
    x.saturating_sub(step.max(1))
}

// So many times the power of a number, with each product rounded up.
fn parts_up(parts: u128, exponent: u32, x: u128) -> u128
    requires some_parts { parts ≤ most_parts }
    requires in_unit { x ≤ unit_scale }
    ensures { pos result ≡ parts_up parts exponent (pos x) }
{
    let mut power = UNIT;
    for _ in 0..exponent {
        power = product_up(power * x);
    }
    parts * power
}

// So many times the power of a number, with each product rounded down.
fn parts_down(parts: u128, exponent: u32, x: u128) -> u128
    requires some_parts { parts ≤ most_parts }
    requires in_unit { x ≤ unit_scale }
    ensures { pos result ≡ parts_down parts exponent (pos x) }
{
    let mut power = UNIT;
    for _ in 0..exponent {
        power = whole_units(power * x);
    }
    parts * power
}

// A product of two numbers over the unit, rounded up.
fn product_up(product: u128) -> u128
    requires { product ≤ unit_scale * unit_scale }
    ensures { result ≡ div_ceil product unit_scale }
{
    whole_units(product + (UNIT - 1))
}
