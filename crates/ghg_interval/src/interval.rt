ghost use Rattle.std.specs.Prelude.{◌≡◌, ◌≤◌, ◌≤ℤ◌, pos, SomeIff, OkIff, IfOk, IsErrOf, IsTrue, ◌↔◌};
ghost use Rattle.ghg_interval.specs.Fractions as fraction;
ghost use Rattle.ghg_interval.specs.Bounds.{IsBounded, AreBounded, IsInterval, HoldsZero, IsWithin, Inside, unit_scale, between, exactly, point, sum, difference, product, quotient, scaled, hull_of};
ghost use Rattle.ghg_interval.specs.Corners.{IsProduct, corner, quotients, side};
ghost use Rattle.ghg_interval.specs.Containment.{Holds, HoldsBy, HoldsScaled, in_units};
ghost use Rattle.ghg_interval.specs.Operations.{exact_in, whole_in, sum_in, difference_in, product_in, quotient_in, scaled_in};

use crate::rounding::{
    bounded_product, ceil, ceil_after, ceil_quotient, ceil_scaled_beside, floor, floor_quotient,
    floor_scaled, greatest, is_bounded, least,
};
use crate::{DivRefusal, Over, SCALE};
use std::marker::Model;

/// All numbers from a lower to an upper bound. The bounds are whole numbers of parts of a unit ([`SCALE`])
/// and are within the limit ([`LIMIT`](crate::LIMIT)).
#[derive(Clone, Copy, Debug, PartialEq, Eq)]
pub struct Interval {
    lo: i128,
    hi: i128,
}

impl Model for Interval {
    ghost use Rattle.ghg_interval.specs.Bounds.{Bounds, IsInterval, between};

    ghost Value = { Bounds };

    ghost view = { λ i. between i.lo i.hi };

    ghost invariant = { λ i. IsInterval (between i.lo i.hi) };

    ghost inverse = { λ b. record { lo = b.lo; hi = b.hi } };
}

impl Interval {
    /// The interval between two bounds, in parts of a unit. `None` where the lower one is greater than the
    /// upper one, or one of them is beyond the limit.
    pub fn new(lo: i128, hi: i128) -> Option<Interval>
        ensures { let b = between lo hi in SomeIff result (IsInterval b) b }
    {
        if lo <= hi && is_bounded(lo) && is_bounded(hi) {
            Some(Interval { lo, hi })
        } else {
            None
        }
    }

    /// The interval of one number, in parts of a unit.
    pub fn exact(n: i128) -> Result<Interval, Over>
        ensures value { let b = exactly n in OkIff result (AreBounded b) b }
        ensures gives { result ≡ exact_in n }
        ensures holds { IfOk result (λ r. Inside r (in_units n)) }
    {
        Interval::limited(n, n)
    }

    /// The interval of one whole number of units.
    pub fn whole(n: i128) -> Result<Interval, Over>
        ensures value { let b = point n in OkIff result (AreBounded b) b }
        ensures gives { result ≡ whole_in n }
        ensures holds { IfOk result (λ r. Inside r (fraction.whole n)) }
    {
        match n.checked_mul(SCALE) {
            Some(parts) => Interval::limited(parts, parts),
            None => Err(Over),
        }
    }

    // The interval between two bounds, where they are within the limit.
    fn limited(lo: i128, hi: i128) -> Result<Interval, Over>
        requires { lo ≤ℤ hi }
        ensures { let b = between lo hi in OkIff result (AreBounded b) b }
    {
        let lo_fits = is_bounded(lo);
        let hi_fits = is_bounded(hi);
        if lo_fits && hi_fits {
            Ok(Interval { lo, hi })
        } else {
            Err(Over)
        }
    }

    /// The lower bound, in parts of a unit.
    pub fn lo(&self) -> i128
        ensures value { result ≡ self.now.lo }
        ensures interval { IsInterval self.now }
    {
        self.lo
    }

    /// The upper bound, in parts of a unit.
    pub fn hi(&self) -> i128
        ensures value { result ≡ self.now.hi }
        ensures interval { IsInterval self.now }
    {
        self.hi
    }

    /// The sums of the numbers of both.
    pub fn add(&self, other: &Interval) -> Result<Interval, Over>
        ensures value { let b = sum self.now other.now in OkIff result (AreBounded b) b }
        ensures gives { result ≡ sum_in self.now other.now }
        ensures holds { IfOk result (HoldsBy fraction.sum self.now other.now) }
    {
        Interval::limited(self.lo + other.lo, self.hi + other.hi)
    }

    /// The differences of the numbers of both.
    pub fn sub(&self, other: &Interval) -> Result<Interval, Over>
        ensures value { let b = difference self.now other.now in OkIff result (AreBounded b) b }
        ensures gives { result ≡ difference_in self.now other.now }
        ensures holds { IfOk result (HoldsBy fraction.difference self.now other.now) }
    {
        Interval::limited(self.lo - other.hi, self.hi - other.lo)
    }

    /// The products of the numbers of both, rounded outward.
    pub fn mul(&self, other: &Interval) -> Result<Interval, Over>
        ensures value { let b = product self.now other.now in OkIff result (AreBounded b) b }
        ensures gives { result ≡ product_in self.now other.now }
        ensures holds { IfOk result (HoldsBy fraction.product self.now other.now) }
    {
        if self.lo == self.hi && other.lo == other.hi {
            Interval::corner(self.lo, other.lo)
        } else if self.lo >= 0 && other.lo >= 0 {
            self.mul_upward(other)
        } else {
            self.mul_any(other)
        }
    }

    // The products where no bound is negative: those of the lower bounds and of the upper ones are the least
    // and the greatest.
    fn mul_upward(&self, other: &Interval) -> Result<Interval, Over>
        requires self_natural { pos 0 ≤ℤ self.now.lo }
        requires other_natural { pos 0 ≤ℤ other.now.lo }
        ensures { let b = product self.now other.now in OkIff result (AreBounded b) b }
    {
        match bounded_product(self.hi, other.hi) {
            Some(greatest) => Ok(Interval::outward(self.lo * other.lo, greatest)),
            None => Err(Over),
        }
    }

    // The least and the greatest product of bounds over the unit, rounded outward.
    fn outward(least: i128, greatest: i128) -> Interval
        requires ordered { least ≤ℤ greatest }
        requires least_in { IsProduct least }
        requires greatest_in { IsProduct greatest }
        ensures { result ≡ quotients least greatest }
    {
        Interval {
            lo: floor(least),
            hi: ceil(greatest),
        }
    }

    // The products in any case, at all four corners.
    fn mul_any(&self, other: &Interval) -> Result<Interval, Over>
        ensures { let b = product self.now other.now in OkIff result (AreBounded b) b }
    {
        match (
            Interval::side(self.lo, other),
            Interval::side(self.hi, other),
        ) {
            (Ok(low), Ok(high)) => Ok(low.hull(&high)),
            _ => Err(Over),
        }
    }

    // The products of a bound and the numbers of an interval.
    fn side(x: i128, other: &Interval) -> Result<Interval, Over>
        requires { IsBounded x }
        ensures { let b = side x other.now in OkIff result (AreBounded b) b }
    {
        match (Interval::corner(x, other.lo), Interval::corner(x, other.hi)) {
            (Ok(low), Ok(high)) => Ok(low.hull(&high)),
            _ => Err(Over),
        }
    }

    // The product of two bounds, rounded both ways.
    fn corner(x: i128, y: i128) -> Result<Interval, Over>
        requires x_bounded { IsBounded x }
        requires y_bounded { IsBounded y }
        ensures { let b = corner x y in OkIff result (AreBounded b) b }
    {
        match bounded_product(x, y) {
            Some(n) => {
                let lo = floor(n);
                Ok(Interval {
                    lo,
                    hi: ceil_after(lo, n),
                })
            }
            None => Err(Over),
        }
    }

    /// The quotients of the numbers of both, rounded outward. Series are spliced by such ratios (2006 IPCC
    /// Guidelines, Volume 1, Chapter 5).
    pub fn div(&self, other: &Interval) -> Result<Interval, DivRefusal>
        ensures zero { IsErrOf result DivRefusal.Zero ↔ HoldsZero other.now }
        ensures value { let b = quotient self.now other.now in
            (HoldsZero other.now → ⊥) → OkIff result (AreBounded b) b }
        ensures gives { result ≡ quotient_in self.now other.now }
        ensures holds { IfOk result (HoldsBy fraction.quotient self.now other.now) }
    {
        if other.holds_zero() {
            Err(DivRefusal::Zero)
        } else {
            match self.quotient(other) {
                Ok(quotient) => Ok(quotient),
                Err(Over) => Err(DivRefusal::Over),
            }
        }
    }

    // Whether zero is between the bounds.
    fn holds_zero(&self) -> bool
        ensures { IsTrue result ↔ HoldsZero self.now }
    {
        self.lo <= 0 && 0 <= self.hi
    }

    // The quotients at all four corners, where the divisor does not hold zero.
    fn quotient(&self, other: &Interval) -> Result<Interval, Over>
        requires { HoldsZero other.now → ⊥ }
        ensures { let b = quotient self.now other.now in OkIff result (AreBounded b) b }
    {
        let lo = least(
            floor_quotient(self.lo, other.lo),
            floor_quotient(self.lo, other.hi),
            floor_quotient(self.hi, other.lo),
            floor_quotient(self.hi, other.hi),
        );
        let hi = greatest(
            ceil_quotient(self.lo, other.lo),
            ceil_quotient(self.lo, other.hi),
            ceil_quotient(self.hi, other.lo),
            ceil_quotient(self.hi, other.hi),
        );
        Interval::limited(lo, hi)
    }

    /// Each number times p over q, rounded outward.
    pub fn scale(&self, p: u64, q: u64) -> Result<Interval, Over>
        requires p_in { (1 ≤ p) × (p ≤ unit_scale) }
        requires q_in { (1 ≤ q) × (q ≤ unit_scale) }
        ensures value { let b = scaled p q self.now in OkIff result (AreBounded b) b }
        ensures gives { result ≡ scaled_in p q self.now }
        ensures holds { IfOk result (HoldsScaled p q self.now) }
    {
        let lo = floor_scaled(self.lo, p, q);
        let hi = ceil_scaled_beside(self.lo, lo, self.hi, p, q);
        Interval::limited(lo, hi)
    }

    /// The least interval that has both in it.
    pub fn hull(&self, other: &Interval) -> Interval
        ensures value { result ≡ hull_of self.now other.now }
        ensures holds_first { Holds self.now result }
        ensures holds_second { Holds other.now result }
    {
        Interval {
            lo: self.lo.min(other.lo),
            hi: self.hi.max(other.hi),
        }
    }

    /// Whether no number is outside the other interval.
    pub fn within(&self, other: &Interval) -> bool
        ensures { IsTrue result ↔ IsWithin self.now other.now }
    {
        other.lo <= self.lo && self.hi <= other.hi
    }
}
