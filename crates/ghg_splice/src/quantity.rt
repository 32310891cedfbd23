//! Quantities: a central value with the range round it.

ghost use Rattle.std.specs.Prelude.{◌≡◌, ◌≤◌};
ghost use Rattle.ghg_splice.specs.Quantities.{quantities};

use ghg_interval::Interval;

/// A central value and the range round it, computed side by side.
#[derive(Clone, Copy, Drop)]
pub(crate) struct Quantity {
    pub(crate) point: Interval,
    pub(crate) range: Interval,
}

impl Quantity {
    /// The sum of both; nothing where a bound is beyond the limit of intervals.
    pub(crate) fn add(&self, other: &Quantity) -> Option<Quantity>
        ensures { result ≡ quantities.sum self.now other.now }
    {
        let point = self.point.add(&other.point).ok()?;
        let range = self.range.add(&other.range).ok()?;
        Some(Quantity { point, range })
    }

    /// The product of both; nothing where a bound is beyond the limit.
    pub(crate) fn mul(&self, other: &Quantity) -> Option<Quantity>
        ensures { result ≡ quantities.product self.now other.now }
    {
        let point = self.point.mul(&other.point).ok()?;
        let range = self.range.mul(&other.range).ok()?;
        Some(Quantity { point, range })
    }

    /// The quotient of both; nothing where a bound is beyond the limit or the divisor holds zero.
    pub(crate) fn div(&self, other: &Quantity) -> Option<Quantity>
        ensures { result ≡ quantities.quotient self.now other.now }
    {
        let point = self.point.div(&other.point).ok()?;
        let range = self.range.div(&other.range).ok()?;
        Some(Quantity { point, range })
    }

    /// So many times the quantity; nothing where a bound is beyond the limit.
    pub(crate) fn times(&self, n: u32) -> Option<Quantity>
        requires { 1 ≤ n }
        ensures { result ≡ quantities.times n self.now }
    {
        let point = self.point.scale(u64::from(n), 1).ok()?;
        let range = self.range.scale(u64::from(n), 1).ok()?;
        Some(Quantity { point, range })
    }

    /// One part of so many.
    pub(crate) fn over(&self, n: u32) -> Option<Quantity>
        requires { 1 ≤ n }
        ensures { result ≡ quantities.over n self.now }
    {
        let point = self.point.scale(1, u64::from(n)).ok()?;
        let range = self.range.scale(1, u64::from(n)).ok()?;
        Some(Quantity { point, range })
    }
}
