//! What the tables of cases share: how they write quantities, and how a case fails.

use ghg_cell::Input;
use ghg_interval::{Interval, LIMIT};
use ghg_units::read_decimal;
use std::alloc::Global;
use std::hash::RandomState;
use std::process::Abort;
use std::random::RandomSource;
use std::str;

/// Fails the test where a case does not hold, and says which.
pub fn check(rt: &impl Abort, holds: bool, case: &str) {
    assert!(rt; holds, "{case}");
}

/// What the maps of a workbook hash with.
pub fn hasher(rt: &(impl Abort + RandomSource)) -> RandomState {
    RandomState::new(rt).expect(rt, "random bytes")
}

/// A text that was written.
pub fn word(text: &[u8]) -> &str {
    str::from_utf8(text).unwrap_or("?")
}

/// These bytes.
pub fn bytes(rt: &impl Abort, alloc: Global, content: &[u8]) -> Vec<u8> {
    Vec::from_slice(alloc, content).ok().expect(rt, "memory")
}

/// The calls that fail, by their numbers.
pub fn faults(rt: &impl Abort, alloc: Global, calls: &[u64]) -> Vec<u64> {
    Vec::from_slice(alloc, calls).ok().expect(rt, "memory")
}

/// A decimal, in 10^-12 of its unit.
pub fn number(text: &str) -> Option<i128> {
    read_decimal(text.as_bytes()).map(|decimal| decimal.scaled)
}

/// An interval: its bounds with a comma between them, one number for both, or `most` for the widest.
pub fn interval(text: &str) -> Option<Interval> {
    if text == "most" {
        return Interval::new(-LIMIT, LIMIT);
    }
    let (low, high) = text.split_once(',').unwrap_or((text, text));
    Interval::new(number(low)?, number(high)?)
}

/// A quantity: a value with its low and high bound, with commas between them; a value alone for all three;
/// two bounds of both the point and the range, with a semicolon between them; or `NE` for a blank.
pub fn input(text: &str) -> Option<Input> {
    if text == "NE" {
        return Some(Input::Blank);
    }
    if let Some((low, high)) = text.split_once(';') {
        let both = Interval::new(number(low)?, number(high)?)?;
        return Some(Input::Known {
            point: both,
            range: both,
        });
    }
    let (value, bounds) = text.split_once(',').unwrap_or((text, text));
    Some(Input::Known {
        point: interval(value)?,
        range: interval(bounds)?,
    })
}
