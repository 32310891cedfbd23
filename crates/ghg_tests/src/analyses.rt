//! Roots and uncertainties over worked figures.

use crate::cases::check;
use ghg_interval::Interval;
use ghg_roots::{decay_bracket, sqrt_bracket};
use ghg_trendunc::{Sides, TrendShare, sides, trend_total};
use ghg_uncertainty::{Share, TotalUncertainty, combined, total};

// A whole number, and the two between which its root is. 25 and 0 are squares.
const ROOTS: &[(u128, (u128, u128))] = &[
    (24, (4, 5)),
    (25, (5, 5)),
    (0, (0, 0)),
    (u128::MAX, (0xffff_ffff_ffff_ffff, 0x1_0000_0000_0000_0000)),
];

#[test]
fn roots_are_between_whole_numbers(rt: HostRuntime) {
    for (n, root) in ROOTS {
        check(&rt, sqrt_bracket(*n) == *root, "a root");
    }
}

// Whether a bracket holds the number and the next, between which its factor is.
fn holds(bracket: Interval, number: i64) -> bool {
    bracket.lo() <= i128::from(number) && i128::from(number) < bracket.hi()
}

// A half-life of one year leaves 0.5 in a year, one of 1.5 years 0.6299605249474365.., one of two years
// 0.7071067811865475.., one of 60 years 0.9885140203528961...
#[test]
fn decay_factors_are_bracketed(rt: HostRuntime) {
    let one = decay_bracket(10);
    check(
        &rt,
        one.lo() == 500_000_000_000 && one.hi() == 500_000_000_000,
        "one year",
    );
    check(&rt, holds(decay_bracket(15), 629_960_524_947), "1.5 years");
    check(&rt, holds(decay_bracket(20), 707_106_781_186), "two years");
    check(&rt, holds(decay_bracket(600), 988_514_020_352), "60 years");
}

// 3 and 4 percent make 5, and twice 1000 percent 1414.213...
#[test]
fn errors_of_a_product_propagate(rt: HostRuntime) {
    check(&rt, combined(300, 400) == (500, 500), "3 and 4 percent");
    check(
        &rt,
        combined(100_000, 100_000) == (141_421, 141_422),
        "twice 1000 percent",
    );
}

// What a plant emits.
const PLANT: Share = Share {
    tonnes: 56_100,
    activity: 300,
    factor: 400,
};

// What a forest takes up.
const FOREST: Share = Share {
    tonnes: -6_100,
    activity: 0,
    factor: 1_000,
};

// What takes up as much as the plant emits.
const AWAY: Share = Share {
    tonnes: -56_100,
    activity: 300,
    factor: 400,
};

fn is_between(uncertainty: TotalUncertainty, least: u128, most: u128) -> bool {
    match uncertainty {
        TotalUncertainty::Bracket { low, high } => low == least && high == most,
        TotalUncertainty::Undefined => false,
    }
}

fn is_undefined(uncertainty: TotalUncertainty) -> bool {
    uncertainty == TotalUncertainty::Undefined
}

// 56100 t that are the whole total have the 5 percent of their product. With 6100 t removed at 10 percent,
// the root of 250000 · 56100^2 + 1000000 · 6100^2 is 28705617.2.., over 50000 t 574.11.. hundredths of a
// percent.
#[test]
fn errors_of_a_sum_propagate(rt: HostRuntime) {
    check(&rt, is_between(total(&[PLANT]), 500, 500), "a plant");
    check(
        &rt,
        is_between(total(&[PLANT, FOREST]), 574, 575),
        "a plant and a forest",
    );
    check(&rt, is_undefined(total(&[PLANT, AWAY])), "a sum of zero");
    check(&rt, is_undefined(total(&[])), "no amounts");
}

// ---- the trend

// A line that is its whole sum, of which 10 percent more are emitted than in the base year.
const RISING: TrendShare = TrendShare {
    base: 100_000,
    now: 110_000,
    activity: 300,
    factor: 400,
};

// A line that stays while another, of the same size in the base year, doubles.
const STEADY: TrendShare = TrendShare {
    base: 100_000,
    now: 100_000,
    activity: 0,
    factor: 1_000,
};

const DOUBLED: TrendShare = TrendShare {
    base: 100_000,
    now: 200_000,
    activity: 0,
    factor: 1_000,
};

// 1.1 times 3 percent; a line that is the whole sum does not move the trend.
const OF_ONE: Sides = Sides {
    k_low: 0,
    k_high: 0,
    j_low: 3_300_000,
    j_high: 3_300_000,
};

// 100 · 10000 / (200 · 20100) times 10 percent is 2.487562189.. percent.
const OF_TWO: Sides = Sides {
    k_low: 2_487_562,
    k_high: 2_487_563,
    j_low: 0,
    j_high: 0,
};

// 3.3 percent times the root of two is 4.666904.. percent; 2.487562 and 2.487563 times it are 3.517943.. and
// 3.517945.. percent.
#[test]
fn errors_of_a_trend_propagate(rt: HostRuntime) {
    let one = sides(&RISING, 100_000, 110_000);
    check(&rt, one == Some(OF_ONE), "a line that is the sum");
    let steady = sides(&STEADY, 200_000, 300_000);
    let doubled = sides(&DOUBLED, 200_000, 300_000);
    check(&rt, steady == Some(OF_TWO), "a line that stays");
    check(&rt, doubled == Some(OF_TWO), "a line that doubles");
    check(
        &rt,
        trend_total(&[OF_ONE]) == (4_666_904, 4_666_905),
        "one line",
    );
    check(
        &rt,
        trend_total(&[OF_TWO, OF_TWO]) == (3_517_943, 3_517_946),
        "two lines",
    );
    check(&rt, trend_total(&[]) == (0, 0), "no lines");
}

// A base year that sums to zero, or would with one percent more of the line, and a side of 44 million
// percent.
#[test]
fn lines_without_a_trend_have_no_sides(rt: HostRuntime) {
    check(&rt, sides(&RISING, 0, 110_000).is_none(), "a sum of zero");
    check(
        &rt,
        sides(&RISING, -1_000, 110_000).is_none(),
        "a sum of zero with a percent more",
    );
    check(&rt, sides(&RISING, 0, 0).is_none(), "no sums");
    check(
        &rt,
        sides(&RISING, 1, 110_000).is_none(),
        "too large a part",
    );
}
