//! Operations on intervals.

use crate::cases::{check, interval};
use ghg_interval::{Interval, LIMIT, Over, SCALE, laws};

#[derive(Clone, Copy, Debug, Drop)]
enum Operation {
    Plus,
    Minus,
    Times,
    Hull,
    // A third, a millionth and 10^12 times the first operand.
    Third,
    Millionth,
    Scaled,
}

fn applied(operation: Operation, a: &Interval, b: &Interval) -> Result<Interval, Over> {
    match operation {
        Operation::Plus => a.add(b),
        Operation::Minus => a.sub(b),
        Operation::Times => a.mul(b),
        Operation::Hull => Ok(a.hull(b)),
        Operation::Third => a.scale(1, 3),
        Operation::Millionth => a.scale(1, 1_000_000),
        Operation::Scaled => a.scale(1_000_000_000_000, 1),
    }
}

// An operation, two operands, and its result; nothing where a bound is beyond the limit.
const OPERATIONS: &[(Operation, &str, &str, &str)] = &[
    // 1000 TJ burnt at 54300 to 58300 kg CO2 per TJ are 54.3 to 58.3 Gg, less 0.3 to 1.3 Gg stored.
    (Operation::Times, "1000", "54300,58300", "54300000,58300000"),
    (Operation::Millionth, "54300000,58300000", "0", "54.3,58.3"),
    (Operation::Minus, "54.3,58.3", "0.3,1.3", "53,58"),
    (Operation::Plus, "54.3,58.3", "0.3,1.3", "54.6,59.6"),
    // Bounds that differ in sign: all four corners count.
    (Operation::Times, "-2,3", "-5,1", "-15,10"),
    // What is no whole number of parts is rounded outward.
    (
        Operation::Times,
        "0.000000000001",
        "0.000000000001",
        "0,0.000000000001",
    ),
    (
        Operation::Times,
        "0.000000000001",
        "-0.000000000001",
        "-0.000000000001,0",
    ),
    (
        Operation::Third,
        "-2,2",
        "0",
        "-0.666666666667,0.666666666667",
    ),
    (Operation::Hull, "-0.3,0.1", "-0.1,0.2", "-0.3,0.2"),
    // The limit.
    (Operation::Plus, "most", "0,0.000000000001", ""),
    (Operation::Minus, "most", "0,0.000000000001", ""),
    (Operation::Times, "most", "1,1.000000000001", ""),
    (Operation::Times, "most", "most", ""),
    (Operation::Times, "most", "-1,1", "most"),
    (Operation::Scaled, "most", "0", ""),
];

// Whether an operation gives this.
fn gives(operation: Operation, a: &str, b: &str, want: &str) -> bool {
    match (interval(a), interval(b)) {
        (Some(a), Some(b)) => applied(operation, &a, &b).ok() == interval(want),
        _ => false,
    }
}

#[test]
fn operations_round_outward_within_the_limit(rt: HostRuntime) {
    for (operation, a, b, want) in OPERATIONS {
        check(&rt, gives(*operation, a, b, want), a);
    }
}

// Whether these are no intervals.
fn are_over() -> bool {
    Interval::new(1, 0).is_none()
        && Interval::exact(-LIMIT - 1).is_err()
        && Interval::whole(100_000_000_000_001).is_err()
        && Interval::whole(i128::MIN).is_err()
}

#[test]
fn bounds_are_in_order_and_within_the_limit(rt: HostRuntime) {
    check(&rt, are_over(), "no intervals");
    let least = Interval::whole(-100_000_000_000_000).expect(&rt, "the limit");
    check(
        &rt,
        least.lo() == -LIMIT && least.hi() == -LIMIT,
        "the limit",
    );
    let a = Interval::new(-3, 1).expect(&rt, "bounds in order");
    let both = Interval::new(-3, SCALE).expect(&rt, "bounds in order");
    check(&rt, a.within(&both) && !both.within(&a), "within");
    laws::floors_are_greatest();
    laws::ceils_are_least();
}
