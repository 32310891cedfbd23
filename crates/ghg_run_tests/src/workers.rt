//! Several workers: two of them meet, one who is held leaves the rest to the other, and the gate is told of
//! each evaluation, of an office and in a run.

ghost use Rattle.std.specs.Prelude.{◌≡◌, ◌<◌, ◌≤◌};

use crate::meeting::Meeting;
use crate::runs::{Case, check};
use ghg_keeper::{Keeper, SteadyKeeper};
use ghg_office::{Office, Reply};
use ghg_steps::Steps;
use ghg_workers::{OpenGate, Workers};
use std::alloc::{AllocError, Global};
use std::hash::RandomState;
use std::marker::Brand;
use std::process::Abort;
use std::random::RandomSource;
use std::sync::ledger::{Blank, Ledger};
use std::test::Fail;
use std::thread::Threads;

// Lines of one year, none of which takes another.
#[derive(Drop)]
struct Lines {
    count: usize,
    // How many nodes their submission affects: 76 categories, the gross total, each line and its equivalent.
    opening: u64,
    // How many the correction of their activities affects: each line, its equivalent, the totals 1A1a, 1A1,
    // 1A, 1 and 0, and the gross total. The lines come first.
    correction: u64,
}

const TWO: Lines = Lines {
    count: 2,
    opening: 77 + 4,
    correction: 4 + 6,
};

const FOUR: Lines = Lines {
    count: 4,
    opening: 77 + 8,
    correction: 8 + 6,
};

const HEAD: &str = "act,kind,subject,name,year,value,low,high,unit,note\n";

const YEAR: &str = "enter,span,,,1990,1990,1990,,,\nenter,factor,,EF,1990,56100,,,kg/TJ,\n";

// So many lines, each with an activity of its own.
fn opening(alloc: Global, lines: usize) -> Result<String, AllocError> {
    let mut body = String::from_str(alloc, HEAD)?;
    body.push_str(YEAR)?;
    for line in 0..lines {
        let rows = format!(in alloc;
            "enter,line,1A1a,L{line},,Q10,,,,\nenter,bind,L{line},FC,,activity,A{line},,,\n\
            enter,bind,L{line},EF,,factor,EF,,,\nenter,activity,,A{line},1990,1000,,,TJ,\n"
        )?;
        body.push_str(rows.as_str())?;
    }
    Ok(body)
}

// Other activities of so many lines.
fn correction(alloc: Global, lines: usize) -> Result<String, AllocError> {
    let mut body = String::from_str(alloc, HEAD)?;
    for line in 0..lines {
        let row = format!(in alloc; "correct,activity,,A{line},1990,2000,,,TJ,\n")?;
        body.push_str(row.as_str())?;
    }
    Ok(body)
}

// How many nodes a submission affects; nothing where it is not accepted, or the gate was not told of each.
fn submit<K: Keeper, T: Threads + Sync, L: Ledger>(
    alloc: Global,
    workers: &Workers<'_, T, Meeting>,
    office: &mut Office,
    keeper: &mut K,
    steps: &mut Steps<L>,
    id: &[u8],
    body: &str,
) -> Option<u64>
    requires { (1 ≤ workers.now.count) × (workers.now.count ≤ 64) }
{
    let before = workers.gate.calls();
    let reply = office.submit(
        workers.threads,
        alloc,
        id,
        body.as_bytes(),
        workers.count,
        workers.gate,
        keeper,
        false,
        steps,
    );
    match reply {
        Reply::Accepted { cells, .. } if workers.gate.calls() == before.wrapping_add(cells) => {
            Some(cells)
        }
        _ => None,
    }
}

// How many nodes so many lines affect, and then the correction of their activities.
fn counts<K: Keeper, T: Threads + Sync, L: Ledger>(
    alloc: Global,
    workers: &Workers<'_, T, Meeting>,
    office: &mut Office,
    keeper: &mut K,
    steps: &mut Steps<L>,
    lines: usize,
) -> Option<(u64, u64)>
    requires { (1 ≤ workers.now.count) × (workers.now.count ≤ 64) }
{
    let (Ok(opening), Ok(correction)) = (opening(alloc, lines), correction(alloc, lines)) else {
        return None;
    };
    let first = submit(
        alloc,
        workers,
        office,
        keeper,
        steps,
        b"a",
        opening.as_str(),
    )?;
    let second = submit(
        alloc,
        workers,
        office,
        keeper,
        steps,
        b"b",
        correction.as_str(),
    )?;
    Some((first, second))
}

fn counts_with<K: Keeper, T: Threads + Sync, L: Ledger>(
    alloc: Global,
    hasher: RandomState,
    blank: Blank,
    workers: &Workers<'_, T, Meeting>,
    keeper: &mut K,
    lines: usize,
) -> Option<(u64, u64)>
    requires name { blank.name ≡ L.name }
    requires parts { blank.parts ≡ L.parts }
    requires some { 0 < blank.parts }
    requires workers { (1 ≤ workers.now.count) × (workers.now.count ≤ 64) }
{
    let mut office = Office::new(alloc, hasher);
    let mut steps = Steps::<L>::new(blank);
    counts(alloc, workers, &mut office, keeper, &mut steps, lines)
}

// Submits lines and corrects their activities, by so many workers.
fn check_lines(
    rt: &(impl Abort + AllocGlobal + RandomSource + Threads + Sync),
    lines: &Lines,
    workers: u32,
    gate: &Meeting,
) -> Result<(), Fail>
    requires { (1 ≤ workers) × (workers ≤ 64) }
{
    let alloc = rt.alloc();
    let hasher = RandomState::new(rt)?;
    let workers = Workers {
        threads: rt,
        count: workers,
        gate,
    };
    let mut keeper = SteadyKeeper::new(alloc);
    let counts = counts_with::<SteadyKeeper, _, Brand>(
        alloc,
        hasher,
        Blank::new(1),
        &workers,
        &mut keeper,
        lines.count,
    );
    assert!(rt; counts == Some((lines.opening, lines.correction)));
    assert!(rt; gate.have_met());
    Ok(())
}

#[test]
fn each_evaluation_is_told(rt: HostRuntime) -> Result<(), Fail> {
    for workers in [1u32, 2, 7, 64] {
        check_lines(&rt, &FOUR, workers, &Meeting::new(0, [false; 4], 0))?;
    }
    Ok(())
}

#[test]
fn two_lines_meet(rt: HostRuntime) -> Result<(), Fail> {
    let gate = Meeting::new(TWO.opening, [true, true, false, false], 2);
    check_lines(&rt, &TWO, 2, &gate)
}

// However the lines are shared out beforehand, one of these fails.
const HELD: [[bool; 4]; 4] = [
    [true, false, false, false],
    [false, true, false, false],
    [false, false, true, false],
    [false, false, false, true],
];

#[test]
fn one_waits_for_the_rest(rt: HostRuntime) -> Result<(), Fail> {
    for waits in HELD {
        check_lines(&rt, &FOUR, 2, &Meeting::new(FOUR.opening, waits, 4))?;
    }
    Ok(())
}

// ---- runs

// The script of two submissions, `a` and `b`.
fn script(alloc: Global, first: &str, second: &str) -> Result<String, AllocError> {
    format!(in alloc;
        "SUBMIT a {}\n{first}SUBMIT b {}\n{second}END\n",
        first.len(),
        second.len()
    )
}

#[test]
fn two_lines_meet_in_a_run(rt: HostRuntime) -> Result<(), Fail> {
    let alloc = rt.alloc();
    let opening = opening(alloc, TWO.count)?;
    let correction = correction(alloc, TWO.count)?;
    let script = script(alloc, opening.as_str(), correction.as_str())?;
    let gate = Meeting::new(TWO.opening, [true, true, false, false], 2);
    let replies = "accepted 1\naccepted 2\n";
    let case = Case::calm("compile --workers 2", script.as_str(), replies);
    check(&rt, &case, &gate)?;
    assert!(rt; gate.have_met());
    Ok(())
}

// Two lines and two years; BIG.A is over in 1991, and BIG.B in 1990.
const TWO_OVER: &str = "SUBMIT a 435\nact,kind,subject,name,year,value,low,high,unit,note\n\
    enter,span,,,1990,1991,1990,,,\nenter,line,1A1a,BIG.B,,Q10,,,,\n\
    enter,bind,BIG.B,FC,,activity,B,,,\nenter,bind,BIG.B,EF,,factor,EF,,,\n\
    enter,line,1A1a,BIG.A,,Q10,,,,\nenter,bind,BIG.A,FC,,activity,A,,,\n\
    enter,bind,BIG.A,EF,,factor,EF,,,\nenter,activity,,A,1990,1,,,TJ,\n\
    enter,activity,,A,1991,99999999999999,,,TJ,\nenter,activity,,B,1990,99999999999999,,,TJ,\n\
    enter,factor,,EF,1990,2,,,kg/TJ,\nEND\n";

// The least line that is over is named, also where the other is begun first.
#[test]
fn the_least_line_is_named(rt: HostRuntime) -> Result<(), Fail> {
    let refusal = "refused 13 Overflow line:BIG.A:1991\n";
    let case = Case::calm("compile --workers 4", TWO_OVER, refusal);
    check(&rt, &case, &OpenGate)?;
    let gate = Meeting::new(0, [false, true, false, false], 4);
    check(&rt, &case, &gate)?;
    assert!(rt; gate.have_met());
    Ok(())
}
