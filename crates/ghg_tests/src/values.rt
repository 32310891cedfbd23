//! Figures, equivalents and totals, and the tickets that pay for values.

ghost use Rattle.std.specs.Prelude.{◌≡◌, ◌<◌};

use crate::cases::{check, input};
use ghg_cell::{Board, Figures, Input, Permits, Ticket, equiv, sum, take, total};
use ghg_interval::Over;
use ghg_steps::Steps;
use std::alloc::Global;
use std::marker::Brand;
use std::process::Abort;
use std::sync::ledger::{Blank, Ledger};

fn permits_of<L: Ledger>(blank: Blank, count: u64) -> Permits
    requires name { blank.name ≡ L.name }
    requires parts { blank.parts ≡ L.parts }
    requires some { 0 < blank.parts }
    ensures { result ≡ count }
{
    take(count, &mut Steps::<L>::new(blank))
}

/// Permits by steps of a ledger of their own.
pub fn permits(count: u64) -> Permits
    ensures { result ≡ count }
{
    permits_of::<Brand>(Blank::new(1), count)
}

/// A ticket, from a board of one place.
pub fn ticket(rt: &impl Abort, alloc: Global) -> Ticket {
    let (board, mut pass) = Board::new(alloc, permits(1)).ok().expect(rt, "memory");
    let (_place, ticket) = board.claim(&mut pass).expect(rt, "a place");
    ticket
}

// Whether figures are these; where there are none, a bound is beyond the limit.
fn are(found: Result<Figures, Over>, want: &str) -> bool {
    found.ok().map(Input::known) == input(want)
}

// 1000 TJ at 56100 kg/TJ, from 54300 to 58300, are 56.1 Gg, from 54.3 to 58.3; 10^12 · 1000 is above 10^14.
#[test]
fn figures_go_with_their_ranges(rt: HostRuntime) {
    let (Some(factor), Some(fuel), Some(most)) = (
        figures("56100,54300,58300"),
        figures("1000"),
        figures("1000000000000"),
    ) else {
        return check(&rt, false, "figures");
    };
    check(
        &rt,
        are(factor.mul(&fuel), "56100000,54300000,58300000"),
        "a product",
    );
    check(&rt, are(factor.scale(1, 1_000), "56.1,54.3,58.3"), "a part");
    check(
        &rt,
        are(factor.add(&factor), "112200,108600,116600"),
        "a sum",
    );
    check(
        &rt,
        are(factor.sub(&factor), "0,-4000,4000"),
        "a difference",
    );
    check(&rt, are(Figures::whole(1), "1"), "a whole number");
    check(&rt, are(most.mul(&fuel), ""), "a product beyond the limit");
    check(
        &rt,
        Input::Blank.figures().is_none() && Input::Blank.is_blank(),
        "a blank",
    );
}

fn figures(text: &str) -> Option<Figures> {
    input(text)?.figures()
}

// A line, a warming potential, and the line's equivalent; nothing where it is beyond the limit, of 10^9 Gg.
const EQUIVALENTS: &[(&str, &str, &str)] = &[
    ("2,2,3", "28,28,30", "56,56,90"),
    ("NE", "28,28,30", "NE"),
    ("2,2,3", "NE", "NE"),
    ("1000000", "1000", "1000000000"),
    ("1000000", "1000,1000,1001", ""),
];

fn equivalent(ticket: Ticket, line: &str, potential: &str) -> Option<Input> {
    let value = equiv(ticket, &input(line)?, &input(potential)?).ok()?;
    Some(*value.input())
}

#[test]
fn equivalents_weigh_lines(rt: HostRuntime) {
    for (line, potential, want) in EQUIVALENTS {
        let ticket = ticket(&rt, rt.alloc());
        check(
            &rt,
            equivalent(ticket, line, potential) == input(want),
            line,
        );
    }
}

// Three parts, their total and their sum; nothing where it is beyond the limit, of 10^9 Gg and of 10^14
// units. A blank counts as zero in a total alone.
const SUMS: &[([&str; 3], &str, &str)] = &[
    (["2,2,3", "NE", "-0.5,-0.5,0.1"], "1.5,1.5,3.1", "NE"),
    (
        ["2,2,3", "0", "-0.5,-0.5,0.1"],
        "1.5,1.5,3.1",
        "1.5,1.5,3.1",
    ),
    (["NE", "NE", "NE"], "0", "NE"),
    (["1000000000", "1", "0"], "", "1000000001"),
    (["1000000000", "1", "-1"], "1000000000", "1000000000"),
    (["99999999999999", "2", "-2"], "", "99999999999999"),
    (["99999999999999", "2", "0"], "", ""),
];

fn parts(texts: &[&str; 3]) -> Option<[Input; 3]> {
    Some([input(texts[0])?, input(texts[1])?, input(texts[2])?])
}

fn totalled(ticket: Ticket, parts: &[Input; 3]) -> Option<Input> {
    let value = total(ticket, parts).ok()?;
    Some(*value.input())
}

#[test]
fn totals_and_sums_have_their_limits_at_their_end(rt: HostRuntime) {
    for (texts, of_total, of_sum) in SUMS {
        let ticket = ticket(&rt, rt.alloc());
        let parts = parts(texts).expect(&rt, "three parts");
        check(&rt, totalled(ticket, &parts) == input(of_total), of_total);
        check(&rt, sum(&parts).ok() == input(of_sum), of_sum);
    }
    check(&rt, sum(&[]).ok() == input("0"), "no parts");
}
