//! Lines of scripts, and what they say.

use ghg_script::{Dialect, Line, Review, ReviewQuery, Script};
use std::process::Abort;
use std::test::Fail;

// Fails with the line where it is not read as it has to be.
fn check(rt: &impl Abort, holds: bool, line: &str) {
    assert!(rt; holds, "{line}");
}

// The word that a line begins with, the name behind it, and the number at its end.
fn parts<'l>(line: &'l Line<ReviewQuery>) -> (&'l str, &'l [u8], u32) {
    match line {
        Line::Submit { id, length } => ("SUBMIT", id.as_slice(), *length),
        Line::Query(ReviewQuery::Show(query)) => ("SHOW", query.table.as_slice(), query.year),
        Line::Query(ReviewQuery::Freeze { name }) => ("FREEZE", name.as_slice(), 0),
        Line::Query(ReviewQuery::Recalc { name, year }) => ("RECALC", name.as_slice(), *year),
        Line::Query(ReviewQuery::Trend { year }) => ("TREND", b"".as_slice(), *year),
        Line::End => ("END", b"".as_slice(), 0),
    }
}

// Lines of a review, with what they say. The longest name has 60 bytes.
const LINES: &[(&str, &str, &str, u32)] = &[
    ("SUBMIT a 12", "SUBMIT", "a", 12),
    ("SHOW cells 1990", "SHOW", "cells", 1990),
    ("FREEZE V1", "FREEZE", "V1", 0),
    ("FREEZE v,\t1", "FREEZE", "v,\t1", 0),
    (
        "FREEZE 012345678901234567890123456789012345678901234567890123456789",
        "FREEZE",
        "012345678901234567890123456789012345678901234567890123456789",
        0,
    ),
    ("RECALC V1 1990", "RECALC", "V1", 1990),
    ("RECALC 1990 0001", "RECALC", "1990", 1),
    (
        "RECALC 012345678901234567890123456789012345678901234567890123456789 2020",
        "RECALC",
        "012345678901234567890123456789012345678901234567890123456789",
        2020,
    ),
    ("TREND 1991", "TREND", "", 1991),
    ("TREND 9999", "TREND", "", 9999),
    ("END", "END", "", 0),
];

#[test]
fn lines_of_a_review_say_what_they_ask_for(rt: HostRuntime) -> Result<(), Fail> {
    for (line, word, name, number) in LINES {
        match Review::read_form(line.as_bytes()) {
            Some(said) => {
                let (begins, named, ends) = parts(&said);
                let same = begins == *word && named == name.as_bytes() && ends == *number;
                check(&rt, same, line);
            }
            None => check(&rt, false, line),
        }
    }
    Ok(())
}

// Lines that begin no command.
const NO_LINES: &[&str] = &[
    "",
    "FREEZE",
    "FREEZE ",
    "FREEZE A B",
    "FREEZE  A",
    "FREEZE V1 ",
    "FREEZE 0123456789012345678901234567890123456789012345678901234567890",
    "freeze V1",
    "RECALC V1",
    "RECALC  1990",
    "RECALC V1 199",
    "RECALC V1 19900",
    "RECALC V1 199x",
    "RECALC V1  1990",
    "RECALC A B 1990",
    "RECALC 0123456789012345678901234567890123456789012345678901234567890 1990",
    "recalc V1 1990",
    "TREND",
    "TREND ",
    "TREND 199",
    "TREND 19900",
    "TREND  1990",
    "TREND 1990 ",
    "TREND V1 1990",
    "trend 1990",
    "SUBMIT a",
    "SUBMIT a 123456789",
    "SHOW Cells 1990",
    "SHOW cells 199",
    "END ",
    "end",
];

#[test]
fn all_else_begins_no_command(rt: HostRuntime) -> Result<(), Fail> {
    for line in NO_LINES {
        check(&rt, Review::read_form(line.as_bytes()).is_none(), line);
    }
    Ok(())
}

// Lines that a review alone has.
const FURTHER_LINES: &[&str] = &["FREEZE V1", "RECALC V1 1990", "TREND 1991"];

#[test]
fn a_script_of_compile_has_no_line_more(rt: HostRuntime) -> Result<(), Fail> {
    for line in FURTHER_LINES {
        check(&rt, Script::read_form(line.as_bytes()).is_none(), line);
    }
    Ok(())
}
