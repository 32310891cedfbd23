//! Runs whose input, output or store fails, and words that are no command. Sessions without faults are stored
//! in `tests/`.

use crate::words::words_of;
use ghg_keeper::{Keeper, KeptRow, MemoryKeeper};
use ghg_outer::{MemoryDoor, MemorySink, MemorySource};
use ghg_run::run_counted;
use ghg_workers::{Gate, OpenGate};
use std::alloc::{AllocError, Global};
use std::hash::RandomState;
use std::marker::Brand;
use std::process::Abort;
use std::random::RandomSource;
use std::sync::ledger::Blank;
use std::test::Fail;
use std::thread::Threads;

/// A run over an input, an output and a keeper in memory.
#[derive(Drop)]
pub(crate) struct Case<'a> {
    // The words, with a space between them.
    words: &'a str,
    input: &'a str,
    // How many rows are kept: `FIRST` under `a`, and then an empty body under `b`.
    kept: usize,
    // The number of the read, the write and the call of the keeper that fails, from 1, or 0 where none does.
    failing_read: u64,
    failing_write: u64,
    failing_keep: u64,
    status: u8,
    output: &'a str,
    // How many rows are kept in the end.
    rows: u64,
}

// Nothing is read, and nothing fails.
const CALM: Case = Case {
    words: "compile",
    input: "END\n",
    kept: 0,
    failing_read: 0,
    failing_write: 0,
    failing_keep: 0,
    status: 0,
    output: "",
    rows: 0,
};

impl<'a> Case<'a> {
    /// A run without faults and without a store, to the end of its script.
    pub(crate) fn calm(words: &'a str, input: &'a str, output: &'a str) -> Case<'a> {
        Case {
            words,
            input,
            output,
            ..CALM
        }
    }
}

const FIRST: &str = "act,kind,subject,name,year,value,low,high,unit,note\n";

// `FIRST` under `a`, and a table.
const SCRIPT: &str =
    "SUBMIT a 52\nact,kind,subject,name,year,value,low,high,unit,note\nSHOW cells 1990\nEND\n";

/// Runs a case, and compares its status, its output and how many rows are kept.
pub(crate) fn check<G: Gate>(
    rt: &(impl Abort + AllocGlobal + RandomSource + Threads + Sync),
    case: &Case,
    gate: &G,
) -> Result<(), Fail> {
    let alloc = rt.alloc();
    let words = words_of(alloc, case.words)?;
    let text = case.input.as_bytes().to_vec(alloc)?;
    let mut input = MemorySource::new(text, [case.failing_read].to_vec(alloc)?);
    let mut out = MemorySink::new(alloc, [case.failing_write].to_vec(alloc)?);
    let rows = kept_rows(alloc, case.kept)?;
    let mut keeper = MemoryKeeper::new(alloc, rows, [case.failing_keep].to_vec(alloc)?);
    let mut door = MemoryDoor::new(alloc, Vec::new(alloc), Vec::new(alloc));
    let status = run_counted::<_, _, _, _, _, _, Brand>(
        rt,
        alloc,
        RandomState::new(rt)?,
        &words,
        &mut input,
        &mut out,
        &mut keeper,
        &mut door,
        gate,
        Blank::new(1),
    );
    assert_eq!(rt; status, case.status);
    assert_eq!(rt; out.bytes(), case.output.as_bytes());
    assert!(rt; keeper.count() == Ok(case.rows));
    Ok(())
}

// So many rows.
fn kept_rows(alloc: Global, count: usize) -> Result<Vec<KeptRow>, AllocError> {
    let mut rows = Vec::new(alloc);
    for (id, body) in [("a", FIRST), ("b", "")].iter().take(count) {
        rows.push(KeptRow::new(alloc, id.as_bytes(), body.as_bytes())?)?;
    }
    Ok(rows)
}

// The opening submission has 31 years of 77 nodes, and the line 31 of 8.
const SUMMARY: &str = "seed 1\nlines 1\naccepted 2\ncells 2635\ngross 2020 4.048 3.958 4.139\n";

// Words that are no command, and the read or the write that fails.
#[test]
fn words_and_faults(rt: HostRuntime) -> Result<(), Fail> {
    for (words, failing_read, failing_write, status, output) in [
        ("", 0, 0, 2, "bad command line\n"),
        ("compile x", 1, 0, 2, "bad command line\n"),
        ("compiler", 0, 0, 2, "bad command line\n"),
        ("compile --store s --store s", 1, 0, 2, "bad command line\n"),
        ("compile --store .x", 0, 0, 2, "bad command line\n"),
        ("compile --store", 0, 0, 2, "bad command line\n"),
        ("compile --workers 0", 0, 0, 2, "bad command line\n"),
        ("compile --workers 65", 0, 0, 2, "bad command line\n"),
        ("serve --port 8000", 0, 0, 2, "bad command line\n"),
        ("generate --seed 0 --lines 0", 0, 0, 2, "bad command line\n"),
        (
            "serve --port 8000 --connections 0",
            0,
            0,
            2,
            "bad command line\n",
        ),
        // No link is left to be given.
        ("serve --port 8000 --connections 2", 1, 1, 7, ""),
        ("compile x", 0, 1, 5, ""),
        ("compile", 2, 0, 4, ""),
        ("compile --workers=64 --store s", 2, 0, 4, ""),
        ("compile", 0, 1, 5, ""),
        ("generate --seed 1 --lines 1", 1, 0, 0, SUMMARY),
        ("generate --seed 1 --lines 1 --workers 7", 0, 0, 0, SUMMARY),
        ("generate --seed 1 --lines 1", 0, 1, 5, ""),
    ] {
        let case = Case {
            words,
            input: "END",
            failing_read,
            failing_write,
            status,
            output,
            ..CALM
        };
        check(&rt, &case, &OpenGate)?;
    }
    Ok(())
}

const LINEAR: &str = "splice --method linear --name A --unit TJ";

const SURROGATE: &str = "splice --unit=TJ --name=A --method=surrogate";

const OVERLAP: &str = "splice --name A --unit TJ --method overlap";

// Series to splice: y is known in 1990 and 1993; both are in two years, of which the one before has x alone.
const TWO_YEARS: &str = "year,y,y_low,y_high,x,x_low,x_high\n1990,10,9,12,,,\n1993,40,,,,,\n";

const TWO_BASES: &str =
    "year,y,y_low,y_high,x,x_low,x_high\n1990,,,,80,,\n1991,50,,,100,,\n1992,60,,,120,,\n";

const ZERO_BASE: &str = "year,y,y_low,y_high,x,x_low,x_high\n1990,,,,80,,\n1991,50,,,0,-1,1\n";

const RAGGED: &str = "year,y,y_low,y_high,x,x_low,x_high\n1990,10,9,12,,,\n1993,40\n";

const ONE_BOUND: &str = "year,y,y_low,y_high,x,x_low,x_high\n1990,10,9,,,,\n";

const TWO_YEARS_SPLICED: &str = "act,kind,subject,name,year,value,low,high,unit,note\n\
    enter,activity,,A,1991,20.000000000000,19.333333333333,21.333333333334,TJ,linear\n\
    enter,activity,,A,1992,30.000000000000,29.666666666666,30.666666666667,TJ,linear\n";

const BY_SURROGATE: &str = "act,kind,subject,name,year,value,low,high,unit,note\n\
    enter,activity,,A,1990,40.000000000000,40.000000000000,40.000000000000,TJ,surrogate\n";

const BY_OVERLAP: &str = "act,kind,subject,name,year,value,low,high,unit,note\n\
    enter,activity,,A,1990,40.000000000000,40.000000000000,40.000000000000,TJ,overlap\n";

// Series that are spliced, or are not, and the read or the write that fails.
#[test]
fn series_are_spliced(rt: HostRuntime) -> Result<(), Fail> {
    for (words, input, failing_read, failing_write, status, output) in [
        (LINEAR, TWO_YEARS, 0, 0, 0, TWO_YEARS_SPLICED),
        (SURROGATE, TWO_BASES, 0, 0, 0, BY_SURROGATE),
        (OVERLAP, TWO_BASES, 0, 0, 0, BY_OVERLAP),
        (SURROGATE, ZERO_BASE, 0, 0, 10, "not spliced: zero 1991\n"),
        (LINEAR, ZERO_BASE, 0, 0, 10, "not spliced: no base\n"),
        (LINEAR, "year\n", 0, 0, 10, "not spliced: row 0\n"),
        (LINEAR, RAGGED, 0, 0, 10, "not spliced: row 2\n"),
        (LINEAR, ONE_BOUND, 0, 0, 10, "not spliced: row 1\n"),
        (LINEAR, TWO_YEARS, 1, 0, 4, ""),
        (LINEAR, TWO_YEARS, 0, 1, 5, ""),
        (SURROGATE, ZERO_BASE, 0, 1, 5, ""),
        (
            "splice --method linear --name GWP.CO2 --unit TJ",
            "",
            1,
            0,
            2,
            "bad command line\n",
        ),
        (
            "splice --method linear --name A --unit yr",
            "",
            1,
            0,
            2,
            "bad command line\n",
        ),
        (
            "splice --method mean --name A --unit TJ",
            "",
            1,
            0,
            2,
            "bad command line\n",
        ),
        (
            "splice --method linear --name A",
            "",
            1,
            0,
            2,
            "bad command line\n",
        ),
    ] {
        let case = Case {
            words,
            input,
            failing_read,
            failing_write,
            status,
            output,
            ..CALM
        };
        check(&rt, &case, &OpenGate)?;
    }
    Ok(())
}

// The reading of a body and of a line fails, and the writing of a second reply.
#[test]
fn a_fault_ends_the_session(rt: HostRuntime) -> Result<(), Fail> {
    for (failing_read, failing_write, status, output) in [
        (13, 0, 4, ""),
        (20, 0, 4, "accepted 1\n"),
        (0, 2, 5, "accepted 1\n"),
    ] {
        let case = Case {
            input: SCRIPT,
            failing_read,
            failing_write,
            status,
            output,
            ..CALM
        };
        check(&rt, &case, &OpenGate)?;
    }
    Ok(())
}

// The keeper is attached, tells how many rows it has, gives each of them, and then keeps what is accepted.
#[test]
fn a_store_outlives_the_run(rt: HostRuntime) -> Result<(), Fail> {
    for (kept, failing_keep, status, output, rows) in [
        (0, 0, 0, "accepted 1\nno table\n", 1),
        (0, 1, 6, "", 0),
        (0, 2, 6, "", 0),
        (0, 3, 6, "", 0),
        (1, 0, 0, "repeated 1\nno table\n", 1),
        (1, 3, 6, "", 1),
        (2, 0, 9, "kept row 2 refused 4 BadShape row 0\n", 2),
    ] {
        let case = Case {
            words: "compile --store s",
            input: SCRIPT,
            kept,
            failing_keep,
            status,
            output,
            rows,
            ..CALM
        };
        check(&rt, &case, &OpenGate)?;
    }
    Ok(())
}
