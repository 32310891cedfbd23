//! Each call of the outside fails once: the one of each number, from 1 until a run meets no failure.

use crate::ends;
use crate::serving::{ACCEPTED, REPEATED, SUBMISSION, check, link};
use crate::words::words_of;
use ghg_http::LinkEnd;
use ghg_keeper::{Keeper, MemoryKeeper, SteadyKeeper};
use ghg_outer::{MemoryDoor, MemorySink, MemorySource};
use ghg_run::run_counted;
use ghg_workers::OpenGate;
use std::alloc::Global;
use std::hash::RandomState;
use std::marker::Brand;
use std::process::Abort;
use std::random::RandomSource;
use std::sync::ledger::Blank;
use std::test::Fail;
use std::thread::Threads;

/// A run makes fewer calls on any object.
const MANY: u64 = 1000;

const HEADER: &str = "act,kind,subject,name,year,value,low,high,unit,note\n";

// A line of burnt gas, in 291 bytes.
const PLANT: &str = "act,kind,subject,name,year,value,low,high,unit,note\n\
    enter,span,,,1990,1991,1990,,,\nenter,line,1A1a,ELEC.GAS,,Q10,,,,\n\
    enter,bind,ELEC.GAS,FC,,activity,GAS.TJ,,,\nenter,bind,ELEC.GAS,EF,,factor,GAS.EF,,,\n\
    enter,activity,,GAS.TJ,1990,1000,,,TJ,\nenter,factor,,GAS.EF,1990,56100,54300,58300,kg/TJ,\n";

const TABLE: &str = "table cells 1990 rows 2\ncode,category,equation,gas,unit,value,low,high\n\
    ELEC.GAS,1A1a,Q10,CO2,Gg,56.100,54.300,58.300\n";

const NEXT_TABLE: &str = "table cells 1991 rows 2\ncode,category,equation,gas,unit,value,low,high\n\
    ELEC.GAS,1A1a,Q10,CO2,Gg,NE,NE,NE\n";

const RECALCULATION: &str =
    "table recalc 1990 rows 2\ncategory,gas,reported,now,difference,percent\n\
    1A1a,CO2,0.000,0.000,0.000,-\n";

// Two submissions and a table.
fn two_submissions(alloc: Global) -> Result<String, Fail> {
    Ok(format!(in alloc; "SUBMIT a 291\n{PLANT}SUBMIT b 52\n{HEADER}SHOW cells 1990\nEND\n")?)
}

// What they come to where so many of them are kept before.
fn two_replies(alloc: Global, kept: usize) -> Result<String, Fail> {
    let first = if kept > 0 { "repeated" } else { "accepted" };
    let second = if kept > 1 { "repeated" } else { "accepted" };
    Ok(format!(in alloc; "{first} 1\n{second} 2\n{TABLE}")?)
}

// A submission and two tables.
fn two_tables(alloc: Global) -> Result<String, Fail> {
    Ok(format!(in alloc; "SUBMIT a 291\n{PLANT}SHOW cells 1990\nSHOW cells 1991\nEND\n")?)
}

// The status of a run over this keeper, and what it wrote.
fn ended<K: Keeper>(
    rt: &(impl Abort + AllocGlobal + RandomSource + Threads + Sync),
    words: &str,
    script: &[u8],
    failing_read: u64,
    failing_write: u64,
    keeper: &mut K,
) -> Result<(u8, Vec<u8>), Fail> {
    let alloc = rt.alloc();
    let words = words_of(alloc, words)?;
    let mut input = MemorySource::new(script.to_vec(alloc)?, [failing_read].to_vec(alloc)?);
    let mut out = MemorySink::new(alloc, [failing_write].to_vec(alloc)?);
    let mut door = MemoryDoor::new(alloc, Vec::new(alloc), Vec::new(alloc));
    let status = run_counted::<_, _, _, _, _, _, Brand>(
        rt,
        alloc,
        RandomState::new(rt)?,
        &words,
        &mut input,
        &mut out,
        keeper,
        &mut door,
        &OpenGate,
        Blank::new(1),
    );
    Ok((status, out.bytes().to_vec(alloc)?))
}

// Lets a read of each number fail, or a write: then the status is this, and a prefix was written.
fn check_prefixes(
    rt: &(impl Abort + AllocGlobal + RandomSource + Threads + Sync),
    words: &str,
    script: &str,
    whole: &str,
    is_read: bool,
    due_status: u8,
) -> Result<(), Fail> {
    let mut is_whole = false;
    for number in 1..MANY {
        let (read, write) = if is_read { (number, 0) } else { (0, number) };
        let mut keeper = SteadyKeeper::new(rt.alloc());
        let (status, output) = ended(rt, words, script.as_bytes(), read, write, &mut keeper)?;
        assert!(rt; whole.as_bytes().starts_with(&output));
        is_whole = output.len() == whole.len() && status == 0;
        if is_whole {
            assert!(rt; number > 1);
            break;
        }
        assert_eq!(rt; status, due_status);
    }
    assert!(rt; is_whole);
    Ok(())
}

// The same of a session and of a review.
fn check_scripts(
    rt: &(impl Abort + AllocGlobal + RandomSource + Threads + Sync),
    is_read: bool,
    due_status: u8,
) -> Result<(), Fail> {
    let script = two_submissions(rt.alloc())?;
    let whole = two_replies(rt.alloc(), 0)?;
    let review = format!(in rt.alloc(); "SUBMIT a 291\n{PLANT}FREEZE V\nRECALC V 1990\nEND\n")?;
    let told = format!(in rt.alloc(); "accepted 1\nfrozen V 1\n{RECALCULATION}")?;
    check_prefixes(
        rt,
        "compile",
        script.as_str(),
        whole.as_str(),
        is_read,
        due_status,
    )?;
    check_prefixes(
        rt,
        "review",
        review.as_str(),
        told.as_str(),
        is_read,
        due_status,
    )
}

#[test]
fn each_read_fails_once(rt: HostRuntime) -> Result<(), Fail> {
    check_scripts(&rt, true, 4)
}

#[test]
fn each_write_fails_once(rt: HostRuntime) -> Result<(), Fail> {
    check_scripts(&rt, false, 5)
}

// A new run over the same keeper repeats what was acknowledged, and nothing else.
#[test]
fn each_call_of_the_keeper_fails_once(rt: HostRuntime) -> Result<(), Fail> {
    let alloc = rt.alloc();
    let script = two_submissions(alloc)?;
    let whole = two_replies(alloc, 0)?;
    let words = "compile --store s";
    let mut is_whole = false;
    for number in 1..MANY {
        let mut keeper = MemoryKeeper::new(alloc, Vec::new(alloc), [number].to_vec(alloc)?);
        let (status, output) = ended(&rt, words, script.as_bytes(), 0, 0, &mut keeper)?;
        assert!(rt; whole.as_bytes().starts_with(&output));
        is_whole = output.len() == whole.len() && status == 0;
        if is_whole {
            assert!(rt; number > 1);
            break;
        }
        assert_eq!(rt; status, 6);
        // The reply to a submission that was accepted has 11 bytes.
        let kept = output.len() / 11;
        let (again, output) = ended(&rt, words, script.as_bytes(), 0, 0, &mut keeper)?;
        assert_eq!(rt; again, 0);
        assert_eq!(rt; output.as_slice(), two_replies(alloc, kept)?.as_bytes());
    }
    assert!(rt; is_whole);
    Ok(())
}

// How many calls a submission makes on its link: all but the last are reads.
fn calls_on_a_link(
    rt: &(impl Abort + AllocGlobal + RandomSource + Threads + Sync),
) -> Result<u64, Fail> {
    let mut calls = 0;
    for number in 1..MANY {
        let (end, written) = ends::end(rt, SUBMISSION.as_bytes(), number)?;
        if end == LinkEnd::Served(201) {
            calls = number - 1;
            break;
        }
        assert_eq!(rt; end, LinkEnd::LinkFault);
        assert!(rt; written.is_empty());
    }
    Ok(calls)
}

// The next link is served: the submission acted before where the reply could not be written, and not where a
// read failed.
#[test]
fn each_call_of_a_link_fails_once(rt: HostRuntime) -> Result<(), Fail> {
    let alloc = rt.alloc();
    let calls = calls_on_a_link(&rt)?;
    assert!(rt; calls > 1);
    for number in 1..=calls {
        let first = link(alloc, SUBMISSION.as_bytes(), number)?;
        let again = link(alloc, SUBMISSION.as_bytes(), 0)?;
        check(
            &rt,
            "serve --port 8000 --connections 2",
            Vec::from_array(alloc, [first, again])?,
            &mut SteadyKeeper::new(alloc),
            0,
            &["", if number < calls { ACCEPTED } else { REPEATED }],
        )?;
    }
    Ok(())
}

#[test]
fn each_proper_prefix_of_a_request_is_cut_off(rt: HostRuntime) -> Result<(), Fail> {
    let request = format!(in rt.alloc();
        "POST /submissions/a HTTP/1.1\r\nContent-Length: 291\r\n\r\n{PLANT}"
    )?;
    let whole = request.as_bytes();
    for cut in 0..whole.len() {
        let (end, written) = ends::end(&rt, &whole[..cut], 0)?;
        assert_eq!(rt; end, LinkEnd::Cut);
        assert!(rt; written.is_empty());
    }
    Ok(())
}

#[test]
fn each_proper_prefix_of_a_script_is_none(rt: HostRuntime) -> Result<(), Fail> {
    let script = two_tables(rt.alloc())?;
    let whole = script.as_bytes();
    for cut in 0..whole.len() {
        let mut keeper = SteadyKeeper::new(rt.alloc());
        let (status, _) = ended(&rt, "compile", &whole[..cut], 0, 0, &mut keeper)?;
        assert_eq!(rt; status, 3);
    }
    Ok(())
}

#[test]
fn bytes_behind_the_end_change_nothing(rt: HostRuntime) -> Result<(), Fail> {
    let script = two_tables(rt.alloc())?;
    let whole = format!(in rt.alloc(); "accepted 1\n{TABLE}{NEXT_TABLE}")?;
    for byte in 0..=u8::MAX {
        let mut longer = script.as_bytes().to_vec(rt.alloc())?;
        longer.push(byte)?;
        let mut keeper = SteadyKeeper::new(rt.alloc());
        let (status, output) = ended(&rt, "compile", &longer, 0, 0, &mut keeper)?;
        assert_eq!(rt; status, 0);
        assert_eq!(rt; output.as_slice(), whole.as_bytes());
    }
    Ok(())
}

// The third row begins behind the line of the command, the header and two rows.
#[test]
fn a_byte_that_is_no_text_is_told_by_its_row(rt: HostRuntime) -> Result<(), Fail> {
    let mut script = Vec::new(rt.alloc());
    for (at, byte) in two_submissions(rt.alloc())?.as_bytes().iter().enumerate() {
        script.push(if at == 13 + 52 + 31 + 34 { 0xFF } else { *byte })?;
    }
    let mut keeper = SteadyKeeper::new(rt.alloc());
    let (status, output) = ended(&rt, "compile", &script, 0, 0, &mut keeper)?;
    assert_eq!(rt; status, 0);
    let due = "refused 4 BadShape row 3\naccepted 1\nno table\n";
    assert_eq!(rt; output.as_slice(), due.as_bytes());
    Ok(())
}
