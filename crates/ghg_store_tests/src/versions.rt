//! Versions of an office: frozen, and set beside what holds after a correction.

ghost use Rattle.std.specs.Prelude.{◌≡◌, ◌<◌};

use ghg_office::Office;
use ghg_steps::Steps;
use ghg_units::Text;
use ghg_versions::{Command, Desk, append_desk_reply};
use ghg_workers::OpenGate;
use std::alloc::{AllocError, Global};
use std::hash::RandomState;
use std::marker::Brand;
use std::process::Abort;
use std::random::RandomSource;
use std::sync::ledger::{Blank, Ledger};
use std::test::Fail;
use std::thread::Threads;

const WORKERS: u32 = 2;

// A line of burnt gas.
const PLANT: &[u8] = b"act,kind,subject,name,year,value,low,high,unit,note\n\
    enter,span,,,1990,1991,1990,,,\nenter,line,1A1a,ELEC.GAS,,Q10,,,,\n\
    enter,bind,ELEC.GAS,FC,,activity,GAS.TJ,,,\nenter,bind,ELEC.GAS,EF,,factor,GAS.EF,,,\n\
    enter,activity,,GAS.TJ,1990,1000,,,TJ,\nenter,factor,,GAS.EF,1990,56100,54300,58300,kg/TJ,\n";

const WEIGHT: &[u8] = b"act,kind,subject,name,year,value,low,high,unit,note\n\
    enter,factor,,GWP.CO2,1990,1,,,1,\n";

// A tenth more gas.
const MORE: &[u8] = b"act,kind,subject,name,year,value,low,high,unit,note\n\
    correct,activity,,GAS.TJ,1990,1100,,,TJ,\n";

fn text(alloc: Global, bytes: &[u8]) -> Result<Text, AllocError> {
    Ok(Text::new(bytes.to_vec(alloc)?))
}

fn submission(alloc: Global, id: &[u8], body: &[u8]) -> Result<Command, AllocError> {
    Ok(Command::Submit {
        id: text(alloc, id)?,
        body: text(alloc, body)?,
    })
}

fn freeze(alloc: Global, name: &[u8]) -> Result<Command, AllocError> {
    Ok(Command::Freeze {
        name: text(alloc, name)?,
    })
}

fn recalculation(alloc: Global, name: &[u8], year: u32) -> Result<Command, AllocError> {
    Ok(Command::Recalc {
        name: text(alloc, name)?,
        year,
    })
}

// Appends the line of the reply to a command, in which the name of a version stands, and a line feed.
fn ask<T: Threads + Sync, L: Ledger>(
    rt: &T,
    alloc: Global,
    desk: &mut Desk,
    command: &Command,
    steps: &mut Steps<L>,
    out: &mut Vec<u8>,
) -> Result<(), AllocError> {
    let reply = desk.step(rt, alloc, command, WORKERS, &OpenGate, steps);
    match command {
        Command::Freeze { name } => append_desk_reply(out, name.as_slice(), &reply)?,
        _ => append_desk_reply(out, b"", &reply)?,
    }
    out.push(b'\n')?;
    Ok(())
}

// The plant is frozen, and then burns a tenth more.
fn commands(alloc: Global) -> Result<Vec<Command>, AllocError> {
    let mut commands = Vec::new(alloc);
    commands.push(submission(alloc, b"a", PLANT)?)?;
    commands.push(submission(alloc, b"b", WEIGHT)?)?;
    commands.push(freeze(alloc, b"V1")?)?;
    commands.push(freeze(alloc, b"V1")?)?;
    commands.push(submission(alloc, b"c", MORE)?)?;
    commands.push(recalculation(alloc, b"V1", 1990)?)?;
    commands.push(freeze(alloc, b"V1")?)?;
    commands.push(freeze(alloc, b"v")?)?;
    commands.push(recalculation(alloc, b"V2", 1990)?)?;
    Ok(commands)
}

// What is replied to these.
fn recalculated<T: Threads + Sync, L: Ledger>(
    rt: &T,
    alloc: Global,
    hasher: RandomState,
    steps: &mut Steps<L>,
) -> Result<Vec<u8>, AllocError> {
    let commands = commands(alloc)?;
    let mut desk = Desk::new(alloc, Office::new(alloc, hasher));
    let mut out = Vec::new(alloc);
    for command in &commands {
        ask(rt, alloc, &mut desk, command, steps, &mut out)?;
    }
    Ok(out)
}

const RECALCULATED: &[u8] = b"accepted 1\naccepted 2\nfrozen V1 2\nfrozen V1 2\naccepted 3\n\
    category,gas,reported,now,difference,percent\n1A1a,CO2,56.100,61.710,5.610,10.00\n\n\
    refused 15 VersionExists 2\nrefused 14 BadVersion\nno table\n";

// An office without data is frozen, and has no year.
fn empty<T: Threads + Sync, L: Ledger>(
    rt: &T,
    alloc: Global,
    hasher: RandomState,
    steps: &mut Steps<L>,
) -> Result<Vec<u8>, AllocError> {
    let mut desk = Desk::new(alloc, Office::new(alloc, hasher));
    let mut out = Vec::new(alloc);
    ask(
        rt,
        alloc,
        &mut desk,
        &freeze(alloc, b"V0")?,
        steps,
        &mut out,
    )?;
    let years = recalculation(alloc, b"V0", 1990)?;
    ask(rt, alloc, &mut desk, &years, steps, &mut out)?;
    Ok(out)
}

const EMPTY: &[u8] = b"frozen V0 0\nno table\n";

fn both<T: Threads + Sync, L: Ledger>(
    rt: &T,
    alloc: Global,
    hasher: RandomState,
    blank: Blank,
) -> Result<(Vec<u8>, Vec<u8>), AllocError>
    requires name { blank.name ≡ L.name }
    requires parts { blank.parts ≡ L.parts }
    requires some { 0 < blank.parts }
{
    let mut steps = Steps::<L>::new(blank);
    let first = recalculated(rt, alloc, hasher, &mut steps)?;
    let second = empty(rt, alloc, hasher, &mut steps)?;
    Ok((first, second))
}

fn check(rt: &(impl Abort + AllocGlobal + RandomSource + Threads + Sync)) -> Result<(), Fail> {
    let hasher = RandomState::new(rt)?;
    let (first, second) = both::<_, Brand>(rt, rt.alloc(), hasher, Blank::new(1))?;
    assert_eq!(rt; first.as_slice(), RECALCULATED);
    assert_eq!(rt; second.as_slice(), EMPTY);
    Ok(())
}

#[test]
fn what_was_frozen_is_set_beside_what_holds(rt: HostRuntime) -> Result<(), Fail> {
    check(&rt)
}
