//! A submission, and the same again to an office that is reopened from the keeper's rows.
//!
//! All calls of the office and of the keeper stand in functions over any keeper: there the proof sees what
//! the trait promises, and nothing of a database.

ghost use Rattle.std.specs.Prelude.{◌≡◌, ◌<◌};

use ghg_keeper::{Keeper, MemoryKeeper, SqlKeeper, SteadyKeeper};
use ghg_office::{Office, Reply};
use ghg_steps::Steps;
use ghg_workers::OpenGate;
use sqlite::{Connection, MemStore};
use std::alloc::{AllocError, Global};
use std::hash::RandomState;
use std::marker::Brand;
use std::process::Abort;
use std::random::RandomSource;
use std::sync::ledger::{Blank, Ledger};
use std::test::Fail;
use std::thread::Threads;

const WORKERS: u32 = 2;

// A line of burnt gas.
const PLANT: &[u8] = b"act,kind,subject,name,year,value,low,high,unit,note\n\
    enter,span,,,1990,1991,1990,,,\nenter,line,1A1a,ELEC.GAS,,Q10,,,,\n\
    enter,bind,ELEC.GAS,FC,,activity,GAS.TJ,,,\nenter,bind,ELEC.GAS,EF,,factor,GAS.EF,,,\n\
    enter,activity,,GAS.TJ,1990,1000,,,TJ,\nenter,factor,,GAS.EF,1990,56100,54300,58300,kg/TJ,\n";

// The reply to the plant, from the office that the keeper's rows lead to.
fn submit<K: Keeper, T: Threads + Sync, L: Ledger>(
    rt: &T,
    alloc: Global,
    hasher: RandomState,
    keeper: &mut K,
    steps: &mut Steps<L>,
) -> Option<Reply> {
    match Office::reopen(rt, alloc, hasher, keeper, WORKERS, &OpenGate, steps) {
        Ok(mut office) => Some(office.submit(
            rt, alloc, b"plant", PLANT, WORKERS, &OpenGate, keeper, true, steps,
        )),
        Err(_) => None,
    }
}

// Whether the plant is accepted under the first number, then repeated under it, and is the only row at the
// end.
fn keeps_the_plant<K: Keeper, T: Threads + Sync, L: Ledger>(
    rt: &T,
    alloc: Global,
    hasher: RandomState,
    keeper: &mut K,
    steps: &mut Steps<L>,
) -> bool {
    if keeper.attach("s").is_err() {
        return false;
    }
    let first = submit(rt, alloc, hasher, keeper, steps);
    let again = submit(rt, alloc, hasher, keeper, steps);
    matches!(first, Some(Reply::Accepted { seq: 1, cells: 158 }))
        && matches!(again, Some(Reply::Repeated { seq: 1 }))
        && keeper.count() == Ok(1)
}

// Fails the test where the plant is not kept, and says over which keeper.
fn check<K: Keeper>(
    rt: &(impl Abort + AllocGlobal + RandomSource + Threads + Sync),
    keeper: &mut K,
    form: &str,
) -> Result<(), Fail> {
    let hasher = RandomState::new(rt)?;
    let kept = check_with::<K, _, Brand>(rt, rt.alloc(), hasher, Blank::new(1), keeper);
    assert!(rt; kept, "{form}");
    Ok(())
}

fn check_with<K: Keeper, T: Threads + Sync, L: Ledger>(
    rt: &T,
    alloc: Global,
    hasher: RandomState,
    blank: Blank,
    keeper: &mut K,
) -> bool
    requires name { blank.name ≡ L.name }
    requires parts { blank.parts ≡ L.parts }
    requires some { 0 < blank.parts }
{
    let mut steps = Steps::<L>::new(blank);
    keeps_the_plant(rt, alloc, hasher, keeper, &mut steps)
}

// A keeper over a database in memory.
fn over_memory(alloc: Global) -> Result<SqlKeeper<MemStore>, AllocError> {
    Ok(SqlKeeper::over(Connection::open_in_memory(alloc)?))
}

#[test]
fn rows_in_memory(rt: HostRuntime) -> Result<(), Fail> {
    let alloc = rt.alloc();
    check(&rt, &mut SteadyKeeper::new(alloc), "without faults")?;
    let mut keeper = MemoryKeeper::new(alloc, Vec::new(alloc), Vec::new(alloc));
    check(&rt, &mut keeper, "with a list of faults")
}

#[test]
fn a_table_in_memory(rt: HostRuntime) -> Result<(), Fail> {
    let mut keeper = over_memory(rt.alloc())?;
    check(&rt, &mut keeper, "a table")
}
