//! A submission of lines that the keeper does not take, the same again, and then a correction.
//!
//! An office that the keeper fails lets these lines go again. Their second submission and the correction have
//! the counts of affected nodes that they would have without the fault.

ghost use Rattle.std.specs.Prelude.{◌≡◌, ◌<◌};

use ghg_keeper::{Keeper, MemoryKeeper};
use ghg_office::{Office, Reply};
use ghg_steps::Steps;
use ghg_workers::OpenGate;
use std::alloc::Global;
use std::hash::RandomState;
use std::marker::Brand;
use std::process::Abort;
use std::random::RandomSource;
use std::sync::ledger::{Blank, Ledger};
use std::test::Fail;
use std::thread::Threads;

const WORKERS: u32 = 2;

// A line of burnt gas.
const PLANT: &[u8] = b"act,kind,subject,name,year,value,low,high,unit,note\n\
    enter,span,,,1990,1991,1990,,,\nenter,line,1A1a,ELEC.GAS,,Q10,,,,\n\
    enter,bind,ELEC.GAS,FC,,activity,GAS.TJ,,,\nenter,bind,ELEC.GAS,EF,,factor,GAS.EF,,,\n\
    enter,activity,,GAS.TJ,1990,1000,,,TJ,\nenter,factor,,GAS.EF,1990,56100,,,kg/TJ,\n";

// The energy of a fuel, and a boiler that burns it with the factor of the plant.
const BOILER: &[u8] = b"act,kind,subject,name,year,value,low,high,unit,note\n\
    enter,line,1A2,FUEL.TJ,,Q13,,,,\nenter,bind,FUEL.TJ,FM,,activity,FUEL.T,,,\n\
    enter,bind,FUEL.TJ,NCV,,factor,FUEL.NCV,,,\nenter,activity,,FUEL.T,1990,1000,,,t,\n\
    enter,factor,,FUEL.NCV,1990,25,,,TJ/Gg,\nenter,line,1A2,BOILER,,Q10,,,,\n\
    enter,bind,BOILER,FC,,line,FUEL.TJ,,,\nenter,bind,BOILER,EF,,factor,GAS.EF,,,\n";

const FACTOR: &[u8] = b"act,kind,subject,name,year,value,low,high,unit,note\n\
    correct,factor,,GAS.EF,1990,56200,,,kg/TJ,\n";

const FUEL: &[u8] = b"act,kind,subject,name,year,value,low,high,unit,note\n\
    correct,activity,,FUEL.T,1990,2000,,,t,\n";

// Whether the replies to these submissions are as they should be, and whether the rows are kept.
fn comes_again<K: Keeper, T: Threads + Sync, L: Ledger>(
    rt: &T,
    alloc: Global,
    hasher: RandomState,
    keeper: &mut K,
    steps: &mut Steps<L>,
) -> bool {
    let Ok(mut office) = Office::reopen(rt, alloc, hasher, keeper, WORKERS, &OpenGate, steps) else {
        return false;
    };
    let plant = office.submit(
        rt, alloc, b"plant", PLANT, WORKERS, &OpenGate, keeper, true, steps,
    );
    let failed = office.submit(
        rt, alloc, b"boiler", BOILER, WORKERS, &OpenGate, keeper, true, steps,
    );
    let boiler = office.submit(
        rt, alloc, b"boiler", BOILER, WORKERS, &OpenGate, keeper, true, steps,
    );
    let factor = office.submit(
        rt, alloc, b"factor", FACTOR, WORKERS, &OpenGate, keeper, true, steps,
    );
    let fuel = office.submit(
        rt, alloc, b"fuel", FUEL, WORKERS, &OpenGate, keeper, true, steps,
    );
    // In each of two years 76 categories, the gross total, a line and its equivalent.
    matches!(plant, Reply::Accepted { seq: 1, cells: 158 })
        && matches!(failed, Reply::KeeperFault)
        // In each year two lines, an equivalent, the totals 1A2, 1A, 1 and 0, and the gross total.
        && matches!(boiler, Reply::Accepted { seq: 2, cells: 16 })
        // In each year two lines, their equivalents, the totals 1A1a, 1A1, 1A2, 1A, 1 and 0, and the gross
        // total.
        && matches!(factor, Reply::Accepted { seq: 3, cells: 22 })
        // In 1990 what the boiler's submission affects in each year.
        && matches!(fuel, Reply::Accepted { seq: 4, cells: 8 })
        && keeper.count() == Ok(4)
}

fn check_with<K: Keeper, T: Threads + Sync, L: Ledger>(
    rt: &T,
    alloc: Global,
    hasher: RandomState,
    blank: Blank,
    keeper: &mut K,
) -> bool
    requires name { blank.name ≡ L.name }
    requires parts { blank.parts ≡ L.parts }
    requires some { 0 < blank.parts }
{
    let mut steps = Steps::<L>::new(blank);
    comes_again(rt, alloc, hasher, keeper, &mut steps)
}

fn check<K: Keeper>(
    rt: &(impl Abort + AllocGlobal + RandomSource + Threads + Sync),
    keeper: &mut K,
) -> Result<(), Fail> {
    let hasher = RandomState::new(rt)?;
    let holds = check_with::<K, _, Brand>(rt, rt.alloc(), hasher, Blank::new(1), keeper);
    assert!(rt; holds);
    Ok(())
}

// The keeper tells how many rows it has, keeps the plant, and fails at the boiler.
#[test]
fn a_submission_comes_again_after_a_fault(rt: HostRuntime) -> Result<(), Fail> {
    let alloc = rt.alloc();
    let mut keeper = MemoryKeeper::new(alloc, Vec::new(alloc), [3].to_vec(alloc)?);
    check(&rt, &mut keeper)
}
