//! How many nodes a submission affects, which its reply counts and no text of a reply shows; and that a
//! repeat spends no step.

ghost use Rattle.std.specs.Prelude.{◌≡◌, ℕ, ◌≤◌, ◌<◌};

use ghg_keeper::{Keeper, SteadyKeeper};
use ghg_office::{Office, Reply};
use ghg_steps::Steps;
use ghg_workers::OpenGate;
use std::alloc::{AllocError, Global};
use std::hash::RandomState;
use std::marker::Brand;
use std::process::Abort;
use std::random::RandomSource;
use std::sync::ledger::{Blank, Ledger};
use std::test::Fail;
use std::thread::Threads;

const WORKERS: u32 = 2;

const HEADER: &[u8] = b"act,kind,subject,name,year,value,low,high,unit,note\n";

const HEADER_2: &[u8] = b"act2,kind,subject,name,year,value,low,high,unit,note\n";

// The years from 1990 to 2020.
const YEARS: &str = "enter,span,,,1990,2020,1990,,,\n";

const TWELVE_YEARS: &str = "enter,span,,,1990,2001,1990,,,\n";

// A line of burnt gas.
const PLANT: &str =
    "enter,line,1A1a,ELEC.GAS,,Q10,,,,\nenter,bind,ELEC.GAS,FC,,activity,GAS.TJ,,,\n\
    enter,bind,ELEC.GAS,EF,,factor,GAS.EF,,,\nenter,activity,,GAS.TJ,1990,1000,,,TJ,\n\
    enter,factor,,GAS.EF,1990,56100,,,kg/TJ,\n";

// As much gas in each year after it, and another factor from 2000 on.
const LATER: &str =
    "enter,activity,,GAS.TJ,1991,1000,,,TJ,\nenter,activity,,GAS.TJ,1992,1000,,,TJ,\n\
    enter,activity,,GAS.TJ,1993,1000,,,TJ,\nenter,activity,,GAS.TJ,1994,1000,,,TJ,\n\
    enter,activity,,GAS.TJ,1995,1000,,,TJ,\nenter,activity,,GAS.TJ,1996,1000,,,TJ,\n\
    enter,activity,,GAS.TJ,1997,1000,,,TJ,\nenter,activity,,GAS.TJ,1998,1000,,,TJ,\n\
    enter,activity,,GAS.TJ,1999,1000,,,TJ,\nenter,activity,,GAS.TJ,2000,1000,,,TJ,\n\
    enter,activity,,GAS.TJ,2001,1000,,,TJ,\nenter,factor,,GAS.EF,2000,55000,,,kg/TJ,\n";

// An activity, and a factor with records of two years.
const SHARED: &str = "enter,span,,,1990,2020,1990,,,\nenter,activity,,GAS.TJ,1990,1000,,,TJ,\n\
    enter,factor,,GAS.EF,1990,56100,,,kg/TJ,\nenter,factor,,GAS.EF,2000,55000,,,kg/TJ,\n";

const CORRECTION: &str = "correct,factor,,GAS.EF,1990,56200,,,kg/TJ,\n";

// As much oil in 1990, given in another unit, 500 TJ in 1991, and none in 1992.
const OIL: &str = "enter,activity,,OIL.TJ,1990,1,,,PJ,\nenter,activity,,OIL.TJ,1991,500,,,TJ,\n\
    enter,activity,,OIL.TJ,1992,NO,,,TJ,\n";

// A landfill of ten years, which takes waste in 1990 alone: the carbon that is deposited in a year, and the
// stock, which takes it and its own stock of the year before.
const LANDFILL: &str = "enter,span,,,1990,1999,1990,,,\nenter,line,4A,DEP,,Q90,,,,\n\
    enter,bind,DEP,W,,activity,WASTE,,,\nenter,bind,DEP,DOC,,factor,DOC,,,\n\
    enter,bind,DEP,DOCF,,factor,DOCF,,,\nenter,bind,DEP,MCF,,factor,MCF,,,\n\
    enter,line,4A,STOCK,,Q91,,,,\nenter,bind,STOCK,DEP,,line,DEP,,,\n\
    enter,bind,STOCK,PREV,,prev,STOCK,,,\nenter,bind,STOCK,D,,decay,HL,,,\n\
    enter,factor,,HL,1990,1,,,yr,\nenter,factor,,DOC,1990,0.15,,,1,\n\
    enter,factor,,DOCF,1990,0.5,,,1,\nenter,factor,,MCF,1990,1,,,1,\n\
    enter,activity,,WASTE,1990,80000,,,t,\nenter,activity,,WASTE,1991,NO,,,t,\n\
    enter,activity,,WASTE,1992,NO,,,t,\nenter,activity,,WASTE,1993,NO,,,t,\n\
    enter,activity,,WASTE,1994,NO,,,t,\nenter,activity,,WASTE,1995,NO,,,t,\n\
    enter,activity,,WASTE,1996,NO,,,t,\nenter,activity,,WASTE,1997,NO,,,t,\n\
    enter,activity,,WASTE,1998,NO,,,t,\nenter,activity,,WASTE,1999,NO,,,t,\n";

// What decays of the stock of the year before, the methane that this makes, and the methane that is emitted.
const METHANE: &str = "enter,line,4A,DEC,,Q92,,,,\nenter,bind,DEC,PREV,,prev,STOCK,,,\n\
    enter,bind,DEC,D,,decay,HL,,,\nenter,line,4A,GEN,,Q93,,,,\nenter,bind,GEN,DEC,,line,DEC,,,\n\
    enter,bind,GEN,F,,factor,F,,,\nenter,factor,,F,1990,0.5,,,1,\nenter,line,4A,LF,,Q94,,,,\n\
    enter,bind,LF,GEN,,line,GEN,,,\nenter,bind,LF,R,,key,NO,,,\nenter,bind,LF,OX,,key,NO,,,\n";

// A submission in format 2, and how many nodes it affects.
#[derive(Drop)]
struct Case {
    // The rows of the submissions that come before, in format 1.
    earlier: &'static [&'static str],
    // How many lines stand behind the rows of the first of them, each bound to one activity and one factor.
    lines: usize,
    rows: &'static str,
    count: u64,
}

const CASES: &[Case] = &[
    // A header alone.
    Case {
        earlier: &[],
        lines: 0,
        rows: "",
        count: 0,
    },
    // 31 years of 76 categories and a gross total.
    Case {
        earlier: &[],
        lines: 0,
        rows: YEARS,
        count: 31 * 77,
    },
    // In each of them a line, its equivalent, the totals 1A1a, 1A1, 1A, 1 and 0, and the gross total.
    Case {
        earlier: &[YEARS],
        lines: 0,
        rows: PLANT,
        count: 31 * 8,
    },
    // The same of the years in which the factor is that of 1990 again: 2000 and 2001.
    Case {
        earlier: &[TWELVE_YEARS, PLANT, LATER],
        lines: 0,
        rows: "withdraw,factor,,GAS.EF,2000,,,,,\n",
        count: 2 * 8,
    },
    // In each year from 1990 to 1999: forty lines, as many equivalents, five totals and the gross total.
    Case {
        earlier: &[SHARED],
        lines: 40,
        rows: CORRECTION,
        count: 10 * 86,
    },
    // The same correction again, under another id.
    Case {
        earlier: &[SHARED, CORRECTION],
        lines: 40,
        rows: CORRECTION,
        count: 0,
    },
    // In each year the totals 1A1a, 1A1, 1A, 1 and 0, and the gross total: they take one equivalent less.
    Case {
        earlier: &[TWELVE_YEARS, PLANT],
        lines: 0,
        rows: "withdraw,line,,ELEC.GAS,,,,,,\nwithdraw,bind,ELEC.GAS,FC,,,,,,\n\
            withdraw,bind,ELEC.GAS,EF,,,,,,\n",
        count: 12 * 6,
    },
    // In each year the totals 1A1a, 1A1 and 1A2: those of 1A and above take the same equivalents as before.
    Case {
        earlier: &[TWELVE_YEARS, PLANT],
        lines: 0,
        rows: "correct,line,1A2,ELEC.GAS,,Q10,,,,\n",
        count: 12 * 3,
    },
    // In each year the totals 1A1a, 1A1, 1A and 1, those of 3B1, 3B and 3, and the gross total, which takes
    // no land. The total 0 takes the same equivalent.
    Case {
        earlier: &[TWELVE_YEARS, PLANT],
        lines: 0,
        rows: "withdraw,line,,ELEC.GAS,,,,,,\nenter,line,3B1,ELEC.GAS,,Q10,,,,\n",
        count: 12 * 8,
    },
    // In 1991 and 1992 a line, its equivalent, five totals and the gross total. In 1990 the line takes as
    // much as before, and from 1993 on neither activity has a figure.
    Case {
        earlier: &[TWELVE_YEARS, PLANT, OIL],
        lines: 0,
        rows: "correct,bind,ELEC.GAS,FC,,activity,OIL.TJ,,,\n",
        count: 2 * 8,
    },
    // What is deposited in 1990, and the stock of each of the ten years.
    Case {
        earlier: &[LANDFILL],
        lines: 0,
        rows: "correct,activity,,WASTE,1990,70000,,,t,\n",
        count: 1 + 10,
    },
    // What is deposited in 1994, and the stocks from that year to 1999.
    Case {
        earlier: &[LANDFILL],
        lines: 0,
        rows: "correct,activity,,WASTE,1994,70000,,,t,\n",
        count: 1 + 6,
    },
    // Besides, in each year from 1991 on, what decays, makes methane and is emitted, its equivalent, the
    // totals 4A, 4 and 0, and the gross total.
    Case {
        earlier: &[LANDFILL, METHANE],
        lines: 0,
        rows: "correct,activity,,WASTE,1990,70000,,,t,\n",
        count: 1 + 10 + 9 * 8,
    },
    // The stock of each year, also of the first, and the eight of each year: the stock and the decayed mass
    // take the half-life.
    Case {
        earlier: &[LANDFILL, METHANE],
        lines: 0,
        rows: "correct,factor,,HL,1990,2.0,,,yr,\n",
        count: 10 + 10 * 8,
    },
    // The same half-life, written to a tenth of a year.
    Case {
        earlier: &[LANDFILL, METHANE],
        lines: 0,
        rows: "correct,factor,,HL,1990,1.0,,,yr,\n",
        count: 0,
    },
    // In 2000 and 2001 an equivalent, five totals and the gross total; the line does not take the potential.
    Case {
        earlier: &[TWELVE_YEARS, PLANT, "enter,factor,,GWP.CO2,1990,1,,,1,\n"],
        lines: 0,
        rows: "enter,factor,,GWP.CO2,2000,2,,,1,\n",
        count: 2 * 7,
    },
    // In each year two lines that take the corrected factor, of which one is new, their equivalents, five
    // totals and the gross total.
    Case {
        earlier: &[TWELVE_YEARS, PLANT],
        lines: 0,
        rows: "correct,factor,,GAS.EF,1990,56200,,,kg/TJ,\nenter,line,1A1a,ELEC.MORE,,Q10,,,,\n\
            enter,bind,ELEC.MORE,FC,,activity,GAS.TJ,,,\nenter,bind,ELEC.MORE,EF,,factor,GAS.EF,,,\n",
        count: 12 * 10,
    },
    // In 1990 the line that takes the activity, its equivalent, five totals and the gross total. The other
    // line takes the factor of the same name.
    Case {
        earlier: &[
            TWELVE_YEARS,
            PLANT,
            OIL,
            "enter,factor,,GAS.TJ,1990,56100,,,kg/TJ,\nenter,line,1A1a,ELEC.OIL,,Q10,,,,\n\
                enter,bind,ELEC.OIL,FC,,activity,OIL.TJ,,,\nenter,bind,ELEC.OIL,EF,,factor,GAS.TJ,,,\n",
        ],
        lines: 0,
        rows: "correct,activity,,GAS.TJ,1990,1100,,,TJ,\n",
        count: 8,
    },
];

// Rows under a header, and lines after them.
fn body_of(alloc: Global, header: &[u8], rows: &str, lines: usize) -> Result<Vec<u8>, AllocError> {
    let mut body = Vec::from_slice(alloc, header)?;
    body.extend_from_slice(rows.as_bytes())?;
    for line in 0..lines {
        let rows = format!(in alloc;
            "enter,line,1A1a,L{line},,Q10,,,,\nenter,bind,L{line},FC,,activity,GAS.TJ,,,\n\
            enter,bind,L{line},EF,,factor,GAS.EF,,,\n"
        )?;
        body.extend_from_slice(rows.as_bytes())?;
    }
    Ok(body)
}

// How many nodes a body affects, which has this number for an id; nothing where it is not accepted.
fn submit<K: Keeper, T: Threads + Sync, L: Ledger>(
    rt: &T,
    alloc: Global,
    office: &mut Office,
    keeper: &mut K,
    steps: &mut Steps<L>,
    number: usize,
    body: &[u8],
) -> Option<u64> {
    let Ok(id) = format!(in alloc; "{number}") else {
        return None;
    };
    match office.submit(
        rt,
        alloc,
        id.as_bytes(),
        body,
        WORKERS,
        &OpenGate,
        keeper,
        false,
        steps,
    ) {
        Reply::Accepted { cells, .. } => Some(cells),
        _ => None,
    }
}

// Whether the submissions before a case are accepted.
fn begins<K: Keeper, T: Threads + Sync, L: Ledger>(
    rt: &T,
    alloc: Global,
    office: &mut Office,
    keeper: &mut K,
    steps: &mut Steps<L>,
    case: &Case,
) -> bool {
    for (number, rows) in case.earlier.iter().enumerate() {
        let lines = if number == 0 { case.lines } else { 0 };
        let Ok(body) = body_of(alloc, HEADER, rows, lines) else {
            return false;
        };
        if submit(rt, alloc, office, keeper, steps, number, &body).is_none() {
            return false;
        }
    }
    true
}

// Whether a submission is accepted after the earlier ones, with this count.
fn counts<K: Keeper, T: Threads + Sync, L: Ledger>(
    rt: &T,
    alloc: Global,
    office: &mut Office,
    keeper: &mut K,
    steps: &mut Steps<L>,
    case: &Case,
) -> bool {
    let Ok(body) = body_of(alloc, HEADER_2, case.rows, 0) else {
        return false;
    };
    let number = case.earlier.len();
    begins(rt, alloc, office, keeper, steps, case)
        && submit(rt, alloc, office, keeper, steps, number, &body) == Some(case.count)
}

// Fails the test where the case does not hold, and shows its rows.
fn check<K: Keeper>(
    rt: &(impl Abort + AllocGlobal + RandomSource + Threads + Sync),
    keeper: &mut K,
    case: &Case,
) -> Result<(), Fail> {
    let hasher = RandomState::new(rt)?;
    let holds = check_with::<K, _, Brand>(rt, rt.alloc(), hasher, Blank::new(1), keeper, case);
    assert!(rt; holds, "{}", case.rows);
    Ok(())
}

fn check_with<K: Keeper, T: Threads + Sync, L: Ledger>(
    rt: &T,
    alloc: Global,
    hasher: RandomState,
    blank: Blank,
    keeper: &mut K,
    case: &Case,
) -> bool
    requires name { blank.name ≡ L.name }
    requires parts { blank.parts ≡ L.parts }
    requires some { 0 < blank.parts }
{
    let mut office = Office::new(alloc, hasher);
    let mut steps = Steps::<L>::new(blank);
    counts(rt, alloc, &mut office, keeper, &mut steps, case)
}

#[test]
fn affected_nodes_are_counted(rt: HostRuntime) -> Result<(), Fail> {
    let mut keeper = SteadyKeeper::new(rt.alloc());
    for case in CASES {
        check(&rt, &mut keeper, case)?;
    }
    Ok(())
}

// The reply to a submission. Where it repeats another, no step is spent.
fn repeat<K: Keeper, T: Threads + Sync, L: Ledger>(
    rt: &T,
    alloc: Global,
    office: &mut Office,
    keeper: &mut K,
    steps: &mut Steps<L>,
    id: &[u8],
    body: &[u8],
) -> Reply
    ensures { (seq : ℕ) → result ≡ Reply.Repeated seq → steps.new ≤ steps.old }
{
    office.submit(
        rt, alloc, id, body, WORKERS, &OpenGate, keeper, false, steps,
    )
}

// Whether a submission is accepted, and then repeated. The contract of `repeat` says that no step is spent.
fn is_repeated<K: Keeper, T: Threads + Sync, L: Ledger>(
    rt: &T,
    alloc: Global,
    hasher: RandomState,
    blank: Blank,
    keeper: &mut K,
) -> bool
    requires name { blank.name ≡ L.name }
    requires parts { blank.parts ≡ L.parts }
    requires some { 0 < blank.parts }
{
    let mut office = Office::new(alloc, hasher);
    let mut steps = Steps::<L>::new(blank);
    let Ok(body) = body_of(alloc, HEADER, SHARED, 1) else {
        return false;
    };
    if submit(rt, alloc, &mut office, keeper, &mut steps, 4, &body).is_none() {
        return false;
    }
    let reply = repeat(rt, alloc, &mut office, keeper, &mut steps, b"4", &body);
    matches!(reply, Reply::Repeated { seq: 1 })
}

#[test]
fn a_repeat_spends_no_step(rt: HostRuntime) -> Result<(), Fail> {
    let mut keeper = SteadyKeeper::new(rt.alloc());
    let hasher = RandomState::new(&rt)?;
    let holds = is_repeated::<SteadyKeeper, _, Brand>(
        &rt,
        rt.alloc(),
        hasher,
        Blank::new(1),
        &mut keeper,
    );
    assert!(rt; holds);
    Ok(())
}
