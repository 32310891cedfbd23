//! Tables of compiled workbooks, against texts that were worked by hand.

ghost use Rattle.std.specs.Prelude.{◌≡◌, true};
ghost use Rattle.ghg_definitions.specs.Compilation.{is_year_of};
ghost use Rattle.ghg_definitions.specs.Data.{span};

use crate::cases::{check, hasher, word};
use crate::workbooks::enter;
use ghg_data::{Book, Records};
use ghg_engine::Engine;
use ghg_graph::Cells;
use ghg_tables::{Table, print};
use std::alloc::Global;
use std::process::Abort;
use std::thread::Threads;

// Two years, and a fuel of which each TJ emits 1 Gg of CO2.
const YEARS: &str = "enter,span,,,1990,1991,1990,,,\nenter,factor,,GWP.CO2,1990,1,,,1,\n\
    enter,factor,,ONE,1990,1000000,,,kg/TJ,\n";

// Lines that burn it.
const PLANT: &str = "enter,line,1A1a,PLANT,,Q10,,,,\nenter,bind,PLANT,FC,,activity,PLANT,,,\n\
    enter,bind,PLANT,EF,,factor,ONE,,,\n";

const FACTORY: &str =
    "enter,line,1A2,FACTORY,,Q10,,,,\nenter,bind,FACTORY,FC,,activity,FACTORY,,,\n\
    enter,bind,FACTORY,EF,,factor,ONE,,,\n";

const OTHER: &str = "enter,line,1A5,OTHER,,Q10,,,,\nenter,bind,OTHER,FC,,activity,OTHER,,,\n\
    enter,bind,OTHER,EF,,factor,ONE,,,\n";

const BALANCE: &str = "enter,line,RA,BALANCE,,Q10,,,,\nenter,bind,BALANCE,FC,,activity,BALANCE,,,\n\
    enter,bind,BALANCE,EF,,factor,ONE,,,\n";

const UNCERTAIN: &str = "enter,uncert,,PLANT,,3,4,,,\n";

// The stock of a forest grows by 6 GgC, from 3 to 9, and loses 3, from 2.7 to 6.
const FOREST: &str = "enter,line,3B1,FC1,,Q83,,,,\nenter,bind,FC1,G,,activity,GAIN,,,\n\
    enter,bind,FC1,L,,activity,LOSS,,,\nenter,activity,,GAIN,1990,6,3,9,GgC,\n\
    enter,activity,,LOSS,1990,3,2.7,6,GgC,\nenter,line,3B1,FOR,,Q84,,,,\n\
    enter,bind,FOR,C,,line,FC1,,,\n";

// The lines, their activities, a table, its year, and its text.
type Case = (
    &'static [&'static str],
    &'static str,
    Table,
    u32,
    &'static str,
);

const TABLES: &[Case] = &[
    // 3 GgC are 11 Gg of CO2, from -23.1 to 11.
    (
        &[FOREST],
        "",
        Table::Level,
        1990,
        "category,gas,value,share,cumulative,key\n3B1,CO2,-11.000,100.00,100.00,yes\n",
    ),
    // 20 · 95000 is not less than 19 · 100000.
    (
        &[PLANT, FACTORY],
        "enter,activity,,PLANT,1990,95,,,TJ,\nenter,activity,,FACTORY,1990,5,,,TJ,\n",
        Table::Level,
        1990,
        "category,gas,value,share,cumulative,key\n1A1a,CO2,95.000,95.00,95.00,yes\n\
        1A2,CO2,5.000,5.00,100.00,no\n",
    ),
    // Of two pairs of one size the first code stands first.
    (
        &[OTHER, PLANT, FACTORY],
        "enter,activity,,PLANT,1990,90,,,TJ,\nenter,activity,,FACTORY,1990,5,,,TJ,\n\
        enter,activity,,OTHER,1990,5,,,TJ,\n",
        Table::Level,
        1990,
        "category,gas,value,share,cumulative,key\n1A1a,CO2,90.000,90.00,90.00,yes\n\
        1A2,CO2,5.000,5.00,95.00,yes\n1A5,CO2,5.000,5.00,100.00,no\n",
    ),
    // Two thirds are 66.67 percent. A line at the reference approach is in no pair.
    (
        &[PLANT, FACTORY, BALANCE],
        "enter,activity,,PLANT,1990,1,,,TJ,\nenter,activity,,FACTORY,1990,2,,,TJ,\n\
        enter,activity,,BALANCE,1990,9,,,TJ,\n",
        Table::Level,
        1990,
        "category,gas,value,share,cumulative,key\n1A2,CO2,2.000,66.67,66.67,yes\n\
        1A1a,CO2,1.000,33.33,100.00,yes\n",
    ),
    // What is not estimated counts as zero.
    (
        &[PLANT],
        "enter,activity,,PLANT,1990,NE,,,TJ,\n",
        Table::Level,
        1990,
        "category,gas,value,share,cumulative,key\n1A1a,CO2,0.000,-,-,no\n",
    ),
    // Both add 10^9 to a trend of 10^10, in tonnes.
    (
        &[PLANT, FACTORY],
        "enter,activity,,PLANT,1990,0,,,TJ,\nenter,activity,,PLANT,1991,10,,,TJ,\n\
        enter,activity,,FACTORY,1990,100,,,TJ,\nenter,activity,,FACTORY,1991,100,,,TJ,\n",
        Table::Trend,
        1991,
        "category,gas,base,value,trend,share,cumulative,key\n\
        1A1a,CO2,0.000,10.000,10.00,50.00,50.00,yes\n\
        1A2,CO2,100.000,100.000,10.00,50.00,100.00,yes\n",
    ),
    // The base year sums to zero.
    (
        &[PLANT, FACTORY],
        "enter,activity,,PLANT,1990,0,,,TJ,\nenter,activity,,PLANT,1991,10,,,TJ,\n\
        enter,activity,,FACTORY,1991,20,,,TJ,\n",
        Table::Trend,
        1991,
        "category,gas,base,value,trend,share,cumulative,key\n1A1a,CO2,0.000,10.000,-,-,-,no\n\
        1A2,CO2,0.000,20.000,-,-,-,no\n",
    ),
    // Nothing changes.
    (
        &[PLANT],
        "enter,activity,,PLANT,1990,10,,,TJ,\nenter,activity,,PLANT,1991,10,,,TJ,\n",
        Table::Trend,
        1991,
        "category,gas,base,value,trend,share,cumulative,key\n\
        1A1a,CO2,10.000,10.000,0.00,-,-,no\n",
    ),
    // Exactly 5 percent, and a little more.
    (
        &[PLANT, BALANCE],
        "enter,activity,,PLANT,1990,100,,,TJ,\nenter,activity,,BALANCE,1990,105,,,TJ,\n",
        Table::Reference,
        1990,
        "item,value\nreference,105.000\nsectoral,100.000\ndifference,5.000\npercent,5.00\nflag,no\n",
    ),
    (
        &[PLANT, BALANCE],
        "enter,activity,,PLANT,1990,100,,,TJ,\nenter,activity,,BALANCE,1990,105.001,,,TJ,\n",
        Table::Reference,
        1990,
        "item,value\nreference,105.001\nsectoral,100.000\ndifference,5.001\npercent,5.00\nflag,yes\n",
    ),
    // Nothing is burnt by sectors.
    (
        &[PLANT, BALANCE],
        "enter,activity,,PLANT,1990,NE,,,TJ,\nenter,activity,,BALANCE,1990,105,,,TJ,\n",
        Table::Reference,
        1990,
        "item,value\nreference,105.000\nsectoral,0.000\ndifference,105.000\npercent,-\nflag,-\n",
    ),
    // The first year has none before it.
    (
        &[PLANT],
        "enter,activity,,PLANT,1990,-100,,,TJ,\nenter,activity,,PLANT,1991,-130,,,TJ,\n",
        Table::Checks,
        1990,
        "category,gas,previous,value,change,flag\n1A1a,CO2,-,-100.000,-,-\n",
    ),
    // 30 less than -100 are -30 percent.
    (
        &[PLANT],
        "enter,activity,,PLANT,1990,-100,,,TJ,\nenter,activity,,PLANT,1991,-130,,,TJ,\n",
        Table::Checks,
        1991,
        "category,gas,previous,value,change,flag\n1A1a,CO2,-100.000,-130.000,-30.00,yes\n",
    ),
    // Exactly 20 percent, and a year before of zero.
    (
        &[PLANT, FACTORY],
        "enter,activity,,PLANT,1990,100,,,TJ,\nenter,activity,,PLANT,1991,120,,,TJ,\n\
        enter,activity,,FACTORY,1991,120,,,TJ,\n",
        Table::Checks,
        1991,
        "category,gas,previous,value,change,flag\n1A1a,CO2,100.000,120.000,20.00,no\n\
        1A2,CO2,0.000,120.000,-,-\n",
    ),
    // Without records nothing is said of the total.
    (
        &[PLANT, FACTORY],
        "enter,activity,,PLANT,1990,100,,,TJ,\nenter,activity,,FACTORY,1990,NE,,,TJ,\n",
        Table::Uncertainty,
        1990,
        "code,category,gas,value,activity,factor,combined_low,combined_high\n\
        FACTORY,1A2,CO2,NE,-,-,-,-\nPLANT,1A1a,CO2,100.000,-,-,-,-\n\
        total,-,-,100.000,-,-,-,-\n",
    ),
    // 3 and 4 percent make 5, and a line that emits nothing needs no record.
    (
        &[PLANT, FACTORY, UNCERTAIN],
        "enter,activity,,PLANT,1990,56.1,,,TJ,\nenter,activity,,FACTORY,1990,NE,,,TJ,\n",
        Table::Uncertainty,
        1990,
        "code,category,gas,value,activity,factor,combined_low,combined_high\n\
        FACTORY,1A2,CO2,NE,-,-,-,-\nPLANT,1A1a,CO2,56.100,3.00,4.00,5.00,5.00\n\
        total,-,-,56.100,-,-,5.00,5.00\n",
    ),
    // The total is zero.
    (
        &[PLANT, UNCERTAIN],
        "enter,activity,,PLANT,1990,56.1,,,TJ,\n",
        Table::Uncertainty,
        1991,
        "code,category,gas,value,activity,factor,combined_low,combined_high\n\
        PLANT,1A1a,CO2,NE,3.00,4.00,5.00,5.00\ntotal,-,-,0.000,-,-,-,-\n",
    ),
];

// Whether a year is one of a workbook's.
fn has_year(book: &Book, year: u32) -> bool
    ensures { result ≡ is_year_of (span book.now.content) year }
{
    match book.span() {
        Some(span) => span.first <= year && year <= span.last,
        None => false,
    }
}

// Whether a table of a year has this text.
fn prints(alloc: Global, engine: &Engine, table: Table, year: u32, want: &str) -> bool {
    if !has_year(engine.book(), year) {
        return false;
    }
    match print(alloc, table, year, engine) {
        Ok(text) => word(text.as_slice()) == want,
        Err(_) => false,
    }
}

// Submits lines and activities, and looks at a table.
fn check_table(
    rt: &(impl Abort + Threads + Sync),
    alloc: Global,
    engine: &mut Engine,
    case: &Case,
) {
    let (lines, activities, table, year, want) = *case;
    enter(rt, alloc, engine, YEARS);
    enter(rt, alloc, engine, activities);
    for line in lines {
        enter(rt, alloc, engine, line);
    }
    check(rt, prints(alloc, engine, table, year, want), want);
}

#[test]
fn analyses_print_what_was_worked_by_hand(rt: HostRuntime) {
    for case in TABLES {
        check_table(
            &rt,
            rt.alloc(),
            &mut Engine::new(rt.alloc(), hasher(&rt)),
            case,
        );
    }
}
