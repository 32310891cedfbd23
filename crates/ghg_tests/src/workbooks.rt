//! Rows that are read, planned and compiled.

ghost use Rattle.std.specs.Prelude.{◌≡◌, ◌<◌};
ghost use Rattle.std.specs.List.{AllByRecursion};
ghost use Rattle.ghg_units.specs.WellFormed.{IsWellFormed};

use crate::cases::{check, hasher, input, word};
use ghg_categories::{Category, named};
use ghg_cell::Input;
use ghg_data::{Book, PlanRefusal, Records, after, params_of};
use ghg_definitions::RecordKey;
use ghg_engine::{Engine, EngineRefusal};
use ghg_equations::EqId;
use ghg_graph::{
    Cells, CycleRefusal, Operand, bound_operand, check_acyclic, counts_in_gross, first_year,
    inputs_of, line_order, potential,
};
use ghg_import::{Rows, is_too_long, read_rows};
use ghg_steps::Steps;
use ghg_units::{Binding, Name, Node, ParamName, Row, append_rule};
use ghg_workers::OpenGate;
use std::alloc::{AllocError, Global};
use std::marker::Brand;
use std::process::Abort;
use std::random::RandomSource;
use std::sync::ledger::{Blank, Ledger};
use std::thread::Threads;

fn name(rt: &impl Abort, text: &str) -> Name {
    Name::new(text.as_bytes()).expect(rt, "a name")
}

fn parameter(rt: &impl Abort, text: &str) -> ParamName {
    ParamName::new(text.as_bytes()).expect(rt, "a parameter")
}

// The rows under their header.
fn body_of(alloc: Global, rows: &str) -> Result<Vec<u8>, AllocError> {
    let mut body = Vec::from_slice(
        alloc,
        b"act,kind,subject,name,year,value,low,high,unit,note\n",
    )?;
    body.extend_from_slice(rows.as_bytes())?;
    Ok(body)
}

// What the rows say.
fn read(rt: &impl Abort, alloc: Global, rows: &str) -> Rows
    ensures { AllByRecursion IsWellFormed result.rows.items }
{
    let body = body_of(alloc, rows).ok().expect(rt, "memory");
    assert!(rt; !is_too_long(&body));
    read_rows(alloc, &body).ok().expect(rt, "memory")
}

// The refusal of rows, or no text where the book has them now.
fn submit(rt: &impl Abort, alloc: Global, book: &mut Book, rows: &str, kept_bytes: u64) -> Vec<u8> {
    let read = read(rt, alloc, rows);
    let mut text = Vec::new(alloc);
    match book.plan(alloc, &read.rows, read.rest, kept_bytes) {
        Ok(edits) => book.commit(edits),
        Err(PlanRefusal::Rule(rule)) => check(rt, append_rule(&mut text, &rule).is_ok(), "memory"),
        Err(PlanRefusal::Memory) => check(rt, false, "memory"),
    }
    text
}

// A book of rows that break no rule.
fn book_of(rt: &(impl Abort + RandomSource), alloc: Global, rows: &str) -> Book {
    let mut book = Book::new(alloc, hasher(rt));
    check(
        rt,
        submit(rt, alloc, &mut book, rows, 0).is_empty(),
        "rows that break no rule",
    );
    book
}

// A line of burnt gas.
const PLANT: &str = "enter,span,,,1990,1991,1990,,,\nenter,line,1A1a,ELEC.GAS,,Q10,,,,\n\
    enter,bind,ELEC.GAS,FC,,activity,GAS.TJ,,,\nenter,bind,ELEC.GAS,EF,,factor,GAS.EF,,,\n\
    enter,activity,,GAS.TJ,1990,1000,,,TJ,\nenter,factor,,GAS.EF,1990,56100,54300,58300,kg/TJ,\n";

fn has_line(alloc: Global, records: &impl Records, line: &Name) -> bool {
    match records.lines(alloc) {
        Ok(lines) => lines.as_slice() == [*line].as_slice(),
        Err(_) => false,
    }
}

// Whether the records are those of the plant.
fn are_of_plant(alloc: Global, records: &impl Records, line: &Name, gas: &RecordKey) -> bool {
    records.get(gas).is_some()
        && records
            .span()
            .is_some_and(|span| span.base == 1990 && span.last == 1991)
        && records.line(line) == Some((Category::C1A1a, EqId::Q10))
        && has_line(alloc, records, line)
}

#[test]
fn rows_are_planned_and_committed(rt: HostRuntime) {
    let line = name(&rt, "ELEC.GAS");
    let gas = RecordKey::Activity(name(&rt, "GAS.TJ"), 1990);
    let Rows { rows, rest } = read(&rt, rt.alloc(), PLANT);
    let mut book = Book::new(rt.alloc(), hasher(&rt));
    // No rule is broken.
    let Ok(edits) = book.plan(rt.alloc(), &rows, rest, 291) else {
        panic!(rt; "refused");
    };
    check(
        &rt,
        edits.keys().len() == 6 && book.get(&gas).is_none(),
        "nothing is made yet",
    );
    check(
        &rt,
        are_of_plant(rt.alloc(), &after(&book, &edits), &line, &gas),
        "after the edits",
    );
    book.commit(edits);
    check(
        &rt,
        are_of_plant(rt.alloc(), &book, &line, &gas),
        "the edits are made",
    );
}

fn check_bindings(rt: &impl Abort, book: &Book) {
    let line = name(rt, "ELEC.GAS");
    let fuel = book.binding(&line, &parameter(rt, "FC"));
    check(
        rt,
        matches!(fuel, Some(Binding::Activity(_))),
        "an activity",
    );
    check(
        rt,
        book.binding(&line, &parameter(rt, "OX")).is_none(),
        "no binding",
    );
    for param in params_of(EqId::Q10) {
        check(rt, book.bound(&line, param).is_some(), param.name);
    }
}

#[test]
fn bindings_are_looked_up(rt: HostRuntime) {
    check_bindings(&rt, &book_of(&rt, rt.alloc(), PLANT));
}

const AWAY: &str = "withdraw,factor,,GAS.EF,1990,,,,,\nenter,activity,,V,1990,1e3,,,TJ,\n";

// Bytes of all kept bodies, rows of a submission on a book with a plant, and their refusal.
const KEPT: &[(u64, &str, &str)] = &[
    (536_870_913, AWAY, "6 BadNumber row 2 column value"),
    (536_870_913, "", "11 TooMany bytes"),
    (536_870_912, "", ""),
];

fn check_limit(rt: &impl Abort, alloc: Global, book: &mut Book) {
    for (kept_bytes, rows, want) in KEPT {
        let refusal = submit(rt, alloc, book, rows, *kept_bytes);
        check(rt, word(&refusal) == *want, want);
    }
}

#[test]
fn a_book_has_its_limit_of_bytes(rt: HostRuntime) {
    check_limit(&rt, rt.alloc(), &mut book_of(&rt, rt.alloc(), PLANT));
}

// An activity as a row has it, and what it gives in the base unit.
const FIGURES: &[(&str, &str)] = &[
    ("enter,activity,,A,1990,0.5,,,PJ,\n", "500"),
    (
        "enter,activity,,A,1990,56100,54300,58300,kg/TJ,\n",
        "56100,54300,58300",
    ),
    ("enter,activity,,A,1990,-0.5,-5.0,0.1,t/t,\n", "-0.5,-5,0.1"),
    (
        "enter,activity,,A,1990,00002,0.000000000001,3,Mm3,\n",
        "2000000,0.000001,3000000",
    ),
    ("enter,activity,,A,1990,NO,,,TJ,\n", "0"),
    ("enter,activity,,A,1990,NA,,,pct,\n", "0"),
    ("enter,activity,,A,1990,IE,,,head,\n", "0"),
    ("enter,activity,,A,1990,NE,,,1,\n", "NE"),
    ("", "NE"),
];

#[test]
fn figures_are_converted(rt: HostRuntime) {
    let activity = name(&rt, "A");
    for (row, want) in FIGURES {
        let book = book_of(&rt, rt.alloc(), row);
        check(
            &rt,
            Some(book.activity(&activity, 1990)) == input(want),
            row,
        );
    }
}

const STARTS: &str =
    "enter,factor,,GAS.EF,1990,10,,,kg/TJ,\nenter,factor,,GAS.EF,2010,30,,,kg/TJ,\n\
    enter,factor,,GAS.EF,2000,20,,,kg/TJ,\nenter,factor,,GWP.CH4,1990,28,,,1,\n";

// A year, what the factor gives in it, and what it gives once its start year 2000 is withdrawn.
const IN_FORCE: &[(u32, &str, &str)] = &[
    (1989, "NE", "NE"),
    (1999, "10", "10"),
    (2000, "20", "10"),
    (2009, "20", "10"),
    (2010, "30", "30"),
    (2100, "30", "30"),
];

fn gives(records: &impl Records, content: &Name, year: u32, want: &str) -> bool {
    Some(records.factor(content, year)) == input(want)
}

fn check_starts(rt: &impl Abort, alloc: Global, book: &mut Book) {
    let content = name(rt, "GAS.EF");
    for (year, want, _) in IN_FORCE {
        check(rt, gives(book, &content, *year, want), want);
    }
    let rows = "withdraw,factor,,GAS.EF,2000,,,,,\n";
    let refusal = submit(rt, alloc, book, rows, 0);
    check(rt, refusal.is_empty(), "a factor is withdrawn");
    for (year, _, want) in IN_FORCE {
        check(rt, gives(book, &content, *year, want), want);
    }
    let start = book.start_year(&content, 2009);
    check(rt, start == Some(1990), "a start year");
    let potential = name(rt, "GWP.CH4");
    check(rt, gives(book, &potential, 2100, "28"), "a potential");
}

#[test]
fn the_latest_start_year_is_in_force(rt: HostRuntime) {
    check_starts(&rt, rt.alloc(), &mut book_of(&rt, rt.alloc(), STARTS));
}

// Two balances of the energy of a fuel: A takes 1000 TJ of 1990, B, B of the year before, and B in a sum.
const BALANCES: &str = "enter,span,,,1990,1991,1990,,,\nenter,activity,,GAS.TJ,1990,1000,,,TJ,\n\
    enter,line,1A1a,B,,Q22,,,,\nenter,bind,B,PR,,key,NO,,,\nenter,bind,B,IM,,key,NO,,,\n\
    enter,bind,B,EX,,key,NO,,,\nenter,bind,B,IB,,key,NO,,,\nenter,bind,B,SC,,key,NO,,,\n\
    enter,line,1A1a,A,,Q22,,,,\nenter,bind,A,PR,,activity,GAS.TJ,,,\nenter,bind,A,IM,,line,B,,,\n\
    enter,bind,A,EX,,prev,B,,,\nenter,bind,A,IB,,sum,B,,,\nenter,bind,A,SC,,key,NO,,,\n";

// Whether the ring that is found is of these lines, in this order.
fn has_ring(alloc: Global, book: &Book, lines: &[Name]) -> bool {
    match check_acyclic(alloc, book) {
        Err(CycleRefusal::Ring(ring)) => ring.as_slice() == lines,
        _ => false,
    }
}

// Whether the lines have this order.
fn has_order(alloc: Global, book: &Book, lines: &[Name]) -> bool {
    match line_order(alloc, book) {
        Ok(found) => check_acyclic(alloc, book).is_ok() && found.as_slice() == lines,
        Err(_) => false,
    }
}

fn check_order(rt: &impl Abort, alloc: Global, book: &mut Book) {
    let (a, b) = (name(rt, "A"), name(rt, "B"));
    check(rt, has_order(alloc, book, &[b, a]), "an order");
    submit(rt, alloc, book, "correct,bind,B,PR,,line,A,,,\n", 0);
    check(rt, has_ring(alloc, book, &[a, b]), "a ring of two lines");
    submit(rt, alloc, book, "correct,bind,B,PR,,line,B,,,\n", 0);
    check(rt, has_ring(alloc, book, &[b]), "a ring of one line");
}

#[test]
fn lines_follow_those_that_they_take(rt: HostRuntime) {
    check_order(&rt, rt.alloc(), &mut book_of(&rt, rt.alloc(), BALANCES));
}

// Whether a node takes so many operands.
fn takes(alloc: Global, book: &Book, node: Node, count: usize) -> bool {
    match inputs_of(alloc, book, &node) {
        Ok(slots) => slots.len() == count,
        Err(_) => false,
    }
}

// What a parameter takes in the first year; nothing where that is no figure.
fn taken(book: &Book, line: Name, parameter: &ParamName) -> Option<Input> {
    match bound_operand(book, 1990, book.binding(&line, parameter), 1990) {
        Operand::Given(input) => Some(input),
        _ => None,
    }
}

fn check_operands(rt: &impl Abort, alloc: Global, book: &Book) {
    let a = name(rt, "A");
    check(rt, takes(alloc, book, Node::Line(a, 1990), 5), "A");
    check(rt, first_year(book) == 1990, "the first year");
    let production = taken(book, a, &parameter(rt, "PR"));
    check(rt, production == input("1000"), "PR");
    let exports = taken(book, a, &parameter(rt, "EX"));
    check(rt, exports == input("0"), "EX");
}

#[test]
fn a_line_takes_an_operand_for_each_parameter(rt: HostRuntime) {
    check_operands(&rt, rt.alloc(), &book_of(&rt, rt.alloc(), BALANCES));
}

// A boiler, a forest and a plant, which burn fuel to CH4, and a balance.
const EMITTERS: &str = "enter,factor,,GWP.CO2,1990,1,,,1,\nenter,factor,,GWP.CH4,1990,28,,,1,\n\
    enter,line,1A1a,PLANT,,Q11,,,,\nenter,bind,PLANT,FC,,key,NO,,,\nenter,bind,PLANT,EF,,key,NO,,,\n\
    enter,line,3B1,FOREST,,Q11,,,,\nenter,bind,FOREST,FC,,key,NO,,,\nenter,bind,FOREST,EF,,key,NO,,,\n\
    enter,line,1A2,BOILER,,Q11,,,,\nenter,bind,BOILER,FC,,key,NO,,,\nenter,bind,BOILER,EF,,key,NO,,,\n\
    enter,line,1A1a,FUEL,,Q13,,,,\nenter,bind,FUEL,FM,,key,NO,,,\nenter,bind,FUEL,NCV,,key,NO,,,\n";

fn check_equivalents(rt: &impl Abort, alloc: Global, book: &Book) {
    let plant = name(rt, "PLANT");
    let equivalent = Node::Equiv(plant, 1990);
    check(rt, takes(alloc, book, equivalent, 2), "two operands");
    check(rt, takes(alloc, book, Node::Gross(1990), 1), "a sum");
    let weight = Some(potential(book, &plant, 1990));
    check(rt, weight == input("28"), "a warming potential");
}

#[test]
fn totals_take_equivalents_which_weigh_lines(rt: HostRuntime) {
    check_equivalents(&rt, rt.alloc(), &book_of(&rt, rt.alloc(), EMITTERS));
    check(
        &rt,
        counts_in_gross(Category::C1A1a) && !counts_in_gross(Category::C3B1),
        "land",
    );
}

// Plans and proposes rows, by two workers and with steps of a new ledger, and accepts or drops the proposal:
// how many nodes they affect. An error has the node that is over, if any.
fn settle_with<T: Threads + Sync, L: Ledger>(
    rt: &T,
    blank: Blank,
    alloc: Global,
    engine: &mut Engine,
    rows: &[Row],
    accepted: bool,
) -> Result<u64, Option<Node>>
    requires rows { AllByRecursion IsWellFormed rows.now }
    requires name { blank.name ≡ L.name }
    requires parts { blank.parts ≡ L.parts }
    requires some { 0 < blank.parts }
{
    let Ok(edits) = engine.plan(alloc, rows, None, 0) else {
        return Err(None);
    };
    match engine.propose(rt, alloc, edits, 2, &OpenGate, &mut Steps::<L>::new(blank)) {
        Ok(proposal) => {
            let cells = proposal.cells();
            if accepted {
                engine.accept(proposal);
            } else {
                drop(proposal);
            }
            Ok(cells)
        }
        Err(EngineRefusal::Overflow(node)) => Err(Some(node)),
        Err(EngineRefusal::Memory) => Err(None),
    }
}

fn settle(
    rt: &(impl Threads + Sync),
    alloc: Global,
    engine: &mut Engine,
    rows: &[Row],
    accepted: bool,
) -> Result<u64, Option<Node>>
    requires { AllByRecursion IsWellFormed rows.now }
{
    settle_with::<_, Brand>(rt, Blank::new(1), alloc, engine, rows, accepted)
}

/// Submits rows that break no rule.
pub(crate) fn enter(
    rt: &(impl Abort + Threads + Sync),
    alloc: Global,
    engine: &mut Engine,
    rows: &str,
) {
    let read = read(rt, alloc, rows);
    check(
        rt,
        settle(rt, alloc, engine, &read.rows, true).is_ok(),
        rows,
    );
}

// A kind of node.
#[derive(Clone, Copy, Drop)]
enum Kind {
    Line,
    Equivalent,
    Total,
    Gross,
}

// The node of a line or a category, by its name or code.
fn node(kind: Kind, of: &str, year: u32) -> Option<Node> {
    match kind {
        Kind::Line => Some(Node::Line(Name::new(of.as_bytes())?, year)),
        Kind::Equivalent => Some(Node::Equiv(Name::new(of.as_bytes())?, year)),
        Kind::Total => Some(Node::Total(named(of.as_bytes())?, year)),
        Kind::Gross => Some(Node::Gross(year)),
    }
}

// A node, and its value; with no text it has none.
type NodeValue = (Kind, &'static str, u32, &'static str);

fn has_value(engine: &Engine, value: &NodeValue) -> bool {
    let (kind, of, year, want) = *value;
    match node(kind, of, year) {
        Some(node) => engine.value(&node).map(|value| *value.input()) == input(want),
        None => false,
    }
}

// The plant's second year, a potential of 1 that may be 2, a boiler of 500 TJ, and a forest fire of 100 TJ.
const THREE_LINES: &str =
    "enter,activity,,GAS.TJ,1991,2000,,,TJ,\nenter,factor,,GWP.CO2,1990,1,1,2,1,\n\
    enter,activity,,FUEL.TJ,1990,500,,,TJ,\nenter,activity,,FIRE.TJ,1990,100,,,TJ,\n\
    enter,line,1A2,BOILER,,Q10,,,,\nenter,bind,BOILER,FC,,activity,FUEL.TJ,,,\n\
    enter,bind,BOILER,EF,,factor,GAS.EF,,,\nenter,line,3B1,FOREST,,Q10,,,,\n\
    enter,bind,FOREST,FC,,activity,FIRE.TJ,,,\nenter,bind,FOREST,EF,,factor,GAS.EF,,,\n";

// 56.1 kg of CO2 for each GJ, from 54.3 to 58.3: 1000 TJ emit 54.3 to 58.3 Gg, which weigh 54.3 to 116.6.
const VALUES: &[NodeValue] = &[
    (Kind::Line, "ELEC.GAS", 1990, "56.1,54.3,58.3"),
    (Kind::Equivalent, "ELEC.GAS", 1990, "56.1,54.3,116.6"),
    (Kind::Equivalent, "ELEC.GAS", 1991, "112.2,108.6,233.2"),
    (Kind::Line, "BOILER", 1991, "NE"),
    // no year of the span
    (Kind::Line, "ELEC.GAS", 1992, ""),
    (Kind::Gross, "", 1990, "84.15,81.45,174.9"),
    (Kind::Gross, "", 1991, "112.2,108.6,233.2"),
    (Kind::Total, "1A1a", 1990, "56.1,54.3,116.6"),
    (Kind::Total, "1A", 1990, "84.15,81.45,174.9"),
    (Kind::Total, "0", 1990, "89.76,86.88,186.56"),
    (Kind::Total, "3B", 1991, "0"),
];

const CORRECTION: &str = "correct,activity,,FUEL.TJ,1990,1000,,,TJ,\n";

// The boiler takes 1000 TJ in place of 500, so it emits 56.1 Gg in place of 28.05; all fuel is then 2100 TJ.
const CORRECTED: &[NodeValue] = &[
    (Kind::Line, "BOILER", 1990, "56.1,54.3,58.3"),
    (Kind::Total, "1A", 1990, "112.2,108.6,233.2"),
    (Kind::Total, "0", 1990, "117.81,114.03,244.86"),
    (Kind::Gross, "", 1990, "112.2,108.6,233.2"),
    // not affected
    (Kind::Total, "1A1a", 1990, "56.1,54.3,116.6"),
    (Kind::Gross, "", 1991, "112.2,108.6,233.2"),
];

const GREAT_PLANT: &str = "enter,span,,,1990,1991,1990,,,\nenter,line,1A1a,ELEC.GAS,,Q10,,,,\n\
    enter,bind,ELEC.GAS,FC,,activity,GAS.TJ,,,\nenter,bind,ELEC.GAS,EF,,factor,GAS.EF,,,\n\
    enter,activity,,GAS.TJ,1990,10000000,,,TJ,\nenter,factor,,GAS.EF,1990,100000,,,kg/TJ,\n\
    enter,factor,,GWP.CO2,1990,2000,,,1,\n";

// Nothing is accepted.
const REFUSED: &[NodeValue] = &[(Kind::Line, "ELEC.GAS", 1990, "")];

// Rows, and the node that is over by them; where there is none, they are accepted.
type Submission = (&'static str, Option<(Kind, &'static str, u32)>);

// Submissions to one engine, and then nodes with their values.
const CASES: &[(&[Submission], &[NodeValue])] = &[
    (&[(PLANT, None), (THREE_LINES, None)], VALUES),
    (
        &[(PLANT, None), (THREE_LINES, None), (CORRECTION, None)],
        CORRECTED,
    ),
    // 10^7 TJ at 100000 kg/TJ are 10^6 Gg of CO2, which at a potential of 2000 weigh 2 x 10^9 Gg.
    (
        &[(GREAT_PLANT, Some((Kind::Equivalent, "ELEC.GAS", 1990)))],
        REFUSED,
    ),
];

// Whether the rows come to what they should.
fn submits(
    rt: &(impl Abort + Threads + Sync),
    alloc: Global,
    engine: &mut Engine,
    submission: &Submission,
) -> bool {
    let (rows, over) = *submission;
    let read = read(rt, alloc, rows);
    let answer = settle(rt, alloc, engine, &read.rows, true);
    match over {
        Some((kind, of, year)) => answer == Err(node(kind, of, year)),
        None => answer.is_ok(),
    }
}

fn check_values(
    rt: &(impl Abort + Threads + Sync),
    alloc: Global,
    engine: &mut Engine,
    submissions: &[Submission],
    values: &[NodeValue],
) {
    for submission in submissions {
        check(rt, submits(rt, alloc, engine, submission), submission.0);
    }
    for value in values {
        check(rt, has_value(engine, value), value.3);
    }
}

// A function that owns an engine makes one call of it, since the proof of each step sees all its fields.
#[test]
fn nodes_have_their_values(rt: HostRuntime) {
    for (submissions, values) in CASES {
        check_values(
            &rt,
            rt.alloc(),
            &mut Engine::new(rt.alloc(), hasher(&rt)),
            submissions,
            values,
        );
    }
}

// The energy of a fuel, and a boiler that burns it with the factor of the plant.
const FUEL_AND_BOILER: &str =
    "enter,line,1A2,FUEL.TJ,,Q13,,,,\nenter,bind,FUEL.TJ,FM,,activity,FUEL.T,,,\n\
    enter,bind,FUEL.TJ,NCV,,factor,FUEL.NCV,,,\nenter,activity,,FUEL.T,1990,1000,,,t,\n\
    enter,factor,,FUEL.NCV,1990,25,,,TJ/Gg,\nenter,line,1A2,BOILER,,Q10,,,,\n\
    enter,bind,BOILER,FC,,line,FUEL.TJ,,,\nenter,bind,BOILER,EF,,factor,GAS.EF,,,\n";

const GAS: &str = "correct,factor,,GAS.EF,1990,56000,,,kg/TJ,\n";

const FUEL: &str = "correct,activity,,FUEL.T,1990,2000,,,t,\n";

// Rows to one engine in turn, whether their proposal is accepted, and how many nodes they affect.
const PROPOSALS: &[(&str, bool, u64)] = &[
    // In each of two years 76 categories, the gross total, a line and its equivalent.
    (PLANT, true, 2 * 79),
    // In each year two lines, the equivalent of the boiler, the totals 1A2, 1A, 1 and 0, and the gross total.
    (FUEL_AND_BOILER, false, 2 * 8),
    // The plant, its equivalent, the totals 1A1a, 1A1, 1A, 1 and 0, and the gross total.
    (GAS, false, 2 * 8),
    (FUEL_AND_BOILER, true, 2 * 8),
    // The boiler, its equivalent and the total 1A2 besides.
    (GAS, true, 2 * 11),
    // In 1990 what the entered lines affect in each year.
    (FUEL, true, 8),
];

// 2000 t of 25 TJ/Gg are 50 TJ, which at 56 t of CO2 for each TJ emit 2.8 Gg; 1000 TJ emit 56 Gg.
const PROPOSED: &[NodeValue] = &[
    (Kind::Line, "FUEL.TJ", 1990, "50"),
    (Kind::Line, "BOILER", 1990, "2.8"),
    (Kind::Line, "BOILER", 1991, "NE"),
    (Kind::Line, "ELEC.GAS", 1990, "56"),
];

fn check_proposals(rt: &(impl Abort + Threads + Sync), alloc: Global, engine: &mut Engine) {
    for (rows, accepted, count) in PROPOSALS {
        let read = read(rt, alloc, rows);
        let cells = settle(rt, alloc, engine, &read.rows, *accepted);
        check(rt, cells == Ok(*count), rows);
    }
    for value in PROPOSED {
        check(rt, has_value(engine, value), value.1);
    }
}

#[test]
fn a_dropped_proposal_may_come_again(rt: HostRuntime) {
    check_proposals(&rt, rt.alloc(), &mut Engine::new(rt.alloc(), hasher(&rt)));
}

// The energy of a mass of fuel, and a balance of energies that takes it by two of its parameters.
const HUB: &str = "enter,span,,,1990,1991,1990,,,\nenter,line,1A1a,HUB,,Q13,,,,\n\
    enter,bind,HUB,FM,,key,NO,,,\nenter,bind,HUB,NCV,,key,NO,,,\nenter,line,1A1a,TWICE,,Q22,,,,\n\
    enter,bind,TWICE,PR,,key,NO,,,\nenter,bind,TWICE,IM,,line,HUB,,,\n\
    enter,bind,TWICE,EX,,prev,HUB,,,\nenter,bind,TWICE,IB,,key,NO,,,\n\
    enter,bind,TWICE,SC,,key,NO,,,\n";

// Another energy, and lines that take the first of the year before, and in a sum.
const TAKERS: &str = "enter,line,1A1a,OTHER,,Q13,,,,\nenter,bind,OTHER,FM,,key,NO,,,\n\
    enter,bind,OTHER,NCV,,key,NO,,,\nenter,line,1A1a,BY.PREV,,Q10,,,,\n\
    enter,bind,BY.PREV,FC,,prev,HUB,,,\nenter,bind,BY.PREV,EF,,key,NO,,,\n\
    enter,line,1A1a,BY.SUM,,Q10,,,,\nenter,bind,BY.SUM,FC,,sum,OTHER HUB,,,\n\
    enter,bind,BY.SUM,EF,,key,NO,,,\n";

const BARE: &str = "withdraw,line,,HUB,,,,,,\n";

const BOUND: &str = "withdraw,bind,HUB,FM,,,,,,\nwithdraw,bind,HUB,NCV,,,,,,\n";

const PREV: &str = "correct,bind,BY.PREV,FC,,prev,OTHER,,,\n";

const SUM: &str = "correct,bind,BY.SUM,FC,,sum,OTHER,,,\n";

const EXPORTS: &str = "correct,bind,TWICE,EX,,key,NO,,,\n";

const IMPORTS: &str = "correct,bind,TWICE,IM,,key,NO,,,\n";

const OTHER: &str = "withdraw,line,,OTHER,,,,,,\n";

// Rows, and their refusal; with no text they are accepted.
type Withdrawal = (&'static [&'static str], &'static str);

// Rows that withdraw a line that others take: the least place is that of the least line, and of its least
// parameter.
const WITHDRAWALS: &[Withdrawal] = &[
    (&[BARE], "10 BadBinding BY.PREV FC"),
    (&[BARE, BOUND], "10 BadBinding BY.PREV FC"),
    (&[BARE, BOUND, PREV], "10 BadBinding BY.SUM FC"),
    (&[BARE, PREV, SUM], "10 BadBinding HUB FM"),
    (&[BARE, BOUND, PREV, SUM], "10 BadBinding TWICE EX"),
    (&[BARE, BOUND, PREV, SUM, EXPORTS], "10 BadBinding TWICE IM"),
    (&[PREV, SUM, EXPORTS, IMPORTS, BARE, BOUND], ""),
    (&[OTHER], "10 BadBinding BY.PREV FC"),
];

// What these rows together say.
fn read_all(rt: &impl Abort, alloc: Global, pieces: &[&str]) -> Rows
    ensures { AllByRecursion IsWellFormed result.rows.items }
{
    let mut text = Vec::new(alloc);
    for piece in pieces {
        let appended = text.extend_from_slice(piece.as_bytes());
        check(rt, appended.is_ok(), "memory");
    }
    read(rt, alloc, word(&text))
}

// The rule by which an engine refuses rows; no text where they break none.
fn planned(rt: &impl Abort, alloc: Global, engine: &mut Engine, rows: &[Row]) -> Vec<u8>
    requires { AllByRecursion IsWellFormed rows.now }
{
    let mut text = Vec::new(alloc);
    match engine.plan(alloc, rows, None, 0) {
        Ok(edits) => drop(edits),
        Err(PlanRefusal::Rule(rule)) => check(rt, append_rule(&mut text, &rule).is_ok(), "memory"),
        Err(PlanRefusal::Memory) => check(rt, false, "memory"),
    }
    text
}

fn check_withdrawal(
    rt: &(impl Abort + Threads + Sync),
    alloc: Global,
    engine: &mut Engine,
    withdrawal: &Withdrawal,
) {
    let (pieces, want) = *withdrawal;
    let read = read_all(rt, alloc, pieces);
    let refusal = planned(rt, alloc, engine, &read.rows);
    check(rt, word(&refusal) == want, want);
    if want.is_empty() {
        check(
            rt,
            settle(rt, alloc, engine, &read.rows, true).is_ok(),
            "a withdrawal",
        );
    }
}

fn check_withdrawals(rt: &(impl Abort + Threads + Sync), alloc: Global, engine: &mut Engine) {
    let read = read_all(rt, alloc, &[HUB, TAKERS]);
    check(
        rt,
        settle(rt, alloc, engine, &read.rows, true).is_ok(),
        "lines",
    );
    for withdrawal in WITHDRAWALS {
        check_withdrawal(rt, alloc, engine, withdrawal);
    }
}

#[test]
fn a_line_that_others_take_stays(rt: HostRuntime) {
    check_withdrawals(&rt, rt.alloc(), &mut Engine::new(rt.alloc(), hasher(&rt)));
}
