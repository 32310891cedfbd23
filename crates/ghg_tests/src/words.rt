//! Words, numbers and refusals as they are written.

use crate::cases::{check, word};
use ghg_categories::Category;
use ghg_equations::{Dim, Gas, Output};
use ghg_import::{Rows, is_too_long, read_rows};
use ghg_interval::Interval;
use ghg_tables::{Precision, Table, near, precision_for, reported, table_named};
use ghg_units::{
    Act, Decimal, Name, Names, Node, NotationKey, ParamName, Rule, ShortText, Text, Unit,
    act_named, append_rule, base_word, dim, fixed_texts_read, format_of, is_potential_name,
    key_named, ratio, read_decimal, read_half_life, read_number, read_uncertainty, read_year,
    to_interval, unit_named, write_fixed,
};
use std::alloc::{AllocError, Global};
use std::process::Abort;

// A number, its decimal places, and how it is printed.
const FIXED: &[(i128, u32, &str)] = &[
    (0, 0, "0"),
    (0, 3, "0.000"),
    (5, 0, "5"),
    (-5, 0, "-5"),
    (1234, 3, "1.234"),
    (-1, 3, "-0.001"),
    (-1000, 3, "-1.000"),
    (1, 12, "0.000000000001"),
    (i128::MIN, 12, "-170141183460469231731687303.715884105728"),
];

// The text `x,` and the number behind it.
fn printed(alloc: Global, n: i128, places: u32) -> Result<Vec<u8>, AllocError> {
    let mut text = Vec::from_slice(alloc, b"x,")?;
    if places <= 12 {
        write_fixed(&mut text, n, places)?;
    }
    Ok(text)
}

#[test]
fn decimals_are_printed_with_their_sign_and_every_place(rt: HostRuntime) {
    fixed_texts_read();
    for (n, places, want) in FIXED {
        let text = printed(rt.alloc(), *n, *places).ok().expect(&rt, "memory");
        check(&rt, word(&text).strip_prefix("x,") == Some(*want), want);
    }
}

// A text, and the number that it is, in 10^-12.
const DECIMALS: &[(&str, Option<i128>)] = &[
    ("0", Some(0)),
    ("-0.5", Some(-500_000_000_000)),
    ("007", Some(7_000_000_000_000)),
    ("0.000000000001", Some(1)),
    (
        "99999999999999.999999999999",
        Some(99_999_999_999_999_999_999_999_999),
    ),
    ("100000000000000", None),
    ("0.0000000000001", None),
    ("", None),
    ("-", None),
    ("1.", None),
    (".5", None),
    ("+1", None),
    ("--1", None),
    ("1e3", None),
    ("1,000", None),
    ("1.0.0", None),
    (" 5", None),
    ("5 ", None),
];

fn is_decimal(text: &str, want: Option<i128>) -> bool {
    read_decimal(text.as_bytes()).map(|decimal| decimal.scaled) == want
}

#[test]
fn decimals_are_read_within_their_digits(rt: HostRuntime) {
    for (text, want) in DECIMALS {
        check(&rt, is_decimal(text, *want), text);
    }
}

// A text, and the year that it is.
const YEARS: &[(&str, Option<u32>)] = &[
    ("1899", None),
    ("1900", Some(1900)),
    ("2100", Some(2100)),
    ("2101", None),
    ("190", None),
    ("01900", None),
];

#[test]
fn years_are_read_within_their_digits(rt: HostRuntime) {
    for (text, want) in YEARS {
        check(&rt, read_year(text.as_bytes()) == *want, text);
    }
}

#[test]
fn numbers_are_read_within_their_digits(rt: HostRuntime) {
    check(&rt, read_number(b"0190", 4) == Some(190), "four digits");
    check(&rt, read_number(b"01900", 4).is_none(), "five digits");
}

// A format, a text, and the half-life that it is in a body of that format, in tenths of a year.
const HALF_LIVES: &[(u32, &str, Option<u32>)] = &[
    (1, "1", Some(10)),
    (1, "07", Some(70)),
    (1, "60", Some(600)),
    (1, "61", None),
    (1, "0", None),
    (1, "007", None),
    (1, "1.5", None),
    (1, "-1", None),
    (1, "NO", None),
    (1, "", None),
    (2, "1", Some(10)),
    (2, "1.5", Some(15)),
    (2, "07.0", Some(70)),
    (2, "60", Some(600)),
    (2, "60.0", Some(600)),
    (2, "60.1", None),
    (2, "0.9", None),
    (2, "1.50", None),
    (2, "1.", None),
    (2, ".5", None),
    (2, "007.1", None),
    (2, "NO", None),
];

#[test]
fn half_lives_are_read_within_their_limits(rt: HostRuntime) {
    for (format, text, want) in HALF_LIVES {
        check(&rt, read_half_life(*format, text.as_bytes()) == *want, text);
    }
}

// A body, and its format.
const FORMATS: &[(&[u8], u32)] = &[
    (b"act2,kind", 2),
    (b"\"act2\",kind", 2),
    (b"\xEF\xBB\xBFact2,", 2),
    (b"act,kind", 1),
    (b"\xEF\xBB\xBF\xEF\xBB\xBFact2,", 1),
    (b" act2,", 1),
    (b"act2", 1),
    (b"", 1),
];

#[test]
fn headers_name_the_format_of_bodies(rt: HostRuntime) {
    for (body, want) in FORMATS {
        check(&rt, format_of(body) == *want, "a format");
    }
}

// A text, and the percentage that it is, in hundredths of a percent.
const UNCERTAINTIES: &[(&str, Option<u32>)] = &[
    ("0", Some(0)),
    ("-0", Some(0)),
    ("3", Some(300)),
    ("0.05", Some(5)),
    ("12.3", Some(1_230)),
    ("1000.00", Some(100_000)),
    ("1000.01", None),
    ("3.000", None),
    ("-1", None),
    ("-0.01", None),
    ("1e2", None),
    ("3.", None),
    ("", None),
];

#[test]
fn uncertainties_are_read_within_their_places(rt: HostRuntime) {
    for (text, want) in UNCERTAINTIES {
        check(&rt, read_uncertainty(text.as_bytes()) == *want, text);
    }
}

// A text, whether it is a name, and whether it is one that is no warming potential's.
const NAMES: &[(&str, bool, bool)] = &[
    ("A", true, true),
    ("ELEC.GAS_2-B", true, true),
    ("ABCDEFGHIJKLMNOPQRSTUVWX", true, true),
    ("ABCDEFGHIJKLMNOPQRSTUVWXY", false, false),
    ("GWP.CO2", true, false),
    ("GWP", true, true),
    ("9A", false, false),
    ("a", false, false),
    ("A B", false, false),
    ("", false, false),
];

// A text, and whether it names a parameter.
const PARAMETERS: &[(&str, bool)] = &[
    ("FC", true),
    ("EF123456", true),
    ("EF1234567", false),
    ("9", true),
    ("Fc", false),
    ("F.C", false),
    ("uncert", false),
    ("", false),
];

#[test]
fn names_have_their_bytes_and_their_length(rt: HostRuntime) {
    for (text, is_name, is_plain) in NAMES {
        check(&rt, Name::new(text.as_bytes()).is_some() == *is_name, text);
        check(
            &rt,
            Name::plain(text.as_bytes()).is_some() == *is_plain,
            text,
        );
    }
    for (text, is_parameter) in PARAMETERS {
        check(
            &rt,
            ParamName::new(text.as_bytes()).is_some() == *is_parameter,
            text,
        );
    }
}

// A gas, and the name of its warming potential.
const POTENTIALS: &[(Gas, &str)] = &[
    (Gas::Co2, "GWP.CO2"),
    (Gas::Ch4, "GWP.CH4"),
    (Gas::N2o, "GWP.N2O"),
    (Gas::Cf4, "GWP.CF4"),
    (Gas::C2f6, "GWP.C2F6"),
];

// A text that names no warming potential, and whether a factor may have it for its name.
const FACTORS: &[(&str, bool)] = &[
    ("GAS.EF", true),
    ("GWP", true),
    ("GWP_CO2", true),
    ("A.GWP.CO2", true),
    ("GWP.", false),
    ("GWP.CO", false),
    ("GWP.CO2E", false),
    ("GWP.co2", false),
    ("GWP.SF6", false),
    ("GWP.CO2 ", false),
    ("gas.ef", false),
    ("", false),
];

#[test]
fn a_factor_may_hold_the_warming_potential_of_a_gas(rt: HostRuntime) {
    for (gas, text) in POTENTIALS {
        let name = Name::potential(*gas);
        check(&rt, name.as_bytes() == text.as_bytes(), text);
        check(&rt, is_potential_name(text.as_bytes()), text);
        check(&rt, Name::of_factor(text.as_bytes()) == Some(name), text);
    }
    for (text, is_factor) in FACTORS {
        check(&rt, !is_potential_name(text.as_bytes()), text);
        check(
            &rt,
            Name::of_factor(text.as_bytes()).is_some() == *is_factor,
            text,
        );
    }
}

// Nodes in their order: by kind, then by name or code, then by year.
fn nodes(a: Name, ab: Name, b: Name) -> [Node; 12] {
    [
        Node::Line(a, 1991),
        Node::Line(ab, 1990),
        Node::Line(b, 1990),
        Node::Line(b, 1991),
        Node::Equiv(a, 1990),
        Node::Equiv(b, 1990),
        Node::Total(Category::National, 1991),
        Node::Total(Category::C1A, 1990),
        Node::Total(Category::C1A1a, 1990),
        Node::Total(Category::C1B, 1990),
        Node::Gross(1990),
        Node::Gross(1991),
    ]
}

fn three_names() -> Option<[Name; 3]> {
    Some([Name::new(b"A")?, Name::new(b"AB")?, Name::new(b"B")?])
}

#[test]
fn nodes_are_ordered(rt: HostRuntime) {
    let [a, ab, b] = three_names().expect(&rt, "three names");
    let sorted = nodes(a, ab, b);
    let mut nodes = Vec::new(rt.alloc());
    for place in [7, 2, 11, 0, 5, 9, 3, 10, 1, 8, 6, 4] {
        check(&rt, nodes.push(sorted[place]).is_ok(), "memory");
    }
    check(&rt, nodes.sort().is_ok(), "memory");
    check(
        &rt,
        nodes.as_slice() == sorted.as_slice(),
        "nodes in their order",
    );
}

#[test]
fn texts_and_lists_of_names_are_kept(rt: HostRuntime) {
    let names = three_names().expect(&rt, "three names");
    let list = Vec::from_slice(rt.alloc(), &names)
        .ok()
        .expect(&rt, "memory");
    check(
        &rt,
        Names::new(list).as_slice() == names.as_slice(),
        "names",
    );
    let body = Vec::from_slice(rt.alloc(), b"a body")
        .ok()
        .expect(&rt, "memory");
    let text = Text::new(body);
    check(
        &rt,
        word(text.as_slice()) == "a body" && text.into_bytes().len() == 6,
        "a text",
    );
    check(&rt, ShortText::<3>::new(b"abc").is_some(), "three bytes");
    check(&rt, ShortText::<3>::new(b"abcd").is_none(), "four bytes");
}

#[test]
fn words_name_what_they_stand_for(rt: HostRuntime) {
    check(
        &rt,
        act_named(b"withdraw") == Some(Act::Withdraw),
        "withdraw",
    );
    check(&rt, act_named(b"Enter").is_none(), "Enter");
    check(&rt, key_named(b"IE") == Some(NotationKey::Ie), "IE");
    check(&rt, key_named(b"NO ").is_none(), "NO ");
    check(
        &rt,
        unit_named(b"kg/TJ") == Some(Unit::KilogramPerTerajoule),
        "kg/TJ",
    );
    check(
        &rt,
        unit_named(b"tj").is_none() && unit_named(b"").is_none(),
        "no units",
    );
    check(&rt, unit_named(b"yr") == Some(Unit::Year), "yr");
    check(&rt, base_word(Dim::EnFac) == "kg/TJ", "a base unit");
    check(&rt, table_named(b"cells") == Some(Table::Cells), "cells");
    check(
        &rt,
        table_named(b"summary") == Some(Table::Summary),
        "summary",
    );
    check(&rt, table_named(b"series") == Some(Table::Series), "series");
    check(
        &rt,
        table_named(b"Cells").is_none() && table_named(b"").is_none(),
        "no tables",
    );
}

// A decimal, the word of its unit, what it measures, its ratio to the base unit, and the bounds of the figure
// in the base unit; nothing where one is beyond the limit. By hand: 1 ktoe is 41.868 TJ, 5 GWh are 18 TJ, and
// 0.0000001 kg is a tenth of 10^-12 Gg.
const FIGURES: &[(&str, &str, Dim, (u64, u64), Option<(i128, i128)>)] = &[
    (
        "0.5",
        "PJ",
        Dim::Energy,
        (1_000, 1),
        Some((500_000_000_000_000, 500_000_000_000_000)),
    ),
    (
        "1",
        "ktoe",
        Dim::Energy,
        (10_467, 250),
        Some((41_868_000_000_000, 41_868_000_000_000)),
    ),
    (
        "0.000000000001",
        "ktoe",
        Dim::Energy,
        (10_467, 250),
        Some((41, 42)),
    ),
    (
        "-0.000000000001",
        "ktoe",
        Dim::Energy,
        (10_467, 250),
        Some((-42, -41)),
    ),
    (
        "0.00000000025",
        "ktoe",
        Dim::Energy,
        (10_467, 250),
        Some((10_467, 10_467)),
    ),
    (
        "-5",
        "GWh",
        Dim::Energy,
        (18, 5),
        Some((-18_000_000_000_000, -18_000_000_000_000)),
    ),
    (
        "0.0000001",
        "kg-gas",
        Dim::Gas,
        (1, 1_000_000),
        Some((0, 1)),
    ),
    (
        "-0.0000001",
        "kg-gas",
        Dim::Gas,
        (1, 1_000_000),
        Some((-1, 0)),
    ),
    (
        "100000000",
        "Mm3",
        Dim::Volume,
        (1_000_000, 1),
        Some((
            100_000_000_000_000_000_000_000_000,
            100_000_000_000_000_000_000_000_000,
        )),
    ),
    (
        "100000000.000000000001",
        "Mm3",
        Dim::Volume,
        (1_000_000, 1),
        None,
    ),
    ("99999999999999", "Mm3", Dim::Volume, (1_000_000, 1), None),
];

// The ratio of a unit of what it measures, and what a decimal of it is in the base unit.
fn converted(text: &str, unit: Unit) -> Option<(i128, i128)> {
    let decimal = read_decimal(text.as_bytes())?;
    let interval = to_interval(decimal, unit).ok()?;
    Some((interval.lo(), interval.hi()))
}

#[test]
fn figures_of_other_units_are_converted(rt: HostRuntime) {
    for (text, word, measures, over, want) in FIGURES {
        let unit = unit_named(word.as_bytes()).expect(&rt, "a unit");
        check(&rt, dim(unit) == *measures && ratio(unit) == *over, word);
        check(&rt, converted(text, unit) == *want, text);
    }
    // A product of 39 digits leaves 128 bits.
    let beyond = Decimal {
        scaled: -1_000_000_000_000_000_000_000_000_000_000_000,
    };
    check(
        &rt,
        to_interval(beyond, Unit::MillionCubicMetres).is_err(),
        "39 digits",
    );
}

// Whether a rule is printed so.
fn is_printed(alloc: Global, rule: Rule, want: &str) -> bool {
    let mut text = Vec::new(alloc);
    append_rule(&mut text, &rule).is_ok() && word(&text) == want
}

// The stored sessions show the other refusals.
#[test]
fn refusals_are_printed_with_their_place(rt: HostRuntime) {
    let row = Rule::Absent(4194304);
    check(
        &rt,
        is_printed(rt.alloc(), row, "9 Absent row 4194304"),
        "a row",
    );
    let leaf = Rule::Overflow(Node::Total(Category::C1A1a, 1990));
    check(
        &rt,
        is_printed(rt.alloc(), leaf, "13 Overflow total:1A1a:1990"),
        "a leaf",
    );
    let national = Rule::Overflow(Node::Total(Category::National, 2100));
    check(
        &rt,
        is_printed(rt.alloc(), national, "13 Overflow total:0:2100"),
        "the national total",
    );
    let line = Name::new(b"ELEC.GAS").expect(&rt, "a name");
    let uncertain = Rule::BadBinding(line, ParamName::uncertainty());
    check(
        &rt,
        is_printed(rt.alloc(), uncertain, "10 BadBinding ELEC.GAS uncert"),
        "an uncertainty",
    );
}

// A row, and the rule that it breaks in a body of format 2; nothing where it is read.
const ROWS_IN_TENTHS: &[(&str, &str)] = &[
    ("enter,factor,,WOOD,1990,1.5,,,yr,", ""),
    ("enter,factor,,WOOD,1990,60.0,,,yr,", ""),
    (
        "enter,factor,,WOOD,1990,60.1,,,yr,",
        "6 BadNumber row 1 column value",
    ),
    (
        "enter,factor,,WOOD,1990,1.5,1,,yr,",
        "6 BadNumber row 1 column low",
    ),
];

// A row, and the rule that it breaks in a body of format 1; nothing where it is read.
const ROWS: &[(&str, &str)] = &[
    ("enter,factor,,WOOD,1990,23,,,yr,", ""),
    (
        "enter,factor,,WOOD,1990,1.5,,,yr,",
        "6 BadNumber row 1 column value",
    ),
    (
        "enter,factor,,WOOD,1990,61,,,yr,",
        "6 BadNumber row 1 column value",
    ),
    (
        "correct,factor,,WOOD,1990,NE,1,,yr,",
        "6 BadNumber row 1 column value",
    ),
    (
        "enter,factor,,WOOD,1990,23,20,,yr,",
        "6 BadNumber row 1 column low",
    ),
    (
        "enter,factor,,WOOD,1990,23,,NO,yr,",
        "6 BadNumber row 1 column high",
    ),
    ("enter,activity,,WOOD,1990,NO,,,yr,", ""),
    ("enter,activity,,WOOD,1990,1.5,1,2,yr,", ""),
    (
        "withdraw,factor,,WOOD,1990,,,,yr,",
        "5 UnknownWord row 1 column unit",
    ),
    ("enter,bind,STOCK,D,,decay,WOOD,,,", ""),
    (
        "enter,bind,STOCK,D,,decay,GWP.CO2,,,",
        "5 UnknownWord row 1 column low",
    ),
    (
        "enter,bind,STOCK,uncert,,key,NO,,,",
        "5 UnknownWord row 1 column name",
    ),
    ("enter,uncert,,STOCK,,3,4.25,,,a note", ""),
    ("withdraw,uncert,,STOCK,,,,,,", ""),
    (
        "withdraw,uncert,,STOCK,,3,,,,",
        "5 UnknownWord row 1 column value",
    ),
    ("enter,uncert,,STOCK,,3,,,,", "6 BadNumber row 1 column low"),
    (
        "enter,uncert,,STOCK,,,4,,,",
        "6 BadNumber row 1 column value",
    ),
    (
        "enter,uncert,,STOCK,,3.000,4,5,,",
        "5 UnknownWord row 1 column high",
    ),
    (
        "enter,uncert,4A,STOCK,,3,4,,,",
        "5 UnknownWord row 1 column subject",
    ),
];

// Whether the row, under a header with this first name, breaks this rule, or none.
fn is_refused_so(rt: &impl Abort, alloc: Global, act: &str, row: &str, want: &str) -> bool {
    let columns = ",kind,subject,name,year,value,low,high,unit,note\n";
    let mut body = Vec::from_slice(alloc, act.as_bytes())
        .ok()
        .expect(rt, "memory");
    check(
        rt,
        body.extend_from_slice(columns.as_bytes()).is_ok(),
        "memory",
    );
    check(rt, body.extend_from_slice(row.as_bytes()).is_ok(), "memory");
    assert!(rt; !is_too_long(&body));
    let Rows { rows, rest } = read_rows(alloc, &body).ok().expect(rt, "memory");
    match rest {
        Some(rule) => is_printed(alloc, rule, want),
        None => want.is_empty() && rows.len() == 1,
    }
}

#[test]
fn rows_hold_what_their_kind_and_their_unit_ask_for(rt: HostRuntime) {
    for (row, want) in ROWS {
        check(&rt, is_refused_so(&rt, rt.alloc(), "act", row, want), row);
    }
    for (row, want) in ROWS_IN_TENTHS {
        check(&rt, is_refused_so(&rt, rt.alloc(), "act2", row, want), row);
    }
}

// A fraction, and the whole number that is nearest to it, ties away from zero.
const NEAREST: &[(i64, u64, i128)] = &[
    (5, 2, 3),
    (-5, 2, -3),
    (4, 3, 1),
    (-4, 3, -1),
    (7, 4, 2),
    (0, 9, 0),
];

fn rounds(n: i64, d: u64, nearest: i128) -> bool {
    d > 0 && near(i128::from(n), u128::from(d)) == nearest
}

#[test]
fn values_are_rounded_to_the_nearest(rt: HostRuntime) {
    for (n, d, nearest) in NEAREST {
        check(&rt, rounds(*n, *d, *nearest), "a fraction");
    }
    let gas = precision_for(Output::Emission(Gas::Co2));
    check(
        &rt,
        gas.places() == 3 && gas.unit() == 1_000_000_000,
        "a gas",
    );
    let energy = precision_for(Output::Aux(Dim::Energy));
    check(
        &rt,
        energy.places() == 6 && energy.unit() == 1_000_000,
        "energy",
    );
    let point = Interval::new(1_499_999, 1_500_002).expect(&rt, "bounds in order");
    check(
        &rt,
        reported(&point, Precision::Millionths) == 2,
        "the middle of a point",
    );
    check(
        &rt,
        reported(&point, Precision::Thousandths) == 0,
        "a small point",
    );
}
