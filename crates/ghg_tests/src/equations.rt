//! Equations of all sectors over figures that were worked by hand.

ghost use Rattle.std.specs.Prelude.{◌≡◌, ◌<◌, length};
ghost use Rattle.ghg_cell.specs.Values.{equation_value};
ghost use Rattle.ghg_equations.specs.Table.{parameters};

use crate::cases::{check, input};
use crate::values::ticket;
use ghg_cell::{Input, Ticket, Value};
use ghg_data::params_of;
use ghg_equations::{Dim, EqId, Gas, Output, Sector, each_code_names_itself, eq_named, equation};
use ghg_interval::Over;
use std::alloc::Global;
use std::process::Abort;

// A code, its value, and the quantities of its parameters in their order, all in base units.
const CASES: &[(&str, &str, &str)] = &[
    // 1000 · 56100 / 1000000 = 56.1, from 54.3 to 58.3
    ("Q10", "56.1,54.3,58.3", "1000 56100,54300,58300"),
    // 1000 · 3 / 1000000 = 0.003, from 0.001 to 0.01
    ("Q11", "0.003,0.001,0.01", "1000 3,1,10"),
    // 1000 · 0.1 / 1000000 = 0.0001, from 0.00003 to 0.0003
    ("Q12", "0.0001,0.00003,0.0003", "1000 0.1,0.03,0.3"),
    // 2000 / 1000 · 48 = 96
    ("Q13", "96", "2000 48"),
    // 1000000 · 18 · 67 / 100 / 1000000 = 12.06, from 6.7 to 16.75
    ("Q14", "12.06,6.7,16.75", "1000000 18,10,25"),
    // 5000000 · 0.002 / 1000000 = 0.01
    ("Q15", "0.01", "5000000 0.002"),
    // 5000000 · 0.05 / 1000000 = 0.25, from 0.2 to 0.3
    ("Q16", "0.25,0.2,0.3", "5000000 0.05,0.04,0.06"),
    // 5000000 · 0.0001 / 1000000 = 0.0005
    ("Q17", "0.0005", "5000000 0.0001"),
    // 10 + 5 - 3 - 1 - 2 = 9, from 9 + 5 - 3 - 1 - 2 = 8 to 11 + 5 - 3 - 1 - 1 = 11
    ("Q20", "9,8,11", "10,9,11 5 3 1 2,1,2"),
    // 5 - 3 - 1 - 2 = -1, from 4 - 6 = -2 to 6 - 6 = 0
    ("Q21", "-1,-2,0", "5,4,6 3 1 2"),
    ("Q21", "NE", "NE NE NE NE"),
    // 10 + 5 - 3 - 1 - 2 = 9, and -3 + 5 - 3 - 1 - 2 = -4
    ("Q22", "9,-4,9", "10,-3,10 5 3 1 2"),
    // 50 - 20 - 5 - 10 = 15, from 50 - 25 - 15 = 10 to 50 - 15 - 15 = 20
    ("Q23", "15,10,20", "50 20,15,25 5 10"),
    // 2000 · 20 / 1000 = 40, from 38 to 42
    ("Q24", "40,38,42", "2000 20,19,21"),
    // 3000 t at 40 TJ/Gg are 120 TJ; by figures central, low and high:
    // (120 · 20 / 1000 - 0.4) · 0.99 · 44 / 12 = 2 · 0.99 · 11 / 3 = 7.26
    // (120 · 19 / 1000 - 0.5) · 0.99 · 44 / 12 = 1.78 · 0.99 · 11 / 3 = 6.4614
    // (120 · 21 / 1000 - 0.3) · 1 · 44 / 12 = 2.22 · 11 / 3 = 8.14
    (
        "Q25",
        "7.26,6.4614,8.14",
        "3000 40 20,19,21 0.4,0.3,0.5 0.99,0.99,1",
    ),
    // (1000 · 1 / 1000 - 0) · 1 · 44 / 12 = 3 2/3
    ("Q26", "3.666666666666;3.666666666667", "1000 1 0 1"),
    // 1000000 · 0.75 = 750000
    ("Q30", "750000", "1000000 0.75"),
    // 750000 · 0.5 / 1000 = 375, where no clinker is traded
    ("Q31", "375", "750000 0 0 0.5"),
    // (750000 - 50000 + 10000) · 0.5 / 1000 = 355
    ("Q31", "355", "750000 50000 10000 0.5"),
    // 200000 · 0.52 · 1.02 / 1000 = 106.08
    ("Q32", "106.08", "200000 0.52 1.02"),
    // 0.75 · 100000 · 1.02 · 0.97 / 1000 = 74.205
    ("Q33", "74.205", "0.75 100000 1.02 0.97"),
    // 50000 · 0.2 · (1 - 0.4) / 1000 = 6
    ("Q34", "6", "50000 0.2 0.4"),
    // 1000 · (0.4 · 85 / 100 + 0.5 · 15 / 100) / 1000 = 0.415
    ("Q35", "0.415", "1000 0.4 0.5"),
    // (3000 · 0.4 + 2000 · 0.5) / 1000 = 2.2
    ("Q36", "2.2", "3000 0.4 2000 0.5"),
    // 300000 · 30 · 15 · 0.99 · 44 / 12 / 1000000 - 100 = 390.05
    ("Q37", "390.05", "300000 30 15 0.99 100"),
    // 0.007 · 100000 / 1000 = 0.7
    ("Q38", "0.7", "0.007 100000"),
    // 0.007 · 100000 · (1 - 0.8 · 0.9) / 1000 = 700 · 0.28 / 1000 = 0.196; by factors from 0.006 to 0.008 and
    // destruction from 0.7 to 0.9, from 600 · (1 - 0.81) / 1000 = 0.114 to 800 · (1 - 0.63) / 1000 = 0.296
    (
        "Q39",
        "0.196,0.114,0.296",
        "0.007,0.006,0.008 100000 0.8,0.7,0.9 0.9",
    ),
    // (1000 · 1.4 + 500 · 0.08 + 200 · 1.7) / 1000 = 1.78
    ("Q40", "1.78", "1000 1.4 500 0.08 200 1.7"),
    ("Q40", "NE", "NE NE NE NE NE NE"),
    // (1.6 · 1000 + 1.7 · 500) / 1000 = 2.45
    ("Q41", "2.45", "1.6 1000 1.7 500"),
    // 0.0004 · 50000 / 1000 = 0.02
    ("Q42", "0.02", "0.0004 50000"),
    // 0.14 · 2 · 50000 / 1000000 = 0.014
    ("Q44", "0.014", "0.14 2 50000"),
    // 2 · 0.1 = 0.2
    ("Q45", "0.2", "2 0.1"),
    // 300 · 20 · 0.2 · 44 / 12 / 1000 = 4.4
    ("Q46", "4.4", "300 20 0.2"),
    // 55 · 1000000 / 1000000 = 55
    ("Q55", "55", "55 1000000"),
    // 100 · 0.065 · 36500 / 5565 = 237250 / 5565 = 42.632524707996 and a rest
    ("Q56", "42.632524707996;42.632524707997", "100 0.065"),
    // 0.17 · 0.45 = 0.0765
    ("Q57", "0.0765", "0.17 0.45"),
    // 5 · 365 · (0.24 · 67 / 100 · 0.5) = 146.73
    ("Q58", "146.73", "5 0.24 0.5"),
    ("Q58", "NE", "NE NE NE"),
    // 700000 · 50 · 0.4 · 0.005 · 44 / 28 / 1000000 = 0.11
    ("Q59", "0.11", "700000 50 0.4 0.005"),
    // 1000 · 50 · 0.4 · 0.3 / 1000 = 6
    ("Q60", "6", "1000 50 0.4 0.3"),
    // 700 · 0.01 · 44 / 28 / 1000 = 0.011
    ("Q61", "0.011", "700 0.01"),
    // 0.48 · 600 / 1000 · 365 = 105.12
    ("Q62", "105.12", "0.48 600"),
    // (1000000 · 50 · 0.4 · (1 - 0.25) + 1000000 · 0.4 · 0) / 1000 = 15000; by losses from 10000 to 18000
    ("Q63", "15000,10000,18000", "1000000 50 0.4 0.25,0.1,0.5 0"),
    // (1000 · 50 · 0.4 · (1 - 0.25) + 1000 · 0.4 · 7) / 1000 = (15000 + 2800) / 1000 = 17.8
    ("Q63", "17.8", "1000 50 0.4 0.25 7"),
    // 1000 · 50 · 0.2 / 1000 = 10
    ("Q64", "10", "1000 50 0.2"),
    // 13500 of manure alone, and 1 + 2 + 3 + 4 = 10
    ("Q67", "13500", "13500 0 0 0"),
    ("Q67", "10", "1 2 3 4"),
    // 15000 · (1 - 0.1) = 13500, and by fractions for feed from 0.05 to 0.15 from 12750 to 14250
    ("Q68", "13500,12750,14250", "15000 0.1,0.05,0.15 0 0"),
    // 1000 · (1 - (0.1 + 0.2 + 0.3)) = 400
    ("Q68", "400", "1000 0.1 0.2 0.3"),
    // 13500 · 0.01 · 44 / 28 / 1000 = 135 · 11 / 7 / 1000 = 0.212142857142 and a rest
    ("Q69", "0.212142857142;0.212142857143", "0 13500 0 0 0.01"),
    // (100 + 200 + 300 + 100) · 0.01 · 44 / 28 / 1000 = 0.011
    ("Q69", "0.011", "100 200 300 100 0.01"),
    // 700 · 0.008 · 44 / 28 / 1000 = 0.0088
    ("Q70", "0.0088", "700 0.008"),
    // 1400 · 0.02 · 44 / 28 / 1000 = 0.044
    ("Q71", "0.044", "1400 0.02"),
    // (100 · 0.1 + (200 + 50) · 0.2) · 0.01 · 44 / 28 / 1000 = 0.000942857142 and a rest
    (
        "Q72",
        "0.000942857142;0.000942857143",
        "100 0.1 200 50 0.2 0.01",
    ),
    // (100 + 200 + 50 + 30 + 20) · 0.3 · 0.0075 · 44 / 28 / 1000 = 0.001414285714 and a rest
    (
        "Q73",
        "0.001414285714;0.001414285715",
        "100 200 50 30 20 0.3 0.0075",
    ),
    ("Q73", "NE", "NE NE NE NE NE NE NE"),
    // (300 · 0.12 + 600 · 0.13) · 44 / 12 / 1000 = 0.418
    ("Q74", "0.418", "300 0.12 600 0.13"),
    // 300 · 0.2 · 44 / 12 / 1000 = 0.22
    ("Q75", "0.22", "300 0.2"),
    // 1.3 · 0.6 · 0.68 · 1.5 · 0.9 = 0.71604
    ("Q76", "0.71604", "1.3 0.6 0.68 1.5 0.9"),
    // 1.3 · 120 · 50000 / 1000000 = 7.8
    ("Q77", "7.8", "1.3 120 50000"),
    // 1000 · 2 · (1 + 0.25) · 0.5 / 1000 = 1.25
    ("Q78", "1.25", "1000 2 0.25 0.5"),
    // 1000 · 4 · 0.7 · (1 + 0.25) · 0.5 / 1000 = 1.75
    ("Q79", "1.75", "1000 4 0.7 0.25 0.5"),
    // 2000 · 0.7 · (1 + 0.25) · 0.5 / 1000 = 0.875
    ("Q80", "0.875", "2000 0.7 0.25 0.5"),
    // (1000 · 0.7 · (1 + 0.25) + 500 · 0.4) · 0.5 / 1000 = 0.5375
    ("Q81", "0.5375", "1000 0.7 0.25 500 0.4 0.5"),
    ("Q81", "NE", "NE NE NE NE NE NE"),
    // 100 · 120 · (1 + 0.25) · 0.5 · 0.3 / 1000 = 2.25
    ("Q82", "2.25", "100 120 0.25 0.5 0.3"),
    // 6 - 3 = 3, from 3 - 6 = -3 to 9 - 2.7 = 6.3
    ("Q83", "3,-3,6.3", "6,3,9 3,2.7,6"),
    // (0 - 3) · 44 / 12 = -11, from (0 - 6.3) · 11 / 3 = -23.1 to (0 + 3) · 11 / 3 = 11
    ("Q84", "-11,-23.1,11", "3,-3,6.3"),
    // 95 · 0.69 · 1.08 · 0.9 · 1000 / 1000 = 63.7146
    ("Q85", "63.7146", "95 0.69 1.08 0.9 1000"),
    // (100 - 120) / 20 = -1
    ("Q86", "-1", "100 120"),
    // 3000 · 5 / 1000 = 15
    ("Q87", "15", "3000 5"),
    // 1000 · 10 · 0.5 · 0.0023 / 1000 = 0.0115
    ("Q88", "0.0115", "1000 10 0.5 0.0023"),
    // 1000 · 50 · 0.45 · 0.0002 / 1000 = 0.0045
    ("Q89", "0.0045", "1000 50 0.45 0.0002"),
    // 80000 · 0.15 · 0.5 · 1 / 1000 = 6, by organic carbon from 0.12 to 0.18 from 4.8 to 7.2
    ("Q90", "6,4.8,7.2", "80000 0.15,0.12,0.18 0.5 1"),
    // 6 + 4 · 0.5 = 8
    ("Q91", "8", "6 4 0.5"),
    // 6 · (1 - 0.25) = 4.5
    ("Q92", "4.5", "6 0.25"),
    // 3 · 0.5 · 16 / 12 = 2
    ("Q93", "2", "3 0.5"),
    // (2 - 0.5) · (1 - 0.1) = 1.35, from (1 - 1) · 0.8 = 0 to (3 - 0) · 1 = 3
    ("Q94", "1.35,0,3", "2,1,3 0.5,0,1 0.1,0,0.2"),
    // 20000 · 0.004 / 1000 - 0.01 = 0.07
    ("Q95", "0.07", "20000 0.004 0.01"),
    // 20000 · 0.0003 / 1000 = 0.006
    ("Q96", "0.006", "20000 0.0003"),
    // 10000 · 0.9 · 0.4 · 0.5 · 1 · 44 / 12 / 1000 = 6.6
    ("Q97", "6.6", "10000 0.9 0.4 0.5 1"),
    // 0.6 · 0.8 = 0.48
    ("Q98", "0.48", "0.6 0.8"),
    // 1000000 · 60 / 1000 · 1.25 · 365 / 1000 = 27375
    ("Q99", "27375", "1000000 60 1.25"),
    // 0.48 · (27375 - 2375) / 1000 - 2 = 10
    ("Q100", "10", "0.48 27375 2375 2"),
    // 0.4 · 0.5 · 0.3 = 0.06
    ("Q101", "0.06", "0.4 0.5 0.3"),
    // 1000000 · 30 · 0.16 · 1.1 · 1.25 / 1000 - 600 = 6000
    ("Q102", "6000", "1000000 30 0.16 1.1 1.25 600"),
    // 7000 · 0.005 · 44 / 28 / 1000 = 0.055
    ("Q103", "0.055", "7000 0.005"),
];

// The value of an equation by the call of its sector.
fn evaluate(id: EqId, ticket: Ticket, inputs: &[Input]) -> Result<Value, Over>
    requires { length inputs.now ≡ length (parameters id) }
    ensures { result ≡ equation_value id inputs.now }
{
    match id.sector() {
        Sector::Energy => ghg_energy::evaluate(id, ticket, inputs),
        Sector::Industry => ghg_ippu::evaluate(id, ticket, inputs),
        Sector::Livestock => ghg_livestock::evaluate(id, ticket, inputs),
        Sector::Soils => ghg_soils::evaluate(id, ticket, inputs),
        Sector::Land => ghg_land::evaluate(id, ticket, inputs),
        Sector::Waste => ghg_waste::evaluate(id, ticket, inputs),
    }
}

// The value where there are as many quantities as parameters and it is within the limit.
fn evaluated(id: EqId, ticket: Ticket, inputs: &[Input]) -> Option<Input> {
    if inputs.len() != params_of(id).len() {
        return None;
    }
    match evaluate(id, ticket, inputs) {
        Ok(value) => Some(*value.input()),
        Err(Over) => None,
    }
}

// The quantities of a text, with spaces between them.
fn quantities(rt: &impl Abort, alloc: Global, text: &str) -> Vec<Input> {
    let mut inputs = Vec::new(alloc);
    for word in text.split_whitespace() {
        let quantity = input(word).expect(rt, "a quantity");
        inputs.push(quantity).ok().expect(rt, "memory");
    }
    inputs
}

#[test]
fn equations_have_their_values(rt: HostRuntime) {
    for (code, want, given) in CASES {
        let id = eq_named(code.as_bytes()).expect(&rt, "a code");
        let ticket = ticket(&rt, rt.alloc());
        let inputs = quantities(&rt, rt.alloc(), given);
        check(&rt, evaluated(id, ticket, &inputs) == input(want), code);
    }
}

// Codes, and of their rows the number of parameters and the gas that they emit.
const ROWS: &[(&str, EqId, usize, Option<Gas>)] = &[
    ("Q10", EqId::Q10, 2, Some(Gas::Co2)),
    ("Q12", EqId::Q12, 2, Some(Gas::N2o)),
    ("Q13", EqId::Q13, 2, None),
    ("Q20", EqId::Q20, 5, None),
    ("Q21", EqId::Q21, 4, None),
    ("Q26", EqId::Q26, 4, Some(Gas::Co2)),
    ("Q42", EqId::Q42, 2, Some(Gas::Cf4)),
    ("Q45", EqId::Q45, 2, Some(Gas::C2f6)),
    ("Q56", EqId::Q56, 2, None),
    ("Q73", EqId::Q73, 7, Some(Gas::N2o)),
    ("Q89", EqId::Q89, 4, Some(Gas::N2o)),
];

// What is no code.
const OTHERS: &[&str] = &[
    "", "Q", "Q1", "q10", "Q10 ", "Q010", "Q18", "Q19", "Q27", "Q43", "Q47", "Q54", "Q65", "Q66",
];

fn has_row(text: &str, id: EqId, count: usize, gas: Option<Gas>) -> bool {
    let row = equation(id);
    eq_named(text.as_bytes()) == Some(id)
        && row.name == text
        && row.params.len() == count
        && row.output.gas() == gas
}

#[test]
fn codes_lead_to_their_rows(rt: HostRuntime) {
    each_code_names_itself();
    for (text, id, count, gas) in ROWS {
        check(&rt, has_row(text, *id, *count, *gas), text);
    }
    for text in OTHERS {
        check(&rt, eq_named(text.as_bytes()).is_none(), text);
    }
}

// Gases, the next one in their order, and how they are written.
const GASES: &[(Gas, Gas, &str)] = &[
    (Gas::Co2, Gas::Ch4, "CO2"),
    (Gas::Ch4, Gas::N2o, "CH4"),
    (Gas::N2o, Gas::Cf4, "N2O"),
    (Gas::Cf4, Gas::C2f6, "CF4"),
];

// A quantity of a gas that another equation takes is no emission.
#[test]
fn gases_are_written_by_their_formulas(rt: HostRuntime) {
    for (gas, next, word) in GASES {
        check(&rt, gas.word() == *word && gas < next, word);
        check(&rt, Output::Emission(*gas).gas() == Some(*gas), word);
    }
    check(&rt, Gas::C2f6.word() == "C2F6", "C2F6");
    check(
        &rt,
        Output::Aux(Dim::Gas).gas().is_none(),
        "a gas that is no emission",
    );
}
