//! The bodies of the submissions.

ghost use Rattle.std.specs.Prelude.{◌≡◌, ◌<◌, ◌≤◌, ◌++◌, IfOk, OnOk};
ghost use Rattle.std.specs.String.{string_bytes};
ghost use Rattle.ghg_generator.specs.Bodies.{activity_row, activity_rows, category_of, equation_of, bind_rows, factor_row, four_digits, line_body, line_row, opening_body};
ghost use Rattle.ghg_generator.specs.Draws.{after_draws};

use crate::draws::draw;
use std::alloc::{AllocError, Global};

const HEADER: &[u8] = b"act,kind,subject,name,year,value,low,high,unit,note\n";

/// The body of the opening submission.
pub(crate) fn opening_body(alloc: Global) -> Result<Vec<u8>, AllocError>
    ensures { IfOk result (λ body. body.items ≡ opening_body) }
{
    let mut body = HEADER.to_vec(alloc)?;
    body.extend_from_slice(b"enter,span,,,1990,2020,1990,,,\n")?;
    body.extend_from_slice(b"enter,factor,,GWP.CO2,1990,1,,,1,\n")?;
    body.extend_from_slice(b"enter,factor,,GWP.CH4,1990,25,,,1,\n")?;
    body.extend_from_slice(b"enter,factor,,GWP.N2O,1990,298,,,1,\n")?;
    Ok(body)
}

/// The body of the line of this place, from 1. Its draws are those that follow the number.
#[tactic(auto, unfolding(crate::specs::Bodies::line_body))]
pub(crate) fn line_body(alloc: Global, place: u32, number: &mut u32) -> Result<Vec<u8>, AllocError>
    requires { 1 ≤ place }
    ensures body { IfOk result (λ body. body.items ≡ line_body place number.old) }
    ensures number { OnOk result (number.new ≡ after_draws 32 number.old) }
{
    let digits = four_digits(alloc, place)?;
    let line = line_row(alloc, digits.as_str(), place)?;
    let bindings = bind_rows(alloc, digits.as_str())?;
    let factor = factor_row(alloc, digits.as_str(), draw(number))?;
    let mut body = HEADER.to_vec(alloc)?;
    body.extend_from_slice(line.as_bytes())?;
    body.extend_from_slice(bindings.as_bytes())?;
    body.extend_from_slice(factor.as_bytes())?;
    append_activities(alloc, &mut body, digits.as_str(), number)?;
    Ok(body)
}

// The last four digits of a place.
#[tactic(auto, unfolding(crate::specs::Bodies::four_digits))]
fn four_digits(alloc: Global, place: u32) -> Result<String, AllocError>
    ensures { IfOk result (λ digits. string_bytes digits ≡ four_digits place) }
{
    let thousands = place / 1000 % 10;
    let hundreds = place / 100 % 10;
    let tens = place / 10 % 10;
    let ones = place % 10;
    Ok(format!(in alloc; "{thousands}{hundreds}{tens}{ones}")?)
}

// A line.
fn line_row(alloc: Global, digits: &str, place: u32) -> Result<String, AllocError>
    requires { 1 ≤ place }
    ensures { IfOk result (λ row. string_bytes row ≡ line_row digits.now place) }
{
    let category = category_of((place - 1) % 10);
    let equation = equation_of((place - 1) % 3);
    Ok(format!(in alloc; "enter,line,{category},L{digits},,{equation},,,,\n")?)
}

// The bindings of a line.
fn bind_rows(alloc: Global, digits: &str) -> Result<String, AllocError>
    ensures { IfOk result (λ rows. string_bytes rows ≡ bind_rows digits.now) }
{
    Ok(format!(in alloc;
        "enter,bind,L{digits},FC,,activity,A{digits},,,\nenter,bind,L{digits},EF,,factor,F{digits},,,\n"
    )?)
}

// The category of a line.
#[tactic(auto, unfolding(crate::specs::Bodies::category_of))]
fn category_of(rest: u32) -> &'static str
    requires { rest < 10 }
    ensures { result.now ≡ category_of rest }
{
    match rest {
        0 => "1A1a",
        1 => "1A1b",
        2 => "1A1c",
        3 => "1A2",
        4 => "1A3a",
        5 => "1A3b",
        6 => "1A3c",
        7 => "1A4a",
        8 => "1A4b",
        _ => "1A5",
    }
}

// The equation of a line.
#[tactic(auto, unfolding(crate::specs::Bodies::equation_of))]
fn equation_of(rest: u32) -> &'static str
    requires { rest < 3 }
    ensures { result.now ≡ equation_of rest }
{
    match rest {
        0 => "Q10",
        1 => "Q11",
        _ => "Q12",
    }
}

// The factor of a line.
#[tactic(auto, unfolding(crate::specs::Bodies::factor_row))]
fn factor_row(alloc: Global, digits: &str, drawn: u32) -> Result<String, AllocError>
    ensures { IfOk result (λ row. string_bytes row ≡ factor_row digits.now drawn) }
{
    let value = 1000 + drawn % 9000;
    let low = value - 100;
    let high = value + 100;
    Ok(format!(in alloc; "enter,factor,,F{digits},1990,{value},{low},{high},kg/TJ,\n")?)
}

// Appends the activity of each year, from 2020 down to 1990.
fn append_activities(
    alloc: Global,
    body: &mut Vec<u8>,
    digits: &str,
    number: &mut u32,
) -> Result<(), AllocError>
    ensures body { OnOk result (body.new.items ≡ body.old.items ++ activity_rows 31 digits.now number.old) }
    ensures number { OnOk result (number.new ≡ after_draws 31 number.old) }
{
    let mut left: u32 = 31;
    while left > 0 {
        left -= 1;
        let row = activity_row(alloc, digits, 1990 + left, draw(number))?;
        body.extend_from_slice(row.as_bytes())?;
    }
    Ok(())
}

// The activity of a line in a year.
#[tactic(auto, unfolding(crate::specs::Bodies::activity_row))]
fn activity_row(alloc: Global, digits: &str, year: u32, drawn: u32) -> Result<String, AllocError>
    ensures { IfOk result (λ row. string_bytes row ≡ activity_row digits.now year drawn) }
{
    let value = 100 + drawn % 900;
    let low = value - 5;
    let high = value + 5;
    Ok(format!(in alloc; "enter,activity,,A{digits},{year},{value},{low},{high},TJ,\n")?)
}
