//! The body of a submission that enters the filled years.

ghost use Rattle.std.specs.Prelude.{◌≡◌, ◌++◌, OnOk};
ghost use Rattle.ghg_splice.specs.Refusals.{Gives, GivesBehind};
ghost use Rattle.ghg_splice.specs.Texts.{field_text, figures_text, is_printable, line_in, line_text, middle, number_text, printed_in, subject_text};

use crate::fills::Fill;
use crate::method::Method;
use crate::quantity::Quantity;
use crate::refusal::{SpliceRefusal, Stop};
use ghg_interval::{Interval, LIMIT};
use ghg_units::{Decimal, Name, Text, Unit, unit_word, write_fixed};
use itoa::Buffer;
use std::alloc::{AllocError, Global};

/// What each line says of the series.
#[derive(Clone, Copy, Drop)]
pub(crate) struct Heading {
    pub(crate) method: Method,
    pub(crate) name: Name,
    pub(crate) unit: Unit,
}

/// A line for each filled year under the header of submissions, or the earliest year that is over.
pub(crate) fn print(
    alloc: Global,
    heading: &Heading,
    fills: &[Fill<Quantity>],
) -> Result<Text, Stop>
    ensures { Gives (λ text. text) result (printed_in heading.now fills.now) }
{
    let mut out = Vec::new(alloc);
    out.extend_from_slice(b"act,kind,subject,name,year,value,low,high,unit,note\n")?;
    for fill in fills {
        append_fill(&mut out, heading, fill)?;
    }
    Ok(Text::new(out))
}

fn append_fill(out: &mut Vec<u8>, heading: &Heading, fill: &Fill<Quantity>) -> Result<(), Stop>
    ensures { GivesBehind out.old.items out.new.items result
        (line_in heading.now fill.now.year fill.now.value) }
{
    match &fill.value {
        Some(value) if is_printable(&value.range) => {
            append_line(out, heading, fill.year, value)?;
            Ok(())
        }
        _ => Err(Stop::Refusal(SpliceRefusal::Over(fill.year))),
    }
}

// Whether both bounds have no more digits than a decimal of a submission.
fn is_printable(range: &Interval) -> bool
    ensures { result ≡ is_printable range.now }
{
    -LIMIT < range.lo() && range.hi() < LIMIT
}

#[tactic(auto, unfolding(crate::specs::Texts::line_text))]
fn append_line(
    out: &mut Vec<u8>,
    heading: &Heading,
    year: u32,
    value: &Quantity,
) -> Result<(), AllocError>
    ensures { OnOk result (out.new.items ≡ out.old.items ++ line_text heading.now year value.now) }
{
    append_subject(out, heading, year)?;
    append_figures(out, value)?;
    append_field(out, unit_word(heading.unit).as_bytes())?;
    out.extend_from_slice(heading.method.word().as_bytes())?;
    out.push(b'\n')?;
    Ok(())
}

// What is entered: an activity, by its name and its year.
#[tactic(auto, unfolding(crate::specs::Texts::subject_text))]
fn append_subject(out: &mut Vec<u8>, heading: &Heading, year: u32) -> Result<(), AllocError>
    ensures { OnOk result (out.new.items ≡ out.old.items ++ subject_text heading.now year) }
{
    let mut digits = Buffer::new();
    append_field(out, b"enter,activity,")?;
    append_field(out, heading.name.as_bytes())?;
    append_field(out, digits.format(year).as_bytes())
}

// The middle of the point, and the bounds of the range.
#[tactic(auto, unfolding(crate::specs::Texts::figures_text))]
fn append_figures(out: &mut Vec<u8>, value: &Quantity) -> Result<(), AllocError>
    ensures { OnOk result (out.new.items ≡ out.old.items ++ figures_text value.now) }
{
    append_number(out, middle(&value.point))?;
    append_number(out, value.range.lo())?;
    append_number(out, value.range.hi())
}

// Half the sum of the bounds, rounded down.
fn middle(point: &Interval) -> i128
    ensures { result ≡ middle point.now }
{
    (point.lo() + point.hi()).div_euclid(2)
}

// A number with all its decimals, and a comma.
#[tactic(auto, unfolding(crate::specs::Texts::number_text, crate::specs::Texts::field_text))]
fn append_number(out: &mut Vec<u8>, n: i128) -> Result<(), AllocError>
    ensures { OnOk result (out.new.items ≡ out.old.items ++ number_text n) }
{
    write_fixed(out, n, Decimal::PLACES as u32)?;
    out.push(b',')?;
    Ok(())
}

#[tactic(auto, unfolding(crate::specs::Texts::field_text))]
fn append_field(out: &mut Vec<u8>, text: &[u8]) -> Result<(), AllocError>
    ensures { OnOk result (out.new.items ≡ out.old.items ++ field_text text.now) }
{
    out.extend_from_slice(text)?;
    out.push(b',')?;
    Ok(())
}
