//! A body spliced.

ghost use Rattle.std.specs.Prelude.{◌≡◌, IfOk};
ghost use Rattle.ghg_splice.specs.Laws.{HoldsExactFractions};
ghost use Rattle.ghg_splice.specs.Refusals.{Gives};
ghost use Rattle.ghg_splice.specs.Splice.{splice_of, text_in};

use crate::fills::fills;
use crate::method::Method;
use crate::refusal::{SpliceRefusal, Stop};
use crate::series::read_rows;
use crate::text::{Heading, print};
use ghg_units::{Name, Text, Unit};
use std::alloc::{AllocError, Global};

/// The longest body that is spliced, in bytes.
pub const MAX_BODY: usize = 65_536;

/// What splicing gives.
#[derive(Drop)]
pub enum Spliced {
    /// The body of a submission that enters the filled years.
    Body(Text),
    /// Why there is none.
    Refused(SpliceRefusal),
}

/// Fills the years that a series lacks.
///
/// The body is CSV with the header `year,y,y_low,y_high,x,x_low,x_high`: the series y and, for surrogate data
/// and overlap, another series x beside it, each with bounds.
pub fn splice(
    alloc: Global,
    method: Method,
    name: Name,
    unit: Unit,
    body: &[u8],
) -> Result<Spliced, AllocError>
    ensures gives { IfOk result (λ spliced. spliced ≡ splice_of method name unit body.now) }
    // For every choice of fractions inside the supplied bounds, what fills a year holds the fraction that the
    // formula gives.
    ensures holds { HoldsExactFractions method body.now }
{
    let heading = Heading { method, name, unit };
    match text(alloc, &heading, body) {
        Ok(text) => Ok(Spliced::Body(text)),
        Err(Stop::Refusal(refusal)) => Ok(Spliced::Refused(refusal)),
        Err(Stop::Memory) => Err(AllocError),
    }
}

// The text, or why there is none.
#[tactic(auto, unfolding(crate::specs::Splice::text_in))]
fn text(alloc: Global, heading: &Heading, body: &[u8]) -> Result<Text, Stop>
    ensures { Gives (λ text. text) result (text_in heading.now body.now) }
{
    if body.len() > MAX_BODY {
        return Err(Stop::Refusal(SpliceRefusal::TooLong));
    }
    let rows = read_rows(alloc, body)?;
    let fills = fills(alloc, heading.method, &rows)?;
    print(alloc, heading, &fills)
}
