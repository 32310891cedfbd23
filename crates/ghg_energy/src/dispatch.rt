//! The equations by their codes.

ghost use Rattle.std.specs.Prelude.{◌≡◌, length};
ghost use Rattle.ghg_equations.specs.Table.{parameters, sector_of};
ghost use Rattle.ghg_cell.specs.Values.{equation_value};

use crate::{combustion, fugitive, reference};
use ghg_cell::{Input, Ticket, Value};
use ghg_equations::{EqId, Sector};
use ghg_interval::Over;

/// The value of an equation of energy over its inputs, which stand in the order of its parameters.
pub fn evaluate(id: EqId, ticket: Ticket, inputs: &[Input]) -> Result<Value, Over>
    requires sector { sector_of id ≡ Sector.Energy }
    requires count { length inputs.now ≡ length (parameters id) }
    ensures { result ≡ equation_value id inputs.now }
{
    match inputs {
        [a, b] => match id {
            EqId::Q10 => combustion::q10(ticket, a, b),
            EqId::Q11 => combustion::q11(ticket, a, b),
            EqId::Q12 => combustion::q12(ticket, a, b),
            EqId::Q13 => combustion::q13(ticket, a, b),
            EqId::Q14 => fugitive::q14(ticket, a, b),
            EqId::Q15 => fugitive::q15(ticket, a, b),
            EqId::Q16 => fugitive::q16(ticket, a, b),
            EqId::Q17 => fugitive::q17(ticket, a, b),
            EqId::Q24 => reference::q24(ticket, a, b),
            _ => unreachable!(),
        },
        [a, b, c, d] => match id {
            EqId::Q21 => reference::q21(ticket, a, b, c, d),
            EqId::Q23 => reference::q23(ticket, a, b, c, d),
            EqId::Q26 => reference::q26(ticket, a, b, c, d),
            _ => unreachable!(),
        },
        [a, b, c, d, e] => match id {
            EqId::Q20 => reference::q20(ticket, a, b, c, d, e),
            EqId::Q22 => reference::q22(ticket, a, b, c, d, e),
            EqId::Q25 => reference::q25(ticket, a, b, c, d, e),
            _ => unreachable!(),
        },
        _ => unreachable!(),
    }
}
