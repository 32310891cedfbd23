//! The equations by their codes.

ghost use Rattle.std.specs.Prelude.{◌≡◌, length};
ghost use Rattle.ghg_equations.specs.Table.{parameters, sector_of};
ghost use Rattle.ghg_cell.specs.Values.{equation_value};

use crate::{carbonates, nitrogen, rice};
use ghg_cell::{Input, Ticket, Value};
use ghg_equations::{EqId, Sector};
use ghg_interval::Over;

/// The value of an equation of managed soils over its inputs, which stand in the order of its parameters.
pub fn evaluate(id: EqId, ticket: Ticket, inputs: &[Input]) -> Result<Value, Over>
    requires sector { sector_of id ≡ Sector.Soils }
    requires count { length inputs.now ≡ length (parameters id) }
    ensures { result ≡ equation_value id inputs.now }
{
    match inputs {
        [a, b] => match id {
            EqId::Q70 => nitrogen::q70(ticket, a, b),
            EqId::Q71 => nitrogen::q71(ticket, a, b),
            EqId::Q75 => carbonates::q75(ticket, a, b),
            _ => unreachable!(),
        },
        [a, b, c] => match id {
            EqId::Q77 => rice::q77(ticket, a, b, c),
            _ => unreachable!(),
        },
        [a, b, c, d] => match id {
            EqId::Q67 => nitrogen::q67(ticket, a, b, c, d),
            EqId::Q68 => nitrogen::q68(ticket, a, b, c, d),
            EqId::Q74 => carbonates::q74(ticket, a, b, c, d),
            _ => unreachable!(),
        },
        [a, b, c, d, e] => match id {
            EqId::Q69 => nitrogen::q69(ticket, a, b, c, d, e),
            EqId::Q76 => rice::q76(ticket, a, b, c, d, e),
            _ => unreachable!(),
        },
        [a, b, c, d, e, f] => match id {
            EqId::Q72 => nitrogen::q72(ticket, a, b, c, d, e, f),
            _ => unreachable!(),
        },
        [a, b, c, d, e, f, g] => match id {
            EqId::Q73 => nitrogen::q73(ticket, a, b, c, d, e, f, g),
            _ => unreachable!(),
        },
        _ => unreachable!(),
    }
}
