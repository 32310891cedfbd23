//! The equations by their codes.

ghost use Rattle.std.specs.Prelude.{◌≡◌, length};
ghost use Rattle.ghg_equations.specs.Table.{parameters, sector_of};
ghost use Rattle.ghg_cell.specs.Values.{equation_value};

use crate::{methane, nitrogen};
use ghg_cell::{Input, Ticket, Value};
use ghg_equations::{EqId, Sector};
use ghg_interval::Over;

/// The value of an equation of livestock over its inputs, which stand in the order of its parameters.
pub fn evaluate(id: EqId, ticket: Ticket, inputs: &[Input]) -> Result<Value, Over>
    requires sector { sector_of id ≡ Sector.Livestock }
    requires count { length inputs.now ≡ length (parameters id) }
    ensures { result ≡ equation_value id inputs.now }
{
    match inputs {
        [a, b] => match id {
            EqId::Q55 => methane::q55(ticket, a, b),
            EqId::Q56 => methane::q56(ticket, a, b),
            EqId::Q57 => methane::q57(ticket, a, b),
            EqId::Q61 => nitrogen::q61(ticket, a, b),
            EqId::Q62 => nitrogen::q62(ticket, a, b),
            _ => unreachable!(),
        },
        [a, b, c] => match id {
            EqId::Q58 => methane::q58(ticket, a, b, c),
            EqId::Q64 => nitrogen::q64(ticket, a, b, c),
            _ => unreachable!(),
        },
        [a, b, c, d] => match id {
            EqId::Q59 => nitrogen::q59(ticket, a, b, c, d),
            EqId::Q60 => nitrogen::q60(ticket, a, b, c, d),
            _ => unreachable!(),
        },
        [a, b, c, d, e] => match id {
            EqId::Q63 => nitrogen::q63(ticket, a, b, c, d, e),
            _ => unreachable!(),
        },
        _ => unreachable!(),
    }
}
