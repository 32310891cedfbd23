//! The equations by their codes.

ghost use Rattle.std.specs.Prelude.{◌≡◌, length};
ghost use Rattle.ghg_equations.specs.Table.{parameters, sector_of};
ghost use Rattle.ghg_cell.specs.Values.{equation_value};

use crate::{biomass, fire, stocks};
use ghg_cell::{Input, Ticket, Value};
use ghg_equations::{EqId, Sector};
use ghg_interval::Over;

/// The value of an equation of land over its inputs, which stand in the order of its parameters.
pub fn evaluate(id: EqId, ticket: Ticket, inputs: &[Input]) -> Result<Value, Over>
    requires sector { sector_of id ≡ Sector.Land }
    requires count { length inputs.now ≡ length (parameters id) }
    ensures { result ≡ equation_value id inputs.now }
{
    match inputs {
        [a] => match id {
            EqId::Q84 => stocks::q84(ticket, a),
            _ => unreachable!(),
        },
        [a, b] => match id {
            EqId::Q83 => stocks::q83(ticket, a, b),
            EqId::Q86 => stocks::q86(ticket, a, b),
            EqId::Q87 => stocks::q87(ticket, a, b),
            _ => unreachable!(),
        },
        [a, b, c, d] => match id {
            EqId::Q78 => biomass::q78(ticket, a, b, c, d),
            EqId::Q80 => biomass::q80(ticket, a, b, c, d),
            EqId::Q88 => fire::q88(ticket, a, b, c, d),
            EqId::Q89 => fire::q89(ticket, a, b, c, d),
            _ => unreachable!(),
        },
        [a, b, c, d, e] => match id {
            EqId::Q79 => biomass::q79(ticket, a, b, c, d, e),
            EqId::Q82 => biomass::q82(ticket, a, b, c, d, e),
            EqId::Q85 => stocks::q85(ticket, a, b, c, d, e),
            _ => unreachable!(),
        },
        [a, b, c, d, e, f] => match id {
            EqId::Q81 => biomass::q81(ticket, a, b, c, d, e, f),
            _ => unreachable!(),
        },
        _ => unreachable!(),
    }
}
