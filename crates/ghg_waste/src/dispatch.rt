//! The equations by their codes.

ghost use Rattle.std.specs.Prelude.{◌≡◌, length};
ghost use Rattle.ghg_equations.specs.Table.{parameters, sector_of};
ghost use Rattle.ghg_cell.specs.Values.{equation_value};

use crate::{landfill, treatment, wastewater};
use ghg_cell::{Input, Ticket, Value};
use ghg_equations::{EqId, Sector};
use ghg_interval::Over;

/// The value of an equation of waste over its inputs, which stand in the order of its parameters.
pub fn evaluate(id: EqId, ticket: Ticket, inputs: &[Input]) -> Result<Value, Over>
    requires sector { sector_of id ≡ Sector.Waste }
    requires count { length inputs.now ≡ length (parameters id) }
    ensures { result ≡ equation_value id inputs.now }
{
    match inputs {
        [a, b] => match id {
            EqId::Q92 => landfill::q92(ticket, a, b),
            EqId::Q93 => landfill::q93(ticket, a, b),
            EqId::Q96 => treatment::q96(ticket, a, b),
            EqId::Q98 => wastewater::q98(ticket, a, b),
            EqId::Q103 => wastewater::q103(ticket, a, b),
            _ => unreachable!(),
        },
        [a, b, c] => match id {
            EqId::Q91 => landfill::q91(ticket, a, b, c),
            EqId::Q94 => landfill::q94(ticket, a, b, c),
            EqId::Q95 => treatment::q95(ticket, a, b, c),
            EqId::Q99 => wastewater::q99(ticket, a, b, c),
            EqId::Q101 => wastewater::q101(ticket, a, b, c),
            _ => unreachable!(),
        },
        [a, b, c, d] => match id {
            EqId::Q90 => landfill::q90(ticket, a, b, c, d),
            EqId::Q100 => wastewater::q100(ticket, a, b, c, d),
            _ => unreachable!(),
        },
        [a, b, c, d, e] => match id {
            EqId::Q97 => treatment::q97(ticket, a, b, c, d, e),
            _ => unreachable!(),
        },
        [a, b, c, d, e, f] => match id {
            EqId::Q102 => wastewater::q102(ticket, a, b, c, d, e, f),
            _ => unreachable!(),
        },
        _ => unreachable!(),
    }
}
