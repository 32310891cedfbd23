//! The equations by their codes.

ghost use Rattle.std.specs.Prelude.{◌≡◌, length};
ghost use Rattle.ghg_equations.specs.Table.{parameters, sector_of};
ghost use Rattle.ghg_cell.specs.Values.{equation_value};

use crate::{chemicals, metals, minerals, products};
use ghg_cell::{Input, Ticket, Value};
use ghg_equations::{EqId, Sector};
use ghg_interval::Over;

/// The value of an equation of industry over its inputs, which stand in the order of its parameters.
pub fn evaluate(id: EqId, ticket: Ticket, inputs: &[Input]) -> Result<Value, Over>
    requires sector { sector_of id ≡ Sector.Industry }
    requires count { length inputs.now ≡ length (parameters id) }
    ensures { result ≡ equation_value id inputs.now }
{
    match inputs {
        [a, b] => match id {
            EqId::Q30 => minerals::q30(ticket, a, b),
            EqId::Q38 => chemicals::q38(ticket, a, b),
            EqId::Q42 => metals::q42(ticket, a, b),
            EqId::Q45 => metals::q45(ticket, a, b),
            _ => unreachable!(),
        },
        [a, b, c] => match id {
            EqId::Q32 => minerals::q32(ticket, a, b, c),
            EqId::Q34 => minerals::q34(ticket, a, b, c),
            EqId::Q35 => minerals::q35(ticket, a, b, c),
            EqId::Q44 => metals::q44(ticket, a, b, c),
            EqId::Q46 => products::q46(ticket, a, b, c),
            _ => unreachable!(),
        },
        [a, b, c, d] => match id {
            EqId::Q31 => minerals::q31(ticket, a, b, c, d),
            EqId::Q33 => minerals::q33(ticket, a, b, c, d),
            EqId::Q36 => minerals::q36(ticket, a, b, c, d),
            EqId::Q39 => chemicals::q39(ticket, a, b, c, d),
            EqId::Q41 => metals::q41(ticket, a, b, c, d),
            _ => unreachable!(),
        },
        [a, b, c, d, e] => match id {
            EqId::Q37 => chemicals::q37(ticket, a, b, c, d, e),
            _ => unreachable!(),
        },
        [a, b, c, d, e, f] => match id {
            EqId::Q40 => metals::q40(ticket, a, b, c, d, e, f),
            _ => unreachable!(),
        },
        _ => unreachable!(),
    }
}
