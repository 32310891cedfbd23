//! Products of fuels that are not burnt: Volume 3, chapter 5.

ghost use Rattle.std.specs.Prelude.{◌≡◌, [], ◌∷◌};
ghost use Rattle.ghg_equations.specs.declared.eq_id.EqId.TheVariants as EqId;
ghost use Rattle.ghg_cell.specs.Values.{equation_value};

use ghg_cell::{Input, Ticket, Value, known};
use ghg_interval::Over;

/// CO2 of lubricants or waxes in their use, in Gg: the consumption `lc` in TJ times the carbon content `cc`
/// in tC/TJ and the fraction oxidised during use `odu`, from carbon to CO2 (Equations 5.2 and 5.4, Tier 1).
pub fn q46(ticket: Ticket, lc: &Input, cc: &Input, odu: &Input) -> Result<Value, Over>
    ensures { result ≡ equation_value EqId.Q46 (lc.now ∷ cc.now ∷ odu.now ∷ []) }
{
    known!(ticket, lc, cc, odu);
    let value = lc.mul(&cc)?.mul(&odu)?.scale(44, 12)?.scale(1, 1_000)?;
    Ok(Value::known(ticket, value))
}
