//! Lime and urea on soils: Volume 4, chapter 11.

ghost use Rattle.std.specs.Prelude.{◌≡◌, [], ◌∷◌};
ghost use Rattle.ghg_equations.specs.declared.eq_id.EqId.TheVariants as EqId;
ghost use Rattle.ghg_cell.specs.Values.{equation_value};

use ghg_cell::{Input, Ticket, Value, known};
use ghg_interval::Over;

/// CO2 of lime on soils, in Gg: the limestone `ml` and the dolomite `md` in t, each times its emission factor
/// `efl` and `efd` in t of carbon for a t, from carbon to CO2 (Equation 11.12).
pub fn q74(ticket: Ticket, ml: &Input, efl: &Input, md: &Input, efd: &Input) -> Result<Value, Over>
    ensures { result ≡ equation_value EqId.Q74 (ml.now ∷ efl.now ∷ md.now ∷ efd.now ∷ []) }
{
    known!(ticket, ml, efl, md, efd);
    let limestone = ml.mul(&efl)?;
    let dolomite = md.mul(&efd)?;
    let value = limestone.add(&dolomite)?.scale(44, 12)?.scale(1, 1_000)?;
    Ok(Value::known(ticket, value))
}

/// CO2 of urea on soils, in Gg: the urea `m` in t times the emission factor `ef` in t of carbon for a t, from
/// carbon to CO2 (Equation 11.13).
pub fn q75(ticket: Ticket, m: &Input, ef: &Input) -> Result<Value, Over>
    ensures { result ≡ equation_value EqId.Q75 (m.now ∷ ef.now ∷ []) }
{
    known!(ticket, m, ef);
    let value = m.mul(&ef)?.scale(44, 12)?.scale(1, 1_000)?;
    Ok(Value::known(ticket, value))
}
