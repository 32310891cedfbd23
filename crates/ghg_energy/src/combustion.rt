//! Fuel combustion: Volume 2, chapter 2.

ghost use Rattle.std.specs.Prelude.{◌≡◌, [], ◌∷◌};
ghost use Rattle.ghg_equations.specs.declared.eq_id.EqId.TheVariants as EqId;
ghost use Rattle.ghg_cell.specs.Values.{equation_value};

use ghg_cell::{Input, Ticket, Value, known};
use ghg_interval::Over;

/// CO2 of fuel burnt, in Gg: the fuel `fc` in TJ times the emission factor `ef` in kg/TJ (Equation 2.1).
pub fn q10(ticket: Ticket, fc: &Input, ef: &Input) -> Result<Value, Over>
    ensures { result ≡ equation_value EqId.Q10 (fc.now ∷ ef.now ∷ []) }
{
    known!(ticket, fc, ef);
    let value = fc.mul(&ef)?.scale(1, 1_000_000)?;
    Ok(Value::known(ticket, value))
}

/// CH4 of fuel burnt, in Gg, of the same parameters (Equation 2.1).
pub fn q11(ticket: Ticket, fc: &Input, ef: &Input) -> Result<Value, Over>
    ensures { result ≡ equation_value EqId.Q11 (fc.now ∷ ef.now ∷ []) }
{
    q10(ticket, fc, ef)
}

/// N2O of fuel burnt, in Gg, of the same parameters (Equation 2.1).
pub fn q12(ticket: Ticket, fc: &Input, ef: &Input) -> Result<Value, Over>
    ensures { result ≡ equation_value EqId.Q12 (fc.now ∷ ef.now ∷ []) }
{
    q10(ticket, fc, ef)
}

/// Energy of a mass of fuel, in TJ: the mass `fm` in t times the net calorific value `ncv` in TJ/Gg. No
/// numbered equation of the Guidelines.
pub fn q13(ticket: Ticket, fm: &Input, ncv: &Input) -> Result<Value, Over>
    ensures { result ≡ equation_value EqId.Q13 (fm.now ∷ ncv.now ∷ []) }
{
    known!(ticket, fm, ncv);
    let value = fm.scale(1, 1_000)?.mul(&ncv)?;
    Ok(Value::known(ticket, value))
}
