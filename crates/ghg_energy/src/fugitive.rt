//! Fugitive emissions: Volume 2, chapter 4.

ghost use Rattle.std.specs.Prelude.{◌≡◌, [], ◌∷◌};
ghost use Rattle.ghg_equations.specs.declared.eq_id.EqId.TheVariants as EqId;
ghost use Rattle.ghg_cell.specs.Values.{equation_value};

use ghg_cell::{Input, Ticket, Value, known};
use ghg_interval::Over;

/// CH4 of coal mining, in Gg: the coal `p` in t times the emission factor `ef` in m3/t, at 0.67 kg of CH4 in
/// a m3 (chapter 4, coal, Tier 1).
pub fn q14(ticket: Ticket, p: &Input, ef: &Input) -> Result<Value, Over>
    ensures { result ≡ equation_value EqId.Q14 (p.now ∷ ef.now ∷ []) }
{
    known!(ticket, p, ef);
    let value = p.mul(&ef)?.scale(67, 100)?.scale(1, 1_000_000)?;
    Ok(Value::known(ticket, value))
}

/// CH4 of oil and natural gas, in Gg: the activity `a` in m3 times the emission factor `ef` in kg/m3
/// (Equation 4.2.1).
pub fn q15(ticket: Ticket, a: &Input, ef: &Input) -> Result<Value, Over>
    ensures { result ≡ equation_value EqId.Q15 (a.now ∷ ef.now ∷ []) }
{
    known!(ticket, a, ef);
    let value = a.mul(&ef)?.scale(1, 1_000_000)?;
    Ok(Value::known(ticket, value))
}

/// CO2 of oil and natural gas, in Gg, of the same parameters (Equation 4.2.1).
pub fn q16(ticket: Ticket, a: &Input, ef: &Input) -> Result<Value, Over>
    ensures { result ≡ equation_value EqId.Q16 (a.now ∷ ef.now ∷ []) }
{
    q15(ticket, a, ef)
}

/// N2O of oil and natural gas, in Gg, of the same parameters (Equation 4.2.1).
pub fn q17(ticket: Ticket, a: &Input, ef: &Input) -> Result<Value, Over>
    ensures { result ≡ equation_value EqId.Q17 (a.now ∷ ef.now ∷ []) }
{
    q15(ticket, a, ef)
}
