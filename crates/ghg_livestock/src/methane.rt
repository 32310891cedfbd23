//! Methane of enteric fermentation and of manure: Volume 4, chapter 10.

ghost use Rattle.std.specs.Prelude.{◌≡◌, [], ◌∷◌};
ghost use Rattle.ghg_equations.specs.declared.eq_id.EqId.TheVariants as EqId;
ghost use Rattle.ghg_cell.specs.Values.{equation_value};

use ghg_cell::{Input, Ticket, Value, known};
use ghg_interval::Over;

/// CH4 of enteric fermentation or of manure, in Gg: the emission factor `ef` in kg/head and year times the
/// animals `n` (Equation 10.19, and a term of Equation 10.22).
pub fn q55(ticket: Ticket, ef: &Input, n: &Input) -> Result<Value, Over>
    ensures { result ≡ equation_value EqId.Q55 (ef.now ∷ n.now ∷ []) }
{
    known!(ticket, ef, n);
    let value = ef.mul(&n)?.scale(1, 1_000_000)?;
    Ok(Value::known(ticket, value))
}

/// Emission factor of enteric fermentation, in kg/head and year: the gross energy intake `ge` in MJ/head/day
/// times the fraction of it that turns into CH4 `ym`, of 55.65 MJ in a kg of CH4 and over 365 days (Equation
/// 10.21).
pub fn q56(ticket: Ticket, ge: &Input, ym: &Input) -> Result<Value, Over>
    ensures { result ≡ equation_value EqId.Q56 (ge.now ∷ ym.now ∷ []) }
{
    known!(ticket, ge, ym);
    let value = ge.mul(&ym)?.scale(36_500, 5_565)?;
    Ok(Value::known(ticket, value))
}

/// Methane conversion of a manure management system, as a ratio: its conversion factor `mcf` times the share
/// of manure that it handles `ms` (a term of the sum in Equation 10.23).
pub fn q57(ticket: Ticket, mcf: &Input, ms: &Input) -> Result<Value, Over>
    ensures { result ≡ equation_value EqId.Q57 (mcf.now ∷ ms.now ∷ []) }
{
    known!(ticket, mcf, ms);
    let value = mcf.mul(&ms)?;
    Ok(Value::known(ticket, value))
}

/// Emission factor of manure, in kg/head and year: the volatile solids excreted `vs` in kg/head/day over 365
/// days, times the most CH4 that they yield `bo` in m3/kg, at 0.67 kg of CH4 in a m3, and the sum `sm` of the
/// methane conversions of the systems (Equation 10.23).
pub fn q58(ticket: Ticket, vs: &Input, bo: &Input, sm: &Input) -> Result<Value, Over>
    ensures { result ≡ equation_value EqId.Q58 (vs.now ∷ bo.now ∷ sm.now ∷ []) }
{
    known!(ticket, vs, bo, sm);
    let solids = vs.scale(365, 1)?;
    let methane = bo.scale(67, 100)?.mul(&sm)?;
    let value = solids.mul(&methane)?;
    Ok(Value::known(ticket, value))
}
