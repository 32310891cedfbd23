//! Biological treatment, incineration and open burning of waste: Volume 5, chapters 4 and 5.

ghost use Rattle.std.specs.Prelude.{◌≡◌, [], ◌∷◌};
ghost use Rattle.ghg_equations.specs.declared.eq_id.EqId.TheVariants as EqId;
ghost use Rattle.ghg_cell.specs.Values.{equation_value};

use ghg_cell::{Input, Ticket, Value, known};
use ghg_interval::Over;

/// CH4 of biological treatment of waste, in Gg: the waste treated `m` in t times the emission factor `ef` in
/// t/t, less the CH4 recovered `r` in Gg (a term of Equation 4.1).
pub fn q95(ticket: Ticket, m: &Input, ef: &Input, r: &Input) -> Result<Value, Over>
    ensures { result ≡ equation_value EqId.Q95 (m.now ∷ ef.now ∷ r.now ∷ []) }
{
    known!(ticket, m, ef, r);
    let value = m.mul(&ef)?.scale(1, 1_000)?.sub(&r)?;
    Ok(Value::known(ticket, value))
}

/// N2O of biological treatment of waste, in Gg: the waste treated `m` in t times the emission factor `ef` in
/// t/t (a term of Equation 4.2).
pub fn q96(ticket: Ticket, m: &Input, ef: &Input) -> Result<Value, Over>
    ensures { result ≡ equation_value EqId.Q96 (m.now ∷ ef.now ∷ []) }
{
    known!(ticket, m, ef);
    let value = m.mul(&ef)?.scale(1, 1_000)?;
    Ok(Value::known(ticket, value))
}

/// CO2 of waste that is incinerated or burnt in the open, in Gg: the waste `sw` in t times its dry matter
/// `dm`, the carbon in dry matter `cf`, the part of fossil carbon `fcf` and the oxidation factor `of`, from
/// carbon to CO2 (a term of Equation 5.1).
pub fn q97(
    ticket: Ticket,
    sw: &Input,
    dm: &Input,
    cf: &Input,
    fcf: &Input,
    of: &Input,
) -> Result<Value, Over>
    ensures { result ≡ equation_value EqId.Q97 (sw.now ∷ dm.now ∷ cf.now ∷ fcf.now ∷ of.now ∷ []) }
{
    known!(ticket, sw, dm, cf, fcf, of);
    let burnt = sw.mul(&dm)?.mul(&cf)?.mul(&fcf)?.mul(&of)?;
    let value = burnt.scale(44, 12)?.scale(1, 1_000)?;
    Ok(Value::known(ticket, value))
}
