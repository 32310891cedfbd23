//! Chemicals: Volume 3, chapter 3.

ghost use Rattle.std.specs.Prelude.{◌≡◌, [], ◌∷◌};
ghost use Rattle.ghg_equations.specs.declared.eq_id.EqId.TheVariants as EqId;
ghost use Rattle.ghg_cell.specs.Values.{equation_value};

use ghg_cell::{Figures, Input, Ticket, Value, known};
use ghg_interval::Over;

/// CO2 of ammonia, in Gg: the ammonia produced `ap` in t times the fuel that it takes `fr` in TJ/Gg, the
/// carbon content `ccf` in tC/TJ and the fraction oxidised `cof`, from carbon to CO2, less the CO2 recovered
/// for urea `r` in Gg (Equation 3.1, Tier 1).
pub fn q37(
    ticket: Ticket,
    ap: &Input,
    fr: &Input,
    ccf: &Input,
    cof: &Input,
    r: &Input,
) -> Result<Value, Over>
    ensures { result ≡ equation_value EqId.Q37 (ap.now ∷ fr.now ∷ ccf.now ∷ cof.now ∷ r.now ∷ []) }
{
    known!(ticket, ap, fr, ccf, cof, r);
    let carbon = ap.mul(&fr)?.mul(&ccf)?.mul(&cof)?;
    let value = carbon.scale(44, 12)?.scale(1, 1_000_000)?.sub(&r)?;
    Ok(Value::known(ticket, value))
}

/// N2O of nitric or adipic acid, in Gg: the emission factor `ef` in t/t times the acid produced `p` in t
/// (Equations 3.5 and 3.7, Tier 1).
pub fn q38(ticket: Ticket, ef: &Input, p: &Input) -> Result<Value, Over>
    ensures { result ≡ equation_value EqId.Q38 (ef.now ∷ p.now ∷ []) }
{
    known!(ticket, ef, p);
    let value = ef.mul(&p)?.scale(1, 1_000)?;
    Ok(Value::known(ticket, value))
}

/// N2O of nitric or adipic acid with abatement, in Gg: the emission factor `ef` in t/t times the acid
/// produced `p` in t, less what is destroyed, by the destruction factor `df` and the utilisation factor
/// `asuf` of the abatement (a term of Equations 3.6 and 3.8, Tier 2).
pub fn q39(ticket: Ticket, ef: &Input, p: &Input, df: &Input, asuf: &Input) -> Result<Value, Over>
    ensures { result ≡ equation_value EqId.Q39 (ef.now ∷ p.now ∷ df.now ∷ asuf.now ∷ []) }
{
    known!(ticket, ef, p, df, asuf);
    let formed = ef.mul(&p)?;
    let emitted = Figures::whole(1)?.sub(&df.mul(&asuf)?)?;
    let value = formed.mul(&emitted)?.scale(1, 1_000)?;
    Ok(Value::known(ticket, value))
}
