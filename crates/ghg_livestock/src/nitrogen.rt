//! Nitrogen of manure: Volume 4, chapter 10, and Equation 11.5.

ghost use Rattle.std.specs.Prelude.{◌≡◌, [], ◌∷◌};
ghost use Rattle.ghg_equations.specs.declared.eq_id.EqId.TheVariants as EqId;
ghost use Rattle.ghg_cell.specs.Values.{equation_value};

use ghg_cell::{Figures, Input, Ticket, Value, known};
use ghg_interval::Over;

/// Direct N2O of manure management, in Gg: the animals `n` times the nitrogen that one excretes `nex` in
/// kg/head and year, the share of a system `ms` and its emission factor `ef3`, from nitrogen to N2O (a term
/// of Equation 10.25).
pub fn q59(ticket: Ticket, n: &Input, nex: &Input, ms: &Input, ef3: &Input) -> Result<Value, Over>
    ensures { result ≡ equation_value EqId.Q59 (n.now ∷ nex.now ∷ ms.now ∷ ef3.now ∷ []) }
{
    known!(ticket, n, nex, ms, ef3);
    let value = n
        .mul(&nex)?
        .mul(&ms)?
        .mul(&ef3)?
        .scale(44, 28)?
        .scale(1, 1_000_000)?;
    Ok(Value::known(ticket, value))
}

/// Nitrogen that manure management loses by volatilisation or leaching, in t: the animals `n` times the
/// nitrogen that one excretes `nex` in kg/head and year, the share of a system `ms` and the fraction lost
/// there `fr` (a term of Equations 10.26 and 10.28).
pub fn q60(ticket: Ticket, n: &Input, nex: &Input, ms: &Input, fr: &Input) -> Result<Value, Over>
    ensures { result ≡ equation_value EqId.Q60 (n.now ∷ nex.now ∷ ms.now ∷ fr.now ∷ []) }
{
    known!(ticket, n, nex, ms, fr);
    let value = n.mul(&nex)?.mul(&ms)?.mul(&fr)?.scale(1, 1_000)?;
    Ok(Value::known(ticket, value))
}

/// Indirect N2O of manure management, in Gg: the nitrogen lost `nv` in t times the emission factor `ef` of
/// volatilisation or leaching, from nitrogen to N2O (Equations 10.27 and 10.29).
pub fn q61(ticket: Ticket, nv: &Input, ef: &Input) -> Result<Value, Over>
    ensures { result ≡ equation_value EqId.Q61 (nv.now ∷ ef.now ∷ []) }
{
    known!(ticket, nv, ef);
    let value = nv.mul(&ef)?.scale(44, 28)?.scale(1, 1_000)?;
    Ok(Value::known(ticket, value))
}

/// Nitrogen that an animal excretes, in kg/head and year: the excretion rate `nr` in kg of nitrogen for a t
/// of animal mass and day, times the mass of an animal `tam` in kg/head, over 365 days (Equation 10.30).
pub fn q62(ticket: Ticket, nr: &Input, tam: &Input) -> Result<Value, Over>
    ensures { result ≡ equation_value EqId.Q62 (nr.now ∷ tam.now ∷ []) }
{
    known!(ticket, nr, tam);
    let value = nr.mul(&tam)?.scale(1, 1_000)?.scale(365, 1)?;
    Ok(Value::known(ticket, value))
}

/// Nitrogen of managed manure that is left for soils, feed, fuel or construction, in t: the animals `n` times
/// the nitrogen that one excretes `nex` in kg/head and year and the share of a system `ms`, less the fraction
/// lost there `fl`; to which is added the nitrogen of bedding `nb` in kg/head and year, times `n` and `ms` (a
/// term of Equation 10.34).
pub fn q63(
    ticket: Ticket,
    n: &Input,
    nex: &Input,
    ms: &Input,
    fl: &Input,
    nb: &Input,
) -> Result<Value, Over>
    ensures { result ≡ equation_value EqId.Q63 (n.now ∷ nex.now ∷ ms.now ∷ fl.now ∷ nb.now ∷ []) }
{
    known!(ticket, n, nex, ms, fl, nb);
    let excreted = n.mul(&nex)?.mul(&ms)?;
    let kept = Figures::whole(1)?.sub(&fl)?;
    let manure = excreted.mul(&kept)?;
    let bedding = n.mul(&ms)?.mul(&nb)?;
    let value = manure.add(&bedding)?.scale(1, 1_000)?;
    Ok(Value::known(ticket, value))
}

/// Nitrogen of urine and dung that grazing animals leave, in t: the animals `n` times the nitrogen that one
/// excretes `nex` in kg/head and year and the share of it on pasture `ms` (a term of Equation 11.5).
pub fn q64(ticket: Ticket, n: &Input, nex: &Input, ms: &Input) -> Result<Value, Over>
    ensures { result ≡ equation_value EqId.Q64 (n.now ∷ nex.now ∷ ms.now ∷ []) }
{
    known!(ticket, n, nex, ms);
    let value = n.mul(&nex)?.mul(&ms)?.scale(1, 1_000)?;
    Ok(Value::known(ticket, value))
}
