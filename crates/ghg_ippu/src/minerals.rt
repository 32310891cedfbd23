//! Minerals: Volume 3, chapter 2.

ghost use Rattle.std.specs.Prelude.{◌≡◌, [], ◌∷◌};
ghost use Rattle.ghg_equations.specs.declared.eq_id.EqId.TheVariants as EqId;
ghost use Rattle.ghg_cell.specs.Values.{equation_value};

use ghg_cell::{Figures, Input, Ticket, Value, known};
use ghg_interval::Over;

/// Clinker of a cement, in t: the cement produced `mc` in t times its clinker fraction `ccl` (a term of
/// Equation 2.1).
pub fn q30(ticket: Ticket, mc: &Input, ccl: &Input) -> Result<Value, Over>
    ensures { result ≡ equation_value EqId.Q30 (mc.now ∷ ccl.now ∷ []) }
{
    known!(ticket, mc, ccl);
    let value = mc.mul(&ccl)?;
    Ok(Value::known(ticket, value))
}

/// CO2 of cement, in Gg: the clinker of the cement produced `cl`, less imports `im` and with exports `ex` of
/// clinker, each in t, times the emission factor `ef` in t/t (Equation 2.1, Tier 1).
pub fn q31(ticket: Ticket, cl: &Input, im: &Input, ex: &Input, ef: &Input) -> Result<Value, Over>
    ensures { result ≡ equation_value EqId.Q31 (cl.now ∷ im.now ∷ ex.now ∷ ef.now ∷ []) }
{
    known!(ticket, cl, im, ex, ef);
    let clinker = cl.sub(&im)?.add(&ex)?;
    let value = clinker.mul(&ef)?.scale(1, 1_000)?;
    Ok(Value::known(ticket, value))
}

/// CO2 of clinker, in Gg: the clinker produced `mcl` in t times the emission factor `ef` in t/t and the
/// correction `cf` for cement kiln dust (Equation 2.2, Tier 2).
pub fn q32(ticket: Ticket, mcl: &Input, ef: &Input, cf: &Input) -> Result<Value, Over>
    ensures { result ≡ equation_value EqId.Q32 (mcl.now ∷ ef.now ∷ cf.now ∷ []) }
{
    known!(ticket, mcl, ef, cf);
    let value = mcl.mul(&ef)?.mul(&cf)?.scale(1, 1_000)?;
    Ok(Value::known(ticket, value))
}

/// CO2 of a type of lime, in Gg: the emission factor `ef` in t/t times the lime produced `ml` in t, the
/// correction `cf` for lime kiln dust and the correction `ch` for hydrated lime (a term of Equation 2.6, Tier
/// 2).
pub fn q33(ticket: Ticket, ef: &Input, ml: &Input, cf: &Input, ch: &Input) -> Result<Value, Over>
    ensures { result ≡ equation_value EqId.Q33 (ef.now ∷ ml.now ∷ cf.now ∷ ch.now ∷ []) }
{
    known!(ticket, ef, ml, cf, ch);
    let value = ef.mul(&ml)?.mul(&cf)?.mul(&ch)?.scale(1, 1_000)?;
    Ok(Value::known(ticket, value))
}

/// CO2 of glass, in Gg: the glass melted `mg` in t times the emission factor `ef` in t/t, less the cullet
/// ratio `cr` of it (Equation 2.10, and a term of Equation 2.11).
pub fn q34(ticket: Ticket, mg: &Input, ef: &Input, cr: &Input) -> Result<Value, Over>
    ensures { result ≡ equation_value EqId.Q34 (mg.now ∷ ef.now ∷ cr.now ∷ []) }
{
    known!(ticket, mg, ef, cr);
    let gross = mg.mul(&ef)?;
    let raw = Figures::whole(1)?.sub(&cr)?;
    let value = gross.mul(&raw)?.scale(1, 1_000)?;
    Ok(Value::known(ticket, value))
}

/// CO2 of carbonates in other uses, in Gg: the carbonate `m` in t, of which 85 percent are limestone and 15
/// percent dolomite, times their emission factors `efls` and `efd` in t/t (Equation 2.14, Tier 1).
pub fn q35(ticket: Ticket, m: &Input, efls: &Input, efd: &Input) -> Result<Value, Over>
    ensures { result ≡ equation_value EqId.Q35 (m.now ∷ efls.now ∷ efd.now ∷ []) }
{
    known!(ticket, m, efls, efd);
    let factor = efls.scale(85, 100)?.add(&efd.scale(15, 100)?)?;
    let value = m.mul(&factor)?.scale(1, 1_000)?;
    Ok(Value::known(ticket, value))
}

/// CO2 of limestone and dolomite in other uses, in Gg: the limestone `mls` and the dolomite `md` in t, each
/// times its emission factor `efls` and `efd` in t/t (Equation 2.15, Tier 2).
pub fn q36(
    ticket: Ticket,
    mls: &Input,
    efls: &Input,
    md: &Input,
    efd: &Input,
) -> Result<Value, Over>
    ensures { result ≡ equation_value EqId.Q36 (mls.now ∷ efls.now ∷ md.now ∷ efd.now ∷ []) }
{
    known!(ticket, mls, efls, md, efd);
    let limestone = mls.mul(&efls)?;
    let dolomite = md.mul(&efd)?;
    let value = limestone.add(&dolomite)?.scale(1, 1_000)?;
    Ok(Value::known(ticket, value))
}
