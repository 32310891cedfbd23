//! Nitrogen in soils: Volume 4, chapter 11.

ghost use Rattle.std.specs.Prelude.{◌≡◌, [], ◌∷◌};
ghost use Rattle.ghg_equations.specs.declared.eq_id.EqId.TheVariants as EqId;
ghost use Rattle.ghg_cell.specs.Values.{equation_value};

use ghg_cell::{Figures, Input, Ticket, Value, known};
use ghg_interval::Over;

/// Organic nitrogen applied to soils, in t: that of animal manure `fam`, sewage `fsew`, compost `fcomp` and
/// other organic matter `fooa`, each in t (Equation 11.3).
pub fn q67(
    ticket: Ticket,
    fam: &Input,
    fsew: &Input,
    fcomp: &Input,
    fooa: &Input,
) -> Result<Value, Over>
    ensures { result ≡ equation_value EqId.Q67 (fam.now ∷ fsew.now ∷ fcomp.now ∷ fooa.now ∷ []) }
{
    known!(ticket, fam, fsew, fcomp, fooa);
    let value = fam.add(&fsew)?.add(&fcomp)?.add(&fooa)?;
    Ok(Value::known(ticket, value))
}

/// Nitrogen of animal manure applied to soils, in t: that of managed manure `na` in t, less the fractions
/// used for feed `ff`, fuel `fu` and construction `fc` (Equation 11.4).
pub fn q68(ticket: Ticket, na: &Input, ff: &Input, fu: &Input, fc: &Input) -> Result<Value, Over>
    ensures { result ≡ equation_value EqId.Q68 (na.now ∷ ff.now ∷ fu.now ∷ fc.now ∷ []) }
{
    known!(ticket, na, ff, fu, fc);
    let used = ff.add(&fu)?.add(&fc)?;
    let value = na.mul(&Figures::whole(1)?.sub(&used)?)?;
    Ok(Value::known(ticket, value))
}

/// Direct N2O of nitrogen inputs, in Gg: the nitrogen of synthetic fertiliser `fsn`, organic amendments
/// `fon`, crop residues `fcr` and soil organic matter `fsom`, each in t, times the emission factor `ef1`,
/// from nitrogen to N2O (the inputs of Equation 11.1).
pub fn q69(
    ticket: Ticket,
    fsn: &Input,
    fon: &Input,
    fcr: &Input,
    fsom: &Input,
    ef1: &Input,
) -> Result<Value, Over>
    ensures { result ≡ equation_value EqId.Q69 (fsn.now ∷ fon.now ∷ fcr.now ∷ fsom.now ∷ ef1.now ∷ []) }
{
    known!(ticket, fsn, fon, fcr, fsom, ef1);
    let inputs = fsn.add(&fon)?.add(&fcr)?.add(&fsom)?;
    let value = inputs.mul(&ef1)?.scale(44, 28)?.scale(1, 1_000)?;
    Ok(Value::known(ticket, value))
}

/// Direct N2O of managed organic soils, in Gg: the area `a` in ha times the emission factor `ef2` in t of
/// nitrogen for a ha and year, from nitrogen to N2O (the organic soils of Equation 11.1).
pub fn q70(ticket: Ticket, a: &Input, ef2: &Input) -> Result<Value, Over>
    ensures { result ≡ equation_value EqId.Q70 (a.now ∷ ef2.now ∷ []) }
{
    known!(ticket, a, ef2);
    let value = a.mul(&ef2)?.scale(44, 28)?.scale(1, 1_000)?;
    Ok(Value::known(ticket, value))
}

/// Direct N2O of urine and dung on pasture, in Gg: their nitrogen `fp` in t times the emission factor `ef3`,
/// from nitrogen to N2O (the pasture of Equation 11.1).
pub fn q71(ticket: Ticket, fp: &Input, ef3: &Input) -> Result<Value, Over>
    ensures { result ≡ equation_value EqId.Q71 (fp.now ∷ ef3.now ∷ []) }
{
    known!(ticket, fp, ef3);
    let value = fp.mul(&ef3)?.scale(44, 28)?.scale(1, 1_000)?;
    Ok(Value::known(ticket, value))
}

/// Indirect N2O of nitrogen volatilised from soils, in Gg: that of synthetic fertiliser `fsn` in t by its
/// fraction `fg`, and that of organic amendments `fon` and of grazing animals `fp`, each in t, by their
/// fraction `fm`, times the emission factor `ef4`, from nitrogen to N2O (Equation 11.9).
pub fn q72(
    ticket: Ticket,
    fsn: &Input,
    fg: &Input,
    fon: &Input,
    fp: &Input,
    fm: &Input,
    ef4: &Input,
) -> Result<Value, Over>
    ensures { result ≡ equation_value EqId.Q72 (fsn.now ∷ fg.now ∷ fon.now ∷ fp.now ∷ fm.now ∷ ef4.now ∷ []) }
{
    known!(ticket, fsn, fg, fon, fp, fm, ef4);
    let fertiliser = fsn.mul(&fg)?;
    let organic = fon.add(&fp)?.mul(&fm)?;
    let volatilised = fertiliser.add(&organic)?;
    let value = volatilised.mul(&ef4)?.scale(44, 28)?.scale(1, 1_000)?;
    Ok(Value::known(ticket, value))
}

/// Indirect N2O of nitrogen leached from soils, in Gg: that of synthetic fertiliser `fsn`, organic amendments
/// `fon`, grazing animals `fp`, crop residues `fcr` and soil organic matter `fsom`, each in t, times the
/// fraction leached `fl` and the emission factor `ef5`, from nitrogen to N2O (Equation 11.10).
pub fn q73(
    ticket: Ticket,
    fsn: &Input,
    fon: &Input,
    fp: &Input,
    fcr: &Input,
    fsom: &Input,
    fl: &Input,
    ef5: &Input,
) -> Result<Value, Over>
    ensures { result ≡ equation_value EqId.Q73
        (fsn.now ∷ fon.now ∷ fp.now ∷ fcr.now ∷ fsom.now ∷ fl.now ∷ ef5.now ∷ []) }
{
    known!(ticket, fsn, fon, fp, fcr, fsom, fl, ef5);
    let inputs = fsn.add(&fon)?.add(&fp)?.add(&fcr)?.add(&fsom)?;
    let value = inputs.mul(&fl)?.mul(&ef5)?.scale(44, 28)?.scale(1, 1_000)?;
    Ok(Value::known(ticket, value))
}
