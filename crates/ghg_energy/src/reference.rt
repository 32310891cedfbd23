//! The reference approach: Volume 2, chapter 6.

ghost use Rattle.std.specs.Prelude.{◌≡◌, [], ◌∷◌};
ghost use Rattle.ghg_equations.specs.declared.eq_id.EqId.TheVariants as EqId;
ghost use Rattle.ghg_cell.specs.Values.{equation_value};

use ghg_cell::{Input, Ticket, Value, known};
use ghg_interval::Over;

/// Apparent consumption of a primary fuel, in t: production `pr` and imports `im`, less exports `ex`,
/// international bunkers `ib` and the change of stocks `sc`, each in t (Equation 6.2).
pub fn q20(
    ticket: Ticket,
    pr: &Input,
    im: &Input,
    ex: &Input,
    ib: &Input,
    sc: &Input,
) -> Result<Value, Over>
    ensures { result ≡ equation_value EqId.Q20 (pr.now ∷ im.now ∷ ex.now ∷ ib.now ∷ sc.now ∷ []) }
{
    known!(ticket, pr, im, ex, ib, sc);
    let value = pr.add(&im)?.sub(&ex)?.sub(&ib)?.sub(&sc)?;
    Ok(Value::known(ticket, value))
}

/// Apparent consumption of a secondary fuel, in t: imports `im`, less exports `ex`, international bunkers
/// `ib` and the change of stocks `sc`, each in t (Equation 6.3).
pub fn q21(ticket: Ticket, im: &Input, ex: &Input, ib: &Input, sc: &Input) -> Result<Value, Over>
    ensures { result ≡ equation_value EqId.Q21 (im.now ∷ ex.now ∷ ib.now ∷ sc.now ∷ []) }
{
    known!(ticket, im, ex, ib, sc);
    let value = im.sub(&ex)?.sub(&ib)?.sub(&sc)?;
    Ok(Value::known(ticket, value))
}

/// Apparent consumption of a primary fuel, in TJ, of the same parameters as `q20`, each in TJ (Equation 6.2).
pub fn q22(
    ticket: Ticket,
    pr: &Input,
    im: &Input,
    ex: &Input,
    ib: &Input,
    sc: &Input,
) -> Result<Value, Over>
    ensures { result ≡ equation_value EqId.Q22 (pr.now ∷ im.now ∷ ex.now ∷ ib.now ∷ sc.now ∷ []) }
{
    q20(ticket, pr, im, ex, ib, sc)
}

/// Apparent consumption of a secondary fuel, in TJ, of the same parameters as `q21`, each in TJ (Equation
/// 6.3).
pub fn q23(ticket: Ticket, im: &Input, ex: &Input, ib: &Input, sc: &Input) -> Result<Value, Over>
    ensures { result ≡ equation_value EqId.Q23 (im.now ∷ ex.now ∷ ib.now ∷ sc.now ∷ []) }
{
    q21(ticket, im, ex, ib, sc)
}

/// Carbon excluded from fuel combustion, in GgC: the fuel `a` in TJ times its carbon content `cc` in tC/TJ
/// (Equation 6.4).
pub fn q24(ticket: Ticket, a: &Input, cc: &Input) -> Result<Value, Over>
    ensures { result ≡ equation_value EqId.Q24 (a.now ∷ cc.now ∷ []) }
{
    known!(ticket, a, cc);
    let value = a.mul(&cc)?.scale(1, 1_000)?;
    Ok(Value::known(ticket, value))
}

/// CO2 of a fuel by the reference approach, in Gg: the carbon of the apparent consumption `ac` in t, by the
/// conversion factor `conv` in TJ/Gg and the carbon content `cc` in tC/TJ, less the excluded carbon `xc` in
/// GgC, times the fraction oxidised `cof`, from carbon to CO2 (Equation 6.1).
pub fn q25(
    ticket: Ticket,
    ac: &Input,
    conv: &Input,
    cc: &Input,
    xc: &Input,
    cof: &Input,
) -> Result<Value, Over>
    ensures { result ≡ equation_value EqId.Q25 (ac.now ∷ conv.now ∷ cc.now ∷ xc.now ∷ cof.now ∷ []) }
{
    known!(ticket, ac, conv, cc, xc, cof);
    let energy = ac.scale(1, 1_000)?.mul(&conv)?;
    let carbon = energy.mul(&cc)?.scale(1, 1_000)?.sub(&xc)?;
    let value = carbon.mul(&cof)?.scale(44, 12)?;
    Ok(Value::known(ticket, value))
}

/// CO2 of a fuel by the reference approach, in Gg, where the apparent consumption `ac` is in TJ, and the
/// other parameters are those of `q25` (Equation 6.1).
pub fn q26(ticket: Ticket, ac: &Input, cc: &Input, xc: &Input, cof: &Input) -> Result<Value, Over>
    ensures { result ≡ equation_value EqId.Q26 (ac.now ∷ cc.now ∷ xc.now ∷ cof.now ∷ []) }
{
    known!(ticket, ac, cc, xc, cof);
    let carbon = ac.mul(&cc)?.scale(1, 1_000)?.sub(&xc)?;
    let value = carbon.mul(&cof)?.scale(44, 12)?;
    Ok(Value::known(ticket, value))
}
