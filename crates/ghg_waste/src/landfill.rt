//! Landfills: Volume 5, chapter 3.

ghost use Rattle.std.specs.Prelude.{◌≡◌, [], ◌∷◌};
ghost use Rattle.ghg_equations.specs.declared.eq_id.EqId.TheVariants as EqId;
ghost use Rattle.ghg_cell.specs.Values.{equation_value};

use ghg_cell::{Figures, Input, Ticket, Value, known};
use ghg_interval::Over;

/// Degradable organic carbon that decays without air, of the waste deposited in a year, in GgC: the waste `w`
/// in t times its degradable organic carbon `doc`, the part of that which decays `docf`, and the methane
/// correction factor `mcf` (Equation 3.2).
pub fn q90(ticket: Ticket, w: &Input, doc: &Input, docf: &Input, mcf: &Input) -> Result<Value, Over>
    ensures { result ≡ equation_value EqId.Q90 (w.now ∷ doc.now ∷ docf.now ∷ mcf.now ∷ []) }
{
    known!(ticket, w, doc, docf, mcf);
    let value = w.mul(&doc)?.mul(&docf)?.mul(&mcf)?.scale(1, 1_000)?;
    Ok(Value::known(ticket, value))
}

/// Carbon in a landfill at the end of a year, in GgC: the carbon deposited `dep` in GgC, and the carbon at
/// the end of the year before `prev` in GgC times the yearly decay factor `d` (Equation 3.4).
pub fn q91(ticket: Ticket, dep: &Input, prev: &Input, d: &Input) -> Result<Value, Over>
    ensures { result ≡ equation_value EqId.Q91 (dep.now ∷ prev.now ∷ d.now ∷ []) }
{
    known!(ticket, dep, prev, d);
    let left = prev.mul(&d)?;
    let value = dep.add(&left)?;
    Ok(Value::known(ticket, value))
}

/// Carbon of a landfill that decays in a year, in GgC: the carbon at the end of the year before `prev` in GgC
/// less what the yearly decay factor `d` leaves of it (Equation 3.5).
pub fn q92(ticket: Ticket, prev: &Input, d: &Input) -> Result<Value, Over>
    ensures { result ≡ equation_value EqId.Q92 (prev.now ∷ d.now ∷ []) }
{
    known!(ticket, prev, d);
    let decayed = Figures::whole(1)?.sub(&d)?;
    let value = prev.mul(&decayed)?;
    Ok(Value::known(ticket, value))
}

/// CH4 that a landfill generates in a year, in Gg: the carbon that decays `dec` in GgC times the part of CH4
/// in the gas `f`, from carbon to CH4 (Equation 3.6).
pub fn q93(ticket: Ticket, dec: &Input, f: &Input) -> Result<Value, Over>
    ensures { result ≡ equation_value EqId.Q93 (dec.now ∷ f.now ∷ []) }
{
    known!(ticket, dec, f);
    let value = dec.mul(&f)?.scale(16, 12)?;
    Ok(Value::known(ticket, value))
}

/// CH4 of a landfill, in Gg: the CH4 generated (GEN) in Gg less the CH4 recovered `r` in Gg, but for the part
/// `ox` that is oxidised on its way out (Equation 3.1).
pub fn q94(ticket: Ticket, generated: &Input, r: &Input, ox: &Input) -> Result<Value, Over>
    ensures { result ≡ equation_value EqId.Q94 (generated.now ∷ r.now ∷ ox.now ∷ []) }
{
    known!(ticket, generated, r, ox);
    let released = generated.sub(&r)?;
    let not_oxidised = Figures::whole(1)?.sub(&ox)?;
    let value = released.mul(&not_oxidised)?;
    Ok(Value::known(ticket, value))
}
