//! Changes of carbon stocks: Volume 4, chapter 2.

ghost use Rattle.std.specs.Prelude.{◌≡◌, [], ◌∷◌};
ghost use Rattle.ghg_equations.specs.declared.eq_id.EqId.TheVariants as EqId;
ghost use Rattle.ghg_cell.specs.Values.{equation_value};

use ghg_cell::{Figures, Input, Ticket, Value, known};
use ghg_interval::Over;

/// Change of a carbon stock in a year, in GgC: the gains `g` less the losses `l`, each in GgC (Equation 2.7).
pub fn q83(ticket: Ticket, g: &Input, l: &Input) -> Result<Value, Over>
    ensures { result ≡ equation_value EqId.Q83 (g.now ∷ l.now ∷ []) }
{
    known!(ticket, g, l);
    let value = g.sub(&l)?;
    Ok(Value::known(ticket, value))
}

/// CO2 of a change of a carbon stock, in Gg: the carbon gained `c` in GgC, with its sign turned, from carbon
/// to CO2, so that a gain of carbon is a removal (chapter 2: times -44/12).
pub fn q84(ticket: Ticket, c: &Input) -> Result<Value, Over>
    ensures { result ≡ equation_value EqId.Q84 (c.now ∷ []) }
{
    known!(ticket, c);
    let value = Figures::whole(0)?.sub(&c)?.scale(44, 12)?;
    Ok(Value::known(ticket, value))
}

/// Organic carbon in a mineral soil, in GgC: the reference stock `sref` in t of carbon for a ha times the
/// factors of land use `flu`, of management `fmg` and of input `fi`, and the area `a` in ha (a term of the
/// stock in Equation 2.25).
pub fn q85(
    ticket: Ticket,
    sref: &Input,
    flu: &Input,
    fmg: &Input,
    fi: &Input,
    a: &Input,
) -> Result<Value, Over>
    ensures { result ≡ equation_value EqId.Q85 (sref.now ∷ flu.now ∷ fmg.now ∷ fi.now ∷ a.now ∷ []) }
{
    known!(ticket, sref, flu, fmg, fi, a);
    let value = sref
        .mul(&flu)?
        .mul(&fmg)?
        .mul(&fi)?
        .mul(&a)?
        .scale(1, 1_000)?;
    Ok(Value::known(ticket, value))
}

/// Change of the organic carbon in mineral soils in a year, in GgC: the stock at the end of the transition
/// `s0` less the stock at its start `st`, each in GgC, over 20 years (Equation 2.25).
pub fn q86(ticket: Ticket, s0: &Input, st: &Input) -> Result<Value, Over>
    ensures { result ≡ equation_value EqId.Q86 (s0.now ∷ st.now ∷ []) }
{
    known!(ticket, s0, st);
    let value = s0.sub(&st)?.scale(1, 20)?;
    Ok(Value::known(ticket, value))
}

/// Carbon that drained organic soils lose in a year, in GgC: the area `a` in ha times the emission factor
/// `ef` in t of carbon for a ha and year (a term of Equation 2.26).
pub fn q87(ticket: Ticket, a: &Input, ef: &Input) -> Result<Value, Over>
    ensures { result ≡ equation_value EqId.Q87 (a.now ∷ ef.now ∷ []) }
{
    known!(ticket, a, ef);
    let value = a.mul(&ef)?.scale(1, 1_000)?;
    Ok(Value::known(ticket, value))
}
