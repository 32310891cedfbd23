//! Gains and losses of biomass: Volume 4, chapter 2.

ghost use Rattle.std.specs.Prelude.{◌≡◌, [], ◌∷◌};
ghost use Rattle.ghg_equations.specs.declared.eq_id.EqId.TheVariants as EqId;
ghost use Rattle.ghg_cell.specs.Values.{equation_value};

use ghg_cell::{Figures, Input, Ticket, Value, known};
use ghg_interval::Over;

/// Carbon that biomass gains by growth, in GgC: the area `a` in ha times the growth above ground `gw` in t/ha
/// and year, and that below ground by its ratio `r`, times the carbon fraction `cf` (a term of Equation 2.9,
/// with Equation 2.10, Tier 1).
pub fn q78(ticket: Ticket, a: &Input, gw: &Input, r: &Input, cf: &Input) -> Result<Value, Over>
    ensures { result ≡ equation_value EqId.Q78 (a.now ∷ gw.now ∷ r.now ∷ cf.now ∷ []) }
{
    known!(ticket, a, gw, r, cf);
    let above = a.mul(&gw)?;
    let with_roots = Figures::whole(1)?.add(&r)?;
    let value = above.mul(&with_roots)?.mul(&cf)?.scale(1, 1_000)?;
    Ok(Value::known(ticket, value))
}

/// Carbon that biomass gains by growth, in GgC: the area `a` in ha times the increment of wood `iv` in m3/ha
/// and year, its conversion and expansion to biomass above ground `bcef` in t/m3, and that below ground by
/// its ratio `r`, times the carbon fraction `cf` (a term of Equation 2.9, with Equation 2.10, Tiers 2 and 3).
pub fn q79(
    ticket: Ticket,
    a: &Input,
    iv: &Input,
    bcef: &Input,
    r: &Input,
    cf: &Input,
) -> Result<Value, Over>
    ensures { result ≡ equation_value EqId.Q79 (a.now ∷ iv.now ∷ bcef.now ∷ r.now ∷ cf.now ∷ []) }
{
    known!(ticket, a, iv, bcef, r, cf);
    let above = a.mul(&iv)?.mul(&bcef)?;
    let with_roots = Figures::whole(1)?.add(&r)?;
    let value = above.mul(&with_roots)?.mul(&cf)?.scale(1, 1_000)?;
    Ok(Value::known(ticket, value))
}

/// Carbon that biomass loses by wood removals, in GgC: the wood removed `h` in m3 times its conversion and
/// expansion `bcef` in t/m3, and that below ground by its ratio `r`, times the carbon fraction `cf` (Equation
/// 2.12).
pub fn q80(ticket: Ticket, h: &Input, bcef: &Input, r: &Input, cf: &Input) -> Result<Value, Over>
    ensures { result ≡ equation_value EqId.Q80 (h.now ∷ bcef.now ∷ r.now ∷ cf.now ∷ []) }
{
    known!(ticket, h, bcef, r, cf);
    let above = h.mul(&bcef)?;
    let with_roots = Figures::whole(1)?.add(&r)?;
    let value = above.mul(&with_roots)?.mul(&cf)?.scale(1, 1_000)?;
    Ok(Value::known(ticket, value))
}

/// Carbon that biomass loses by fuelwood removals, in GgC: the whole trees taken `ft` in m3 times their
/// conversion and expansion `bcef` in t/m3, and what is below ground by its ratio `r`, and the parts of trees
/// taken `fp` in m3 by the density of wood `d` in t/m3, times the carbon fraction `cf` (Equation 2.13).
pub fn q81(
    ticket: Ticket,
    ft: &Input,
    bcef: &Input,
    r: &Input,
    fp: &Input,
    d: &Input,
    cf: &Input,
) -> Result<Value, Over>
    ensures { result ≡ equation_value EqId.Q81 (ft.now ∷ bcef.now ∷ r.now ∷ fp.now ∷ d.now ∷ cf.now ∷ []) }
{
    known!(ticket, ft, bcef, r, fp, d, cf);
    let above = ft.mul(&bcef)?;
    let with_roots = Figures::whole(1)?.add(&r)?;
    let trees = above.mul(&with_roots)?;
    let parts = fp.mul(&d)?;
    let value = trees.add(&parts)?.mul(&cf)?.scale(1, 1_000)?;
    Ok(Value::known(ticket, value))
}

/// Carbon that biomass loses in disturbances, in GgC: the area disturbed `a` in ha times the biomass above
/// ground `bw` in t/ha, and that below ground by its ratio `r`, times the carbon fraction `cf` and the
/// fraction lost `fd` (Equation 2.14).
pub fn q82(
    ticket: Ticket,
    a: &Input,
    bw: &Input,
    r: &Input,
    cf: &Input,
    fd: &Input,
) -> Result<Value, Over>
    ensures { result ≡ equation_value EqId.Q82 (a.now ∷ bw.now ∷ r.now ∷ cf.now ∷ fd.now ∷ []) }
{
    known!(ticket, a, bw, r, cf, fd);
    let above = a.mul(&bw)?;
    let with_roots = Figures::whole(1)?.add(&r)?;
    let value = above.mul(&with_roots)?.mul(&cf)?.mul(&fd)?.scale(1, 1_000)?;
    Ok(Value::known(ticket, value))
}
