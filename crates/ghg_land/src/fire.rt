//! Fires: Volume 4, chapter 2.

ghost use Rattle.std.specs.Prelude.{◌≡◌, [], ◌∷◌};
ghost use Rattle.ghg_equations.specs.declared.eq_id.EqId.TheVariants as EqId;
ghost use Rattle.ghg_cell.specs.Values.{equation_value};

use ghg_cell::{Input, Ticket, Value, known};
use ghg_interval::Over;

/// CH4 of a fire, in Gg: the area burnt `a` in ha times the fuel there `mb` in t/ha, the fraction of it that
/// burns `cb` and the emission factor `gef` in t of gas for a t of dry matter (Equation 2.27).
pub fn q88(ticket: Ticket, a: &Input, mb: &Input, cb: &Input, gef: &Input) -> Result<Value, Over>
    ensures { result ≡ equation_value EqId.Q88 (a.now ∷ mb.now ∷ cb.now ∷ gef.now ∷ []) }
{
    known!(ticket, a, mb, cb, gef);
    let value = a.mul(&mb)?.mul(&cb)?.mul(&gef)?.scale(1, 1_000)?;
    Ok(Value::known(ticket, value))
}

/// N2O of a fire, in Gg, of the same parameters (Equation 2.27).
pub fn q89(ticket: Ticket, a: &Input, mb: &Input, cb: &Input, gef: &Input) -> Result<Value, Over>
    ensures { result ≡ equation_value EqId.Q89 (a.now ∷ mb.now ∷ cb.now ∷ gef.now ∷ []) }
{
    q88(ticket, a, mb, cb, gef)
}
