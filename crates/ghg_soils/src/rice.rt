//! Rice: Volume 4, chapter 5.

ghost use Rattle.std.specs.Prelude.{◌≡◌, [], ◌∷◌};
ghost use Rattle.ghg_equations.specs.declared.eq_id.EqId.TheVariants as EqId;
ghost use Rattle.ghg_cell.specs.Values.{equation_value};

use ghg_cell::{Input, Ticket, Value, known};
use ghg_interval::Over;

/// Emission factor of rice, in kg of CH4 for a ha and day: that of fields flooded throughout `efc` in
/// kg/ha/day, scaled for the water regime while growing `sfw` and before `sfp`, for organic amendments `sfo`
/// and for the soil and cultivar `sfs` (Equation 5.2).
pub fn q76(
    ticket: Ticket,
    efc: &Input,
    sfw: &Input,
    sfp: &Input,
    sfo: &Input,
    sfs: &Input,
) -> Result<Value, Over>
    ensures { result ≡ equation_value EqId.Q76 (efc.now ∷ sfw.now ∷ sfp.now ∷ sfo.now ∷ sfs.now ∷ []) }
{
    known!(ticket, efc, sfw, sfp, sfo, sfs);
    let value = efc.mul(&sfw)?.mul(&sfp)?.mul(&sfo)?.mul(&sfs)?;
    Ok(Value::known(ticket, value))
}

/// CH4 of rice, in Gg: the emission factor `ef` in kg/ha/day times the days of cultivation `t` and the area
/// harvested `a` in ha (a term of Equation 5.1).
pub fn q77(ticket: Ticket, ef: &Input, t: &Input, a: &Input) -> Result<Value, Over>
    ensures { result ≡ equation_value EqId.Q77 (ef.now ∷ t.now ∷ a.now ∷ []) }
{
    known!(ticket, ef, t, a);
    let value = ef.mul(&t)?.mul(&a)?.scale(1, 1_000_000)?;
    Ok(Value::known(ticket, value))
}
