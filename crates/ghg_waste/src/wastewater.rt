//! Wastewater: Volume 5, chapter 6.

ghost use Rattle.std.specs.Prelude.{◌≡◌, [], ◌∷◌};
ghost use Rattle.ghg_equations.specs.declared.eq_id.EqId.TheVariants as EqId;
ghost use Rattle.ghg_cell.specs.Values.{equation_value};

use ghg_cell::{Input, Ticket, Value, known};
use ghg_interval::Over;

/// Emission factor of a way of treating or discharging wastewater, in t of CH4 for a t of organic matter: the
/// capacity to produce CH4 `bo` in t/t times the methane correction factor `mcf` (Equation 6.2).
pub fn q98(ticket: Ticket, bo: &Input, mcf: &Input) -> Result<Value, Over>
    ensures { result ≡ equation_value EqId.Q98 (bo.now ∷ mcf.now ∷ []) }
{
    known!(ticket, bo, mcf);
    let value = bo.mul(&mcf)?;
    Ok(Value::known(ticket, value))
}

/// Organic matter in domestic wastewater in a year, in t: the persons `p` times the organic matter of each
/// `bod` in g/person/day and the factor for industry `i`, for 365 days (Equation 6.3).
pub fn q99(ticket: Ticket, p: &Input, bod: &Input, i: &Input) -> Result<Value, Over>
    ensures { result ≡ equation_value EqId.Q99 (p.now ∷ bod.now ∷ i.now ∷ []) }
{
    known!(ticket, p, bod, i);
    let daily = p.mul(&bod)?.scale(1, 1_000)?.mul(&i)?;
    let value = daily.scale(365, 1)?.scale(1, 1_000)?;
    Ok(Value::known(ticket, value))
}

/// CH4 of wastewater, in Gg: the emission factor `x` in t/t times the organic matter `tow` in t less that
/// removed as sludge `s` in t, less the CH4 recovered `r` in Gg (Equation 6.1).
pub fn q100(ticket: Ticket, x: &Input, tow: &Input, s: &Input, r: &Input) -> Result<Value, Over>
    ensures { result ≡ equation_value EqId.Q100 (x.now ∷ tow.now ∷ s.now ∷ r.now ∷ []) }
{
    known!(ticket, x, tow, s, r);
    let treated = tow.sub(&s)?;
    let value = x.mul(&treated)?.scale(1, 1_000)?.sub(&r)?;
    Ok(Value::known(ticket, value))
}

/// Emission factor of a pathway of wastewater, by its shares, in t of CH4 for a t of organic matter: the part
/// of the population in the income group `u` times the part of it that uses the pathway `t` and the emission
/// factor `ef` in t/t (a term of Equation 6.1).
pub fn q101(ticket: Ticket, u: &Input, t: &Input, ef: &Input) -> Result<Value, Over>
    ensures { result ≡ equation_value EqId.Q101 (u.now ∷ t.now ∷ ef.now ∷ []) }
{
    known!(ticket, u, t, ef);
    let value = u.mul(&t)?.mul(&ef)?;
    Ok(Value::known(ticket, value))
}

/// Nitrogen in the effluent of wastewater in a year, in t: the persons `p` times the protein that each eats
/// `pr` in kg, the nitrogen in protein `fnpr`, the factor for protein not eaten `fnon` and that for industry
/// `find`, less the nitrogen removed with sludge `ns` in t (Equation 6.8).
pub fn q102(
    ticket: Ticket,
    p: &Input,
    pr: &Input,
    fnpr: &Input,
    fnon: &Input,
    find: &Input,
    ns: &Input,
) -> Result<Value, Over>
    ensures { result ≡ equation_value EqId.Q102
        (p.now ∷ pr.now ∷ fnpr.now ∷ fnon.now ∷ find.now ∷ ns.now ∷ []) }
{
    known!(ticket, p, pr, fnpr, fnon, find, ns);
    let released = p.mul(&pr)?.mul(&fnpr)?.mul(&fnon)?.mul(&find)?;
    let value = released.scale(1, 1_000)?.sub(&ns)?;
    Ok(Value::known(ticket, value))
}

/// N2O of the effluent of wastewater, in Gg: the nitrogen `n` in t times the emission factor `ef` in t/t,
/// from nitrogen to N2O (Equation 6.7).
pub fn q103(ticket: Ticket, n: &Input, ef: &Input) -> Result<Value, Over>
    ensures { result ≡ equation_value EqId.Q103 (n.now ∷ ef.now ∷ []) }
{
    known!(ticket, n, ef);
    let value = n.mul(&ef)?.scale(44, 28)?.scale(1, 1_000)?;
    Ok(Value::known(ticket, value))
}
