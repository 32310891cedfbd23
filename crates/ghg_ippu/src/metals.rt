//! Metals: Volume 3, chapter 4.

ghost use Rattle.std.specs.Prelude.{◌≡◌, [], ◌∷◌};
ghost use Rattle.ghg_equations.specs.declared.eq_id.EqId.TheVariants as EqId;
ghost use Rattle.ghg_cell.specs.Values.{equation_value};

use ghg_cell::{Input, Ticket, Value, known};
use ghg_interval::Over;

/// CO2 of steel, in Gg: the steel of basic oxygen furnaces `bof`, of electric arc furnaces `eaf` and of open
/// hearth furnaces `ohf` in t, each times its emission factor `efb`, `efe` and `efo` in t/t (Equation 4.4,
/// Tier 1).
pub fn q40(
    ticket: Ticket,
    bof: &Input,
    efb: &Input,
    eaf: &Input,
    efe: &Input,
    ohf: &Input,
    efo: &Input,
) -> Result<Value, Over>
    ensures { result ≡ equation_value EqId.Q40
        (bof.now ∷ efb.now ∷ eaf.now ∷ efe.now ∷ ohf.now ∷ efo.now ∷ []) }
{
    known!(ticket, bof, efb, eaf, efe, ohf, efo);
    let oxygen_and_arc = bof.mul(&efb)?.add(&eaf.mul(&efe)?)?;
    let hearth = ohf.mul(&efo)?;
    let value = oxygen_and_arc.add(&hearth)?.scale(1, 1_000)?;
    Ok(Value::known(ticket, value))
}

/// CO2 of the anodes and the paste of aluminium, in Gg: the emission factors `efp` of the prebake and `efs`
/// of the Soderberg process in t/t, each times its aluminium `mpp` and `mps` in t (Equation 4.20, Tier 1).
pub fn q41(
    ticket: Ticket,
    efp: &Input,
    mpp: &Input,
    efs: &Input,
    mps: &Input,
) -> Result<Value, Over>
    ensures { result ≡ equation_value EqId.Q41 (efp.now ∷ mpp.now ∷ efs.now ∷ mps.now ∷ []) }
{
    known!(ticket, efp, mpp, efs, mps);
    let prebake = efp.mul(&mpp)?;
    let soderberg = efs.mul(&mps)?;
    let value = prebake.add(&soderberg)?.scale(1, 1_000)?;
    Ok(Value::known(ticket, value))
}

/// CF4 of the anode effects of aluminium, in Gg: the emission factor `ef` of a cell technology in t/t times
/// its aluminium `mp` in t (a term of Equation 4.25, Tier 1).
pub fn q42(ticket: Ticket, ef: &Input, mp: &Input) -> Result<Value, Over>
    ensures { result ≡ equation_value EqId.Q42 (ef.now ∷ mp.now ∷ []) }
{
    known!(ticket, ef, mp);
    let value = ef.mul(&mp)?.scale(1, 1_000)?;
    Ok(Value::known(ticket, value))
}

/// CF4 of the anode effects of aluminium by the slope method, in Gg: the slope `s` in kg/t/AEmin times the
/// anode effect minutes of a cell and day `aem` and the aluminium `mp` in t (Equation 4.26, Tier 2).
pub fn q44(ticket: Ticket, s: &Input, aem: &Input, mp: &Input) -> Result<Value, Over>
    ensures { result ≡ equation_value EqId.Q44 (s.now ∷ aem.now ∷ mp.now ∷ []) }
{
    known!(ticket, s, aem, mp);
    let value = s.mul(&aem)?.mul(&mp)?.scale(1, 1_000_000)?;
    Ok(Value::known(ticket, value))
}

/// C2F6 of the anode effects of aluminium, in Gg: the CF4 `cf` in Gg times the weight of C2F6 for one of CF4
/// `f` in t/t (Equation 4.26, Tier 2).
pub fn q45(ticket: Ticket, cf: &Input, f: &Input) -> Result<Value, Over>
    ensures { result ≡ equation_value EqId.Q45 (cf.now ∷ f.now ∷ []) }
{
    known!(ticket, cf, f);
    let value = cf.mul(&f)?;
    Ok(Value::known(ticket, value))
}
