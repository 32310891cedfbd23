//! The table of equations.

ghost use Rattle.std.specs.Prelude.{◌≡◌};
ghost use Rattle.std.specs.Str.{bytes_eq};
ghost use Rattle.ghg_equations.specs.Table.{code, named, row, seen};

use crate::eq_id::EqId;
use crate::quantity::{Dim, Gas, Output};
use crate::row::{Equation, Param};
use crate::sector::Sector;

// A row: the code, its sector, the name of each parameter and what it measures, and what the equation gives.
macro_rules! row {
    ($code:ident $sector:ident: $($name:ident $dim:ident),+; Emission $gas:ident) => {
        row!($code, $sector, [$($name $dim),+], Output::Emission(Gas::$gas))
    };
    ($code:ident $sector:ident: $($name:ident $dim:ident),+; Aux $dimension:ident) => {
        row!($code, $sector, [$($name $dim),+], Output::Aux(Dim::$dimension))
    };
    ($code:ident, $sector:ident, [$($name:ident $dim:ident),+], $output:expr) => {
        &Equation {
            id: EqId::$code,
            name: stringify!($code),
            sector: Sector::$sector,
            params: &[$(Param { name: stringify!($name), dim: Dim::$dim }),+],
            output: $output,
        }
    };
}

/// The code that a text is; `None` exactly where it is no code of the table.
#[tactic(auto, unfolding(crate::specs::Table::named))]
pub fn eq_named(text: &[u8]) -> Option<EqId>
    ensures { result ≡ named text.now }
{
    EqId::ALL.iter().copied().find(|id| is_code(*id, text))
}

fn is_code(id: EqId, text: &[u8]) -> bool
    ensures { result ≡ bytes_eq (code id) text.now }
{
    equation(id).name.as_bytes() == text
}

/// The row of a code.
pub fn equation(id: EqId) -> &'static Equation
    ensures { seen result.now ≡ row id }
{
    match id {
        EqId::Q10 => row!(Q10 Energy: FC Energy, EF EnFac; Emission Co2),
        EqId::Q11 => row!(Q11 Energy: FC Energy, EF EnFac; Emission Ch4),
        EqId::Q12 => row!(Q12 Energy: FC Energy, EF EnFac; Emission N2o),
        EqId::Q13 => row!(Q13 Energy: FM Mass, NCV Calor; Aux Energy),
        EqId::Q14 => row!(Q14 Energy: P Mass, EF GasVol; Emission Ch4),
        EqId::Q15 => row!(Q15 Energy: A Volume, EF FluidFac; Emission Ch4),
        EqId::Q16 => row!(Q16 Energy: A Volume, EF FluidFac; Emission Co2),
        EqId::Q17 => row!(Q17 Energy: A Volume, EF FluidFac; Emission N2o),
        EqId::Q20 => row!(Q20 Energy: PR Mass, IM Mass, EX Mass, IB Mass, SC Mass; Aux Mass),
        EqId::Q21 => row!(Q21 Energy: IM Mass, EX Mass, IB Mass, SC Mass; Aux Mass),
        EqId::Q22 =>
            row!(Q22 Energy: PR Energy, IM Energy, EX Energy, IB Energy, SC Energy; Aux Energy),
        EqId::Q23 => row!(Q23 Energy: IM Energy, EX Energy, IB Energy, SC Energy; Aux Energy),
        EqId::Q24 => row!(Q24 Energy: A Energy, CC CarCon; Aux Carbon),
        EqId::Q25 =>
            row!(Q25 Energy: AC Mass, CONV Calor, CC CarCon, XC Carbon, COF Ratio; Emission Co2),
        EqId::Q26 => row!(Q26 Energy: AC Energy, CC CarCon, XC Carbon, COF Ratio; Emission Co2),
        EqId::Q30 => row!(Q30 Industry: MC Mass, CCL Ratio; Aux Mass),
        EqId::Q31 => row!(Q31 Industry: CL Mass, IM Mass, EX Mass, EF Ratio; Emission Co2),
        EqId::Q32 => row!(Q32 Industry: MCL Mass, EF Ratio, CF Ratio; Emission Co2),
        EqId::Q33 => row!(Q33 Industry: EF Ratio, ML Mass, CF Ratio, CH Ratio; Emission Co2),
        EqId::Q34 => row!(Q34 Industry: MG Mass, EF Ratio, CR Ratio; Emission Co2),
        EqId::Q35 => row!(Q35 Industry: M Mass, EFLS Ratio, EFD Ratio; Emission Co2),
        EqId::Q36 => row!(Q36 Industry: MLS Mass, EFLS Ratio, MD Mass, EFD Ratio; Emission Co2),
        EqId::Q37 =>
            row!(Q37 Industry: AP Mass, FR Calor, CCF CarCon, COF Ratio, R Gas; Emission Co2),
        EqId::Q38 => row!(Q38 Industry: EF Ratio, P Mass; Emission N2o),
        EqId::Q39 => row!(Q39 Industry: EF Ratio, P Mass, DF Ratio, ASUF Ratio; Emission N2o),
        EqId::Q40 =>
            row!(Q40 Industry: BOF Mass, EFB Ratio, EAF Mass, EFE Ratio, OHF Mass, EFO Ratio; Emission Co2),
        EqId::Q41 => row!(Q41 Industry: EFP Ratio, MPP Mass, EFS Ratio, MPS Mass; Emission Co2),
        EqId::Q42 => row!(Q42 Industry: EF Ratio, MP Mass; Emission Cf4),
        EqId::Q44 => row!(Q44 Industry: S Slope, AEM AnMin, MP Mass; Emission Cf4),
        EqId::Q45 => row!(Q45 Industry: CF Gas, F Ratio; Emission C2f6),
        EqId::Q46 => row!(Q46 Industry: LC Energy, CC CarCon, ODU Ratio; Emission Co2),
        EqId::Q55 => row!(Q55 Livestock: EF HeadFac, N Head; Emission Ch4),
        EqId::Q56 => row!(Q56 Livestock: GE HeadEn, YM Ratio; Aux HeadFac),
        EqId::Q57 => row!(Q57 Livestock: MCF Ratio, MS Ratio; Aux Ratio),
        EqId::Q58 => row!(Q58 Livestock: VS HeadDay, BO Yield, SM Ratio; Aux HeadFac),
        EqId::Q59 => row!(Q59 Livestock: N Head, NEX HeadFac, MS Ratio, EF3 Ratio; Emission N2o),
        EqId::Q60 => row!(Q60 Livestock: N Head, NEX HeadFac, MS Ratio, FR Ratio; Aux Mass),
        EqId::Q61 => row!(Q61 Livestock: NV Mass, EF Ratio; Emission N2o),
        EqId::Q62 => row!(Q62 Livestock: NR Excr, TAM HeadFac; Aux HeadFac),
        EqId::Q63 =>
            row!(Q63 Livestock: N Head, NEX HeadFac, MS Ratio, FL Ratio, NB HeadFac; Aux Mass),
        EqId::Q64 => row!(Q64 Livestock: N Head, NEX HeadFac, MS Ratio; Aux Mass),
        EqId::Q67 => row!(Q67 Soils: FAM Mass, FSEW Mass, FCOMP Mass, FOOA Mass; Aux Mass),
        EqId::Q68 => row!(Q68 Soils: NA Mass, FF Ratio, FU Ratio, FC Ratio; Aux Mass),
        EqId::Q69 =>
            row!(Q69 Soils: FSN Mass, FON Mass, FCR Mass, FSOM Mass, EF1 Ratio; Emission N2o),
        EqId::Q70 => row!(Q70 Soils: A Area, EF2 AreaFac; Emission N2o),
        EqId::Q71 => row!(Q71 Soils: FP Mass, EF3 Ratio; Emission N2o),
        EqId::Q72 =>
            row!(Q72 Soils: FSN Mass, FG Ratio, FON Mass, FP Mass, FM Ratio, EF4 Ratio; Emission N2o),
        EqId::Q73 => row!(
            Q73 Soils: FSN Mass, FON Mass, FP Mass, FCR Mass, FSOM Mass, FL Ratio, EF5 Ratio; Emission N2o
        ),
        EqId::Q74 => row!(Q74 Soils: ML Mass, EFL Ratio, MD Mass, EFD Ratio; Emission Co2),
        EqId::Q75 => row!(Q75 Soils: M Mass, EF Ratio; Emission Co2),
        EqId::Q76 =>
            row!(Q76 Soils: EFC AreaDay, SFW Ratio, SFP Ratio, SFO Ratio, SFS Ratio; Aux AreaDay),
        EqId::Q77 => row!(Q77 Soils: EF AreaDay, T Day, A Area; Emission Ch4),
        EqId::Q78 => row!(Q78 Land: A Area, GW AreaFac, R Ratio, CF Ratio; Aux Carbon),
        EqId::Q79 => row!(Q79 Land: A Area, IV VolArea, BCEF Wood, R Ratio, CF Ratio; Aux Carbon),
        EqId::Q80 => row!(Q80 Land: H Volume, BCEF Wood, R Ratio, CF Ratio; Aux Carbon),
        EqId::Q81 =>
            row!(Q81 Land: FT Volume, BCEF Wood, R Ratio, FP Volume, D Wood, CF Ratio; Aux Carbon),
        EqId::Q82 => row!(Q82 Land: A Area, BW AreaFac, R Ratio, CF Ratio, FD Ratio; Aux Carbon),
        EqId::Q83 => row!(Q83 Land: G Carbon, L Carbon; Aux Carbon),
        EqId::Q84 => row!(Q84 Land: C Carbon; Emission Co2),
        EqId::Q85 =>
            row!(Q85 Land: SREF AreaFac, FLU Ratio, FMG Ratio, FI Ratio, A Area; Aux Carbon),
        EqId::Q86 => row!(Q86 Land: S0 Carbon, ST Carbon; Aux Carbon),
        EqId::Q87 => row!(Q87 Land: A Area, EF AreaFac; Aux Carbon),
        EqId::Q88 => row!(Q88 Land: A Area, MB AreaFac, CB Ratio, GEF Ratio; Emission Ch4),
        EqId::Q89 => row!(Q89 Land: A Area, MB AreaFac, CB Ratio, GEF Ratio; Emission N2o),
        EqId::Q90 => row!(Q90 Waste: W Mass, DOC Ratio, DOCF Ratio, MCF Ratio; Aux Carbon),
        EqId::Q91 => row!(Q91 Waste: DEP Carbon, PREV Carbon, D Decay; Aux Carbon),
        EqId::Q92 => row!(Q92 Waste: PREV Carbon, D Decay; Aux Carbon),
        EqId::Q93 => row!(Q93 Waste: DEC Carbon, F Ratio; Aux Gas),
        EqId::Q94 => row!(Q94 Waste: GEN Gas, R Gas, OX Ratio; Emission Ch4),
        EqId::Q95 => row!(Q95 Waste: M Mass, EF Ratio, R Gas; Emission Ch4),
        EqId::Q96 => row!(Q96 Waste: M Mass, EF Ratio; Emission N2o),
        EqId::Q97 =>
            row!(Q97 Waste: SW Mass, DM Ratio, CF Ratio, FCF Ratio, OF Ratio; Emission Co2),
        EqId::Q98 => row!(Q98 Waste: BO Ratio, MCF Ratio; Aux Ratio),
        EqId::Q99 => row!(Q99 Waste: P Person, BOD PersDay, I Ratio; Aux Mass),
        EqId::Q100 => row!(Q100 Waste: X Ratio, TOW Mass, S Mass, R Gas; Emission Ch4),
        EqId::Q101 => row!(Q101 Waste: U Ratio, T Ratio, EF Ratio; Aux Ratio),
        EqId::Q102 =>
            row!(Q102 Waste: P Person, PR PersFac, FNPR Ratio, FNON Ratio, FIND Ratio, NS Mass; Aux Mass),
        EqId::Q103 => row!(Q103 Waste: N Mass, EF Ratio; Emission N2o),
    }
}
