//! Gases, dimensions, and what an equation gives.

ghost use Rattle.std.specs.Prelude.{◌≡◌};
ghost use Rattle.ghg_equations.specs.Quantity.{gas_of, word_of};

/// A greenhouse gas, in the order in which tables list gases.
#[derive(Clone, Copy, Debug, PartialEq, Eq, PartialOrd, Ord, Drop)]
pub enum Gas {
    Co2,
    Ch4,
    N2o,
    Cf4,
    C2f6,
}

impl Gas {
    /// The gas as tables and the names of warming potentials write it.
    pub fn word(self) -> &'static str
        ensures { result.now ≡ word_of self }
    {
        match self {
            Gas::Co2 => "CO2",
            Gas::Ch4 => "CH4",
            Gas::N2o => "N2O",
            Gas::Cf4 => "CF4",
            Gas::C2f6 => "C2F6",
        }
    }
}

/// What a quantity measures. Its base unit stands behind each.
#[derive(Clone, Copy, Debug, PartialEq, Eq, Drop)]
pub enum Dim {
    /// t
    Mass,
    /// TJ
    Energy,
    /// ha
    Area,
    /// m3
    Volume,
    /// head of livestock
    Head,
    /// person
    Person,
    /// 1
    Ratio,
    /// day
    Day,
    /// yr
    HalfLife,
    /// Emission factor of fuel, kg/TJ.
    EnFac,
    /// Carbon content of fuel, tC/TJ.
    CarCon,
    /// Calorific value, TJ/Gg.
    Calor,
    /// m3/t
    GasVol,
    /// kg/m3
    FluidFac,
    /// kg/head
    HeadFac,
    /// kg/head/day
    HeadDay,
    /// MJ/head/day
    HeadEn,
    /// Excretion, kg/t/day.
    Excr,
    /// m3/kg
    Yield,
    /// t/ha
    AreaFac,
    /// kg/ha/day
    AreaDay,
    /// m3/ha
    VolArea,
    /// Wood density, t/m3.
    Wood,
    /// kg/person
    PersFac,
    /// g/person/day
    PersDay,
    /// GgC
    Carbon,
    /// Gg of a gas
    Gas,
    /// Anode effect minutes.
    AnMin,
    /// kg/t/AEmin
    Slope,
    /// Yearly decay factor, which no unit has.
    Decay,
}

/// What an equation gives: an emission of a gas in Gg, or an auxiliary quantity in the base unit of its
/// dimension.
#[derive(Clone, Copy, Debug, PartialEq, Eq, Drop)]
pub enum Output {
    Emission(Gas),
    Aux(Dim),
}

impl Output {
    /// The gas of an emission; `None` exactly where the output is none.
    pub fn gas(self) -> Option<Gas>
        ensures { result ≡ gas_of self }
    {
        match self {
            Output::Emission(gas) => Some(gas),
            Output::Aux(_) => None,
        }
    }
}
