//! The codes of equations.

/// A code of the table of equations, in the order of the table.
#[derive(Clone, Copy, Debug, PartialEq, Eq, Drop)]
pub enum EqId {
    /// Fuel burnt, to CO2 (Volume 2, Equation 2.1).
    Q10,
    /// Fuel burnt, to CH4 (Volume 2, Equation 2.1).
    Q11,
    /// Fuel burnt, to N2O (Volume 2, Equation 2.1).
    Q12,
    /// Mass of fuel, to energy, by its net calorific value (no numbered equation of the Guidelines).
    Q13,
    /// Coal mined, to CH4 (Volume 2, chapter 4, coal, Tier 1).
    Q14,
    /// Activity of the oil and gas industry, to CH4 (Volume 2, Equation 4.2.1).
    Q15,
    /// Activity of the oil and gas industry, to CO2 (Volume 2, Equation 4.2.1).
    Q16,
    /// Activity of the oil and gas industry, to N2O (Volume 2, Equation 4.2.1).
    Q17,
    /// Apparent consumption of a primary fuel, as mass (Volume 2, Equation 6.2).
    Q20,
    /// Apparent consumption of a secondary fuel, as mass (Volume 2, Equation 6.3).
    Q21,
    /// Apparent consumption of a primary fuel, as energy (Volume 2, Equation 6.2).
    Q22,
    /// Apparent consumption of a secondary fuel, as energy (Volume 2, Equation 6.3).
    Q23,
    /// Carbon excluded from fuel combustion (Volume 2, Equation 6.4).
    Q24,
    /// Apparent consumption as mass, to CO2 (Volume 2, Equation 6.1).
    Q25,
    /// Apparent consumption as energy, to CO2 (Volume 2, Equation 6.1).
    Q26,
    /// Clinker of a cement (Volume 3, Equation 2.1, a term of its sum).
    Q30,
    /// Clinker of cement, to CO2 (Volume 3, Equation 2.1, Tier 1).
    Q31,
    /// Clinker produced, to CO2 (Volume 3, Equation 2.2, Tier 2).
    Q32,
    /// Lime, to CO2 (Volume 3, Equation 2.6, Tier 2, a term of its sum).
    Q33,
    /// Glass, to CO2 (Volume 3, Equations 2.10 and 2.11, Tiers 1 and 2).
    Q34,
    /// Carbonates in other uses, to CO2 (Volume 3, Equation 2.14, Tier 1).
    Q35,
    /// Limestone and dolomite in other uses, to CO2 (Volume 3, Equation 2.15, Tier 2).
    Q36,
    /// Ammonia, to CO2 (Volume 3, Equation 3.1, Tier 1).
    Q37,
    /// Nitric or adipic acid, to N2O (Volume 3, Equations 3.5 and 3.7, Tier 1).
    Q38,
    /// Nitric or adipic acid with abatement, to N2O (Volume 3, Equations 3.6 and 3.8, Tier 2, a term of their
    /// sum).
    Q39,
    /// Steel, to CO2 (Volume 3, Equation 4.4, Tier 1).
    Q40,
    /// Anodes and paste of aluminium, to CO2 (Volume 3, Equation 4.20, Tier 1).
    Q41,
    /// Anode effects of aluminium, to CF4 (Volume 3, Equation 4.25, Tier 1, a term of its sum).
    Q42,
    /// Anode effects of aluminium by the slope method, to CF4 (Volume 3, Equation 4.26, Tier 2).
    Q44,
    /// C2F6 by its ratio to CF4 (Volume 3, Equation 4.26, Tier 2).
    Q45,
    /// Lubricants or waxes, to CO2 (Volume 3, Equations 5.2 and 5.4, Tier 1).
    Q46,
    /// Livestock, to CH4 of enteric fermentation or of manure (Volume 4, Equations 10.19 and 10.22).
    Q55,
    /// Emission factor of enteric fermentation (Volume 4, Equation 10.21).
    Q56,
    /// Methane conversion factor of a manure system, by its share (Volume 4, Equation 10.23, a term of its
    /// sum).
    Q57,
    /// Emission factor of manure (Volume 4, Equation 10.23).
    Q58,
    /// Nitrogen in manure management, to direct N2O (Volume 4, Equation 10.25, a term of its sum).
    Q59,
    /// Nitrogen of manure lost by volatilisation or leaching (Volume 4, Equations 10.26 and 10.28, a term of
    /// their sums).
    Q60,
    /// Nitrogen lost from manure, to indirect N2O (Volume 4, Equations 10.27 and 10.29).
    Q61,
    /// Nitrogen that an animal excretes in a year (Volume 4, Equation 10.30).
    Q62,
    /// Nitrogen of managed manure that is left for use (Volume 4, Equation 10.34, a term of its sum).
    Q63,
    /// Nitrogen of urine and dung on pasture (Volume 4, Equation 11.5, a term of its sum).
    Q64,
    /// Organic nitrogen applied to soils (Volume 4, Equation 11.3).
    Q67,
    /// Nitrogen of animal manure applied to soils (Volume 4, Equation 11.4).
    Q68,
    /// Nitrogen inputs to soils, to direct N2O (Volume 4, Equation 11.1, its inputs).
    Q69,
    /// Organic soils drained or managed, to direct N2O (Volume 4, Equation 11.1, its organic soils).
    Q70,
    /// Nitrogen of grazing animals, to direct N2O (Volume 4, Equation 11.1, its pasture).
    Q71,
    /// Nitrogen volatilised from soils, to indirect N2O (Volume 4, Equation 11.9).
    Q72,
    /// Nitrogen leached from soils, to indirect N2O (Volume 4, Equation 11.10).
    Q73,
    /// Lime on soils, to CO2 (Volume 4, Equation 11.12).
    Q74,
    /// Urea on soils, to CO2 (Volume 4, Equation 11.13).
    Q75,
    /// Daily emission factor of rice (Volume 4, Equation 5.2).
    Q76,
    /// Rice, to CH4 (Volume 4, Equation 5.1, a term of its sum).
    Q77,
    /// Growth of biomass, by its mass (Volume 4, Equations 2.9 and 2.10, Tier 1).
    Q78,
    /// Growth of biomass, by the increment of wood (Volume 4, Equations 2.9 and 2.10, Tiers 2 and 3).
    Q79,
    /// Wood removed (Volume 4, Equation 2.12).
    Q80,
    /// Wood taken for fuel (Volume 4, Equation 2.13).
    Q81,
    /// Biomass lost in disturbances (Volume 4, Equation 2.14).
    Q82,
    /// Change of a carbon stock by gains and losses (Volume 4, Equation 2.7).
    Q83,
    /// Change of a carbon stock, to CO2 (Volume 4, chapter 2: times -44/12).
    Q84,
    /// Carbon stock of a mineral soil (Volume 4, Equation 2.25, a term of its stock).
    Q85,
    /// Yearly change of the carbon stock of mineral soils, over 20 years (Volume 4, Equation 2.25).
    Q86,
    /// Organic soils drained, to carbon lost (Volume 4, Equation 2.26, a term of its sum).
    Q87,
    /// Land burnt, to CH4 (Volume 4, Equation 2.27).
    Q88,
    /// Land burnt, to N2O (Volume 4, Equation 2.27).
    Q89,
    /// Degradable organic carbon of deposited waste that decays without air (Volume 5, Equation 3.2).
    Q90,
    /// Carbon in a landfill at the end of a year (Volume 5, Equation 3.4).
    Q91,
    /// Carbon of a landfill that decays in a year (Volume 5, Equation 3.5).
    Q92,
    /// Carbon decayed, to CH4 generated (Volume 5, Equation 3.6).
    Q93,
    /// CH4 generated, to CH4 emitted (Volume 5, Equation 3.1).
    Q94,
    /// Biological treatment of waste, to CH4 (Volume 5, Equation 4.1, a term of its sum).
    Q95,
    /// Biological treatment of waste, to N2O (Volume 5, Equation 4.2, a term of its sum).
    Q96,
    /// Waste incinerated or burnt, to CO2 (Volume 5, Equation 5.1, a term of its sum).
    Q97,
    /// Emission factor of a way of treating wastewater (Volume 5, Equation 6.2).
    Q98,
    /// Organic matter in domestic wastewater in a year (Volume 5, Equation 6.3).
    Q99,
    /// Organic matter in wastewater, to CH4 (Volume 5, Equation 6.1).
    Q100,
    /// Emission factor of a pathway of wastewater, by its shares (Volume 5, Equation 6.1, a term of its sum).
    Q101,
    /// Nitrogen in the effluent of wastewater in a year (Volume 5, Equation 6.8).
    Q102,
    /// Nitrogen in effluent, to N2O (Volume 5, Equation 6.7).
    Q103,
}

// Codes by their names.
macro_rules! codes {
    [$($code:ident)+] => { &[$(EqId::$code),+] };
}

impl EqId {
    /// Every code, in the order of the table.
    pub const ALL: &'static [EqId] = codes![
        Q10 Q11 Q12 Q13 Q14 Q15 Q16 Q17 Q20 Q21 Q22 Q23 Q24 Q25 Q26 Q30 Q31 Q32 Q33 Q34 Q35 Q36
        Q37 Q38 Q39 Q40 Q41 Q42 Q44 Q45 Q46 Q55 Q56 Q57 Q58 Q59 Q60 Q61 Q62 Q63 Q64 Q67 Q68 Q69
        Q70 Q71 Q72 Q73 Q74 Q75 Q76 Q77 Q78 Q79 Q80 Q81 Q82 Q83 Q84 Q85 Q86 Q87 Q88 Q89
        Q90 Q91 Q92 Q93 Q94 Q95 Q96 Q97 Q98 Q99 Q100 Q101 Q102 Q103
    ];
}
