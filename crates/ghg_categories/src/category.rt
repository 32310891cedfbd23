//! The codes of categories.

ghost use Rattle.std.specs.Prelude.{nat_eq, refl, Some};
ghost use Rattle.std.specs.Ordering.{nat_cmp};
ghost use Rattle.std.specs.Cmp.{on_equiv, on_po, on_total, partial_equiv_from_equiv};
ghost use Rattle.std.specs.Cmp.Lexicographic.{pointwise, slice_cmp, nat_list_eq_equiv, nat_list_cmp_total, texts_po, texts_ties};
ghost use Rattle.ghg_categories.specs.Tree.{code_of};

use std::cmp::Ordering;

/// A category of emissions and removals, by its code without dots (2006 IPCC Guidelines, Volume 1, Chapter 8,
/// Table 8.2).
///
/// The national total has the code `0`. The memo codes `MB`, `MC` and `RA` stand outside the tree, and what
/// is reported there is in no total. Categories are compared and ordered by the bytes of their codes.
#[derive(Clone, Copy, Debug, Drop)]
pub enum Category {
    /// The national total.
    National,
    /// Energy.
    C1,
    /// Fuel combustion activities.
    C1A,
    /// Energy industries.
    C1A1,
    /// Main activity electricity and heat production.
    C1A1a,
    /// Petroleum refining.
    C1A1b,
    /// Manufacture of solid fuels and other energy industries.
    C1A1c,
    /// Manufacturing industries and construction.
    C1A2,
    /// Transport.
    C1A3,
    /// Civil aviation.
    C1A3a,
    /// Road transportation.
    C1A3b,
    /// Railways.
    C1A3c,
    /// Water-borne navigation.
    C1A3d,
    /// Other transportation.
    C1A3e,
    /// Other sectors.
    C1A4,
    /// Commercial and institutional.
    C1A4a,
    /// Residential.
    C1A4b,
    /// Agriculture, forestry, fishing and fish farms.
    C1A4c,
    /// Non-specified.
    C1A5,
    /// Fugitive emissions from fuels.
    C1B,
    /// Solid fuels.
    C1B1,
    /// Oil and natural gas.
    C1B2,
    /// Other emissions from energy production.
    C1B3,
    /// Carbon dioxide transport and storage.
    C1C,
    /// Industrial processes and product use.
    C2,
    /// Mineral industry.
    C2A,
    /// Cement production.
    C2A1,
    /// Lime production.
    C2A2,
    /// Glass production.
    C2A3,
    /// Other process uses of carbonates.
    C2A4,
    /// Chemical industry.
    C2B,
    /// Ammonia production.
    C2B1,
    /// Nitric acid production.
    C2B2,
    /// Adipic acid production.
    C2B3,
    /// Metal industry.
    C2C,
    /// Iron and steel production.
    C2C1,
    /// Aluminium production.
    C2C3,
    /// Non-energy products from fuels and solvent use.
    C2D,
    /// Lubricant use.
    C2D1,
    /// Paraffin wax use.
    C2D2,
    /// Agriculture, forestry and other land use.
    C3,
    /// Livestock.
    C3A,
    /// Enteric fermentation.
    C3A1,
    /// Manure management.
    C3A2,
    /// Land.
    C3B,
    /// Forest land.
    C3B1,
    /// Cropland.
    C3B2,
    /// Grassland.
    C3B3,
    /// Wetlands.
    C3B4,
    /// Settlements.
    C3B5,
    /// Other land.
    C3B6,
    /// Aggregate sources and non-CO2 emissions sources on land.
    C3C,
    /// Emissions from biomass burning.
    C3C1,
    /// Liming.
    C3C2,
    /// Urea application.
    C3C3,
    /// Direct N2O emissions from managed soils.
    C3C4,
    /// Indirect N2O emissions from managed soils.
    C3C5,
    /// Indirect N2O emissions from manure management.
    C3C6,
    /// Rice cultivations.
    C3C7,
    /// Other sources on land.
    C3C8,
    /// Other.
    C3D,
    /// Harvested wood products.
    C3D1,
    /// Other than harvested wood products.
    C3D2,
    /// Waste.
    C4,
    /// Solid waste disposal.
    C4A,
    /// Biological treatment of solid waste.
    C4B,
    /// Incineration and open burning of waste.
    C4C,
    /// Waste incineration.
    C4C1,
    /// Open burning of waste.
    C4C2,
    /// Wastewater treatment and discharge.
    C4D,
    /// Domestic wastewater treatment and discharge.
    C4D1,
    /// Industrial wastewater treatment and discharge.
    C4D2,
    /// Other treatment of waste.
    C4E,
    /// Other.
    C5,
    /// Indirect N2O emissions from the atmospheric deposition of nitrogen in NOx and NH3.
    C5A,
    /// Other than indirect emissions of N2O.
    C5B,
    /// International bunkers: fuel for aviation and navigation between countries.
    MB,
    /// CO2 of biomass that is burnt for energy.
    MC,
    /// The reference approach to fuel combustion.
    RA,
}

// Categories by their names.
macro_rules! categories {
    [$($category:ident)+] => { [$(Category::$category),+] };
}

impl Category {
    /// Each category of the tree, in the order of the codes' bytes.
    pub(crate) const TREE: [Category; 76] = categories![
        National C1 C1A C1A1 C1A1a C1A1b C1A1c C1A2 C1A3 C1A3a C1A3b C1A3c C1A3d C1A3e C1A4 C1A4a
        C1A4b C1A4c C1A5 C1B C1B1 C1B2 C1B3 C1C C2 C2A C2A1 C2A2 C2A3 C2A4 C2B C2B1 C2B2 C2B3 C2C
        C2C1 C2C3 C2D C2D1 C2D2 C3 C3A C3A1 C3A2 C3B C3B1 C3B2 C3B3 C3B4 C3B5 C3B6 C3C C3C1 C3C2
        C3C3 C3C4 C3C5 C3C6 C3C7 C3C8 C3D C3D1 C3D2 C4 C4A C4B C4C C4C1 C4C2 C4D C4D1 C4D2 C4E C5
        C5A C5B
    ];

    /// Those outside the tree.
    pub(crate) const MEMO: [Category; 3] = [Category::MB, Category::MC, Category::RA];
}

impl PartialEq for Category {
    ghost eq = { λ a b. pointwise nat_eq (code_of a) (code_of b) };

    ghost laws = { partial_equiv_from_equiv (on_equiv code_of nat_list_eq_equiv) };

    #[tactic(auto, using(crate::proofs::Places::places_equal))]
    fn eq(&self, other: &Category) -> bool {
        *self as u8 == *other as u8
    }
}

impl Eq for Category {
    ghost laws = { on_equiv code_of nat_list_eq_equiv };
}

impl PartialOrd for Category {
    ghost partial_cmp = { λ a b. Some (slice_cmp nat_cmp (code_of a) (code_of b)) };

    ghost laws = { on_po code_of texts_po };

    fn partial_cmp(&self, other: &Category) -> Option<Ordering> {
        Some(self.cmp(other))
    }
}

impl Ord for Category {
    ghost cmp = { λ a b. slice_cmp nat_cmp (code_of a) (code_of b) };

    ghost total = { on_total code_of nat_list_cmp_total };

    ghost matches_partial_cmp = { λ a b. refl };

    ghost matches_eq = { λ a b. texts_ties (code_of a) (code_of b) };

    // The variants are declared in the order of the codes' bytes.
    #[tactic(auto, using(crate::proofs::Places::places_order))]
    fn cmp(&self, other: &Category) -> Ordering {
        (*self as u8).cmp(&(*other as u8))
    }
}
