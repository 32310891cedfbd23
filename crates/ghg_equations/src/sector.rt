//! The sectors whose crates compute equations.

ghost use Rattle.std.specs.Prelude.{◌≡◌};
ghost use Rattle.ghg_equations.specs.Table.{sector_of};

use crate::eq_id::EqId;
use crate::table::equation;

/// A sector of the inventory, as the volumes of the Guidelines divide it.
#[derive(Clone, Copy, Debug, PartialEq, Eq, Drop)]
pub enum Sector {
    /// Volume 2.
    Energy,
    /// Volume 3.
    Industry,
    /// Volume 4, chapter 10.
    Livestock,
    /// Volume 4, chapters 5 and 11.
    Soils,
    /// Volume 4, chapter 2.
    Land,
    /// Volume 5.
    Waste,
}

impl EqId {
    /// The sector of the code, whose crate has the call for its equation.
    pub fn sector(self) -> Sector
        ensures { result ≡ sector_of self }
    {
        equation(self).sector
    }
}
