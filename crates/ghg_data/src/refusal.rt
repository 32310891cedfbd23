//! Why rows are not planned.

use ghg_units::Rule;
use std::alloc::AllocError;

/// Why rows are not planned.
#[derive(Clone, Copy, Drop)]
pub enum PlanRefusal {
    /// The first rule that is broken.
    Rule(Rule),
    /// Out of memory.
    Memory,
}

impl From<AllocError> for PlanRefusal {
    ghost use Rattle.std.specs.Prelude.{◌≡◌};
    ghost use Rattle.ghg_data.specs.declared.refusal.PlanRefusal.TheVariants.{Memory};

    ghost from_gives = { λ _ r. r ≡ Memory };

    fn from(_error: AllocError) -> PlanRefusal {
        PlanRefusal::Memory
    }
}
