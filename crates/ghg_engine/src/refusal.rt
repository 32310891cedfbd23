//! Why edits are not proposed.

use ghg_units::Node;
use std::alloc::AllocError;

/// Why edits are not proposed.
#[derive(Clone, Copy, Drop)]
pub enum EngineRefusal {
    /// The least node that is beyond the limits, while none of its inputs is.
    Overflow(Node),
    /// Out of memory.
    Memory,
}

impl From<AllocError> for EngineRefusal {
    ghost use Rattle.std.specs.Prelude.{◌≡◌};
    ghost use Rattle.ghg_engine.specs.declared.refusal.EngineRefusal.TheVariants.{Memory};

    ghost from_gives = { λ _ r. r ≡ Memory };

    fn from(_error: AllocError) -> EngineRefusal {
        EngineRefusal::Memory
    }
}
