//! Rings of lines.

ghost use Rattle.std.specs.Prelude.{◌≡◌, ◌<◌, ◌∷◌, drop, length};

use ghg_units::Name;
use std::alloc::AllocError;
use std::marker::Model;

/// Lines of which each depends on the next in the same year, and the last on the first. There is one at
/// least. Contracts see the list of their names.
#[derive(Drop)]
pub struct Ring {
    lines: Vec<Name>,
}

impl Model for Ring {
    ghost use Rattle.std.specs.Prelude.{ℕ, ◌<◌, List, length};

    ghost Value = { List (List ℕ) };

    ghost view = { λ r. r.lines.items };

    ghost invariant = { λ r. 0 < length r.lines.items };
}

impl Ring {
    /// The ring of these lines. Allocates no memory.
    pub(crate) fn new(lines: Vec<Name>) -> Ring
        requires { 0 < length lines.items }
        ensures { result ≡ lines.items }
    {
        Ring { lines }
    }

    /// The line that the ring begins with.
    pub fn least(&self) -> Name
        ensures { self.now ≡ result ∷ drop 1 self.now }
    {
        self.lines[0]
    }

    /// The lines. Each depends on the next.
    pub fn as_slice(&self) -> &[Name]
        ensures { result.now ≡ self.now }
    {
        &self.lines
    }
}

/// Why lines have no order.
#[derive(Drop)]
pub enum CycleRefusal {
    /// A ring that begins with the least line on any.
    Ring(Ring),
    /// Out of memory.
    Memory,
}

impl From<AllocError> for CycleRefusal {
    ghost use Rattle.std.specs.Prelude.{◌≡◌};
    ghost use Rattle.ghg_graph.specs.declared.rings.CycleRefusal.TheVariants.{Memory};

    ghost from_gives = { λ _ r. r ≡ Memory };

    fn from(_error: AllocError) -> CycleRefusal {
        CycleRefusal::Memory
    }
}
