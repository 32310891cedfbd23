//! The slots of a layer.

ghost use Rattle.std.specs.Prelude.{◌≡◌, ℕ, All, IfOk};
ghost use Rattle.ghg_cell.specs.BoardRule.{times, once_below};
ghost use Rattle.ghg_workers.specs.Slots.{AreFilled};
ghost use Rattle.ghg_workers.specs.Entries.{places_of, IsOf};

use crate::entry::Entry;
use crate::layer::Layer;
use std::alloc::{AllocError, Global};

/// Lays each entry into the slot of its place. The entries have each place of the layer once.
pub(crate) fn lay<N: Layer>(
    alloc: Global,
    layer: &N,
    mut entries: Vec<Entry<N::Outcome>>,
) -> Result<Vec<Option<N::Outcome>>, AllocError>
    requires each { (x : ℕ) → times x (places_of entries.items) ≡ once_below x (N.count layer.now) }
    requires right { All (IsOf (N.outcome layer.now) (N.count layer.now)) entries.items }
    ensures { IfOk result (AreFilled (N.outcome layer.now) (N.count layer.now)) }
{
    let mut slots = Vec::new(alloc);
    for _place in 0..layer.count() {
        slots.push(None)?;
    }
    'entries: while let Some(entry) = entries.pop() {
        let Entry { place, outcome } = entry;
        slots[place as usize] = Some(outcome);
    }
    Ok(slots)
}
