//! The names of lines, each once and in order.

ghost use Rattle.std.specs.Prelude.{◌≡◌, ◌+◌, ◌≤◌, ◌<◌, IfOk, length, vec_len, vec_capacity};
ghost use Rattle.std.specs.List.Sorted.{IsStrictlySortedBy};
ghost use Rattle.ghg_definitions.specs.Data.{Data, line_names, name_cmp};
ghost use Rattle.ghg_data.specs.Changes.{applied};
ghost use Rattle.ghg_data.specs.Names.{names_after, with_name, without_name};

use crate::edits::Edits;
use crate::holdings::Holdings;
use ghg_definitions::RecordKey;
use ghg_units::Name;
use std::alloc::{AllocError, Global};

/// The names of the lines once the edits are made, in order.
pub(crate) fn lines_after(
    alloc: Global,
    holdings: &Holdings,
    edits: &Edits,
) -> Result<Vec<Name>, AllocError>
    ensures { IfOk result (λ lines. lines.items ≡ line_names (applied holdings.now.content edits.now)) }
{
    let before = holdings.lines();
    let mut lines = Vec::with_capacity(alloc, before.len() + edits.len())?;
    lines.extend_from_slice(before)?;
    change_names(&mut lines, edits);
    Ok(lines)
}

/// Makes the names of the lines those once the edits are made, one change after the other. Each moves the
/// names behind it. It takes no memory.
pub(crate) fn change_names(names: &mut Vec<Name>, edits: &Edits)
    requires { vec_len names.old + length edits.now ≤ vec_capacity names.old }
    ensures items { (m : Data) → names.old.items ≡ line_names m → names.new.items ≡ line_names
        (applied m edits.now) }
    ensures capacity { vec_capacity names.new ≡ vec_capacity names.old }
{
    let mut left = edits.len();
    while left > 0 {
        left -= 1;
        let (key, change) = edits.at(left);
        change_name(names, key, change.is_some());
    }
}

// Makes the names those of the lines once the key has a record, or has none.
fn change_name(names: &mut Vec<Name>, key: &RecordKey, present: bool)
    requires { vec_len names.old < vec_capacity names.old }
    ensures items { IsStrictlySortedBy name_cmp names.old.items → names.new.items ≡ names_after key.now
        present names.old.items }
    ensures len { vec_len names.new ≤ vec_len names.old + 1 }
    ensures capacity { vec_capacity names.new ≡ vec_capacity names.old }
{
    if let RecordKey::Line(name) = key {
        if present {
            put_name(names, name);
        } else {
            take_name(names, name);
        }
    }
}

fn put_name(names: &mut Vec<Name>, name: &Name)
    requires { vec_len names.old < vec_capacity names.old }
    ensures items { IsStrictlySortedBy name_cmp names.old.items → names.new.items ≡ with_name name.now
        names.old.items }
    ensures len { vec_len names.new ≤ vec_len names.old + 1 }
    ensures capacity { vec_capacity names.new ≡ vec_capacity names.old }
{
    if let Err(place) = names.binary_search(name) {
        names.insert(place, *name).unwrap();
    }
}

/// Takes a name out of names in order, if it is one of them. It takes no memory.
pub fn take_name(names: &mut Vec<Name>, name: &Name)
    ensures items { IsStrictlySortedBy name_cmp names.old.items → names.new.items ≡ without_name name.now
        names.old.items }
    ensures len { vec_len names.new ≤ vec_len names.old }
    ensures capacity { vec_capacity names.new ≡ vec_capacity names.old }
{
    if let Ok(place) = names.binary_search(name) {
        names.remove(place);
    }
}
