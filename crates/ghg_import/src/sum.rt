//! The lines that a sum adds.

ghost use Rattle.std.specs.Prelude.{◌≡◌, ◌+◌, ◌==◌, map, take, Some, None, if◌then◌else◌, is_some, IfOk};
ghost use Rattle.std.specs.List.{list_all};
ghost use Rattle.std.specs.Option.{option_map};
ghost use Rattle.ghg_units.specs.Name.{plain_name_in};
ghost use Rattle.ghg_units.specs.WellFormed.{are_different};
ghost use Rattle.ghg_units.specs.declared.names.TheConstants.{MOST_NAMES};
ghost use Rattle.ghg_import.specs.Forms.{names_in, parts_of};

use ghg_units::{MOST_NAMES, Name, Names};
use std::alloc::{AllocError, Global};
use std::collections::BTreeSet;

/// The names that a text is: 1 to `MOST_NAMES` different plain ones, with one space between two of them.
#[tactic(auto, unfolding(crate::specs::Forms::names_in))]
pub(crate) fn names_named(alloc: Global, text: &[u8]) -> Result<Option<Names>, AllocError>
    ensures { IfOk result (λ names. names ≡ names_in text.now) }
{
    let parts = first_parts(alloc, text)?;
    if parts.len() > MOST_NAMES {
        return Ok(None);
    }
    let Some(names) = plain_names(alloc, &parts)? else {
        return Ok(None);
    };
    if !are_different(alloc, &names)? {
        return Ok(None);
    }
    Ok(Some(Names::new(names)))
}

// The texts between the spaces of a text, and of more than a sum may have one too many.
fn first_parts(alloc: Global, text: &[u8]) -> Result<Vec<&[u8]>, AllocError>
    ensures { IfOk result (λ parts. map (λ part. part.now) parts.items ≡ take (MOST_NAMES + 1)
        (parts_of text.now)) }
{
    text.split(|b| *b == b' ')
        .take(MOST_NAMES + 1)
        .collect(alloc)
}

// The names that texts are, where each is a plain one.
fn plain_names(alloc: Global, parts: &[&[u8]]) -> Result<Option<Vec<Name>>, AllocError>
    ensures { IfOk result (λ names. option_map (λ v. v.items) names ≡
        (if list_all (λ part. is_some (plain_name_in part)) (map (λ part. part.now) parts.now) then Some
        (map (λ part. part.now) parts.now) else None)) }
{
    let mut names = Vec::new(alloc);
    for part in parts {
        match Name::plain(part) {
            Some(name) => names.push(name)?,
            None => return Ok(None),
        }
    }
    Ok(Some(names))
}

// Whether no name stands twice.
fn are_different(alloc: Global, names: &[Name]) -> Result<bool, AllocError>
    ensures { IfOk result (λ different. different ≡ are_different names.now) }
{
    let once: BTreeSet<Name> = names.iter().copied().collect(alloc)?;
    Ok(once.len() == names.len())
}
