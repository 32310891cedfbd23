//! Lines that edits add, withdraw or move to another category, and the totals that then add other lines.

ghost use Rattle.std.specs.Prelude.{◌≡◌, filter, IfOk};
ghost use Rattle.std.specs.FinMap.{get};
ghost use Rattle.std.specs.List.{Contains, filter_map, list_any};
ghost use Rattle.ghg_categories.specs.Tree.{stands_under, tree};
ghost use Rattle.ghg_definitions.specs.declared.record.RecordKey.{RecordKey};
ghost use Rattle.ghg_graph.specs.Moves.{AreMoved, crosses, move_of};
ghost use Rattle.ghg_graph.specs.Slots.{is_within};

use crate::gases::emits_at;
use crate::slots::{Scope, is_some_within};
use ghg_categories::Category;
use ghg_data::Records;
use ghg_definitions::RecordKey;
use ghg_units::Name;
use std::alloc::{AllocError, Global};

/// The category at which a line emits a gas, in the old data and in the new ones.
#[derive(Clone, Copy, Drop)]
pub(crate) struct Move {
    before: Option<Category>,
    after: Option<Category>,
}

/// The categories whose totals add other lines than before, and whether the gross total does.
#[derive(Drop)]
pub struct Moved {
    pub tops: Vec<Category>,
    pub gross: bool,
}

/// The totals that add other lines than before. The old and the new records differ at the keys alone. Reads
/// the lines of the keys and no others.
pub fn moved_totals<R: Records, S: Records>(
    alloc: Global,
    old: &R,
    new: &S,
    keys: &[RecordKey],
) -> Result<Moved, AllocError>
    requires kept { (k : RecordKey) → (Contains keys.now k → ⊥) →
        get (R.content old.now) k ≡ get (S.content new.now) k }
    ensures { IfOk result (AreMoved (R.content old.now) (S.content new.now)) }
{
    let moves = moves_of(alloc, old, new, keys)?;
    let tops = moved_tops(alloc, &moves)?;
    let gross = is_moved(&Scope::Gross, &moves);
    Ok(Moved { tops, gross })
}

fn moves_of<R: Records, S: Records>(
    alloc: Global,
    old: &R,
    new: &S,
    keys: &[RecordKey],
) -> Result<Vec<Move>, AllocError>
    ensures { IfOk result (λ moves. moves.items ≡
        filter_map (move_of (R.content old.now) (S.content new.now)) keys.now) }
{
    keys.iter()
        .filter_map(|key| move_of(old, new, key))
        .collect(alloc)
}

fn move_of<R: Records, S: Records>(old: &R, new: &S, key: &RecordKey) -> Option<Move>
    ensures { result ≡ move_of (R.content old.now) (S.content new.now) key.now }
{
    match key {
        RecordKey::Line(name) => {
            let before = emits_at(old, name);
            let after = emits_at(new, name);
            Some(Move { before, after })
        }
        _ => None,
    }
}

fn moved_tops(alloc: Global, moves: &[Move]) -> Result<Vec<Category>, AllocError>
    ensures { IfOk result (λ tops. tops.items ≡
        filter (λ top. list_any (crosses (λ c. stands_under c top)) moves.now) tree) }
{
    ghg_categories::all()
        .iter()
        .filter(|top| is_moved(&Scope::Under(**top), moves))
        .copied()
        .collect(alloc)
}

// Whether one of the lines comes into the scope or leaves it.
fn is_moved(scope: &Scope, moves: &[Move]) -> bool
    ensures { result ≡ list_any (crosses (is_within scope.now)) moves.now }
{
    moves.iter().any(|line| crosses(scope, line))
}

fn crosses(scope: &Scope, line: &Move) -> bool
    ensures { result ≡ crosses (is_within scope.now) line.now }
{
    is_some_within(scope, line.before) != is_some_within(scope, line.after)
}
