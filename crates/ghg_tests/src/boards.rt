//! Places claimed on a board, in turn.

ghost use Rattle.std.specs.Prelude.{◌≡◌, ◌+◌, ◌<◌, ◌≤◌};

use crate::cases::check;
use crate::values::permits;
use ghg_cell::{Board, Pass};
use std::process::Abort;

// Claims a place: this one.
fn claim(rt: &impl Abort, board: &Board, pass: &mut Pass, place: u64)
    requires board { pass.old.board ≡ board.now }
    requires staked { pass.old.misses < pass.old.stake }
    ensures { (pass.new.board ≡ pass.old.board) × (pass.new.stake ≡ pass.old.stake)
        × (pass.new.misses ≡ pass.old.misses) }
{
    let (claimed, _ticket) = board.claim(pass).expect(rt, "a place");
    check(rt, claimed == place, "the next place");
}

// Claims where no place is left.
fn claim_in_vain(rt: &impl Abort, board: &Board, pass: &mut Pass)
    requires board { pass.old.board ≡ board.now }
    requires staked { pass.old.misses < pass.old.stake }
    ensures { (pass.new.board ≡ pass.old.board) × (pass.new.stake ≡ pass.old.stake) }
{
    check(rt, board.claim(pass).is_none(), "no place left");
}

// Three places, which two passes claim in turn.
#[test]
fn passes_claim_in_turn(rt: HostRuntime) {
    let made = Board::new(rt.alloc(), permits(3));
    let (board, mut first) = made.ok().expect(&rt, "memory");
    let mut second = board.split(&mut first);
    claim(&rt, &board, &mut first, 0);
    claim(&rt, &board, &mut second, 1);
    claim(&rt, &board, &mut first, 2);
    claim_in_vain(&rt, &board, &mut second);
    claim_in_vain(&rt, &board, &mut first);
    board.join(&mut first, second);
    check(&rt, board.close(first) == 5, "five claims");
}

#[test]
fn a_board_of_none_has_no_place(rt: HostRuntime) {
    let made = Board::new(rt.alloc(), permits(0));
    let (board, mut pass) = made.ok().expect(&rt, "memory");
    claim_in_vain(&rt, &board, &mut pass);
    check(&rt, board.close(pass) == 1, "one claim");
}
