//! Tickets by places: a board hands out the places of a layer, each once and with its ticket, to passes.

ghost use Rattle.std.specs.Prelude.{◌≡◌, ℕ, ◌+◌, ◌-◌, ◌<◌, ◌≤◌, min, [], ◌∷◌, ◌++◌, length};
ghost use Rattle.std.specs.Prelude.{IfOk, IfSome, MatchOption};
ghost use Rattle.ghg_cell.specs.BoardRule.{fresh, cut, both, spent, times, once_below};
ghost use Rattle.ghg_cell.specs.Boards.{IsBoard, IsNew, Claims};

use super::Ticket;
use super::permits::Permits;
use crate::view::View;
use atomic_table::{Join, Play, Seat, Split, Table, TableRule};
use std::alloc::{AllocError, Global};
use std::marker::Model;

// The rule of a board: each place is claimed once.
struct EachOnce;

impl TableRule<(), View, u64> for EachOnce {
    ghost holds = { IsBoard };

    ghost first = { λ places. fresh places 64 };
}

// One claim.
struct Claim;

impl Play<(), View> for Claim {
    ghost then = { λ _ before found after. Claims before found after };
}

// One stake goes to a new pass, or all of a pass to another.
struct Stake;

impl Split<View> for Stake {
    ghost left = { cut };

    ghost right = { λ v. fresh v.places 1 };
}

impl Join<View> for Stake {
    ghost both = { both };

    ghost spent = { spent };
}

/// The places of one layer, each of which is claimed once. Contracts see which board it is, and how many
/// places it has.
#[derive(Drop)]
pub struct Board {
    table: Table<(), View, u64, EachOnce, Global>,
    places: u64,
}

impl Model for Board {
    ghost use Rattle.std.specs.Prelude.{◌≡◌};
    ghost use Rattle.ghg_cell.specs.Boards.{BoardId, board_id_coded};

    ghost Value = { BoardId };

    ghost coded = { board_id_coded };

    ghost view = { λ b. record { table = b.table.shared.table_id; places = b.places } };

    ghost invariant = { λ b. (b.table.shared.key ≡ b.places)
        × (b.table.shared.table_id.words ≡ 1) × (b.table.shared.table_id.slots ≡ 0) };
}

/// The right to claim on a board. Contracts see what it knows: its board, the places that it claimed in
/// order, its stake, and how many claims found no place left.
#[derive(Drop)]
pub struct Pass {
    seat: Seat<(), View>,
}

impl Model for Pass {
    ghost use Rattle.std.specs.Prelude.{◌≡◌, ◌<◌, []};
    ghost use Rattle.ghg_cell.specs.Boards.{PassView, pass_view_coded, pass_view};

    ghost Value = { PassView };

    ghost coded = { pass_view_coded };

    ghost view = { λ p. pass_view p.seat.table_id p.seat.me.0 };

    ghost invariant = { λ p. (p.seat.me.1 ≡ []) × (0 < p.seat.me.0.stake) };
}

impl Board {
    /// A board with a place for each permit, and its first pass, which has all 64 stakes. If memory runs out
    /// the permits are gone.
    pub fn new(alloc: Global, permits: Permits) -> Result<(Board, Pass), AllocError>
        requires { permits ≤ 1000000000 }
        ensures { IfOk result (λ r. (r.0.places ≡ permits) × IsNew r.0 64 r.1) }
    {
        let places = permits.held();
        let (table, seat) = Table::of_words(alloc, &[0], &places)?;
        Ok((Board { table, places }, Pass { seat }))
    }

    /// Gives one stake to a new pass.
    pub fn split(&self, pass: &mut Pass) -> Pass
        requires board { pass.old.board ≡ self.now }
        requires staked { pass.old.misses + 2 ≤ pass.old.stake }
        ensures left { pass.new ≡ record pass.old { stake = pass.old.stake - 1 } }
        ensures given { IsNew self.now 1 result }
    {
        Pass {
            seat: self.table.shared.split_seat::<Stake>(&mut pass.seat),
        }
    }

    /// Claims a place by one step on the board's word. The place comes with a ticket; `None` exactly where
    /// all were claimed.
    pub fn claim(&self, pass: &mut Pass) -> Option<(u64, Ticket)>
        requires board { pass.old.board ≡ self.now }
        requires staked { pass.old.misses < pass.old.stake }
        ensures claimed { MatchOption result
            (pass.new ≡ record pass.old { misses = pass.old.misses + 1 })
            (λ r. pass.new ≡ record pass.old { claimed = pass.old.claimed ++ r.0 ∷ [] }) }
        ensures place { IfSome result (λ r. r.0 < self.now.places) }
        ensures few { IfSome result (λ _. length pass.new.claimed ≤ self.now.places) }
    {
        let place = self.table.shared.fetch_add::<Claim>(&mut pass.seat, 0, 1);
        if place < self.places {
            Some((place, Ticket { bought: () }))
        } else {
            None
        }
    }

    /// Takes the other pass into the first.
    pub fn join(&self, pass: &mut Pass, other: Pass)
        requires { (pass.old.board ≡ self.now) × (other.board ≡ self.now) }
        ensures { pass.new ≡ record {
          board = self.now;
          claimed = pass.old.claimed ++ other.claimed;
          stake = pass.old.stake + other.stake;
          misses = pass.old.misses + other.misses;
        } }
    {
        let Pass { seat } = other;
        self.table.shared.join_seat::<Stake>(&mut pass.seat, seat);
    }

    /// How many claims were made, with those in vain. The pass that has all stakes knows them all: it claimed
    /// each place at most once, and once each if it was told that none is left.
    pub fn close(self, pass: Pass) -> u64
        requires board { pass.board ≡ self }
        requires whole { pass.stake ≡ 64 }
        ensures claimed { (x : ℕ) → times x pass.claimed ≡ once_below x (min result self.places) }
        ensures missed { pass.misses ≡ result - self.places }
        ensures all { 0 < pass.misses → (x : ℕ) → times x pass.claimed ≡ once_below x self.places }
    {
        let Pass { seat } = pass;
        let Board { table, places: _ } = self;
        let closed = table.close_with(seat);
        let claims = closed.word(0);
        closed.free();
        claims
    }
}
