//! Tasks are numbers below a bound, and each is claimed by one worker.

ghost use Rattle.std.specs.Prelude.{◌≡◌, ◌+◌, ◌<◌, ◌≤◌, All, IfOk, IfSome, IfNone, ℕ, []};
ghost use Rattle.board_turn.specs.Claims.{hand, drew, saw, less_one, newcomer, both_hands, times, once_below};

use atomic_table::{Join, Play, Seat, Split, Table, TableRule};
use std::alloc::{AllocError, Global};
use std::collections::LinkedList;
use std::marker::Model;
use std::sync::Wait;

/// What a seat knows. No value of it is made.
pub struct Hand {
    pub shares: u64,
    pub drawn: LinkedList<u64>,
    pub floor: u64,
}

pub struct EachOnce;

impl TableRule<(), Hand, u64> for EachOnce {
    ghost use Rattle.std.specs.Prelude.{[]};
    ghost use Rattle.board_turn.specs.Claims.{Claims, hand};

    ghost holds = { Claims };

    ghost first = { λ _. hand 17 [] 0 };
}

struct Looks;

impl Play<(), Hand> for Looks {
    ghost use Rattle.board_turn.specs.Claims.{Looks};

    ghost then = { Looks };
}

struct Draws;

impl Play<(), Hand> for Draws {
    ghost use Rattle.board_turn.specs.Claims.{Draws};

    ghost then = { Draws };
}

struct Cuts;

impl Split<Hand> for Cuts {
    ghost use Rattle.board_turn.specs.Claims.{less_one, newcomer};

    ghost left = { less_one };

    ghost right = { newcomer };
}

struct Glues;

impl Join<Hand> for Glues {
    ghost use Rattle.board_turn.specs.Claims.{both_hands, spent};

    ghost both = { both_hands };

    ghost spent = { spent };
}

type Board = Table<(), Hand, u64, EachOnce, Global>;

/// The number of the next task.
#[derive(Drop)]
pub struct Counter {
    table: Board,
    tasks: u64,
}

impl Model for Counter {
    ghost use Rattle.std.specs.Prelude.{◌≡◌};
    ghost use Rattle.board_turn.specs.Claims.{CounterOf};

    ghost Value = { CounterOf };

    ghost view = { λ c. record { table = c.table.shared.table_id; tasks = c.tasks } };

    ghost invariant = { λ c. (c.table.shared.table_id.words ≡ 1) × (c.table.shared.table_id.slots ≡ 0)
        × (c.table.shared.key ≡ c.tasks) };
}

/// A worker's right to claim.
#[derive(Drop)]
pub struct Claimer {
    seat: Seat<(), Hand>,
}

impl Model for Claimer {
    ghost use Rattle.std.specs.Prelude.{◌≡◌, []};
    ghost use Rattle.board_turn.specs.Claims.{Claim};

    ghost Value = { Claim };

    ghost view = { λ c. record { table = c.seat.table_id; hand = c.seat.me.0 } };

    ghost invariant = { λ c. c.seat.me.1 ≡ [] };
}

impl Counter {
    pub fn new(alloc: Global, tasks: u64) -> Result<(Counter, Claimer), AllocError>
        ensures { IfOk result (λ r. (r.0.tasks ≡ tasks) × (r.1.table ≡ r.0.table) × (r.1.hand ≡ hand 17 [] 0)) }
    {
        let (table, seat) = Board::of_words(alloc, &[0], &tasks)?;
        Ok((Counter { table, tasks }, Claimer { seat }))
    }

    /// The next number, or none where all are claimed.
    pub fn claim<R: Wait>(&self, rt: &R, me: &mut Claimer) -> Option<u64>
        requires table { me.old.table ≡ self.now.table }
        requires share { 0 < me.old.hand.shares }
        ensures table { me.new.table ≡ me.old.table }
        ensures some { IfSome result (λ n. (n < self.now.tasks) × All (λ x. x < n) me.old.hand.drawn
            × (me.new.hand ≡ drew (saw me.old.hand me.new.hand.floor) n)) }
        ensures none { IfNone result ((self.now.tasks ≤ me.new.hand.floor)
            × (me.new.hand ≡ saw me.old.hand me.new.hand.floor)) }
    {
        next_of(rt, &self.table, &mut me.seat, self.tasks)
    }

    /// A seat for another worker.
    pub fn split(&self, me: &mut Claimer) -> Claimer
        requires table { me.old.table ≡ self.now.table }
        requires shares { 1 < me.old.hand.shares }
        ensures same { (me.new.table ≡ me.old.table) × (me.new.hand ≡ less_one me.old.hand) }
        ensures other { (result.table ≡ self.now.table) × (result.hand ≡ newcomer me.old.hand) }
    {
        Claimer {
            seat: self.table.shared.split_seat::<Cuts>(&mut me.seat),
        }
    }

    /// Takes another worker's seat back.
    pub fn join(&self, me: &mut Claimer, other: Claimer)
        requires table { (me.old.table ≡ self.now.table) × (other.table ≡ self.now.table) }
        requires share { 0 < me.old.hand.shares }
        ensures { (me.new.table ≡ me.old.table) × (me.new.hand ≡ both_hands me.old.hand other.hand) }
    {
        let Claimer { seat } = other;
        self.table.shared.join_seat::<Glues>(&mut me.seat, seat);
    }

    /// With all seats joined, and the end seen, each task was claimed once.
    pub fn finish(self, me: Claimer)
        requires table { me.table ≡ self.table }
        requires all { (me.hand.shares ≡ 17) × (self.tasks ≤ me.hand.floor) }
        ensures { (x : ℕ) → times x me.hand.drawn ≡ once_below x self.tasks }
    {
        let Counter { table, tasks: _ } = self;
        let Claimer { seat } = me;
        table.close_with(seat).free();
    }
}

fn next_of<R: Wait>(rt: &R, table: &Board, seat: &mut Seat<(), Hand>, tasks: u64) -> Option<u64>
    requires table { (seat.old.table_id ≡ table.now.shared.table_id) × (table.now.shared.table_id.words ≡ 1)
        × (table.now.shared.key ≡ tasks) }
    requires share { (0 < seat.old.me.0.shares) × (seat.old.me.1 ≡ []) }
    ensures seat { (seat.new.table_id ≡ seat.old.table_id) × (seat.new.me.1 ≡ []) }
    ensures some { IfSome result (λ n. (n < tasks) × All (λ x. x < n) seat.old.me.0.drawn
        × (seat.new.me.0 ≡ drew (saw seat.old.me.0 seat.new.me.0.floor) n)) }
    ensures none { IfNone result ((tasks ≤ seat.new.me.0.floor)
        × (seat.new.me.0 ≡ saw seat.old.me.0 seat.new.me.0.floor)) }
{
    for _ in rt.forever() {
        let next = table.shared.load::<Looks>(seat, 0);
        if next >= tasks {
            return None;
        }
        let found = table
            .shared
            .compare_exchange::<Draws>(seat, 0, next, next + 1);
        if found == next {
            return Some(found);
        }
    }
    unreachable!()
}
