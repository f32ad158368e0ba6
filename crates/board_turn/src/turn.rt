//! A turn over a board, and its passes.
//! Each call of a pass waits for its ticket, has the board for itself, and is one event.

ghost use Rattle.std.specs.Prelude.{◌≡◌, ◌<◌, ◌≤◌, vec_capacity, vec_len, All, map, [], IfOk, IfErr};
ghost use Rattle.pcb_board.specs.Boards.{BoardOf};
ghost use Rattle.pcb_board.specs.Answers.{Step, snap_of};
ghost use Rattle.board_turn.specs.declared.event.Action.TheVariants.{Snapped, Offered, NoMemory};
ghost use Rattle.board_turn.specs.declared.lock.Role.TheVariants.{Free};
ghost use Rattle.board_turn.specs.Lock.{view_of};
ghost use Rattle.board_turn.specs.inner.Lock.{new_passes};
ghost use Rattle.board_turn.specs.Turns.{Calls, Ended, passes_of, turn_of, opening, count_of};
ghost use Rattle.board_turn.specs.Seats.{pass_of};
ghost use Rattle.board_offers.specs.declared.offer.TheConstants.{CLOSER};

use crate::lock::{
    JoinsAll, Lock, LockSeat, Opening, Outcome, SplitsFirst, draw_ticket, end_call, take_board,
};
use atomic_table::Refused;
use pcb_board::{Answer, Board, Offer, OfferBack, PassBack, Snap};
use std::alloc::{AllocError, Global};
use std::marker::Model;
use std::snapshot::Snapshot;
use std::sync::Wait;

/// The board, for those who have a pass. Contracts see which turn it is, its opening board and the number of its
/// passes.
#[derive(Drop)]
pub struct Turn {
    lock: Lock,
}

impl Model for Turn {
    ghost use Rattle.std.specs.Prelude.{◌≡◌};
    ghost use Rattle.board_turn.specs.Turns.{TurnOf};

    ghost Value = { TurnOf };

    ghost view = { λ t. record { table = t.lock.shared.table_id; key = t.lock.shared.key } };

    ghost invariant = { λ t. (t.lock.shared.table_id.words ≡ 2) × (t.lock.shared.table_id.slots ≡ 1) };
}

/// The right to take turns. Contracts see its turn, its name, and the events that it has seen.
#[derive(Drop)]
pub struct Pass {
    seat: LockSeat,
}

impl Model for Pass {
    ghost use Rattle.board_turn.specs.declared.lock.Role.TheVariants.{Free};
    ghost use Rattle.board_turn.specs.Turns.{PassOf};
    ghost use Rattle.board_turn.specs.Seats.{pass_of, key_of, pass_at, HasRole};

    ghost Value = { PassOf };

    ghost view = { λ p. pass_of p.seat.table_id (key_of p.seat.me.0.opening) (pass_at p.seat.me) };

    ghost invariant = { λ p. HasRole (key_of p.seat.me.0.opening) Free p.seat.me };
}

impl Turn {
    /// A turn over a board, and that many passes, named from 0 on. The board comes back only for want of memory.
    pub fn new(alloc: Global, board: Board, count: u32) -> Result<(Turn, Vec<Pass>), PassBack>
        requires { (0 < count) × (count ≤ CLOSER) }
        ensures ok { IfOk result (λ r. (opening r.0 ≡ board) × (count_of r.0 ≡ count)
            × (r.1.items ≡ passes_of r.0 0 count) × (vec_len r.1 ≡ count) × (count ≤ vec_capacity r.1)) }
        ensures err { IfErr result (λ e. e.board ≡ board) }
    {
        let Ok(mut passes) = Vec::with_capacity(alloc, count as usize) else {
            return Err(PassBack {
                board,
                cause: AllocError,
            });
        };
        let Ok(mut slots) = Vec::with_capacity(alloc, 1) else {
            return Err(PassBack {
                board,
                cause: AllocError,
            });
        };
        let opening = Opening {
            board: Snapshot::of(&board),
            count,
        };
        slots.push_reserved(Some(board));
        match Lock::new(alloc, &[0, 0], slots, &opening) {
            Ok((lock, seat)) => {
                hand_out(&lock, seat, &mut passes, count);
                Ok((Turn { lock }, passes))
            }
            Err(Refused { mut slots }) => {
                let board = slots.pop().unwrap().unwrap();
                slots.destroy_empty();
                Err(PassBack {
                    board,
                    cause: AllocError,
                })
            }
        }
    }

    /// The board, where all passes come back. What they have seen tells all that was done with it.
    pub fn close(self, passes: Vec<Pass>) -> Board
        requires all { All (λ p. p.turn ≡ self) passes.items }
        requires count { (vec_len passes ≡ count_of self) × (0 < count_of self) }
        ensures { Ended self passes.items result }
    {
        let Turn { lock } = self;
        let seat = join_passes(&lock, passes);
        let mut closed = lock.close_with(seat);
        let board = closed.take(0).unwrap();
        closed.free();
        board
    }

    /// A snapshot of the board that all events before this one leave. `AllocError` comes only for want of memory; that
    /// too is an event.
    pub fn snap<R: Wait>(&self, rt: &R, pass: &mut Pass) -> Result<Snap, AllocError>
        requires { pass.old.turn ≡ self.now }
        ensures ok { IfOk result (λ s. (b : BoardOf) × Calls pass.old pass.new Snapped b × (s ≡ snap_of b)) }
        ensures err { IfErr result (λ _. (b : BoardOf) × Calls pass.old pass.new NoMemory b) }
    {
        let ticket = draw_ticket(rt, &self.lock, &mut pass.seat);
        let board = take_board(rt, &self.lock, &mut pass.seat, ticket);
        match board.snap() {
            Ok(snap) => {
                end_call(&self.lock, &mut pass.seat, ticket, board, Outcome::Snapped);
                Ok(snap)
            }
            Err(cause) => {
                end_call(&self.lock, &mut pass.seat, ticket, board, Outcome::NoMemory);
                Err(cause)
            }
        }
    }

    /// Makes an offer, on the board that all events before this one leave. Where memory is wanting the offer comes
    /// back; that too is an event.
    pub fn offer<R: Wait>(&self, rt: &R, pass: &mut Pass, offer: Offer) -> Result<Answer, OfferBack>
        requires { pass.old.turn ≡ self.now }
        ensures ok { IfOk result (λ a. (b : BoardOf) × (c : BoardOf) × Calls pass.old pass.new (Offered offer a) b
            × Step b offer a c) }
        ensures err { IfErr result (λ e. (e.offer ≡ offer)
            × ((b : BoardOf) × Calls pass.old pass.new NoMemory b)) }
    {
        let asked = Snapshot::of(&offer);
        let ticket = draw_ticket(rt, &self.lock, &mut pass.seat);
        let mut board = take_board(rt, &self.lock, &mut pass.seat, ticket);
        match board.offer(offer) {
            Ok(answer) => {
                let outcome = Outcome::Offered(asked, answer);
                end_call(&self.lock, &mut pass.seat, ticket, board, outcome);
                Ok(answer)
            }
            Err(back) => {
                let outcome = Outcome::NoMemory;
                end_call(&self.lock, &mut pass.seat, ticket, board, outcome);
                Err(back)
            }
        }
    }
}

// Gives each pass its seat, in the order of their names.
fn hand_out(lock: &Lock, mut seat: LockSeat, passes: &mut Vec<Pass>, count: u32)
    requires lock { (seat.table_id ≡ lock.now.shared.table_id) × (lock.now.shared.table_id.words ≡ 2) }
    requires seat { seat.me ≡ (view_of lock.now.shared.key (new_passes 0 count) Free, []) }
    requires room { (passes.old.items ≡ []) × (vec_len passes.old ≡ 0) × (count ≤ vec_capacity passes.old)
        × (0 < count) × (count ≤ CLOSER) }
    ensures passes { passes.new.items
        ≡ passes_of (turn_of lock.now.shared.table_id lock.now.shared.key) 0 count }
    ensures len { (vec_len passes.new ≡ count) × (count ≤ vec_capacity passes.new) }
{
    'names: for _i in 0..count - 1 {
        passes.push_reserved(Pass {
            seat: lock.shared.split_seat::<SplitsFirst>(&mut seat),
        });
    }
    passes.push_reserved(Pass { seat });
}

// One seat for all passes.
fn join_passes(lock: &Lock, mut passes: Vec<Pass>) -> LockSeat
    requires lock { lock.now.shared.table_id.words ≡ 2 }
    requires all { All (λ p. p.turn ≡ turn_of lock.now.shared.table_id lock.now.shared.key) passes.items }
    requires some { 0 < vec_len passes }
    ensures { (result.table_id ≡ lock.now.shared.table_id) × (result.me.1 ≡ []) × (result.me.0.role ≡ Free)
        × (map (pass_of lock.now.shared.table_id lock.now.shared.key) result.me.0.passes ≡ passes.items) }
{
    let Pass { mut seat } = passes.pop().unwrap();
    while let Some(pass) = passes.pop() {
        let Pass { seat: other } = pass;
        lock.shared.join_seat::<JoinsAll>(&mut seat, other);
    }
    passes.destroy_empty();
    seat
}
