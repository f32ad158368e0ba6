//! The ticket lock: a word for the next ticket and one for the ticket that is served, and the board between turns.
//! Mellor-Crummey and Scott, Algorithms for scalable synchronization on shared-memory multiprocessors, ACM TOCS 9(1),
//! 1991, section 2.2.

ghost use Rattle.std.specs.Prelude.{◌≡◌};
ghost use Rattle.board_turn.specs.Events.{Does, Reaches};
ghost use Rattle.board_turn.specs.inner.Lock.{with_event};
ghost use Rattle.board_turn.specs.Seats.{pass_at, HasRole, HasBoardOut, HasTaken, action_of};
ghost use Rattle.board_turn.specs.declared.lock.Role.TheVariants.{Free, Waits};
ghost use Rattle.pcb_board.specs.Boards.{BoardOf};

use crate::event::Event;
use atomic_table::{Join, Play, Seat, Split, Table, TableRule};
use crossbeam_utils::Backoff;
use pcb_board::{Answer, Board, Offer};
use std::alloc::Global;
use std::collections::LinkedList;
use std::marker::{Brand, PhantomData};
use std::snapshot::Snapshot;
use std::sync::Wait;

/// What a turn begins with: the board, and how many passes there are.
#[derive(Drop)]
pub struct Opening {
    pub board: Snapshot<Board>,
    pub count: u32,
}

/// A pass by its name, and all events that it has seen. No value of it is made.
pub struct PassView {
    pub name: u32,
    pub seen: LinkedList<Event>,
}

/// Whether a seat waits with a ticket, or holds the board by it. No value of it is made.
pub enum Role {
    Free,
    Waits(u64),
    Holds(u64),
}

/// What a seat knows: its passes, the opening, and its role. No value of it is made.
pub struct View {
    pub passes: LinkedList<PassView>,
    pub opening: Option<Opening>,
    pub role: Role,
}

/// What holds of the words, the board's slot and the seats' views after each step.
pub struct TicketLock;

impl TableRule<Option<Board>, View, Opening> for TicketLock {
    ghost use Rattle.board_turn.specs.declared.lock.Role.TheVariants.{Free};
    ghost use Rattle.board_turn.specs.Lock.{view_of};
    ghost use Rattle.board_turn.specs.inner.Lock.{Kept, new_passes};

    ghost holds = { Kept };

    ghost first = { λ k. view_of k (new_passes 0 k.count) Free };
}

/// The first pass of a seat goes to a new one.
pub(crate) struct SplitsFirst;

impl Split<View> for SplitsFirst {
    ghost use Rattle.board_turn.specs.inner.Lock.{without_first, first_alone};

    ghost left = { without_first };

    ghost right = { first_alone };
}

/// All passes of a seat go to another one.
pub(crate) struct JoinsAll;

impl Join<View> for JoinsAll {
    ghost use Rattle.board_turn.specs.inner.Lock.{both_views, no_passes};

    ghost both = { both_views };

    ghost spent = { no_passes };
}

/// Reads a word, and learns nothing.
struct Reads;

impl Play<Option<Board>, View> for Reads {
    ghost use Rattle.board_turn.specs.inner.Lock.{Reads};

    ghost then = { Reads };
}

/// Draws the next ticket.
struct Draws;

impl Play<Option<Board>, View> for Draws {
    ghost use Rattle.board_turn.specs.inner.Lock.{Draws};

    ghost then = { Draws };
}

/// Looks which ticket is served, and takes the board where it is the seat's own.
struct Looks;

impl Play<Option<Board>, View> for Looks {
    ghost use Rattle.board_turn.specs.inner.Lock.{Looks};

    ghost then = { Looks };
}

/// An action, picked at a call.
pub(crate) trait Noted {
    ghost use Rattle.board_turn.specs.declared.event.Action.{Action};

    ghost action: { Action };
}

impl Noted for Brand {
    ghost use Rattle.board_turn.specs.declared.event.Action.TheVariants.{NoMemory};

    ghost action = { NoMemory };
}

/// Notes an action, gives the board back, and serves the next ticket.
struct Advances<E> {
    noted: PhantomData<E>,
}

impl<E: Noted> Play<Option<Board>, View> for Advances<E> {
    ghost use Rattle.board_turn.specs.inner.Lock.{Advances};

    ghost then = { Advances E.action };
}

pub(crate) type Lock = Table<Option<Board>, View, Opening, TicketLock, Global>;

pub(crate) type LockSeat = Seat<Option<Board>, View>;

/// What a pass did, with the offer as it was before the board took it.
#[derive(Drop)]
pub(crate) enum Outcome {
    Snapped,
    Offered(Snapshot<Offer>, Answer),
    NoMemory,
}

/// Draws a ticket.
pub(crate) fn draw_ticket<R: Wait>(rt: &R, lock: &Lock, seat: &mut LockSeat) -> u64
    requires lock { (seat.old.table_id ≡ lock.now.shared.table_id) × (lock.now.shared.table_id.words ≡ 2) }
    requires seat { HasRole lock.now.shared.key Free seat.old.me }
    ensures { (seat.new.table_id ≡ seat.old.table_id) × HasRole lock.now.shared.key (Waits result) seat.new.me
        × (pass_at seat.new.me ≡ pass_at seat.old.me) }
{
    for _ in rt.forever() {
        let next = lock.shared.load::<Reads>(seat, 0);
        if next < u64::MAX {
            let found = lock
                .shared
                .compare_exchange::<Draws>(seat, 0, next, next + 1);
            if found == next {
                return found;
            }
        }
    }
    unreachable!()
}

/// Waits until the ticket is served, and takes the board. A wait that lasts gives the processor to other threads.
pub(crate) fn take_board<R: Wait>(rt: &R, lock: &Lock, seat: &mut LockSeat, ticket: u64) -> Board
    requires lock { (seat.old.table_id ≡ lock.now.shared.table_id) × (lock.now.shared.table_id.words ≡ 2) }
    requires seat { HasRole lock.now.shared.key (Waits ticket) seat.old.me }
    ensures seat { (seat.new.table_id ≡ seat.old.table_id)
        × HasBoardOut lock.now.shared.key ticket seat.new.me }
    ensures taken { HasTaken lock.now.shared.key (pass_at seat.old.me) (pass_at seat.new.me) result }
{
    let backoff = Backoff::new();
    for _ in rt.forever() {
        let served = lock.shared.load::<Looks>(seat, 1);
        if served == ticket {
            return lock.shared.exchange(seat, 0, None).unwrap();
        }
        backoff.snooze();
    }
    unreachable!()
}

// Notes what was done, gives the board back, and serves the next ticket.
fn advance<E: Noted>(lock: &Lock, seat: &mut LockSeat, ticket: u64, board: Board, outcome: &Outcome)
    requires lock { (seat.old.table_id ≡ lock.now.shared.table_id) × (lock.now.shared.table_id.words ≡ 2) }
    requires seat { HasBoardOut lock.now.shared.key ticket seat.old.me }
    requires noted { action_of outcome.now ≡ E.action }
    requires did { (b : BoardOf) × Reaches lock.now.shared.key.board.value (pass_at seat.old.me).seen b
        × Does b (action_of outcome.now) board }
    ensures { (seat.new.table_id ≡ seat.old.table_id) × HasRole lock.now.shared.key Free seat.new.me
        × (pass_at seat.new.me ≡ with_event (pass_at seat.old.me) (action_of outcome.now)) }
{
    let empty = lock.shared.exchange(seat, 0, Some(board));
    drop(empty);
    lock.shared.fetch_add::<Advances<E>>(seat, 1, 1);
}

/// Ends a call: what the pass did becomes the next event, and the board goes to the next ticket.
pub(crate) fn end_call(
    lock: &Lock,
    seat: &mut LockSeat,
    ticket: u64,
    board: Board,
    outcome: Outcome,
)
    requires lock { (seat.old.table_id ≡ lock.now.shared.table_id) × (lock.now.shared.table_id.words ≡ 2) }
    requires seat { HasBoardOut lock.now.shared.key ticket seat.old.me }
    requires did { (b : BoardOf) × Reaches lock.now.shared.key.board.value (pass_at seat.old.me).seen b
        × Does b (action_of outcome) board }
    ensures { (seat.new.table_id ≡ seat.old.table_id) × HasRole lock.now.shared.key Free seat.new.me
        × (pass_at seat.new.me ≡ with_event (pass_at seat.old.me) (action_of outcome)) }
{
    advance::<Brand>(lock, seat, ticket, board, &outcome);
}
