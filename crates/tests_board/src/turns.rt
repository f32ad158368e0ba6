//! Two passes over one board.

ghost use Rattle.std.specs.Prelude.{◌≡◌, IfSome};
ghost use Rattle.board_turn.specs.Turns.{count_of};

use crate::board::opened;
use crate::offer_board::{CROSS, Join, across, along, offer_of};
use board_turn::{Pass, Turn};
use pcb_board::{Answer, Board};
use pcb_model::Copper;
use std::alloc::Global;
use std::process::Abort;
use std::sync::Wait;

/// A turn over the board of two nets that cross, and its two passes, or None where memory is wanting.
fn start(alloc: Global) -> Option<(Turn, Pass, Pass)>
    ensures { IfSome result (λ r. (r.1.turn ≡ r.0) × (r.2.turn ≡ r.0) × (count_of r.0 ≡ 2)) }
{
    let board = opened(alloc, CROSS)?;
    let (turn, mut passes) = Turn::new(alloc, board, 2).ok()?;
    let second = passes.pop()?;
    let first = passes.pop()?;
    Some((turn, first, second))
}

/// What the board answers to the offer, or None where memory is wanting.
fn answer<R: Wait>(
    rt: &R,
    alloc: Global,
    turn: &Turn,
    pass: &mut Pass,
    join: &Join,
) -> Option<Answer>
    requires { pass.old.turn ≡ turn.now }
    ensures { pass.new.turn ≡ pass.old.turn }
{
    match offer_of(alloc, join) {
        Ok(offer) => turn.offer(rt, pass, offer).ok(),
        Err(_) => None,
    }
}

/// The board, or None where memory is wanting.
fn close(alloc: Global, turn: Turn, first: Pass, second: Pass) -> Option<Board>
    requires turns { (first.turn ≡ turn) × (second.turn ≡ turn) }
    requires count { count_of turn ≡ 2 }
{
    let mut passes = Vec::with_capacity(alloc, 2).ok()?;
    passes.push_reserved(second);
    passes.push_reserved(first);
    Some(turn.close(passes))
}

/// Whether a pass sees one entry and the wire that it laid.
fn is_seen<R: Wait>(rt: &R, turn: &Turn, pass: &mut Pass) -> bool
    requires { pass.old.turn ≡ turn.now }
    ensures { pass.new.turn ≡ pass.old.turn }
{
    match turn.snap(rt, pass) {
        Ok(snap) => snap.number() == 1 && snap.item(5).is_some(),
        Err(_) => false,
    }
}

/// What the board answers to the first pass's wire and to the second pass's, which comes too late; whether the second
/// pass sees the wire between; and how many entries the board has at the end.
fn seen<R: Wait + Abort>(rt: &R, alloc: Global) -> ([Option<Answer>; 2], bool, usize) {
    let (turn, mut first, mut second) = start(alloc).expect(rt, "no turn");
    let taken = answer(rt, alloc, &turn, &mut first, &along(0));
    let seen = is_seen(rt, &turn, &mut second);
    let late = answer(rt, alloc, &turn, &mut second, &across(0, &[]));
    let board = close(alloc, turn, first, second).expect(rt, "no board");
    ([taken, late], seen, board.history().len())
}

#[test]
fn a_pass_sees_what_the_other_committed(rt: HostRuntime) {
    let taken = Some(Answer::Committed { number: 1 });
    let late = Some(Answer::Stale { item: 5, commit: 1 });
    assert!(rt; seen(&rt, rt.alloc()) == ([taken, late], true, 1));
}
