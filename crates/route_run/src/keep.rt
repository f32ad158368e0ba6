//! The pass that is kept: the first after which the least is open.
//! Where it isn't the last one, the board goes back to its end.

ghost use Rattle.std.specs.Prelude.{◌≡◌, ◌+◌, ◌<◌, ◌≤◌, ◌^◌, IfOk, length};
ghost use Rattle.route_run.specs.Runs.{IsBest, entries_after as entries_behind};
ghost use Rattle.route_run.specs.inner.Passing.{IsBestOf, GoesBack};

use crate::facts::PassLine;
use pcb_board::{BackFault, Board};
use std::alloc::AllocError;

// Of the best so far and the next one, the better.
fn better(lines: &[PassLine], place: usize, k: usize) -> usize
    requires best { IsBestOf lines.now k place }
    requires there { k < length lines.now }
    ensures { IsBestOf lines.now (k + 1) result }
{
    if lines[k].parted < lines[place].parted {
        k
    } else {
        place
    }
}

/// The first of the passes after which the least is open, counted from 1.
pub(crate) fn best_of(lines: &[PassLine]) -> u32
    requires { (0 < length lines.now) × (length lines.now ≤ 99) }
    ensures { IsBest lines.now result }
{
    let mut place = 0;
    for k in 1..lines.len() {
        place = better(lines, place, k);
    }
    place as u32 + 1
}

// How many entries stand after the first passes.
fn entries_after(lines: &[PassLine], passes: usize) -> u64
    requires there { passes ≤ length lines.now }
    requires few { entries_behind lines.now passes < 2 ^ 64 }
    ensures { result ≡ entries_behind lines.now passes }
{
    let mut entries = 0;
    for line in &lines[..passes] {
        entries += line.commits;
    }
    entries
}

/// Takes the board back to the end of the pass that is kept, if that isn't the last one.
pub(crate) fn go_back(board: Board, lines: &[PassLine], kept: u32) -> Result<Board, AllocError>
    requires all { length board.history ≡ entries_behind lines.now (length lines.now) }
    requires kept { kept ≤ length lines.now }
    ensures { IfOk result (GoesBack lines.now kept board) }
{
    if kept as usize == lines.len() {
        return Ok(board);
    }
    let mut board = board;
    match board.back(entries_after(lines, kept as usize)) {
        Ok(()) => Ok(board),
        Err(BackFault::Memory(cause)) => Err(cause),
        Err(BackFault::Later { entries: _ }) => unreachable!(),
    }
}
