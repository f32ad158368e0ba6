//! Several starts: where connections stay open, a further run is made from the same start board under another pattern
//! of ties, and the better of the two is handed back.

ghost use Rattle.std.specs.Prelude.{◌≡◌, ◌⊎◌, ◌^◌, IfOk, Ok};
ghost use Rattle.pcb_model.specs.Sound.{IsSound};
ghost use Rattle.pcb_board.specs.Keeping.{IsStarted};
ghost use Rattle.route_run.specs.Runs.{IsRun, IsSomeRun};
ghost use Rattle.route_run.specs.Inputs.{CanRun, run_of};
ghost use Rattle.route_run.specs.inner.Passing.{IsNew};
ghost use Rattle.route_run.specs.inner.States.{IsOnTheWay};

use crate::facts::Facts;
use crate::input::RunInput;
use crate::passes::Passes;
use crate::run::{Routed, Start, run_on, run_under, start_of};
use crate::trials::{best_trial, enough_behind};
use board_turn::Gate;
use cut_certificate::{Blocker, Cut};
use geo_kernel::List;
use pcb_board::Board;
use pcb_model::Design;
use std::alloc::{AllocError, Global};
use std::sync::Wait;
use std::thread::Threads;

/// An equal start.
fn copy_of(alloc: Global, start: &Start) -> Result<Start, AllocError>
    ensures board { IfOk result (λ s. s.board ≡ start.now.board) }
    ensures dropped { IfOk result (λ s. s.dropped ≡ start.now.dropped) }
{
    let dropped = List::from_slice(alloc, start.dropped.as_slice())?;
    match start.board.copy() {
        Ok(board) => Ok(Start { board, dropped }),
        Err(error) => {
            drop(dropped);
            Err(error)
        }
    }
}

// How many nets aren't complete.
fn parted_nets(routed: &Routed) -> usize {
    let nets = routed.board.design().nets.len();
    nets.saturating_sub(routed.facts.complete.len())
}

// How many connections are open: the islands that have a cut, less one for each net that isn't complete.
fn open_count(routed: &Routed) -> usize {
    routed.facts.cuts.len().saturating_sub(parted_nets(routed))
}

// Whether a routed item, one behind the design's fixed ones, shuts some move that leads out of the cut.
fn has_routed_block(cut: &Cut, fixed: u64) -> bool {
    for block in cut.blocked.as_slice() {
        if let Blocker::Item(id) = block.by {
            if fixed <= id {
                return true;
            }
        }
    }
    false
}

// Whether two islands of one net aren't shut in by fixed copper alone. One that is can be joined by no run.
fn has_loose_islands(routed: &Routed) -> bool {
    let fixed = routed.board.design().fixed.len() as u64;
    let mut last = None;
    for cut in routed.facts.cuts.as_slice() {
        if has_routed_block(cut, fixed) {
            if last == Some(cut.net) {
                return true;
            }
            last = Some(cut.net);
        }
    }
    false
}

// Whether the passes ended at the kept board with one that could rip and made no entry: fixed copper alone then shuts
// in the first island of each net that was open.
fn is_stuck(facts: &Facts) -> bool {
    let count = facts.passes.len() as u64;
    match facts.passes.as_slice().last() {
        Some(line) => 2 <= count && line.commits == 0 && count <= u64::from(facts.kept) + 1,
        None => false,
    }
}

// Whether another run may leave less open. None may where each open net has two islands of which fixed copper shuts in
// one.
fn may_gain(routed: &Routed) -> bool {
    let are_pairs = routed.facts.cuts.len() == parted_nets(routed).saturating_mul(2);
    has_loose_islands(routed) && !(are_pairs && is_stuck(&routed.facts))
}

// The same run by one worker.
fn alone(input: RunInput<'_>) -> RunInput<'_>
    ensures { result ≡ record input.entry { workers = 1 } }
{
    RunInput {
        lat: input.lat,
        via_cost: input.via_cost,
        workers: 1,
        passes: input.passes,
        tries: input.tries,
        diagonal: input.diagonal,
    }
}

// Of the trials by one worker over a new board, of which so many are made side by side, the one that left the least
// open.
fn best_begun<'a, R: Threads + Wait + Sync, G: Gate + Sync>(
    rt: &R,
    alloc: Global,
    input: RunInput<'a>,
    board: Board,
    enough: u64,
    gate: &G,
) -> Result<Passes<'a>, AllocError>
    requires new { IsNew input board }
    ensures { IfOk result (IsOnTheWay (record input.entry { workers = 1 }) board) }
{
    let begun = Passes::begin(alloc, alone(input), board, 0)?;
    best_trial(rt, alloc, &begun, input.workers, enough, gate)
}

// A run by one worker, under the pattern whose trial left the least open. The passes of that trial are its first ones,
// and aren't made again.
fn further_run<R: Threads + Wait + Sync, G: Gate + Sync>(
    rt: &R,
    alloc: Global,
    input: RunInput<'_>,
    start: Start,
    enough: u64,
    gate: &G,
) -> Result<Routed, AllocError>
    requires begun { IsStarted start.board.design (2 ^ 19) start.board start.dropped }
    requires input { CanRun input start.board.design }
    ensures { IfOk result
        (λ r. IsSomeRun start.board.design input.entry.lat.now (run_of input.entry) r.board r.facts) }
{
    let Start { board, dropped } = start;
    match best_begun(rt, alloc, input, board, enough, gate) {
        Ok(passes) => run_on(rt, alloc, alone(input), passes, dropped, gate),
        Err(error) => {
            drop(dropped);
            Err(error)
        }
    }
}

// The one of two runs that leaves less open, of equal ones the first; the first where there is no other.
fn better_run(first: Routed, other: Result<Routed, AllocError>) -> Routed
    ensures { (result ≡ first) ⊎ (other ≡ Ok result) }
{
    match other {
        Ok(other) => {
            if open_count(&other) < open_count(&first) {
                drop(first);
                other
            } else {
                drop(other);
                first
            }
        }
        Err(_) => first,
    }
}

// A run, and where it leaves connections open that another may join, a further run; the better of the two.
fn run_twice<R: Threads + Wait + Sync, G: Gate + Sync>(
    rt: &R,
    alloc: Global,
    input: RunInput<'_>,
    start: Start,
    gate: &G,
) -> Result<Routed, AllocError>
    requires begun { IsStarted start.board.design (2 ^ 19) start.board start.dropped }
    requires input { CanRun input start.board.design }
    ensures { IfOk result
        (λ r. IsSomeRun start.board.design input.entry.lat.now (run_of input.entry) r.board r.facts) }
{
    let spare = copy_of(alloc, &start)?;
    let first = match run_under(rt, alloc, input, start, 0, gate) {
        Ok(first) => first,
        Err(error) => {
            drop(spare);
            return Err(error);
        }
    };
    if !may_gain(&first) {
        drop(spare);
        return Ok(first);
    }
    let enough = enough_behind(first.facts.passes.as_slice());
    let other = further_run(rt, alloc, input, spare, enough, gate);
    Ok(better_run(first, other))
}

/// `run_nets`, and where connections stay open that routed copper shuts, and more than one pass may be made, a further
/// run from the same start board; the one that leaves less open is handed back. The only error is want of memory.
pub fn run_best<R: Threads + Wait + Sync, G: Gate + Sync>(
    rt: &R,
    alloc: Global,
    input: RunInput<'_>,
    design: Design,
    gate: &G,
) -> Result<Routed, AllocError>
    requires sound { IsSound design }
    requires input { CanRun input design }
    ensures { IfOk result (λ r. IsSomeRun design input.entry.lat.now (run_of input.entry) r.board r.facts) }
{
    let start = start_of(alloc, design)?;
    if input.passes <= 1 {
        return run_under(rt, alloc, input, start, 0, gate);
    }
    run_twice(rt, alloc, input, start, gate)
}
