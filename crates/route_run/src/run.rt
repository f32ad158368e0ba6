//! Routing of a design on a lattice, in order: start, passes, the way back to the best one, closing pass.
//! What is left are the board and the facts that are told of the run.

ghost use Rattle.std.specs.Prelude.{◌≡◌, ◌≤◌, ◌^◌, IfOk, flat_map, length, List as Seq};
ghost use Rattle.pcb_model.specs.Sound.{IsSound};
ghost use Rattle.pcb_board.specs.Keeping.{IsStarted};
ghost use Rattle.cut_certificate.specs.declared.cut.Cut.{Cut as OneCut};
ghost use Rattle.route_run.specs.Runs.{IsRun, IsTask, complete_from};
ghost use Rattle.route_run.specs.Inputs.{CanRun, run_of};
ghost use Rattle.route_run.specs.inner.Passing.{IsFinished, IsKept, IsShutOut, routed_of};
ghost use Rattle.route_run.specs.inner.States.{HasBegun};

use crate::facts::{Facts, PassLine, all_cuts, complete_nets};
use crate::input::RunInput;
use crate::keep::{best_of, go_back};
use crate::passes::Passes;
use board_turn::Gate;
use closing_pass::{Closed, close_out};
use cut_certificate::Cut;
use geo_kernel::List;
use pcb_board::{Board, PassBack};
use pcb_model::Design;
use route_lattice::Lattice;
use std::alloc::{AllocError, Global};
use std::sync::Wait;
use std::thread::Threads;
use wide_pass::{Wide, close_wide};

/// As many entries of workers a board takes.
pub const MOST_ENTRIES: u64 = 524_288;

/// A board that was routed, and what is told of its run.
#[derive(Drop)]
pub struct Routed {
    pub board: Board,
    pub facts: Facts,
}

/// A board that stands at the end of the pass that is kept, with the passes' lines and the number of the kept one.
#[derive(Drop)]
pub(crate) struct Kept {
    pub board: Board,
    pub lines: List<PassLine>,
    pub kept: u32,
}

/// A new board of a design, and the places of the free wiring that wasn't legal.
#[derive(Drop)]
pub(crate) struct Start {
    pub board: Board,
    pub dropped: List<u64>,
}

/// What the closing pass left, and how far moves at 45 degrees reach from each cut, where they are asked for.
#[derive(Drop)]
pub(crate) struct Shut {
    pub closed: Closed,
    pub wide: Option<List<u64>>,
}

// Makes the rest of the passes, and goes back to the end of the best one.
fn keep_best<R: Threads + Wait + Sync, G: Gate + Sync>(
    rt: &R,
    alloc: Global,
    passes: Passes<'_>,
    gate: &G,
) -> Result<Kept, AllocError>
    ensures { IfOk result (IsKept passes.entry.lattice passes.entry.run passes.entry.board) }
{
    let (board, lines) = passes.finish(rt, alloc, gate)?;
    let kept = best_of(lines.as_slice());
    let board = go_back(board, lines.as_slice(), kept)?;
    Ok(Kept { board, lines, kept })
}

// How the nets end: the complete ones, and the cuts of the others.
fn told_ends(alloc: Global, ends: List<List<Cut>>) -> Result<(List<u32>, List<Cut>), AllocError>
    requires { length ends ≤ 2 ^ 26 }
    ensures { IfOk result (λ r. (r.0 ≡ complete_from 0 ends) × (r.1 ≡ flat_map (λ (cuts : Seq OneCut). cuts) ends)) }
{
    let complete = complete_nets(alloc, &ends)?;
    let cuts = all_cuts(alloc, ends)?;
    Ok((complete, cuts))
}

// The board and the facts of a run that the closing pass ended.
fn facts_of(
    alloc: Global,
    lat: &Lattice,
    dropped: List<u64>,
    lines: List<PassLine>,
    kept: u32,
    shut: Shut,
) -> Result<Routed, AllocError>
    requires { length shut.closed.ends ≤ 2 ^ 26 }
    ensures { IfOk result (λ r. r ≡ routed_of lat.now dropped lines kept shut) }
{
    let Shut { closed, wide } = shut;
    let Closed { board, ends, joins } = closed;
    let (complete, cuts) = match told_ends(alloc, ends) {
        Ok(told) => told,
        Err(error) => {
            drop((board, dropped, lines, wide));
            return Err(error);
        }
    };
    let facts = Facts {
        grid: lat.grid(),
        nodes: u64::from(lat.count()),
        dropped,
        passes: lines,
        kept,
        joins,
        complete,
        cuts,
        wide,
    };
    Ok(Routed { board, facts })
}

// Makes the closing pass, by rounds where moves at 45 degrees are asked for.
fn close_by(alloc: Global, input: RunInput<'_>, board: Board) -> Result<Shut, PassBack>
    requires { IsTask board.design input.lat.now input.via_cost }
    ensures { IfOk result (IsShutOut input.entry.lat.now input.entry.via_cost input.entry.tries
        input.entry.diagonal board) }
{
    if input.diagonal {
        match close_wide(alloc, board, input.lat, input.via_cost, input.tries) {
            Ok(Wide { closed, wide }) => Ok(Shut {
                closed,
                wide: Some(wide),
            }),
            Err(back) => Err(back),
        }
    } else {
        match close_out(alloc, board, input.lat, input.via_cost, input.tries) {
            Ok(closed) => Ok(Shut { closed, wide: None }),
            Err(back) => Err(back),
        }
    }
}

// Makes the closing pass, and tells of the run.
fn close_and_tell(
    alloc: Global,
    input: RunInput<'_>,
    best: Kept,
    dropped: List<u64>,
) -> Result<Routed, AllocError>
    requires { IsTask best.board.design input.lat.now input.via_cost }
    ensures { IfOk result (IsFinished input.entry.lat.now input.entry.via_cost input.entry.tries
        input.entry.diagonal best dropped) }
{
    let Kept { board, lines, kept } = best;
    match close_by(alloc, input, board) {
        Ok(shut) => {
            shut.closed.board.keeps();
            facts_of(alloc, input.lat, dropped, lines, kept, shut)
        }
        Err(back) => {
            let cause = back.cause;
            drop((back, lines, dropped));
            Err(cause)
        }
    }
}

/// The rest of a run whose passes stand here: its further passes, the way back to the best one and the closing pass.
pub(crate) fn run_on<R: Threads + Wait + Sync, G: Gate + Sync>(
    rt: &R,
    alloc: Global,
    input: RunInput<'_>,
    passes: Passes<'_>,
    dropped: List<u64>,
    gate: &G,
) -> Result<Routed, AllocError>
    requires begun { HasBegun input passes dropped }
    ensures { IfOk result (λ r. IsRun passes.entry.board.design input.entry.lat.now (run_of input.entry) r.board
        r.facts) }
{
    let best = match keep_best(rt, alloc, passes, gate) {
        Ok(best) => best,
        Err(error) => {
            drop(dropped);
            return Err(error);
        }
    };
    best.board.keeps();
    close_and_tell(alloc, input, best, dropped)
}

/// A run over a new board, the searches of whose passes prefer some of equally cheap walks by a pattern.
pub(crate) fn run_under<R: Threads + Wait + Sync, G: Gate + Sync>(
    rt: &R,
    alloc: Global,
    input: RunInput<'_>,
    start: Start,
    pattern: u32,
    gate: &G,
) -> Result<Routed, AllocError>
    requires begun { IsStarted start.board.design (2 ^ 19) start.board start.dropped }
    requires input { CanRun input start.board.design }
    ensures { IfOk result
        (λ r. IsRun start.board.design input.entry.lat.now (run_of input.entry) r.board r.facts) }
{
    let Start { board, dropped } = start;
    match Passes::begin(alloc, input, board, pattern) {
        Ok(passes) => run_on(rt, alloc, input, passes, dropped, gate),
        Err(error) => {
            drop(dropped);
            Err(error)
        }
    }
}

/// The start of a run of a design. The only error is want of memory.
pub(crate) fn start_of(alloc: Global, design: Design) -> Result<Start, AllocError>
    requires { IsSound design }
    ensures begun { IfOk result (λ s. IsStarted s.board.design (2 ^ 19) s.board s.dropped) }
    ensures design { IfOk result (λ s. s.board.design ≡ design) }
{
    let (board, dropped) = Board::start(alloc, design, MOST_ENTRIES)?;
    Ok(Start { board, dropped })
}

/// Routes the nets of a design on a lattice of it by passes and by the closing pass. The gate is called round each
/// offer of a pass. The only error is want of memory.
pub fn run_nets<R: Threads + Wait + Sync, G: Gate + Sync>(
    rt: &R,
    alloc: Global,
    input: RunInput<'_>,
    design: Design,
    gate: &G,
) -> Result<Routed, AllocError>
    requires sound { IsSound design }
    requires input { CanRun input design }
    ensures { IfOk result (λ r. IsRun design input.entry.lat.now (run_of input.entry) r.board r.facts) }
{
    let start = start_of(alloc, design)?;
    run_under(rt, alloc, input, start, 0, gate)
}
