//! A pass: workers share the board by a turn, draw the tasks one after another, and work each off.
//! Where memory is wanting the board comes back with what was joined.

ghost use Rattle.std.specs.Prelude.{◌≡◌, ◌<◌, ◌≤◌, ◌^◌, IfOk, IfErr, false, length};
ghost use Rattle.std.specs.Prelude.{vec_capacity, vec_len};
ghost use Rattle.route_lattice.specs.Fits.{FitsDesign};
ghost use Rattle.board_turn.specs.Turns.{passes_of, opening};
ghost use Rattle.searcher_pool.specs.Passes.{IsPassed, Grows, pass_from, IsTask};
ghost use Rattle.searcher_pool.specs.Inputs.{pass_of, AreMaps, CanPass};
ghost use Rattle.searcher_pool.specs.inner.Workers.{AreBuffers};
ghost use Rattle.board_offers.specs.declared.offer.TheConstants.{CLOSER};

use crate::input::{PassInput, PassMaps};
use crate::log::WorkerLog;
use crate::pool::Pool;
use crate::threads::{Workers, searches};
use board_turn::{Claimer, Counter, Gate, Pass, Turn};
use pcb_board::{Board, PassBack};
use route_lattice::Lattice;
use route_plan::fixed_maps;
use std::alloc::{AllocError, Global};
use std::sync::Wait;
use std::thread::Threads;
use wave_search::Search;

/// Memory for each worker's searches, room for workers and logs, and the seats at the counter of tasks that no worker
/// has.
#[derive(Drop)]
pub(crate) struct Buffers {
    pub searches: Vec<Search>,
    pub workers: Workers,
    pub logs: Vec<WorkerLog>,
    pub own_claimer: Claimer,
}

// The buffers of a pass, and the counter of its tasks.
fn make_buffers(alloc: Global, input: PassInput<'_>) -> Result<(Buffers, Counter), AllocError>
    ensures { IfOk result (λ r. AreBuffers (pass_of input.entry) r.1 r.0
        × (r.1.tasks ≡ length (pass_of input.entry).tasks)) }
{
    let searches = searches(alloc, input.workers, input.lat.count(), input.pattern)?;
    let workers = Vec::with_capacity(alloc, input.workers as usize)?;
    let logs = Vec::with_capacity(alloc, input.workers as usize)?;
    let (counter, own_claimer) = Counter::new(alloc, input.tasks.len() as u64)?;
    let buffers = Buffers {
        searches,
        workers,
        logs,
        own_claimer,
    };
    Ok((buffers, counter))
}

impl<'a, G: Gate + Sync> Pool<'a, G> {
    // The pass, once there is room for all. Says whether memory was wanting to a worker.
    fn work_and_close<R: Threads + Wait + Sync>(
        self,
        rt: &R,
        alloc: Global,
        mut passes: Vec<Pass>,
        mut buffers: Buffers,
    ) -> (Board, Vec<WorkerLog>, bool)
        requires passes { (passes.items ≡ passes_of self.turn 0 (vec_len passes))
            × (vec_len passes ≡ self.pass.workers) × (self.pass.workers ≤ vec_capacity passes) }
        requires buffers { AreBuffers self.pass self.counter buffers }
        ensures grows { Grows self.entry.pass (opening self.entry.turn) result.0 }
        ensures passed { result.2 ≡ false
            → IsPassed self.entry.pass (opening self.entry.turn) result.0 result.1.items }
    {
        self.keeps();
        self.make_workers(alloc, &mut passes, &mut buffers);
        self.run_workers(rt, alloc, &mut buffers.workers);
        let failed = self.collect_logs(&mut passes, &mut buffers);
        let Pool {
            input: _,
            turn,
            counter,
            gate: _,
        } = self;
        let Buffers {
            searches: _,
            workers: _,
            logs,
            own_claimer,
        } = buffers;
        let board = turn.close(passes);
        if failed {
            return (board, logs, true);
        }
        counter.finish(own_claimer);
        (board, logs, false)
    }
}

/// `run_pass` by what is given of it, the maps that were made before it among that.
///
/// # Errors
///
/// Where memory is wanting the board comes back with what was joined.
pub fn run_pass_from<R: Threads + Wait + Sync, G: Gate + Sync>(
    rt: &R,
    alloc: Global,
    board: Board,
    input: PassInput<'_>,
    gate: &G,
) -> Result<(Board, Vec<WorkerLog>), PassBack>
    requires input { CanPass input board }
    ensures ok { IfOk result (λ r. IsPassed (pass_of input.entry) board r.0 r.1.items) }
    ensures back { IfErr result (λ e. Grows (pass_of input.entry) board e.board) }
{
    board.keeps();
    let (buffers, counter) = match make_buffers(alloc, input) {
        Ok(made) => made,
        Err(cause) => return Err(PassBack { board, cause }),
    };
    let (turn, passes) = match Turn::new(alloc, board, input.workers) {
        Ok(made) => made,
        Err(back) => {
            drop((buffers, counter));
            return Err(back);
        }
    };
    let pool = Pool {
        input,
        turn,
        counter,
        gate,
    };
    let (board, logs, failed) = pool.work_and_close(rt, alloc, passes, buffers);
    if failed {
        return Err(PassBack {
            board,
            cause: AllocError,
        });
    }
    Ok((board, logs))
}

// The maps of a pass before which none were made: those of the design's fixed items, where there is a penalty.
fn maps_for(
    alloc: Global,
    lat: &Lattice,
    board: &Board,
    penalty: Option<u64>,
) -> Result<PassMaps, AllocError>
    requires { FitsDesign board.now.design lat.now }
    ensures { IfOk result (AreMaps lat.now board.now) }
{
    board.keeps();
    let fixed = match penalty {
        Some(_) => Some(fixed_maps(alloc, lat, board.design())?),
        None => None,
    };
    Ok(PassMaps {
        mapped: None,
        fixed,
    })
}

/// Makes one pass of so many workers over the tasks, which are nets, with a penalty in nm or without; a via costs
/// `via_cost` nm. Each worker works in a thread of its own, or where none can be started in the caller's.
///
/// # Errors
///
/// Where memory is wanting the board comes back with what was joined.
pub fn run_pass<R: Threads + Wait + Sync, G: Gate + Sync>(
    rt: &R,
    alloc: Global,
    board: Board,
    lat: &Lattice,
    via_cost: u64,
    workers: u32,
    tasks: Vec<u32>,
    penalty: Option<u64>,
    gate: &G,
) -> Result<(Board, Vec<WorkerLog>), PassBack>
    requires workers { (1 ≤ workers) × (workers ≤ CLOSER) }
    requires task { IsTask (pass_from lat.now via_cost workers tasks.items penalty) board.design }
    requires few { vec_len tasks < 2 ^ 32 }
    ensures ok { IfOk result
        (λ r. IsPassed (pass_from lat.now via_cost workers tasks.items penalty) board r.0 r.1.items) }
    ensures back { IfErr result
        (λ e. Grows (pass_from lat.now via_cost workers tasks.items penalty) board e.board) }
{
    let maps = match maps_for(alloc, lat, &board, penalty) {
        Ok(maps) => maps,
        Err(cause) => {
            drop(tasks);
            return Err(PassBack { board, cause });
        }
    };
    let input = PassInput {
        lat,
        via_cost,
        workers,
        tasks: tasks.as_slice(),
        penalty,
        pattern: 0,
        maps: &maps,
    };
    let passed = run_pass_from(rt, alloc, board, input, gate);
    drop((maps, tasks));
    passed
}
