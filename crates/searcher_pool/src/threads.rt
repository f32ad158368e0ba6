//! The workers of a pass: each has a pass of the turn and a seat at the counter of tasks, and works in a thread of its
//! own. Where no thread can be started its work is done by the caller.

ghost use Rattle.std.specs.Prelude.{◌≡◌, ℕ, ◌<◌, ◌≤◌, All, IfOk, [], false, length, slice_index_or};
ghost use Rattle.std.specs.Prelude.{vec_capacity, vec_len};
ghost use Rattle.crossbeam_utils.specs.Padded.{padded_value};
ghost use Rattle.board_turn.specs.Claims.{times};
ghost use Rattle.board_turn.specs.Turns.{passes_of};
ghost use Rattle.searcher_pool.specs.Passes.{claimed};
ghost use Rattle.searcher_pool.specs.inner.Working.{MayWork, Worked};
ghost use Rattle.searcher_pool.specs.inner.Workers.{SEATS, AreBuffers, AreLent, AreFresh, AreBack, AreLogsOf, AreEnded};

use crate::log::WorkerLog;
use crate::pass::Buffers;
use crate::pool::Pool;
use crate::worker::Worker;
use board_turn::{Gate, Pass};
use crossbeam_utils::CachePadded;
use geo_kernel::List;
use std::alloc::{AllocError, Global};
use std::sync::Wait;
use std::thread;
use std::thread::Threads;
use wave_search::Search;

/// Workers, each on cache lines of its own.
pub(crate) type Workers = Vec<CachePadded<Worker>>;

/// Memory for the searches of so many workers, each of which prefers walks by the pattern.
pub(crate) fn searches(
    alloc: Global,
    count: u32,
    nodes: u32,
    pattern: u32,
) -> Result<Vec<Search>, AllocError>
    ensures { IfOk result (λ made. (vec_len made ≡ count) × All (λ s. s ≡ nodes) made.items) }
{
    let mut made = Vec::new(alloc);
    for _ in 0..count {
        let mut search = Search::new(alloc, nodes)?;
        search.prefer(pattern);
        made.push(search)?;
    }
    Ok(made)
}

// Whether one of two is so.
fn either(a: bool, b: bool) -> bool
    ensures { result ≡ false → (a ≡ false) × (b ≡ false) }
{
    a || b
}

impl<'a, G: Gate> Pool<'a, G> {
    /// A worker for each pass, the last first.
    pub(crate) fn make_workers(&self, alloc: Global, passes: &mut Vec<Pass>, buffers: &mut Buffers)
        requires passes { (passes.old.items ≡ passes_of self.now.turn 0 (vec_len passes.old))
            × (vec_len passes.old ≡ self.now.pass.workers) }
        requires buffers { AreBuffers self.now.pass self.now.counter buffers.old }
        ensures passes { (vec_len passes.new ≡ 0) × (passes.new.items ≡ [])
            × (vec_capacity passes.new ≡ vec_capacity passes.old) }
        ensures workers { AreFresh self.now.pass self.now.turn self.now.counter buffers.new.workers.items }
        ensures lent { AreLent self.now.pass self.now.counter buffers.new.own_claimer buffers.new.logs }
    {
        self.keeps();
        while let Some(pass) = passes.pop() {
            let number = passes.len() as u32;
            let seat = self.counter.split(&mut buffers.own_claimer);
            let search = buffers.searches.pop().unwrap();
            buffers.workers.push_reserved(CachePadded::new(Worker {
                number,
                pass,
                seat,
                drawn: Vec::new(alloc),
                notes: Vec::new(alloc),
                turns: 0,
                search,
                mapped: None,
                failed: false,
            }));
        }
    }

    fn work_padded<R: Wait>(&self, rt: &R, alloc: Global, worker: &mut CachePadded<Worker>)
        requires { MayWork self.now.pass self.now.turn self.now.counter (padded_value worker.old) }
        ensures { Worked self.now.pass self.now.turn self.now.counter (padded_value worker.old).pass.name
            (padded_value worker.new) }
    {
        self.work(rt, alloc, &mut **worker);
    }

    /// Takes the workers' passes and seats back, and puts their logs in order. Says whether memory was wanting to one.
    pub(crate) fn collect_logs(&self, passes: &mut Vec<Pass>, buffers: &mut Buffers) -> bool
        requires workers { AreBack self.now.pass self.now.turn self.now.counter buffers.old.workers.items }
        requires lent { AreLent self.now.pass self.now.counter buffers.old.own_claimer buffers.old.logs }
        requires passes { (passes.old.items ≡ []) × (vec_len passes.old ≡ 0)
            × (self.now.pass.workers ≤ vec_capacity passes.old) }
        ensures passes { (vec_len passes.new ≡ self.now.pass.workers)
            × All (λ q. q.turn ≡ self.now.turn) passes.new.items }
        ensures count { length buffers.new.logs.items ≡ self.now.pass.workers }
        ensures logs { AreLogsOf self.now.pass self.now.turn passes.new.items buffers.new.logs.items }
        ensures own { (buffers.new.own_claimer.table ≡ self.now.counter.table)
            × (buffers.new.own_claimer.hand.shares ≡ SEATS)
            × ((x : ℕ) → times x buffers.new.own_claimer.hand.drawn ≡ claimed x buffers.new.logs.items) }
        ensures done { result ≡ false → (self.now.counter.tasks ≤ buffers.new.own_claimer.hand.floor)
            × AreEnded self.now.pass self.now.turn passes.new.items buffers.new.logs.items }
    {
        self.keeps();
        let mut failed = false;
        while let Some(padded) = buffers.workers.pop() {
            let Worker {
                number,
                pass,
                seat,
                drawn,
                notes,
                turns: _,
                search: _,
                mapped: _,
                failed: short,
            } = padded.into_inner();
            self.counter.join(&mut buffers.own_claimer, seat);
            failed = either(failed, short);
            passes.push_reserved(pass);
            buffers.logs.push_reserved(WorkerLog {
                worker: number,
                tasks: List::from_vec(drawn),
                notes: List::from_vec(notes),
            });
        }
        failed
    }
}

impl<'a, G: Gate + Sync> Pool<'a, G> {
    fn all_work<R: Threads + Wait + Sync>(
        &self,
        rt: &R,
        alloc: Global,
        workers: &mut [CachePadded<Worker>],
    )
        requires fresh { All (λ w. MayWork self.now.pass self.now.turn self.now.counter (padded_value w)) workers.old }
        ensures { (k : ℕ) (d : CachePadded Worker) → k < length workers.old
            → Worked self.now.pass self.now.turn self.now.counter
            (padded_value (slice_index_or workers.old k d)).pass.name (padded_value (slice_index_or workers.new k d)) }
    {
        let count = workers.len();
        if count == 0 {
            return;
        }
        thread::for_each_mut(
            rt,
            workers,
            count,
            &|_, worker| { self.work_padded(rt, alloc, worker) },
        );
    }

    /// Lets all workers work.
    pub(crate) fn run_workers<R: Threads + Wait + Sync>(
        &self,
        rt: &R,
        alloc: Global,
        workers: &mut Workers,
    )
        requires { AreFresh self.now.pass self.now.turn self.now.counter workers.old.items }
        ensures { AreBack self.now.pass self.now.turn self.now.counter workers.new.items }
    {
        self.all_work(rt, alloc, workers.as_mut_slice());
    }
}
