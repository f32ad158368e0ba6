//! Passes of several workers over the nets of a board, between gates.

ghost use Rattle.std.specs.Prelude.{◌≡◌, ◌<◌, ◌≤◌, ◌^◌, All, IfOk, IfSome, length, vec_len};
ghost use Rattle.pcb_model.specs.Plain.{IsPlainCopper};
ghost use Rattle.pcb_model.specs.Sound.{IsSound};
ghost use Rattle.route_lattice.specs.Fits.{FitsDesign};

use crate::board::board;
use crate::designs::CROSSING;
use crate::gates::{AllCome, FirstWaits};
use board_gen::design_text;
use board_turn::{Gate, NoGate};
use geo_kernel::Point;
use pcb_board::{Answer, Board, Entry};
use pcb_model::{Design, Metal};
use route_lattice::Lattice;
use searcher_pool::{OfferNote, WorkerLog, run_pass};
use std::alloc::{AllocError, Global};
use std::process::Abort;
use std::sync::Wait;
use std::thread::Threads;

// The numbers below one.
fn numbers(alloc: Global, count: u32) -> Result<Vec<u32>, AllocError>
    ensures below { IfOk result (λ made. All (λ n. n < count) made.items) }
    ensures count { IfOk result (λ made. vec_len made ≡ count) }
{
    let mut made = Vec::new(alloc);
    for n in 0..count {
        made.push(n)?;
    }
    Ok(made)
}

// The nets of a design, or None where there are more than a design may have.
fn tasks_of(alloc: Global, design: &Design) -> Option<Vec<u32>>
    ensures nets { IfSome result (λ tasks. All (λ n. n < length design.now.nets) tasks.items) }
    ensures few { IfSome result (λ tasks. vec_len tasks < 2 ^ 32) }
{
    let count = design.nets.len();
    if count > 65_536 {
        return None;
    }
    numbers(alloc, count as u32).ok()
}

// What a pass of so many workers leaves of the board of a design, without a penalty.
fn pass_over<R: Threads + Wait + Sync + Abort, G: Gate + Sync>(
    rt: &R,
    alloc: Global,
    design: Design,
    lat: &Lattice,
    tasks: Vec<u32>,
    workers: u32,
    gate: &G,
) -> (Board, Vec<WorkerLog>)
    requires sound { IsSound design }
    requires plain { IsPlainCopper design }
    requires fits { FitsDesign design lat.now }
    requires nets { All (λ n. n < length design.nets) tasks.items }
    requires few { vec_len tasks < 2 ^ 32 }
    requires workers { (1 ≤ workers) × (workers ≤ 16) }
{
    let (board, _) = Board::start(alloc, design, 524_288).expect(rt, "no board");
    let passed = run_pass(rt, alloc, board, lat, 2_000_000, workers, tasks, None, gate);
    passed.ok().expect(rt, "no pass")
}

// What a pass of so many workers over all nets leaves, at a grid in nm or the default one.
fn passed<R: Threads + Wait + Sync + Abort, G: Gate + Sync>(
    rt: &R,
    alloc: Global,
    text: &str,
    grid: Option<u64>,
    workers: u32,
    gate: &G,
) -> (Board, Vec<WorkerLog>)
    requires grid { IfSome grid (λ g. (1 ≤ g) × (g ≤ 2 ^ 30)) }
    requires workers { (1 ≤ workers) × (workers ≤ 16) }
{
    let design = board(alloc, text).expect(rt, "no design");
    let lat = Lattice::of(alloc, &design, grid).expect(rt, "no lattice");
    let tasks = tasks_of(alloc, &design).expect(rt, "no tasks");
    pass_over(rt, alloc, design, &lat, tasks, workers, gate)
}

// How many of the notes are of commits.
fn commits_among(notes: &[OfferNote]) -> usize {
    let mut count = 0usize;
    for note in notes {
        if matches!(note.answer, Answer::Committed { number: _ }) {
            count = count.wrapping_add(1);
        }
    }
    count
}

// How many commits the logs have.
fn commits_in(logs: &[WorkerLog]) -> usize {
    let mut count = 0usize;
    for log in logs {
        count = count.wrapping_add(commits_among(log.notes.as_slice()));
    }
    count
}

// The length of a chain along the axes, in nm.
fn length_of(chain: &[Point]) -> u64 {
    let mut length = 0u64;
    for i in 1..chain.len() {
        let x = chain[i].x.abs_diff(chain[i - 1].x);
        let y = chain[i].y.abs_diff(chain[i - 1].y);
        length = length.wrapping_add(x).wrapping_add(y);
    }
    length
}

// Whether an entry joins the first net by one wire of 16 mm.
fn is_detour(entry: &Entry) -> bool {
    match entry {
        Entry::Join { offer, .. } => match offer.add.as_slice() {
            [Metal::Wire { chain, .. }] => {
                offer.net == 0 && length_of(chain.as_slice()) == 16_000_000
            }
            _ => false,
        },
        Entry::Back { to: _ } => false,
    }
}

// What was done where an offer came too late: the second net is shut in, and the first goes round.
fn is_answered(note: &OfferNote, history: &[Entry]) -> bool {
    match history {
        [_] => note.offer.net == 1,
        [_, second] => note.offer.net != 1 && is_detour(second),
        _ => false,
    }
}

// Whether the first of the notes is of an offer that came too late for the other's wire, and that was done then.
fn begins_too_late(notes: &[OfferNote], history: &[Entry]) -> bool {
    match notes {
        [first, ..] => {
            matches!(first.answer, Answer::Stale { item: 5, commit: 1 })
                && is_answered(first, history)
        }
        [] => false,
    }
}

// Whether the first offer of the held worker came too late, by the last of the logs that is its.
fn came_too_late(logs: &[WorkerLog], history: &[Entry], held: u64) -> bool {
    let mut late = false;
    for log in logs {
        if u64::from(log.worker) == held {
            late = begins_too_late(log.notes.as_slice(), history);
        }
    }
    late
}

#[test]
fn an_offer_comes_too_late_for_another_worker(rt: HostRuntime) {
    let gate = FirstWaits::new();
    let (board, logs) = passed(&rt, rt.alloc(), CROSSING, Some(1_000_000), 2, &gate);
    let history = board.history().as_slice();
    assert!(rt; came_too_late(logs.as_slice(), history, gate.held()) && !gate.gave_up());
    assert!(rt; commits_in(logs.as_slice()) == history.len());
}

// How many logs begin with an offer that rests on the opening board.
fn early_logs(logs: &[WorkerLog]) -> usize {
    let mut count = 0usize;
    for log in logs {
        if let [first, ..] = log.notes.as_slice() {
            if first.offer.base == 0 {
                count = count.wrapping_add(1);
            }
        }
    }
    count
}

#[test]
fn four_workers_plan_before_one_offers(rt: HostRuntime) {
    let gate = AllCome::new(4);
    let text = design_text(rt.alloc(), 8).expect(&rt, "no text");
    let text = std::str::from_utf8(text.as_slice()).unwrap_or_default();
    let (_, logs) = passed(&rt, rt.alloc(), text, None, 4, &gate);
    assert!(rt; early_logs(logs.as_slice()) == 4 && !gate.gave_up());
}

#[test]
fn one_worker_makes_a_pass(rt: HostRuntime) {
    let (board, logs) = passed(&rt, rt.alloc(), CROSSING, Some(1_000_000), 1, &NoGate);
    assert!(rt; board.history().len() == 1 && logs.len() == 1);
}
