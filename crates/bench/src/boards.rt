//! What a snapshot, a search and an offer cost on a board of nets of two pins.
//! Snapshots and searches are made at the start, and then offers, one after another.

use crate::blocks::{tell_blocked, tell_on_list};
use crate::nets::{board_of, offers_of};
use crate::told::{Watch, each_of, tell};
use pcb_board::{Answer, Board, Offer, boards_serve, run_offers};
use std::alloc::{AllocError, Global};
use std::io;
use std::rt::Runtime;

/// How many nets the board has, how much is done on it, and whether the time is told.
#[derive(Clone, Copy)]
struct Plan {
    nets: u32,
    snaps: u64,
    searches: u64,
    offers: u32,
    timed: bool,
}

/// How many of the offers are committed; none where memory is wanting.
fn committed(alloc: Global, board: &mut Board, offers: Vec<Offer>) -> u64 {
    let mut count = 0u64;
    if let Ok(answers) = run_offers(alloc, board, offers) {
        for answer in answers.as_slice() {
            if matches!(answer, Answer::Committed { .. }) {
                count = count.wrapping_add(1);
            }
        }
    }
    count
}

/// How many of so many snapshots are of the start. Each is let go before the next is taken.
fn snaps_of(board: &Board, snaps: u64) -> Result<u64, AllocError> {
    let mut count = 0u64;
    for _ in 0..snaps {
        let snap = board.snap()?;
        if snap.number() == 0 {
            count = count.wrapping_add(1);
        }
    }
    Ok(count)
}

fn tell_snaps<R: Runtime>(rt: &R, board: &Board, plan: Plan) -> io::Result<()> {
    let watch = Watch::start(rt);
    let count = snaps_of(board, plan.snaps)?;
    let each = each_of(plan.timed, watch.nanos(rt), plan.snaps);
    tell(rt, "snapshots of the start", count, each)
}

/// Searches on a snapshot and on the plain list of the same items, as none but those of the start are there.
fn tell_searches<R: Runtime>(rt: &R, alloc: Global, board: &Board, plan: Plan) -> io::Result<()> {
    board.keeps();
    boards_serve();
    let snap = board.snap()?;
    let told = tell_blocked(
        rt,
        "a snapshot",
        &snap,
        snap.design(),
        plan.searches,
        plan.timed,
    );
    drop(snap);
    told?;
    tell_on_list(rt, alloc, board.design(), plan.searches, plan.timed)
}

fn tell_offers<R: Runtime>(rt: &R, alloc: Global, board: &mut Board, plan: Plan) -> io::Result<()> {
    let offers = offers_of(alloc, plan.offers)?;
    let watch = Watch::start(rt);
    let count = committed(alloc, board, offers);
    let each = each_of(plan.timed, watch.nanos(rt), u64::from(plan.offers));
    tell(rt, "offers committed", count, each)
}

/// All of the plan on a board.
fn tell_all<R: Runtime>(rt: &R, alloc: Global, board: &mut Board, plan: Plan) -> io::Result<()> {
    tell_snaps(rt, board, plan)?;
    tell_searches(rt, alloc, board, plan)?;
    tell_offers(rt, alloc, board, plan)
}

fn run<R: Runtime>(rt: &R, alloc: Global, plan: Plan) -> io::Result<()> {
    match board_of(alloc, plan.nets) {
        Some(mut board) => {
            let told = tell_all(rt, alloc, &mut board, plan);
            drop(board);
            told
        }
        None => println!(rt; "no board"),
    }
}

/// Ten of each on a board of twenty nets.
pub fn run_small<R: Runtime>(rt: &R, alloc: Global) -> io::Result<()> {
    let plan = Plan {
        nets: 20,
        snaps: 10,
        searches: 10,
        offers: 10,
        timed: false,
    };
    run(rt, alloc, plan)
}

/// So many offers, up to 5,000, on a board of 5,000 nets, and the time of each.
pub fn run_timed<R: Runtime>(rt: &R, alloc: Global, offers: u64) -> io::Result<()> {
    let plan = Plan {
        nets: 5_000,
        snaps: 1_000_000,
        searches: 10_000,
        offers: offers.min(5_000) as u32,
        timed: true,
    };
    run(rt, alloc, plan)
}
