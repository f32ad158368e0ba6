//! What a board answers to one offer after another, what it tells of what went and came, and where it goes back.
//! The first net's wire is item 5, and the second net's, laid over it, is item 6.

use crate::board::{opened, start};
use crate::offer_board::{CROSS, Join, across, along, answers, offer_of, stand, takes_first};
use geo_kernel::List;
use pcb_board::{Answer, BackFault, Board, run_offers};
use pcb_model::Item;
use std::alloc::Global;
use std::process::Abort;

/// Whether a board takes the first net's wire, and then says that the second net's is stale, where both were planned on
/// the board without entries.
fn takes_the_first_alone<R: Abort>(rt: &R, alloc: Global, board: &mut Board) -> bool {
    let mut offers = Vec::new(alloc);
    for join in &[along(0), across(0, &[])] {
        let offer = offer_of(alloc, join).expect(rt, "no offer");
        offers.push(offer).expect(rt, "no room");
    }
    let answers = run_offers(alloc, board, offers)
        .ok()
        .expect(rt, "no answers");
    answers.as_slice()
        == [
            Answer::Committed { number: 1 },
            Answer::Stale { item: 5, commit: 1 },
        ]
        .as_slice()
}

/// Whether a board takes the second net's wire over the first's only where it rips that one.
fn takes_the_second(alloc: Global, board: &mut Board) -> bool {
    let steps = [
        (across(1, &[]), Answer::Wrong { item: 5, commit: 1 }),
        (across(1, &[5]), Answer::Committed { number: 2 }),
    ];
    answers(alloc, board, &steps) && stand(board, &[0, 1, 2, 3, 4, 6])
}

#[test]
fn offers_are_answered_one_after_another(rt: HostRuntime) {
    let alloc = rt.alloc();
    let (mut board, dropped) = start(alloc, CROSS, 524_288).expect(&rt, "no board");
    assert!(rt;
        dropped.is_empty()
            && takes_the_first_alone(&rt, alloc, &mut board)
            && takes_the_second(alloc, &mut board)
    );
}

/// Whether the one item of a list has this id.
fn is_only(items: &List<Item>, id: u64) -> bool {
    match items.as_slice() {
        [item] => item.id == id,
        _ => false,
    }
}

/// Whether a board takes the second net's wire over the first's, and tells that this one went since and that one came.
fn changes<R: Abort>(rt: &R, alloc: Global, board: &mut Board) -> bool {
    let old = board.snap().ok().expect(rt, "no snapshot");
    let taken = takes_the_second(alloc, board);
    let new = board.snap().ok().expect(rt, "no snapshot");
    let since = new.since(&old).ok().expect(rt, "no change");
    taken && is_only(&since.gone, 5) && is_only(&since.come, 6)
}

/// Whether a board goes back to what it was after so many entries, and these ids stand then.
fn goes_back(board: &mut Board, to: u64, want: &[u64]) -> bool {
    board.back(to).is_ok() && stand(board, want)
}

/// Whether a board's copy has these ids and its three entries.
fn is_copied(board: &Board, ids: &[u64]) -> bool {
    match board.copy() {
        Ok(copy) => stand(&copy, ids) && copy.history().len() == 3,
        Err(_) => false,
    }
}

/// Whether a board of two entries goes back to its start, and from there to its first entry but to no later one; and
/// then the second net's wire meets the first's, which came back with the fourth entry after the offer's base.
fn goes_back_twice(alloc: Global, board: &mut Board) -> bool {
    let stale = Answer::Stale { item: 5, commit: 4 };
    goes_back(board, 0, &[0, 1, 2, 3, 4])
        && is_copied(board, &[0, 1, 2, 3, 4])
        && matches!(board.back(9), Err(BackFault::Later { entries: 3 }))
        && goes_back(board, 1, &[0, 1, 2, 3, 4, 5])
        && answers(alloc, board, &[(across(1, &[]), stale)])
}

#[test]
fn a_board_tells_what_changed_goes_back_and_is_copied(rt: HostRuntime) {
    let alloc = rt.alloc();
    let mut board = opened(alloc, CROSS).expect(&rt, "no board");
    assert!(rt;
        takes_first(alloc, &mut board)
            && changes(&rt, alloc, &mut board)
            && goes_back_twice(alloc, &mut board)
    );
}

/// What an offer has in place of what the second net's straight one has.
#[derive(Clone, Copy)]
enum Change {
    Base(u64),
    /// The base, and the worker.
    Made(u64, u32),
    To(u64),
    Wire(&'static [(u16, u16)]),
    Rip(&'static [u64]),
    Shove(u64, &'static [(u16, u16)]),
}

fn changed(change: Change) -> Join {
    let mut join = across(1, &[]);
    match change {
        Change::Base(base) => join.base = base,
        Change::Made(base, worker) => {
            join.base = base;
            join.worker = worker;
        }
        Change::To(to) => join.to = to,
        Change::Wire(wire) => join.wire = wire,
        Change::Rip(rip) => join.rip = rip,
        Change::Shove(id, chain) => join.shove = Some((id, chain)),
    }
    join
}

static REFUSALS: [(Change, Answer); 10] = [
    (Change::Base(2), Answer::Malformed { clause: 1 }),
    (Change::To(3), Answer::Malformed { clause: 2 }),
    (Change::Wire(&[]), Answer::Malformed { clause: 3 }),
    (
        Change::Wire(&[(5_000, 2_000), (5_000, 3_000)]),
        Answer::Malformed { clause: 4 },
    ),
    (
        Change::Wire(&[(11_000, 2_000), (5_000, 2_000), (5_000, 8_000)]),
        Answer::Malformed { clause: 5 },
    ),
    (Change::Rip(&[5, 5]), Answer::Malformed { clause: 6 }),
    (Change::Rip(&[1]), Answer::Malformed { clause: 7 }),
    (
        Change::Shove(0, &[(1_000, 5_000), (9_000, 5_000)]),
        Answer::Malformed { clause: 8 },
    ),
    (
        Change::Shove(
            5,
            &[
                (1_000, 5_000),
                (1_000, 6_000),
                (9_000, 6_000),
                (9_000, 5_000),
            ],
        ),
        Answer::Malformed { clause: 9 },
    ),
    (
        Change::Wire(&[
            (5_000, 2_000),
            (11_000, 2_000),
            (11_000, 8_000),
            (5_000, 8_000),
        ]),
        Answer::Wrong { item: 0, commit: 0 },
    ),
];

/// What a board that has room for no more entries of workers answers to one of them, and to the closing pass.
static FULL: [(Change, Answer); 2] = [
    (Change::Base(2), Answer::Full),
    (Change::Made(2, 16), Answer::Malformed { clause: 1 }),
];

/// Whether a board of one entry answers so, and stays as it was.
fn refuses(alloc: Global, board: &mut Board, change: Change, want: Answer) -> bool {
    answers(alloc, board, &[(changed(change), want)])
        && stand(board, &[0, 1, 2, 3, 4, 5])
        && board.history().len() == 1
}

fn refuses_all(alloc: Global, board: &mut Board, rows: &[(Change, Answer)]) -> bool {
    for (change, want) in rows {
        if !refuses(alloc, board, *change, *want) {
            return false;
        }
    }
    true
}

#[test]
fn an_offer_that_is_refused_is_told_its_first_fault_and_changes_nothing(rt: HostRuntime) {
    let alloc = rt.alloc();
    let mut board = opened(alloc, CROSS).expect(&rt, "no board");
    assert!(rt; takes_first(alloc, &mut board) && refuses_all(alloc, &mut board, &REFUSALS));
}

#[test]
fn a_full_board_says_so_to_workers_alone(rt: HostRuntime) {
    let alloc = rt.alloc();
    let (mut board, _) = start(alloc, CROSS, 1).expect(&rt, "no board");
    assert!(rt; takes_first(alloc, &mut board) && refuses_all(alloc, &mut board, &FULL));
}
