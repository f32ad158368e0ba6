//! The report of a small board, worked by hand, long and short.
//! Lengths in the design are in um, and the lines of the lattice are 1 mm apart.

use crate::board::opened;
use cut_certificate::{Block, Blocker, Cut};
use geo_kernel::List;
use pcb_board::Board;
use route_lattice::{Lattice, Reach};
use route_report::report_text;
use route_run::{Facts, PassLine};
use std::alloc::{AllocError, Global};
use std::process::Abort;

/// Two nets: the boundary is item 0, the pins are the items 1 and 2 of net 0, 3 and 4 of net 1, and 5 is a fixed wire
/// of net 0. A name with a blank is printed between quotes.
const TWO_NETS: &str = "(pcb T
  (resolution um 10)
  (unit um)
  (structure
    (layer F.Cu (type signal))
    (layer B.Cu (type signal))
    (boundary (rect pcb 0 0 10000 10000))
    (via V)
    (rule (width 200) (clearance 200))
    (colour red))
  (placement (component P
    (place C1 2000 5000 front 0)
    (place C2 8000 5000 front 0)
    (place C3 5000 2000 front 0)
    (place C4 5000 8000 front 0)))
  (library
    (image P (pin PAD 1 0 0))
    (padstack PAD (shape (circle F.Cu 1000)))
    (padstack V (shape (circle F.Cu 600)) (shape (circle B.Cu 600))))
  (network (net A (pins C1-1 C2-1)) (net \"B 2\" (pins C3-1 C4-1)))
  (wiring (wire (path F.Cu 200 2000 5000 8000 5000) (net A) (type fix))))";

/// The lines before those of the nets.
const LONG: &str = "board T
layers 2 nets 2 pins 4
grid 1000000 nodes 162
dropped 2
drop 77
drop 90
notes 1
pass 1 commits 3 open 2
pass 2 commits 0 open 1
kept 2
joins 1
net A complete
net \"B 2\" open 2
cut \"C3-1\" reached 7 blocked 6
by area 0
by smd 3
by wire 5
by outside
run 0 0 0 2
run 0 0 8 8
run 0 1 0 1
run 1 0 0 0
cut \"C4-1\" reached 1 blocked 0
run 1 8 8 8
complete 1 open 1
";

const SHORT: &str = "board T
layers 2 nets 2 pins 4
grid 1000000 nodes 162
dropped 2
drop 77
drop 90
notes 1
pass 1 commits 3 open 2
pass 2 commits 0 open 1
kept 2
joins 1
net A complete
net \"B 2\" open 2
cut \"C3-1\" reached 7 blocked 6
cut \"C4-1\" reached 1 blocked 0
complete 1 open 1
";

fn cut(alloc: Global, pin: u32, nodes: &[u32], blocked: &[Block]) -> Result<Cut, AllocError> {
    let nodes = List::from_slice(alloc, nodes)?;
    let blocked = List::from_slice(alloc, blocked)?;
    Ok(Cut {
        net: 1,
        pin,
        reach: Reach { nodes },
        blocked,
    })
}

fn block(node: u32, by: Blocker) -> Block {
    Block { node, index: 0, by }
}

/// The cuts of net 1: one with blocks in no order of their ids, one without any.
fn cuts(alloc: Global) -> Result<List<Cut>, AllocError> {
    let blocked = [
        block(2, Blocker::Item(5)),
        block(2, Blocker::Item(0)),
        block(8, Blocker::Outside),
        block(9, Blocker::Item(5)),
        block(10, Blocker::Item(3)),
        block(81, Blocker::Item(999)),
    ];
    let mut cuts = List::new(alloc);
    cuts.push(cut(alloc, 2, &[0, 1, 2, 8, 9, 10, 81], &blocked)?)?;
    cuts.push(cut(alloc, 3, &[161], &[])?)?;
    Ok(cuts)
}

static PASSES: [PassLine; 2] = [
    PassLine {
        commits: 3,
        parted: 2,
    },
    PassLine {
        commits: 0,
        parted: 1,
    },
];

/// The facts of the report.
fn facts<R: Abort>(rt: &R, alloc: Global, nodes: u32) -> Facts {
    Facts {
        grid: 1_000_000,
        nodes: u64::from(nodes),
        dropped: List::from_slice(alloc, &[77, 90]).expect(rt, "no places"),
        passes: List::from_slice(alloc, &PASSES).expect(rt, "no passes"),
        kept: 2,
        joins: 1,
        complete: List::from_slice(alloc, &[0]).expect(rt, "no nets"),
        cuts: cuts(alloc).expect(rt, "no cuts"),
        wide: None,
    }
}

/// The report, with no contract, so that the proofs of its callers are short.
fn text(
    alloc: Global,
    board: &Board,
    lat: &Lattice,
    facts: &Facts,
    short: bool,
) -> Result<Vec<u8>, AllocError> {
    report_text(alloc, board.design(), lat, board, facts, short)
}

/// Whether the report of these facts is this text.
fn is_text(
    alloc: Global,
    board: &Board,
    lat: &Lattice,
    facts: &Facts,
    short: bool,
    want: &str,
) -> bool {
    match text(alloc, board, lat, facts, short) {
        Ok(text) => text.as_slice() == want.as_bytes(),
        Err(_) => false,
    }
}

/// Whether the report of the facts is the long text, and the short one.
fn reports<R: Abort>(rt: &R, alloc: Global, board: &Board) -> bool {
    board.keeps();
    let lat = Lattice::of(alloc, board.design(), Some(1_000_000)).expect(rt, "no lattice");
    let facts = facts(rt, alloc, lat.count());
    is_text(alloc, board, &lat, &facts, false, LONG)
        && is_text(alloc, board, &lat, &facts, true, SHORT)
}

#[test]
fn a_report_tells_what_blocks_and_what_is_reached_and_a_short_one_the_cuts_alone(rt: HostRuntime) {
    let alloc = rt.alloc();
    let board = opened(alloc, TWO_NETS).expect(&rt, "no board");
    assert!(rt; reports(&rt, alloc, &board));
}
