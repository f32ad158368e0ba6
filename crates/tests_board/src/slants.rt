//! Moves at 45 degrees: which of them are there and open on a small board, and the runs that join by them.
//! Between two pads walls leave no legal way, and room for one such move.

ghost use Rattle.std.specs.Prelude.{◌<◌};
ghost use Rattle.pcb_model.specs.Sound.{Serves};
ghost use Rattle.route_lattice.specs.Legal.{CanMove};
ghost use Rattle.route_lattice.specs.Mesh.{node_count};
ghost use Rattle.path_wire.specs.Diagonals.{wide_count};

use crate::calls::{Wanted, leaves};
use crate::copper::fixed_plain;
use crate::designs::{CROSSING, TWO_LAYERS};
use crate::lattices::{Says, holds};
use crate::of_routes::{
    LEFT_PART, NONE_COMPLETE, ONE_NET, PAIR_SESSION, RIGHT_PART, Route, SESSION_END, WALL,
};
use diag_moves::DiagMoves;
use dsn_route::Status;
use pcb_model::{Design, PlainCopper};
use route_lattice::{Lattice, Move, Moves};
use std::alloc::Global;

// ---- single moves

/// The two pads with the walls on both sides; their nodes are 30 and 40.
const WALLS: &str = "(pcb G (resolution um 10) (unit um)
  (structure (layer F.Cu (type signal)) (boundary (rect pcb 0 0 10000 10000))
    (keepout (path F.Cu 600 5000 4000 10000 -1000)) (keepout (path F.Cu 600 4000 5000 -1000 10000))
    (rule (width 200) (clearance 200)))
  (placement (component P (place C1 4000 4000 front 0) (place C2 5000 5000 front 0)))
  (library (image P (pin PAD 1 0 0)) (padstack PAD (shape (circle F.Cu 1000))))
  (network (net A (pins C1-1 C2-1))))";

/// A node, which of the four diagonals, where it leads to, and whether it is open.
struct Slant(u32, u32, Option<u32>, bool);

static SLANTS: [Slant; 6] = [
    Slant(30, 0, Some(40), true),
    Slant(40, 2, Some(30), true),
    Slant(30, 1, Some(38), true),
    Slant(38, 0, Some(48), false),
    Slant(0, 1, None, false),
    Slant(80, 0, None, false),
];

/// Whether the diagonal is as the row says; one that is there costs 1,414,214 nm over 1 mm.
fn is_slant(moves: &DiagMoves<'_, PlainCopper>, row: &Slant) -> bool
    requires can_move { CanMove moves.now.legal.d.now moves.now.legal.lat.now moves.now.legal.net
        moves.now.legal.via_cost }
    requires serves { Serves moves.now.legal.c.now moves.now.legal.d.now }
{
    let Slant(node, dir, to, open) = row;
    if *node >= moves.count() || *dir >= 4 || moves.arity() < 4 {
        return false;
    }
    let i = moves.arity() - 4 + *dir;
    match (moves.at(*node, i), to) {
        (Some((Move::Step { dir: way }, next)), Some(to)) => {
            u32::from(way) == 4 + *dir
                && next == *to
                && moves.is_open(*node, i) == *open
                && moves.price(*node, i) == 1_414_214
        }
        (None, None) => true,
        _ => false,
    }
}

/// Whether all rows are so.
fn are_slants(lat: &Lattice, d: &Design, copper: &PlainCopper) -> bool
    requires can_move { CanMove d.now lat.now 0 2000000 }
    requires serves { Serves copper.now d.now }
{
    let moves = DiagMoves::of(lat, d, copper, 0, 2_000_000);
    for row in &SLANTS {
        if !is_slant(&moves, row) {
            return false;
        }
    }
    true
}

struct Walled;

impl Says for Walled {
    fn holds(&self, alloc: Global, d: &Design, lat: &Lattice) -> bool {
        if d.nets.is_empty() {
            return false;
        }
        match fixed_plain(alloc, d) {
            Ok(copper) => are_slants(lat, d, &copper),
            Err(_) => false,
        }
    }
}

#[test]
fn a_diagonal_is_there_where_both_gaps_are_equal_and_open_where_its_copper_is_legal(
    rt: HostRuntime,
) {
    assert!(rt; holds(rt.alloc(), WALLS, 1_000_000, &Walled) == Ok(true));
}

// ---- runs

/// Routes at a grid of 1 mm by one worker in one pass, and then with moves at 45 degrees.
const LEGAL: &str = "route u.dsn u.ses --grid 1000 --workers 1 --passes 1";

const WIDE: &str = "route u.dsn u.ses --grid 1000 --workers 1 --passes 1 --diagonal";

/// The crossing pins as the two pads between walls.
const BETWEEN_WALLS: &[(&str, &str)] = &[
    (
        "    (place C1 1000 5000 front 0)\n    (place C2 9000 5000 front 0)\n",
        "    (place C1 4000 4000 front 0)\n    (place C2 5000 5000 front 0)))\n",
    ),
    (
        "    (place C3 5000 2000 front 0)\n    (place C4 5000 8000 front 0)))\n",
        "",
    ),
    (" (net B (pins C3-1 C4-1))", ""),
    (
        "    (rule (width",
        "    (keepout (path F.Cu 600 5000 4000 10000 -1000))\n    \
         (keepout (path F.Cu 600 4000 5000 -1000 10000))\n    (rule (width",
    ),
];

const HEAD: &str = "board T
layers 1 nets 1 pins 2
grid 1000000 nodes 81
dropped 0
notes 0
";

const CUT_OFF: &str = "pass 1 commits 0 open 1
kept 1
joins 0
net A open 2
cut \"C1-1\" reached 28 blocked 14
";

const SLANTED: &str = "pass 1 commits 0 open 1
kept 1
joins 1
net A complete
complete 1 open 0
";

const FRONT: &str = "(session T
  (base_design T)
  (placement
    (resolution um 10)
    (component P
      (place C1 40000 40000 front 0)
      (place C2 50000 50000 front 0)
    )
  )
  (was_is
  )
  (routes
    (resolution um 10)
    (parser
      (host_cad KiCad)
      (host_version 8)
    )
    (library_out
    )
    (network_out
";

const SLANTED_WIRE: &str = "      (net A
        (wire (path F.Cu 2000 40000 40000 50000 50000))
      )
";

const WIDE_72: &str = "wide 72\n";

static RUNS: [(&str, Route); 3] = [
    (
        CROSSING,
        Route(
            "no legal way leads between the walls",
            BETWEEN_WALLS,
            LEGAL,
            Wanted {
                status: Status::SomeOpen,
                report: &[HEAD, CUT_OFF, ".."],
                session: Some(&[FRONT, SESSION_END]),
                made: Some((0, 1)),
            },
        ),
    ),
    (
        CROSSING,
        Route(
            "one move at 45 degrees does",
            BETWEEN_WALLS,
            WIDE,
            Wanted {
                status: Status::Complete,
                report: &[HEAD, SLANTED],
                session: Some(&[FRONT, SLANTED_WIRE, SESSION_END]),
                made: Some((1, 1)),
            },
        ),
    ),
    (
        TWO_LAYERS,
        Route(
            "where none leads on, each cut tells how many nodes they reach",
            &[WALL],
            WIDE,
            Wanted {
                status: Status::SomeOpen,
                report: &[
                    ONE_NET,
                    LEFT_PART,
                    WIDE_72,
                    RIGHT_PART,
                    WIDE_72,
                    NONE_COMPLETE,
                ],
                session: Some(&[PAIR_SESSION, SESSION_END]),
                made: Some((0, 1)),
            },
        ),
    ),
];

#[test]
fn what_legal_ways_leave_open_is_joined_by_moves_at_45_degrees_where_they_lead_on(rt: HostRuntime) {
    for (design, Route(name, edits, line, wanted)) in &RUNS {
        assert!(rt;
            leaves(&rt, rt.alloc(), design, edits, line, wanted),
            "{name}"
        );
    }
}
