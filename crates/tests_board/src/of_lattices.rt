//! The nodes and lines of lattices, by boards whose lattices are counted by hand.
//! The boards are squares with a corner at the origin.

use crate::lattices::{Says, holds};
use geo_kernel::Point;
use pcb_model::Design;
use route_lattice::Lattice;
use std::alloc::Global;

const TEN_MM: &str =
    "(pcb b (resolution um 10) (structure (layer T (type signal)) (layer B (type signal))
  (boundary (rect pcb 0 0 10000 10000))))";

const TEN_MM_WITH_POWER: &str =
    "(pcb b (resolution um 10) (structure (layer T (type signal)) (layer P (type power))
  (boundary (rect pcb 0 0 10000 10000))))";

const SMALL: &str =
    "(pcb b (resolution um 10) (structure (layer T (type signal)) (layer B (type signal))
  (boundary (rect pcb 0 0 26500 26500))))";

const LARGE: &str =
    "(pcb b (resolution um 10) (structure (layer T (type signal)) (layer B (type signal))
  (boundary (rect pcb 0 0 300000 300000))))";

const LARGE_WITH_POWER: &str =
    "(pcb b (resolution um 10) (structure (layer T (type signal)) (layer P (type power))
  (boundary (rect pcb 0 0 200000 200000))))";

/// A board of 5 um whose session's unit is 1 um.
const FIVE_UM: &str =
    "(pcb b (resolution um 1) (structure (layer T) (boundary (rect pcb 0 0 5 5))))";

/// A board from -5 to 5 um with two pins of a net at or beside halves of that unit, and a pin of no net.
const HALVES: &str = "(pcb b (resolution um 1) (structure (layer T) (boundary (rect pcb -5 -5 5 5)))
  (placement (component I (place C 0 0 front 0)))
  (library (image I (pin S 1 1.5 -1.5) (pin S 2 2.499 -2.501) (pin S 3 -4 -4)) (padstack S (shape (circle T 1))))
  (network (net A (pins C-1 C-2))))";

/// What a test says of a lattice.
enum Told {
    /// The number of nodes, of lines across and of lines up, the grid, and the unit of the session.
    Size(u32, usize, usize, u64, u64),
    /// The lines across and up.
    Lines(&'static [i64], &'static [i64]),
    /// A node, its x and y in mm, and its layer.
    Node(u32, i64, i64, u8),
    /// Nothing, since there is no lattice.
    Nothing,
}

impl Says for Told {
    fn holds(&self, _alloc: Global, _d: &Design, lat: &Lattice) -> bool {
        match self {
            Told::Size(nodes, xs, ys, grid, unit) => {
                lat.count() == *nodes
                    && lat.xs().len() == *xs
                    && lat.ys().len() == *ys
                    && lat.grid() == *grid
                    && lat.unit() == *unit
            }
            Told::Lines(xs, ys) => lat.xs().as_slice() == *xs && lat.ys().as_slice() == *ys,
            Told::Node(node, x, y, layer) => {
                *node < lat.count() && is_at(lat.point(*node), *x, *y) && lat.layer(*node) == *layer
            }
            Told::Nothing => false,
        }
    }
}

/// Whether a point is at this x and y in mm.
fn is_at(at: Point, x: i64, y: i64) -> bool {
    at.x / 1_000_000 == x && at.y / 1_000_000 == y
}

/// A text, a grid, what its lattice is, and that it is so, or the exact number of nodes where these are too many.
struct Row(&'static str, u32, Told, Result<bool, u128>);

const FIRST: [i64; 4] = [1_000, 2_000, 3_000, 4_000];

const SOME: [i64; 3] = [1_000, 3_000, 4_000];

static ROWS: [Row; 16] = [
    // A node is a crossing of two lines on a signal layer.
    Row(
        TEN_MM,
        1_000_000,
        Told::Size(162, 9, 9, 1_000_000, 100),
        Ok(true),
    ),
    Row(
        TEN_MM_WITH_POWER,
        1_000_000,
        Told::Size(81, 9, 9, 1_000_000, 100),
        Ok(true),
    ),
    Row(
        SMALL,
        0,
        Told::Size(139_392, 264, 264, 100_000, 100),
        Ok(true),
    ),
    Row(
        LARGE,
        0,
        Told::Size(1_122_002, 749, 749, 400_000, 100),
        Ok(true),
    ),
    Row(LARGE, 1_000, Told::Nothing, Err(179_998_800_002)),
    Row(LARGE_WITH_POWER, 1_000, Told::Nothing, Err(39_999_600_001)),
    Row(TEN_MM, 1_000, Told::Nothing, Err(199_960_002)),
    Row(SMALL, 1_000, Told::Nothing, Err(1_404_394_002)),
    // Nodes are numbered by rows and then by layers.
    Row(TEN_MM, 1_000_000, Told::Node(0, 1, 1, 0), Ok(true)),
    Row(TEN_MM, 1_000_000, Told::Node(21, 4, 3, 0), Ok(true)),
    Row(TEN_MM, 1_000_000, Told::Node(80, 9, 9, 0), Ok(true)),
    Row(TEN_MM, 1_000_000, Told::Node(81, 1, 1, 1), Ok(true)),
    Row(TEN_MM, 1_000_000, Told::Node(161, 9, 9, 1), Ok(true)),
    // Lines are multiples of the grid rounded down to the unit, and anchors of pins with a net, rounded half upwards.
    Row(FIVE_UM, 300, Told::Lines(&FIRST, &FIRST), Ok(true)),
    Row(FIVE_UM, 1_500, Told::Lines(&SOME, &SOME), Ok(true)),
    Row(
        HALVES,
        10_000,
        Told::Lines(&[0, 2_000], &[-3_000, -1_000, 0]),
        Ok(true),
    ),
];

/// How many rows are so before the first that isn't.
fn count(alloc: Global, rows: &[Row]) -> usize {
    for i in 0..rows.len() {
        let row = &rows[i];
        if holds(alloc, row.0, row.1, &row.2) != row.3 {
            return i;
        }
    }
    rows.len()
}

#[test]
fn lattices_have_these_nodes_and_lines(rt: HostRuntime) {
    assert_eq!(rt; count(rt.alloc(), &ROWS), 16);
}
