//! Shapes: the layers, width and vertices of each form.
//! They stand on the layers of the board of `sections`: F.Cu, the power layer GND, and B.Cu.

use crate::sections::UM;
use dsn_shapes::{Layer, read_shape};
use dsn_tree::read_tree;
use geo_kernel::{List, Point, Spine};
use std::alloc::Global;
use std::process::Abort;

/// A form, its layers and its width, whether it is a chain, and its vertices.
type Form = (&'static str, u32, u64, bool, &'static [Point]);

const ORIGIN: Point = Point { x: 0, y: 0 };

static FORMS: [Form; 9] = [
    ("(circle F.Cu 1000)", 0b001, 1_000_000, true, &[ORIGIN]),
    ("(Circle PCB 1000)", 0b111, 1_000_000, true, &[ORIGIN]),
    ("(circle signal 1000)", 0b101, 1_000_000, true, &[ORIGIN]),
    ("(circle power 1000)", 0b010, 1_000_000, true, &[ORIGIN]),
    ("(circle F.Cu 5)", 0b001, 5_000, true, &[ORIGIN]),
    (
        "(circle F.Cu 5 -2 0.0005)",
        0b001,
        5_000,
        true,
        &[Point { x: -2_000, y: 1 }],
    ),
    (
        "(rect B.Cu 1 2 3 4)",
        0b100,
        0,
        false,
        &[
            Point { x: 1_000, y: 2_000 },
            Point { x: 3_000, y: 2_000 },
            Point { x: 3_000, y: 4_000 },
            Point { x: 1_000, y: 4_000 },
        ],
    ),
    (
        "(path F.Cu 1700 0 0 0 0)",
        0b001,
        1_700_000,
        true,
        &[ORIGIN, ORIGIN],
    ),
    // A width is rounded up, a closing vertex goes from a loop, and a list between its numbers is passed over.
    (
        "(polygon F.Cu 0.0004 0 0 (x) 9 0 9 9 0 0)",
        0b001,
        1,
        false,
        &[
            ORIGIN,
            Point { x: 9_000, y: 0 },
            Point { x: 9_000, y: 9_000 },
        ],
    ),
];

/// Whether the spine is the chain, or else the area of one loop, of these vertices.
fn is_spine(spine: &Spine, is_chain: bool, vertices: &[Point]) -> bool {
    match spine {
        Spine::Chain(points) => is_chain && points.as_slice() == vertices,
        Spine::Area(loops) => match loops.as_slice() {
            [points] => !is_chain && points.as_slice() == vertices,
            _ => false,
        },
    }
}

fn has_form<R: Abort>(rt: &R, alloc: Global, on: &List<Layer>, form: Form) -> bool {
    let (text, layers, width, is_chain, vertices) = form;
    let tree = read_tree(alloc, text.as_bytes()).ok().expect(rt, "no tree");
    let shape = read_shape(alloc, &tree, UM, on).ok().expect(rt, "no shape");
    (shape.layers, shape.width) == (layers, width) && is_spine(&shape.spine, is_chain, vertices)
}

/// Whether each form is read as it is listed, on the layers of the board.
pub(crate) fn has_forms<R: Abort>(rt: &R, alloc: Global, layers: &List<Layer>) -> bool {
    for &form in &FORMS {
        if !has_form(rt, alloc, layers, form) {
            return false;
        }
    }
    true
}
