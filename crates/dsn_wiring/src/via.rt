//! Vias: a padstack of the library and its place, which its copper may not carry past the board.
//! Source: SPECCTRA reference, via descriptor of the wiring; coordinates in nm.

ghost use Rattle.std.specs.Prelude.{◌≡◌};
ghost use Rattle.std.specs.List.{list_any};
ghost use Rattle.dsn_shapes.specs.Numbers.{coord_refusal};
ghost use Rattle.dsn_shapes.specs.Refusals.{noted};
ghost use Rattle.dsn_wiring.specs.Vias.{coord_of, is_far, is_past, past_refusal, point_by, spine_past, stack_past};
ghost use Rattle.dsn_wiring.specs.Vias.{stack_place, unknown_stack, via_metal};
ghost use Rattle.dsn_wiring.specs.Vias.{via_refusals};

use dsn_shapes::table::{NO_NUMBER, NO_PADSTACK, OUT_OF_RANGE};
use dsn_shapes::{
    NameIndex, Refusal, Stack, at_of, coord_in, name_of, note, nth_word, place_index, place_of,
    refused,
};
use dsn_tree::Tree;
use dsn_units::Scale;
use geo_kernel::limits::FURTHEST;
use geo_kernel::{List, Point, Spine};
use pcb_model::Metal;

// Where the padstack of a via stands among those of these names.
#[tactic(auto, unfolding(crate::specs::Vias::unknown_stack))]
fn stack_place(first: &mut Option<Refusal>, names: &NameIndex, via: &Tree) -> Option<usize>
    ensures noted { first.new ≡ noted first.old (unknown_stack names.now via.now) }
    ensures value { result ≡ stack_place names.now via.now }
{
    let place = names.first_place(name_of(via, 1));
    if place.is_none() {
        note(first, refused(NO_PADSTACK, place_of(via, 1)));
    }
    place
}

fn coord_of(first: &mut Option<Refusal>, via: &Tree, i: usize, s: Scale) -> Option<i64>
    ensures noted { first.new ≡ noted first.old (coord_refusal s.nm via.now i) }
    ensures value { result ≡ coord_of s.nm via.now i }
{
    match nth_word(via, i) {
        Some(word) => coord_in(first, word, s),
        None => {
            note(first, refused(NO_NUMBER, at_of(via)));
            None
        }
    }
}

/// The point of two coordinates, where both are there.
pub fn point_by(x: Option<i64>, y: Option<i64>) -> Option<Point>
    ensures { result ≡ point_by x y }
{
    match (x, y) {
        (Some(x), Some(y)) => Some(Point { x, y }),
        _ => None,
    }
}

fn is_far(a: i64, by: i64) -> bool
    ensures { result ≡ is_far a by }
{
    match a.checked_add(by) {
        Some(sum) => sum.unsigned_abs() > FURTHEST,
        None => true,
    }
}

fn is_past(at: Point, p: Point) -> bool
    ensures { result ≡ is_past at p }
{
    is_far(p.x, at.x) || is_far(p.y, at.y)
}

fn some_past(at: Point, points: &[Point]) -> bool
    ensures { result ≡ list_any (is_past at) points.now }
{
    for p in points {
        if is_past(at, *p) {
            return true;
        }
    }
    false
}

fn loops_past(at: Point, loops: &[List<Point>]) -> bool
    ensures { result ≡ list_any (list_any (is_past at)) loops.now }
{
    for points in loops {
        if some_past(at, points.as_slice()) {
            return true;
        }
    }
    false
}

/// Whether a vertex of the spine, moved by the point, has a coordinate past 2^29 nm.
pub fn spine_past(at: Point, spine: &Spine) -> bool
    ensures { result ≡ spine_past at spine.now }
{
    match spine {
        Spine::Chain(points) => some_past(at, points.as_slice()),
        Spine::Area(loops) => loops_past(at, loops.as_slice()),
    }
}

fn stack_past(at: Point, stack: &Stack) -> bool
    ensures { result ≡ stack_past at stack.now }
{
    let shapes = stack.shapes.as_slice();
    for shape in shapes {
        if spine_past(at, &shape.spine) {
            return true;
        }
    }
    false
}

// Refuses a via whose copper lies past the greatest coordinate.
#[tactic(auto, unfolding(crate::specs::Vias::past_refusal))]
fn refuse_past(
    first: &mut Option<Refusal>,
    stacks: &List<Stack>,
    place: Option<usize>,
    at: Option<Point>,
    via: &Tree,
)
    ensures { first.new ≡ noted first.old (past_refusal stacks.now place at via.now) }
{
    let (Some(place), Some(at)) = (place, at) else {
        return;
    };
    let Some(stack) = stacks.get(place) else {
        return;
    };
    if stack_past(at, stack) {
        note(first, refused(OUT_OF_RANGE, at_of(via)));
    }
}

/// The padstack of a via, of those of these names, and its place.
pub(crate) fn note_via(
    first: &mut Option<Refusal>,
    via: &Tree,
    s: Scale,
    stacks: &List<Stack>,
    names: &NameIndex,
) -> Metal
    ensures noted { first.new ≡ noted first.old (via_refusals s.nm stacks.now names.now via.now) }
    ensures value { result ≡ via_metal s.nm names.now via.now }
{
    let place = stack_place(first, names, via);
    let x = coord_of(first, via, 2, s);
    let y = coord_of(first, via, 3, s);
    let at = point_by(x, y);
    refuse_past(first, stacks, place, at, via);
    Metal::Via {
        padstack: place_index(place.unwrap_or(0)),
        at: at.unwrap_or(Point { x: 0, y: 0 }),
    }
}
