//! What no clause shows: worked distances, and each public call.
//! A distance is given twice, as `k`.

ghost use Rattle.std.specs.Prelude.{◌≡◌, ◌≤◌, ◌<◌, ◌^◌, ◌∷◌, [], pos, All, IfOk, length, unsigned_abs};
ghost use Rattle.geo_kernel.specs.Plane.{IsWithin};
ghost use Rattle.geo_kernel.specs.Spine.{IsWellFormed, IsSpineWithin};
ghost use Rattle.geo_kernel.specs.Props.{well_formed_prop, spine_within_prop};

use geo_kernel::{
    List, Point, Rect4, Spine, box_of, first_point, inside, on_spine, parted, points_keep,
    seg_keeps, seg_touches, spine_keeps, spine_keeps_moved, spine_touch, spine_touch_moved,
};
use std::alloc::{AllocError, Global};

fn at(x: i16, y: i16) -> Point
    ensures { IsWithin (2 ^ 29) result }
{
    Point {
        x: x as i64,
        y: y as i64,
    }
}

// ---- segments, each by the x and y of its two ends

type End = (i16, i16);

#[derive(Clone, Copy)]
struct Pair {
    a: End,
    b: End,
    c: End,
    d: End,
}

/// Whether the segments keep `k / 2` exactly where `keeps` says so, and touch by it exactly where `touches` does.
fn is_so(pair: Pair, k: u16, keeps: bool, touches: bool) -> bool {
    let (a, b) = (at(pair.a.0, pair.a.1), at(pair.b.0, pair.b.1));
    let (c, d) = (at(pair.c.0, pair.c.1), at(pair.d.0, pair.d.1));
    seg_keeps(a, b, c, d, k as u64) == keeps && seg_touches(a, b, c, d, k as u64) == touches
}

const FAR: i64 = 536870912;

/// The diagonal of all that may be asked for, and the upper left corner.
fn diagonal_keeps_from_corner() -> bool {
    let low = Point { x: -FAR, y: -FAR };
    let high = Point { x: FAR, y: FAR };
    let corner = Point { x: -FAR, y: FAR };
    seg_keeps(low, high, corner, corner, 1073741824)
}

static SEGMENTS: [(End, End, End, End, u16, bool, bool); 6] = [
    ((0, 0), (10, 10), (0, 10), (10, 0), 0, true, true),
    ((0, 0), (10, 10), (0, 10), (10, 0), 1, false, true),
    ((0, 0), (4, 3), (3, -4), (3, -4), 9, true, false),
    ((0, 0), (4, 3), (3, -4), (3, -4), 10, true, true),
    ((0, 0), (4, 3), (3, -4), (3, -4), 11, false, true),
    ((0, 0), (10, 0), (5, 0), (20, 0), 1, false, true),
];

#[test]
fn segments_keep_and_touch_by_worked_distances(rt: HostRuntime) {
    for &(a, b, c, d, k, keeps, touches) in &SEGMENTS {
        assert!(rt; is_so(Pair { a, b, c, d }, k, keeps, touches), "at {k}");
    }
    assert!(rt; diagonal_keeps_from_corner());
}

// ---- chains and areas

#[derive(Drop)]
struct Figure {
    spine: Spine,
    ghost well_formed: { IsWellFormed spine } by { well_formed_prop spine },
    ghost within: { IsSpineWithin (2 ^ 29) spine } by { spine_within_prop (2 ^ 29) spine },
}

/// The chain from (5, 5) to (5, 6).
fn line(alloc: Global) -> Result<Figure, AllocError> {
    Ok(Figure {
        spine: Spine::Chain(List::from_slice(alloc, &[at(5, 5), at(5, 6)])?),
    })
}

/// The chain of the one point (5, 5).
fn dot(alloc: Global) -> Result<Spine, AllocError>
    ensures { IfOk result (λ s. s ≡ Spine.Chain (record { x = pos 5; y = pos 5 } ∷ [])) }
{
    let mut points = List::new(alloc);
    points.push(Point { x: 5, y: 5 })?;
    Ok(Spine::Chain(points))
}

fn ring(alloc: Global, corners: &[Point; 4]) -> Result<List<Point>, AllocError>
    requires { All (IsWithin (2 ^ 29)) corners.now }
    ensures { IfOk result (λ points. (length points ≡ 4) × All (IsWithin (2 ^ 29)) points) }
{
    List::from_slice(alloc, corners)
}

fn square(alloc: Global, low: i16, high: i16) -> Result<List<Point>, AllocError>
    ensures { IfOk result (λ points. (length points ≡ 4) × All (IsWithin (2 ^ 29)) points) }
{
    ring(
        alloc,
        &[at(low, low), at(high, low), at(high, high), at(low, high)],
    )
}

/// The loop of the square from 0 to 10, and that of a square hole from 3 to 7.
fn loops(alloc: Global, hole: bool) -> Result<List<List<Point>>, AllocError>
    ensures some { IfOk result (λ loops. 0 < length loops) }
    ensures close { IfOk result (All (λ points. 3 ≤ length points)) }
    ensures within { IfOk result (All (All (IsWithin (2 ^ 29)))) }
{
    let mut loops = List::new(alloc);
    loops.push(square(alloc, 0, 10)?)?;
    if hole {
        loops.push(square(alloc, 3, 7)?)?;
    }
    Ok(loops)
}

fn area(alloc: Global, hole: bool) -> Result<Figure, AllocError> {
    Ok(Figure {
        spine: Spine::Area(loops(alloc, hole)?),
    })
}

// ---- the line and the point beside the squares

/// Whether the line's points keep `k / 2` from the ring where `keeps` says so, and it touches the ring where
/// `touches` does.
fn line_is_so(line: &Figure, ring: &Figure, k: u16, keeps: bool, touches: bool) -> bool {
    points_keep(&[at(5, 5), at(5, 6)], &ring.spine, k as u64) == keeps
        && spine_touch(&line.spine, &ring.spine, k as u64) == touches
}

fn has_its_points(line: &Figure) -> bool {
    on_spine(at(5, 6), &line.spine)
        && !on_spine(at(5, 7), &line.spine)
        && first_point(&line.spine) == at(5, 5)
}

/// Whether the line keeps and touches by its distance: it ends 1 below the hole's upper edge.
fn line_keeps_and_touches(alloc: Global, ring: &Figure) -> bool {
    match line(alloc) {
        Ok(line) => {
            has_its_points(&line)
                && line_is_so(&line, ring, 1, true, false)
                && line_is_so(&line, ring, 2, true, true)
                && line_is_so(&line, ring, 3, false, true)
        }
        Err(_) => false,
    }
}

/// Whether the point keeps `k / 2` from the figure.
fn dot_keeps(dot: &Spine, figure: &Figure, k: u16) -> bool
    requires { dot.now ≡ Spine.Chain (record { x = pos 5; y = pos 5 } ∷ []) }
{
    spine_keeps(dot, &figure.spine, k as u64)
}

/// Whether the point, moved to the right by `x`, keeps from the ring where `keeps` says so, and touches where
/// `touches` does.
fn moved_is_so(dot: &Spine, ring: &Figure, x: i16, k: u16, keeps: bool, touches: bool) -> bool
    requires { dot.now ≡ Spine.Chain (record { x = pos 5; y = pos 5 } ∷ []) }
{
    let by = Point { x: x as i64, y: 0 };
    spine_keeps_moved(dot, by, &ring.spine, k as u64) == keeps
        && spine_touch_moved(dot, by, &ring.spine, k as u64) == touches
}

/// Whether the point keeps and touches by its distance: 2 from the hole's edges, 5 beyond the ring, and in its copper.
fn dot_keeps_and_touches(alloc: Global, ring: &Figure) -> bool {
    match dot(alloc) {
        Ok(dot) => {
            dot_keeps(&dot, ring, 4)
                && !dot_keeps(&dot, ring, 5)
                && moved_is_so(&dot, ring, 10, 9, true, false)
                && moved_is_so(&dot, ring, 10, 10, true, true)
                && moved_is_so(&dot, ring, 10, 11, false, true)
                && moved_is_so(&dot, ring, 3, 0, false, true)
        }
        Err(_) => false,
    }
}

fn rect(x0: i64, y0: i64, x1: i64, y1: i64) -> Rect4 {
    Rect4 { x0, y0, x1, y1 }
}

/// Whether the hole of the ring is outside, and the least box is that of the outer square.
fn has_its_hole(ring: &Figure) -> bool {
    match &ring.spine {
        Spine::Chain(_) => false,
        Spine::Area(loops) => {
            inside(at(2, 5), loops)
                && !inside(at(5, 5), loops)
                && box_of(&ring.spine) == rect(0, 0, 10, 10)
        }
    }
}

#[test]
fn a_line_and_a_point_keep_from_a_ring_and_touch_it_by_their_distances(rt: HostRuntime) {
    let ring = area(rt.alloc(), true).expect(&rt, "no ring");
    assert!(rt; has_its_hole(&ring) && line_keeps_and_touches(rt.alloc(), &ring));
    assert!(rt; dot_keeps_and_touches(rt.alloc(), &ring));
}

#[test]
fn a_point_in_a_square_keeps_nothing_from_it(rt: HostRuntime) {
    let square = area(rt.alloc(), false).expect(&rt, "no square");
    let dot = dot(rt.alloc()).expect(&rt, "no point");
    assert!(rt; !dot_keeps(&dot, &square, 1));
}

#[test]
fn boxes_are_parted_by_up_to_twice_their_gap(rt: HostRuntime) {
    let left = rect(0, 0, 10, 10);
    let right = rect(12, 0, 20, 9);
    assert!(rt; parted(left, right, 4) && !parted(right, left, 5));
}

// ---- lists

/// Whether the list of these four letters gives the second, the last and the third.
fn gives_back(list: &mut List<u8>) -> bool {
    list.len() == 4
        && list.remove(1) == b'b'
        && list.pop() == Some(b'd')
        && list.get(1) == Some(&b'c')
        && !list.is_empty()
}

#[test]
fn a_list_gives_back_what_was_put_in(rt: HostRuntime) {
    let letters = "abcd"
        .as_bytes()
        .to_vec(rt.alloc())
        .expect(&rt, "no letters");
    let mut list = List::from_vec(letters);
    assert!(rt; gives_back(&mut list));
    assert!(rt; list.into_vec().as_slice() == "ac".as_bytes());
}
