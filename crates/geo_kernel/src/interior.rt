//! The parity rule: a point is inside the loops of an area where a ray from it meets an odd number of edges.
//! Source: even-odd rule of polygon filling, each edge without its upper end.

ghost use Rattle.std.specs.Prelude.{◌≡◌, ◌↔◌, ◌≤◌, ◌^◌, IsTrue, All, length};
ghost use Rattle.geo_kernel.specs.Plane.{IsWithin};
ghost use Rattle.geo_kernel.specs.Spine.{links, area_segments, is_right as is_right_of, IsInside};
ghost use Rattle.geo_kernel.specs.Spine.{IsFirst, IsWellFormed, IsSpineWithin};
ghost use Rattle.geo_kernel.specs.Close.{IsMovedOdd};

use crate::bounded::{Bounded, shifted};
use crate::moved::STILL;
use crate::path::{Loops, Path, Points};
use crate::segment::Segment;
use crate::{List, Point, Spine};

fn is_right(p: Bounded, g: Segment) -> bool
    ensures { result ≡ is_right_of p.at (record { from = g.from.at; to = g.to.at }) }
{
    let turn = g.to.minus(g.from).cross(p.minus(g.from));
    if g.from.at.y <= p.at.y {
        if p.at.y < g.to.at.y { 0 < turn } else { false }
    } else if g.to.at.y <= p.at.y {
        turn < 0
    } else {
        false
    }
}

fn is_odd_path(p: Bounded, path: &Path<'_>) -> bool
    ensures { IsTrue result ↔ IsMovedOdd path.now.by p.at (links path.now.start path.now.rest.now) }
{
    let mut odd = false;
    let mut from = shifted(path.start, path.by);
    for q in path.rest {
        let to = shifted(*q, path.by);
        if is_right(p, Segment { from, to }) {
            odd = !odd;
        }
        from = to;
    }
    odd
}

/// Whether the point is inside the moved loops.
pub(crate) fn is_odd_area(p: Bounded, area: &Loops<'_>) -> bool
    ensures { IsTrue result ↔ IsMovedOdd area.now.by p.at (area_segments area.now.loops.now) }
{
    let mut odd = false;
    for points in area.loops {
        let points = Points {
            points: points.as_slice(),
            by: area.by,
        };
        if is_odd_path(p, &points.closed()) {
            odd = !odd;
        }
    }
    odd
}

/// Whether the point `p` is inside the loops: the ray from it to greater x meets an odd number of their edges.
pub fn inside(p: Point, loops: &List<List<Point>>) -> bool
    requires p_within { IsWithin (2 ^ 29) p }
    requires some { All (λ points. 3 ≤ length points) loops.now }
    requires loops_within { All (All (IsWithin (2 ^ 29))) loops.now }
    ensures { IsTrue result ↔ IsInside p loops.now }
{
    let area = Loops {
        loops: loops.as_slice(),
        by: STILL,
    };
    is_odd_area(Bounded { at: p }, &area)
}

/// The first vertex of a spine.
pub fn first_point(s: &Spine) -> Point
    requires well_formed { IsWellFormed s.now }
    requires within { IsSpineWithin (2 ^ 29) s.now }
    ensures first { IsFirst s.now result }
    ensures within { IsWithin (2 ^ 29) result }
{
    match s {
        Spine::Chain(points) => points.as_slice()[0],
        Spine::Area(loops) => loops.as_slice()[0].as_slice()[0],
    }
}
