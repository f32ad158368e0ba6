//! The box of a design's first boundary.
//! Lines lie strictly inside it.

ghost use Rattle.std.specs.Prelude.{◌≡◌, flat_map};
ghost use Rattle.std.specs.Int.{int_min, int_max};
ghost use Rattle.geo_kernel.specs.Boxes.{IsLeastBox};
ghost use Rattle.pcb_model.specs.Sound.{IsSound};
ghost use Rattle.route_lattice.specs.Gather.{widened, first_points, outline_of};
ghost use Rattle.route_lattice.specs.Parts.{IsBoxWithin};

use geo_kernel::{List, Point, Rect4};
use pcb_model::Design;

pub(crate) fn box_at(p: Point) -> Rect4
    ensures { result ≡ record { x0 = p.x; y0 = p.y; x1 = p.x; y1 = p.y } }
{
    Rect4 {
        x0: p.x,
        y0: p.y,
        x1: p.x,
        y1: p.y,
    }
}

/// The least box of a box and a point.
fn grown_by(r: Rect4, p: Point) -> Rect4
    ensures x0 { result.x0 ≡ int_min r.x0 p.x }
    ensures y0 { result.y0 ≡ int_min r.y0 p.y }
    ensures x1 { result.x1 ≡ int_max r.x1 p.x }
    ensures y1 { result.y1 ≡ int_max r.y1 p.y }
{
    Rect4 {
        x0: r.x0.min(p.x),
        y0: r.y0.min(p.y),
        x1: r.x1.max(p.x),
        y1: r.y1.max(p.y),
    }
}

/// The least box of a box and points.
pub(crate) fn grown(start: Rect4, points: &[Point]) -> Rect4
    ensures { result ≡ widened start points.now }
{
    let mut r = start;
    for p in points {
        r = grown_by(r, *p);
    }
    r
}

/// The least box of a box and the points of loops.
fn grown_by_loops(start: Rect4, loops: &[List<Point>]) -> Rect4
    ensures { result ≡ widened start (flat_map (λ points. points) loops.now) }
{
    let mut r = start;
    for points in loops {
        r = grown(r, points.as_slice());
    }
    r
}

/// The least box of the points of the first boundary.
pub(crate) fn outline(d: &Design) -> Rect4
    requires { IsSound d.now }
    ensures value { result ≡ outline_of d.now }
    ensures least { IsLeastBox (first_points d.now.bounds) result }
    ensures within { IsBoxWithin result }
{
    let loops = d.bounds.as_slice()[0].as_slice();
    let first = loops[0].as_slice()[0];
    grown_by_loops(box_at(first), loops)
}
