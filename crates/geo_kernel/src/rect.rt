//! Boxes of spines, and whether two boxes are far enough apart for all that lies in them.
//! The test of two boxes answers most pairs of spines without looking at their segments.

ghost use Rattle.std.specs.Prelude.{◌≡◌, ◌↔◌, ◌≤◌, ◌<◌, ◌^◌, ◌⊎◌, ℕ, IsTrue, flat_map};
ghost use Rattle.geo_kernel.specs.declared.spine.Spine.{Spine as Drawn};
ghost use Rattle.geo_kernel.specs.Spine.{SpinesKeep, SpinesTouch, IsWellFormed, IsSpineWithin};
ghost use Rattle.geo_kernel.specs.Boxes.{IsIn, IsInBox, IsBoxOf, IsGap, IsParted};
ghost use Rattle.std.specs.Int.{int_min, int_max};
ghost use Rattle.geo_kernel.specs.Grown.{IsGrown};

use crate::interior::first_point;
use crate::{List, Point, Rect4, Spine};

fn is_beyond(hi: i64, lo: i64, k: u64) -> bool
    ensures { IsTrue result ↔ IsGap hi lo k }
{
    k as i128 <= 2 * (lo as i128 - hi as i128)
}

fn beyond_along(a0: i64, a1: i64, b0: i64, b1: i64, k: u64) -> bool
    ensures { IsTrue result ↔ (IsGap a1 b0 k ⊎ IsGap b1 a0 k) }
{
    is_beyond(a1, b0, k) || is_beyond(b1, a0, k)
}

pub(crate) fn are_beyond(a: Rect4, b: Rect4, k: u64) -> bool
    ensures { IsTrue result ↔ IsParted a b k }
{
    beyond_along(a.x0, a.x1, b.x0, b.x1, k) || beyond_along(a.y0, a.y1, b.y0, b.y1, k)
}

/// Whether one box lies beyond the other by at least `k / 2`, along x or along y.
///
/// All spines in boxes that are parted by `k` above 0 keep `k`, and touch by no smaller distance.
pub fn parted(a: Rect4, b: Rect4, k: u64) -> bool
    ensures parted { IsTrue result ↔ IsParted a b k }
    ensures keep { IsTrue result → 0 < k → (s t : Drawn) → IsInBox a s → IsInBox b t → SpinesKeep s t k }
    ensures apart { IsTrue result → (s t : Drawn) → IsInBox a s → IsInBox b t → (j : ℕ) → j < k
        → ¬ (SpinesTouch s t j) }
{
    are_beyond(a, b, k)
}

fn widened(r: Rect4, p: Point) -> Rect4
    ensures x0 { result.x0 ≡ int_min r.x0 p.x }
    ensures y0 { result.y0 ≡ int_min r.y0 p.y }
    ensures x1 { result.x1 ≡ int_max r.x1 p.x }
    ensures y1 { result.y1 ≡ int_max r.y1 p.y }
{
    Rect4 {
        x0: r.x0.min(p.x),
        y0: r.y0.min(p.y),
        x1: r.x1.max(p.x),
        y1: r.y1.max(p.y),
    }
}

fn box_at(p: Point) -> Rect4
    ensures { result ≡ record { x0 = p.x; y0 = p.y; x1 = p.x; y1 = p.y } }
{
    Rect4 {
        x0: p.x,
        y0: p.y,
        x1: p.x,
        y1: p.y,
    }
}

/// A box that holds two points.
pub(crate) fn span(a: Point, b: Point) -> Rect4
    ensures first { IsIn result a }
    ensures second { IsIn result b }
{
    widened(box_at(a), b)
}

fn grow(start: Rect4, points: &[Point]) -> Rect4
    ensures { IsGrown start result points.now }
{
    let mut r = start;
    for p in points {
        r = widened(r, *p);
    }
    r
}

fn grow_all(start: Rect4, loops: &[List<Point>]) -> Rect4
    ensures { IsGrown start result (flat_map (λ points. points) loops.now) }
{
    let mut r = start;
    for points in loops {
        r = grow(r, points.as_slice());
    }
    r
}

/// The least box that holds the vertices of a spine, and so its segments.
pub fn box_of(s: &Spine) -> Rect4
    requires well_formed { IsWellFormed s.now }
    requires within { IsSpineWithin (2 ^ 29) s.now }
    ensures { IsBoxOf s.now result }
{
    let start = box_at(first_point(s));
    match s {
        Spine::Chain(points) => grow(start, points.as_slice()),
        Spine::Area(loops) => grow_all(start, loops.as_slice()),
    }
}
