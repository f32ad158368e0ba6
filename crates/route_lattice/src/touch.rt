//! Whether a point lies in copper, or on a wire's spine.
//! Nothing here takes memory.

ghost use Rattle.std.specs.Prelude.{◌≡◌, ◌↔◌, ◌≤◌, ◌<◌, ◌^◌, IsTrue, All, Any, length};
ghost use Rattle.geo_kernel.specs.Plane.{IsWithin};
ghost use Rattle.geo_kernel.specs.Spine.{Touches, links, chain_segments, area_segments};
ghost use Rattle.pcb_model.specs.Bounds.{IsFit};
ghost use Rattle.pcb_model.specs.Sound.{Covers};

use geo_kernel::{List, Point, Spine, inside, seg_touches};
use pcb_model::Piece;

fn touches_path(p: Point, start: Point, points: &[Point], k: u64) -> bool
    requires p_within { IsWithin (2 ^ 29) p }
    requires start_within { IsWithin (2 ^ 29) start }
    requires points_within { All (IsWithin (2 ^ 29)) points.now }
    requires k_within { k ≤ 2 ^ 30 }
    ensures { IsTrue result ↔ Any (Touches k (record { from = p; to = p })) (links start points.now) }
{
    let mut last = start;
    for q in points {
        if seg_touches(p, p, last, *q, k) {
            return true;
        }
        last = *q;
    }
    false
}

/// Whether the point is at most half of `k` from a segment of the chain of these points.
pub(crate) fn touches_chain(p: Point, points: &[Point], k: u64) -> bool
    requires p_within { IsWithin (2 ^ 29) p }
    requires some { 0 < length points.now }
    requires points_within { All (IsWithin (2 ^ 29)) points.now }
    requires k_within { k ≤ 2 ^ 30 }
    ensures { IsTrue result ↔ Any (Touches k (record { from = p; to = p })) (chain_segments points.now) }
{
    if points.len() == 1 {
        touches_path(p, points[0], points, k)
    } else {
        touches_path(p, points[0], &points[1..], k)
    }
}

fn touches_loops(p: Point, loops: &[List<Point>], k: u64) -> bool
    requires p_within { IsWithin (2 ^ 29) p }
    requires some { All (λ points. 3 ≤ length points) loops.now }
    requires loops_within { All (All (IsWithin (2 ^ 29))) loops.now }
    requires k_within { k ≤ 2 ^ 30 }
    ensures { IsTrue result ↔ Any (Touches k (record { from = p; to = p })) (area_segments loops.now) }
{
    for points in loops {
        let corners = points.as_slice();
        if touches_path(p, corners[corners.len() - 1], corners, k) {
            return true;
        }
    }
    false
}

/// Whether the point lies in the copper of the piece.
pub(crate) fn covers(p: Point, piece: &Piece) -> bool
    requires p_within { IsWithin (2 ^ 29) p }
    requires piece_fit { IsFit piece.now }
    ensures { IsTrue result ↔ Covers p piece.now }
{
    match &piece.spine {
        Spine::Chain(points) => touches_chain(p, points.as_slice(), piece.width),
        Spine::Area(loops) => touches_loops(p, loops.as_slice(), piece.width) || inside(p, loops),
    }
}
