//! Coordinates up to 2^29 nm, also of what is moved.
//! Nothing here makes a moved piece.

ghost use Rattle.std.specs.Prelude.{◌≡◌, ◌↔◌, ◌≤◌, ◌^◌, All, IsTrue, map, unsigned_abs};
ghost use Rattle.geo_kernel.specs.Plane.{IsWithin};
ghost use Rattle.geo_kernel.specs.Moved.{moved, moved_spine};
ghost use Rattle.geo_kernel.specs.Spine.{IsSpineWithin};
ghost use Rattle.pcb_model.specs.declared.item.Piece.{Piece as OnePiece};
ghost use Rattle.pcb_model.specs.Bounds.{IsDesignFit, IsFit};
ghost use Rattle.pcb_model.specs.Pieces.{moved_piece, pieces_of};

use geo_kernel::limits::FURTHEST;
use geo_kernel::{List, Point, Spine};
use pcb_model::pieces::padstack_pieces;
use pcb_model::{Design, Metal, Piece, move_point};

/// Whether both coordinates are at most 2^29 in absolute value.
pub(crate) fn is_near(p: Point) -> bool
    ensures { IsTrue result ↔ IsWithin (2 ^ 29) p }
{
    p.x.unsigned_abs() <= FURTHEST && p.y.unsigned_abs() <= FURTHEST
}

/// Whether those of each point are.
pub(crate) fn are_near(points: &[Point]) -> bool
    ensures { IsTrue result ↔ All (IsWithin (2 ^ 29)) points.now }
{
    for p in points {
        if !is_near(*p) {
            return false;
        }
    }
    true
}

fn are_near_at(points: &[Point], at: Point) -> bool
    requires points_within { All (IsWithin (2 ^ 29)) points.now }
    requires at_within { IsWithin (2 ^ 29) at }
    ensures { IsTrue result ↔ All (IsWithin (2 ^ 29)) (map (moved at) points.now) }
{
    for p in points {
        if !is_near(move_point(*p, at)) {
            return false;
        }
    }
    true
}

fn are_loops_near_at(loops: &[List<Point>], at: Point) -> bool
    requires loops_within { All (All (IsWithin (2 ^ 29))) loops.now }
    requires at_within { IsWithin (2 ^ 29) at }
    ensures { IsTrue result ↔ All (All (IsWithin (2 ^ 29))) (map (map (moved at)) loops.now) }
{
    for points in loops {
        if !are_near_at(points.as_slice(), at) {
            return false;
        }
    }
    true
}

fn is_spine_near_at(s: &Spine, at: Point) -> bool
    requires within { IsSpineWithin (2 ^ 29) s.now }
    requires at_within { IsWithin (2 ^ 29) at }
    ensures { IsTrue result ↔ IsSpineWithin (2 ^ 29) (moved_spine at s.now) }
{
    match s {
        Spine::Chain(points) => are_near_at(points.as_slice(), at),
        Spine::Area(loops) => are_loops_near_at(loops.as_slice(), at),
    }
}

fn are_pieces_near_at(ps: &[Piece], at: Point) -> bool
    requires fit { All IsFit ps.now }
    requires at_within { IsWithin (2 ^ 29) at }
    ensures { IsTrue result ↔ All (λ (p : OnePiece). IsSpineWithin (2 ^ 29) p.spine) (map (moved_piece at) ps.now) }
{
    for p in ps {
        if !is_spine_near_at(&p.spine, at) {
            return false;
        }
    }
    true
}

/// Whether those of each piece of a via of the padstack are.
pub(crate) fn is_via_near(d: &Design, padstack: u32, at: Point) -> bool
    requires design { IsDesignFit d.now }
    requires at_within { IsWithin (2 ^ 29) at }
    ensures { IsTrue result ↔
        All (λ (p : OnePiece). IsSpineWithin (2 ^ 29) p.spine) (pieces_of d.now (Metal.Via padstack at)) }
{
    are_pieces_near_at(padstack_pieces(d, padstack), at)
}
