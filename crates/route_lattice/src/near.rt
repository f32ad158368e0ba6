//! Whether copper stays within 2^29 nm where it is moved to a node, and on which layers it lies.
//! A sum that doesn't fit its type is further away than that, so nothing is asked of the numbers.

ghost use Rattle.std.specs.Prelude.{◌≡◌, ◌^◌, ◌+ℤ◌, nat_le, unsigned_abs};
ghost use Rattle.std.specs.List.{list_all, list_any};
ghost use Rattle.route_lattice.specs.Near.{is_near_at, are_near_at};
ghost use Rattle.route_lattice.specs.Ways.{has_copper as has_copper_on, can_join as can_join_at};

use geo_kernel::limits::FURTHEST;
use geo_kernel::{List, Point, Spine};
use pcb_model::Piece;

fn is_close(a: i64, by: i64) -> bool
    ensures { result ≡ nat_le (unsigned_abs (a +ℤ by)) (2 ^ 29) }
{
    match a.checked_add(by) {
        Some(sum) => sum.unsigned_abs() <= FURTHEST,
        None => false,
    }
}

fn is_near(p: Point, by: Point) -> bool
    ensures { result ≡ is_near_at by p }
{
    is_close(p.x, by.x) && is_close(p.y, by.y)
}

fn are_near(points: &[Point], by: Point) -> bool
    ensures { result ≡ list_all (is_near_at by) points.now }
{
    for p in points {
        if !is_near(*p, by) {
            return false;
        }
    }
    true
}

fn loops_near(loops: &[List<Point>], by: Point) -> bool
    ensures { result ≡ list_all (list_all (is_near_at by)) loops.now }
{
    for points in loops {
        if !are_near(points.as_slice(), by) {
            return false;
        }
    }
    true
}

/// Whether all vertices of the pieces stay within 2^29 nm where they are moved by a vector.
pub fn pieces_near(pieces: &[Piece], by: Point) -> bool
    ensures { result ≡ are_near_at by pieces.now }
{
    for q in pieces {
        let near = match &q.spine {
            Spine::Chain(points) => are_near(points.as_slice(), by),
            Spine::Area(loops) => loops_near(loops.as_slice(), by),
        };
        if !near {
            return false;
        }
    }
    true
}

/// Whether some piece lies on the layer.
pub fn has_copper(pieces: &[Piece], layer: u8) -> bool
    ensures { result ≡ has_copper_on pieces.now layer }
{
    for q in pieces {
        if q.layer == layer {
            return true;
        }
    }
    false
}

/// Whether the pieces join two layers at a point.
pub(crate) fn can_join(pieces: &[Piece], at: Point, from: u8, to: u8) -> bool
    ensures { result ≡ can_join_at pieces.now at from to }
{
    from != to && has_copper(pieces, from) && has_copper(pieces, to) && pieces_near(pieces, at)
}
