//! A point of a component's image, placed on the board.
//! On the back x is negated, before the turn or after it as the flip style says.

ghost use Rattle.std.specs.Prelude.{◌≡◌, ◌<◌, ◌≤◌, ◌^◌, IfSome};
ghost use Rattle.std.specs.Bool.{OnTrue};
ghost use Rattle.geo_kernel.specs.Plane.{IsWithin};
ghost use Rattle.geo_kernel.specs.Moved.{moved};
ghost use Rattle.dsn_placement.specs.Placed.{mirrored, flipped, is_near, placed_point};

use dsn_units::{Angle, rotate};
use geo_kernel::Point;
use geo_kernel::limits::FURTHEST;

fn mirrored(p: Point) -> Point
    requires { IsWithin (2 ^ 36) p }
    ensures { result ≡ mirrored p }
{
    Point { x: -p.x, y: p.y }
}

// The point on its side of the board, turned.
fn flipped(p: Point, back: bool, flip_last: bool, a: Angle) -> Point
    requires p_within { IsWithin (2 ^ 31) p }
    requires reduced { a.microdegrees < 360000000 }
    ensures value { result ≡ flipped back flip_last a p }
    ensures within { IsWithin (2 ^ 36) result }
{
    if !back {
        rotate(p, a)
    } else if flip_last {
        mirrored(rotate(p, a))
    } else {
        rotate(mirrored(p), a)
    }
}

/// The point moved by the vector.
pub(crate) fn moved(p: Point, by: Point) -> Point
    requires p_within { IsWithin (2 ^ 36) p }
    requires by_within { IsWithin (2 ^ 29) by }
    ensures { result ≡ moved by p }
{
    Point {
        x: p.x + by.x,
        y: p.y + by.y,
    }
}

fn is_near(p: Point) -> bool
    ensures value { result ≡ is_near p }
    ensures within { OnTrue result (IsWithin (2 ^ 29) p) }
{
    p.x.unsigned_abs() <= FURTHEST && p.y.unsigned_abs() <= FURTHEST
}

/// The point `p` of an image, in nm, of a component that is turned by `a` and stands at `at`.
/// On the back x is negated: before the turn, or after it where `flip_last` is set.
/// None exactly where a coordinate of the placed point passes 2^29 in absolute value.
pub fn place_point(p: Point, back: bool, flip_last: bool, a: Angle, at: Point) -> Option<Point>
    requires p_within { IsWithin (2 ^ 31) p }
    requires at_within { IsWithin (2 ^ 29) at }
    requires reduced { a.microdegrees < 360000000 }
    ensures value { result ≡ placed_point p back flip_last a at }
    ensures within { IfSome result (IsWithin (2 ^ 29)) }
{
    let placed = moved(flipped(p, back, flip_last, a), at);
    if is_near(placed) { Some(placed) } else { None }
}
