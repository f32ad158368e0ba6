//! Points, distances and vectors whose numbers are small enough that products of them are exact.
//! Each keeps its bound, so what computes with them needs no premise.

ghost use Rattle.std.specs.Prelude.{◌≡◌, ◌≤◌, ◌^◌, ◌-ℤ◌, ◌*ℤ◌, unsigned_abs};
ghost use Rattle.geo_kernel.specs.Plane.{IsWithin};
ghost use Rattle.geo_kernel.specs.Moved.{moved};
ghost use Rattle.geo_kernel.specs.Nearest.{dot as dot_of, cross as cross_of};
ghost use Rattle.geo_kernel.specs.Close.{IsMovable};

use crate::Point;

/// A point within the bounds of coordinates.
#[derive(Clone, Copy)]
pub(crate) struct Bounded {
    pub at: Point,
    ghost within: { IsWithin (2 ^ 29) at },
}

/// Twice a distance.
#[derive(Clone, Copy)]
pub(crate) struct Doubled {
    pub value: u64,
    ghost within: { value ≤ 2 ^ 30 },
}

/// The vector between two points.
#[derive(Clone, Copy)]
pub(crate) struct Vector {
    pub x: i64,
    pub y: i64,
    ghost within: { (unsigned_abs x ≤ 2 ^ 30) × (unsigned_abs y ≤ 2 ^ 30) },
}

pub(crate) fn shifted(p: Point, by: Point) -> Bounded
    requires { IsMovable by p }
    ensures { result.at ≡ moved by p }
{
    Bounded {
        at: Point {
            x: p.x + by.x,
            y: p.y + by.y,
        },
    }
}

// One product of the sums below.
fn times(a: i64, b: i64) -> i64
    requires a_within { unsigned_abs a ≤ 2 ^ 30 }
    requires b_within { unsigned_abs b ≤ 2 ^ 30 }
    ensures value { result ≡ a *ℤ b }
    ensures within { unsigned_abs result ≤ 2 ^ 60 }
{
    a * b
}

impl Bounded {
    /// The vector from `q` to the point.
    pub(crate) fn minus(self, q: Bounded) -> Vector
        ensures x { result.x ≡ self.at.x -ℤ q.at.x }
        ensures y { result.y ≡ self.at.y -ℤ q.at.y }
    {
        Vector {
            x: self.at.x - q.at.x,
            y: self.at.y - q.at.y,
        }
    }
}

impl Vector {
    pub(crate) fn dot(self, v: Vector) -> i64
        ensures value { result ≡ dot_of self.x self.y v.x v.y }
        ensures within { unsigned_abs result ≤ 2 ^ 61 }
    {
        times(self.x, v.x) + times(self.y, v.y)
    }

    pub(crate) fn cross(self, v: Vector) -> i64
        ensures value { result ≡ cross_of self.x self.y v.x v.y }
        ensures within { unsigned_abs result ≤ 2 ^ 61 }
    {
        times(self.x, v.y) - times(self.y, v.x)
    }
}
