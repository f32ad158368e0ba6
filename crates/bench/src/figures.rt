//! Figures at places that a small generator of numbers picks.
//! Those of one kind are alike in size, so that only their places decide.

ghost use Rattle.std.specs.Prelude.{◌≡◌, ◌≤◌, ◌<◌, ◌^◌, length, All, IfOk, unsigned_abs};
ghost use Rattle.geo_kernel.specs.Plane.{IsWithin};
ghost use Rattle.geo_kernel.specs.Spine.{IsWellFormed, IsSpineWithin};
ghost use Rattle.geo_kernel.specs.Props.{well_formed_prop, spine_within_prop};

use crate::numbers::Numbers;
use geo_kernel::{List, Point, Spine};
use std::alloc::{AllocError, Global};

/// A spine that the tests may be given.
#[derive(Drop)]
pub struct Figure {
    pub spine: Spine,
    ghost well_formed: { IsWellFormed spine } by { well_formed_prop spine },
    ghost within: { IsSpineWithin (2 ^ 29) spine } by { spine_within_prop (2 ^ 29) spine },
}

fn moved(p: Point, x: i64, y: i64) -> Point
    requires p_within { IsWithin (2 ^ 27) p }
    requires x_within { unsigned_abs x ≤ 2 ^ 27 }
    requires y_within { unsigned_abs y ≤ 2 ^ 27 }
    ensures { IsWithin (2 ^ 29) result }
{
    Point {
        x: p.x + x,
        y: p.y + y,
    }
}

/// A point in the square from 0 to `span`.
pub fn place(numbers: &mut Numbers, span: u32) -> Point
    requires some { 0 < span }
    requires small { span ≤ 2 ^ 27 }
    ensures { IsWithin (2 ^ 27) result }
{
    let x = numbers.below(span);
    let y = numbers.below(span);
    Point { x, y }
}

/// A chain of one point.
pub fn circle(alloc: Global, p: Point) -> Result<Figure, AllocError>
    requires { IsWithin (2 ^ 27) p }
{
    let points = List::from_slice(alloc, &[p])?;
    Ok(Figure {
        spine: Spine::Chain(points),
    })
}

/// A chain of two points, the second moved from the first.
pub fn segment(alloc: Global, p: Point, by: Point) -> Result<Figure, AllocError>
    requires p_within { IsWithin (2 ^ 27) p }
    requires by_within { IsWithin (2 ^ 27) by }
{
    let points = List::from_slice(alloc, &[p, moved(p, by.x, by.y)])?;
    Ok(Figure {
        spine: Spine::Chain(points),
    })
}

/// Corner `i` of `count`, at even steps along the sides of the square of `size` that begins at `p`.
fn corner(p: Point, i: u32, count: u32, size: u32) -> Point
    requires p_within { IsWithin (2 ^ 27) p }
    requires some { 0 < count }
    requires within { i < count }
    requires small { size ≤ 2 ^ 24 }
    ensures { IsWithin (2 ^ 29) result }
{
    let way = (i as u64 * size as u64 * 4 / count as u64) as i64;
    let size = size as i64;
    if way < size {
        moved(p, way, 0)
    } else if way < 2 * size {
        moved(p, size, way - size)
    } else if way < 3 * size {
        moved(p, 3 * size - way, size)
    } else if way < 4 * size {
        moved(p, 0, 4 * size - way)
    } else {
        moved(p, 0, 0)
    }
}

fn corners(alloc: Global, p: Point, count: u32, size: u32) -> Result<List<Point>, AllocError>
    requires p_within { IsWithin (2 ^ 27) p }
    requires small { size ≤ 2 ^ 24 }
    ensures { IfOk result (λ points. (length points ≡ count) × All (IsWithin (2 ^ 29)) points) }
{
    let mut points = List::new(alloc);
    for i in 0..count {
        points.push(corner(p, i, count, size))?;
    }
    Ok(points)
}

/// An area of one loop with `count` corners, on the sides of a square.
pub fn polygon(alloc: Global, p: Point, count: u32, size: u32) -> Result<Figure, AllocError>
    requires p_within { IsWithin (2 ^ 27) p }
    requires corners { 3 ≤ count }
    requires small { size ≤ 2 ^ 24 }
{
    let points = corners(alloc, p, count, size)?;
    let mut loops = List::new(alloc);
    loops.push(points)?;
    Ok(Figure {
        spine: Spine::Area(loops),
    })
}
