//! Lines between two numbers, and boxes of points, for what is laid beside the lattice.
//! The lines are found as those of a lattice are.

ghost use Rattle.std.specs.Prelude.{◌≡◌, ◌<◌, ◌≤◌, ◌^◌, unsigned_abs, length, IfOk, All};
ghost use Rattle.geo_kernel.specs.Plane.{IsWithin};
ghost use Rattle.geo_kernel.specs.Boxes.{IsLeastBox};
ghost use Rattle.pcb_model.specs.Sound.{IsSound};
ghost use Rattle.route_lattice.specs.Gather.{coordinate, first_points, high_side, least_box as least_box_of, low_side};
ghost use Rattle.route_lattice.specs.Lines.{line_list};
ghost use Rattle.route_lattice.specs.Parts.{IsBoxWithin};
ghost use Rattle.route_lattice.specs.Round.{nearest};
ghost use Rattle.route_lattice.specs.Spans.{IsRulerFit};

use crate::axis::{axis_len, axis_lines, axis_of};
use crate::lines::Ruler;
use crate::outline::{box_at, grown, outline};
use crate::round::round_nearest;
use geo_kernel::{List, Point, Rect4};
use pcb_model::Design;
use std::alloc::{AllocError, Global};

// The ruler along y where upright, else along x.
fn ruler(unit: u64, grid: u64, upright: bool, frame: Rect4) -> Ruler
    requires some_unit { 0 < unit }
    requires short_unit { unit ≤ 2 ^ 29 }
    requires some_grid { 0 < grid }
    requires fine_grid { grid ≤ 2 ^ 30 }
    requires frame { IsBoxWithin frame }
    ensures fit { IsRulerFit result }
    ensures unit { result.unit ≡ unit }
    ensures grid { result.grid ≡ grid }
    ensures low { result.low ≡ low_side upright frame }
    ensures high { result.high ≡ high_side upright frame }
{
    if upright {
        Ruler {
            unit,
            grid,
            low: frame.y0,
            high: frame.y1,
        }
    } else {
        Ruler {
            unit,
            grid,
            low: frame.x0,
            high: frame.x1,
        }
    }
}

/// The numbers strictly between the ends of a box, along y where upright, else along x, that are multiples of the grid,
/// rounded down to the unit, or are among the anchors: ascending, each once.
pub fn lines_between(
    alloc: Global,
    unit: u64,
    grid: u64,
    upright: bool,
    frame: Rect4,
    anchors: &[i64],
) -> Result<List<i64>, AllocError>
    requires some_unit { 0 < unit }
    requires short_unit { unit ≤ 2 ^ 29 }
    requires some_grid { 0 < grid }
    requires fine_grid { grid ≤ 2 ^ 30 }
    requires frame { IsBoxWithin frame }
    requires few { length anchors.now ≤ 2 ^ 26 }
    ensures { IfOk result
        (λ xs. xs ≡ line_list unit grid (low_side upright frame) (high_side upright frame) anchors.now) }
{
    let axis = axis_of(alloc, ruler(unit, grid, upright, frame), anchors)?;
    axis_lines(alloc, &axis)
}

/// How many lines there are, without a list of them.
pub fn line_count(
    alloc: Global,
    unit: u64,
    grid: u64,
    upright: bool,
    frame: Rect4,
    anchors: &[i64],
) -> Result<u64, AllocError>
    requires some_unit { 0 < unit }
    requires short_unit { unit ≤ 2 ^ 29 }
    requires some_grid { 0 < grid }
    requires fine_grid { grid ≤ 2 ^ 30 }
    requires frame { IsBoxWithin frame }
    requires few { length anchors.now ≤ 2 ^ 26 }
    ensures value { IfOk result
        (λ n. n ≡ length (line_list unit grid (low_side upright frame) (high_side upright frame) anchors.now)) }
    ensures small { IfOk result (λ n. n ≤ 2 ^ 34) }
{
    let axis = axis_of(alloc, ruler(unit, grid, upright, frame), anchors)?;
    Ok(axis_len(&axis))
}

// The box of the first point, grown by the others.
fn grown_box(points: &[Point]) -> Rect4
    requires { 0 < length points.now }
    ensures { result ≡ least_box_of points.now }
{
    grown(box_at(points[0]), &points[1..])
}

/// The least box of some points.
pub fn least_box(points: &[Point]) -> Rect4
    requires some { 0 < length points.now }
    requires within { All (IsWithin (2 ^ 29)) points.now }
    ensures value { result ≡ least_box_of points.now }
    ensures within { IsBoxWithin result }
{
    grown_box(points)
}

/// A coordinate of a point within 2^29, rounded to the nearest multiple of the unit, half upwards.
pub fn rounded_coordinate(unit: u64, upright: bool, p: Point) -> i64
    requires some { 0 < unit }
    requires short { unit ≤ 2 ^ 29 }
    requires within { IsWithin (2 ^ 29) p }
    ensures value { result ≡ nearest unit (coordinate upright p) }
    ensures within { unsigned_abs result ≤ 2 ^ 30 }
{
    round_nearest(unit, if upright { p.y } else { p.x })
}

/// The least box of the first boundary, strictly inside which the lines of a lattice lie.
pub fn board_box(d: &Design) -> Rect4
    requires { IsSound d.now }
    ensures least { IsLeastBox (first_points d.now.bounds) result }
    ensures within { IsBoxWithin result }
{
    outline(d)
}
