//! The sheet that a picture is drawn on: the box of the board's edge, and a unit that grows with it.

ghost use Rattle.std.specs.Prelude.{◌≡◌, ◌≤◌, ◌^◌, slice_index_or, []};
ghost use Rattle.std.specs.Int.{int_min, int_max};
ghost use Rattle.pcb_model.specs.Sound.{origin};
ghost use Rattle.board_picture.specs.Sheet.{grown_by_loop, grown_by_bound, box_at, first_point, box_of};
ghost use Rattle.board_picture.specs.Sheet.{sheet_in, sheet_of, sheet_width, sheet_height, rows_of};
ghost use Rattle.board_picture.specs.Sheet.{narrow_side, legend_left, shift_x, shift_y};

use geo_kernel::{List, Point, Rect4};
use pcb_model::Design;

/// The board's left and upper end, how wide and high it is, and the unit of the legend; in nm.
#[derive(Clone, Copy)]
pub(crate) struct Sheet {
    pub left: i64,
    pub top: i64,
    pub wide: u64,
    pub high: u64,
    pub unit: u64,
}

fn grown(b: Rect4, p: Point) -> Rect4
    ensures x0 { result.x0 ≡ int_min b.x0 p.x }
    ensures y0 { result.y0 ≡ int_min b.y0 p.y }
    ensures x1 { result.x1 ≡ int_max b.x1 p.x }
    ensures y1 { result.y1 ≡ int_max b.y1 p.y }
{
    Rect4 {
        x0: b.x0.min(p.x),
        y0: b.y0.min(p.y),
        x1: b.x1.max(p.x),
        y1: b.y1.max(p.y),
    }
}

fn grown_by_loop(b: Rect4, points: &[Point]) -> Rect4
    ensures { result ≡ grown_by_loop b points.now }
{
    let mut all = b;
    for p in points {
        all = grown(all, *p);
    }
    all
}

fn grown_by_bound(b: Rect4, loops: &[List<Point>]) -> Rect4
    ensures { result ≡ grown_by_bound b loops.now }
{
    let mut all = b;
    for points in loops {
        all = grown_by_loop(all, points.as_slice());
    }
    all
}

fn first_in_loops(loops: &[List<Point>]) -> Point
    ensures { result ≡ slice_index_or (slice_index_or loops.now 0 []) 0 origin }
{
    match loops {
        [] => Point { x: 0, y: 0 },
        [points, ..] => match points.as_slice() {
            [] => Point { x: 0, y: 0 },
            [p, ..] => *p,
        },
    }
}

fn first_point(bounds: &[List<List<Point>>]) -> Point
    ensures { result ≡ first_point bounds.now }
{
    match bounds {
        [] => Point { x: 0, y: 0 },
        [loops, ..] => first_in_loops(loops.as_slice()),
    }
}

fn box_at(p: Point) -> Rect4
    ensures { result ≡ box_at p }
{
    Rect4 {
        x0: p.x,
        y0: p.y,
        x1: p.x,
        y1: p.y,
    }
}

fn box_of(bounds: &[List<List<Point>>]) -> Rect4
    ensures { result ≡ box_of bounds.now }
{
    let mut all = box_at(first_point(bounds));
    for loops in bounds {
        all = grown_by_bound(all, loops.as_slice());
    }
    all
}

/// The shorter side of the least box of the points of an area.
pub(crate) fn narrow_side(loops: &[List<Point>]) -> u64
    ensures { result ≡ narrow_side loops.now }
{
    let b = grown_by_bound(box_at(first_in_loops(loops)), loops);
    b.x1.abs_diff(b.x0).min(b.y1.abs_diff(b.y0))
}

fn sheet_in(b: Rect4) -> Sheet
    ensures value { result ≡ sheet_in b }
    ensures small { result.unit ≤ 2 ^ 59 }
{
    let wide = b.x1.abs_diff(b.x0);
    let high = b.y1.abs_diff(b.y0);
    Sheet {
        left: b.x0,
        top: b.y1,
        wide,
        high,
        unit: wide.max(high) / 40,
    }
}

/// The sheet of a design.
#[tactic(auto, unfolding(crate::specs::Sheet::sheet_of))]
pub(crate) fn sheet_of(d: &Design) -> Sheet
    ensures value { result ≡ sheet_of d.now }
    ensures small { result.unit ≤ 2 ^ 59 }
{
    sheet_in(box_of(d.bounds.as_slice()))
}

/// Where the legend begins.
pub(crate) fn legend_left(s: Sheet) -> u128
    ensures { result ≡ legend_left s }
{
    u128::from(s.wide) + 3 * u128::from(s.unit)
}

/// How far the board is moved to the right.
pub(crate) fn shift_x(s: Sheet) -> i128
    ensures { result ≡ shift_x s }
{
    2 * i128::from(s.unit) - i128::from(s.left)
}

/// How far it is moved downwards, with y turned.
pub(crate) fn shift_y(s: Sheet) -> i128
    ensures { result ≡ shift_y s }
{
    i128::from(s.unit) + i128::from(s.top)
}

/// How wide the sheet is, with its legend.
pub(crate) fn sheet_width(s: Sheet) -> u128
    ensures { result ≡ sheet_width s }
{
    u128::from(s.wide) + 17 * u128::from(s.unit)
}

/// How high the sheet is, with its legend.
pub(crate) fn sheet_height(s: Sheet, d: &Design) -> u128
    requires { s.unit ≤ 2 ^ 59 }
    ensures { result ≡ sheet_height s (rows_of d.now) }
{
    let rows = d.layers.len() as u128 + 11;
    let legend = rows * u128::from(s.unit);
    u128::from(s.high).max(legend) + 2 * u128::from(s.unit)
}
