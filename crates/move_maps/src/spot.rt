//! Nodes whose places among the lines are known: what is looked up of them once, and where their steps lead.
//! No number of a node is divided.

ghost use Rattle.std.specs.Prelude.{◌≡◌, ◌<◌, pos, length, slice_index_or};
ghost use Rattle.std.specs.Option.{option_map};
ghost use Rattle.move_maps.specs.Spots.{IsCrossing, IsSpotOf, next_point as next_point_at, line_after as after};
ghost use Rattle.move_maps.specs.Spots.{line_before as before, across as across_at, up as up_at};

use geo_kernel::Point;
use route_lattice::Lattice;

/// A node and the places of its signal layer, its y line and its x line.
#[derive(Clone, Copy)]
pub(crate) struct Crossing {
    pub node: u32,
    pub level: usize,
    pub row: usize,
    pub column: usize,
}

/// A node with the places of its y line and its x line, its point and its layer.
#[derive(Clone, Copy)]
pub(crate) struct Spot {
    pub node: u32,
    pub row: usize,
    pub column: usize,
    pub at: Point,
    pub layer: u8,
}

// Where a y line and an x line cross.
fn crossing_at(xs: &[i64], ys: &[i64], row: usize, column: usize) -> Point
    requires row { row < length ys.now }
    requires column { column < length xs.now }
    ensures x { result.x ≡ slice_index_or xs.now column (pos 0) }
    ensures y { result.y ≡ slice_index_or ys.now row (pos 0) }
{
    Point {
        x: xs[column],
        y: ys[row],
    }
}

impl Spot {
    /// That of a node whose places are known.
    pub(crate) fn of(lat: &Lattice, crossing: Crossing) -> Spot
        requires { IsCrossing lat.now crossing }
        ensures spot { IsSpotOf lat.now result }
        ensures node { result.node ≡ crossing.node }
    {
        let layers = lat.layers().as_slice();
        let row = crossing.row;
        let column = crossing.column;
        Spot {
            node: crossing.node,
            row,
            column,
            at: crossing_at(lat.xs().as_slice(), lat.ys().as_slice(), row, column),
            layer: layers[crossing.level],
        }
    }
}

// The next line behind one.
fn line_after(lines: &[i64], at: usize) -> Option<i64>
    requires { at < length lines.now }
    ensures { result ≡ after lines.now at }
{
    if at + 1 < lines.len() {
        Some(lines[at + 1])
    } else {
        None
    }
}

// The last line before one.
fn line_before(lines: &[i64], at: usize) -> Option<i64>
    requires { at < length lines.now }
    ensures { result ≡ before lines.now at }
{
    if 0 < at { Some(lines[at - 1]) } else { None }
}

// Where a line crosses the way across through a point.
fn across(at: Point, x: Option<i64>) -> Option<Point>
    ensures { result ≡ option_map (across_at at.y) x }
{
    match x {
        Some(x) => Some(Point { x, y: at.y }),
        None => None,
    }
}

// Where a line crosses the way up through a point.
fn up(at: Point, y: Option<i64>) -> Option<Point>
    ensures { result ≡ option_map (up_at at.x) y }
{
    match y {
        Some(y) => Some(Point { x: at.x, y }),
        None => None,
    }
}

/// Where the step of a direction leads, or None where there is no such step.
pub(crate) fn next_point(lat: &Lattice, s: &Spot, dir: u32) -> Option<Point>
    requires spot { IsSpotOf lat.now s.now }
    requires dir { dir < 4 }
    ensures { result ≡ next_point_at lat.now s.now.node dir }
{
    let xs = lat.xs().as_slice();
    let ys = lat.ys().as_slice();
    match dir {
        0 => across(s.at, line_after(xs, s.column)),
        1 => across(s.at, line_before(xs, s.column)),
        2 => up(s.at, line_after(ys, s.row)),
        _ => up(s.at, line_before(ys, s.row)),
    }
}
