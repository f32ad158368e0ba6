//! Paths: a point, and the points that follow it.
//! The segments of a chain and of a loop are the links of a path.

ghost use Rattle.std.specs.Prelude.{◌≡◌, ◌<◌, ◌≤◌, All, length};
ghost use Rattle.geo_kernel.specs.Spine.{links, chain_segments, loop_segments};
ghost use Rattle.geo_kernel.specs.Close.{IsMovable};

use crate::{List, Point};

/// A path that stays within the bounds where it is, and where it is moved by `by`.
#[derive(Clone, Copy)]
pub(crate) struct Path<'a> {
    pub start: Point,
    pub rest: &'a [Point],
    pub by: Point,
    ghost start_movable: { IsMovable by start },
    ghost rest_movable: { All (IsMovable by) rest.now },
}

/// The points of a chain or of a loop, with the same bounds.
#[derive(Clone, Copy)]
pub(crate) struct Points<'a> {
    pub points: &'a [Point],
    pub by: Point,
    ghost some: { 0 < length points.now },
    ghost movable: { All (IsMovable by) points.now },
}

/// The loops of an area, with the same bounds.
#[derive(Clone, Copy)]
pub(crate) struct Loops<'a> {
    pub loops: &'a [List<Point>],
    pub by: Point,
    ghost some: { All (λ points. 3 ≤ length points) loops.now },
    ghost movable: { All (All (IsMovable by)) loops.now },
}

impl<'a> Points<'a> {
    /// The path of a chain; a chain of one point leads back to it.
    pub(crate) fn chain(&self) -> Path<'a>
        ensures links { links result.start result.rest.now ≡ chain_segments self.now.points.now }
        ensures by { result.by ≡ self.now.by }
    {
        let start = self.points[0];
        if self.points.len() == 1 {
            Path {
                start,
                rest: self.points,
                by: self.by,
            }
        } else {
            Path {
                start,
                rest: &self.points[1..],
                by: self.by,
            }
        }
    }

    /// The path of a loop, from its last point.
    pub(crate) fn closed(&self) -> Path<'a>
        ensures links { links result.start result.rest.now ≡ loop_segments self.now.points.now }
        ensures by { result.by ≡ self.now.by }
    {
        Path {
            start: self.points[self.points.len() - 1],
            rest: self.points,
            by: self.by,
        }
    }
}
