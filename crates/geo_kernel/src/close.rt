//! Whether some segment of one spine is close to some segment of another.
//! One set of loops serves both tests, keeping and touching, and moves the first spine as it goes.

ghost use Rattle.std.specs.Prelude.{◌↔◌, ◌^◌, IsTrue, Any};
ghost use Rattle.geo_kernel.specs.Spine.{links, area_segments, spine_segments, chain_segments, IsWellFormed};
ghost use Rattle.geo_kernel.specs.Spine.{IsSpineWithin};
ghost use Rattle.geo_kernel.specs.Moved.{moved_spine};
ghost use Rattle.geo_kernel.specs.Close.{IsClose, IsCloseTo, IsMovedClose};
ghost use Rattle.geo_kernel.specs.Props.{well_formed_prop, spine_within_prop};

use crate::Spine;
use crate::bounded::{Bounded, Doubled, shifted};
use crate::moved::{Moved, STILL};
use crate::path::{Loops, Path, Points};
use crate::segment::Segment;

/// What is asked of two segments: that they don't keep a distance, or that they touch by it.
#[derive(Clone, Copy)]
pub(crate) enum Closeness {
    Nearer,
    Touching,
}

/// What is asked of a segment: that it is close to some segment of the spine `t`.
#[derive(Clone, Copy)]
pub(crate) struct CloseTo<'a> {
    pub how: Closeness,
    pub t: &'a Spine,
    pub k: Doubled,
    ghost well_formed: { IsWellFormed t.now } by { well_formed_prop t.now },
    ghost within: { IsSpineWithin (2 ^ 29) t.now } by { spine_within_prop (2 ^ 29) t.now },
}

impl CloseTo<'_> {
    fn is_pair(&self, g: Segment, h: Segment) -> bool
        ensures { IsTrue result ↔ IsClose self.now.how self.now.k.value
            (record { from = g.from.at; to = g.to.at }) (record { from = h.from.at; to = h.to.at }) }
    {
        match self.how {
            Closeness::Nearer => !g.keeps(h, self.k),
            Closeness::Touching => g.touches(h, self.k),
        }
    }

    // The segment against a path of `t`.
    fn is_path(&self, g: Segment, path: &Path<'_>) -> bool
        ensures { IsTrue result ↔ Any
            (IsClose self.now.how self.now.k.value (record { from = g.from.at; to = g.to.at }))
            (links path.now.start path.now.rest.now) }
    {
        let mut last = path.start;
        for p in path.rest {
            let link = Segment {
                from: Bounded { at: last },
                to: Bounded { at: *p },
            };
            if self.is_pair(g, link) {
                return true;
            }
            last = *p;
        }
        false
    }

    // The segment against the loops of `t`.
    fn is_area(&self, g: Segment, area: &Loops<'_>) -> bool
        ensures { IsTrue result ↔ Any
            (IsClose self.now.how self.now.k.value (record { from = g.from.at; to = g.to.at }))
            (area_segments area.now.loops.now) }
    {
        for points in area.loops {
            let points = Points {
                points: points.as_slice(),
                by: area.by,
            };
            if self.is_path(g, &points.closed()) {
                return true;
            }
        }
        false
    }

    pub(crate) fn is_segment(&self, g: Segment) -> bool
        ensures { IsTrue result ↔ IsCloseTo self.now.how self.now.k.value self.now.t.now
            (record { from = g.from.at; to = g.to.at }) }
    {
        match self.t {
            Spine::Chain(points) => {
                let points = Points {
                    points: points.as_slice(),
                    by: STILL,
                };
                self.is_path(g, &points.chain())
            }
            Spine::Area(loops) => {
                let area = Loops {
                    loops: loops.as_slice(),
                    by: STILL,
                };
                self.is_area(g, &area)
            }
        }
    }

    fn is_moved_path(&self, path: &Path<'_>) -> bool
        ensures { IsTrue result ↔ Any (IsMovedClose self.now.how self.now.k.value self.now.t.now path.now.by)
            (links path.now.start path.now.rest.now) }
    {
        let mut from = shifted(path.start, path.by);
        for p in path.rest {
            let to = shifted(*p, path.by);
            if self.is_segment(Segment { from, to }) {
                return true;
            }
            from = to;
        }
        false
    }

    pub(crate) fn is_moved_chain(&self, points: &Points<'_>) -> bool
        ensures { IsTrue result ↔ Any (IsMovedClose self.now.how self.now.k.value self.now.t.now points.now.by)
            (chain_segments points.now.points.now) }
    {
        self.is_moved_path(&points.chain())
    }

    fn is_moved_area(&self, area: &Loops<'_>) -> bool
        ensures { IsTrue result ↔ Any (IsMovedClose self.now.how self.now.k.value self.now.t.now area.now.by)
            (area_segments area.now.loops.now) }
    {
        for points in area.loops {
            let points = Points {
                points: points.as_slice(),
                by: area.by,
            };
            if self.is_moved_path(&points.closed()) {
                return true;
            }
        }
        false
    }

    /// Whether some segment of the moved spine is close to some segment of `t`.
    pub(crate) fn is_spine(&self, s: &Moved<'_>) -> bool
        ensures { IsTrue result ↔ Any (IsCloseTo self.now.how self.now.k.value self.now.t.now)
            (spine_segments (moved_spine s.now.by s.now.spine.now)) }
    {
        match s.spine {
            Spine::Chain(points) => {
                let points = Points {
                    points: points.as_slice(),
                    by: s.by,
                };
                self.is_moved_chain(&points)
            }
            Spine::Area(loops) => {
                let area = Loops {
                    loops: loops.as_slice(),
                    by: s.by,
                };
                self.is_moved_area(&area)
            }
        }
    }
}
