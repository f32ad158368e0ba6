//! Two segments: whether they keep a distance, and whether they touch by it.
//! Squared distances are compared as fractions, in whole numbers of 128 bits.

ghost use Rattle.std.specs.Prelude.{◌≡◌, ◌↔◌, ◌⊎◌, pos, ◌*◌, ◌≤◌, ◌^◌, ◌*ℤ◌, ◌≤ℤ◌, IsTrue, unsigned_abs};
ghost use Rattle.geo_kernel.specs.Plane.{SegmentsKeep, SegmentsTouch, IsWithin};
ghost use Rattle.geo_kernel.specs.Nearest.{norm, cross, IsNearest, Meets, Cross, EndsKeep, EndsTouch};

use crate::Point;
use crate::bounded::{Bounded, Doubled, Vector};
use crate::rect::{are_beyond, span};

// A squared distance, as a fraction.
#[derive(Clone, Copy)]
struct Near {
    above: i128,
    below: i64,
    ghost above_within: { unsigned_abs above ≤ 2 ^ 122 },
    ghost below_within: { unsigned_abs below ≤ 2 ^ 61 },
}

/// A segment, from one end to the other.
#[derive(Clone, Copy)]
pub(crate) struct Segment {
    pub from: Bounded,
    pub to: Bounded,
}

fn wide(a: i64, b: i64) -> i128
    requires a_within { unsigned_abs a ≤ 2 ^ 61 }
    requires b_within { unsigned_abs b ≤ 2 ^ 61 }
    ensures value { result ≡ a *ℤ b }
    ensures within { unsigned_abs result ≤ 2 ^ 122 }
{
    a as i128 * b as i128
}

fn meets(c: i64, g: i64, h: i64) -> bool
    ensures { IsTrue result ↔ Meets c g h }
{
    c > 0 && 0 <= g && g <= c && 0 <= h && h <= c
}

impl Near {
    // The squared length of `v`.
    fn of(v: Vector) -> Near
        ensures above { result.above ≡ norm v.x v.y }
        ensures below { result.below ≡ pos 1 }
    {
        Near {
            above: v.dot(v) as i128,
            below: 1,
        }
    }

    // The squared distance of the end of `w` from the line along `v`.
    fn beside(w: Vector, v: Vector) -> Near
        ensures above { result.above ≡ cross w.x w.y v.x v.y *ℤ cross w.x w.y v.x v.y }
        ensures below { result.below ≡ norm v.x v.y }
    {
        let area = w.cross(v);
        Near {
            above: wide(area, area),
            below: v.dot(v),
        }
    }

    fn is_at_least(self, k: Doubled) -> bool
        ensures { IsTrue result ↔ ((pos (k.value * k.value) *ℤ self.below) ≤ℤ (pos 4 *ℤ self.above)) }
    {
        wide((k.value * k.value) as i64, self.below) <= 4 * self.above
    }

    fn is_at_most(self, k: Doubled) -> bool
        ensures { IsTrue result ↔ ((pos 4 *ℤ self.above) ≤ℤ (pos (k.value * k.value) *ℤ self.below)) }
    {
        4 * self.above <= wide((k.value * k.value) as i64, self.below)
    }
}

// The squared distance of a point from the segment between two others. It takes points, since a segment would have to
// be laid out in memory for each call.
fn nearest(p: Bounded, from: Bounded, to: Bounded) -> Near
    ensures { IsNearest p.at from.at to.at result.above result.below }
{
    let w = p.minus(from);
    let v = to.minus(from);
    let along = w.dot(v);
    let length = v.dot(v);
    if along <= 0 {
        Near::of(w)
    } else if along >= length {
        Near::of(p.minus(to))
    } else {
        Near::beside(w, v)
    }
}

// Whether the segments `a` `b` and `c` `d` have a point in common, and aren't parallel.
fn crosses(a: Bounded, b: Bounded, c: Bounded, d: Bounded) -> bool
    ensures { IsTrue result ↔ Cross a.at b.at c.at d.at }
{
    let w = a.minus(c);
    let u = b.minus(a);
    let v = d.minus(c);
    let all = u.cross(v);
    let first = v.cross(w);
    let second = u.cross(w);
    meets(all, first, second) || meets(-all, -first, -second)
}

impl Segment {
    fn keeps_point(self, p: Bounded, k: Doubled) -> bool
        ensures { IsTrue result ↔ SegmentsKeep p.at p.at self.from.at self.to.at k.value }
    {
        nearest(p, self.from, self.to).is_at_least(k)
    }

    fn touches_point(self, p: Bounded, k: Doubled) -> bool
        ensures { IsTrue result ↔ SegmentsTouch p.at p.at self.from.at self.to.at k.value }
    {
        nearest(p, self.from, self.to).is_at_most(k)
    }

    fn ends_keep(self, g: Segment, k: Doubled) -> bool
        ensures { IsTrue result ↔ EndsKeep self.from.at self.to.at g.from.at g.to.at k.value }
    {
        g.keeps_point(self.from, k)
            && g.keeps_point(self.to, k)
            && self.keeps_point(g.from, k)
            && self.keeps_point(g.to, k)
    }

    // Whether an end of `g` touches the segment.
    fn touches_end(self, g: Segment, k: Doubled) -> bool
        ensures { IsTrue result ↔ (SegmentsTouch g.from.at g.from.at self.from.at self.to.at k.value
            ⊎ SegmentsTouch g.to.at g.to.at self.from.at self.to.at k.value) }
    {
        self.touches_point(g.from, k) || self.touches_point(g.to, k)
    }

    fn ends_touch(self, g: Segment, k: Doubled) -> bool
        ensures { IsTrue result ↔ EndsTouch self.from.at self.to.at g.from.at g.to.at k.value }
    {
        g.touches_end(self, k) || self.touches_end(g, k)
    }

    /// Whether any two points of the segments are at least half of `k` apart.
    pub(crate) fn keeps(self, g: Segment, k: Doubled) -> bool
        ensures { IsTrue result ↔ SegmentsKeep self.from.at self.to.at g.from.at g.to.at k.value }
    {
        let mine = span(self.from.at, self.to.at);
        if are_beyond(mine, span(g.from.at, g.to.at), k.value) {
            true
        } else if k.value > 0 && crosses(self.from, self.to, g.from, g.to) {
            false
        } else {
            self.ends_keep(g, k)
        }
    }

    /// Whether some two points of the segments are at most half of `k` apart.
    pub(crate) fn touches(self, g: Segment, k: Doubled) -> bool
        ensures { IsTrue result ↔ SegmentsTouch self.from.at self.to.at g.from.at g.to.at k.value }
    {
        let mine = span(self.from.at, self.to.at);
        if are_beyond(mine, span(g.from.at, g.to.at), k.value + 1) {
            false
        } else if crosses(self.from, self.to, g.from, g.to) {
            true
        } else {
            self.ends_touch(g, k)
        }
    }
}

/// Whether any two points of the segments `a` `b` and `c` `d` are at least half of `k` apart.
pub fn seg_keeps(a: Point, b: Point, c: Point, d: Point, k: u64) -> bool
    requires a_within { IsWithin (2 ^ 29) a }
    requires b_within { IsWithin (2 ^ 29) b }
    requires c_within { IsWithin (2 ^ 29) c }
    requires d_within { IsWithin (2 ^ 29) d }
    requires k_within { k ≤ 2 ^ 30 }
    ensures { IsTrue result ↔ SegmentsKeep a b c d k }
{
    let g = Segment {
        from: Bounded { at: a },
        to: Bounded { at: b },
    };
    let h = Segment {
        from: Bounded { at: c },
        to: Bounded { at: d },
    };
    g.keeps(h, Doubled { value: k })
}

/// Whether some two points of the segments `a` `b` and `c` `d` are at most half of `k` apart.
pub fn seg_touches(a: Point, b: Point, c: Point, d: Point, k: u64) -> bool
    requires a_within { IsWithin (2 ^ 29) a }
    requires b_within { IsWithin (2 ^ 29) b }
    requires c_within { IsWithin (2 ^ 29) c }
    requires d_within { IsWithin (2 ^ 29) d }
    requires k_within { k ≤ 2 ^ 30 }
    ensures { IsTrue result ↔ SegmentsTouch a b c d k }
{
    let g = Segment {
        from: Bounded { at: a },
        to: Bounded { at: b },
    };
    let h = Segment {
        from: Bounded { at: c },
        to: Bounded { at: d },
    };
    g.touches(h, Doubled { value: k })
}
