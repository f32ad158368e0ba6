//! A bound by the boxes of the goals: a walk costs at least the way along the axes to the nearest of them.
//! It holds on a lattice whose steps cost the gaps that they cross.

ghost use Rattle.std.specs.Prelude.{◌≡◌, ◌≤◌, ◌<◌, ◌^◌, ℕ, List as Seq, All, IfOk, IfSome, OnOk, length, min};
ghost use Rattle.std.specs.Prelude.{unsigned_abs};
ghost use Rattle.std.specs.Int.{int_min, int_max};
ghost use Rattle.std.proofs.Props.{props};
ghost use Rattle.geo_kernel.specs.declared.point.Point.{Point as OnePoint};
ghost use Rattle.geo_kernel.specs.declared.point.Rect4.{Rect4 as OneBox};
ghost use Rattle.geo_kernel.specs.Plane.{IsWithin};
ghost use Rattle.pcb_model.specs.declared.design.Design.{Design as TheDesign};
ghost use Rattle.pcb_model.specs.declared.item.Item.{Item as OneItem};
ghost use Rattle.route_lattice.specs.Legal.{legal_graph, CanMove};
ghost use Rattle.route_lattice.specs.Mesh.{Mesh};
ghost use Rattle.route_lattice.specs.Parts.{IsBoxWithin};
ghost use Rattle.wave_search.specs.Around.{AreLinesWithin, box_at, IsHeldBy, AreAround, above_by};
ghost use Rattle.wave_search.specs.Around.{outside_of, way_to as way_to_box, way_to_nearest, low_at};
ghost use Rattle.wave_search.specs.Bounds.{IsBound};

use crate::bound::Bound;
use geo_kernel::{List, Point, Rect4};
use route_lattice::Lattice;
use std::alloc::{AllocError, Global};

/// How many boxes a bound has at most: a look at the bound goes over them.
const MOST_BOXES: usize = 64;

/// A goal joins a box that it is as near as this, in nm, where the box stays as thin as this.
const NEAR: u64 = 1_000_000;

/// The box of a point alone.
fn box_of(p: Point) -> Rect4
    ensures { result ≡ box_at p }
{
    Rect4 {
        x0: p.x,
        y0: p.y,
        x1: p.x,
        y1: p.y,
    }
}

/// The least box of a box and a point.
fn grown_by(r: Rect4, p: Point) -> Rect4
    ensures x0 { result.x0 ≡ int_min r.x0 p.x }
    ensures y0 { result.y0 ≡ int_min r.y0 p.y }
    ensures x1 { result.x1 ≡ int_max r.x1 p.x }
    ensures y1 { result.y1 ≡ int_max r.y1 p.y }
{
    Rect4 {
        x0: r.x0.min(p.x),
        y0: r.y0.min(p.y),
        x1: r.x1.max(p.x),
        y1: r.y1.max(p.y),
    }
}

/// How far a coordinate is above another, in nm; 0 where it isn't.
fn above(a: i64, b: i64) -> u64
    requires a { unsigned_abs a ≤ 2 ^ 29 }
    requires b { unsigned_abs b ≤ 2 ^ 29 }
    ensures value { result ≡ above_by a b }
    ensures small { result ≤ 2 ^ 30 }
{
    if b < a { (a - b).unsigned_abs() } else { 0 }
}

/// How far a coordinate is below `low` or above `high`, in nm.
fn outside(low: i64, high: i64, x: i64) -> u64
    requires low { unsigned_abs low ≤ 2 ^ 29 }
    requires high { unsigned_abs high ≤ 2 ^ 29 }
    requires x { unsigned_abs x ≤ 2 ^ 29 }
    ensures value { result ≡ outside_of low high x }
    ensures small { result ≤ 2 ^ 30 }
{
    above(low, x).max(above(x, high))
}

/// The way along the axes from a point to a box, in nm.
fn way_to(r: Rect4, p: Point) -> u64
    requires r { IsBoxWithin r }
    requires p { IsWithin (2 ^ 29) p }
    ensures { result ≡ way_to_box r p }
{
    outside(r.x0, r.x1, p.x) + outside(r.y0, r.y1, p.y)
}

/// The lesser of a way and the one along the axes from a point to a box, in nm.
fn lesser_way(least: u64, r: Rect4, p: Point) -> u64
    requires r { IsBoxWithin r }
    requires p { IsWithin (2 ^ 29) p }
    ensures { result ≡ min least (way_to_box r p) }
{
    let across = outside(r.x0, r.x1, p.x);
    if least <= across {
        return least;
    }
    least.min(across + outside(r.y0, r.y1, p.y))
}

/// The way along the axes from a point to the nearest of the boxes, in nm, at most 2^31.
fn nearest_way(boxes: &[Rect4], p: Point) -> u64
    requires boxes { All IsBoxWithin boxes.now }
    requires p { IsWithin (2 ^ 29) p }
    ensures { result ≡ way_to_nearest boxes.now p }
{
    let mut least: u64 = 1 << 31;
    for r in boxes {
        least = lesser_way(least, *r, p);
    }
    least
}

/// Whether a box is thin.
fn is_thin(r: Rect4) -> bool
    requires { IsBoxWithin r }
{
    above(r.x1, r.x0) <= NEAR || above(r.y1, r.y0) <= NEAR
}

/// The place of a box that a point joins, or None where it takes one of its own.
fn place_for(boxes: &[Rect4], p: Point) -> Option<usize>
    requires boxes { All IsBoxWithin boxes.now }
    requires p { IsWithin (2 ^ 29) p }
    ensures { IfSome result (λ k. k < length boxes.now) }
{
    let mut place = 0;
    let mut least = u64::MAX;
    for k in 0..boxes.len() {
        let way = way_to(boxes[k], p);
        if way < least {
            least = way;
            place = k;
        }
    }
    if place >= boxes.len() {
        return None;
    }
    if boxes.len() >= MOST_BOXES || least <= NEAR && is_thin(grown_by(boxes[place], p)) {
        Some(place)
    } else {
        None
    }
}

/// Widens one of the boxes by a point, or adds a box for it.
fn take_in(boxes: &mut Vec<Rect4>, p: Point) -> Result<(), AllocError>
    requires boxes { All IsBoxWithin boxes.old.items }
    requires p { IsWithin (2 ^ 29) p }
    ensures within { OnOk result (All IsBoxWithin boxes.new.items) }
    ensures keeps { OnOk result ((q : OnePoint) → IsHeldBy boxes.old.items q → IsHeldBy boxes.new.items q) }
    ensures holds { OnOk result (IsHeldBy boxes.new.items p) }
{
    if let Some(k) = place_for(boxes.as_slice(), p) {
        let grown = grown_by(boxes[k], p);
        boxes[k] = grown;
        return Ok(());
    }
    boxes.push(box_of(p))?;
    Ok(())
}

/// Takes in the points of those of the numbers that are nodes.
fn take_in_nodes(boxes: &mut Vec<Rect4>, lat: &Lattice, nodes: &[u32]) -> Result<(), AllocError>
    requires lines { AreLinesWithin lat.now }
    requires boxes { All IsBoxWithin boxes.old.items }
    ensures { OnOk result (AreAround lat.now nodes.now boxes.new.items) }
{
    for v in nodes {
        let node = *v;
        if node < lat.count() {
            take_in(boxes, lat.point(node))?;
        }
    }
    Ok(())
}

/// The distance of a node's point from the nearest of the boxes of the goals, as a sum over x and y, in nm.
#[derive(Drop)]
pub struct BoxBound<'a> {
    pub lat: &'a Lattice,
    pub boxes: List<Rect4>,
    ghost lines_within: { AreLinesWithin lat.now },
    ghost boxes_within: { All IsBoxWithin boxes } by { Prim.hlevel props },
}

impl<'a> BoxBound<'a> {
    /// The bound for these goals, of which those that are no nodes don't count.
    pub fn of(
        alloc: Global,
        lat: &'a Lattice,
        goals: &List<u32>,
    ) -> Result<BoxBound<'a>, AllocError>
        requires { AreLinesWithin lat.now }
        ensures lat { IfOk result (λ b. b.lat.now ≡ lat.now) }
        ensures around { IfOk result (λ b. AreAround lat.now goals.now b.boxes) }
    {
        let mut boxes = Vec::new(alloc);
        take_in_nodes(&mut boxes, lat, goals.as_slice())?;
        Ok(BoxBound {
            lat,
            boxes: List::from_vec(boxes),
        })
    }
}

impl Bound for BoxBound<'_> {
    ghost low_of = { λ s v. low_at s.lat.now s.boxes v };

    fn low(&self, node: u32) -> u64 {
        if node < self.lat.count() {
            nearest_way(self.boxes.as_slice(), self.lat.point(node))
        } else {
            0
        }
    }
}

/// Over the legal moves of a net on a lattice of its design, the distance from the nearest of boxes around the
/// goals is a bound for them. A law, on a call that does nothing.
pub fn box_bound_sound()
    ensures { (d : TheDesign) (m : Mesh) (items : Seq OneItem) (net via_cost : ℕ) (goals : Seq ℕ)
        (boxes : Seq OneBox) → CanMove d m net via_cost → AreAround m goals boxes
        → IsBound (legal_graph d m items net via_cost) goals (low_at m boxes) }
{}
