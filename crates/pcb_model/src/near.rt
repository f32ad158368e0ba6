//! Boxes, widths and layers of whole items, by which far items are told apart before any segment is looked at.
//! What a search keeps of the item that it asks about is looked up once, when the search begins.

ghost use Rattle.std.specs.Prelude.{◌≡◌, ◌↔◌, ◌≤◌, ◌+ℤ◌, ◌^◌, [], ◌∷◌, IsTrue, map, max, min, All, Some};
ghost use Rattle.std.specs.Int.{int_min, int_max};
ghost use Rattle.geo_kernel.specs.Plane.{IsWithin};
ghost use Rattle.geo_kernel.specs.Spine.{IsWellFormed, IsSpineWithin, vertices};
ghost use Rattle.geo_kernel.specs.Boxes.{IsIn, IsInBox};
ghost use Rattle.geo_kernel.specs.Moved.{moved_spine};
ghost use Rattle.pcb_model.specs.Pieces.{moved_piece, wire_piece, pieces_of, metal_of, kind_of};
ghost use Rattle.pcb_model.specs.Bounds.{IsFit, IsItemFit, IsProbeFit, IsDesignFit};
ghost use Rattle.pcb_model.specs.Near.{IsPieceIn, IsExtentOf, IsBoxWithin, moved_box_by, Encloses, AreFar};
ghost use Rattle.pcb_model.specs.Near.{SeparatesAll, IsQueryOf, box_of_points, vertices_of, extent_of};

use crate::pieces::padstack_pieces;
use crate::probe::probe_kind;
use crate::rules::{Side, reach_of};
use crate::{Design, Item, Piece, Probe};
use geo_kernel::limits::FURTHEST;
use geo_kernel::{Point, Rect4, Spine, box_of, parted};

/// A box that holds all spines of some pieces, in nm, their greatest width, and their least and greatest layer.
#[derive(Clone, Copy)]
pub struct Extent {
    pub bounds: Rect4,
    pub width: u64,
    pub first: u8,
    pub last: u8,
}

// The greatest absolute value of a coordinate.
const EDGE: i64 = FURTHEST as i64;

impl Extent {
    // That of no piece.
    fn empty() -> Extent
        ensures has { IsExtentOf [] result }
        ensures least { result ≡ extent_of [] }
    {
        Extent {
            bounds: Rect4 {
                x0: EDGE,
                y0: EDGE,
                x1: -EDGE,
                y1: -EDGE,
            },
            width: 0,
            first: u8::MAX,
            last: 0,
        }
    }

    fn on_layer(layer: u8, bounds: Rect4, width: u64) -> Extent
        ensures is { result ≡ record { bounds = bounds; width = width; first = layer; last = layer } }
        ensures layer_within { layer ≤ 255 }
    {
        Extent {
            bounds,
            width,
            first: layer,
            last: layer,
        }
    }

    // That of one piece.
    fn of_piece(p: &Piece) -> Extent
        requires { IsFit p.now }
        ensures has { IsPieceIn result p.now }
        ensures width_within { result.width ≤ 2 ^ 28 }
        ensures bounds { result.bounds ≡ box_of_points (vertices p.now.spine) }
        ensures width { result.width ≡ p.now.width }
        ensures layer_within { p.now.layer ≤ 255 }
        ensures first { result.first ≡ p.now.layer }
        ensures last { result.last ≡ p.now.layer }
    {
        Extent::on_layer(p.layer, box_of(&p.spine), p.width)
    }

    fn of_moved_piece(p: &Piece, by: Point) -> Extent
        requires p_fit { IsFit p.now }
        requires moved_fit { IsFit (moved_piece by p.now) }
        ensures has { IsPieceIn result (moved_piece by p.now) }
        ensures width_within { result.width ≤ 2 ^ 28 }
        ensures within { IsBoxWithin (2 ^ 29) result.bounds }
        ensures bounds { result.bounds ≡ box_of_points (vertices (moved_spine by p.now.spine)) }
        ensures width { result.width ≡ p.now.width }
        ensures layer_within { p.now.layer ≤ 255 }
        ensures first { result.first ≡ p.now.layer }
        ensures last { result.last ≡ p.now.layer }
    {
        Extent::on_layer(p.layer, moved_box(&p.spine, by), p.width)
    }

    // The least extent over both.
    fn joined(self, other: Extent) -> Extent
        requires self_within { self.width ≤ 2 ^ 28 }
        requires other_within { other.width ≤ 2 ^ 28 }
        ensures self_in { Encloses result self }
        ensures other_in { Encloses result other }
        ensures width_within { result.width ≤ 2 ^ 28 }
        ensures x0 { result.bounds.x0 ≡ int_min self.bounds.x0 other.bounds.x0 }
        ensures y0 { result.bounds.y0 ≡ int_min self.bounds.y0 other.bounds.y0 }
        ensures x1 { result.bounds.x1 ≡ int_max self.bounds.x1 other.bounds.x1 }
        ensures y1 { result.bounds.y1 ≡ int_max self.bounds.y1 other.bounds.y1 }
        ensures width { result.width ≡ max self.width other.width }
        ensures first { result.first ≡ min self.first other.first }
        ensures last { result.last ≡ max self.last other.last }
    {
        Extent {
            bounds: joined_box(self.bounds, other.bounds),
            width: self.width.max(other.width),
            first: self.first.min(other.first),
            last: self.last.max(other.last),
        }
    }

    fn of_pieces(ps: &[Piece]) -> Extent
        requires { All IsFit ps.now }
        ensures has { IsExtentOf ps.now result }
        ensures least { result ≡ extent_of ps.now }
    {
        let mut extent = Extent::empty();
        for p in ps {
            extent = extent.joined(Extent::of_piece(p));
        }
        extent
    }

    fn of_moved(ps: &[Piece], by: Point) -> Extent
        requires ps_fit { All IsFit ps.now }
        requires moved_fit { All (λ p. IsFit (moved_piece by p)) ps.now }
        ensures has { IsExtentOf (map (moved_piece by) ps.now) result }
        ensures least { result ≡ extent_of (map (moved_piece by) ps.now) }
        ensures within { IsBoxWithin (2 ^ 29) result.bounds }
    {
        let mut extent = Extent::empty();
        for p in ps {
            extent = extent.joined(Extent::of_moved_piece(p, by));
        }
        extent
    }

    /// That of an item's pieces.
    pub fn of_item(a: &Item) -> Extent
        requires { IsItemFit a.now }
        ensures has { IsExtentOf a.now.pieces result }
        ensures least { result ≡ extent_of a.now.pieces }
        ensures within { IsBoxWithin (2 ^ 29) result.bounds }
    {
        Extent::of_pieces(a.pieces.as_slice())
    }

    /// That of what a probe stands for.
    pub fn of_probe(d: &Design, p: &Probe) -> Extent
        requires design { IsDesignFit d.now }
        requires p_fits { IsProbeFit d.now p.now }
        ensures has { IsExtentOf (pieces_of d.now (metal_of p.now)) result }
        ensures least { result ≡ extent_of (pieces_of d.now (metal_of p.now)) }
        ensures within { IsBoxWithin (2 ^ 29) result.bounds }
    {
        match *p {
            Probe::Disc { layer, width, at } => of_wire(layer, width, at, at),
            Probe::Step { layer, width, a, b } => of_wire(layer, width, a, b),
            Probe::Via { padstack, at } => Extent::of_moved(padstack_pieces(d, padstack), at),
        }
    }

    /// Whether the extents have no layer in common, or their boxes lie so far from each other that all pieces of these
    /// extents keep each clearance up to `reach` and don't touch.
    pub fn is_far_from(&self, other: &Extent, reach: u64) -> bool
        requires reach_within { reach ≤ 2 ^ 28 }
        requires self_within { self.now.width ≤ 2 ^ 28 }
        requires other_within { other.now.width ≤ 2 ^ 28 }
        ensures far { IsTrue result ↔ AreFar reach self.now other.now }
        ensures apart { IsTrue result → SeparatesAll reach self.now other.now }
    {
        let k = 2 * reach + self.width + other.width + 1;
        self.last < other.first || other.last < self.first || parted(self.bounds, other.bounds, k)
    }
}

fn joined_box(a: Rect4, b: Rect4) -> Rect4
    ensures x0 { result.x0 ≡ int_min a.x0 b.x0 }
    ensures y0 { result.y0 ≡ int_min a.y0 b.y0 }
    ensures x1 { result.x1 ≡ int_max a.x1 b.x1 }
    ensures y1 { result.y1 ≡ int_max a.y1 b.y1 }
{
    Rect4 {
        x0: a.x0.min(b.x0),
        y0: a.y0.min(b.y0),
        x1: a.x1.max(b.x1),
        y1: a.y1.max(b.y1),
    }
}

fn shifted(r: Rect4, by: Point) -> Rect4
    requires { IsBoxWithin (2 ^ 29) (moved_box_by by r) }
    ensures x0 { result.x0 ≡ r.x0 +ℤ by.x }
    ensures y0 { result.y0 ≡ r.y0 +ℤ by.y }
    ensures x1 { result.x1 ≡ r.x1 +ℤ by.x }
    ensures y1 { result.y1 ≡ r.y1 +ℤ by.y }
    ensures within { IsBoxWithin (2 ^ 29) result }
{
    Rect4 {
        x0: r.x0 + by.x,
        y0: r.y0 + by.y,
        x1: r.x1 + by.x,
        y1: r.y1 + by.y,
    }
}

fn moved_box(s: &Spine, by: Point) -> Rect4
    requires well_formed { IsWellFormed s.now }
    requires within { IsSpineWithin (2 ^ 29) s.now }
    requires moved_within { IsSpineWithin (2 ^ 29) (moved_spine by s.now) }
    ensures has { IsInBox result (moved_spine by s.now) }
    ensures least { result ≡ box_of_points (vertices (moved_spine by s.now)) }
    ensures within { IsBoxWithin (2 ^ 29) result }
{
    shifted(box_of(s), by)
}

// The box of two points.
fn box_of_step(a: Point, b: Point) -> Rect4
    requires a_within { IsWithin (2 ^ 29) a }
    requires b_within { IsWithin (2 ^ 29) b }
    ensures a_in { IsIn result a }
    ensures b_in { IsIn result b }
    ensures x0 { result.x0 ≡ int_min a.x b.x }
    ensures y0 { result.y0 ≡ int_min a.y b.y }
    ensures x1 { result.x1 ≡ int_max a.x b.x }
    ensures y1 { result.y1 ≡ int_max a.y b.y }
{
    Rect4 {
        x0: a.x.min(b.x),
        y0: a.y.min(b.y),
        x1: a.x.max(b.x),
        y1: a.y.max(b.y),
    }
}

// The extent of a wire of these points.
fn of_wire(layer: u8, width: u64, a: Point, b: Point) -> Extent
    requires a_within { IsWithin (2 ^ 29) a }
    requires b_within { IsWithin (2 ^ 29) b }
    requires width_within { width ≤ 2 ^ 28 }
    ensures one { IsExtentOf (wire_piece layer width (a ∷ []) ∷ []) result }
    ensures two { IsExtentOf (wire_piece layer width (a ∷ b ∷ []) ∷ []) result }
    ensures least { result ≡ extent_of (wire_piece layer width (a ∷ b ∷ []) ∷ []) }
    ensures within { IsBoxWithin (2 ^ 29) result.bounds }
{
    Extent {
        bounds: box_of_step(a, b),
        width,
        first: layer,
        last: layer,
    }
}

/// What a search keeps of the item or probe that it asks about.
#[derive(Clone, Copy)]
pub struct Query {
    pub(crate) side: Side,
    pub(crate) extent: Extent,
    pub(crate) reach: u64,
}

impl Query {
    /// Of an item.
    pub(crate) fn of_item(d: &Design, a: &Item) -> Query
        requires design { IsDesignFit d.now }
        requires a_fits { IsItemFit a.now }
        ensures { IsQueryOf d.now a.now.net a.now.kind a.now.pieces result }
    {
        Query {
            side: Side::new(d, a.net, a.kind),
            extent: Extent::of_item(a),
            reach: reach_of(d),
        }
    }

    /// Of what a probe of a net stands for.
    pub(crate) fn of_probe(d: &Design, net: u32, p: &Probe) -> Query
        requires design { IsDesignFit d.now }
        requires p_fits { IsProbeFit d.now p.now }
        ensures { IsQueryOf d.now (Some net) (kind_of (metal_of p.now)) (pieces_of d.now (metal_of p.now)) result }
    {
        Query {
            side: Side::new(d, Some(net), probe_kind(p)),
            extent: Extent::of_probe(d, p),
            reach: reach_of(d),
        }
    }
}
