//! Which nodes anchor an item: those at which a search for a way from it may start.
//! A wire is anchored on its spine, a via and a pad at their centres.

ghost use Rattle.std.specs.Prelude.{◌≡◌, ◌↔◌, ◌<◌, ◌^◌, IsTrue, All, Any, length, slice_get};
ghost use Rattle.std.specs.Option.{IsSomeAnd};
ghost use Rattle.pcb_model.specs.declared.design.Pin.{Pin as OnePin};
ghost use Rattle.geo_kernel.specs.Plane.{IsWithin};
ghost use Rattle.pcb_model.specs.Bounds.{IsFit};
ghost use Rattle.pcb_model.specs.Sound.{IsSound, IsItemOf};
ghost use Rattle.pcb_model.specs.Scale.{scale_of};
ghost use Rattle.route_lattice.specs.Mesh.{node_count};
ghost use Rattle.route_lattice.specs.Fits.{FitsDesign};
ghost use Rattle.route_lattice.specs.Anchors.{rounded, Holds, IsAnchorOf, Anchors};

use crate::mesh::Lattice;
use crate::round::round_nearest;
use crate::touch::{covers, touches_chain};
use geo_kernel::Point;
use pcb_model::{Design, Item, Metal, Piece};
use std::marker::Model;

/// An item of a sound design, and a lattice of the design.
#[derive(Drop)]
pub(crate) struct LatticeItem<'a> {
    pub lat: &'a Lattice,
    pub d: &'a Design,
    pub item: &'a Item,
}

impl<'a> Model for LatticeItem<'a> {
    ghost use Rattle.route_lattice.specs.Found.{LatticeItemOf, IsLatticeItem};

    ghost Value = { LatticeItemOf };

    ghost view = { λ s. record { d = s.d.now; lat = s.lat.now; item = s.item.now } };

    ghost invariant = { λ s. IsLatticeItem s.d.now s.lat.now s.item.now };
}

fn holds(layer: u8, p: Point, piece: &Piece) -> bool
    requires p_within { IsWithin (2 ^ 29) p }
    requires piece_fit { IsFit piece.now }
    ensures { IsTrue result ↔ Holds layer p piece.now }
{
    piece.layer == layer && covers(p, piece)
}

fn some_holds(layer: u8, p: Point, pieces: &[Piece]) -> bool
    requires p_within { IsWithin (2 ^ 29) p }
    requires fit { All IsFit pieces.now }
    ensures { IsTrue result ↔ Any (Holds layer p) pieces.now }
{
    for piece in pieces {
        if holds(layer, p, piece) {
            return true;
        }
    }
    false
}

impl LatticeItem<'_> {
    /// The point with each coordinate rounded to the nearest multiple of the session unit, half upwards.
    fn rounded(&self, p: Point) -> Point
        requires { IsWithin (2 ^ 29) p }
        ensures { result ≡ rounded (scale_of self.now.d).nm p }
    {
        let unit = self.lat.unit();
        Point {
            x: round_nearest(unit, p.x),
            y: round_nearest(unit, p.y),
        }
    }

    /// The anchor of a pin's pad: its centre, rounded.
    pub(crate) fn pin_anchor(&self, pin: u32) -> Point
        requires { pin < length self.now.d.pins }
        ensures { IsSomeAnd (slice_get self.now.d.pins pin)
            (λ (q : OnePin). rounded (scale_of self.now.d).nm q.centre ≡ result) }
    {
        self.rounded(self.d.pins.as_slice()[pin as usize].centre)
    }

    fn is_anchor(&self, p: Point) -> bool
        requires { IsWithin (2 ^ 29) p }
        ensures { IsTrue result ↔ IsAnchorOf self.now.d self.now.item.metal p }
    {
        match &self.item.metal {
            Metal::Wire { chain, .. } => touches_chain(p, chain.as_slice(), 0),
            Metal::Via { at, .. } => *at == p,
            Metal::Pad { pin } => self.pin_anchor(*pin) == p,
            Metal::Ban { .. } => false,
        }
    }

    /// Whether a node anchors the item.
    pub(crate) fn has_anchor(&self, node: u32) -> bool
        requires { node < node_count self.now.lat }
        ensures { IsTrue result ↔ Anchors self.now.d self.now.lat node self.now.item }
    {
        let p = self.lat.point(node);
        self.is_anchor(p) && some_holds(self.lat.layer(node), p, self.item.pieces.as_slice())
    }
}

impl Lattice {
    /// Whether a node anchors an item of the design.
    pub fn anchor(&self, d: &Design, node: u32, item: &Item) -> bool
        requires sound { IsSound d.now }
        requires fits { FitsDesign d.now self.now }
        requires node { node < node_count self.now }
        requires item { IsItemOf d.now item.now }
        ensures { IsTrue result ↔ Anchors d.now self.now node item.now }
    {
        let on = LatticeItem { lat: self, d, item };
        on.has_anchor(node)
    }
}
