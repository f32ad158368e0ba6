//! The ground that calls about a lattice stand on: a sound design, a lattice of it, and copper that serves it.
//! Who makes one proves that once, and passes it on as one value.

ghost use Rattle.std.specs.Prelude.{◌≡◌, ◌↔◌, ◌<◌, ◌≤◌, ◌^◌, All, Contains, IsTrue, MatchOption, None, Some, length};
ghost use Rattle.std.specs.Option.{option_copied};
ghost use Rattle.pcb_model.specs.Bounds.{IsItemFit, IsProbeFit};
ghost use Rattle.pcb_model.specs.Pieces.{pieces_of, metal_of};
ghost use Rattle.pcb_model.specs.Pairs.{Agrees, AreTouching, ProbeAgrees};
ghost use Rattle.pcb_model.specs.Board.{AreInside};
ghost use Rattle.pcb_model.specs.Copper.{Ascends, Finds};
ghost use Rattle.pcb_model.specs.Sound.{IsSound, IsItemOf, Serves};
ghost use Rattle.route_lattice.specs.Mesh.{node_count};
ghost use Rattle.route_lattice.specs.Fits.{FitsDesign};
ghost use Rattle.route_lattice.specs.Anchors.{Anchors};
ghost use Rattle.route_lattice.specs.Legal.{IsLegalNode, CanMove};

use crate::legal::{LegalMoves, legal_node};
use crate::mesh::Lattice;
use pcb_model::{Copper, Design, Item, Probe, inside_board, probe_inside};
use std::marker::Model;

/// A lattice, the sound design that it is one of, and copper that serves the design.
#[derive(Drop)]
pub struct Ground<'a, C: Copper> {
    pub lat: &'a Lattice,
    pub d: &'a Design,
    pub c: &'a C,
}

impl<'a, C: Copper> Model for Ground<'a, C> {
    ghost use Rattle.route_lattice.specs.Ground.{GroundOf, IsGround};

    ghost Value = { GroundOf };

    ghost view = { λ s. record { d = s.d.now; lat = s.lat.now; items = C.items s.c.now } };

    ghost invariant = { λ s. IsGround C.Copper s.d.now s.lat.now s.c.now };
}

impl<'a, C: Copper> Ground<'a, C> {
    /// How many nodes the lattice has.
    pub fn count(&self) -> u32
        ensures { result ≡ node_count self.now.lat }
    {
        self.lat.count()
    }

    /// Whether the node anchors the item.
    pub fn anchor(&self, node: u32, item: &Item) -> bool
        requires node { node < node_count self.now.lat }
        requires item { IsItemOf self.now.d item.now }
        ensures { IsTrue result ↔ Anchors self.now.d self.now.lat node item.now }
    {
        self.lat.anchor(self.d, node, item)
    }

    /// Whether the disc of the net's width at the node is legal.
    pub fn is_legal_node(&self, net: u32, node: u32) -> bool
        requires net { net < length self.now.d.nets }
        requires node { node < node_count self.now.lat }
        ensures { IsTrue result ↔ IsLegalNode self.now.d self.now.lat self.now.items net node }
    {
        legal_node(self.lat, self.d, self.c, net, node)
    }

    /// The item of this id, which is one of the design, or None exactly where there is none.
    pub fn item(&self, id: u64) -> Option<&'a Item>
        ensures { MatchOption (option_copied result) (All (λ b. b.id ≡ id → ⊥) self.now.items)
            (λ b. Contains self.now.items b × (b.id ≡ id) × IsItemOf self.now.d b) }
    {
        self.c.item(id)
    }

    /// What the ground keeps: a call that does nothing but say so.
    pub fn keeps(&self)
        ensures sound { IsSound self.now.d }
        ensures fits { FitsDesign self.now.d self.now.lat }
        ensures serves { Serves self.now.items self.now.d }
    {
        let _ = &self.c;
    }

    /// How many fixed items the design has. Theirs are the lowest ids.
    pub fn fixed_count(&self) -> u64
        ensures { result ≡ length self.now.d.fixed }
    {
        self.d.fixed.len() as u64
    }

    /// The items stand in order of id: a call that does nothing but say so.
    pub fn in_order(&self)
        ensures ascends { Ascends self.now.items }
        ensures ids { All (λ b. b.id < 2 ^ 64) self.now.items }
    {
        self.c.in_order();
    }

    /// The least id at or above `from` of an item that disagrees with what the probe of the net stands for, or None
    /// exactly where there is none. No step is counted.
    pub fn block_from(&self, net: u32, probe: &Probe, from: u64) -> Option<u64>
        requires { IsProbeFit self.now.d probe.now }
        ensures { Finds (λ b. ProbeAgrees self.now.d net probe.now b → ⊥) (ProbeAgrees self.now.d net probe.now) from
            None self.now.items result }
    {
        self.c.block_from(self.d, net, probe, from)
    }

    /// The least id at or above `from` of an item that disagrees with this one, other than the one with its id, or
    /// None exactly where there is none. No step is counted.
    pub fn clash_from(&self, item: &Item, from: u64) -> Option<u64>
        requires { IsItemFit item.now }
        ensures { Finds (λ b. Agrees self.now.d item.now b → ⊥) (Agrees self.now.d item.now) from (Some item.now.id)
            self.now.items result }
    {
        self.c.clash_from(self.d, item, from)
    }

    /// The least id at or above `from` of an item of this one's net that touches it, other than the one with its id,
    /// or None exactly where there is none. No step is counted.
    pub fn touch_from(&self, item: &Item, from: u64) -> Option<u64>
        requires { IsItemFit item.now }
        ensures { Finds (AreTouching item.now) (λ b. AreTouching item.now b → ⊥) from (Some item.now.id)
            self.now.items result }
    {
        self.c.touch_from(item, from)
    }

    /// Whether the first vertex of each of the item's spines lies inside every boundary.
    pub fn is_item_inside(&self, item: &Item) -> bool
        requires { IsItemFit item.now }
        ensures { IsTrue result ↔ AreInside self.now.d.bounds item.now.pieces }
    {
        inside_board(self.d, item)
    }

    /// Whether the first vertex of each spine of what the probe stands for lies inside every boundary.
    pub fn is_probe_inside(&self, probe: &Probe) -> bool
        requires { IsProbeFit self.now.d probe.now }
        ensures { IsTrue result ↔ AreInside self.now.d.bounds (pieces_of self.now.d (metal_of probe.now)) }
    {
        probe_inside(self.d, probe)
    }

    /// The legal moves of a net.
    pub fn moves(&self, net: u32, via_cost: u64) -> LegalMoves<'a, C>
        requires net { net < length self.now.d.nets }
        requires small_cost { via_cost ≤ 2 ^ 30 }
        ensures d { result.d.now ≡ self.now.d }
        ensures lat { result.lat.now ≡ self.now.lat }
        ensures items { C.items result.c.now ≡ self.now.items }
        ensures net { result.net ≡ net }
        ensures via_cost { result.via_cost ≡ via_cost }
        ensures ready { CanMove result.d.now result.lat.now result.net result.via_cost
            × C.serves result.c.now result.d.now }
    {
        LegalMoves::of(self.lat, self.d, self.c, net, via_cost)
    }
}
