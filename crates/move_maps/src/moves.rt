//! The legal moves of a net, by the map of its group.
//! A move that is counted is there, so it is followed without a look at the lattice's borders or the padstack.

ghost use Rattle.std.specs.Prelude.{◌≡◌, ℕ, ◌<◌, ◌≤◌, ◌*◌, ◌+◌, length, slice_index, None};
ghost use Rattle.std.specs.Bool.{OnTrue};
ghost use Rattle.pcb_model.specs.declared.design.Design.{Design as TheDesign};
ghost use Rattle.route_lattice.specs.Mesh.{node_count};
ghost use Rattle.route_lattice.specs.Ways.{way, way_count};
ghost use Rattle.route_lattice.specs.Legal.{CanMove, legal_graph};
ghost use Rattle.move_maps.specs.Groups.{AreAlike};
ghost use Rattle.move_maps.specs.Maps.{IsMapOf, place_at};
ghost use Rattle.move_maps.specs.OwnCopper.{IsReadyMap, IsStepThere, IsViaThere};

use crate::map::GroupMap;
use crate::step::{step_price, step_to};
use crate::via::via_to;
use pcb_model::Copper;
use route_lattice::{Lattice, LegalMoves, Move, Moves};

/// Whether the index is that of a via to the layer of the node itself, to which none leads.
fn leads_nowhere(lat: &Lattice, node: u32, i: u32) -> bool
    ensures { OnTrue result ((d : TheDesign) (net : ℕ) → way d lat.now net node i ≡ None) }
{
    let width = lat.xs().len();
    let height = lat.ys().len();
    let layers = lat.layers().len();
    if i < 4 || width == 0 || height == 0 || layers == 0 {
        return false;
    }
    if node as usize / width / height == (i - 4) as usize % layers {
        return true;
    }
    false
}

/// The legal moves of a net, and the map of its group.
#[derive(Drop)]
pub struct MapMoves<'a, C: Copper> {
    pub legal: LegalMoves<'a, C>,
    pub map: &'a GroupMap,
}

impl<C: Copper> MapMoves<'_, C> {
    /// How much shuts the move, for any net of the group.
    pub(crate) fn tally(&self, node: u32, i: u32) -> u8
        requires ready { let s = self.now.legal in
            IsReadyMap s.d.now s.lat.now (C.items s.c.now) s.net s.via_cost self.now.map.now }
        requires node { node < node_count self.now.legal.lat.now }
        requires index { let s = self.now.legal in i < way_count s.d.now s.lat.now s.net }
        ensures { let s = self.now in
            result ≡ slice_index s.map.now.counts (place_at s.legal.d.now s.legal.lat.now s.map.now.first node i) }
    {
        let place = node as usize * self.legal.arity as usize + i as usize;
        self.map.counts.get(place)
    }

    /// Whether the move is a step that is there, by the map.
    fn is_step(&self, node: u32, i: u32) -> bool
        requires ready { let s = self.now.legal in
            IsReadyMap s.d.now s.lat.now (C.items s.c.now) s.net s.via_cost self.now.map.now }
        requires node { node < node_count self.now.legal.lat.now }
        requires index { let s = self.now.legal in i < way_count s.d.now s.lat.now s.net }
        ensures { let s = self.now.legal in OnTrue result (IsStepThere s.d.now s.lat.now s.net node i) }
    {
        i < 4 && self.tally(node, i) != u8::MAX
    }

    /// Whether the move is a via that is there, by the map.
    fn is_via(&self, node: u32, i: u32) -> bool
        requires ready { let s = self.now.legal in
            IsReadyMap s.d.now s.lat.now (C.items s.c.now) s.net s.via_cost self.now.map.now }
        requires node { node < node_count self.now.legal.lat.now }
        requires index { let s = self.now.legal in i < way_count s.d.now s.lat.now s.net }
        ensures { let s = self.now.legal in OnTrue result (IsViaThere s.d.now s.lat.now s.net node i) }
    {
        4 <= i && self.tally(node, i) != u8::MAX
    }
}

impl<C: Copper> Moves for MapMoves<'_, C> {
    ghost graph = { λ s. legal_graph s.legal.d.now s.legal.lat.now
        (C.items s.legal.c.now) s.legal.net s.legal.via_cost };

    ghost ready = { λ s. (CanMove s.legal.d.now s.legal.lat.now s.legal.net s.legal.via_cost
        × C.serves s.legal.c.now s.legal.d.now)
        × IsMapOf s.legal.d.now s.legal.lat.now (C.items s.legal.c.now) s.map.now
        × AreAlike s.legal.d.now s.map.now.first s.legal.net };

    fn count(&self) -> u32 {
        self.legal.count()
    }

    fn arity(&self) -> u32 {
        self.legal.arity()
    }

    fn at(&self, node: u32, i: u32) -> Option<(Move, u32)> {
        if self.is_step(node, i) {
            return Some(step_to(self.legal.lat, node, i));
        }
        if self.is_via(node, i) {
            let legal = &self.legal;
            return Some(via_to(legal.lat, legal.d, legal.net, node, i));
        }
        if leads_nowhere(self.legal.lat, node, i) {
            return None;
        }
        self.legal.at(node, i)
    }

    fn is_open(&self, node: u32, i: u32) -> bool {
        if self.tally(node, i) == 0 {
            return true;
        }
        self.legal.is_open(node, i)
    }

    fn price(&self, node: u32, i: u32) -> u64 {
        if self.is_step(node, i) {
            return step_price(self.legal.lat, node, i);
        }
        if self.is_via(node, i) {
            return self.legal.via_cost;
        }
        self.legal.price(node, i)
    }
}
