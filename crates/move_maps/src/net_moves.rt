//! The legal moves of a net, by the map of its group and by where the net's own copper lies.
//! A move away from that copper is open exactly where nothing is counted.

ghost use Rattle.std.specs.Prelude.{◌≡◌, ◌+◌, ◌<◌, ◌≤◌, ◌^◌, length, slice_index, IfOk, IfSome, IfNone};
ghost use Rattle.std.specs.Bool.{OnTrue};
ghost use Rattle.route_lattice.specs.Mesh.{node_count};
ghost use Rattle.route_lattice.specs.Ways.{way_count};
ghost use Rattle.route_lattice.specs.Legal.{CanMove, IsOpen, legal_graph, probe_at};
ghost use Rattle.move_maps.specs.Groups.{AreAlike, HasMap};
ghost use Rattle.move_maps.specs.Maps.{IsMapOf, AreMapsOf, place_at};
ghost use Rattle.move_maps.specs.OwnCopper.{IsOwnCopper, IsReadyMap};

use crate::map::MoveMaps;
use crate::moves::MapMoves;
use crate::own::OwnCopper;
use pcb_model::{Copper, Design};
use route_lattice::{Ground, Lattice, Move, Moves};
use std::alloc::{AllocError, Global};

/// The legal moves of a net by a map, and windows round the net's own copper.
#[derive(Drop)]
pub struct NetMoves<'a, C: Copper> {
    pub by_map: MapMoves<'a, C>,
    pub own: OwnCopper,
}

impl<'a, C: Copper> NetMoves<'a, C> {
    /// The moves of a net by a map, with windows round the net's copper. `AllocError` comes only for want of memory.
    pub fn of(alloc: Global, by_map: MapMoves<'a, C>) -> Result<NetMoves<'a, C>, AllocError>
        requires ready { let s = by_map.legal in CanMove s.d.now s.lat.now s.net s.via_cost }
        requires serves { C.serves by_map.legal.c.now by_map.legal.d.now }
        requires first { by_map.map.now.first < length by_map.legal.d.now.nets }
        ensures by_map { IfOk result (λ s. s.by_map ≡ by_map.entry) }
        ensures own { IfOk result (λ s. let t = by_map.entry.legal in
            IsOwnCopper t.d.now t.lat.now (C.items t.c.now) by_map.entry.map.now.first t.net s.own) }
    {
        let moves = &by_map.legal;
        let copper = moves.c;
        copper.in_order();
        let on = Ground {
            lat: moves.lat,
            d: moves.d,
            c: copper,
        };
        let own = OwnCopper::of(alloc, &on, by_map.map.first, moves.net)?;
        Ok(NetMoves { by_map, own })
    }
}

impl MoveMaps {
    /// The moves of a net by its map, with windows round the net's copper, or None exactly where the net has no map.
    /// `AllocError` comes only for want of memory.
    pub fn net_moves<'a, C: Copper>(
        &'a self,
        alloc: Global,
        lat: &'a Lattice,
        d: &'a Design,
        c: &'a C,
        net: u32,
        via_cost: u64,
    ) -> Result<Option<NetMoves<'a, C>>, AllocError>
        requires can_move { CanMove d.now lat.now net via_cost }
        requires serves { C.serves c.now d.now }
        requires maps { AreMapsOf d.now lat.now (C.items c.now) self.now }
        ensures none { IfOk result (λ o. IfNone o (¬ (HasMap d.now lat.now net))) }
        ensures mapped { IfOk result (λ o. IfSome o (λ s. HasMap d.now lat.now net)) }
        ensures lat { IfOk result (λ o. IfSome o (λ s. s.by_map.legal.lat.now ≡ lat.now)) }
        ensures d { IfOk result (λ o. IfSome o (λ s. s.by_map.legal.d.now ≡ d.now)) }
        ensures c { IfOk result (λ o. IfSome o (λ s. s.by_map.legal.c.now ≡ c.now)) }
        ensures net { IfOk result (λ o. IfSome o (λ s. s.by_map.legal.net ≡ net)) }
        ensures via_cost { IfOk result (λ o. IfSome o (λ s. s.by_map.legal.via_cost ≡ via_cost)) }
        ensures map { IfOk result (λ o. IfSome o (λ s. IsMapOf d.now lat.now (C.items c.now) s.by_map.map.now)) }
        ensures alike { IfOk result (λ o. IfSome o (λ s. AreAlike d.now s.by_map.map.now.first net)) }
        ensures own { IfOk result (λ o. IfSome o (λ s.
            IsOwnCopper d.now lat.now (C.items c.now) s.by_map.map.now.first net s.own)) }
    {
        match self.moves(lat, d, c, net, via_cost) {
            Some(by_map) => Ok(Some(NetMoves::of(alloc, by_map)?)),
            None => Ok(None),
        }
    }
}

impl<C: Copper> NetMoves<'_, C> {
    /// Whether the map counts foreign copper, or the border, in the way of a move away from the net's own copper.
    fn is_shut(&self, node: u32, i: u32, tally: u8) -> bool
        requires ready { let s = self.now.by_map.legal in
            IsReadyMap s.d.now s.lat.now (C.items s.c.now) s.net s.via_cost self.now.by_map.map.now }
        requires own { let s = self.now.by_map.legal in
            IsOwnCopper s.d.now s.lat.now (C.items s.c.now) self.now.by_map.map.now.first s.net self.now.own }
        requires node { node < node_count self.now.by_map.legal.lat.now }
        requires index { let s = self.now.by_map.legal in i < way_count s.d.now s.lat.now s.net }
        requires tally { let s = self.now.by_map in
            tally ≡ slice_index s.map.now.counts (place_at s.legal.d.now s.legal.lat.now s.map.now.first node i) }
        requires counted { 0 < tally }
        ensures { let s = self.now.by_map.legal in OnTrue result
            (¬ (IsOpen s.d.now (C.items s.c.now) s.net (probe_at s.d.now s.lat.now s.net node i))) }
    {
        if tally == u8::MAX {
            return false;
        }
        self.own.is_off(self.by_map.legal.lat, node)
    }
}

impl<C: Copper> Moves for NetMoves<'_, C> {
    ghost graph = { λ s. legal_graph s.by_map.legal.d.now s.by_map.legal.lat.now
        (C.items s.by_map.legal.c.now) s.by_map.legal.net s.by_map.legal.via_cost };

    ghost ready = { λ s. let t = s.by_map.legal in (CanMove t.d.now t.lat.now t.net t.via_cost
        × C.serves t.c.now t.d.now)
        × IsMapOf t.d.now t.lat.now (C.items t.c.now) s.by_map.map.now
        × AreAlike t.d.now s.by_map.map.now.first t.net
        × IsOwnCopper t.d.now t.lat.now (C.items t.c.now) s.by_map.map.now.first t.net s.own };

    fn count(&self) -> u32 {
        self.by_map.count()
    }

    fn arity(&self) -> u32 {
        self.by_map.arity()
    }

    fn at(&self, node: u32, i: u32) -> Option<(Move, u32)> {
        self.by_map.at(node, i)
    }

    fn is_open(&self, node: u32, i: u32) -> bool {
        let tally = self.by_map.tally(node, i);
        if tally == 0 {
            return true;
        }
        if self.is_shut(node, i, tally) {
            return false;
        }
        self.by_map.legal.is_open(node, i)
    }

    fn price(&self, node: u32, i: u32) -> u64 {
        self.by_map.price(node, i)
    }
}
