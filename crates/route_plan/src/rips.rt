//! Moves of a net that fixed copper alone shuts, by the map of its group and by that of the fixed items.
//! Where both count, what the first counts more is routed.

ghost use Rattle.std.specs.Prelude.{◌<◌, ◌≡◌, ◌≤◌, IfOk, IfSome, IfNone, min};
ghost use Rattle.std.specs.Bool.{OnTrue, OnFalse};
ghost use Rattle.route_lattice.specs.Legal.{IsOpen, probe_at};
ghost use Rattle.ripup.specs.Rips.{CanRip, IsCharged, IsRipPrice, rip_graph};
ghost use Rattle.move_maps.specs.Groups.{HasMap};
ghost use Rattle.move_maps.specs.Maps.{IsTally, AreMapsOf};
ghost use Rattle.route_plan.specs.RipMaps.{AreRipMaps};

use move_maps::{GroupMap, MoveMaps, NetMoves};
use pcb_model::Copper;
use ripup::{MOST_CHARGED, RipMoves};
use route_lattice::{Move, Moves};
use std::alloc::{AllocError, Global};
use std::marker::Model;

/// The moves of a net past routed items, each for `penalty` nm: the legal moves by the map of the net's group, and the
/// group's map of the fixed items alone.
#[derive(Drop)]
pub struct MapRips<'a, C: Copper> {
    pub moves: NetMoves<'a, C>,
    pub fixed: &'a GroupMap,
    pub penalty: u64,
}

/// Of so many items those that a move is charged for.
fn at_most_charged(n: u8) -> u64
    ensures { result ≡ min n MOST_CHARGED }
{
    let n = n as u64;
    if n < MOST_CHARGED { n } else { MOST_CHARGED }
}

/// One of these moves: that of index `i` at a node.
#[derive(Drop)]
struct RipMove<'a, C: Copper> {
    moves: &'a NetMoves<'a, C>,
    fixed: &'a GroupMap,
    penalty: u64,
    node: u32,
    i: u32,
}

impl<'a, C: Copper> Model for RipMove<'a, C> {
    ghost use Rattle.route_plan.specs.RipMaps.{AreRipMaps};
    ghost use Rattle.route_plan.specs.inner.RipMove.{RipMoveOf, CanTell};

    ghost Value = { RipMoveOf };

    ghost view = { λ s. let t = s.moves.now.by_map.legal in record {
      d = t.d.now;
      lat = t.lat.now;
      items = C.items t.c.now;
      net = t.net;
      first = s.moves.now.by_map.map.now.first;
      via_cost = t.via_cost;
      penalty = s.penalty;
      node = s.node;
      i = s.i;
    } };

    ghost invariant = { λ s. let t = s.moves.now.by_map.legal in
        CanTell t.d.now t.lat.now t.net t.via_cost s.penalty s.node s.i × C.serves t.c.now t.d.now
        × AreRipMaps t.d.now t.lat.now (C.items t.c.now) t.net s.moves.now.by_map.map.now s.fixed.now s.moves.now.own };
}

impl<C: Copper> RipMove<'_, C> {
    /// How much shuts the move.
    fn tally(&self) -> u8
        ensures { let s = self.now in IsTally s.d s.first s.items (probe_at s.d s.lat s.first s.node s.i) result }
    {
        let moves = self.moves;
        let place = self.node as usize * moves.by_map.legal.arity as usize + self.i as usize;
        moves.by_map.map.counts.get(place)
    }

    /// How much of what is fixed shuts the move. Where nothing does at all the map of what is fixed isn't looked at.
    fn fixed_tally(&self) -> u8
        ensures { let s = self.now in IsTally s.d s.first s.d.fixed (probe_at s.d s.lat s.first s.node s.i) result }
    {
        let moves = self.moves;
        let all = self.tally();
        if all == 0 {
            return 0;
        }
        let place = self.node as usize * moves.by_map.legal.arity as usize + self.i as usize;
        self.fixed.counts.get(place)
    }

    /// Whether the count tells that something fixed shuts the move.
    fn is_shut(&self, fixed: u8) -> bool
        requires tally { let s = self.now in
            IsTally s.d s.first s.d.fixed (probe_at s.d s.lat s.first s.node s.i) fixed }
        requires counted { 0 < fixed }
        ensures { let s = self.now in
            OnTrue result (¬ (IsOpen s.d s.d.fixed s.net (probe_at s.d s.lat s.net s.node s.i))) }
    {
        let moves = self.moves;
        if fixed == u8::MAX {
            return false;
        }
        moves.own.is_off(moves.by_map.legal.lat, self.node)
    }

    /// For how many routed items the move is charged, or None where the maps don't tell.
    fn charged(&self) -> Option<u64>
        ensures counted { let s = self.now in
            IfSome result (IsCharged s.d s.items s.net (probe_at s.d s.lat s.net s.node s.i)) }
        ensures few { IfSome result (λ n. n ≤ MOST_CHARGED) }
    {
        let moves = self.moves;
        let all = self.tally();
        let fixed = self.fixed_tally();
        if all == u8::MAX || fixed == u8::MAX {
            return None;
        }
        if all == fixed {
            return Some(0);
        }
        if !moves.own.is_off(moves.by_map.legal.lat, self.node) {
            return None;
        }
        Some(at_most_charged(all.saturating_sub(fixed)))
    }

    /// Whether nothing fixed shuts the move, by the copper.
    fn is_open_on_copper(&self) -> bool
        ensures opens { let s = self.now in
            OnTrue result (IsOpen s.d s.d.fixed s.net (probe_at s.d s.lat s.net s.node s.i)) }
        ensures shut { let s = self.now in
            OnFalse result (¬ (IsOpen s.d s.d.fixed s.net (probe_at s.d s.lat s.net s.node s.i))) }
    {
        let moves = self.moves;
        let s = &moves.by_map.legal;
        let rips = RipMoves::of(s.lat, s.d, s.c, s.net, s.via_cost, self.penalty);
        rips.is_open(self.node, self.i)
    }

    /// What the move costs, by the copper.
    fn price_on_copper(&self) -> u64
        ensures { let s = self.now in
            IsRipPrice s.d s.lat s.items s.net s.via_cost s.penalty s.node s.i result }
    {
        let moves = self.moves;
        let s = &moves.by_map.legal;
        let rips = RipMoves::of(s.lat, s.d, s.c, s.net, s.via_cost, self.penalty);
        rips.price(self.node, self.i)
    }
}

impl<C: Copper> Moves for MapRips<'_, C> {
    ghost graph = { λ s. let t = s.moves.by_map.legal in
        rip_graph t.d.now t.lat.now (C.items t.c.now) t.net t.via_cost s.penalty };

    ghost ready = { λ s. let t = s.moves.by_map.legal in
        (CanRip t.d.now t.lat.now t.net t.via_cost s.penalty × C.serves t.c.now t.d.now)
        × AreRipMaps t.d.now t.lat.now (C.items t.c.now) t.net s.moves.by_map.map.now s.fixed.now s.moves.own };

    fn count(&self) -> u32 {
        self.moves.count()
    }

    fn arity(&self) -> u32 {
        self.moves.arity()
    }

    fn at(&self, node: u32, i: u32) -> Option<(Move, u32)> {
        self.moves.at(node, i)
    }

    fn is_open(&self, node: u32, i: u32) -> bool {
        let step = RipMove {
            moves: &self.moves,
            fixed: self.fixed,
            penalty: self.penalty,
            node,
            i,
        };
        let fixed = step.fixed_tally();
        if fixed == 0 {
            return true;
        }
        if step.is_shut(fixed) {
            return false;
        }
        step.is_open_on_copper()
    }

    fn price(&self, node: u32, i: u32) -> u64 {
        let step = RipMove {
            moves: &self.moves,
            fixed: self.fixed,
            penalty: self.penalty,
            node,
            i,
        };
        let Some(n) = step.charged() else {
            return step.price_on_copper();
        };
        self.moves.price(node, i) + self.penalty * n
    }
}

/// The same moves past routed items by the copper's maps and by `fixed`, those of the design's fixed items, or None
/// exactly where the net has no map. `AllocError` comes only for want of memory.
pub fn rips_of<'a, C: Copper>(
    alloc: Global,
    maps: &'a MoveMaps,
    fixed: &'a MoveMaps,
    rips: &RipMoves<'a, C>,
) -> Result<Option<MapRips<'a, C>>, AllocError>
    requires can_rip { let t = rips.now.legal in CanRip t.d.now t.lat.now t.net t.via_cost rips.now.penalty }
    requires serves { let t = rips.now.legal in C.serves t.c.now t.d.now }
    requires maps { let t = rips.now.legal in AreMapsOf t.d.now t.lat.now (C.items t.c.now) maps.now }
    requires fixed { let t = rips.now.legal in AreMapsOf t.d.now t.lat.now t.d.now.fixed fixed.now }
    ensures none { let t = rips.now.legal in IfOk result (λ o. IfNone o (¬ (HasMap t.d.now t.lat.now t.net))) }
    ensures mapped { let t = rips.now.legal in IfOk result (λ o. IfSome o (λ s. HasMap t.d.now t.lat.now t.net)) }
    ensures lat { IfOk result (λ o. IfSome o (λ s. s.moves.by_map.legal.lat.now ≡ rips.now.legal.lat.now)) }
    ensures d { IfOk result (λ o. IfSome o (λ s. s.moves.by_map.legal.d.now ≡ rips.now.legal.d.now)) }
    ensures c { IfOk result (λ o. IfSome o (λ s. s.moves.by_map.legal.c.now ≡ rips.now.legal.c.now)) }
    ensures net { IfOk result (λ o. IfSome o (λ s. s.moves.by_map.legal.net ≡ rips.now.legal.net)) }
    ensures via_cost { IfOk result (λ o. IfSome o (λ s. s.moves.by_map.legal.via_cost ≡ rips.now.legal.via_cost)) }
    ensures penalty { IfOk result (λ o. IfSome o (λ s. s.penalty ≡ rips.now.penalty)) }
    ensures rip_maps { let t = rips.now.legal in IfOk result (λ o. IfSome o (λ s. AreRipMaps t.d.now t.lat.now
        (C.items t.c.now) t.net s.moves.by_map.map.now s.fixed.now s.moves.own)) }
{
    let of = &rips.legal;
    let Some(fixed) = fixed.map_of(of.d, of.net) else {
        return Ok(None);
    };
    match maps.net_moves(alloc, of.lat, of.d, of.c, of.net, of.via_cost) {
        Ok(Some(moves)) => Ok(Some(MapRips {
            moves,
            fixed,
            penalty: rips.penalty,
        })),
        Ok(None) => Ok(None),
        Err(error) => Err(error),
    }
}
