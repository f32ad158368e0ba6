//! The legal moves of a net on copper with its ribs.

ghost use Rattle.std.specs.Prelude.{◌≡◌, ◌↔◌, ◌+◌, ◌<◌, ◌≤◌, ◌^◌, IsTrue, IfOk, IfSome};
ghost use Rattle.geo_kernel.specs.Plane.{IsWithin};
ghost use Rattle.pcb_model.specs.Bounds.{IsProbeFit};
ghost use Rattle.route_lattice.specs.Legal.{IsOpen, probe_at, way_price};
ghost use Rattle.route_lattice.specs.Mesh.{node_count};
ghost use Rattle.route_lattice.specs.Walks.{IsSound};
ghost use Rattle.route_lattice.specs.Ways.{way as way_at, way_count};
ghost use Rattle.plane_joins.specs.Stubs.{TouchesRib, Touches, moves_on};
ghost use Rattle.plane_joins.specs.inner.Graph.{stub_graph};
ghost use Rattle.plane_stubs.specs.inner.Landings.{IsNearVia};

use geo_kernel::Point;
use pcb_model::{Copper, Metal, Probe, make_item};
use pcb_tiles::Tiles;
use route_lattice::{LegalMoves, Move, Moves, legal_graph_sound};
use std::alloc::{AllocError, Global};
use std::marker::Model;

/// The legal moves of a net, and the ids of the net's ribs and others': from `first` to below `last`.
#[derive(Drop)]
pub(crate) struct RibMoves<'a> {
    pub(crate) legal: LegalMoves<'a, Tiles>,
    pub(crate) first: u64,
    pub(crate) last: u64,
}

impl<'a> Model for RibMoves<'a> {
    ghost use Rattle.std.specs.Prelude.{◌<◌, ◌^◌};
    ghost use Rattle.pcb_tiles.specs.Spread.{ServesSpread};
    ghost use Rattle.route_lattice.specs.Legal.{CanMove};
    ghost use Rattle.plane_stubs.specs.inner.Landings.{NetRibs};

    ghost Value = { NetRibs };

    ghost view = { λ s. record {
      on = record {
        d = s.legal.d.now;
        lat = s.legal.lat.now;
        via_cost = s.legal.via_cost;
        items = s.legal.c.now.items;
        first = s.first;
        last = s.last;
      };
      net = s.legal.net;
    } };

    ghost invariant = { λ s. CanMove s.legal.d.now s.legal.lat.now s.legal.net s.legal.via_cost
        × ServesSpread s.legal.c.now s.legal.d.now × (s.last < 2 ^ 64) };
}

impl RibMoves<'_> {
    /// The number of nodes.
    pub(crate) fn count(&self) -> u32
        ensures nodes { result ≡ node_count self.now.on.lat }
        ensures few { result ≤ 2 ^ 24 }
    {
        self.legal.lat.count()
    }

    /// The number of indices of moves.
    pub(crate) fn arity(&self) -> u32
        ensures ways { result ≡ way_count self.now.on.d self.now.on.lat self.now.net }
        ensures few { result ≤ 2 ^ 31 + 4 }
    {
        self.legal.arity
    }

    /// The move of that index and the node that it leads to.
    pub(crate) fn at(&self, node: u32, i: u32) -> Option<(Move, u32)>
        requires node { node < node_count self.now.on.lat }
        requires index { i < way_count self.now.on.d self.now.on.lat self.now.net }
        ensures { result ≡ way_at self.now.on.d self.now.on.lat self.now.net node i }
    {
        self.legal.at(node, i)
    }

    /// Whether the move is legal.
    pub(crate) fn is_open(&self, node: u32, i: u32) -> bool
        requires node { node < node_count self.now.on.lat }
        requires index { i < way_count self.now.on.d self.now.on.lat self.now.net }
        ensures { IsTrue result
            ↔ IsOpen self.now.on.d self.now.on.items self.now.net
            (probe_at self.now.on.d self.now.on.lat self.now.net node i) }
    {
        self.legal.is_open(node, i)
    }

    /// What the move costs.
    pub(crate) fn price(&self, node: u32, i: u32) -> u64
        requires node { node < node_count self.now.on.lat }
        requires index { i < way_count self.now.on.d self.now.on.lat self.now.net }
        ensures { result
            ≡ way_price self.now.on.lat self.now.on.via_cost node
            (way_at self.now.on.d self.now.on.lat self.now.net node i) }
    {
        self.legal.price(node, i)
    }

    /// What a via costs.
    pub(crate) fn via_price(&self) -> u64
        ensures price { result ≡ self.now.on.via_cost }
        ensures small { result ≤ 2 ^ 30 }
    {
        self.legal.via_cost
    }

    /// The moves of the net and the graph of stubs may be searched: a call that does nothing but say so.
    pub(crate) fn are_sound(&self)
        ensures moves { IsSound (moves_on self.now.on self.now.net) }
        ensures graph { IsSound (stub_graph self.now.on self.now.net) }
    {
        legal_graph_sound();
        let _ = &self.legal;
    }

    // What the move lays.
    fn probe(&self, node: u32, i: u32) -> Option<Probe>
        requires node { node < node_count self.now.on.lat }
        requires index { i < way_count self.now.on.d self.now.on.lat self.now.net }
        ensures value { result ≡ probe_at self.now.on.d self.now.on.lat self.now.net node i }
        ensures fits { IfSome result (IsProbeFit self.now.on.d) }
    {
        self.legal.probe(node, i)
    }

    // Whether a via of the net touches a rib.
    fn via_lands(&self, alloc: Global, padstack: u32, at: Point) -> Result<bool, AllocError>
        requires at { IsWithin (2 ^ 29) at }
        requires fits { IsProbeFit self.now.on.d (Probe.Via padstack at) }
        ensures { IfOk result (λ b. IsTrue b ↔ TouchesRib self.now.on self.now.net (Probe.Via padstack at)) }
    {
        let metal = Metal::Via { padstack, at };
        let via = make_item(
            alloc,
            self.legal.d,
            u64::MAX,
            Some(self.legal.net),
            false,
            metal,
        )?;
        match self.legal.c.touch_from(&via, self.first) {
            Some(id) => Ok(id < self.last),
            None => Ok(false),
        }
    }

    // Whether what the probe stands for touches a rib.
    fn probe_lands(&self, alloc: Global, p: Probe) -> Result<bool, AllocError>
        requires via { IsNearVia p }
        requires fits { IsProbeFit self.now.on.d p }
        ensures { IfOk result (λ b. IsTrue b ↔ TouchesRib self.now.on self.now.net p) }
    {
        match p {
            Probe::Via { padstack, at } => self.via_lands(alloc, padstack, at),
            Probe::Disc { .. } | Probe::Step { .. } => unreachable!(),
        }
    }

    /// Whether what a via move lays touches a rib.
    pub(crate) fn lands(&self, alloc: Global, node: u32, i: u32) -> Result<bool, AllocError>
        requires node { node < node_count self.now.on.lat }
        requires via { 4 ≤ i }
        requires index { i < way_count self.now.on.d self.now.on.lat self.now.net }
        ensures { IfOk result (λ b. IsTrue b
            ↔ Touches self.now.on self.now.net (probe_at self.now.on.d self.now.on.lat self.now.net node i)) }
    {
        let _ = &self.legal;
        match self.probe(node, i) {
            Some(p) => self.probe_lands(alloc, p),
            None => Ok(false),
        }
    }
}
