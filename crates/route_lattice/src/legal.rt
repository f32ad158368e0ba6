//! The legal moves of a net on some copper: those whose wire or via agrees with all items and lies inside.
//! The disc of the net's width says of a node alone whether a walk may start or end there.

ghost use Rattle.std.specs.Prelude.{◌≡◌, ◌↔◌, ◌<◌, ◌≤◌, ◌^◌, ℕ, List as Seq, All, Contains, IsTrue, IfOk, IfSome};
ghost use Rattle.std.specs.Prelude.{length};
ghost use Rattle.std.specs.Bool.{OnTrue, OnFalse};
ghost use Rattle.geo_kernel.specs.Plane.{IsWithin};
ghost use Rattle.pcb_model.specs.declared.item.Item.{Item as OneItem};
ghost use Rattle.pcb_model.specs.declared.design.Design.{Design as TheDesign};
ghost use Rattle.pcb_model.specs.Bounds.{IsDesignFit, IsProbeFit};
ghost use Rattle.pcb_model.specs.Rules.{width_for};
ghost use Rattle.pcb_model.specs.Sound.{IsSound};
ghost use Rattle.route_lattice.specs.Walks.{IsSound as IsGraphSound};
ghost use Rattle.route_lattice.specs.Mesh.{Mesh, node_count, point_of};
ghost use Rattle.route_lattice.specs.Fits.{FitsDesign};
ghost use Rattle.route_lattice.specs.Ways.{way_count};
ghost use Rattle.route_lattice.specs.Legal.{IsLegalProbe, IsLegalNode, probe_at, move_price};
ghost use Rattle.route_lattice.specs.Legal.{way_between as way_between_points, legal_graph, CanMove, AreThoseOf};

use crate::mesh::Lattice;
use crate::moves::{Move, Moves};
use geo_kernel::{List, Point};
use pcb_model::{Copper, Design, Probe, probe_inside, width_of};
use std::alloc::{AllocError, Global};

/// Whether what the probe stands for lies inside every boundary and agrees with all items.
fn is_legal<C: Copper>(d: &Design, c: &C, net: u32, p: &Probe) -> bool
    requires design { IsDesignFit d.now }
    requires serves { C.serves c.now d.now }
    requires p_fits { IsProbeFit d.now p.now }
    ensures { IsTrue result ↔ IsLegalProbe d.now (C.items c.now) net p.now }
{
    if !probe_inside(d, p) {
        return false;
    }
    c.is_clear(d, net, p)
}

/// Whether the disc of the net's width at a node agrees with all items and lies inside every boundary.
pub fn legal_node<C: Copper>(lat: &Lattice, d: &Design, c: &C, net: u32, node: u32) -> bool
    requires sound { IsSound d.now }
    requires fits { FitsDesign d.now lat.now }
    requires net { net < length d.now.nets }
    requires node { node < node_count lat.now }
    requires serves { C.serves c.now d.now }
    ensures { IsTrue result ↔ IsLegalNode d.now lat.now (C.items c.now) net node }
{
    let disc = Probe::Disc {
        layer: lat.layer(node),
        width: width_of(d, net),
        at: lat.point(node),
    };
    is_legal(d, c, net, &disc)
}

/// Those of the nodes whose disc is legal, in order.
pub fn legal_among<C: Copper>(
    alloc: Global,
    lat: &Lattice,
    d: &Design,
    c: &C,
    net: u32,
    nodes: &[u32],
) -> Result<List<u32>, AllocError>
    requires sound { IsSound d.now }
    requires fits { FitsDesign d.now lat.now }
    requires net { net < length d.now.nets }
    requires nodes { All (λ v. v < node_count lat.now) nodes.now }
    requires serves { C.serves c.now d.now }
    ensures { IfOk result (AreThoseOf (IsLegalNode d.now lat.now (C.items c.now) net) nodes.now) }
{
    let mut legal = List::new(alloc);
    for node in nodes {
        if legal_node(lat, d, c, net, *node) {
            legal.push(*node)?;
        }
    }
    Ok(legal)
}

/// The way between two points along the axes, in nm.
fn way_between(p: Point, q: Point) -> u64
    requires p_within { IsWithin (2 ^ 29) p }
    requires q_within { IsWithin (2 ^ 29) q }
    ensures { result ≡ way_between_points p q }
{
    (q.x - p.x).unsigned_abs() + (q.y - p.y).unsigned_abs()
}

/// The moves of a net on some copper: `width` is that of the net, `arity` the number of indices of moves,
/// and `via_cost` the price of a via, in nm.
#[derive(Drop)]
pub struct LegalMoves<'a, C: Copper> {
    pub lat: &'a Lattice,
    pub d: &'a Design,
    pub c: &'a C,
    pub net: u32,
    pub width: u64,
    pub arity: u32,
    pub via_cost: u64,
    ghost width_is: { width ≡ width_for d.now net },
    ghost arity_is: { arity ≡ way_count d.now lat.now net },
}

impl<'a, C: Copper> LegalMoves<'a, C> {
    /// The moves of a net of the design on the copper.
    pub fn of(
        lat: &'a Lattice,
        d: &'a Design,
        c: &'a C,
        net: u32,
        via_cost: u64,
    ) -> LegalMoves<'a, C>
        requires can_move { CanMove d.now lat.now net via_cost }
        ensures lat { result.lat.now ≡ lat.now }
        ensures d { result.d.now ≡ d.now }
        ensures c { result.c.now ≡ c.now }
        ensures net { result.net ≡ net }
        ensures via_cost { result.via_cost ≡ via_cost }
    {
        LegalMoves {
            lat,
            d,
            c,
            net,
            width: width_of(d, net),
            arity: lat.way_count(d, net),
            via_cost,
        }
    }

    fn cost(&self, node: u32, m: Move, to: u32) -> u64
        requires fits { FitsDesign self.now.d.now self.now.lat.now }
        requires node { node < node_count self.now.lat.now }
        requires to { to < node_count self.now.lat.now }
        ensures { result ≡ move_price self.now.lat.now self.now.via_cost node m to }
    {
        match m {
            Move::Step { .. } => way_between(self.lat.point(node), self.lat.point(to)),
            Move::Via { .. } => self.via_cost,
        }
    }

    /// What a move of a node lays: a wire of the net's width to the next node, or a via; None where the node has no
    /// such move.
    pub fn probe(&self, node: u32, i: u32) -> Option<Probe>
        requires can_move { CanMove self.now.d.now self.now.lat.now self.now.net self.now.via_cost }
        requires node { node < node_count self.now.lat.now }
        requires index { i < way_count self.now.d.now self.now.lat.now self.now.net }
        ensures value { result ≡ probe_at self.now.d.now self.now.lat.now self.now.net node i }
        ensures fits { IfSome result (IsProbeFit self.now.d.now) }
    {
        self.laid_by(node, i)
    }

    fn laid_by(&self, node: u32, i: u32) -> Option<Probe>
        requires can_move { CanMove self.now.d.now self.now.lat.now self.now.net self.now.via_cost }
        requires node { node < node_count self.now.lat.now }
        requires index { i < way_count self.now.d.now self.now.lat.now self.now.net }
        ensures { result ≡ probe_at self.now.d.now self.now.lat.now self.now.net node i }
    {
        match self.lat.way(self.d, self.net, node, i) {
            Some((Move::Step { .. }, to)) => Some(Probe::Step {
                layer: self.lat.layer(node),
                width: self.width,
                a: self.lat.point(node),
                b: self.lat.point(to),
            }),
            Some((Move::Via { padstack, .. }, _)) => Some(Probe::Via {
                padstack,
                at: self.lat.point(node),
            }),
            None => None,
        }
    }
}

impl<C: Copper> Moves for LegalMoves<'_, C> {
    ghost graph = { λ s. legal_graph s.d.now s.lat.now (C.items s.c.now) s.net s.via_cost };

    ghost ready = { λ s. CanMove s.d.now s.lat.now s.net s.via_cost × C.serves s.c.now s.d.now };

    fn count(&self) -> u32 {
        self.lat.count()
    }

    fn arity(&self) -> u32 {
        self.arity
    }

    fn at(&self, node: u32, i: u32) -> Option<(Move, u32)> {
        self.lat.way(self.d, self.net, node, i)
    }

    fn is_open(&self, node: u32, i: u32) -> bool {
        match self.probe(node, i) {
            Some(p) => is_legal(self.d, self.c, self.net, &p),
            None => false,
        }
    }

    fn price(&self, node: u32, i: u32) -> u64 {
        match self.lat.way(self.d, self.net, node, i) {
            Some((m, to)) => self.cost(node, m, to),
            None => 0,
        }
    }
}

/// The graph of legal moves is one that may be searched: it has at most 2^24 nodes, its moves lead to nodes,
/// and each has one price, at most 2^35. A law, on a call that does nothing.
pub fn legal_graph_sound()
    ensures { (d : TheDesign) (m : Mesh) (items : Seq OneItem) (net via_cost : ℕ) → CanMove d m net via_cost
        → IsGraphSound (legal_graph d m items net via_cost) }
{}
