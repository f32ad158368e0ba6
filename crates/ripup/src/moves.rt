//! Moves of a net that fixed copper alone shuts: each costs a penalty more for each routed item in its way.
//! The fixed items have the lowest ids, so a search for routed ones begins behind them.

ghost use Rattle.std.specs.Prelude.{◌≡◌, ◌↔◌, ◌<◌, ◌≤◌, ◌^◌, IsTrue, length, Contains};
ghost use Rattle.pcb_model.specs.declared.item.Item.{Item as OneItem};
ghost use Rattle.pcb_model.specs.Bounds.{IsProbeFit};
ghost use Rattle.pcb_model.specs.Pairs.{ProbeAgrees};
ghost use Rattle.route_lattice.specs.Mesh.{node_count};
ghost use Rattle.route_lattice.specs.Ways.{way_count};
ghost use Rattle.route_lattice.specs.Legal.{IsLegalProbe, probe_at};
ghost use Rattle.ripup.specs.Rips.{IsInWay, CountsTo, IsCharged, rip_graph, CanRip};

use pcb_model::{Copper, Design, Probe};
use route_lattice::{Ground, Lattice, LegalMoves, Move, Moves};

/// Items that a move is charged for, where more are in its way.
pub const MOST_CHARGED: u64 = 16;

/// Whether all fixed items agree with what the probe stands for.
fn fixed_agree<C: Copper>(on: &Ground<'_, C>, net: u32, probe: &Probe) -> bool
    requires { IsProbeFit on.now.d probe.now }
    ensures { IsTrue result ↔ ((b : OneItem) → Contains on.now.d.fixed b → ProbeAgrees on.now.d net probe.now b) }
{
    on.keeps();
    on.in_order();
    match on.block_from(net, probe, 0) {
        None => true,
        Some(id) => on.fixed_count() <= id,
    }
}

/// Whether what the probe stands for lies inside every boundary and agrees with all fixed items.
fn is_legal_on_fixed<C: Copper>(on: &Ground<'_, C>, net: u32, probe: &Probe) -> bool
    requires { IsProbeFit on.now.d probe.now }
    ensures { IsTrue result ↔ IsLegalProbe on.now.d on.now.d.fixed net probe.now }
{
    if !on.is_probe_inside(probe) {
        return false;
    }
    fixed_agree(on, net, probe)
}

/// How many routed items disagree with what the probe stands for, up to the limit.
fn count_in_way<C: Copper>(on: &Ground<'_, C>, net: u32, probe: &Probe) -> u64
    requires { IsProbeFit on.now.d probe.now }
    ensures counted { CountsTo (IsInWay on.now.d net probe.now) MOST_CHARGED on.now.items result }
    ensures few { result ≤ MOST_CHARGED }
{
    on.keeps();
    on.in_order();
    let mut from = on.fixed_count();
    for n in 0..MOST_CHARGED {
        let Some(id) = on.block_from(net, probe, from) else {
            return n;
        };
        let Some(next) = id.checked_add(1) else {
            return n + 1;
        };
        from = next;
    }
    MOST_CHARGED
}

/// The moves of a net that fixed copper lets be: `penalty` is what each routed item in the way of a move costs, in nm.
#[derive(Drop)]
pub struct RipMoves<'a, C: Copper> {
    pub legal: LegalMoves<'a, C>,
    pub penalty: u64,
}

impl<'a, C: Copper> RipMoves<'a, C> {
    /// The moves of a net of the design past the routed items of the copper.
    pub fn of(
        lat: &'a Lattice,
        d: &'a Design,
        c: &'a C,
        net: u32,
        via_cost: u64,
        penalty: u64,
    ) -> RipMoves<'a, C>
        requires can_rip { CanRip d.now lat.now net via_cost penalty }
        ensures lat { result.legal.lat.now ≡ lat.now }
        ensures d { result.legal.d.now ≡ d.now }
        ensures c { result.legal.c.now ≡ c.now }
        ensures net { result.legal.net ≡ net }
        ensures via_cost { result.legal.via_cost ≡ via_cost }
        ensures penalty { result.penalty ≡ penalty }
    {
        RipMoves {
            legal: LegalMoves::of(lat, d, c, net, via_cost),
            penalty,
        }
    }

    /// How many items are in the way of a move, up to the limit.
    fn charged(&self, node: u32, i: u32) -> u64
        requires can_rip { CanRip self.now.legal.d.now self.now.legal.lat.now self.now.legal.net self.now.legal.via_cost
            self.now.penalty }
        requires serves { C.serves self.now.legal.c.now self.now.legal.d.now }
        requires node { node < node_count self.now.legal.lat.now }
        requires index { i < way_count self.now.legal.d.now self.now.legal.lat.now self.now.legal.net }
        ensures counted { IsCharged self.now.legal.d.now (C.items self.now.legal.c.now) self.now.legal.net
            (probe_at self.now.legal.d.now self.now.legal.lat.now self.now.legal.net node i) result }
        ensures few { result ≤ MOST_CHARGED }
    {
        self.legal.c.in_order();
        let on = Ground {
            lat: self.legal.lat,
            d: self.legal.d,
            c: self.legal.c,
        };
        match self.legal.probe(node, i) {
            Some(probe) => count_in_way(&on, self.legal.net, &probe),
            None => 0,
        }
    }
}

impl<C: Copper> Moves for RipMoves<'_, C> {
    ghost graph = { λ s. rip_graph s.legal.d.now s.legal.lat.now
        (C.items s.legal.c.now) s.legal.net s.legal.via_cost s.penalty };

    ghost ready = { λ s. CanRip s.legal.d.now s.legal.lat.now s.legal.net s.legal.via_cost s.penalty
        × C.serves s.legal.c.now s.legal.d.now };

    fn count(&self) -> u32 {
        self.legal.count()
    }

    fn arity(&self) -> u32 {
        self.legal.arity()
    }

    fn at(&self, node: u32, i: u32) -> Option<(Move, u32)> {
        self.legal.at(node, i)
    }

    fn is_open(&self, node: u32, i: u32) -> bool {
        self.legal.c.in_order();
        let on = Ground {
            lat: self.legal.lat,
            d: self.legal.d,
            c: self.legal.c,
        };
        match self.legal.probe(node, i) {
            Some(probe) => is_legal_on_fixed(&on, self.legal.net, &probe),
            None => false,
        }
    }

    fn price(&self, node: u32, i: u32) -> u64 {
        self.legal.price(node, i) + self.penalty * self.charged(node, i)
    }
}
