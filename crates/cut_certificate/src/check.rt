//! Whether a cut is one, without a search and without memory.
//! It is so for any closed set of nodes, however it was found.

ghost use Rattle.std.specs.Prelude.{◌≡◌, ◌↔◌, ◌<◌, ℕ, length, All, Contains, IsTrue, Some, slice_get};
ghost use Rattle.std.specs.List.Sorted.{IsStrictlyIncreasing};
ghost use Rattle.pcb_model.specs.Sound.{IsSound, IsItemOf};
ghost use Rattle.route_lattice.specs.Mesh.{node_count};
ghost use Rattle.route_lattice.specs.Fits.{FitsDesign};
ghost use Rattle.route_lattice.specs.Anchors.{Anchors};
ghost use Rattle.route_lattice.specs.Ways.{way, way_count};
ghost use Rattle.route_lattice.specs.Legal.{IsLegalNode};
ghost use Rattle.cut_certificate.specs.Border.{AreBlocks};
ghost use Rattle.cut_certificate.specs.Cuts.{IsCut, IsShutBy, LeadsOn};
ghost use Rattle.cut_certificate.specs.inner.Checks.{HoldsStarts, HoldsStartsOf};
ghost use Rattle.cut_certificate.specs.inner.Checks.{HoldsNone, HoldsNoneOf, HoldsNoneOfIsland};

use crate::border::{are_blocks, ascends, has};
use crate::cut::{Block, Cut};
use crate::sound::SoundMoves;
use geo_kernel::List;
use pcb_islands::Island;
use pcb_model::{Copper, Design, Item};
use route_lattice::{Ground, Lattice, legal_graph_sound};

fn is_named(island: &Island, cut: &Cut) -> bool
    ensures { IsTrue result ↔ ((cut.now.net ≡ island.now.net) × (slice_get island.now.pins 0 ≡ Some cut.now.pin)) }
{
    if cut.net != island.net {
        return false;
    }
    match island.pins.get(0) {
        None => false,
        Some(pin) => *pin == cut.pin,
    }
}

pub(crate) fn all_below(nodes: &[u32], count: u32) -> bool
    ensures { IsTrue result ↔ All (λ v. v < count) nodes.now }
{
    nodes.iter().all(|v| *v < count)
}

/// Nodes of a lattice that are said to be a cut of a net: they ascend.
#[derive(Drop)]
struct CutNodes<'a, C: Copper> {
    on: Ground<'a, C>,
    net: u32,
    nodes: &'a [u32],
    ghost net_there: { net < length on.d.nets },
    ghost ascend: { IsStrictlyIncreasing nodes.now },
    ghost there: { All (λ v. v < node_count on.lat) nodes.now },
}

impl<C: Copper> CutNodes<'_, C> {
    fn start_in(&self, item: &Item, node: u32) -> bool
        requires item { IsItemOf self.now.on.d item.now }
        requires node { node < node_count self.now.on.lat }
        ensures { IsTrue result ↔ (Anchors self.now.on.d self.now.on.lat node item.now
            → IsLegalNode self.now.on.d self.now.on.lat self.now.on.items self.now.net node
            → Contains self.now.nodes.now node) }
    {
        if !self.on.anchor(node, item) {
            return true;
        }
        if has(self.nodes, node) {
            return true;
        }
        !self.on.is_legal_node(self.net, node)
    }

    fn starts_in(&self, item: &Item) -> bool
        requires item { IsItemOf self.now.on.d item.now }
        ensures { IsTrue result ↔ HoldsStarts self.now.on self.now.net self.now.nodes.now item.now }
    {
        for node in 0..self.on.count() {
            if !self.start_in(item, node) {
                return false;
            }
        }
        true
    }

    fn starts_of_in(&self, id: u64) -> bool
        ensures { IsTrue result ↔ HoldsStartsOf self.now.on self.now.net self.now.nodes.now id }
    {
        self.on.in_order();
        match self.on.item(id) {
            None => true,
            Some(item) => self.starts_in(item),
        }
    }

    fn all_starts_in(&self, ids: &[u64]) -> bool
        ensures { IsTrue result ↔ All (HoldsStartsOf self.now.on self.now.net self.now.nodes.now) ids.now }
    {
        for id in ids {
            if !self.starts_of_in(*id) {
                return false;
            }
        }
        true
    }

    fn none_anchors(&self, item: &Item) -> bool
        requires item { IsItemOf self.now.on.d item.now }
        ensures { IsTrue result ↔ HoldsNone self.now.on self.now.nodes.now item.now }
    {
        for node in self.nodes {
            if self.on.anchor(*node, item) {
                return false;
            }
        }
        true
    }

    fn none_anchors_of(&self, id: u64) -> bool
        ensures { IsTrue result ↔ HoldsNoneOf self.now.on self.now.nodes.now id }
    {
        self.on.in_order();
        match self.on.item(id) {
            None => true,
            Some(item) => self.none_anchors(item),
        }
    }

    fn none_anchors_among(&self, ids: &[u64]) -> bool
        ensures { IsTrue result ↔ All (HoldsNoneOf self.now.on self.now.nodes.now) ids.now }
    {
        for id in ids {
            if !self.none_anchors_of(*id) {
                return false;
            }
        }
        true
    }

    fn islands_out(&self, others: &[Island]) -> bool
        ensures { IsTrue result ↔ All (HoldsNoneOfIsland self.now.on self.now.nodes.now) others.now }
    {
        for other in others {
            if !self.none_anchors_among(other.items.as_slice()) {
                return false;
            }
        }
        true
    }

    /// Whether the blocks are, in order, exactly the moves of the net that lead out of the nodes, each with what shuts
    /// it.
    fn has_border(&self, blocked: &[Block]) -> bool
        ensures { IsTrue result
            ↔ AreBlocks (way self.now.on.d self.now.on.lat self.now.net) (way_count self.now.on.d
            self.now.on.lat self.now.net)
            (IsShutBy self.now.on.d self.now.on.lat self.now.on.items self.now.net) self.now.nodes.now blocked.now }
    {
        legal_graph_sound();
        let moves = self.on.moves(self.net, 0);
        let on = SoundMoves { moves: &moves };
        are_blocks(on, self.nodes, blocked)
    }
}

/// Whether the cut is one between the island and the others. It takes no memory.
pub fn check_cut<C: Copper>(
    lat: &Lattice,
    d: &Design,
    c: &C,
    island: &Island,
    others: &List<Island>,
    cut: &Cut,
) -> bool
    requires sound { IsSound d.now }
    requires fits { FitsDesign d.now lat.now }
    requires net { island.now.net < length d.now.nets }
    requires serves { C.serves c.now d.now }
    ensures { IsTrue result ↔ IsCut d.now lat.now (C.items c.now) island.now others.now cut.now }
{
    c.in_order();
    let on = Ground { lat, d, c };
    let nodes = cut.reach.nodes.as_slice();
    if !is_named(island, cut) {
        return false;
    }
    if !ascends(nodes) {
        return false;
    }
    if !all_below(nodes, lat.count()) {
        return false;
    }
    let held = CutNodes {
        on,
        net: island.net,
        nodes,
    };
    if !held.all_starts_in(island.items.as_slice()) {
        return false;
    }
    if !held.islands_out(others.as_slice()) {
        return false;
    }
    held.has_border(cut.blocked.as_slice())
}

/// Where a cut is, no legal walk leads from the island to one of the others. A law, on a call that does nothing.
pub fn cut_closes<C: Copper>(
    lat: &Lattice,
    d: &Design,
    c: &C,
    island: &Island,
    others: &List<Island>,
    cut: &Cut,
)
    requires cut { IsCut d.now lat.now (C.items c.now) island.now others.now cut.now }
    ensures { (via_cost : ℕ) → LeadsOn d.now lat.now (C.items c.now) via_cost island.now others.now → ⊥ }
{}
