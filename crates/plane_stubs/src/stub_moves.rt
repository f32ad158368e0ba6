//! The moves of stubs: those of the net, and a last one to a node more from where a legal via touches a rib.

ghost use Rattle.std.specs.Prelude.{◌≡◌, ◌↔◌, ◌<◌, ◌≤◌, ◌∷◌, [], IsTrue, IfOk, MatchOption, All};
ghost use Rattle.route_lattice.specs.Legal.{probe_at};
ghost use Rattle.route_lattice.specs.Mesh.{node_count};
ghost use Rattle.route_lattice.specs.Ways.{way_count};
ghost use Rattle.plane_joins.specs.inner.Graph.{CanEnd, EndsBy, IsEnd, stub_graph};
ghost use Rattle.plane_joins.specs.Stubs.{Touches};
ghost use Rattle.plane_stubs.specs.inner.Landings.{AreLandings, EndsAtLanding, LandsAs};

use crate::rib_moves::RibMoves;
use geo_kernel::List;
use route_lattice::{Move, Moves, Walk};
use std::alloc::AllocError;

/// The moves of a net, and which of its vias touch a rib.
#[derive(Drop)]
pub(crate) struct StubMoves<'a> {
    pub(crate) on: RibMoves<'a>,
    pub(crate) rows: &'a List<List<bool>>,
}

impl StubMoves<'_> {
    // Whether what a via move lays touches a rib.
    fn touches(&self, node: u32, i: u32) -> bool
        requires landings { AreLandings self.now.on.on self.now.on.net self.now.rows.now }
        requires node { node < node_count self.now.on.on.lat }
        requires via { 4 ≤ i }
        requires index { i < way_count self.now.on.on.d self.now.on.on.lat self.now.on.net }
        ensures { IsTrue result
            ↔ Touches self.now.on.on self.now.on.net
            (probe_at self.now.on.on.d self.now.on.on.lat self.now.on.net node i) }
    {
        let row = &self.rows.as_slice()[(i - 4) as usize];
        row.as_slice()[node as usize]
    }

    // Whether the move is a legal via that touches a rib.
    fn ends_by(&self, node: u32, i: u32) -> bool
        requires landings { AreLandings self.now.on.on self.now.on.net self.now.rows.now }
        requires node { node < node_count self.now.on.on.lat }
        requires via { 4 ≤ i }
        requires index { i < way_count self.now.on.on.d self.now.on.on.lat self.now.on.net }
        ensures { IsTrue result ↔ EndsBy self.now.on.on self.now.on.net node i }
    {
        if !self.touches(node, i) {
            return false;
        }
        self.on.is_open(node, i)
    }

    // The first such move of a node, and the node that it leads to.
    fn end_of(&self, node: u32) -> Option<(Move, u32)>
        requires landings { AreLandings self.now.on.on self.now.on.net self.now.rows.now }
        requires node { node < node_count self.now.on.on.lat }
        ensures { MatchOption result (CanEnd self.now.on.on self.now.on.net node → ⊥)
            (λ w. IsEnd self.now.on.on self.now.on.net node w.0 w.1) }
    {
        for i in 4..self.on.arity() {
            if self.ends_by(node, i) {
                return self.on.at(node, i);
            }
        }
        None
    }

    /// A walk to the last node, with a legal via that touches a rib in place of its last move.
    pub(crate) fn land(&self, w: Walk) -> Result<Walk, AllocError>
        requires landings { AreLandings self.now.on.on self.now.on.net self.now.rows.now }
        requires ends { EndsAtLanding self.now.on.on self.now.on.net w }
        ensures { IfOk result (LandsAs self.now.on.on self.now.on.net w) }
    {
        let Walk {
            mut nodes,
            mut moves,
            price,
        } = w;
        let node = nodes.as_slice()[moves.as_slice().len() - 1];
        match self.end_of(node) {
            Some((mv, to)) => {
                let _end = nodes.pop();
                let _last = moves.pop();
                nodes.push(to)?;
                moves.push(mv)?;
                Ok(Walk {
                    nodes,
                    moves,
                    price,
                })
            }
            None => unreachable!(),
        }
    }
}

impl Moves for StubMoves<'_> {
    ghost graph = { λ s. stub_graph s.on.on s.on.net };

    ghost ready = { λ s. AreLandings s.on.on s.on.net s.rows.now };

    fn count(&self) -> u32 {
        self.on.count() + 1
    }

    fn arity(&self) -> u32 {
        self.on.arity() + 1
    }

    fn at(&self, node: u32, i: u32) -> Option<(Move, u32)> {
        let count = self.on.count();
        if node >= count {
            return None;
        }
        if i < self.on.arity() {
            self.on.at(node, i)
        } else {
            Some((Move::Step { dir: 0 }, count))
        }
    }

    fn is_open(&self, node: u32, i: u32) -> bool {
        if node >= self.on.count() {
            return false;
        }
        if i < self.on.arity() {
            self.on.is_open(node, i)
        } else {
            self.end_of(node).is_some()
        }
    }

    fn price(&self, node: u32, i: u32) -> u64 {
        if node >= self.on.count() {
            return 0;
        }
        if i < self.on.arity() {
            self.on.price(node, i)
        } else {
            self.on.via_price()
        }
    }
}
