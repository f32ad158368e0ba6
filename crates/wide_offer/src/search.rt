//! What the moves of a net reach, diagonals among them, and a least walk over them from an island to others.

ghost use Rattle.std.specs.Prelude.{◌≡◌, ◌↔◌, ◌<◌, ℕ, List as Seq, All, IfOk, IsTrue};
ghost use Rattle.std.specs.List.Sorted.{IsStrictlyIncreasing};
ghost use Rattle.route_lattice.specs.Mesh.{node_count};
ghost use Rattle.route_lattice.specs.Walks.{Answers, IsReach};
ghost use Rattle.route_lattice.specs.Legal.{CanMove, legal_graph};
ghost use Rattle.path_wire.specs.Diagonals.{wide_graph};
ghost use Rattle.wide_offer.specs.inner.Routes.{FindsRoute, IsRouteOf, LeadsBetween};

use crate::anchored::{anchored_among, anchored_at_goal};
use cut_certificate::{flood, goals_of, starts_of};
use diag_moves::{
    DiagBound, DiagMoves, Slants, diag_bound_sound, reach_goes_on, reach_is_whole,
    slant_graph_sound, wide_graph_sound, wide_items,
};
use geo_kernel::List;
use pcb_islands::Island;
use pcb_model::{Copper, Design, Metal};
use route_lattice::{Found, Ground, Lattice, Reach, Walk};
use std::alloc::{AllocError, Global};
use wave_search::guided_walk;

/// The copper of a walk, and the ids of the items that it joins.
#[derive(Drop)]
pub(crate) struct Route {
    pub from: u64,
    pub to: u64,
    pub metals: List<Metal>,
}

/// Searches on some copper by the legal moves of nets and by moves at 45 degrees. A via costs `via_cost` nm.
#[derive(Drop)]
pub struct WideSearch<'a, C: Copper> {
    pub lat: &'a Lattice,
    pub d: &'a Design,
    pub copper: &'a C,
    pub via_cost: u64,
}

fn is_same(a: &[u32], b: &[u32]) -> bool
    ensures { IsTrue result ↔ (a.now ≡ b.now) }
{
    a == b
}

impl<C: Copper> WideSearch<'_, C> {
    /// All nodes that the moves of a net reach, diagonals among them, from the starts from which legal moves reach the
    /// given ones. Little lies beyond these, so the diagonals that lead out of them are looked at first.
    pub fn reach(&self, alloc: Global, net: u32, legal: &List<u32>) -> Result<Reach, AllocError>
        requires can_move { CanMove self.now.d.now self.now.lat.now net self.now.via_cost }
        requires serves { C.serves self.now.copper.now self.now.d.now }
        requires there { All (λ v. v < node_count self.now.lat.now) legal.now }
        ensures ascends { IfOk result (λ r. IsStrictlyIncreasing r.nodes) }
        ensures whole { IfOk result (λ r. (starts : Seq ℕ)
            → IsReach (legal_graph self.now.d.now self.now.lat.now (C.items self.now.copper.now) net self.now.via_cost)
            starts legal.now
            → IsReach (wide_graph self.now.d.now self.now.lat.now (C.items self.now.copper.now) net self.now.via_cost)
            starts r.nodes) }
    {
        slant_graph_sound();
        wide_graph_sound();
        reach_is_whole();
        reach_goes_on();
        let slants = Slants {
            all: DiagMoves::of(self.lat, self.d, self.copper, net, self.via_cost),
        };
        let first = flood(alloc, &slants, legal)?;
        if is_same(first.nodes.as_slice(), legal.as_slice()) {
            return Ok(first);
        }
        drop(first);
        flood(alloc, &slants.all, legal)
    }

    /// A least walk of a net from a start to a goal, or all nodes that its moves reach where none leads so.
    fn walk(
        &self,
        alloc: Global,
        net: u32,
        starts: &List<u32>,
        goals: &List<u32>,
    ) -> Result<Found, AllocError>
        requires can_move { CanMove self.now.d.now self.now.lat.now net self.now.via_cost }
        requires serves { C.serves self.now.copper.now self.now.d.now }
        requires starts { All (λ s. s < node_count self.now.lat.now) starts.now }
        ensures { IfOk result (Answers (wide_graph self.now.d.now self.now.lat.now (C.items self.now.copper.now) net
            self.now.via_cost) starts.now goals.now) }
    {
        wide_graph_sound();
        diag_bound_sound();
        let moves = DiagMoves::of(self.lat, self.d, self.copper, net, self.via_cost);
        let bound = DiagBound::of(alloc, self.lat, goals)?;
        guided_walk(alloc, &moves, &bound, starts, goals)
    }

    /// The copper of a walk from an island to one of the others, and the items that it joins.
    fn route_of(
        &self,
        alloc: Global,
        island: &Island,
        others: &List<Island>,
        walk: Walk,
    ) -> Result<Route, AllocError>
        requires can_move { CanMove self.now.d.now self.now.lat.now island.now.net self.now.via_cost }
        requires serves { C.serves self.now.copper.now self.now.d.now }
        requires leads { LeadsBetween self.now.d.now self.now.lat.now (C.items self.now.copper.now) self.now.via_cost
            island.now others.now walk }
        ensures { IfOk result (IsRouteOf self.now.d.now self.now.lat.now (C.items self.now.copper.now) island.now
            others.now walk) }
    {
        self.copper.in_order();
        let on = Ground {
            lat: self.lat,
            d: self.d,
            c: self.copper,
        };
        let nodes = walk.nodes.as_slice();
        let Some(from) = anchored_among(&on, island.items.as_slice(), nodes[0]) else {
            unreachable!();
        };
        let to = anchored_at_goal(&on, others.as_slice(), nodes[nodes.len() - 1]);
        let laid = wide_items(alloc, self.lat, self.d, island.net, &walk);
        drop(walk);
        match laid {
            Ok(metals) => Ok(Route { from, to, metals }),
            Err(error) => Err(error),
        }
    }

    /// The route of a least walk from an island to one of the others; None where no walk leads so.
    pub(crate) fn route(
        &self,
        alloc: Global,
        island: &Island,
        others: &List<Island>,
    ) -> Result<Option<Route>, AllocError>
        requires can_move { CanMove self.now.d.now self.now.lat.now island.now.net self.now.via_cost }
        requires serves { C.serves self.now.copper.now self.now.d.now }
        ensures { IfOk result (FindsRoute self.now.d.now self.now.lat.now (C.items self.now.copper.now)
            self.now.via_cost island.now others.now) }
    {
        self.copper.in_order();
        let starts = starts_of(alloc, self.lat, self.d, self.copper, island)?;
        let goals = match goals_of(alloc, self.lat, self.d, self.copper, others) {
            Ok(goals) => goals,
            Err(error) => {
                drop(starts);
                return Err(error);
            }
        };
        let found = self.walk(alloc, island.net, &starts, &goals);
        drop((starts, goals));
        match found {
            Ok(Found::Closed(reach)) => {
                drop(reach);
                Ok(None)
            }
            Ok(Found::Walk(walk)) => match self.route_of(alloc, island, others, walk) {
                Ok(route) => Ok(Some(route)),
                Err(error) => Err(error),
            },
            Err(error) => Err(error),
        }
    }
}
