//! The plan of a net on a snapshot: a least walk from its first island to another, and what makes way for it.
//! A plan takes no turn: what it reads stays as it is while the board goes on.

ghost use Rattle.std.specs.Prelude.{◌≡◌, All, IfOk, None};
ghost use Rattle.route_lattice.specs.Mesh.{node_count};
ghost use Rattle.path_wire.specs.Lays.{IsWellLaid};
ghost use Rattle.route_plan.specs.Plans.{PlansNet, LeadsOut, StatesOut};
ghost use Rattle.route_plan.specs.inner.RouteOffers.{IsRouteOffer, MakesWayFor, search_of};

use crate::route::{NetSearch, Route, Routed};
use crate::way::{Way, make_way};
use geo_kernel::List;
use least_offer::{
    least_offers_may_be_made, made_shoves_stand_together, shoves_are_one, shoves_may_be_made,
};
use path_wire::copper_well_laid;
use pcb_board::{CLOSER, Offer, Snap};
use pcb_islands::{Island, islands};
use pcb_model::{Copper, Design, Metal};
use route_lattice::{Ground, Lattice, Moves, Reach};
use std::alloc::{AllocError, Global};
use std::marker::Model;
use wave_search::{Search, stated_walks_are_one};

/// What a plan answers: an offer; all that moves reach from the first island, where no walk leads from it to another;
/// or that the net has at most one island.
#[derive(Drop)]
pub enum Planned {
    Offer(Offer),
    Shut(Reach),
    Whole,
}

/// Where an island leads: a least offer from it, or all that moves reach where no walk leads on.
#[derive(Drop)]
pub enum FromIsland {
    Offer(Offer),
    Shut(Reach),
}

/// The plan of a net: what is planned on, a snapshot of a board of the design, and the moves of the net that its
/// searches go over. A via costs `via_cost` nm, and a routed item in the way of a move `penalty` nm, if routed items
/// may be passed.
#[derive(Drop)]
pub struct NetPlan<'a, M: Moves> {
    pub(crate) lat: &'a Lattice,
    pub(crate) d: &'a Design,
    pub(crate) snap: &'a Snap,
    pub(crate) moves: &'a M,
    pub(crate) via_cost: u64,
    pub(crate) worker: u32,
    pub(crate) net: u32,
    pub(crate) penalty: Option<u64>,
}

impl<'a, M: Moves> Model for NetPlan<'a, M> {
    ghost use Rattle.std.specs.Prelude.{◌≤◌};
    ghost use Rattle.board_offers.specs.declared.offer.TheConstants.{CLOSER};
    ghost use Rattle.route_plan.specs.Planners.{NetPlanOf, AreMovesOf, planner_of};
    ghost use Rattle.route_plan.specs.Plans.{CanPlan, moves_of};

    ghost Value = { NetPlanOf };

    ghost view = { λ s. record {
      by = planner_of s.lat.now s.snap.now s.via_cost s.worker;
      net = s.net;
      penalty = s.penalty;
    } };

    ghost invariant = { λ s. CanPlan s.d.now s.lat.now s.snap.now s.net s.via_cost s.penalty × (s.worker ≤ CLOSER)
        × AreMovesOf M.Moves s.moves.now
        (moves_of s.d.now s.lat.now s.snap.now.items s.net s.via_cost s.penalty) };
}

impl<M: Moves> NetPlan<'_, M> {
    /// What makes way for metals of the net: nothing without a penalty.
    fn way_for(&self, alloc: Global, metals: &List<Metal>) -> Result<Way, AllocError>
        requires { All (IsWellLaid self.now.by.snap.design self.now.net 0) metals.now }
        ensures { IfOk result (MakesWayFor self.now.by.snap.design self.now.by.lat self.now.by.snap.items self.now.net
            self.now.penalty metals.now) }
    {
        match self.penalty {
            None => Ok(Way {
                rip: List::new(alloc),
                shoves: List::new(alloc),
            }),
            Some(_) => {
                self.snap.in_order();
                let on = Ground {
                    lat: self.lat,
                    d: self.d,
                    c: self.snap,
                };
                make_way(alloc, &on, self.net, metals)
            }
        }
    }

    /// The offer of a route, and of what makes way for it.
    fn offer_of(&self, route: Route, way: Way) -> Offer
        ensures { IsRouteOffer self.now.by.snap.number self.now.by.worker self.now.net self.now.penalty route way
            result }
    {
        Offer {
            base: self.snap.number(),
            worker: self.worker,
            net: self.net,
            from: route.from,
            to: route.to,
            penalty: self.penalty,
            add: route.metals,
            rip: way.rip,
            shoves: way.shoves,
        }
    }

    /// The search from an island of the net to the others.
    fn search_from<'b>(
        &'b self,
        island: &'b Island,
        others: &'b List<Island>,
    ) -> NetSearch<'b, Snap, M>
        requires net { island.now.net ≡ self.now.net }
        ensures { result ≡ search_of self.now island.now others.now }
    {
        self.snap.in_order();
        NetSearch {
            lat: self.lat,
            d: self.d,
            copper: self.snap,
            moves: self.moves,
            island,
            others,
            via_cost: self.via_cost,
            penalty: self.penalty,
        }
    }

    /// Where an island of the net leads by the stated walk, with memory for searches. Nothing is taken out.
    pub(crate) fn lead_stated(
        &self,
        alloc: Global,
        search: &mut Search,
        island: &Island,
        others: &List<Island>,
    ) -> Result<FromIsland, AllocError>
        requires net { island.now.net ≡ self.now.net }
        requires free { self.now.penalty ≡ None }
        requires size { search.old ≡ node_count self.now.by.lat }
        ensures leads { IfOk result (StatesOut self.now.by island.now others.now) }
        ensures size { search.new ≡ search.old }
    {
        copper_well_laid();
        least_offers_may_be_made();
        stated_walks_are_one(self.moves);
        self.snap.in_order();
        let task = self.search_from(island, others);
        match task.stated_route(alloc, search)? {
            Routed::Shut(reach) => Ok(FromIsland::Shut(reach)),
            Routed::Route(route) => {
                let way = Way {
                    rip: List::new(alloc),
                    shoves: List::new(alloc),
                };
                Ok(FromIsland::Offer(self.offer_of(route, way)))
            }
        }
    }

    /// Where an island of the net leads, with memory for searches. Those of the closing pass mostly find nothing, so a
    /// flood goes before them.
    pub(crate) fn lead(
        &self,
        alloc: Global,
        search: &mut Search,
        island: &Island,
        others: &List<Island>,
    ) -> Result<FromIsland, AllocError>
        requires net { island.now.net ≡ self.now.net }
        requires size { search.old ≡ node_count self.now.by.lat }
        ensures leads { IfOk result (LeadsOut self.now.by self.now.penalty island.now others.now) }
        ensures size { search.new ≡ search.old }
    {
        copper_well_laid();
        least_offers_may_be_made();
        shoves_may_be_made();
        made_shoves_stand_together();
        shoves_are_one();
        self.snap.in_order();
        let task = self.search_from(island, others);
        match task.route(alloc, search, self.worker == CLOSER)? {
            Routed::Shut(reach) => Ok(FromIsland::Shut(reach)),
            Routed::Route(route) => match self.way_for(alloc, &route.metals) {
                Ok(way) => Ok(FromIsland::Offer(self.offer_of(route, way))),
                Err(error) => {
                    drop(route);
                    Err(error)
                }
            },
        }
    }

    /// What is planned for the net, with memory for searches. `AllocError` comes only for want of memory.
    pub fn plan(&self, alloc: Global, search: &mut Search) -> Result<Planned, AllocError>
        requires size { search.old ≡ node_count self.now.by.lat }
        ensures plan { IfOk result (PlansNet self.now.by self.now.net self.now.penalty) }
        ensures size { search.new ≡ search.old }
    {
        let mut others = islands(alloc, self.d, self.snap, self.net)?;
        if others.len() <= 1 {
            drop(others);
            return Ok(Planned::Whole);
        }
        let island = others.remove(0);
        let led = self.lead(alloc, search, &island, &others);
        drop((island, others));
        match led {
            Ok(FromIsland::Shut(reach)) => Ok(Planned::Shut(reach)),
            Ok(FromIsland::Offer(offer)) => Ok(Planned::Offer(offer)),
            Err(error) => Err(error),
        }
    }
}
