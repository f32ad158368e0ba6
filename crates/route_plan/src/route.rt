//! A least walk of a net on some copper, what it lays, and the items that it joins.
//! The walk leads from one island of the net to another.

ghost use Rattle.std.specs.Prelude.{◌≡◌, ◌<◌, ℕ, IfOk, All, length};
ghost use Rattle.std.specs.Bool.{OnFalse, OnTrue};
ghost use Rattle.route_lattice.specs.Mesh.{node_count};
ghost use Rattle.route_lattice.specs.Walks.{Answers, NoneLeads};
ghost use Rattle.cut_certificate.specs.Cuts.{AreGoals, AreStarts, IsGoal};
ghost use Rattle.wave_search.specs.Stated.{AnswersStated};
ghost use Rattle.cut_certificate.specs.Past.{IsCutPast};
ghost use Rattle.route_plan.specs.Routes.{FindsAnchored, IsAnchoredIn, FindsPast, FindsRoute, FindsStated, walks_of};
ghost use Rattle.route_plan.specs.Routes.{IsLed, IsRouteOf, JoinsIslands};

use crate::laws::rip_bound_sound;
use cut_certificate::{
    Cut, are_shut_in, flood, goals_of, legal_moves_lead_back, may_lead_past, meets, starts_of,
};
use geo_kernel::List;
use path_wire::{net_walks, walk_items};
use pcb_islands::Island;
use pcb_model::{Copper, Design, Metal};
use ripup::rip_graph_sound;
use route_lattice::{Found, Ground, Lattice, Moves, Reach, Walk, legal_graph_sound};
use std::alloc::{AllocError, Global};
use std::marker::Model;
use wave_search::{BoxBound, LayerDirections, Search, box_bound_sound};

/// How many nodes are followed from goals to find that they are shut in.
const MOST_SHUT_IN: u32 = 250;

/// The copper of a walk, and the ids of the items that it joins.
#[derive(Drop)]
pub struct Route {
    pub from: u64,
    pub to: u64,
    pub metals: List<Metal>,
}

/// A route, or all that moves reach where none leads on.
#[derive(Drop)]
pub enum Routed {
    Route(Route),
    Shut(Reach),
}

/// The first of the ids whose item is anchored at the node.
fn anchored_among<C: Copper>(on: &Ground<'_, C>, ids: &[u64], node: u32) -> Option<u64>
    requires { node < node_count on.now.lat }
    ensures { FindsAnchored on.now.d on.now.lat on.now.items ids.now node result }
{
    on.in_order();
    for id in ids {
        let Some(item) = on.item(*id) else {
            continue;
        };
        if on.anchor(node, item) {
            return Some(*id);
        }
    }
    None
}

/// The id of an item of one of the islands that is anchored at a goal.
fn anchored_at_goal<C: Copper>(on: &Ground<'_, C>, others: &[Island], node: u32) -> u64
    requires { IsGoal on.now.d on.now.lat on.now.items others.now node }
    ensures { IsAnchoredIn on.now.d on.now.lat on.now.items others.now node result }
{
    for other in others {
        if let Some(id) = anchored_among(on, other.items.as_slice(), node) {
            return id;
        }
    }
    unreachable!()
}

/// The search from an island of a net to the others on some copper, and the moves of the net that it goes over. A via
/// costs `via_cost` nm, and a routed item in the way of a move `penalty` nm, if routed items may be passed.
#[derive(Drop)]
pub struct NetSearch<'a, C: Copper, M: Moves> {
    pub lat: &'a Lattice,
    pub d: &'a Design,
    pub copper: &'a C,
    pub moves: &'a M,
    pub island: &'a Island,
    pub others: &'a List<Island>,
    pub via_cost: u64,
    pub penalty: Option<u64>,
}

impl<'a, C: Copper, M: Moves> Model for NetSearch<'a, C, M> {
    ghost use Rattle.route_lattice.specs.Ground.{ground_of};
    ghost use Rattle.route_plan.specs.Plans.{moves_of};
    ghost use Rattle.route_plan.specs.Planners.{AreMovesOf};
    ghost use Rattle.route_plan.specs.Searches.{NetSearchOf, CanWalk};

    ghost Value = { NetSearchOf };

    ghost view = { λ s. record {
      on = ground_of s.d.now s.lat.now (C.items s.copper.now);
      island = s.island.now;
      others = s.others.now;
      via_cost = s.via_cost;
      penalty = s.penalty;
    } };

    ghost invariant = { λ s. CanWalk s.d.now s.lat.now s.island.now.net s.via_cost s.penalty
        × C.serves s.copper.now s.d.now × AreMovesOf M.Moves s.moves.now
        (moves_of s.d.now s.lat.now (C.items s.copper.now) s.island.now.net s.via_cost s.penalty) };
}

impl<C: Copper, M: Moves> NetSearch<'_, C, M> {
    /// Whether it is soon known that no walk leads from the starts to a goal, since the goals are shut in.
    fn is_shut_in(
        &self,
        alloc: Global,
        starts: &List<u32>,
        goals: &List<u32>,
    ) -> Result<bool, AllocError>
        requires { All (λ s. s < node_count self.now.on.lat) starts.now }
        ensures { IfOk result (λ shut. OnTrue shut (NoneLeads (walks_of self.now) starts.now goals.now)) }
    {
        legal_graph_sound();
        rip_graph_sound();
        legal_moves_lead_back();
        are_shut_in(alloc, self.moves, starts, goals, MOST_SHUT_IN)
    }

    /// All nodes that the moves of the net reach from the starts, where no walk leads to a goal.
    fn closed(
        &self,
        alloc: Global,
        starts: &List<u32>,
        goals: &List<u32>,
    ) -> Result<Found, AllocError>
        requires starts { All (λ s. s < node_count self.now.on.lat) starts.now }
        requires none { NoneLeads (walks_of self.now) starts.now goals.now }
        ensures { IfOk result (Answers (walks_of self.now) starts.now goals.now) }
    {
        legal_graph_sound();
        rip_graph_sound();
        let _goals = goals;
        let reach = flood(alloc, self.moves, starts)?;
        Ok(Found::Closed(reach))
    }

    /// A least walk over the moves of the net, by a search.
    fn searched(
        &self,
        alloc: Global,
        search: &mut Search,
        starts: &List<u32>,
        goals: &List<u32>,
    ) -> Result<Found, AllocError>
        requires size { search.old ≡ node_count self.now.on.lat }
        requires starts { All (λ s. s < node_count self.now.on.lat) starts.now }
        ensures answers { IfOk result (Answers (walks_of self.now) starts.now goals.now) }
        ensures size { search.new ≡ search.old }
    {
        legal_graph_sound();
        rip_graph_sound();
        box_bound_sound();
        rip_bound_sound();
        if self.is_shut_in(alloc, starts, goals)? {
            return self.closed(alloc, starts, goals);
        }
        let bound = BoxBound::of(alloc, self.lat, goals)?;
        let ties = LayerDirections {
            lat: self.lat,
            pattern: search.pattern(),
        };
        search.tied_walk(alloc, self.moves, &bound, &ties, starts, goals)
    }

    /// A least walk over the moves of the net. Where it is likely that none leads on, a flood tells so at a fraction of
    /// what a search takes: with `flooded` it goes first.
    fn walk(
        &self,
        alloc: Global,
        search: &mut Search,
        starts: &List<u32>,
        goals: &List<u32>,
        flooded: bool,
    ) -> Result<Found, AllocError>
        requires size { search.old ≡ node_count self.now.on.lat }
        requires starts { All (λ s. s < node_count self.now.on.lat) starts.now }
        ensures answers { IfOk result (Answers (walks_of self.now) starts.now goals.now) }
        ensures size { search.new ≡ search.old }
    {
        if !flooded {
            return self.searched(alloc, search, starts, goals);
        }
        legal_graph_sound();
        rip_graph_sound();
        let reach = flood(alloc, self.moves, starts)?;
        if !meets(reach.nodes.as_slice(), goals.as_slice()) {
            return Ok(Found::Closed(reach));
        }
        drop(reach);
        self.searched(alloc, search, starts, goals)
    }

    /// The stated walk over the moves of the net.
    fn stated(
        &self,
        alloc: Global,
        search: &mut Search,
        starts: &List<u32>,
        goals: &List<u32>,
    ) -> Result<Found, AllocError>
        requires size { search.old ≡ node_count self.now.on.lat }
        requires starts { All (λ s. s < node_count self.now.on.lat) starts.now }
        ensures answers { IfOk result (AnswersStated (walks_of self.now) starts.now goals.now) }
        ensures size { search.new ≡ search.old }
    {
        legal_graph_sound();
        rip_graph_sound();
        box_bound_sound();
        rip_bound_sound();
        let bound = BoxBound::of(alloc, self.lat, goals)?;
        search.stated_walk(alloc, self.moves, &bound, starts, goals)
    }

    /// The copper of a walk, and the items that it joins.
    fn route_of(&self, alloc: Global, walk: Walk) -> Result<Route, AllocError>
        requires joins { JoinsIslands self.now walk }
        ensures { IfOk result (IsRouteOf self.now walk) }
    {
        self.copper.in_order();
        let on = Ground {
            lat: self.lat,
            d: self.d,
            c: self.copper,
        };
        let island = self.island;
        let nodes = walk.nodes.as_slice();
        let Some(from) = anchored_among(&on, island.items.as_slice(), nodes[0]) else {
            unreachable!();
        };
        let to = anchored_at_goal(&on, self.others.as_slice(), nodes[nodes.len() - 1]);
        let laid = walk_items(alloc, self.lat, self.d, island.net, &walk);
        drop(walk);
        match laid {
            Ok(metals) => Ok(Route { from, to, metals }),
            Err(error) => Err(error),
        }
    }

    /// The nodes at which a walk may end: the anchors of the other islands.
    fn goals(&self, alloc: Global) -> Result<List<u32>, AllocError>
        ensures { IfOk result (AreGoals self.now.on.d self.now.on.lat self.now.on.items self.now.others) }
    {
        self.copper.in_order();
        goals_of(alloc, self.lat, self.d, self.copper, self.others)
    }

    /// The nodes at which a walk may start: the legal anchors of the island.
    fn starts(&self, alloc: Global) -> Result<List<u32>, AllocError>
        ensures { IfOk result (AreStarts self.now.on.d self.now.on.lat self.now.on.items self.now.island) }
    {
        self.copper.in_order();
        starts_of(alloc, self.lat, self.d, self.copper, self.island)
    }

    /// Whether a walk may lead from the island to one of the others past the item of an id, where of the moves that
    /// lead out of a cut only those may be open that the item shut. It is found from there on, without prices.
    pub fn may_lead_past(&self, alloc: Global, cut: &Cut, id: u64) -> Result<bool, AllocError>
        requires { IsCutPast (walks_of self.now) cut.now id }
        ensures { IfOk result (λ led. OnFalse led (¬ (IsLed self.now))) }
    {
        legal_graph_sound();
        rip_graph_sound();
        let starts = self.starts(alloc)?;
        let goals = match self.goals(alloc) {
            Ok(goals) => goals,
            Err(error) => {
                drop(starts);
                return Err(error);
            }
        };
        let led = may_lead_past(alloc, self.moves, cut, id, &starts, &goals);
        drop((starts, goals));
        led
    }

    /// The route of the stated walk from the island to one of the others.
    pub fn stated_route(&self, alloc: Global, search: &mut Search) -> Result<Routed, AllocError>
        requires size { search.old ≡ node_count self.now.on.lat }
        ensures finds { IfOk result (FindsStated self.now) }
        ensures size { search.new ≡ search.old }
    {
        let starts = self.starts(alloc)?;
        let goals = match self.goals(alloc) {
            Ok(goals) => goals,
            Err(error) => {
                drop(starts);
                return Err(error);
            }
        };
        let found = self.stated(alloc, search, &starts, &goals);
        drop((starts, goals));
        match found {
            Ok(Found::Closed(reach)) => Ok(Routed::Shut(reach)),
            Ok(Found::Walk(walk)) => match self.route_of(alloc, walk) {
                Ok(route) => Ok(Routed::Route(route)),
                Err(error) => Err(error),
            },
            Err(error) => Err(error),
        }
    }

    /// The route of the stated walk past the item of an id, where of the moves that lead out of a cut only those may be
    /// open that the item shut; None where no walk leads on.
    pub fn stated_route_past(
        &self,
        alloc: Global,
        search: &mut Search,
        cut: &Cut,
        id: u64,
    ) -> Result<Option<Route>, AllocError>
        requires size { search.old ≡ node_count self.now.on.lat }
        requires cut { IsCutPast (walks_of self.now) cut.now id }
        ensures finds { IfOk result (FindsPast self.now) }
        ensures size { search.new ≡ search.old }
    {
        if !self.may_lead_past(alloc, cut, id)? {
            return Ok(None);
        }
        match self.stated_route(alloc, search)? {
            Routed::Route(route) => Ok(Some(route)),
            Routed::Shut(reach) => {
                drop(reach);
                Ok(None)
            }
        }
    }

    /// A route from the island to one of the others over the moves of the net; `flooded` says whether a flood goes
    /// before the search.
    pub(crate) fn route(
        &self,
        alloc: Global,
        search: &mut Search,
        flooded: bool,
    ) -> Result<Routed, AllocError>
        requires size { search.old ≡ node_count self.now.on.lat }
        ensures finds { IfOk result (FindsRoute self.now) }
        ensures size { search.new ≡ search.old }
    {
        let starts = self.starts(alloc)?;
        let goals = match self.goals(alloc) {
            Ok(goals) => goals,
            Err(error) => {
                drop(starts);
                return Err(error);
            }
        };
        let found = self.walk(alloc, search, &starts, &goals, flooded);
        drop((starts, goals));
        match found {
            Ok(Found::Closed(reach)) => Ok(Routed::Shut(reach)),
            Ok(Found::Walk(walk)) => match self.route_of(alloc, walk) {
                Ok(route) => Ok(Routed::Route(route)),
                Err(error) => Err(error),
            },
            Err(error) => Err(error),
        }
    }
}
