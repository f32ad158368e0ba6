//! A planner: the plans and offers of one worker on one snapshot.
//! It goes by maps of the moves where they are given and the net has one, and else asks the copper.

ghost use Rattle.std.specs.Prelude.{◌≡◌, ◌≤◌, ◌<◌, ℕ, None, Some, IfOk, IfSome, length};
ghost use Rattle.route_lattice.specs.Mesh.{node_count};
ghost use Rattle.move_maps.specs.Maps.{AreMapsOf};
ghost use Rattle.pcb_board.specs.Boards.{BoardOf};
ghost use Rattle.board_offers.specs.declared.offer.TheConstants.{CLOSER};
ghost use Rattle.route_plan.specs.Planners.{CanSearch, CanAsk, AreMovesOf, planner_of};
ghost use Rattle.route_plan.specs.Plans.{IsSnapOf, CanPlan, Plans, PlansNet, LeadsOut, StatesOut, moves_of};

use crate::mapped::MappedSnap;
use crate::plans::{FromIsland, NetPlan, Planned};
use crate::rips::rips_of;
use geo_kernel::List;
use move_maps::MoveMaps;
use pcb_board::Snap;
use pcb_islands::Island;
use pcb_model::Design;
use ripup::RipMoves;
use route_lattice::{Lattice, LegalMoves, Moves};
use std::alloc::{AllocError, Global};
use std::marker::Model;
use wave_search::Search;

/// What a worker plans on: a lattice, a snapshot of a board, the price of a via in nm, and perhaps maps of the moves on
/// the snapshot's copper, and of those on the design's fixed items alone.
#[derive(Drop)]
pub struct Planner<'a> {
    lat: &'a Lattice,
    d: &'a Design,
    snap: &'a Snap,
    maps: Option<&'a MoveMaps>,
    fixed: Option<&'a MoveMaps>,
    via_cost: u64,
    worker: u32,
}

impl<'a> Model for Planner<'a> {
    ghost use Rattle.std.specs.Prelude.{◌≡◌, IfSome};
    ghost use Rattle.move_maps.specs.Maps.{AreMapsOf};
    ghost use Rattle.route_plan.specs.Planners.{PlannerOf, CanSearch, planner_of};

    ghost Value = { PlannerOf };

    ghost view = { λ s. planner_of s.lat.now s.snap.now s.via_cost s.worker };

    ghost invariant = { λ s. CanSearch s.lat.now s.snap.now s.via_cost s.worker × (s.snap.now.design ≡ s.d.now)
        × IfSome s.maps (λ f. AreMapsOf s.d.now s.lat.now s.snap.now.items f.now)
        × IfSome s.fixed (λ f. AreMapsOf s.d.now s.lat.now s.d.now.fixed f.now) };
}

impl<'a> Planner<'a> {
    /// The planner of a worker on a snapshot, which asks the copper.
    pub fn of(lat: &'a Lattice, snap: &'a Snap, via_cost: u64, worker: u32) -> Planner<'a>
        requires { CanSearch lat.now snap.now via_cost worker }
        ensures { result ≡ planner_of lat.now snap.now via_cost worker }
    {
        Planner {
            lat,
            d: snap.design(),
            snap,
            maps: None,
            fixed: None,
            via_cost,
            worker,
        }
    }

    /// The planner of a worker on a mapped snapshot; with a penalty it goes by maps only where `fixed`, those of the
    /// design's fixed items, are given too.
    pub fn by_maps(
        lat: &'a Lattice,
        mapped: &'a MappedSnap,
        fixed: Option<&'a MoveMaps>,
        via_cost: u64,
        worker: u32,
    ) -> Planner<'a>
        requires can { CanSearch lat.now mapped.now.snap via_cost worker }
        requires maps { AreMapsOf mapped.now.snap.design lat.now mapped.now.snap.items mapped.now.maps }
        requires fixed { IfSome fixed
            (λ f. AreMapsOf mapped.now.snap.design lat.now mapped.now.snap.design.fixed f.now) }
        ensures { result ≡ planner_of lat.now mapped.now.snap via_cost worker }
    {
        Planner {
            lat,
            d: mapped.snap.design(),
            snap: &mapped.snap,
            maps: Some(&mapped.maps),
            fixed,
            via_cost,
            worker,
        }
    }

    /// The plan of a net over moves that are given: the legal ones, or with a penalty those past routed items.
    pub fn over<M: Moves>(&'a self, moves: &'a M, net: u32, penalty: Option<u64>) -> NetPlan<'a, M>
        requires asks { CanAsk self.now net penalty }
        requires moves { AreMovesOf M.Moves moves.now
            (moves_of self.now.snap.design self.now.lat self.now.snap.items net self.now.via_cost penalty) }
        ensures { result ≡ record { by = self.now; net = net; penalty = penalty } }
    {
        NetPlan {
            lat: self.lat,
            d: self.d,
            snap: self.snap,
            moves,
            via_cost: self.via_cost,
            worker: self.worker,
            net,
            penalty,
        }
    }

    /// What the worker offers for a net by legal moves alone.
    fn legal(&self, alloc: Global, search: &mut Search, net: u32) -> Result<Planned, AllocError>
        requires net { net < length self.now.snap.design.nets }
        requires size { search.old ≡ node_count self.now.lat }
        ensures plan { IfOk result (PlansNet self.now net None) }
        ensures size { search.new ≡ search.old }
    {
        if let Some(maps) = self.maps {
            match maps.net_moves(alloc, self.lat, self.d, self.snap, net, self.via_cost) {
                Ok(Some(moves)) => {
                    let planned = self.over(&moves, net, None).plan(alloc, search);
                    drop(moves);
                    return planned;
                }
                Ok(None) => {}
                Err(error) => return Err(error),
            }
        }
        let moves = LegalMoves::of(self.lat, self.d, self.snap, net, self.via_cost);
        self.over(&moves, net, None).plan(alloc, search)
    }

    /// What the worker offers for a net by moves that pass routed items, each for `penalty` nm.
    fn passing(
        &self,
        alloc: Global,
        search: &mut Search,
        net: u32,
        penalty: u64,
    ) -> Result<Planned, AllocError>
        requires asks { CanAsk self.now net (Some penalty) }
        requires size { search.old ≡ node_count self.now.lat }
        ensures plan { IfOk result (PlansNet self.now net (Some penalty)) }
        ensures size { search.new ≡ search.old }
    {
        let rips = RipMoves::of(self.lat, self.d, self.snap, net, self.via_cost, penalty);
        if let (Some(maps), Some(fixed)) = (self.maps, self.fixed) {
            match rips_of(alloc, maps, fixed, &rips) {
                Ok(Some(moves)) => {
                    let planned = self.over(&moves, net, Some(penalty)).plan(alloc, search);
                    drop(moves);
                    return planned;
                }
                Ok(None) => {}
                Err(error) => return Err(error),
            }
        }
        self.over(&rips, net, Some(penalty)).plan(alloc, search)
    }

    /// What the worker offers for a net, with memory for searches: by legal moves, or with a penalty by moves that pass
    /// routed items. `AllocError` comes only for want of memory.
    pub fn plan(
        &self,
        alloc: Global,
        search: &mut Search,
        net: u32,
        penalty: Option<u64>,
    ) -> Result<Planned, AllocError>
        requires asks { CanAsk self.now net penalty }
        requires size { search.old ≡ node_count self.now.lat }
        ensures plan { IfOk result (PlansNet self.now net penalty) }
        ensures size { search.new ≡ search.old }
    {
        match penalty {
            None => self.legal(alloc, search, net),
            Some(p) => self.passing(alloc, search, net, p),
        }
    }

    /// Where an island of a net leads by legal moves alone, with memory for searches: a least offer to one of the
    /// others, or all that the moves reach. `AllocError` comes only for want of memory.
    pub fn offer_from(
        &self,
        alloc: Global,
        search: &mut Search,
        island: &Island,
        others: &List<Island>,
    ) -> Result<FromIsland, AllocError>
        requires net { island.now.net < length self.now.snap.design.nets }
        requires size { search.old ≡ node_count self.now.lat }
        ensures leads { IfOk result (LeadsOut self.now None island.now others.now) }
        ensures size { search.new ≡ search.old }
    {
        let net = island.net;
        if let Some(maps) = self.maps {
            match maps.net_moves(alloc, self.lat, self.d, self.snap, net, self.via_cost) {
                Ok(Some(moves)) => {
                    let led = self
                        .over(&moves, net, None)
                        .lead(alloc, search, island, others);
                    drop(moves);
                    return led;
                }
                Ok(None) => {}
                Err(error) => return Err(error),
            }
        }
        let moves = LegalMoves::of(self.lat, self.d, self.snap, net, self.via_cost);
        self.over(&moves, net, None)
            .lead(alloc, search, island, others)
    }

    /// Where an island of a net leads by the stated walk, with memory for searches: an offer that lays it to one of the
    /// others, or all that the moves reach. `AllocError` comes only for want of memory.
    pub fn stated_from(
        &self,
        alloc: Global,
        search: &mut Search,
        island: &Island,
        others: &List<Island>,
    ) -> Result<FromIsland, AllocError>
        requires net { island.now.net < length self.now.snap.design.nets }
        requires size { search.old ≡ node_count self.now.lat }
        ensures leads { IfOk result (StatesOut self.now island.now others.now) }
        ensures size { search.new ≡ search.old }
    {
        let net = island.net;
        if let Some(maps) = self.maps {
            match maps.net_moves(alloc, self.lat, self.d, self.snap, net, self.via_cost) {
                Ok(Some(moves)) => {
                    let led = self
                        .over(&moves, net, None)
                        .lead_stated(alloc, search, island, others);
                    drop(moves);
                    return led;
                }
                Ok(None) => {}
                Err(error) => return Err(error),
            }
        }
        let moves = LegalMoves::of(self.lat, self.d, self.snap, net, self.via_cost);
        self.over(&moves, net, None)
            .lead_stated(alloc, search, island, others)
    }
}

/// What a worker offers for a net on a snapshot of a board of the design: by legal moves alone, or where there is a
/// penalty, by moves that pass routed items. `AllocError` comes only for want of memory.
pub fn plan<'a>(
    alloc: Global,
    lat: &'a Lattice,
    d: &'a Design,
    snap: &'a Snap,
    via_cost: u64,
    worker: u32,
    net: u32,
    penalty: Option<u64>,
) -> Result<Planned, AllocError>
    requires can_plan { CanPlan d.now lat.now snap.now net via_cost penalty }
    requires worker { worker ≤ CLOSER }
    ensures { IfOk result (λ p. (b : BoardOf) → IsSnapOf snap.now b → Plans lat.now via_cost b worker net penalty p) }
{
    let mut search = Search::new(alloc, lat.count())?;
    let planner = Planner {
        lat,
        d,
        snap,
        maps: None,
        fixed: None,
        via_cost,
        worker,
    };
    planner.plan(alloc, &mut search, net, penalty)
}
