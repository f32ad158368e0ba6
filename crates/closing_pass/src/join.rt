//! Joins: an island of a net is joined to another one by an offer of a least legal walk.
//! Such an offer is planned on the board as it is, so it is always taken.

ghost use Rattle.std.specs.Prelude.{◌≡◌, ◌<◌, ◌≤◌, ◌^◌, ℕ, None, insert, not, IfOk, OnOk, OnErr, IsTrue, length};
ghost use Rattle.pcb_board.specs.Answers.{joined, snap_of};
ghost use Rattle.route_plan.specs.Mapped.{IsMapped};
ghost use Rattle.route_plan.specs.Plans.{IsOfferOf, StandsAt, LeadsFrom};
ghost use Rattle.closing_pass.specs.inner.Steps.{AreReady, HasIslandAt, Tries, HasFewer, JoinsNet};

use geo_kernel::List;
use move_maps::MoveMaps;
use pcb_board::{Board, CLOSER, Offer, boards_serve, ids_stay};
use pcb_islands::{Island, islands_are_one, joining_falls};
use route_lattice::Lattice;
use route_plan::{FromIsland, MappedSnap, Planner, map_snap};
use std::alloc::{AllocError, Global};
use wave_search::Search;

/// What a board is closed with: a lattice, the price of a via in nm, and of how many items that a cut names settled
/// moves are tried.
#[derive(Clone, Copy)]
pub(crate) struct Closer<'a> {
    pub lat: &'a Lattice,
    pub via_cost: u64,
    pub tries: u32,
}

/// What the searches of the pass share: their memory, and what was mapped last of the board.
#[derive(Drop)]
pub(crate) struct SearchState {
    pub search: Search,
    pub mapped: Option<MappedSnap>,
}

/// No maps. Beside references of two lifetimes the borrow checker finds none for a bare `None`.
pub(crate) fn no_maps(lat: &Lattice) -> Option<&MoveMaps>
    ensures { result ≡ None }
{
    let _lat = lat;
    None
}

/// Puts an island back among others, at its place.
pub(crate) fn put_back(
    others: List<Island>,
    place: usize,
    island: Island,
) -> Result<List<Island>, AllocError>
    requires { place ≤ length others }
    ensures { IfOk result (λ found. found ≡ insert others place island) }
{
    let mut found = others.into_vec();
    found.insert(place, island)?;
    Ok(List::from_vec(found))
}

impl Closer<'_> {
    /// Makes an offer of the closing pass that may be made, so what comes back is that it is committed.
    pub(crate) fn take(&self, board: &mut Board, offer: Offer) -> Result<(), AllocError>
        requires { IsOfferOf self.now.lat.now self.now.via_cost board.old CLOSER offer.net None offer }
        ensures ok { OnOk result (board.new ≡ joined board.old offer) }
        ensures err { OnErr result (board.new ≡ board.old) }
    {
        match board.offer(offer) {
            Ok(_) => Ok(()),
            Err(back) => Err(back.cause),
        }
    }

    /// The board as it is, with maps of the moves on it, by what was mapped of it before.
    pub(crate) fn map_now(
        &self,
        alloc: Global,
        state: &mut SearchState,
        board: &Board,
    ) -> Result<MappedSnap, AllocError>
        requires ready { AreReady self.now.lat.now self.now.via_cost board.now state.old }
        ensures mapped { IfOk result (IsMapped self.now.lat.now (snap_of board.now)) }
        ensures ready { AreReady self.now.lat.now self.now.via_cost board.now state.new }
    {
        board.keeps();
        boards_serve();
        ids_stay();
        let snap = board.snap()?;
        map_snap(alloc, self.lat, state.mapped.take(), snap)
    }

    /// Where an island leads on the board as it is. The search goes by maps, which are made for the first search and
    /// follow the board to each later one.
    fn led_at(
        &self,
        alloc: Global,
        state: &mut SearchState,
        board: &Board,
        island: &Island,
        others: &List<Island>,
    ) -> Result<FromIsland, AllocError>
        requires ready { AreReady self.now.lat.now self.now.via_cost board.now state.old }
        requires net { island.now.net < length board.now.design.nets }
        ensures leads { IfOk result (λ led. (place : ℕ)
            → StandsAt board.now.design board.now.items island.now.net place island.now others.now
            → LeadsFrom self.now.lat.now self.now.via_cost board.now CLOSER None island.now others.now led) }
        ensures ready { AreReady self.now.lat.now self.now.via_cost board.now state.new }
    {
        board.keeps();
        boards_serve();
        let lat = self.lat;
        let mapped = self.map_now(alloc, state, board)?;
        let planner = Planner::by_maps(lat, &mapped, no_maps(lat), self.via_cost, CLOSER);
        let led = planner.offer_from(alloc, &mut state.search, island, others);
        drop(planner);
        drop(state.mapped.replace(mapped));
        led
    }

    /// Joins the island at a place among those of its net to another; false where no legal walk leads from it.
    /// The islands come back.
    pub(crate) fn join_at(
        &self,
        alloc: Global,
        state: &mut SearchState,
        board: &mut Board,
        net: u32,
        found: List<Island>,
        place: usize,
    ) -> Result<(List<Island>, bool), AllocError>
        requires ready { AreReady self.now.lat.now self.now.via_cost board.old state.old }
        requires at { HasIslandAt board.old.design board.old.items net found place }
        ensures found { IfOk result (λ r. r.0 ≡ found) }
        ensures tries { IfOk result
            (λ r. Tries self.now.lat.now self.now.via_cost place found board.old board.new r.1) }
        ensures fewer { IfOk result (λ r. IsTrue r.1 → HasFewer net board.new found) }
        ensures joins { OnOk result (JoinsNet self.now.lat.now self.now.via_cost net board.old board.new) }
        ensures err { OnErr result (board.new ≡ board.old) }
        ensures ready { AreReady self.now.lat.now self.now.via_cost board.new state.new }
    {
        board.keeps();
        boards_serve();
        joining_falls();
        islands_are_one();
        let mut others = found;
        let island = others.remove(place);
        let led = match self.led_at(alloc, state, board, &island, &others) {
            Ok(led) => led,
            Err(error) => {
                drop((others, island));
                return Err(error);
            }
        };
        let found = match put_back(others, place, island) {
            Ok(found) => found,
            Err(error) => {
                drop(led);
                return Err(error);
            }
        };
        match led {
            FromIsland::Shut(reach) => {
                drop(reach);
                Ok((found, false))
            }
            FromIsland::Offer(offer) => match self.take(board, offer) {
                Ok(()) => Ok((found, true)),
                Err(error) => {
                    drop(found);
                    Err(error)
                }
            },
        }
    }
}
