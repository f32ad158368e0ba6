//! A trial of a settled move: an offer that takes an item out or moves it aside, and then joins of that item's net.
//! It is made on a copy of the board, which is the board from then on where the move helps.

ghost use Rattle.std.specs.Prelude.{◌≡◌, ◌<◌, ◌≤◌, ◌^◌, ℕ, IfOk, IsTrue, OnErr, OnOk, None, length};
ghost use Rattle.pcb_board.specs.Keeping.{Grows};
ghost use Rattle.route_plan.specs.Plans.{StandsAt, StatesFrom};
ghost use Rattle.closing_pass.specs.inner.Steps.{AreReady, HasFewer, HasIslandAt};
ghost use Rattle.closing_pass.specs.Closing.{Closes};
ghost use Rattle.closing_pass.specs.inner.Trials.{IsTrial, JoinsFirstOf, Rejoined, Retried, TriesOffer, after_trial};

use crate::close::islands_on;
use crate::join::{Closer, SearchState, no_maps};
use geo_kernel::List;
use pcb_board::{Answer, Board, CLOSER, Offer, boards_serve, ids_stay};
use pcb_islands::{Island, islands_are_one, joining_falls};
use route_plan::{FromIsland, Planner, map_snap};
use std::alloc::{AllocError, Global};

impl Closer<'_> {
    /// Where an island leads by the stated walk on the board as it is.
    fn stated_at(
        &self,
        alloc: Global,
        state: &mut SearchState,
        board: &Board,
        island: &Island,
        others: &List<Island>,
    ) -> Result<FromIsland, AllocError>
        requires ready { AreReady self.now.lat.now self.now.via_cost board.now state.old }
        requires net { island.now.net < length board.now.design.nets }
        ensures leads { IfOk result (λ led. (place : ℕ)
            → StandsAt board.now.design board.now.items island.now.net place island.now others.now
            → StatesFrom self.now.lat.now self.now.via_cost board.now CLOSER island.now others.now led) }
        ensures ready { AreReady self.now.lat.now self.now.via_cost board.now state.new }
    {
        board.keeps();
        boards_serve();
        let lat = self.lat;
        let mapped = self.map_now(alloc, state, board)?;
        let planner = Planner::by_maps(lat, &mapped, no_maps(lat), self.via_cost, CLOSER);
        let led = planner.stated_from(alloc, &mut state.search, island, others);
        drop(planner);
        drop(state.mapped.replace(mapped));
        led
    }

    /// Joins the first island of a net to another by the stated walk; false where none leads on.
    fn join_first(
        &self,
        alloc: Global,
        state: &mut SearchState,
        board: &mut Board,
        net: u32,
        found: List<Island>,
    ) -> Result<bool, AllocError>
        requires ready { AreReady self.now.lat.now self.now.via_cost board.old state.old }
        requires islands { HasIslandAt board.old.design board.old.items net found 0 }
        ensures joins { IfOk result (JoinsFirstOf self.now.lat.now self.now.via_cost net board.old board.new) }
        ensures fewer { IfOk result (λ t. IsTrue t → HasFewer net board.new found) }
        ensures ready { AreReady self.now.lat.now self.now.via_cost board.new state.new }
    {
        board.keeps();
        boards_serve();
        joining_falls();
        islands_are_one();
        let mut others = found;
        let island = others.remove(0);
        let led = match self.stated_at(alloc, state, board, &island, &others) {
            Ok(led) => led,
            Err(error) => {
                drop((others, island));
                return Err(error);
            }
        };
        drop((others, island));
        match led {
            FromIsland::Shut(reach) => {
                drop(reach);
                Ok(false)
            }
            FromIsland::Offer(offer) => match self.take(board, offer) {
                Ok(()) => Ok(true),
                Err(error) => Err(error),
            },
        }
    }

    /// Joins islands of a net by stated walks until there are at most `most` of them; false where none leads on before.
    fn rejoin(
        &self,
        alloc: Global,
        state: &mut SearchState,
        board: &mut Board,
        net: u32,
        most: usize,
    ) -> Result<bool, AllocError>
        requires ready { AreReady self.now.lat.now self.now.via_cost board.old state.old }
        requires net { net < length board.old.design.nets }
        ensures rejoined { IfOk result
            (Rejoined self.now.lat.now self.now.via_cost net most board.old board.new) }
        ensures ready { AreReady self.now.lat.now self.now.via_cost board.new state.new }
    {
        boards_serve();
        islands_are_one();
        let mut found = islands_on(alloc, board, net)?;
        while found.len() > most {
            board.keeps();
            if !self.join_first(alloc, state, board, net, found)? {
                return Ok(false);
            }
            found = islands_on(alloc, board, net)?;
        }
        Ok(true)
    }

    /// Lets the maps follow from a copy that was tried back to the board.
    fn map_back(
        &self,
        alloc: Global,
        state: &mut SearchState,
        board: &Board,
        copy: &Board,
    ) -> Result<(), AllocError>
        requires ready { AreReady self.now.lat.now self.now.via_cost copy.now state.old }
        requires grows { Grows board.now copy.now }
        ensures ready { AreReady self.now.lat.now self.now.via_cost board.now state.new }
    {
        board.keeps();
        copy.keeps();
        boards_serve();
        ids_stay();
        let last = state.mapped.take();
        if last.is_none() {
            return Ok(());
        }
        let snap = board.snap()?;
        let mapped = map_snap(alloc, self.lat, last, snap)?;
        drop(state.mapped.replace(mapped));
        Ok(())
    }

    /// Joins a net again on a copy of a board that was grown: the copy, or None where the net stays with more islands
    /// than `most`, and then the maps are the board's again.
    fn retry(
        &self,
        alloc: Global,
        state: &mut SearchState,
        board: &Board,
        copy: Board,
        net: u32,
        most: usize,
    ) -> Result<Option<Board>, AllocError>
        requires ready { AreReady self.now.lat.now self.now.via_cost copy state.old }
        requires closes { Closes self.now.lat.now self.now.via_cost board.now copy }
        requires net { net < length copy.design.nets }
        ensures tries { IfOk result (Retried self.now.lat.now self.now.via_cost net most copy) }
        ensures ready { IfOk result (λ o. AreReady self.now.lat.now self.now.via_cost
            (after_trial board.now o) state.new) }
    {
        let mut copy = copy;
        match self.rejoin(alloc, state, &mut copy, net, most) {
            Ok(true) => Ok(Some(copy)),
            Ok(false) => {
                let back = self.map_back(alloc, state, board, &copy);
                drop(copy);
                match back {
                    Ok(()) => Ok(None),
                    Err(error) => Err(error),
                }
            }
            Err(error) => {
                drop(copy);
                Err(error)
            }
        }
    }

    /// The board with an offer that makes way past an item of `net`, and with that net joined again; None where the
    /// offer isn't well formed, or where the net stays with more islands than before.
    pub(crate) fn trial(
        &self,
        alloc: Global,
        state: &mut SearchState,
        board: &Board,
        offer: Offer,
        net: u32,
    ) -> Result<Option<Board>, AllocError>
        requires ready { AreReady self.now.lat.now self.now.via_cost board.now state.old }
        requires trial { IsTrial self.now.lat.now self.now.via_cost board.now offer net }
        ensures tries { IfOk result (TriesOffer self.now.lat.now self.now.via_cost board.now offer net) }
        ensures ready { IfOk result (λ o. AreReady self.now.lat.now self.now.via_cost
            (after_trial board.now o) state.new) }
    {
        board.keeps();
        boards_serve();
        islands_are_one();
        let most = islands_on(alloc, board, net)?.len();
        let mut copy = board.copy()?;
        match copy.offer(offer) {
            Ok(answer) => match answer {
                Answer::Committed { number: _ } => {
                    self.retry(alloc, state, board, copy, net, most)
                }
                _ => {
                    drop(copy);
                    Ok(None)
                }
            },
            Err(back) => {
                drop(copy);
                Err(back.cause)
            }
        }
    }
}
