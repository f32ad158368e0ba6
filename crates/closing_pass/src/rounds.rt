//! Rounds of settled moves: each net in turn tells its cuts, and tries to help one of its islands.
//! The round in which nobody was helped is the last, so its cuts are of one board.

ghost use Rattle.std.specs.Prelude.{◌≡◌, ◌<◌, ℕ, false, IfOk, OnErr, OnOk, length};
ghost use Rattle.std.specs.Bool.{OnFalse, OnTrue};
ghost use Rattle.closing_pass.specs.Closing.{HasClosed, HaveCuts};
ghost use Rattle.closing_pass.specs.OpenCount.{FewerOpen};
ghost use Rattle.closing_pass.specs.inner.Steps.{AreReady, IsClosed};
ghost use Rattle.closing_pass.specs.inner.Tries.{AreShutOn};
ghost use Rattle.closing_pass.specs.inner.Rounds.{AreSettledEnds, GrowsFewer, HasCutsOf, HasHelped, HasRounded};
ghost use Rattle.closing_pass.specs.inner.Rounds.{HasTurned};

use crate::close::islands_on;
use crate::count::count_open;
use crate::ends::ClosedBoard;
use crate::join::{Closer, SearchState};
use cut_certificate::Cut;
use geo_kernel::List;
use pcb_board::{Board, boards_serve};
use pcb_islands::{Island, is_whole};
use std::alloc::{AllocError, Global};

impl Closer<'_> {
    /// The cuts of all islands of a net, from none of which a legal walk leads on.
    fn cuts_on(
        &self,
        alloc: Global,
        state: &mut SearchState,
        board: &Board,
        found: List<Island>,
    ) -> Result<List<Cut>, AllocError>
        requires ready { AreReady self.now.lat.now self.now.via_cost board.now state.old }
        requires shut { AreShutOn self.now.lat.now self.now.via_cost board.now found }
        ensures cuts { IfOk result
            (HaveCuts board.now.design self.now.lat.now self.now.via_cost board.now.items found) }
        ensures ready { AreReady self.now.lat.now self.now.via_cost board.now state.new }
    {
        board.keeps();
        boards_serve();
        let mapped = self.map_now(alloc, state, board)?;
        let on = ClosedBoard {
            lat: self.lat,
            d: mapped.snap.design(),
            snap: &mapped.snap,
            via_cost: self.via_cost,
            maps: &mapped.maps,
        };
        let cuts = on.cuts_of(alloc, found);
        drop(on);
        drop(state.mapped.replace(mapped));
        cuts
    }

    /// How a net ends that is closed: without cuts where it is complete, and else with those of its islands, one of
    /// which is helped if it can be.
    fn end_of(
        &self,
        alloc: Global,
        state: &mut SearchState,
        board: &mut Board,
        net: u32,
    ) -> Result<List<Cut>, AllocError>
        requires ready { AreReady self.now.lat.now self.now.via_cost board.old state.old }
        requires net { net < length board.old.design.nets }
        requires closed { IsClosed self.now.lat.now self.now.via_cost board.old net }
        ensures turned { IfOk result
            (HasTurned self.now.lat.now self.now.via_cost self.now.tries net board.old board.new) }
        ensures fewer { GrowsFewer board.old board.new }
        ensures closes { HasClosed self.now.lat.now self.now.via_cost board.old board.new }
        ensures ready { OnOk result (AreReady self.now.lat.now self.now.via_cost board.new state.new) }
    {
        board.keeps();
        let found = islands_on(alloc, board, net)?;
        if is_whole(&found) {
            drop(found);
            return Ok(List::new(alloc));
        }
        let cuts = self.cuts_on(alloc, state, board, found)?;
        match self.help(alloc, state, board, net, &cuts) {
            Ok(()) => Ok(cuts),
            Err(error) => {
                drop(cuts);
                Err(error)
            }
        }
    }

    /// A net's end. Where the board changed since all nets were closed, the net is closed again first.
    fn turn(
        &self,
        alloc: Global,
        state: &mut SearchState,
        board: &mut Board,
        net: u32,
        changed: bool,
    ) -> Result<List<Cut>, AllocError>
        requires ready { AreReady self.now.lat.now self.now.via_cost board.old state.old }
        requires net { net < length board.old.design.nets }
        requires closed { changed ≡ false → IsClosed self.now.lat.now self.now.via_cost board.old net }
        ensures turned { IfOk result
            (HasTurned self.now.lat.now self.now.via_cost self.now.tries net board.old board.new) }
        ensures fewer { changed ≡ false → GrowsFewer board.old board.new }
        ensures closes { HasClosed self.now.lat.now self.now.via_cost board.old board.new }
        ensures ready { OnOk result (AreReady self.now.lat.now self.now.via_cost board.new state.new) }
    {
        if !changed {
            return self.end_of(alloc, state, board, net);
        }
        board.keeps();
        self.close(alloc, state, board, net)?;
        board.keeps();
        self.end_of(alloc, state, board, net)
    }

    /// Helps an island of a net, if a settled move does.
    fn help(
        &self,
        alloc: Global,
        state: &mut SearchState,
        board: &mut Board,
        net: u32,
        cuts: &List<Cut>,
    ) -> Result<(), AllocError>
        requires ready { AreReady self.now.lat.now self.now.via_cost board.old state.old }
        requires net { net < length board.old.design.nets }
        requires cuts { HasCutsOf self.now.lat.now self.now.via_cost board.old net cuts.now }
        ensures helped { OnOk result
            (HasHelped self.now.lat.now self.now.via_cost self.now.tries net cuts.now board.old board.new) }
        ensures err { OnErr result (board.new ≡ board.old) }
        ensures ready { OnOk result (AreReady self.now.lat.now self.now.via_cost board.new state.new) }
    {
        board.keeps();
        let found = islands_on(alloc, board, net)?;
        if let Some(helped) = self.help_net(alloc, state, board, found, cuts)? {
            *board = helped;
        }
        Ok(())
    }

    /// How each net ends, and in each one help at most. Where the history is as long as before, no settled move helps.
    fn round(
        &self,
        alloc: Global,
        state: &mut SearchState,
        board: &mut Board,
    ) -> Result<List<List<Cut>>, AllocError>
        requires ready { AreReady self.now.lat.now self.now.via_cost board.old state.old }
        requires closed { (net : ℕ) → net < length board.old.design.nets
            → IsClosed self.now.lat.now self.now.via_cost board.old net }
        ensures rounded { IfOk result
            (HasRounded self.now.lat.now self.now.via_cost self.now.tries board.old board.new) }
        ensures fewer { GrowsFewer board.old board.new }
        ensures closes { HasClosed self.now.lat.now self.now.via_cost board.old board.new }
        ensures ready { OnOk result (AreReady self.now.lat.now self.now.via_cost board.new state.new) }
    {
        board.keeps();
        let before = board.history().len();
        let mut ends = List::new(alloc);
        for net in 0..board.design().nets.len() as u32 {
            board.keeps();
            let changed = board.history().len() != before;
            let cuts = self.turn(alloc, state, board, net, changed)?;
            ends.push(cuts)?;
        }
        Ok(ends)
    }

    /// Joins what can be joined, and makes a round.
    fn close_and_round(
        &self,
        alloc: Global,
        state: &mut SearchState,
        board: &mut Board,
    ) -> Result<(List<List<Cut>>, bool), AllocError>
        requires { AreReady self.now.lat.now self.now.via_cost board.old state.old }
        ensures settled { IfOk result (λ r. OnFalse r.1
            (AreSettledEnds self.now.lat.now self.now.via_cost self.now.tries board.new r.0)) }
        ensures fewer { IfOk result (λ r. OnTrue r.1 (FewerOpen board.old board.new)) }
        ensures closes { HasClosed self.now.lat.now self.now.via_cost board.old board.new }
        ensures ready { OnOk result (AreReady self.now.lat.now self.now.via_cost board.new state.new) }
    {
        board.keeps();
        self.close_all(alloc, state, board)?;
        board.keeps();
        let before = board.history().len();
        let ends = self.round(alloc, state, board)?;
        Ok((ends, board.history().len() != before))
    }

    /// Joins what can be joined, and makes rounds until nobody is helped: how each net ends then.
    pub(crate) fn settle(
        &self,
        alloc: Global,
        state: &mut SearchState,
        board: &mut Board,
    ) -> Result<List<List<Cut>>, AllocError>
        requires { AreReady self.now.lat.now self.now.via_cost board.old state.old }
        ensures settled { IfOk result
            (AreSettledEnds self.now.lat.now self.now.via_cost self.now.tries board.new) }
        ensures closes { HasClosed self.now.lat.now self.now.via_cost board.old board.new }
    {
        board.keeps();
        let mut open = count_open(alloc, board)?;
        let (mut ends, mut helped) = self.close_and_round(alloc, state, board)?;
        while helped {
            drop(ends);
            board.keeps();
            open = count_open(alloc, board)?;
            (ends, helped) = self.close_and_round(alloc, state, board)?;
        }
        Ok(ends)
    }
}
