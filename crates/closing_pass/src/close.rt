//! The order of joins: each net in turn is joined from any of its islands, until none leads on.
//! A join takes one island away at least, so there is an end.

ghost use Rattle.std.specs.Prelude.{◌≡◌, ◌<◌, ◌≤◌, ℕ, Contains, IfOk, OnOk, OnErr, IsTrue, length};
ghost use Rattle.pcb_model.specs.declared.item.Item.{Item as OneItem};
ghost use Rattle.pcb_islands.specs.Islands.{AreIslands};
ghost use Rattle.closing_pass.specs.Closing.{Closes};
ghost use Rattle.closing_pass.specs.inner.Steps.{AreReady, HasIslands, TriesSome, HasFewer, JoinsNet, IsClosed};

use crate::join::{Closer, SearchState};
use geo_kernel::List;
use pcb_board::{Board, boards_serve};
use pcb_islands::{Island, islands, others_change_nothing};
use std::alloc::{AllocError, Global};

/// The islands of a net of a board.
pub(crate) fn islands_on(alloc: Global, board: &Board, net: u32) -> Result<List<Island>, AllocError>
    requires { net < length board.now.design.nets }
    ensures { IfOk result (AreIslands board.now.design board.now.items net) }
{
    board.keeps();
    boards_serve();
    let snap = board.snap()?;
    let found = islands(alloc, snap.design(), &snap, net);
    drop(snap);
    found
}

impl Closer<'_> {
    /// Joins some island of a net to another; false where none leads on.
    fn join_some(
        &self,
        alloc: Global,
        state: &mut SearchState,
        board: &mut Board,
        net: u32,
        found: List<Island>,
    ) -> Result<bool, AllocError>
        requires ready { AreReady self.now.lat.now self.now.via_cost board.old state.old }
        requires islands { HasIslands board.old.design board.old.items net found }
        ensures tries { IfOk result (TriesSome self.now.lat.now self.now.via_cost found board.old board.new) }
        ensures fewer { IfOk result (λ t. IsTrue t → HasFewer net board.new found) }
        ensures joins { OnOk result (JoinsNet self.now.lat.now self.now.via_cost net board.old board.new) }
        ensures err { OnErr result (board.new ≡ board.old) }
        ensures ready { AreReady self.now.lat.now self.now.via_cost board.new state.new }
    {
        let mut found = found;
        for place in 0..found.len() {
            let (same, joined) = self.join_at(alloc, state, board, net, found, place)?;
            if joined {
                return Ok(true);
            }
            found = same;
        }
        Ok(false)
    }

    /// Joins islands of a net until none of them leads on.
    pub(crate) fn close(
        &self,
        alloc: Global,
        state: &mut SearchState,
        board: &mut Board,
        net: u32,
    ) -> Result<(), AllocError>
        requires ready { AreReady self.now.lat.now self.now.via_cost board.old state.old }
        requires net { net < length board.old.design.nets }
        ensures closed { OnOk result (IsClosed self.now.lat.now self.now.via_cost board.new net) }
        ensures joins { JoinsNet self.now.lat.now self.now.via_cost net board.old board.new }
        ensures ready { AreReady self.now.lat.now self.now.via_cost board.new state.new }
    {
        let mut found = islands_on(alloc, board, net)?;
        while found.len() > 1 {
            if !self.join_some(alloc, state, board, net, found)? {
                return Ok(());
            }
            found = islands_on(alloc, board, net)?;
        }
        Ok(())
    }

    /// Closes the nets, in order.
    pub(crate) fn close_all(
        &self,
        alloc: Global,
        state: &mut SearchState,
        board: &mut Board,
    ) -> Result<(), AllocError>
        requires { AreReady self.now.lat.now self.now.via_cost board.old state.old }
        ensures closed { OnOk result ((net : ℕ) → net < length board.new.design.nets
            → IsClosed self.now.lat.now self.now.via_cost board.new net) }
        ensures closes { Closes self.now.lat.now self.now.via_cost board.old board.new }
        ensures stays { (x : OneItem) → Contains board.old.items x → Contains board.new.items x }
        ensures ready { AreReady self.now.lat.now self.now.via_cost board.new state.new }
    {
        others_change_nothing();
        boards_serve();
        board.keeps();
        for net in 0..board.design().nets.len() as u32 {
            self.close(alloc, state, board, net)?;
            board.keeps();
        }
        Ok(())
    }
}
