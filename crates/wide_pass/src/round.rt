//! A round: the closing pass, and then joins by moves at 45 degrees, where such moves lead on.
//! Where they don't from any island, nothing is laid, and the sizes of what they reach are told.

ghost use Rattle.std.specs.Prelude.{◌≡◌, ◌||◌, false, IfErr, IfOk, OnErr, length};
ghost use Rattle.closing_pass.specs.Closing.{AreEnds, CanClose};
ghost use Rattle.wide_pass.specs.Rounds.{HasClosedWide};
ghost use Rattle.wide_pass.specs.inner.Passes.{HasGrown, HasLooked, HasRounded, Turns, IsSnapTurn};

use crate::join::WideCloser;
use closing_pass::{Closed, close_out};
use cut_certificate::Cut;
use geo_kernel::List;
use pcb_board::{Board, PassBack, Snap, boards_serve};
use pcb_islands::others_change_nothing;
use std::alloc::{AllocError, Global};

/// What a round leaves: the board, the cuts that the closing pass told before joins by moves at 45 degrees, whether
/// such moves led on, and if not, how many nodes they reach for each cut.
#[derive(Drop)]
pub(crate) struct Round {
    pub board: Board,
    pub ends: List<List<Cut>>,
    pub wide: List<u64>,
    pub led: bool,
}

fn either(a: bool, b: bool) -> bool
    ensures { result ≡ (a || b) }
{
    a || b
}

impl WideCloser<'_> {
    /// A net's turn: whether moves at 45 degrees lead on from an island of it on the snapshot. Then one is joined, if
    /// they still do on the board.
    fn turn(
        &self,
        alloc: Global,
        snap: &Snap,
        board: &mut Board,
        net: u32,
        cuts: &List<Cut>,
        wide: &mut List<u64>,
    ) -> Result<bool, AllocError>
        requires { IsSnapTurn self.now.lat.now self.now.via_cost snap.now board.old net cuts.now }
        ensures turns { IfOk result (Turns self.now.lat.now self.now.via_cost snap.now net cuts.now board.old board.new
            wide.old wide.new) }
        ensures err { OnErr result (board.new ≡ board.old) }
    {
        if !self.leads_on(alloc, snap, net, cuts, wide)? {
            return Ok(false);
        }
        self.join_net(alloc, board, net)?;
        Ok(true)
    }

    /// The turns of all nets of a closed board: whether moves at 45 degrees led on from any, and if not, the sizes of
    /// what they reach.
    fn pass(
        &self,
        alloc: Global,
        board: &mut Board,
        ends: &List<List<Cut>>,
    ) -> Result<(List<u64>, bool), AllocError>
        requires can { CanClose self.now.lat.now self.now.via_cost board.old.design }
        requires ends { AreEnds board.old.design self.now.lat.now self.now.via_cost board.old.items
            (length board.old.design.nets) ends.now }
        ensures grown { HasGrown self.now.lat.now self.now.via_cost board.old board.new }
        ensures looked { IfOk result
            (λ r. HasLooked self.now.lat.now self.now.via_cost board.old board.new ends.now r.0 r.1) }
    {
        others_change_nothing();
        boards_serve();
        board.keeps();
        let snap = board.snap()?;
        let mut wide = List::new(alloc);
        let mut led = false;
        for net in 0..board.design().nets.len() as u32 {
            board.keeps();
            let cuts = &ends.as_slice()[net as usize];
            let here = self.turn(alloc, &snap, board, net, cuts, &mut wide)?;
            board.keeps();
            led = either(led, here);
        }
        Ok((wide, led))
    }

    /// The closing pass, and the turns of all nets.
    fn round(&self, alloc: Global, board: Board) -> Result<Round, PassBack>
        requires { CanClose self.now.lat.now self.now.via_cost board.design }
        ensures ok { IfOk result (HasRounded self.now.lat.now self.now.via_cost self.now.tries board) }
        ensures back { IfErr result (λ e. HasClosedWide self.now.lat.now self.now.via_cost board e.board) }
    {
        board.keeps();
        let closed = match close_out(alloc, board, self.lat, self.via_cost, self.tries) {
            Ok(closed) => closed,
            Err(back) => return Err(back),
        };
        let Closed {
            board,
            ends,
            joins: _,
        } = closed;
        let mut board = board;
        board.keeps();
        match self.pass(alloc, &mut board, &ends) {
            Ok((wide, led)) => {
                board.keeps();
                Ok(Round {
                    board,
                    ends,
                    wide,
                    led,
                })
            }
            Err(cause) => {
                drop(ends);
                Err(PassBack { board, cause })
            }
        }
    }

    /// The next round.
    fn again(&self, alloc: Global, round: Round) -> Result<Round, PassBack>
        requires { CanClose self.now.lat.now self.now.via_cost round.board.design }
        ensures ok { IfOk result (HasRounded self.now.lat.now self.now.via_cost self.now.tries round.board) }
        ensures back { IfErr result (λ e. HasClosedWide self.now.lat.now self.now.via_cost round.board e.board) }
    {
        let Round {
            board,
            ends,
            wide,
            led: _,
        } = round;
        drop((ends, wide));
        self.round(alloc, board)
    }

    /// Rounds until moves at 45 degrees lead on from no island.
    pub(crate) fn rounds(&self, alloc: Global, board: Board) -> Result<Round, PassBack>
        requires { CanClose self.now.lat.now self.now.via_cost board.design }
        ensures ok { IfOk result (λ r. HasRounded self.now.lat.now self.now.via_cost self.now.tries board r
            × (r.led ≡ false)) }
        ensures back { IfErr result (λ e. HasClosedWide self.now.lat.now self.now.via_cost board e.board) }
    {
        let mut round = match self.round(alloc, board) {
            Ok(round) => round,
            Err(back) => return Err(back),
        };
        while round.led {
            round = match self.again(alloc, round) {
                Ok(next) => next,
                Err(back) => return Err(back),
            };
        }
        Ok(round)
    }
}
