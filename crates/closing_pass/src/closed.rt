//! The closing pass over a board.
//! Where memory is wanting the board comes back with what was joined.

ghost use Rattle.std.specs.Prelude.{length, IfOk, IfErr};
ghost use Rattle.closing_pass.specs.Closing.{CanClose, HasClosed, IsClosedOut, AreEnds};
ghost use Rattle.closing_pass.specs.Settled.{AreSettled};

use crate::join::{Closer, SearchState};
use cut_certificate::Cut;
use geo_kernel::List;
use pcb_board::{Board, PassBack};
use route_lattice::Lattice;
use std::alloc::{AllocError, Global};
use wave_search::Search;

/// What the closing pass leaves: the board, the cuts of each net, of which a complete one has none, and how many joins
/// it made.
#[derive(Drop)]
pub struct Closed {
    pub board: Board,
    pub ends: List<List<Cut>>,
    pub joins: u64,
}

impl Closer<'_> {
    /// Joins what can be joined, by settled moves too, and tells how each net ends.
    fn close_board(&self, alloc: Global, board: &mut Board) -> Result<List<List<Cut>>, AllocError>
        requires { CanClose self.now.lat.now self.now.via_cost board.old.design }
        ensures closes { HasClosed self.now.lat.now self.now.via_cost board.old board.new }
        ensures ends { IfOk result (AreEnds board.new.design self.now.lat.now self.now.via_cost board.new.items
            (length board.new.design.nets)) }
        ensures settled { IfOk result (AreSettled self.now.lat.now self.now.via_cost self.now.tries board.new) }
    {
        board.keeps();
        let search = Search::new(alloc, self.lat.count())?;
        let mut state = SearchState {
            search,
            mapped: None,
        };
        let ends = self.settle(alloc, &mut state, board);
        drop(state);
        ends
    }
}

/// Joins islands by least legal walks, and by settled moves, as the worker of the closing pass, until each island of
/// each net that has several has a cut and no settled move of the first `tries` items that it names helps; a via costs
/// `via_cost` nm. Where memory is wanting the board comes back with what was joined.
pub fn close_out(
    alloc: Global,
    board: Board,
    lat: &Lattice,
    via_cost: u64,
    tries: u32,
) -> Result<Closed, PassBack>
    requires { CanClose lat.now via_cost board.design }
    ensures ok { IfOk result (IsClosedOut lat.now via_cost tries board) }
    ensures back { IfErr result (λ e. HasClosed lat.now via_cost board e.board) }
{
    let mut board = board;
    let before = board.history().len() as u64;
    let closer = Closer {
        lat,
        via_cost,
        tries,
    };
    match closer.close_board(alloc, &mut board) {
        Ok(ends) => {
            let joins = board.history().len() as u64 - before;
            Ok(Closed { board, ends, joins })
        }
        Err(cause) => Err(PassBack { board, cause }),
    }
}
