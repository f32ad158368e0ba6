//! The closing pass by rounds, with joins by moves at 45 degrees between them.

ghost use Rattle.std.specs.Prelude.{IfErr, IfOk};
ghost use Rattle.closing_pass.specs.Closing.{CanClose};
ghost use Rattle.wide_pass.specs.Rounds.{HasClosedWide, IsClosedWide};

use crate::join::WideCloser;
use crate::round::Round;
use closing_pass::Closed;
use geo_kernel::List;
use pcb_board::{Board, PassBack};
use route_lattice::Lattice;
use std::alloc::Global;

/// What rounds leave: what the last closing pass left, with the joins of all rounds counted, and for each cut how many
/// nodes the net's moves reach, those at 45 degrees among them.
#[derive(Drop)]
pub struct Wide {
    pub closed: Closed,
    pub wide: List<u64>,
}

/// Closes a board by rounds. Each is a closing pass, and then for each net whose islands moves at 45 degrees still join
/// one join by a least walk over them, as the worker of the closing pass; the round that makes no such join is the
/// last. A via costs `via_cost` nm, and settled moves of the first `tries` items that a cut names are tried. Where
/// memory is wanting the board comes back with what was joined.
pub fn close_wide(
    alloc: Global,
    board: Board,
    lat: &Lattice,
    via_cost: u64,
    tries: u32,
) -> Result<Wide, PassBack>
    requires { CanClose lat.now via_cost board.design }
    ensures ok { IfOk result (IsClosedWide lat.now via_cost tries board) }
    ensures back { IfErr result (λ e. HasClosedWide lat.now via_cost board e.board) }
{
    let before = board.history().len() as u64;
    let closer = WideCloser {
        lat,
        via_cost,
        tries,
    };
    match closer.rounds(alloc, board) {
        Ok(round) => {
            let joins = round.board.history().len() as u64 - before;
            let Round {
                board,
                ends,
                wide,
                led: _,
            } = round;
            let closed = Closed { board, ends, joins };
            Ok(Wide { closed, wide })
        }
        Err(back) => Err(back),
    }
}
