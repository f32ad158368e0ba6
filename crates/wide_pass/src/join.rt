//! Joins by moves at 45 degrees: at most one for a net from which no legal walk leads on.

ghost use Rattle.std.specs.Prelude.{◌≡◌, ◌≤◌, ◌<◌, insert, IfOk, OnOk, OnErr, length};
ghost use Rattle.pcb_board.specs.Answers.{joined};
ghost use Rattle.pcb_islands.specs.Islands.{AreIslands};
ghost use Rattle.least_offer.specs.Least.{MayBeMade};
ghost use Rattle.board_offers.specs.declared.offer.TheConstants.{CLOSER};
ghost use Rattle.closing_pass.specs.Closing.{CanClose};
ghost use Rattle.closing_pass.specs.inner.Steps.{HasIslandAt, IsClosed};
ghost use Rattle.wide_pass.specs.inner.Joins.{Tries, TriesNet};

use geo_kernel::List;
use least_offer::wide_offers_may_be_made;
use pcb_board::{Board, Offer, boards_serve};
use pcb_islands::{Island, islands, islands_are_one};
use route_lattice::Lattice;
use std::alloc::{AllocError, Global};
use wide_offer::offer_from;

/// What a board is closed with: a lattice, the price of a via in nm, and of how many items that a cut names settled
/// moves are tried.
#[derive(Clone, Copy)]
pub(crate) struct WideCloser<'a> {
    pub lat: &'a Lattice,
    pub via_cost: u64,
    pub tries: u32,
}

/// Puts an island back among others, at its place.
pub(crate) fn put_back(
    others: List<Island>,
    place: usize,
    island: Island,
) -> Result<List<Island>, AllocError>
    requires { place ≤ length others }
    ensures { IfOk result (λ found. found ≡ insert others place island) }
{
    let mut found = others.into_vec();
    found.insert(place, island)?;
    Ok(List::from_vec(found))
}

/// The islands of a net of a board.
fn islands_on(alloc: Global, board: &Board, net: u32) -> Result<List<Island>, AllocError>
    requires { net < length board.now.design.nets }
    ensures { IfOk result (AreIslands board.now.design board.now.items net) }
{
    board.keeps();
    boards_serve();
    let snap = board.snap()?;
    let found = islands(alloc, snap.design(), &snap, net);
    drop(snap);
    found
}

/// Makes an offer of the closing pass that may be made, so what comes back is that it is committed.
fn take(board: &mut Board, offer: Offer) -> Result<(), AllocError>
    requires may { MayBeMade board.old offer }
    requires worker { offer.worker ≡ CLOSER }
    ensures ok { OnOk result (board.new ≡ joined board.old offer) }
    ensures err { OnErr result (board.new ≡ board.old) }
{
    match board.offer(offer) {
        Ok(_) => Ok(()),
        Err(back) => Err(back.cause),
    }
}

impl WideCloser<'_> {
    /// Joins the island at a place among those of its net to another by moves at 45 degrees; false where no such walk
    /// leads from it. The islands come back.
    fn join_at(
        &self,
        alloc: Global,
        board: &mut Board,
        net: u32,
        found: List<Island>,
        place: usize,
    ) -> Result<(List<Island>, bool), AllocError>
        requires can { CanClose self.now.lat.now self.now.via_cost board.old.design }
        requires closed { IsClosed self.now.lat.now self.now.via_cost board.old net }
        requires at { HasIslandAt board.old.design board.old.items net found place }
        ensures found { IfOk result (λ r. r.0 ≡ found) }
        ensures tries { IfOk result
            (λ r. Tries self.now.lat.now self.now.via_cost net found place board.old board.new r.1) }
        ensures err { OnErr result (board.new ≡ board.old) }
    {
        board.keeps();
        boards_serve();
        islands_are_one();
        wide_offers_may_be_made();
        let mut others = found;
        let island = others.remove(place);
        let led = match offer_from(alloc, self.lat, board, self.via_cost, &island, &others) {
            Ok(led) => led,
            Err(error) => {
                drop((others, island));
                return Err(error);
            }
        };
        let found = match put_back(others, place, island) {
            Ok(found) => found,
            Err(error) => {
                drop(led);
                return Err(error);
            }
        };
        match led {
            None => Ok((found, false)),
            Some(offer) => match take(board, offer) {
                Ok(()) => Ok((found, true)),
                Err(error) => {
                    drop(found);
                    Err(error)
                }
            },
        }
    }

    /// Joins the first island of a net that leads on by moves at 45 degrees; false where none does.
    pub(crate) fn join_net(
        &self,
        alloc: Global,
        board: &mut Board,
        net: u32,
    ) -> Result<bool, AllocError>
        requires can { CanClose self.now.lat.now self.now.via_cost board.old.design }
        requires closed { IsClosed self.now.lat.now self.now.via_cost board.old net }
        requires net { net < length board.old.design.nets }
        ensures tries { IfOk result (TriesNet self.now.lat.now self.now.via_cost net board.old board.new) }
        ensures err { OnErr result (board.new ≡ board.old) }
    {
        board.keeps();
        boards_serve();
        islands_are_one();
        let mut found = islands_on(alloc, board, net)?;
        for place in 0..found.len() {
            let (same, joined) = self.join_at(alloc, board, net, found, place)?;
            if joined {
                return Ok(true);
            }
            found = same;
        }
        Ok(false)
    }
}
