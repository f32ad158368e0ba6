//! The offer of a join by moves at 45 degrees.
//! It rests on the board as it is, is made by the closing pass, and takes nothing out.

ghost use Rattle.std.specs.Prelude.{IfOk};
ghost use Rattle.route_lattice.specs.Legal.{CanMove};
ghost use Rattle.wide_offer.specs.Leading.{LeadsFrom};
ghost use Rattle.wide_offer.specs.inner.Routes.{IsOfferOfRoute};

use crate::search::{Route, WideSearch};
use geo_kernel::List;
use pcb_board::{Board, CLOSER, Offer, boards_serve};
use pcb_islands::Island;
use route_lattice::Lattice;
use std::alloc::{AllocError, Global};

/// The offer that lays a route of a net on the board with so many entries.
fn offer_of(alloc: Global, base: u64, net: u32, route: Route) -> Offer
    ensures { IsOfferOfRoute base net route result }
{
    Offer {
        base,
        worker: CLOSER,
        net,
        from: route.from,
        to: route.to,
        penalty: None,
        add: route.metals,
        rip: List::new(alloc),
        shoves: List::new(alloc),
    }
}

/// The offer of a join of an island to one of the others by a least walk, whose moves are legal ones and moves at 45
/// degrees; None exactly where no such walk leads on. A via costs `via_cost` nm. `AllocError` comes only for want of
/// memory.
pub fn offer_from(
    alloc: Global,
    lat: &Lattice,
    board: &Board,
    via_cost: u64,
    island: &Island,
    others: &List<Island>,
) -> Result<Option<Offer>, AllocError>
    requires { CanMove board.now.design lat.now island.now.net via_cost }
    ensures { IfOk result (LeadsFrom lat.now via_cost board.now island.now others.now) }
{
    board.keeps();
    boards_serve();
    let snap = board.snap()?;
    let search = WideSearch {
        lat,
        d: snap.design(),
        copper: &snap,
        via_cost,
    };
    let found = search.route(alloc, island, others);
    let base = snap.number();
    drop(search);
    drop(snap);
    match found {
        Ok(Some(route)) => Ok(Some(offer_of(alloc, base, island.net, route))),
        Ok(None) => Ok(None),
        Err(error) => Err(error),
    }
}
