//! What makes way for the metals of a net on some copper.
//! Where all that is in the way can be shoved, nothing is ripped.

ghost use Rattle.std.specs.Prelude.{All, IfOk};
ghost use Rattle.board_offers.specs.Items.{added_from};
ghost use Rattle.path_wire.specs.Lays.{IsWellLaid};
ghost use Rattle.route_plan.specs.inner.Ways.{MakesWayOn};

use crate::added::added_items;
use crate::fit::NewItems;
use crate::moved::shoves_of;
use board_offers::Shoved;
use geo_kernel::List;
use pcb_model::{Copper, Metal};
use ripup::to_rip;
use route_lattice::Ground;
use std::alloc::{AllocError, Global};

/// What makes way: the ids of items that are ripped, ascending, or wires that are shoved.
#[derive(Drop)]
pub(crate) struct Way {
    pub rip: List<u64>,
    pub shoves: List<Shoved>,
}

/// What makes way for the metals of a net: each routed item that disagrees with them is shoved to its first fit,
/// where all of these can be, and together, or else all are ripped. `AllocError` comes only for want of memory.
pub(crate) fn make_way<C: Copper>(
    alloc: Global,
    on: &Ground<'_, C>,
    net: u32,
    metals: &List<Metal>,
) -> Result<Way, AllocError>
    requires { All (IsWellLaid on.now.d net 0) metals.now }
    ensures { IfOk result (MakesWayOn on.now.d on.now.lat on.now.items (added_from on.now.d net 0 metals.now)) }
{
    on.keeps();
    let new = added_items(alloc, on, net, metals.as_slice())?;
    let ids = match to_rip(alloc, on.d, on.c, &new) {
        Ok(ids) => ids,
        Err(error) => {
            drop(new);
            return Err(error);
        }
    };
    let among = NewItems {
        lat: on.lat,
        d: on.d,
        copper: on.c,
        new: new.as_slice(),
    };
    let found = among.moved_items(alloc, ids.as_slice());
    drop(among);
    drop(new);
    match found {
        Ok(Some(moved)) => {
            drop(ids);
            let shoves = shoves_of(alloc, moved.as_slice());
            drop(moved);
            let shoves = shoves?;
            Ok(Way {
                rip: List::new(alloc),
                shoves,
            })
        }
        Ok(None) => Ok(Way {
            rip: ids,
            shoves: List::new(alloc),
        }),
        Err(error) => {
            drop(ids);
            Err(error)
        }
    }
}
