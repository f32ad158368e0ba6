//! Items moved to their first fits, as far as these stand together.
//! A list of ids has at most one list of shoves, so where these don't stand together, no others do.

ghost use Rattle.std.specs.Prelude.{◌≡◌, ◌↔◌, All, IfOk, IsTrue, map};
ghost use Rattle.pcb_model.specs.declared.item.Item.{Item as OneItem};
ghost use Rattle.least_offer.specs.Together.{StandsWith};
ghost use Rattle.route_plan.specs.inner.Ways.{shove_of as the_shove, IsReshaped, MovesAll};

use crate::fit::NewItems;
use board_offers::Shoved;
use geo_kernel::List;
use least_offer::shoves_are_one;
use pcb_model::{Copper, Item, Metal, agree, are_touching};
use route_lattice::Ground;
use std::alloc::{AllocError, Global};

/// Whether two moved wires agree, and touch if the wires touched where they were.
fn stands_with<C: Copper>(on: &Ground<'_, C>, a: &Item, b: &Item) -> bool
    requires a_moved { IsReshaped on.now.d on.now.items a.now }
    requires b_moved { IsReshaped on.now.d on.now.items b.now }
    ensures { IsTrue result ↔ StandsWith on.now.d on.now.items (the_shove a.now) (the_shove b.now) }
{
    on.keeps();
    on.in_order();
    let Some(a_was) = on.item(a.id) else {
        unreachable!();
    };
    let Some(b_was) = on.item(b.id) else {
        unreachable!();
    };
    if !agree(on.d, a, b) {
        return false;
    }
    if !are_touching(a_was, b_was) {
        return true;
    }
    are_touching(a, b)
}

/// Whether each of the moved wires stands with another one.
fn all_stand_with<C: Copper>(on: &Ground<'_, C>, moved: &[Item], item: &Item) -> bool
    requires moved { All (IsReshaped on.now.d on.now.items) moved.now }
    requires item_moved { IsReshaped on.now.d on.now.items item.now }
    ensures { IsTrue result
        ↔ All (λ (a : OneItem). StandsWith on.now.d on.now.items (the_shove a) (the_shove item.now)) moved.now }
{
    for a in moved {
        if !stands_with(on, a, item) {
            return false;
        }
    }
    true
}

impl<C: Copper> NewItems<'_, C> {
    /// Each of the items with these ids moved to its first fit.
    /// None where one has no fit, or two of them don't stand together.
    pub(crate) fn moved_items(
        &self,
        alloc: Global,
        ids: &[u64],
    ) -> Result<Option<List<Item>>, AllocError>
        ensures { IfOk result (MovesAll self.now.on.d self.now.on.lat self.now.on.items self.now.new ids.now) }
    {
        let on = Ground {
            lat: self.lat,
            d: self.d,
            c: self.copper,
        };
        on.in_order();
        shoves_are_one();
        let mut moved: List<Item> = List::new(alloc);
        for id in ids {
            let Some(item) = on.item(*id) else {
                drop(moved);
                return Ok(None);
            };
            let fitting = match self.first_fit(alloc, item) {
                Ok(Some(fitting)) => fitting,
                Ok(None) => {
                    drop(moved);
                    return Ok(None);
                }
                Err(error) => {
                    drop(moved);
                    return Err(error);
                }
            };
            if !all_stand_with(&on, moved.as_slice(), &fitting) {
                drop((fitting, moved));
                return Ok(None);
            }
            if let Err(error) = moved.push(fitting) {
                drop(moved);
                return Err(error.into());
            }
        }
        Ok(Some(moved))
    }
}

/// The shove that a moved wire stands for.
fn shove_of(alloc: Global, item: &Item) -> Result<Shoved, AllocError>
    ensures { IfOk result (λ s. s ≡ the_shove item.now) }
{
    let chain = match &item.metal {
        Metal::Wire { chain, .. } => List::from_slice(alloc, chain.as_slice())?,
        _ => List::new(alloc),
    };
    Ok(Shoved { id: item.id, chain })
}

/// The shoves that moved wires stand for, in order.
pub(crate) fn shoves_of(alloc: Global, moved: &[Item]) -> Result<List<Shoved>, AllocError>
    ensures { IfOk result (λ shoves. shoves ≡ map the_shove moved.now) }
{
    let mut shoves = List::new(alloc);
    for item in moved {
        shoves.push(shove_of(alloc, item)?)?;
    }
    Ok(shoves)
}
