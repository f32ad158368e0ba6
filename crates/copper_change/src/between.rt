//! One walk over each of two states of copper, in order of id.
//! It takes memory for the copies of what the other state lacks, and for nothing else.

ghost use Rattle.std.specs.Prelude.{◌≡◌, [], ◌∷◌, ◌++◌, IfOk, OnOk};
ghost use Rattle.copper_change.specs.Changes.{alone, IsSince};

use geo_kernel::List;
use pcb_model::{Copper, Item, copy_item};
use std::alloc::{AllocError, Global};

/// What changed between an earlier and a later state of copper: the items that went and those that came, each list in
/// order of id.
#[derive(Drop)]
pub struct Since {
    pub gone: List<Item>,
    pub come: List<Item>,
}

// Appends a copy of the item where no item of the other copper has its id.
fn push_alone<B: Copper>(
    alloc: Global,
    item: &Item,
    other: &B,
    lone: &mut List<Item>,
) -> Result<(), AllocError>
    ensures { OnOk result (lone.new ≡ lone.old ++ alone (item.now ∷ []) (B.items other.now)) }
{
    match other.item(item.id) {
        Some(_) => Ok(()),
        None => {
            lone.push(copy_item(alloc, item)?)?;
            Ok(())
        }
    }
}

// Copies of the items whose ids no item of the other copper has.
fn lone_items<A: Copper, B: Copper>(
    alloc: Global,
    copper: &A,
    other: &B,
) -> Result<List<Item>, AllocError>
    ensures { IfOk result (λ lone. lone ≡ alone (A.items copper.now) (B.items other.now)) }
{
    copper.in_order();
    let mut lone = List::new(alloc);
    let mut from = 0;
    while let Some(item) = copper.next_item(from) {
        push_alone(alloc, item, other, &mut lone)?;
        let Some(next) = item.id.checked_add(1) else {
            return Ok(lone);
        };
        from = next;
    }
    Ok(lone)
}

/// What changed between two states of copper. `AllocError` comes only for want of memory.
pub fn changes_between<A: Copper, B: Copper>(
    alloc: Global,
    old: &A,
    new: &B,
) -> Result<Since, AllocError>
    ensures { IfOk result (λ s. IsSince (A.items old.now) (B.items new.now) s.gone s.come) }
{
    let gone = lone_items(alloc, old, new)?;
    let come = lone_items(alloc, new, old)?;
    Ok(Since { gone, come })
}
