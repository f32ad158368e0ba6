//! The replacements of shoved wires, as far as the wires may be shoved.
//! A replacement is a wire of the same net, layer and width with another chain and another id.

ghost use Rattle.std.specs.Prelude.{◌≡◌, ◌↔◌, ◌+◌, ◌<◌, ◌≤◌, ◌^◌, All, IfOk, IsTrue, MatchOption, length, slice_get};
ghost use Rattle.std.specs.Option.{IsSomeAnd};
ghost use Rattle.geo_kernel.specs.Plane.{IsWithin};
ghost use Rattle.pcb_model.specs.Bounds.{IsItemFit};
ghost use Rattle.pcb_model.specs.Sound.{IsSound};
ghost use Rattle.board_offers.specs.declared.offer.Shoved.{Shoved as OneShove};
ghost use Rattle.board_offers.specs.Items.{item_at, replaced_from, reshaped as reshaped_item};
ghost use Rattle.board_offers.specs.Offers.{IsWire};
ghost use Rattle.board_offers.specs.Given.{AreGiven};
ghost use Rattle.board_offers.specs.inner.Adding.{IsInTheWayOf, IsShovableOf, MayShove};

use crate::clauses::{given_item, is_in_the_way};
use crate::make::reshaped;
use crate::near::are_near;
use crate::offer::Shoved;
use pcb_model::{Design, Item, Metal, inside_board};
use std::alloc::{AllocError, Global};

fn is_wire(m: &Metal) -> bool
    ensures { IsTrue result ↔ IsWire m.now }
{
    match m {
        Metal::Wire { .. } => true,
        _ => false,
    }
}

// Whether the item is a wire in the way of the added ones, and the shove's chain has two points and is near.
fn has_chain_for(d: &Design, net: u32, added: &[Item], s: &Shoved, a: &Item) -> bool
    requires sound { IsSound d.now }
    requires fit { All IsItemFit added.now }
    requires a_fits { IsItemFit a.now }
    ensures { IsTrue result ↔
        (IsInTheWayOf d.now net added.now a.now × IsWire a.now.metal
        × (2 ≤ length s.now.chain) × All (IsWithin (2 ^ 29)) s.now.chain) }
{
    if !is_in_the_way(d, net, added, a) {
        return false;
    }
    if !is_wire(&a.metal) {
        return false;
    }
    if s.chain.len() < 2 {
        return false;
    }
    are_near(s.chain.as_slice())
}

// The replacement of a shoved wire, or None where it may not be shoved so.
fn replacement(
    alloc: Global,
    d: &Design,
    given: &[Item],
    net: u32,
    added: &[Item],
    id: u64,
    s: &Shoved,
) -> Result<Option<Item>, AllocError>
    requires sound { IsSound d.now }
    requires given { AreGiven d.now given.now }
    requires fit { All IsItemFit added.now }
    ensures { IfOk result (λ r. MatchOption r (¬ (MayShove d.now given.now net added.now s.now)) (λ a.
        MayShove d.now given.now net added.now s.now
        × (a ≡ reshaped_item d.now id s.now.chain (item_at given.now s.now.id)))) }
{
    let Some(old) = given_item(given, s.id) else {
        return Ok(None);
    };
    if !has_chain_for(d, net, added, s, old) {
        return Ok(None);
    }
    let item = reshaped(alloc, d, id, s.chain.as_slice(), old)?;
    if inside_board(d, &item) {
        Ok(Some(item))
    } else {
        Ok(None)
    }
}

/// The replacements of shoved wires, with ids from `first` on, or None where one of them may not be shoved so.
pub(crate) fn replacements(
    alloc: Global,
    d: &Design,
    given: &[Item],
    net: u32,
    added: &[Item],
    first: u64,
    shoves: &[Shoved],
) -> Result<Option<Vec<Item>>, AllocError>
    requires sound { IsSound d.now }
    requires given { AreGiven d.now given.now }
    requires fit { All IsItemFit added.now }
    requires room { first + length shoves.now < 2 ^ 64 }
    ensures { IfOk result (λ r. MatchOption r (¬ (All (MayShove d.now given.now net added.now) shoves.now)) (λ items.
        All (MayShove d.now given.now net added.now) shoves.now
        × (items.items ≡ replaced_from d.now given.now first shoves.now))) }
{
    let mut items = Vec::new(alloc);
    let mut id = first;
    for s in shoves {
        let Some(item) = replacement(alloc, d, given, net, added, id, s)? else {
            return Ok(None);
        };
        items.push(item)?;
        id += 1;
    }
    Ok(Some(items))
}
