//! The copper of a design, in tiles and as a plain list, to which free wiring is added and from which it is taken.
//! Item `fixed + i` is the routed item that free wiring `i` makes, where `fixed` counts the fixed items.

ghost use Rattle.std.specs.Prelude.{◌≡◌, ◌++◌, ◌∷◌, [], ◌<◌, All, IfOk, IfSome, OnOk};
ghost use Rattle.pcb_model.specs.Bounds.{IsItemFit};
ghost use Rattle.pcb_model.specs.Sound.{IsSound, Serves};
ghost use Rattle.pcb_tiles.specs.Tiling.{IsArea};
ghost use Rattle.pcb_tiles.specs.Spread.{Gains, Loses, ServesSpread, holding};

use crate::board::routed;
use geo_kernel::Rect4;
use pcb_model::{Copper, Design, Item, PlainCopper, copy_item, greatest_clearance};
use pcb_tiles::Tiles;
use std::alloc::{AllocError, Global};

fn add_item(tiles: &mut Tiles, item: Item) -> Result<(), AllocError>
    requires above { All (λ b. b.id < item.id) tiles.old.items }
    requires fits { IsItemFit item }
    ensures { OnOk result (tiles.new ≡ holding tiles.old (tiles.old.items ++ item ∷ [])) }
{
    match tiles.add(item) {
        Ok(()) => Ok(()),
        Err((_, e)) => Err(e),
    }
}

/// The copper of a design's fixed items in tiles of an area, beyond which some of the board lies.
pub(crate) fn fixed_tiles(alloc: Global, d: &Design, area: Rect4) -> Result<Tiles, AllocError>
    requires sound { IsSound d.now }
    requires area { IsArea area }
    ensures { IfOk result (λ t. ServesSpread t d.now) }
{
    let mut tiles = Tiles::new(alloc, area, greatest_clearance(d))?;
    for item in d.fixed.as_slice() {
        let copy = copy_item(alloc, item)?;
        add_item(&mut tiles, copy)?;
    }
    Ok(tiles)
}

/// Adds the item that free wiring makes, where all ids that are held are below.
pub(crate) fn lay(alloc: Global, d: &Design, tiles: &mut Tiles, at: usize, id: u64) -> Option<()>
    requires sound { IsSound d.now }
    requires serves { ServesSpread tiles.old d.now }
    ensures { IfSome result (λ _. ServesSpread tiles.new d.now) }
{
    let item = routed(alloc, d, at, id)?;
    if tiles.next_item(id).is_some() {
        return None;
    }
    match add_item(tiles, item) {
        Ok(()) => Some(()),
        Err(_) => None,
    }
}

fn put_item(tiles: &mut Tiles, item: Item) -> Result<(), AllocError>
    requires absent { All (λ b. b.id ≡ item.id → ⊥) tiles.old.items }
    requires fits { IsItemFit item }
    ensures { OnOk result (Gains tiles.old item tiles.new) }
{
    match tiles.put_back(item) {
        Ok(()) => Ok(()),
        Err((_, e)) => Err(e),
    }
}

/// Puts the item that free wiring makes back.
pub(crate) fn put_back(
    alloc: Global,
    d: &Design,
    tiles: &mut Tiles,
    at: usize,
    id: u64,
) -> Option<()>
    requires sound { IsSound d.now }
    requires serves { ServesSpread tiles.old d.now }
    ensures { IfSome result (λ _. ServesSpread tiles.new d.now) }
{
    let item = routed(alloc, d, at, id)?;
    if tiles.item(id).is_some() {
        return None;
    }
    match put_item(tiles, item) {
        Ok(()) => Some(()),
        Err(_) => None,
    }
}

fn removed(tiles: &mut Tiles, id: u64) -> Option<Item>
    ensures { IfSome result (λ b. Loses tiles.old b tiles.new) }
{
    match tiles.remove(id) {
        Ok(held) => held,
        Err(_) => None,
    }
}

/// Takes a routed item out.
pub(crate) fn take_out(d: &Design, tiles: &mut Tiles, id: u64) -> Option<()>
    requires { ServesSpread tiles.old d.now }
    ensures { IfSome result (λ _. ServesSpread tiles.new d.now) }
{
    let b = removed(tiles, id)?;
    if b.fixed {
        return None;
    }
    Some(())
}

/// Adds an item to a plain list, behind all of it.
pub(crate) fn add_plain(copper: &mut PlainCopper, item: Item) -> Result<(), AllocError>
    requires above { All (λ b. b.id < item.id) copper.old }
    requires fits { IsItemFit item }
    ensures { OnOk result (copper.new ≡ copper.old ++ item ∷ []) }
{
    match copper.add(item) {
        Ok(()) => Ok(()),
        Err((_, e)) => Err(e),
    }
}

/// The copper of a design's fixed items, as a plain list.
pub(crate) fn fixed_list(alloc: Global, d: &Design) -> Result<PlainCopper, AllocError>
    requires { IsSound d.now }
    ensures { IfOk result (λ copper. copper ≡ d.now.fixed) }
{
    let mut copper = PlainCopper::new(alloc);
    for item in d.fixed.as_slice() {
        let copy = copy_item(alloc, item)?;
        add_plain(&mut copper, copy)?;
    }
    Ok(copper)
}

/// The same, which serves the design.
pub(crate) fn fixed_plain(alloc: Global, d: &Design) -> Result<PlainCopper, AllocError>
    requires { IsSound d.now }
    ensures { IfOk result (λ copper. Serves copper d.now) }
{
    let copper = fixed_list(alloc, d)?;
    Ok(copper)
}

/// Adds the item that free wiring makes to a plain list.
pub(crate) fn lay_plain(
    alloc: Global,
    d: &Design,
    copper: &mut PlainCopper,
    at: usize,
    id: u64,
) -> Option<()>
    requires sound { IsSound d.now }
    requires serves { Serves copper.old d.now }
    ensures { IfSome result (λ _. Serves copper.new d.now) }
{
    let item = routed(alloc, d, at, id)?;
    if copper.next_item(id).is_some() {
        return None;
    }
    match add_plain(copper, item) {
        Ok(()) => Some(()),
        Err(_) => None,
    }
}
