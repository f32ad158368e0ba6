//! Changes of the parts of tiles: the items and their entries.
//! Each requires that the tiles hold the entries of the items.

ghost use Rattle.std.specs.Prelude.{◌≡◌, All, IfOk};
ghost use Rattle.pcb_model.specs.Bounds.{IsItemFit};
ghost use Rattle.pcb_tiles.specs.Kept.{IsSpread};
ghost use Rattle.pcb_tiles.specs.Tiling.{IsArea, own_block};
ghost use Rattle.pcb_tiles.specs.Cells.{with_item, without_item, grid_of};
ghost use Rattle.pcb_tiles.specs.Shelves.{flat};

use crate::block::{Block, block_around};
use crate::cells::{Change, Entry, Grid, change_grid};
use crate::shelf::{Shelf, put, take};
use geo_kernel::Rect4;
use pcb_model::{Extent, Item, copy_item};
use shared_value::Shared;
use std::alloc::{AllocError, Global};

// The tiles in which an item has an entry.
fn own_block_of(area: Rect4, a: &Item) -> Block
    requires area { IsArea area }
    requires a_fits { IsItemFit a.now }
    ensures { result ≡ own_block area a.now }
{
    let e = Extent::of_item(a);
    block_around(area, e.bounds, (e.width + 1) / 2)
}

/// The tiles with one more item.
pub(crate) fn grid_with(
    alloc: Global,
    area: Rect4,
    reach: u64,
    shelf: &Shelf,
    grid: &Grid,
    a: &Shared<Item>,
) -> Result<Grid, AllocError>
    requires spread { IsSpread area reach shelf.now grid.now }
    requires absent { All (λ b. b.id ≡ a.now.id → ⊥) (flat shelf.now) }
    requires fits { IsItemFit a.now }
    ensures { IfOk result (λ g. g ≡ grid_of area (with_item a.now (flat shelf.now))) }
{
    let _ = shelf;
    let _ = reach;
    let b = own_block_of(area, a.get());
    let e = Entry::of_item(a)?;
    change_grid(alloc, &Change::Put(e), &b, grid)
}

// The items and the tiles with one more item.
fn with_held(
    alloc: Global,
    area: Rect4,
    reach: u64,
    shelf: &Shelf,
    grid: &Grid,
    held: &Shared<Item>,
) -> Result<(Shelf, Grid), AllocError>
    requires spread { IsSpread area reach shelf.now grid.now }
    requires absent { All (λ b. b.id ≡ held.now.id → ⊥) (flat shelf.now) }
    requires fits { IsItemFit held.now }
    ensures items { IfOk result (λ p. flat p.0 ≡ with_item held.now (flat shelf.now)) }
    ensures spread { IfOk result (λ p. IsSpread area reach p.0 p.1) }
{
    let _id = held.get().id;
    let after = grid_with(alloc, area, reach, shelf, grid, held)?;
    let list = put(alloc, held, shelf.get().as_slice())?;
    let kept = Shared::new(alloc, list)?;
    Ok((kept, after))
}

/// The items and the tiles with one more item, of which a copy is kept.
pub(crate) fn with_more(
    alloc: Global,
    area: Rect4,
    reach: u64,
    shelf: &Shelf,
    grid: &Grid,
    a: &Item,
) -> Result<(Shelf, Grid), AllocError>
    requires spread { IsSpread area reach shelf.now grid.now }
    requires absent { All (λ b. b.id ≡ a.now.id → ⊥) (flat shelf.now) }
    requires fits { IsItemFit a.now }
    ensures items { IfOk result (λ p. flat p.0 ≡ with_item a.now (flat shelf.now)) }
    ensures spread { IfOk result (λ p. IsSpread area reach p.0 p.1) }
{
    let held = Shared::new(alloc, copy_item(alloc, a)?)?;
    with_held(alloc, area, reach, shelf, grid, &held)
}

/// The items and the tiles without an item that is held.
pub(crate) fn with_less(
    alloc: Global,
    area: Rect4,
    reach: u64,
    shelf: &Shelf,
    grid: &Grid,
    a: &Item,
) -> Result<(Shelf, Grid), AllocError>
    requires spread { IsSpread area reach shelf.now grid.now }
    requires only { All (λ b. b.id ≡ a.now.id → b ≡ a.now) (flat shelf.now) }
    requires fits { IsItemFit a.now }
    ensures items { IfOk result (λ p. flat p.0 ≡ without_item a.now.id (flat shelf.now)) }
    ensures spread { IfOk result (λ p. IsSpread area reach p.0 p.1) }
{
    let _ = reach;
    let b = own_block_of(area, a);
    let after = change_grid(alloc, &Change::Drop(a.id), &b, grid)?;
    let list = take(alloc, a.id, shelf.get().as_slice())?;
    let kept = Shared::new(alloc, list)?;
    Ok((kept, after))
}
