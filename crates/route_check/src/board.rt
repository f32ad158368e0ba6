//! The board of a session: the design's fixed items, and what is left of the session behind them.

ghost use Rattle.std.specs.Prelude.{◌≡◌, ◌++◌, ◌∷◌, [], length, All, IfOk, OnOk};
ghost use Rattle.pcb_model.specs.Sound.{IsSound};
ghost use Rattle.ses_reader.specs.Sound.{IsItemSound};
ghost use Rattle.route_check.specs.Board.{board_of, numbered};

use crate::left::items_left;
use geo_kernel::List;
use pcb_model::{Design, Item, copy_item, copy_metal, make_item};
use ses_reader::SesItem;
use std::alloc::{AllocError, Global};

fn copy_items(alloc: Global, items: &[Item]) -> Result<List<Item>, AllocError>
    ensures { IfOk result (λ copies. copies ≡ items.now) }
{
    let mut copies = List::new(alloc);
    for a in items {
        copies.push(copy_item(alloc, a)?)?;
    }
    Ok(copies)
}

// The item of the session becomes the last one.
fn push_item(
    alloc: Global,
    d: &Design,
    x: &SesItem,
    items: &mut List<Item>,
) -> Result<(), AllocError>
    requires sound { IsSound d.now }
    requires item { IsItemSound d.now x.now }
    ensures { OnOk result (items.new ≡ items.old ++ numbered d.now (length items.old) (x.now ∷ [])) }
{
    let id = items.len() as u64;
    let metal = copy_metal(alloc, &x.metal)?;
    items.push(make_item(alloc, d, id, Some(x.net), false, metal)?)?;
    Ok(())
}

// The items of the session become the last ones.
fn push_items(
    alloc: Global,
    d: &Design,
    xs: &[SesItem],
    items: &mut List<Item>,
) -> Result<(), AllocError>
    requires sound { IsSound d.now }
    requires items { All (IsItemSound d.now) xs.now }
    ensures { OnOk result (items.new ≡ items.old ++ numbered d.now (length items.old) xs.now) }
{
    for x in xs {
        push_item(alloc, d, x, items)?;
    }
    Ok(())
}

/// The items of the board of a session, in order of id.
pub fn board_items(alloc: Global, d: &Design, xs: &List<SesItem>) -> Result<List<Item>, AllocError>
    requires sound { IsSound d.now }
    requires items { All (IsItemSound d.now) xs.now }
    ensures { IfOk result (λ items. items ≡ board_of d.now xs.now) }
{
    let left = items_left(alloc, d, xs)?;
    let mut items = copy_items(alloc, d.fixed.as_slice())?;
    push_items(alloc, d, left.as_slice(), &mut items)?;
    Ok(items)
}
