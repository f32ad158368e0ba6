//! The items that an offer makes: those that it adds, and the replacements of what it shoves.
//! The added items get the next ids, and behind them the replacements.

ghost use Rattle.std.specs.Prelude.{◌≡◌, ◌+◌, ◌<◌, ◌^◌, All, IfOk, length};
ghost use Rattle.pcb_model.specs.declared.design.Padstack.{Padstack as Stack};
ghost use Rattle.pcb_model.specs.Bounds.{IsFit, IsMetalFit};
ghost use Rattle.board_offers.specs.Items.{added_from, with_chain as chained, reshaped as reshaped_item};

use geo_kernel::{List, Point};
use pcb_model::{Design, Item, Metal, copy_metal, make_item};
use std::alloc::{AllocError, Global};

/// The items that an offer adds, with ids from `first` on.
pub(crate) fn added_items(
    alloc: Global,
    d: &Design,
    net: u32,
    first: u64,
    add: &[Metal],
) -> Result<Vec<Item>, AllocError>
    requires padstacks { All (λ (s : Stack). All IsFit s.pieces) d.now.padstacks }
    requires fit { All IsMetalFit add.now }
    requires room { first + length add.now < 2 ^ 64 }
    ensures { IfOk result (λ items. items.items ≡ added_from d.now net first add.now) }
{
    let mut items = Vec::new(alloc);
    let mut id = first;
    for m in add {
        let metal = copy_metal(alloc, m)?;
        let item = make_item(alloc, d, id, Some(net), false, metal)?;
        items.push(item)?;
        id += 1;
    }
    Ok(items)
}

fn with_chain(alloc: Global, points: &[Point], m: &Metal) -> Result<Metal, AllocError>
    ensures { IfOk result (λ n. n ≡ chained points.now m.now) }
{
    match m {
        Metal::Wire { layer, width, .. } => Ok(Metal::Wire {
            layer: *layer,
            width: *width,
            chain: List::from_slice(alloc, points)?,
        }),
        _ => copy_metal(alloc, m),
    }
}

/// An item with another chain and another id.
pub(crate) fn reshaped(
    alloc: Global,
    d: &Design,
    id: u64,
    points: &[Point],
    a: &Item,
) -> Result<Item, AllocError>
    requires padstacks { All (λ (s : Stack). All IsFit s.pieces) d.now.padstacks }
    requires fit { IsMetalFit (chained points.now a.now.metal) }
    ensures { IfOk result (λ b. b ≡ reshaped_item d.now id points.now a.now) }
{
    let metal = with_chain(alloc, points, &a.metal)?;
    make_item(alloc, d, id, a.net, false, metal)
}
