//! The copper that is drawn: a design's fixed items, and wires and vias behind them, legal or not.
//! Each item has its place as id.

ghost use Rattle.std.specs.Prelude.{◌≡◌, ◌<◌, ◌∷◌, [], ◌++◌, All, IfOk, OnOk};
ghost use Rattle.pcb_model.specs.declared.item.Item.{Item as OneItem};
ghost use Rattle.pcb_model.specs.Bounds.{IsItemFit};
ghost use Rattle.pcb_model.specs.Sound.{IsSound, IsFreeSound, Serves};
ghost use Rattle.pcb_board.specs.Boards.{free_item};
ghost use Rattle.picture_call.specs.Drawing.{laid_on, IsPictureOf};
ghost use Rattle.picture_call.specs.inner.Growing.{IsGrown};

use board_picture::{open_lines, picture_text};
use geo_kernel::List;
use pcb_model::{Design, FreeWire, Item, PlainCopper, copy_item, copy_metal, make_item};
use std::alloc::{AllocError, Global};

fn add_item(copper: &mut PlainCopper, item: Item) -> Result<(), AllocError>
    requires above { All (λ (b : OneItem). b.id < item.id) copper.old }
    requires fits { IsItemFit item }
    ensures { OnOk result (copper.new ≡ copper.old ++ item ∷ []) }
{
    match copper.add(item) {
        Ok(()) => Ok(()),
        Err((_, cause)) => Err(cause),
    }
}

// The design's fixed items.
fn fixed_copper(alloc: Global, d: &Design) -> Result<PlainCopper, AllocError>
    requires { IsSound d.now }
    ensures { IfOk result (λ c. c ≡ d.now.fixed) }
{
    let mut copper = PlainCopper::new(alloc);
    for item in d.fixed.as_slice() {
        let copy = copy_item(alloc, item)?;
        add_item(&mut copper, copy)?;
    }
    Ok(copper)
}

// Lays one wire or via.
fn lay_wire(
    alloc: Global,
    d: &Design,
    copper: &mut PlainCopper,
    w: &FreeWire,
) -> Result<(), AllocError>
    requires sound { IsSound d.now }
    requires wire { IsFreeSound d.now w.now }
    requires grown { IsGrown d.now copper.old }
    ensures laid { OnOk result (copper.new ≡ copper.old ++ free_item d.now copper.old w.now ∷ []) }
    ensures grown { OnOk result (IsGrown d.now copper.new) }
{
    let id = copper.items().len() as u64;
    let metal = copy_metal(alloc, &w.metal)?;
    let item = make_item(alloc, d, id, Some(w.net), false, metal)?;
    add_item(copper, item)
}

// The design's fixed items, and these wires and vias behind them.
fn lay_wires(alloc: Global, d: &Design, wires: &[FreeWire]) -> Result<PlainCopper, AllocError>
    requires sound { IsSound d.now }
    requires wires { All (IsFreeSound d.now) wires.now }
    ensures items { IfOk result (λ c. c ≡ laid_on d.now d.now.fixed wires.now) }
    ensures serves { IfOk result (λ c. Serves c d.now) }
{
    let mut copper = fixed_copper(alloc, d)?;
    for w in wires {
        lay_wire(alloc, d, &mut copper, w)?;
    }
    Ok(copper)
}

/// The picture of a design with its fixed items and these wires and vias.
pub(crate) fn picture_with(
    alloc: Global,
    d: &Design,
    wires: &[FreeWire],
) -> Result<Vec<u8>, AllocError>
    requires sound { IsSound d.now }
    requires wires { All (IsFreeSound d.now) wires.now }
    ensures { IfOk result (λ page. IsPictureOf d.now wires.now page.items) }
{
    let copper = lay_wires(alloc, d, wires)?;
    let lines = open_lines(alloc, d, &copper)?;
    picture_text(alloc, d, copper.items(), lines.as_slice())
}
