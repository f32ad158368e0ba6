//! Maps of a design's fixed items alone.
//! What they count shuts a move whichever routed items go.

ghost use Rattle.std.specs.Prelude.{◌≡◌, ◌++◌, ◌∷◌, [], ◌<◌, All, IfOk, OnOk};
ghost use Rattle.pcb_model.specs.Bounds.{IsItemFit};
ghost use Rattle.pcb_model.specs.Sound.{IsSound};
ghost use Rattle.route_lattice.specs.Fits.{FitsDesign};
ghost use Rattle.move_maps.specs.Maps.{AreMapsOf};

use move_maps::MoveMaps;
use pcb_model::{Design, Item, PlainCopper, copy_item};
use route_lattice::Lattice;
use std::alloc::{AllocError, Global};

fn add_item(copper: &mut PlainCopper, item: Item) -> Result<(), AllocError>
    requires above { All (λ b. b.id < item.id) copper.old }
    requires fits { IsItemFit item }
    ensures { OnOk result (copper.new ≡ copper.old ++ item ∷ []) }
{
    match copper.add(item) {
        Ok(()) => Ok(()),
        Err((_, cause)) => Err(cause),
    }
}

// Copies of the design's fixed items.
fn fixed_copper(alloc: Global, d: &Design) -> Result<PlainCopper, AllocError>
    requires { IsSound d.now }
    ensures { IfOk result (λ copper. copper ≡ d.now.fixed) }
{
    let mut copper = PlainCopper::new(alloc);
    for item in d.fixed.as_slice() {
        let copy = match copy_item(alloc, item) {
            Ok(copy) => copy,
            Err(error) => {
                drop(copper);
                return Err(error);
            }
        };
        if let Err(error) = add_item(&mut copper, copy) {
            drop(copper);
            return Err(error);
        }
    }
    Ok(copper)
}

/// The maps of a design's fixed items alone. `AllocError` comes only for want of memory.
pub fn fixed_maps(alloc: Global, lat: &Lattice, d: &Design) -> Result<MoveMaps, AllocError>
    requires sound { IsSound d.now }
    requires fits { FitsDesign d.now lat.now }
    ensures { IfOk result (AreMapsOf d.now lat.now d.now.fixed) }
{
    let copper = fixed_copper(alloc, d)?;
    MoveMaps::of(alloc, lat, d, &copper)
}
