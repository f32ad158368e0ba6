//! A board's items in tiles.

ghost use Rattle.std.specs.Prelude.{◌≡◌, All, IfOk};
ghost use Rattle.pcb_model.specs.Bounds.{IsItemFit};
ghost use Rattle.pcb_model.specs.Copper.{Ascends};
ghost use Rattle.pcb_model.specs.Sound.{IsSound, Serves};
ghost use Rattle.pcb_tiles.specs.Spread.{ServesSpread};
ghost use Rattle.pcb_tiles.specs.Tiling.{IsArea};

use geo_kernel::Rect4;
use pcb_model::{Design, Item, greatest_clearance};
use pcb_tiles::Tiles;
use route_lattice::board_box;
use std::alloc::{AllocError, Global};

// The box of the board.
fn area_of(d: &Design) -> Rect4
    requires sound { IsSound d.now }
    ensures { IsArea result }
{
    board_box(d)
}

/// Copies of the items in tiles, ready to be asked about the design.
pub fn tiles_of(alloc: Global, d: &Design, items: &[Item]) -> Result<Tiles, AllocError>
    requires sound { IsSound d.now }
    requires ascends { Ascends items.now }
    requires serves { Serves items.now d.now }
    ensures items { IfOk result (λ t. t.items ≡ items.now) }
    ensures serves { IfOk result (λ t. ServesSpread t d.now) }
{
    Tiles::of(alloc, area_of(d), greatest_clearance(d), items)
}
