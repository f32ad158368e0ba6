//! What stubs lay, in tiles and as further items of the design.

ghost use Rattle.std.specs.Prelude.{◌≡◌, ◌<◌, ◌++◌, ◌∷◌, [], All, IfOk, OnOk, Some, length};
ghost use Rattle.pcb_model.specs.declared.item.Item.{Item as OneItem};
ghost use Rattle.pcb_model.specs.Bounds.{IsItemFit};
ghost use Rattle.pcb_model.specs.Pieces.{item_of};
ghost use Rattle.pcb_model.specs.Sound.{IsSound};
ghost use Rattle.pcb_tiles.specs.Spread.{holding};
ghost use Rattle.path_wire.specs.Lays.{laid_item};
ghost use Rattle.path_wire.specs.Wires.{IsNetWalk, copper_of};
ghost use Rattle.plane_joins.specs.Stubs.{laid_from};
ghost use Rattle.plane_stubs.specs.inner.Holding.{IsHeld};
ghost use Rattle.plane_stubs.specs.inner.Sites.{IsNetMetal};

use crate::held::Held;
use crate::site::Site;
use path_wire::{copper_well_laid, copper_widths, walk_items};
use pcb_model::{Design, Item, Metal, copy_metal, make_item};
use pcb_tiles::Tiles;
use route_lattice::Walk;
use std::alloc::{AllocError, Global};

// Puts an item into tiles.
fn add(tiles: &mut Tiles, item: Item) -> Result<(), AllocError>
    requires above { All (λ (b : OneItem). b.id < item.id) tiles.old.items }
    requires fits { IsItemFit item }
    ensures { OnOk result (tiles.new ≡ holding tiles.old (tiles.old.items ++ item ∷ [])) }
{
    match tiles.add(item) {
        Ok(()) => Ok(()),
        Err((item, cause)) => {
            drop(item);
            Err(cause)
        }
    }
}

// The item that a metal makes of a net.
fn item_from(
    alloc: Global,
    d: &Design,
    id: u64,
    net: u32,
    fixed: bool,
    metal: &Metal,
) -> Result<Item, AllocError>
    requires sound { IsSound d.now }
    requires metal { IsNetMetal d.now net metal.now }
    ensures { IfOk result (λ a. a ≡ item_of d.now id (Some net) fixed metal.now) }
{
    let copy = copy_metal(alloc, metal)?;
    make_item(alloc, d, id, Some(net), fixed, copy)
}

impl Site<'_> {
    // Lays a metal of a net, with the next id.
    fn lay_one(
        &self,
        alloc: Global,
        held: &mut Held,
        net: u32,
        metal: &Metal,
    ) -> Result<(), AllocError>
        requires metal { IsNetMetal self.now.d net metal.now }
        requires held { IsHeld self.now held.old }
        ensures held { OnOk result (IsHeld self.now held.new) }
        ensures more { OnOk result (held.new.tiles.items
            ≡ held.old.tiles.items ++ laid_item self.now.d net (length held.old.tiles.items) metal.now ∷ []) }
    {
        let id = self.d.fixed.as_slice().len() as u64 + held.added.as_slice().len() as u64;
        let routed = item_from(alloc, self.d, id, net, false, metal)?;
        let fixed = item_from(alloc, self.d, id, net, true, metal)?;
        add(&mut held.tiles, routed)?;
        held.added.push(fixed)?;
        Ok(())
    }

    // Lays metals of a net one after another.
    fn lay_all(
        &self,
        alloc: Global,
        held: &mut Held,
        net: u32,
        metals: &[Metal],
    ) -> Result<(), AllocError>
        requires metals { All (IsNetMetal self.now.d net) metals.now }
        requires held { IsHeld self.now held.old }
        ensures held { OnOk result (IsHeld self.now held.new) }
        ensures more { OnOk result (held.new.tiles.items
            ≡ held.old.tiles.items ++ laid_from self.now.d net (length held.old.tiles.items) metals.now) }
    {
        for metal in metals {
            self.lay_one(alloc, held, net, metal)?;
        }
        Ok(())
    }

    /// Lays the copper of a walk of a net.
    pub(crate) fn lay_walk(
        &self,
        alloc: Global,
        held: &mut Held,
        net: u32,
        walk: &Walk,
    ) -> Result<(), AllocError>
        requires net { net < length self.now.d.nets }
        requires walk { IsNetWalk self.now.d self.now.lat net walk.now.nodes walk.now.moves }
        requires held { IsHeld self.now held.old }
        ensures held { OnOk result (IsHeld self.now held.new) }
        ensures more { OnOk result (held.new.tiles.items
            ≡ held.old.tiles.items ++ laid_from self.now.d net (length held.old.tiles.items)
            (copper_of self.now.d self.now.lat net walk.now.nodes walk.now.moves)) }
    {
        copper_well_laid();
        copper_widths();
        let metals = walk_items(alloc, self.lat, self.d, net, walk)?;
        self.lay_all(alloc, held, net, metals.as_slice())
    }
}
