//! The items that new metals make.
//! Their ids are numbers from 0 on, which nothing here depends on.

ghost use Rattle.std.specs.Prelude.{◌≡◌, ◌++◌, ◌∷◌, [], false, Some, All, IfOk, OnOk};
ghost use Rattle.pcb_model.specs.Pieces.{item_of};
ghost use Rattle.pcb_model.specs.Bounds.{IsItemFit};
ghost use Rattle.path_wire.specs.Lays.{IsWellLaid};
ghost use Rattle.board_offers.specs.Items.{added_from};

use geo_kernel::List;
use pcb_model::{Copper, Item, Metal, copy_metal, make_item};
use route_lattice::Ground;
use std::alloc::{AllocError, Global};

// One more routed item of a net, which a metal makes.
fn add_item<C: Copper>(
    items: &mut List<Item>,
    alloc: Global,
    on: &Ground<'_, C>,
    net: u32,
    id: u64,
    metal: &Metal,
) -> Result<(), AllocError>
    requires { IsWellLaid on.now.d net 0 metal.now }
    ensures { OnOk result (items.new ≡ items.old ++ item_of on.now.d id (Some net) false metal.now ∷ []) }
{
    on.keeps();
    let metal = copy_metal(alloc, metal)?;
    items.push(make_item(alloc, on.d, id, Some(net), false, metal)?)?;
    Ok(())
}

/// The routed items of a net that metals make, with ids from 0 on.
pub(crate) fn added_items<C: Copper>(
    alloc: Global,
    on: &Ground<'_, C>,
    net: u32,
    metals: &[Metal],
) -> Result<List<Item>, AllocError>
    requires { All (IsWellLaid on.now.d net 0) metals.now }
    ensures items { IfOk result (λ items. items ≡ added_from on.now.d net 0 metals.now) }
    ensures fit { IfOk result (λ items. All IsItemFit items) }
{
    let mut items = List::new(alloc);
    for i in 0..metals.len() {
        add_item(&mut items, alloc, on, net, i as u64, &metals[i])?;
    }
    Ok(items)
}
