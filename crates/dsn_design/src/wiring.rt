//! Fixed wiring as items, and free wiring.
//! Source: SPECCTRA reference, wiring descriptor. Lengths are in nm.

ghost use Rattle.std.specs.Prelude.{◌≡◌, ◌++◌, filter, map, All, IfOk, OnOk};
ghost use Rattle.pcb_model.specs.Bounds.{IsFit, IsMetalFit};
ghost use Rattle.pcb_model.specs.declared.design.Padstack.{Padstack as TheStack};
ghost use Rattle.dsn_design.specs.Fit.{IsWireFit};
ghost use Rattle.dsn_design.specs.Items.{fixed_wiring, free_wiring};

use dsn_shapes::ReadWire;
use geo_kernel::List;
use pcb_model::{Design, FreeWire, Item, copy_metal, make_item};
use std::alloc::{AllocError, Global};

/// Appends the fixed wires and vias, of the padstacks of a design.
#[tactic(auto, unfolding(crate::specs::Items::fixed_wiring, crate::specs::Items::wiring_item))]
pub(crate) fn push_fixed(
    alloc: Global,
    items: &mut List<Item>,
    d: &Design,
    wires: &[ReadWire],
) -> Result<(), AllocError>
    requires stacks_fit { All (λ (s : TheStack). All IsFit s.pieces) d.now.padstacks }
    requires wires_fit { All IsWireFit wires.now }
    ensures { OnOk result (items.new ≡ items.old ++ fixed_wiring d.now.padstacks wires.now) }
{
    for wire in wires {
        if wire.fixed {
            let metal = copy_metal(alloc, &wire.metal)?;
            items.push(make_item(alloc, d, 0, wire.net, true, metal)?)?;
        }
    }
    Ok(())
}

/// The free wires and vias.
#[tactic(auto, unfolding(crate::specs::Items::free_wiring))]
pub(crate) fn free_wiring(alloc: Global, wires: &[ReadWire]) -> Result<List<FreeWire>, AllocError>
    ensures { IfOk result (λ fs. fs ≡ free_wiring wires.now) }
{
    let mut free = List::new(alloc);
    for wire in wires {
        if !wire.fixed {
            free.push(FreeWire {
                at: wire.at,
                net: wire.net.unwrap_or(0),
                metal: copy_metal(alloc, &wire.metal)?,
            })?;
        }
    }
    Ok(free)
}
