//! The islands of a net, and whether they are one.
//! Islands are the classes of the net's pins under chains of touching items.

ghost use Rattle.std.specs.Prelude.{◌≡◌, ◌↔◌, ℕ, ◌<◌, ◌≤◌, List as Seq, length, IfOk, IsTrue};
ghost use Rattle.pcb_model.specs.declared.item.Item.{Item as OneItem};
ghost use Rattle.pcb_model.specs.declared.design.Design.{Design as TheDesign};
ghost use Rattle.pcb_model.specs.Sound.{IsSound, Serves};
ghost use Rattle.pcb_islands.specs.Islands.{AreIslands, IsComplete};

use crate::gather::Gatherer;
use geo_kernel::List;
use pcb_model::{Copper, Design, pairs_are_symmetric};
use std::alloc::{AllocError, Global};

/// Pins of a net that copper joins, in the order of the net's list, and the ids of all items of the net
/// that are joined to them, ascending.
#[derive(Drop)]
pub struct Island {
    pub net: u32,
    pub pins: List<u32>,
    pub items: List<u64>,
}

/// The islands of a net, in the order of their first pins in the net's list.
pub fn islands<C: Copper>(
    alloc: Global,
    d: &Design,
    c: &C,
    net: u32,
) -> Result<List<Island>, AllocError>
    requires sound { IsSound d.now }
    requires net { net < length d.now.nets }
    requires serves { C.serves c.now d.now }
    ensures { IfOk result (AreIslands d.now (C.items c.now) net) }
{
    c.in_order();
    let gatherer = Gatherer { d, c, net };
    let pins = d.nets.as_slice()[net as usize].pins.as_slice();
    let found = gatherer.gather_all(alloc, pins)?;
    Ok(List::from_vec(found))
}

/// Whether the islands of a net are at most one, which is so exactly where copper joins all its pins.
pub fn is_whole(found: &List<Island>) -> bool
    ensures few { IsTrue result ↔ (length found.now ≤ 1) }
    ensures complete { (d : TheDesign) (items : Seq OneItem) (net : ℕ) → IsSound d → Serves items d
        → AreIslands d items net found.now → (IsTrue result ↔ IsComplete d items net) }
{
    pairs_are_symmetric();
    found.len() <= 1
}
