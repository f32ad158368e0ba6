//! What a session holds, as wiring of the design.

ghost use Rattle.std.specs.Prelude.{◌≡◌, IfOk, map};
ghost use Rattle.ses_reader.specs.Wiring.{wire_of};

use crate::item::SesItem;
use geo_kernel::List;
use pcb_model::{FreeWire, copy_metal};
use std::alloc::{AllocError, Global};

/// A session's items as wiring of the design, in order and with their places.
/// `AllocError` comes only for want of memory.
pub fn wires_of(alloc: Global, items: &[SesItem]) -> Result<List<FreeWire>, AllocError>
    ensures { IfOk result (λ wires. wires ≡ map wire_of items.now) }
{
    let mut wires = List::new(alloc);
    for item in items {
        let metal = copy_metal(alloc, &item.metal)?;
        wires.push(FreeWire {
            at: item.at,
            net: item.net,
            metal,
        })?;
    }
    Ok(wires)
}
