//! The islands of all nets.

ghost use Rattle.std.specs.Prelude.{IfOk};
ghost use Rattle.pcb_model.specs.Sound.{IsSound};
ghost use Rattle.copper_check.specs.Checks.{AreAllIslands};

use geo_kernel::List;
use pcb_islands::{Island, islands};
use pcb_model::{Copper, Design};
use std::alloc::{AllocError, Global};

/// The islands of each net of the design.
pub fn islands_of_all<C: Copper>(
    alloc: Global,
    d: &Design,
    c: &C,
) -> Result<List<List<Island>>, AllocError>
    requires sound { IsSound d.now }
    requires serves { C.serves c.now d.now }
    ensures { IfOk result (AreAllIslands d.now (C.items c.now)) }
{
    let mut found = List::new(alloc);
    for net in 0..d.nets.len() as u32 {
        found.push(islands(alloc, d, c, net)?)?;
    }
    Ok(found)
}
