//! The nodes that anchor the items of each island of a net.

ghost use Rattle.std.specs.Prelude.{IfOk};
ghost use Rattle.cut_check.specs.Sizes.{AreAnchored};

use geo_kernel::List;
use pcb_islands::Island;
use pcb_model::Copper;
use route_lattice::{Ground, anchors_among};
use std::alloc::{AllocError, Global};

/// Islands of a net, with the nodes that anchor the items of each.
#[derive(Clone, Copy)]
pub struct AnchoredIslands<'a> {
    pub islands: &'a [Island],
    pub anchors: &'a [List<u32>],
}

/// Of each island the nodes that anchor its items, ascending.
pub fn anchors_of<C: Copper>(
    alloc: Global,
    on: &Ground<'_, C>,
    own: &[Island],
) -> Result<List<List<u32>>, AllocError>
    ensures { IfOk result (AreAnchored on.now.d on.now.lat on.now.items own.now) }
{
    let mut anchors = List::new(alloc);
    for island in own {
        anchors.push(anchors_among(alloc, on.lat, on.d, on.c, island.items.as_slice())?)?;
    }
    Ok(anchors)
}
