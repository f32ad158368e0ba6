//! A wire with one run shoved.
//! Source: this project's rule of shoves.

ghost use Rattle.std.specs.Prelude.{◌≡◌, ◌<◌, ◌+◌, IfOk, length};
ghost use Rattle.pcb_model.specs.Sound.{IsSound, IsItemOf};
ghost use Rattle.route_lattice.specs.Fits.{FitsDesign};
ghost use Rattle.shove.specs.Shoves.{chain_of, IsWire, reshaped, Shoves};

use crate::line::{moved_run, shoved_chain};
use crate::replace::Replacement;
use geo_kernel::{List, Point};
use pcb_model::{Copper, Design, Item, Metal, make_item};
use route_lattice::{Ground, Lattice};
use std::alloc::{AllocError, Global};

/// A wire's new chain.
#[derive(Drop)]
pub struct Reshape {
    pub chain: List<Point>,
}

/// The chain of a wire with run `run` moved to the next line of the lattice at greater coordinate, or at lesser where
/// `up` is false.
/// None exactly where there is no such line, the run isn't parallel to an axis, or the wire with that chain disagrees
/// with another item,
/// isn't inside every boundary, or doesn't touch an item of its net that the wire touches.
pub fn shove_run<C: Copper>(
    alloc: Global,
    lat: &Lattice,
    d: &Design,
    c: &C,
    item: &Item,
    run: u32,
    up: bool,
) -> Result<Option<Reshape>, AllocError>
    requires sound { IsSound d.now }
    requires fits { FitsDesign d.now lat.now }
    requires serves { C.serves c.now d.now }
    requires item { IsItemOf d.now item.now }
    requires wire { IsWire item.now.metal }
    requires run { run + 1 < length (chain_of item.now.metal) }
    ensures { IfOk result (Shoves d.now lat.now (C.items c.now) item.now run up) }
{
    shove_at(alloc, lat, d, c, item, run as usize, up)
}

/// `shove_run`, for a run at any place of a chain.
pub fn shove_at<C: Copper>(
    alloc: Global,
    lat: &Lattice,
    d: &Design,
    c: &C,
    item: &Item,
    run: usize,
    up: bool,
) -> Result<Option<Reshape>, AllocError>
    requires sound { IsSound d.now }
    requires fits { FitsDesign d.now lat.now }
    requires serves { C.serves c.now d.now }
    requires item { IsItemOf d.now item.now }
    requires wire { IsWire item.now.metal }
    requires run { run + 1 < length (chain_of item.now.metal) }
    ensures { IfOk result (Shoves d.now lat.now (C.items c.now) item.now run up) }
{
    c.in_order();
    let on = Ground { lat, d, c };
    let Metal::Wire {
        layer,
        width,
        chain,
    } = &item.metal
    else {
        unreachable!();
    };
    let points = chain.as_slice();
    let Some((to_a, to_b)) = moved_run(&on, points[run], points[run + 1], up) else {
        return Ok(None);
    };
    let shoved = shoved_chain(alloc, points, run, to_a, to_b)?;
    let metal = Metal::Wire {
        layer: *layer,
        width: *width,
        chain: shoved,
    };
    let new = make_item(alloc, d, item.id, item.net, false, metal)?;
    let change = Replacement {
        on,
        old: item,
        new: &new,
    };
    if !change.can_replace() {
        return Ok(None);
    }
    let Item { metal, .. } = new;
    match metal {
        Metal::Wire { chain, .. } => Ok(Some(Reshape { chain })),
        _ => unreachable!(),
    }
}
