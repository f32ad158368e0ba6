//! Which crossings of a lattice's lines lie inside every boundary.
//! Found once: a node's point says it of its steps and vias, on each layer and for each group.

ghost use Rattle.std.specs.Prelude.{◌≡◌, ◌↔◌, ◌+◌, ◌*◌, ◌<◌, ◌≤◌, ◌^◌, length, All, IsTrue, IfOk, OnOk};
ghost use Rattle.geo_kernel.specs.Plane.{IsWithin};
ghost use Rattle.pcb_model.specs.Bounds.{IsBoundFit};
ghost use Rattle.pcb_model.specs.Board.{IsInsideEach};
ghost use Rattle.move_maps.specs.Starts.{AreInner};

use geo_kernel::{List, Point, inside};
use pcb_model::Copper;
use route_lattice::Ground;
use std::alloc::{AllocError, Global};

fn is_inside(at: Point, bounds: &[List<List<Point>>]) -> bool
    requires at { IsWithin (2 ^ 29) at }
    requires bounds { All IsBoundFit bounds.now }
    ensures { IsTrue result ↔ IsInsideEach bounds.now at }
{
    for loops in bounds {
        if !inside(at, loops) {
            return false;
        }
    }
    true
}

// Appends what is said of the crossings of a y line.
fn push_row<C: Copper>(
    on: &Ground<'_, C>,
    inner: &mut List<bool>,
    row: usize,
) -> Result<(), AllocError>
    requires row { row < length on.now.lat.ys }
    requires so_far { AreInner on.now.d on.now.lat (row * length on.now.lat.xs) inner.old }
    ensures { OnOk result (AreInner on.now.d on.now.lat ((row + 1) * length on.now.lat.xs) inner.new) }
{
    let y = on.lat.ys().as_slice()[row];
    for x in on.lat.xs().as_slice() {
        inner.push(is_inside(Point { x: *x, y }, on.d.bounds.as_slice()))?;
    }
    Ok(())
}

/// For each crossing, row by row, whether it lies inside every boundary.
pub(crate) fn inner_points<C: Copper>(
    alloc: Global,
    on: &Ground<'_, C>,
) -> Result<List<bool>, AllocError>
    ensures { IfOk result (AreInner on.now.d on.now.lat (length on.now.lat.ys * length on.now.lat.xs)) }
{
    let mut inner = List::new(alloc);
    for row in 0..on.lat.ys().len() {
        push_row(on, &mut inner, row)?;
    }
    Ok(inner)
}
