//! What a lattice takes from a design.
//! The anchor of a pin is its centre, rounded to the session unit.

ghost use Rattle.std.specs.Prelude.{◌≡◌, ℕ, ◌+◌, ◌<◌, ◌≤◌, ◌^◌, length, vec_len, IfOk, All};
ghost use Rattle.geo_kernel.specs.Plane.{IsWithin};
ghost use Rattle.pcb_model.specs.declared.design.Pin.{Pin as ThePin};
ghost use Rattle.pcb_model.specs.Sound.{IsSound};
ghost use Rattle.route_lattice.specs.Gather.{coordinate, anchors_of, signals_of};
ghost use Rattle.route_lattice.specs.Parts.{parts_of, ArePartsFit};

use crate::outline::outline;
use crate::round::round_nearest;
use geo_kernel::{List, Point, Rect4};
use pcb_model::{BoardLayer, Design, Pin, SesScale};
use std::alloc::{AllocError, Global};

/// The session unit, the box of the first boundary, the anchors' x and y, and the numbers of the signal layers; in nm.
#[derive(Drop)]
pub(crate) struct Parts {
    pub unit: u64,
    pub outline: Rect4,
    pub across: List<i64>,
    pub up: List<i64>,
    pub layers: List<u8>,
}

fn pick(upright: bool, p: Point) -> i64
    ensures { result ≡ coordinate upright p }
{
    if upright { p.y } else { p.x }
}

/// The coordinates of the anchors of all pins with a net.
pub(crate) fn anchors(
    alloc: Global,
    unit: u64,
    upright: bool,
    pins: &[Pin],
) -> Result<Vec<i64>, AllocError>
    requires some { 0 < unit }
    requires short { unit ≤ 2 ^ 29 }
    requires near { All (λ (p : ThePin). IsWithin (2 ^ 29) p.centre) pins.now }
    ensures value { IfOk result (λ v. v.items ≡ anchors_of unit upright pins.now) }
    ensures few { IfOk result (λ v. vec_len v ≤ length pins.now) }
{
    let mut found = Vec::new(alloc);
    for p in pins {
        if p.net.is_some() {
            found.push(round_nearest(unit, pick(upright, p.centre)))?;
        }
    }
    Ok(found)
}

/// The numbers of the signal layers.
pub(crate) fn signals(alloc: Global, layers: &[BoardLayer]) -> Result<Vec<u8>, AllocError>
    requires { length layers.now ≤ 32 }
    ensures value { IfOk result (λ v. v.items ≡ signals_of layers.now) }
    ensures few { IfOk result (λ v. vec_len v ≤ length layers.now) }
{
    let mut found = Vec::new(alloc);
    for (i, layer) in layers.iter().enumerate() {
        if !layer.power {
            found.push(i as u8)?;
        }
    }
    Ok(found)
}

/// The parts of a design.
pub(crate) fn gather(alloc: Global, d: &Design) -> Result<Parts, AllocError>
    requires { IsSound d.now }
    ensures value { IfOk result (λ p. p ≡ parts_of d.now) }
    ensures fit { IfOk result ArePartsFit }
{
    let unit = SesScale::pick(d).nm;
    let across = anchors(alloc, unit, false, d.pins.as_slice())?;
    let up = anchors(alloc, unit, true, d.pins.as_slice())?;
    let layers = signals(alloc, d.layers.as_slice())?;
    Ok(Parts {
        unit,
        outline: outline(d),
        across: List::from_vec(across),
        up: List::from_vec(up),
        layers: List::from_vec(layers),
    })
}
