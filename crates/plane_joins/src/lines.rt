//! The lines of a plane.

ghost use Rattle.std.specs.Prelude.{◌≡◌, ◌<◌, ◌≤◌, ◌+◌, ◌*◌, ◌-◌, ◌^◌, ◌&&◌, IfOk, length, Some, slice_get, vec_len};
ghost use Rattle.std.specs.Prelude.{All};
ghost use Rattle.pcb_model.specs.declared.design.Pin.{Pin as OnePin};
ghost use Rattle.pcb_model.specs.Sound.{IsSound};
ghost use Rattle.route_lattice.specs.Gather.{unit_of};
ghost use Rattle.plane_joins.specs.Planes.{IsPlaneOf, candidates as candidates_of, lines_in, has_pad_on as is_on};
ghost use Rattle.plane_joins.specs.Planes.{is_own as is_own_pin, own_anchors as anchors_of};
ghost use Rattle.plane_joins.specs.inner.Laying.{IsCandidateFit};

use crate::area::PlaneArea;
use crate::candidate::{Candidate, between_lines};
use crate::limits::MESH;
use geo_kernel::List;
use pcb_islands::pad_of;
use pcb_model::{Design, Pin, SesScale};
use route_lattice::{has_copper, least_box, line_count, lines_between, rounded_coordinate};
use std::alloc::{AllocError, Global};

// Whether the pad of a pin has copper on the layer.
fn has_pad_on(d: &Design, layer: u8, pin: u32) -> bool
    requires sound { IsSound d.now }
    requires pin { pin < length d.now.pins }
    ensures { result ≡ is_on d.now layer pin }
{
    has_copper(pad_of(d, pin).pieces.as_slice(), layer)
}

// Whether pin i is of the plane's net and has copper on its layer.
fn is_own(d: &Design, p: &PlaneArea, i: u32, pin: &Pin) -> bool
    requires sound { IsSound d.now }
    requires pin { i < length d.now.pins }
    ensures { result ≡ is_own_pin d.now p.now (i, pin.now) }
{
    match pin.net {
        Some(net) => {
            if net == p.net {
                has_pad_on(d, p.layer, i)
            } else {
                false
            }
        }
        None => false,
    }
}

// The coordinates of the anchors of the plane's own pins.
fn own_anchors(
    alloc: Global,
    d: &Design,
    p: &PlaneArea,
    unit: u64,
    upright: bool,
) -> Result<Vec<i64>, AllocError>
    requires sound { IsSound d.now }
    requires unit { unit ≡ unit_of d.now }
    ensures value { IfOk result (λ v. v.items ≡ anchors_of d.now p.now upright) }
    ensures few { IfOk result (λ v. vec_len v ≤ 2 ^ 26) }
{
    let pins = d.pins.as_slice();
    let mut found = Vec::new(alloc);
    for (i, pin) in pins.iter().enumerate() {
        if is_own(d, p, i as u32, pin) {
            found.push(rounded_coordinate(unit, upright, pin.centre))?;
        }
    }
    Ok(found)
}

// How many x lines a plane has, or y lines where upright.
fn count(alloc: Global, d: &Design, p: &PlaneArea, upright: bool) -> Result<u64, AllocError>
    requires sound { IsSound d.now }
    requires plane { IsPlaneOf d.now p.now }
    ensures value { IfOk result (λ n. n ≡ length (lines_in d.now p.now upright)) }
    ensures small { IfOk result (λ n. n ≤ 2 ^ 31) }
{
    let unit = SesScale::pick(d).nm;
    let frame = least_box(p.rim.as_slice());
    let anchors = own_anchors(alloc, d, p, unit, upright)?;
    line_count(alloc, unit, MESH, upright, frame, anchors.as_slice())
}

// The x lines of a plane, or its y lines where upright.
fn lines(alloc: Global, d: &Design, p: &PlaneArea, upright: bool) -> Result<List<i64>, AllocError>
    requires sound { IsSound d.now }
    requires plane { IsPlaneOf d.now p.now }
    ensures { IfOk result (λ xs. xs ≡ lines_in d.now p.now upright) }
{
    let unit = SesScale::pick(d).nm;
    let frame = least_box(p.rim.as_slice());
    let anchors = own_anchors(alloc, d, p, unit, upright)?;
    lines_between(alloc, unit, MESH, upright, frame, anchors.as_slice())
}

fn product(a: u64, b: u64) -> u128
    requires a_small { a ≤ 2 ^ 31 }
    requires b_small { b ≤ 2 ^ 31 }
    ensures value { result ≡ a * b }
    ensures small { result ≤ 2 ^ 62 }
{
    u128::from(a) * u128::from(b)
}

// How many candidates lie between so many lines.
fn candidates_between(across: u64, up: u64) -> u128
    requires across_small { across ≤ 2 ^ 31 }
    requires up_small { up ≤ 2 ^ 31 }
    ensures value { result ≡ up * (across - 1) + across * (up - 1) }
    ensures small { result ≤ 2 ^ 63 }
{
    product(up, across.saturating_sub(1)) + product(across, up.saturating_sub(1))
}

/// How many candidates a plane has, without a list of them.
pub(crate) fn candidate_count(alloc: Global, d: &Design, p: &PlaneArea) -> Result<u128, AllocError>
    requires sound { IsSound d.now }
    requires plane { IsPlaneOf d.now p.now }
    ensures value { IfOk result (λ n. n ≡ length (candidates_of d.now p.now)) }
    ensures small { IfOk result (λ n. n ≤ 2 ^ 63) }
{
    let across = count(alloc, d, p, false)?;
    let up = count(alloc, d, p, true)?;
    Ok(candidates_between(across, up))
}

// The candidates of a plane, whose numbers aren't told to be small.
fn listed(alloc: Global, d: &Design, p: &PlaneArea) -> Result<Vec<Candidate>, AllocError>
    requires sound { IsSound d.now }
    requires plane { IsPlaneOf d.now p.now }
    ensures { IfOk result (λ v. v.items ≡ candidates_of d.now p.now) }
{
    let xs = lines(alloc, d, p, false)?;
    let ys = lines(alloc, d, p, true)?;
    between_lines(alloc, xs.as_slice(), ys.as_slice())
}

/// The candidates of a plane.
pub(crate) fn candidates(
    alloc: Global,
    d: &Design,
    p: &PlaneArea,
) -> Result<Vec<Candidate>, AllocError>
    requires sound { IsSound d.now }
    requires plane { IsPlaneOf d.now p.now }
    ensures value { IfOk result (λ v. v.items ≡ candidates_of d.now p.now) }
    ensures fit { IfOk result (λ v. All IsCandidateFit v.items) }
{
    listed(alloc, d, p)
}
