//! Padstacks whose vias lie inside where their point does, and fit at each node of a lattice.

ghost use Rattle.std.specs.Prelude.{◌≡◌, ◌≤◌, ◌^◌, ◌+ℤ◌, ◌≤ℤ◌, pos, neg_ℤ, true, unsigned_abs, All};
ghost use Rattle.geo_kernel.specs.Spine.{IsFirst};
ghost use Rattle.pcb_model.specs.Bounds.{IsFit};
ghost use Rattle.pcb_model.specs.Near.{IsBoxWithin};
ghost use Rattle.pcb_model.specs.Sound.{IsSound, origin};
ghost use Rattle.route_lattice.specs.Fits.{FitsDesign};
ghost use Rattle.move_maps.specs.Starts.{IsCentred, StaysNear};

use crate::cover::padstack_extent;
use geo_kernel::limits::FURTHEST;
use geo_kernel::{Point, first_point};
use pcb_model::pieces::padstack_pieces;
use pcb_model::{Design, Piece};
use route_lattice::Lattice;

// The greatest absolute value of a coordinate.
const EDGE: i64 = FURTHEST as i64;

fn begins_at_origin(piece: &Piece) -> bool
    requires { IsFit piece.now }
    ensures { result ≡ true → IsFirst piece.now.spine origin }
{
    first_point(&piece.spine) == Point { x: 0, y: 0 }
}

fn begin_at_origin(pieces: &[Piece]) -> bool
    requires { All IsFit pieces.now }
    ensures { result ≡ true → All (λ piece. IsFirst piece.spine origin) pieces.now }
{
    for piece in pieces {
        if !begins_at_origin(piece) {
            return false;
        }
    }
    true
}

fn stays_near(z: i64, low: i64, high: i64) -> bool
    requires z { unsigned_abs z ≤ 2 ^ 29 }
    requires low { unsigned_abs low ≤ 2 ^ 29 }
    requires high { unsigned_abs high ≤ 2 ^ 29 }
    ensures from { result ≡ true → neg_ℤ (pos (2 ^ 29)) ≤ℤ (z +ℤ low) }
    ensures to { result ≡ true → (z +ℤ high) ≤ℤ pos (2 ^ 29) }
{
    -EDGE <= z + low && z + high <= EDGE
}

// Whether what reaches from `low` to `high` about each of the coordinates stays within the greatest absolute value.
fn stay_near(zs: &[i64], low: i64, high: i64) -> bool
    requires zs { All (λ z. unsigned_abs z ≤ 2 ^ 29) zs.now }
    requires low { unsigned_abs low ≤ 2 ^ 29 }
    requires high { unsigned_abs high ≤ 2 ^ 29 }
    ensures { result ≡ true → All (StaysNear low high) zs.now }
{
    for z in zs {
        if !stays_near(*z, low, high) {
            return false;
        }
    }
    true
}

/// Whether each piece of the padstack begins at the origin, and at no node of the lattice leads out of the plane.
pub(crate) fn is_centred(lat: &Lattice, d: &Design, padstack: u32) -> bool
    requires sound { IsSound d.now }
    requires fits { FitsDesign d.now lat.now }
    ensures { result ≡ true → IsCentred d.now lat.now padstack }
{
    let r = padstack_extent(d, padstack).bounds;
    if !begin_at_origin(padstack_pieces(d, padstack)) {
        return false;
    }
    if !stay_near(lat.xs().as_slice(), r.x0, r.x1) {
        return false;
    }
    stay_near(lat.ys().as_slice(), r.y0, r.y1)
}
