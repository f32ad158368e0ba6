//! Whether an item lies inside the board, and is laid as its net wants it.
//! Source: SPECCTRA reference, boundary, layer and net descriptors.

ghost use Rattle.std.specs.Prelude.{◌≡◌, ◌↔◌, ◌≤◌, ◌^◌, IsTrue, IfSome, All, Any};
ghost use Rattle.geo_kernel.specs.Plane.{IsWithin};
ghost use Rattle.pcb_model.specs.Rules.{width_for};
ghost use Rattle.pcb_model.specs.Bounds.{IsFit, IsBoundFit, IsItemFit};
ghost use Rattle.pcb_model.specs.Board.{AreInside, IsInsideEach, IsSignal, IsListed, IsLaid};

use crate::rules::width_of;
use crate::{Design, Item, Metal, Piece};
use geo_kernel::{List, Point, first_point, inside};

pub(crate) fn inside_each(p: Point, bounds: &[List<List<Point>>]) -> bool
    requires p_within { IsWithin (2 ^ 29) p }
    requires bounds_fit { All IsBoundFit bounds.now }
    ensures { IsTrue result ↔ IsInsideEach bounds.now p }
{
    for loops in bounds {
        if !inside(p, loops) {
            return false;
        }
    }
    true
}

fn are_inside(ps: &[Piece], bounds: &[List<List<Point>>]) -> bool
    requires ps_fit { All IsFit ps.now }
    requires bounds_fit { All IsBoundFit bounds.now }
    ensures { IsTrue result ↔ AreInside bounds.now ps.now }
{
    for p in ps {
        if !inside_each(first_point(&p.spine), bounds) {
            return false;
        }
    }
    true
}

/// Whether the first vertex of each of the item's spines lies inside every boundary.
pub fn inside_board(d: &Design, a: &Item) -> bool
    requires a_fits { IsItemFit a.now }
    requires bounds_fit { All IsBoundFit d.now.bounds }
    ensures { IsTrue result ↔ AreInside d.now.bounds a.now.pieces }
{
    are_inside(a.pieces.as_slice(), d.bounds.as_slice())
}

/// Whether the layer is there and carries signals: copper of nets may be laid on it.
pub fn is_signal(d: &Design, layer: u8) -> bool
    ensures { IsTrue result ↔ IsSignal d.now layer }
{
    match d.layers.as_slice().get(layer as usize) {
        Some(l) => !l.power,
        None => false,
    }
}

fn has_via(vias: &[u32], padstack: u32) -> bool
    ensures { IsTrue result ↔ Any (λ v. v ≡ padstack) vias.now }
{
    for v in vias {
        if *v == padstack {
            return true;
        }
    }
    false
}

/// Whether the padstack is in the net's list of vias.
pub fn is_listed(d: &Design, net: u32, padstack: u32) -> bool
    ensures { IsTrue result ↔ IsListed d.now net padstack }
{
    match d.nets.as_slice().get(net as usize) {
        Some(n) => has_via(n.vias.as_slice(), padstack),
        None => false,
    }
}

fn is_wide_enough(d: &Design, net: Option<u32>, width: u64) -> bool
    ensures { IsTrue result ↔ IfSome net (λ n. width_for d.now n ≤ width) }
{
    match net {
        Some(n) => width_of(d, n) <= width,
        None => true,
    }
}

fn is_listed_for(d: &Design, net: Option<u32>, padstack: u32) -> bool
    ensures { IsTrue result ↔ IfSome net (λ n. IsListed d.now n padstack) }
{
    match net {
        Some(n) => is_listed(d, n, padstack),
        None => true,
    }
}

/// Whether the item lies as its net wants it: a wire on a signal layer and at least as wide as its net,
/// a via of a padstack in its net's list. Copper without a net has no width and no list.
pub fn width_ok(d: &Design, a: &Item) -> bool
    ensures { IsTrue result ↔ IsLaid d.now a.now }
{
    match &a.metal {
        Metal::Wire { layer, width, .. } => {
            is_signal(d, *layer) && is_wide_enough(d, a.net, *width)
        }
        Metal::Via { padstack, .. } => is_listed_for(d, a.net, *padstack),
        _ => true,
    }
}
