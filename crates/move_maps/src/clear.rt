//! Whether a wire or a via keeps off an item, as if the item were foreign copper.
//! The clearance is given: it is looked up once for all moves that an item may shut.

ghost use Rattle.std.specs.Prelude.{◌≡◌, ◌≤◌, ◌<◌, ◌^◌, ◌↔◌, IsTrue, IfSome, length, Some, All, map};
ghost use Rattle.pcb_model.specs.Bounds.{IsDesignFit, IsItemFit, IsFit};
ghost use Rattle.pcb_model.specs.Sound.{IsItemOf};
ghost use Rattle.pcb_model.specs.declared.item.Probe.TheVariants as probe;
ghost use Rattle.pcb_model.specs.Rules.{clearance_of};
ghost use Rattle.pcb_model.specs.Pieces.{padstack_pieces as padstack_pieces_of, wire_piece, moved_piece};
ghost use Rattle.move_maps.specs.Clear.{IsOwnPad, WireKeeps, ViaKeeps, StaysOffPad, IsClearOf};

use crate::group::are_alike;
use geo_kernel::Point;
use pcb_model::pieces::{
    chain_keeps_all, meets_vias, meets_wires, moved_keep, moved_touch, padstack_pieces,
};
use pcb_model::{Design, Item, Kind};

/// Whether a wire of these points keeps the clearance `c` from the item, if that is compared with wires.
pub(crate) fn wire_keeps(
    clearance: u64,
    layer: u8,
    width: u64,
    points: &[Point],
    item: &Item,
) -> bool
    requires c_within { clearance ≤ 2 ^ 28 }
    requires p_fit { IsFit (wire_piece layer width points.now) }
    requires item { IsItemFit item.now }
    ensures { IsTrue result ↔ WireKeeps clearance layer width points.now item.now }
{
    if !meets_wires(&item.metal) {
        return true;
    }
    chain_keeps_all(clearance, layer, width, points, item.pieces.as_slice())
}

fn is_own_pad(d: &Design, first: u32, item: &Item) -> bool
    requires first { first < length d.now.nets }
    requires net { IfSome item.now.net (λ n. n < length d.now.nets) }
    ensures { IsTrue result ↔ IsOwnPad d.now first item.now }
{
    match item.net {
        Some(net) => item.kind == Kind::Smd && are_alike(d, first, net),
        None => false,
    }
}

// Whether a via keeps a clearance from the item, if that is compared with vias.
fn via_keeps(d: &Design, clearance: u64, padstack: u32, at: Point, item: &Item) -> bool
    requires c_within { clearance ≤ 2 ^ 28 }
    requires ps_fit { All IsFit (padstack_pieces_of d.now padstack) }
    requires moved_fit { All (λ p. IsFit (moved_piece at p)) (padstack_pieces_of d.now padstack) }
    requires item { IsItemFit item.now }
    ensures { IsTrue result ↔ ViaKeeps d.now clearance padstack at item.now }
{
    if !meets_vias(&item.metal) {
        return true;
    }
    moved_keep(
        clearance,
        padstack_pieces(d, padstack),
        at,
        item.pieces.as_slice(),
    )
}

fn via_stays_off(d: &Design, first: u32, padstack: u32, at: Point, item: &Item) -> bool
    requires first { first < length d.now.nets }
    requires ps_fit { All IsFit (padstack_pieces_of d.now padstack) }
    requires moved_fit { All (λ p. IsFit (moved_piece at p)) (padstack_pieces_of d.now padstack) }
    requires item { IsItemOf d.now item.now }
    ensures { IsTrue result ↔ StaysOffPad d.now first padstack at item.now }
{
    if d.via_at_smd {
        return true;
    }
    if !is_own_pad(d, first, item) {
        return true;
    }
    !moved_touch(padstack_pieces(d, padstack), at, item.pieces.as_slice())
}

/// Whether a via keeps the clearance of the group of net `first` from the item, as if the item were foreign copper, and
/// touches no smd pad of the group, unless the design allows it.
pub(crate) fn is_via_clear(
    d: &Design,
    first: u32,
    clearance: u64,
    padstack: u32,
    at: Point,
    item: &Item,
) -> bool
    requires first { first < length d.now.nets }
    requires design { IsDesignFit d.now }
    requires clearance { clearance ≡ clearance_of d.now (Some first) Kind.Via item.now.net item.now.kind }
    requires moved_fit { All (λ p. IsFit (moved_piece at p)) (padstack_pieces_of d.now padstack) }
    requires item { IsItemOf d.now item.now }
    ensures { IsTrue result ↔ IsClearOf d.now first (probe.Via padstack at) item.now }
{
    if !via_keeps(d, clearance, padstack, at, item) {
        return false;
    }
    via_stays_off(d, first, padstack, at, item)
}
