//! Probes: wires of one or two points, and vias, that are judged before any item is made.
//! Nothing here takes memory.

ghost use Rattle.std.specs.Prelude.{◌≡◌, ◌+◌, ◌^◌, ◌↔◌, IsTrue, true, false, not, ◌&&◌, Some, All, map};
ghost use Rattle.geo_kernel.specs.Plane.{IsWithin};
ghost use Rattle.geo_kernel.specs.Spine.{IsFirst};
ghost use Rattle.pcb_model.specs.Bounds.{IsDesignFit, IsItemFit, IsFit, IsBoundFit, IsProbeFit};
ghost use Rattle.pcb_model.specs.Rules.{value_of, clearance_of, is_kind};
ghost use Rattle.pcb_model.specs.Pairs.{meets_wires as meet_wires, meets_vias as meet_vias};
ghost use Rattle.pcb_model.specs.Pairs.{is_same_net, PiecesKeep, PiecesTouch, Agrees, ProbeAgrees};
ghost use Rattle.pcb_model.specs.Pieces.{padstack_pieces as padstack_pieces_of, wire_piece, moved_piece, pieces_of};
ghost use Rattle.pcb_model.specs.Pieces.{metal_of, kind_of, item_of};
ghost use Rattle.pcb_model.specs.Board.{AreInside};

use crate::legal::inside_each;
use crate::pair::same_net;
use crate::pieces::{
    chain_keeps_all, meets_vias, meets_wires, moved_keep, moved_touch, padstack_pieces,
};
use crate::rules::{clearance_from, same_kind, value};
use crate::{Design, Item, Kind, Metal, Piece, Probe, Steps};
use geo_kernel::{List, Point, first_point};
use std::sync::ledger::Ledger;

fn wire_must_keep(net: u32, b: &Item) -> bool
    ensures { result ≡ (not (is_same_net (Some net) b.now.net) && meet_wires b.now.metal) }
{
    !same_net(Some(net), b.net) && meets_wires(&b.metal)
}

fn via_must_keep(net: u32, b: &Item) -> bool
    ensures { result ≡ (not (is_same_net (Some net) b.now.net) && meet_vias b.now.metal) }
{
    !same_net(Some(net), b.net) && meets_vias(&b.metal)
}

fn wire_ok(
    d: &Design,
    own: u64,
    net: u32,
    layer: u8,
    width: u64,
    points: &[Point],
    b: &Item,
) -> bool
    requires design { IsDesignFit d.now }
    requires own_is { own ≡ value_of d.now (Some net) Kind.Wire b.now.kind }
    requires p_fit { IsFit (wire_piece layer width points.now) }
    requires b_fits { IsItemFit b.now }
    ensures { IsTrue result ↔ Agrees d.now (item_of d.now 0 (Some net) false (Metal.Wire layer width points.now))
        b.now }
{
    if wire_must_keep(net, b) {
        let c = clearance_from(d, own, Some(net), Kind::Wire, b.net, b.kind);
        chain_keeps_all(c, layer, width, points, b.pieces.as_slice())
    } else {
        true
    }
}

fn via_keeps(d: &Design, own: u64, net: u32, ps: &[Piece], at: Point, b: &Item) -> bool
    requires design { IsDesignFit d.now }
    requires own_is { own ≡ value_of d.now (Some net) Kind.Via b.now.kind }
    requires ps_fit { All IsFit ps.now }
    requires moved_fit { All (λ p. IsFit (moved_piece at p)) ps.now }
    requires b_fits { IsItemFit b.now }
    ensures { IsTrue result
        ↔ ((not (is_same_net (Some net) b.now.net) && meet_vias b.now.metal) ≡ true
        → PiecesKeep (clearance_of d.now (Some net) Kind.Via b.now.net b.now.kind) (map (moved_piece at) ps.now)
        b.now.pieces) }
{
    if via_must_keep(net, b) {
        let c = clearance_from(d, own, Some(net), Kind::Via, b.net, b.kind);
        moved_keep(c, ps, at, b.pieces.as_slice())
    } else {
        true
    }
}

fn via_stays_off(d: &Design, net: u32, ps: &[Piece], at: Point, b: &Item) -> bool
    requires ps_fit { All IsFit ps.now }
    requires moved_fit { All (λ p. IsFit (moved_piece at p)) ps.now }
    requires b_fits { IsItemFit b.now }
    ensures { IsTrue result
        ↔ ((not d.now.via_at_smd && is_same_net (Some net) b.now.net && is_kind b.now.kind Kind.Smd) ≡ true
        → ¬ (PiecesTouch (map (moved_piece at) ps.now) b.now.pieces)) }
{
    if !d.via_at_smd && same_net(Some(net), b.net) && same_kind(b.kind, Kind::Smd) {
        !moved_touch(ps, at, b.pieces.as_slice())
    } else {
        true
    }
}

fn via_ok(d: &Design, own: u64, net: u32, padstack: u32, at: Point, b: &Item) -> bool
    requires design { IsDesignFit d.now }
    requires own_is { own ≡ value_of d.now (Some net) Kind.Via b.now.kind }
    requires ps_fit { All IsFit (padstack_pieces_of d.now padstack) }
    requires moved_fit { All (λ p. IsFit (moved_piece at p)) (padstack_pieces_of d.now padstack) }
    requires b_fits { IsItemFit b.now }
    ensures { IsTrue result ↔ Agrees d.now (item_of d.now 0 (Some net) false (Metal.Via padstack at)) b.now }
{
    let ps = padstack_pieces(d, padstack);
    via_keeps(d, own, net, ps, at, b) && via_stays_off(d, net, ps, at, b)
}

// The kind of what a probe stands for.
pub(crate) fn probe_kind(p: &Probe) -> Kind
    ensures { result ≡ kind_of (metal_of p.now) }
{
    match *p {
        Probe::Disc { .. } | Probe::Step { .. } => Kind::Wire,
        Probe::Via { .. } => Kind::Via,
    }
}

/// The pair rule for a probe where `own`, the value of its net for their kinds, is known.
pub(crate) fn probe_agrees(d: &Design, own: u64, net: u32, p: &Probe, b: &Item) -> bool
    requires design { IsDesignFit d.now }
    requires own_is { own ≡ value_of d.now (Some net) (kind_of (metal_of p.now)) b.now.kind }
    requires p_fits { IsProbeFit d.now p.now }
    requires b_fits { IsItemFit b.now }
    ensures { IsTrue result ↔ ProbeAgrees d.now net p.now b.now }
{
    match *p {
        Probe::Disc { layer, width, at } => wire_ok(d, own, net, layer, width, &[at], b),
        Probe::Step {
            layer,
            width,
            a,
            b: end,
        } => wire_ok(d, own, net, layer, width, &[a, end], b),
        Probe::Via { padstack, at } => via_ok(d, own, net, padstack, at, b),
    }
}

/// Whether the item that a probe of the net stands for agrees with `b`, as `pair_ok` says: a disc is a wire
/// of one point, a step a wire of two. One step, and no memory.
pub fn probe_ok<L: Ledger>(d: &Design, net: u32, p: &Probe, b: &Item, steps: &mut Steps<L>) -> bool
    requires design { IsDesignFit d.now }
    requires p_fits { IsProbeFit d.now p.now }
    requires b_fits { IsItemFit b.now }
    ensures says { IsTrue result ↔ ProbeAgrees d.now net p.now b.now }
    ensures cost { steps.new ≡ steps.old + 1 }
{
    steps.tick();
    probe_agrees(d, value(d, Some(net), probe_kind(p), b.kind), net, p, b)
}

fn moved_first(p: &Piece, by: Point) -> Point
    requires p_fit { IsFit p.now }
    requires moved_fit { IsFit (moved_piece by p.now) }
    ensures first { IsFirst (moved_piece by p.now).spine result }
    ensures within { IsWithin (2 ^ 29) result }
{
    let first = first_point(&p.spine);
    Point {
        x: first.x + by.x,
        y: first.y + by.y,
    }
}

fn moved_are_inside(ps: &[Piece], by: Point, bounds: &[List<List<Point>>]) -> bool
    requires ps_fit { All IsFit ps.now }
    requires moved_fit { All (λ p. IsFit (moved_piece by p)) ps.now }
    requires bounds_fit { All IsBoundFit bounds.now }
    ensures { IsTrue result ↔ AreInside bounds.now (map (moved_piece by) ps.now) }
{
    for p in ps {
        if !inside_each(moved_first(p, by), bounds) {
            return false;
        }
    }
    true
}

/// Whether the first vertex of each spine of what the probe stands for lies inside every boundary.
pub fn probe_inside(d: &Design, p: &Probe) -> bool
    requires design { IsDesignFit d.now }
    requires p_fits { IsProbeFit d.now p.now }
    ensures { IsTrue result ↔ AreInside d.now.bounds (pieces_of d.now (metal_of p.now)) }
{
    match *p {
        Probe::Disc {
            layer: _layer,
            width: _width,
            at,
        } => inside_each(at, d.bounds.as_slice()),
        Probe::Step {
            layer: _layer,
            width: _width,
            a,
            b: _end,
        } => inside_each(a, d.bounds.as_slice()),
        Probe::Via { padstack, at } => moved_are_inside(
            padstack_pieces(d, padstack),
            at,
            d.bounds.as_slice(),
        ),
    }
}
