//! The pair rule: when two items agree, and when they touch.
//! Source: SPECCTRA reference, clearance and control descriptors.

ghost use Rattle.std.specs.Prelude.{◌≡◌, ◌+◌, ◌≤◌, ◌^◌, ◌↔◌, IsTrue, true, All};
ghost use Rattle.pcb_model.specs.Bounds.{HasRulesWithin, IsFit, IsItemFit};
ghost use Rattle.pcb_model.specs.Rules.{value_of, clearance_of};
ghost use Rattle.pcb_model.specs.Pairs.{PieceKeeps, KeepsFrom, TouchesSome, PiecesKeep, PieceTouches, PiecesTouch};
ghost use Rattle.pcb_model.specs.Pairs.{is_same_net, is_banned as is_banned_by, is_compared as are_compared};
ghost use Rattle.pcb_model.specs.Pairs.{must_keep as must_keep_of, must_stay_off as must_stay_off_of};
ghost use Rattle.pcb_model.specs.Pairs.{Agrees, AreTouching};

use crate::rules::{clearance_from, same_pair, value};
use crate::{Design, Item, Kind, Metal, Piece, Steps};
use geo_kernel::{spine_keeps, spine_touch};
use std::sync::ledger::Ledger;

fn piece_keeps(c: u64, p: &Piece, r: &Piece) -> bool
    requires c_within { c ≤ 2 ^ 28 }
    requires p_fit { IsFit p.now }
    requires r_fit { IsFit r.now }
    ensures { IsTrue result ↔ PieceKeeps c p.now r.now }
{
    if p.layer != r.layer {
        return true;
    }
    spine_keeps(&p.spine, &r.spine, (2 * c + p.width + r.width).max(1))
}

fn keeps_all(c: u64, p: &Piece, rs: &[Piece]) -> bool
    requires c_within { c ≤ 2 ^ 28 }
    requires p_fit { IsFit p.now }
    requires rs_fit { All IsFit rs.now }
    ensures { IsTrue result ↔ KeepsFrom c rs.now p.now }
{
    for r in rs {
        if !piece_keeps(c, p, r) {
            return false;
        }
    }
    true
}

fn pieces_keep(c: u64, ps: &[Piece], rs: &[Piece]) -> bool
    requires c_within { c ≤ 2 ^ 28 }
    requires ps_fit { All IsFit ps.now }
    requires rs_fit { All IsFit rs.now }
    ensures { IsTrue result ↔ PiecesKeep c ps.now rs.now }
{
    for p in ps {
        if !keeps_all(c, p, rs) {
            return false;
        }
    }
    true
}

fn piece_touches(p: &Piece, r: &Piece) -> bool
    requires p_fit { IsFit p.now }
    requires r_fit { IsFit r.now }
    ensures { IsTrue result ↔ PieceTouches p.now r.now }
{
    p.layer == r.layer && spine_touch(&p.spine, &r.spine, p.width + r.width)
}

fn touches_some(p: &Piece, rs: &[Piece]) -> bool
    requires p_fit { IsFit p.now }
    requires rs_fit { All IsFit rs.now }
    ensures { IsTrue result ↔ TouchesSome rs.now p.now }
{
    for r in rs {
        if piece_touches(p, r) {
            return true;
        }
    }
    false
}

fn pieces_touch(ps: &[Piece], rs: &[Piece]) -> bool
    requires ps_fit { All IsFit ps.now }
    requires rs_fit { All IsFit rs.now }
    ensures { IsTrue result ↔ PiecesTouch ps.now rs.now }
{
    for p in ps {
        if touches_some(p, rs) {
            return true;
        }
    }
    false
}

/// Whether the items have pieces on one layer that touch.
pub fn touch(a: &Item, b: &Item) -> bool
    requires a_fits { IsItemFit a.now }
    requires b_fits { IsItemFit b.now }
    ensures { IsTrue result ↔ PiecesTouch a.now.pieces b.now.pieces }
{
    pieces_touch(a.pieces.as_slice(), b.pieces.as_slice())
}

/// Whether the two are one net: copper without a net has none in common.
pub fn same_net(a: Option<u32>, b: Option<u32>) -> bool
    ensures { result ≡ is_same_net a b }
{
    match (a, b) {
        (Some(x), Some(y)) => x == y,
        _ => false,
    }
}

/// Whether two items of one net touch.
pub fn are_touching(a: &Item, b: &Item) -> bool
    requires a_fits { IsItemFit a.now }
    requires b_fits { IsItemFit b.now }
    ensures { IsTrue result ↔ AreTouching a.now b.now }
{
    same_net(a.net, b.net) && touch(a, b)
}

fn is_banned(wires: bool, vias: bool, m: &Metal) -> bool
    ensures { result ≡ is_banned_by wires vias m.now }
{
    match m {
        Metal::Wire { .. } => wires,
        Metal::Via { .. } => vias,
        _ => false,
    }
}

fn is_compared(a: &Metal, b: &Metal) -> bool
    ensures { result ≡ are_compared a.now b.now }
{
    match a {
        Metal::Ban { wires, vias } => is_banned(*wires, *vias, b),
        _ => match b {
            Metal::Ban { wires, vias } => is_banned(*wires, *vias, a),
            _ => true,
        },
    }
}

fn must_keep(a: &Item, b: &Item) -> bool
    ensures { result ≡ must_keep_of a.now b.now }
{
    !same_net(a.net, b.net) && is_compared(&a.metal, &b.metal)
}

// `own` is the value of the net of `a` for their kinds.
fn keeps(d: &Design, own: u64, a: &Item, b: &Item) -> bool
    requires rules { HasRulesWithin (2 ^ 28) d.now }
    requires own_is { own ≡ value_of d.now a.now.net a.now.kind b.now.kind }
    requires a_fits { All IsFit a.now.pieces }
    requires b_fits { All IsFit b.now.pieces }
    ensures { IsTrue result
        ↔ (must_keep_of a.now b.now ≡ true
        → PiecesKeep (clearance_of d.now a.now.net a.now.kind b.now.net b.now.kind) a.now.pieces b.now.pieces) }
{
    if must_keep(a, b) {
        let c = clearance_from(d, own, a.net, a.kind, b.net, b.kind);
        pieces_keep(c, a.pieces.as_slice(), b.pieces.as_slice())
    } else {
        true
    }
}

fn stays_off(d: &Design, a: &Item, b: &Item) -> bool
    requires a_fits { All IsFit a.now.pieces }
    requires b_fits { All IsFit b.now.pieces }
    ensures { IsTrue result ↔ (must_stay_off_of d.now a.now b.now ≡ true → ¬ (PiecesTouch a.now.pieces b.now.pieces)) }
{
    if !d.via_at_smd && same_net(a.net, b.net) && same_pair(a.kind, b.kind, Kind::Via, Kind::Smd) {
        !pieces_touch(a.pieces.as_slice(), b.pieces.as_slice())
    } else {
        true
    }
}

/// The pair rule where `own`, the value of the net of `a` for their kinds, is known.
pub(crate) fn pair_agrees(d: &Design, own: u64, a: &Item, b: &Item) -> bool
    requires rules { HasRulesWithin (2 ^ 28) d.now }
    requires own_is { own ≡ value_of d.now a.now.net a.now.kind b.now.kind }
    requires a_fits { All IsFit a.now.pieces }
    requires b_fits { All IsFit b.now.pieces }
    ensures { IsTrue result ↔ Agrees d.now a.now b.now }
{
    keeps(d, own, a, b) && stays_off(d, a, b)
}

/// Whether two items agree: on each layer their pieces keep the clearance of their nets and kinds,
/// but for pieces of one net and for what a ban doesn't ban; and a via doesn't touch an smd pad of
/// its own net, unless the design allows it. No step is counted.
pub fn agree(d: &Design, a: &Item, b: &Item) -> bool
    requires rules { HasRulesWithin (2 ^ 28) d.now }
    requires a_fits { IsItemFit a.now }
    requires b_fits { IsItemFit b.now }
    ensures { IsTrue result ↔ Agrees d.now a.now b.now }
{
    pair_agrees(d, value(d, a.net, a.kind, b.kind), a, b)
}

/// Whether two items agree, as `agree` says. One step.
pub fn pair_ok<L: Ledger>(d: &Design, a: &Item, b: &Item, steps: &mut Steps<L>) -> bool
    requires rules { HasRulesWithin (2 ^ 28) d.now }
    requires a_fits { IsItemFit a.now }
    requires b_fits { IsItemFit b.now }
    ensures says { IsTrue result ↔ Agrees d.now a.now b.now }
    ensures cost { steps.new ≡ steps.old + 1 }
{
    steps.tick();
    agree(d, a, b)
}
