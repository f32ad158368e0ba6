//! Tests of pieces of which no item is made: of a wire's chain, and of a padstack's pieces at a via's place.
//! The clearance is given, in nm. Nothing here takes memory.

ghost use Rattle.std.specs.Prelude.{◌≡◌, ◌≤◌, ◌^◌, ◌↔◌, IsTrue, All, map};
ghost use Rattle.pcb_model.specs.Bounds.{IsFit};
ghost use Rattle.pcb_model.specs.Pairs.{PieceKeeps, KeepsFrom, PiecesKeep, PieceTouches, TouchesSome, PiecesTouch};
ghost use Rattle.pcb_model.specs.Pairs.{meets_wires as meet_wires, meets_vias as meet_vias};
ghost use Rattle.pcb_model.specs.Pieces.{padstack_pieces as padstack_pieces_of, wire_piece, moved_piece};

use crate::{Design, Metal, Piece};
use geo_kernel::{Point, points_keep, spine_keeps_moved, spine_touch_moved};

/// Whether wires are compared with the metal: all but bans that don't ban wires.
pub fn meets_wires(m: &Metal) -> bool
    ensures { result ≡ meet_wires m.now }
{
    match m {
        Metal::Ban { wires, .. } => *wires,
        _ => true,
    }
}

/// Whether vias are compared with the metal: all but bans that don't ban vias.
pub fn meets_vias(m: &Metal) -> bool
    ensures { result ≡ meet_vias m.now }
{
    match m {
        Metal::Ban { vias, .. } => *vias,
        _ => true,
    }
}

/// The pieces of a padstack, about the origin: none where the design has no such padstack.
pub fn padstack_pieces(d: &Design, padstack: u32) -> &[Piece]
    ensures { result.now ≡ padstack_pieces_of d.now padstack }
{
    match d.padstacks.as_slice().get(padstack as usize) {
        Some(stack) => stack.pieces.as_slice(),
        None => &[],
    }
}

fn chain_keeps(c: u64, layer: u8, width: u64, points: &[Point], r: &Piece) -> bool
    requires c_within { c ≤ 2 ^ 28 }
    requires p_fit { IsFit (wire_piece layer width points.now) }
    requires r_fit { IsFit r.now }
    ensures { IsTrue result ↔ PieceKeeps c (wire_piece layer width points.now) r.now }
{
    if layer != r.layer {
        return true;
    }
    points_keep(points, &r.spine, (2 * c + width + r.width).max(1))
}

/// Whether a wire of these points on this layer keeps the clearance `c`, in nm, from each of the pieces.
pub fn chain_keeps_all(c: u64, layer: u8, width: u64, points: &[Point], rs: &[Piece]) -> bool
    requires c_within { c ≤ 2 ^ 28 }
    requires p_fit { IsFit (wire_piece layer width points.now) }
    requires rs_fit { All IsFit rs.now }
    ensures { IsTrue result ↔ KeepsFrom c rs.now (wire_piece layer width points.now) }
{
    for r in rs {
        if !chain_keeps(c, layer, width, points, r) {
            return false;
        }
    }
    true
}

fn moved_piece_keeps(c: u64, p: &Piece, by: Point, r: &Piece) -> bool
    requires c_within { c ≤ 2 ^ 28 }
    requires p_fit { IsFit p.now }
    requires moved_fit { IsFit (moved_piece by p.now) }
    requires r_fit { IsFit r.now }
    ensures { IsTrue result ↔ PieceKeeps c (moved_piece by p.now) r.now }
{
    if p.layer != r.layer {
        return true;
    }
    spine_keeps_moved(&p.spine, by, &r.spine, (2 * c + p.width + r.width).max(1))
}

fn moved_keeps_all(c: u64, p: &Piece, by: Point, rs: &[Piece]) -> bool
    requires c_within { c ≤ 2 ^ 28 }
    requires p_fit { IsFit p.now }
    requires moved_fit { IsFit (moved_piece by p.now) }
    requires rs_fit { All IsFit rs.now }
    ensures { IsTrue result ↔ KeepsFrom c rs.now (moved_piece by p.now) }
{
    for r in rs {
        if !moved_piece_keeps(c, p, by, r) {
            return false;
        }
    }
    true
}

/// Whether the pieces of `ps`, each moved by the vector `by`, keep the clearance `c`, in nm, from all of `rs`.
pub fn moved_keep(c: u64, ps: &[Piece], by: Point, rs: &[Piece]) -> bool
    requires c_within { c ≤ 2 ^ 28 }
    requires ps_fit { All IsFit ps.now }
    requires moved_fit { All (λ p. IsFit (moved_piece by p)) ps.now }
    requires rs_fit { All IsFit rs.now }
    ensures { IsTrue result ↔ PiecesKeep c (map (moved_piece by) ps.now) rs.now }
{
    for p in ps {
        if !moved_keeps_all(c, p, by, rs) {
            return false;
        }
    }
    true
}

fn moved_piece_touches(p: &Piece, by: Point, r: &Piece) -> bool
    requires p_fit { IsFit p.now }
    requires moved_fit { IsFit (moved_piece by p.now) }
    requires r_fit { IsFit r.now }
    ensures { IsTrue result ↔ PieceTouches (moved_piece by p.now) r.now }
{
    p.layer == r.layer && spine_touch_moved(&p.spine, by, &r.spine, p.width + r.width)
}

fn moved_touches_some(p: &Piece, by: Point, rs: &[Piece]) -> bool
    requires p_fit { IsFit p.now }
    requires moved_fit { IsFit (moved_piece by p.now) }
    requires rs_fit { All IsFit rs.now }
    ensures { IsTrue result ↔ TouchesSome rs.now (moved_piece by p.now) }
{
    for r in rs {
        if moved_piece_touches(p, by, r) {
            return true;
        }
    }
    false
}

/// Whether some piece of `ps`, moved by the vector `by`, touches some of `rs`.
pub fn moved_touch(ps: &[Piece], by: Point, rs: &[Piece]) -> bool
    requires ps_fit { All IsFit ps.now }
    requires moved_fit { All (λ p. IsFit (moved_piece by p)) ps.now }
    requires rs_fit { All IsFit rs.now }
    ensures { IsTrue result ↔ PiecesTouch (map (moved_piece by) ps.now) rs.now }
{
    for p in ps {
        if moved_touches_some(p, by, rs) {
            return true;
        }
    }
    false
}
