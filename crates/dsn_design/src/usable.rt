//! Which padstacks may be vias: those with copper on at least two layers, and at the origin on each of them.
//! Source: SPECCTRA reference, padstack descriptor.

ghost use Rattle.std.specs.Prelude.{◌≡◌, ◌≤◌, ◌↔◌, All, Any, IsTrue, map};
ghost use Rattle.pcb_model.specs.Bounds.{IsFit};
ghost use Rattle.pcb_model.specs.Sound.{IsUsable};
ghost use Rattle.pcb_model.specs.declared.item.Piece.{Piece as ThePiece};
ghost use Rattle.dsn_design.specs.Usable.{CoversOn, HasOther, IsCovered, IsElsewhere, origin_spine};

use geo_kernel::{Spine, spine_touch};
use pcb_model::Piece;

fn covers_on(centre: &Spine, layer: u8, p: &Piece) -> bool
    requires centre_is { centre.now ≡ origin_spine }
    requires fit { IsFit p.now }
    ensures { IsTrue result ↔ CoversOn layer p.now }
{
    if p.layer != layer {
        return false;
    }
    spine_touch(centre, &p.spine, p.width)
}

fn is_covered(centre: &Spine, all: &[Piece], p: &Piece) -> bool
    requires centre_is { centre.now ≡ origin_spine }
    requires fit { All IsFit all.now }
    ensures { IsTrue result ↔ IsCovered all.now p.now }
{
    for r in all {
        if covers_on(centre, p.layer, r) {
            return true;
        }
    }
    false
}

fn are_covered(centre: &Spine, all: &[Piece]) -> bool
    requires centre_is { centre.now ≡ origin_spine }
    requires fit { All IsFit all.now }
    ensures { IsTrue result ↔ All (IsCovered all.now) all.now }
{
    for p in all {
        if !is_covered(centre, all, p) {
            return false;
        }
    }
    true
}

fn has_other(all: &[Piece], p: &Piece) -> bool
    ensures { IsTrue result ↔ HasOther all.now p.now }
{
    for r in all {
        if p.layer != r.layer {
            return true;
        }
    }
    false
}

fn has_two_layers(all: &[Piece]) -> bool
    ensures { IsTrue result ↔ Any (HasOther all.now) all.now }
{
    match all {
        [] => false,
        [first, ..] => has_other(all, first),
    }
}

/// Whether these pieces of a padstack have copper on at least two layers, and at the origin on each of them.
pub(crate) fn is_usable(centre: &Spine, pieces: &[Piece]) -> bool
    requires centre_is { centre.now ≡ origin_spine }
    requires fit { All IsFit pieces.now }
    ensures { IsTrue result ↔ IsUsable pieces.now }
{
    has_two_layers(pieces) && are_covered(centre, pieces)
}
