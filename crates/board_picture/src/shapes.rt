//! What is drawn of the pieces of copper: their spines, with the widths that they have and round ends.
//! Source: Scalable Vector Graphics 1.1, paths.

ghost use Rattle.std.specs.Prelude.{◌≡◌, OnOk, flat_map};
ghost use Rattle.ses_writer.specs.Words.{Appends};
ghost use Rattle.board_picture.specs.Shapes.{loop_words, spine_words, piece_shape, shape_on, shapes_on, broad_shape};
ghost use Rattle.board_picture.specs.Shapes.{is_wire, is_via, is_keepout, bans, is_hatched, is_land, leaves_layer};
ghost use Rattle.board_picture.specs.Shapes.{is_through, has_breadth, have_breadth, hole_radius};
ghost use Rattle.board_picture.specs.Shapes.{hole_dot, hole_at, hole_of};

use crate::sheet::narrow_side;
use crate::words::{Part, put_length, put_parts};
use geo_kernel::{List, Point, Spine};
use pcb_model::{Design, Item, Metal, Piece};
use ses_writer::put;
use std::alloc::AllocError;

/// Which hatching a keepout has, by what it bans.
#[derive(Clone, Copy)]
pub(crate) enum Hatch {
    Wires,
    Vias,
    Both,
}

/// The loops of an area.
pub(crate) fn put_loops(out: &mut Vec<u8>, loops: &[List<Point>]) -> Result<(), AllocError>
    ensures { OnOk result (Appends out.old.items out.new.items (flat_map loop_words loops.now)) }
{
    for points in loops {
        let line = Part::Line(points.as_slice());
        put_parts(out, &[Part::Text(b"M"), line, Part::Text(b"z")])?;
    }
    Ok(())
}

#[tactic(auto, unfolding(crate::specs::Shapes::spine_words))]
fn put_spine(out: &mut Vec<u8>, spine: &Spine) -> Result<(), AllocError>
    ensures { OnOk result (Appends out.old.items out.new.items (spine_words spine.now)) }
{
    match spine {
        Spine::Chain(points) => {
            put_parts(
                out,
                &[
                    Part::Text(b"\" fill=\"none\" d=\"M"),
                    Part::Line(points.as_slice()),
                    Part::Text(b"h0\"/>\n"),
                ],
            )
        }
        Spine::Area(loops) => {
            put(out, b"\" d=\"")?;
            put_loops(out, loops.as_slice())?;
            put(out, b"\"/>\n")
        }
    }
}

#[tactic(auto, unfolding(crate::specs::Shapes::piece_shape))]
fn put_piece(out: &mut Vec<u8>, c: &Piece) -> Result<(), AllocError>
    ensures { OnOk result (Appends out.old.items out.new.items (piece_shape c.now)) }
{
    put(out, b"<path stroke-width=\"")?;
    put_length(out, c.width)?;
    put_spine(out, &c.spine)
}

/// All pieces.
pub(crate) fn put_pieces(out: &mut Vec<u8>, pieces: &[Piece]) -> Result<(), AllocError>
    ensures { OnOk result (Appends out.old.items out.new.items (flat_map piece_shape pieces.now)) }
{
    for c in pieces {
        put_piece(out, c)?;
    }
    Ok(())
}

fn has_breadth(c: &Piece) -> bool
    ensures { result ≡ has_breadth c.now }
{
    matches!(c.spine, Spine::Area(_)) || c.width != 0
}

/// Whether they aren't all lines without width.
pub(crate) fn have_breadth(pieces: &[Piece]) -> bool
    ensures { result ≡ have_breadth pieces.now }
{
    for c in pieces {
        if has_breadth(c) {
            return true;
        }
    }
    false
}

fn put_broad_piece(out: &mut Vec<u8>, c: &Piece) -> Result<(), AllocError>
    ensures { OnOk result (Appends out.old.items out.new.items (broad_shape c.now)) }
{
    if has_breadth(c) {
        return put_piece(out, c);
    }
    Ok(())
}

/// All pieces but lines without width.
pub(crate) fn put_broad_pieces(out: &mut Vec<u8>, pieces: &[Piece]) -> Result<(), AllocError>
    ensures { OnOk result (Appends out.old.items out.new.items (flat_map broad_shape pieces.now)) }
{
    for c in pieces {
        put_broad_piece(out, c)?;
    }
    Ok(())
}

fn put_piece_on(out: &mut Vec<u8>, layer: usize, c: &Piece) -> Result<(), AllocError>
    ensures { OnOk result (Appends out.old.items out.new.items (shape_on layer c.now)) }
{
    if usize::from(c.layer) == layer {
        return put_piece(out, c);
    }
    Ok(())
}

/// The pieces on a layer.
pub(crate) fn put_pieces_on(
    out: &mut Vec<u8>,
    layer: usize,
    pieces: &[Piece],
) -> Result<(), AllocError>
    ensures { OnOk result (Appends out.old.items out.new.items (shapes_on layer pieces.now)) }
{
    for c in pieces {
        put_piece_on(out, layer, c)?;
    }
    Ok(())
}

pub(crate) fn is_wire(metal: &Metal) -> bool
    ensures { result ≡ is_wire metal.now }
{
    matches!(metal, Metal::Wire { .. })
}

pub(crate) fn is_via(metal: &Metal) -> bool
    ensures { result ≡ is_via metal.now }
{
    matches!(metal, Metal::Via { .. })
}

fn is_keepout(metal: &Metal) -> bool
    ensures { result ≡ is_keepout metal.now }
{
    matches!(metal, Metal::Ban { .. })
}

fn bans(hatch: Hatch, wires: bool, vias: bool) -> bool
    ensures { result ≡ bans hatch wires vias }
{
    match hatch {
        Hatch::Wires => wires && !vias,
        Hatch::Vias => !wires && vias,
        Hatch::Both => wires && vias,
    }
}

/// Whether it is a keepout that bans just this.
pub(crate) fn is_hatched(hatch: Hatch, metal: &Metal) -> bool
    ensures { result ≡ is_hatched hatch metal.now }
{
    match metal {
        Metal::Ban { wires, vias } => bans(hatch, *wires, *vias),
        _ => false,
    }
}

/// Whether it is a via or the pad of a pin.
pub(crate) fn is_land(metal: &Metal) -> bool
    ensures { result ≡ is_land metal.now }
{
    !is_wire(metal) && !is_keepout(metal)
}

fn leaves_layer(layer: u8, pieces: &[Piece]) -> bool
    ensures { result ≡ leaves_layer layer pieces.now }
{
    for c in pieces {
        if c.layer != layer {
            return true;
        }
    }
    false
}

/// Whether it is a via or pad with copper on two layers or more.
pub(crate) fn is_through(a: &Item) -> bool
    ensures { result ≡ is_through a.now }
{
    is_land(&a.metal)
        && match a.pieces.as_slice() {
            [] => false,
            [c, rest @ ..] => leaves_layer(c.layer, rest),
        }
}

// ---- holes

/// A fifth of the first piece's breadth.
pub(crate) fn hole_radius(pieces: &[Piece]) -> u64
    ensures { result ≡ hole_radius pieces.now }
{
    match pieces {
        [] => 0,
        [c, ..] => match &c.spine {
            Spine::Chain(_) => c.width / 5,
            Spine::Area(loops) => narrow_side(loops.as_slice()) / 5,
        },
    }
}

#[tactic(auto, unfolding(crate::specs::Shapes::hole_dot))]
fn put_dot(out: &mut Vec<u8>, radius: u64, p: &Point) -> Result<(), AllocError>
    ensures { OnOk result (Appends out.old.items out.new.items (hole_dot radius p.now)) }
{
    put_parts(
        out,
        &[
            Part::Text(b"<circle r=\""),
            Part::Length(radius),
            Part::Text(b"\" transform=\"translate("),
            Part::At(*p),
            Part::Text(b")\"/>\n"),
        ],
    )
}

fn put_hole_at(out: &mut Vec<u8>, d: &Design, radius: u64, metal: &Metal) -> Result<(), AllocError>
    ensures { OnOk result (Appends out.old.items out.new.items (hole_at d.now radius metal.now)) }
{
    match metal {
        Metal::Wire { .. } => Ok(()),
        Metal::Via { at, .. } => put_dot(out, radius, at),
        Metal::Pad { pin } => match d.pins.as_slice().get(*pin as usize) {
            Some(p) => put_dot(out, radius, &p.centre),
            None => Ok(()),
        },
        Metal::Ban { .. } => Ok(()),
    }
}

/// The hole of a via or pad on several layers.
pub(crate) fn put_hole(out: &mut Vec<u8>, d: &Design, a: &Item) -> Result<(), AllocError>
    ensures { OnOk result (Appends out.old.items out.new.items (hole_of d.now a.now)) }
{
    if is_through(a) {
        return put_hole_at(out, d, hole_radius(a.pieces.as_slice()), &a.metal);
    }
    Ok(())
}
