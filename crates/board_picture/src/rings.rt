//! The rings of vias, round their holes: a via through the whole board has one of their own colour, another one two, in
//! the colours of its first and its last layer.

ghost use Rattle.std.specs.Prelude.{◌≡◌, ◌≤◌, OnOk, flat_map};
ghost use Rattle.ses_writer.specs.Words.{Appends};
ghost use Rattle.board_picture.specs.Rings.{first_layer, last_layer, spans_board, ring, through_ring, blind_rings};
ghost use Rattle.board_picture.specs.Rings.{rings_at, rings_of, via_colour};
ghost use Rattle.board_picture.specs.Picture.{ring_group};

use crate::paint::colour;
use crate::shapes::hole_radius;
use crate::words::{Part, put_parts};
use geo_kernel::Point;
use pcb_model::{Design, Item, Metal, Piece};
use ses_writer::put;
use std::alloc::AllocError;

/// The colour of vias through the whole board.
const VIA_COLOUR: &[u8] = b"#7FFF00";

fn first_layer(pieces: &[Piece]) -> u8
    ensures { result ≡ first_layer pieces.now }
{
    let mut layer = 255u8;
    for c in pieces {
        layer = layer.min(c.layer);
    }
    layer
}

fn last_layer(pieces: &[Piece]) -> u8
    ensures { result ≡ last_layer pieces.now }
{
    let mut layer = 0u8;
    for c in pieces {
        layer = layer.max(c.layer);
    }
    layer
}

/// Whether the pieces reach from the first of so many layers to the last.
pub(crate) fn spans_board(layers: usize, pieces: &[Piece]) -> bool
    ensures { result ≡ spans_board layers pieces.now }
{
    first_layer(pieces) == 0 && usize::from(last_layer(pieces)) + 1 == layers
}

#[tactic(auto, unfolding(crate::specs::Rings::ring))]
fn put_ring(
    out: &mut Vec<u8>,
    p: Point,
    radius: u64,
    width: u64,
    colour: &[u8],
) -> Result<(), AllocError>
    ensures { OnOk result (Appends out.old.items out.new.items (ring p radius width colour.now)) }
{
    put_parts(
        out,
        &[
            Part::Text(b"<circle r=\""),
            Part::Length(radius),
            Part::Text(b"\" stroke-width=\""),
            Part::Length(width),
            Part::Text(b"\" stroke=\""),
            Part::Text(colour),
            Part::Text(b"\" transform=\"translate("),
            Part::At(p),
            Part::Text(b")\"/>\n"),
        ],
    )
}

#[tactic(auto, unfolding(crate::specs::Rings::blind_rings))]
fn put_blind_rings(
    out: &mut Vec<u8>,
    p: Point,
    radius: u64,
    pieces: &[Piece],
) -> Result<(), AllocError>
    ensures { OnOk result (Appends out.old.items out.new.items (blind_rings p radius pieces.now)) }
{
    let first = colour(usize::from(first_layer(pieces)) % 8);
    let last = colour(usize::from(last_layer(pieces)) % 8);
    put_ring(out, p, radius, radius, first)?;
    put_ring(out, p, radius, radius / 2, last)
}

fn put_rings_at(
    out: &mut Vec<u8>,
    layers: usize,
    pieces: &[Piece],
    p: Point,
) -> Result<(), AllocError>
    ensures { OnOk result (Appends out.old.items out.new.items (rings_at layers pieces.now p)) }
{
    let radius = hole_radius(pieces);
    if spans_board(layers, pieces) {
        return put_ring(out, p, radius, radius, VIA_COLOUR);
    }
    put_blind_rings(out, p, radius, pieces)
}

fn put_rings(out: &mut Vec<u8>, d: &Design, a: &Item) -> Result<(), AllocError>
    ensures { OnOk result (Appends out.old.items out.new.items (rings_of d.now a.now)) }
{
    match &a.metal {
        Metal::Via { at, .. } => put_rings_at(out, d.layers.len(), a.pieces.as_slice(), *at),
        _ => Ok(()),
    }
}

fn put_all_rings(out: &mut Vec<u8>, d: &Design, items: &[Item]) -> Result<(), AllocError>
    ensures { OnOk result (Appends out.old.items out.new.items (flat_map (rings_of d.now) items.now)) }
{
    for a in items {
        put_rings(out, d, a)?;
    }
    Ok(())
}

/// The rings of all vias.
#[tactic(auto, unfolding(crate::specs::Picture::ring_group))]
pub(crate) fn put_ring_group(
    out: &mut Vec<u8>,
    d: &Design,
    items: &[Item],
) -> Result<(), AllocError>
    ensures { OnOk result (Appends out.old.items out.new.items (ring_group d.now items.now)) }
{
    put(out, b"<g class=\"vias\" fill=\"none\">\n")?;
    put_all_rings(out, d, items)?;
    put(out, b"</g>\n")
}
