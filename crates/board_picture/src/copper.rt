//! Keepouts, the copper of each layer, vias and pads on several layers, and holes.

ghost use Rattle.std.specs.Prelude.{◌≡◌, OnOk, flat_map, length};
ghost use Rattle.ses_writer.specs.Words.{Appends};
ghost use Rattle.board_picture.specs.Shapes.{wire_on, land_on, through_shapes, keepout_shapes, hole_of};
ghost use Rattle.board_picture.specs.Picture.{keepout_group, keepout_groups, layer_name, layer_group, layer_groups};
ghost use Rattle.board_picture.specs.Picture.{through_group, hole_group, copper_part};

use crate::paint::{hatch_paint, put_paint};
use crate::rings::put_ring_group;
use crate::shapes::{
    Hatch, is_hatched, is_land, is_through, is_wire, put_broad_pieces, put_hole, put_pieces,
    put_pieces_on,
};
use crate::words::{Part, put_parts};
use pcb_model::{Design, Item};
use ses_writer::put;
use std::alloc::AllocError;

// ---- keepouts

fn put_keepout(out: &mut Vec<u8>, hatch: Hatch, a: &Item) -> Result<(), AllocError>
    ensures { OnOk result (Appends out.old.items out.new.items (keepout_shapes hatch a.now)) }
{
    if is_hatched(hatch, &a.metal) {
        return put_broad_pieces(out, a.pieces.as_slice());
    }
    Ok(())
}

fn put_keepouts(out: &mut Vec<u8>, hatch: Hatch, items: &[Item]) -> Result<(), AllocError>
    ensures { OnOk result (Appends out.old.items out.new.items (flat_map (keepout_shapes hatch) items.now)) }
{
    for a in items {
        put_keepout(out, hatch, a)?;
    }
    Ok(())
}

#[tactic(auto, unfolding(crate::specs::Picture::keepout_group))]
fn put_keepout_group(out: &mut Vec<u8>, hatch: Hatch, items: &[Item]) -> Result<(), AllocError>
    ensures { OnOk result (Appends out.old.items out.new.items (keepout_group hatch items.now)) }
{
    put_parts(
        out,
        &[
            Part::Text(b"<g class=\"keepouts\""),
            Part::Text(hatch_paint(hatch)),
            Part::Text(b">\n"),
        ],
    )?;
    put_keepouts(out, hatch, items)?;
    put(out, b"</g>\n")
}

#[tactic(auto, unfolding(crate::specs::Picture::keepout_groups))]
fn put_keepout_groups(out: &mut Vec<u8>, items: &[Item]) -> Result<(), AllocError>
    ensures { OnOk result (Appends out.old.items out.new.items (keepout_groups items.now)) }
{
    put_keepout_group(out, Hatch::Wires, items)?;
    put_keepout_group(out, Hatch::Vias, items)?;
    put_keepout_group(out, Hatch::Both, items)
}

// ---- layers

fn put_wire(out: &mut Vec<u8>, layer: usize, a: &Item) -> Result<(), AllocError>
    ensures { OnOk result (Appends out.old.items out.new.items (wire_on layer a.now)) }
{
    if is_wire(&a.metal) {
        return put_pieces_on(out, layer, a.pieces.as_slice());
    }
    Ok(())
}

fn put_wires(out: &mut Vec<u8>, layer: usize, items: &[Item]) -> Result<(), AllocError>
    ensures { OnOk result (Appends out.old.items out.new.items (flat_map (wire_on layer) items.now)) }
{
    for a in items {
        put_wire(out, layer, a)?;
    }
    Ok(())
}

fn put_land(out: &mut Vec<u8>, layer: usize, a: &Item) -> Result<(), AllocError>
    ensures { OnOk result (Appends out.old.items out.new.items (land_on layer a.now)) }
{
    if is_land(&a.metal) && !is_through(a) {
        return put_pieces_on(out, layer, a.pieces.as_slice());
    }
    Ok(())
}

fn put_lands(out: &mut Vec<u8>, layer: usize, items: &[Item]) -> Result<(), AllocError>
    ensures { OnOk result (Appends out.old.items out.new.items (flat_map (land_on layer) items.now)) }
{
    for a in items {
        put_land(out, layer, a)?;
    }
    Ok(())
}

fn layer_name(d: &Design, layer: usize) -> &[u8]
    ensures { result.now ≡ layer_name d.now layer }
{
    match d.layers.as_slice().get(layer) {
        Some(l) => l.name.as_slice(),
        None => &[],
    }
}

#[tactic(auto, unfolding(crate::specs::Picture::layer_group))]
fn put_layer_group(
    out: &mut Vec<u8>,
    d: &Design,
    items: &[Item],
    layer: usize,
) -> Result<(), AllocError>
    ensures { OnOk result (Appends out.old.items out.new.items (layer_group d.now items.now layer)) }
{
    put_parts(
        out,
        &[
            Part::Text(b"<g id=\""),
            Part::Name(layer_name(d, layer)),
            Part::Text(b"\""),
        ],
    )?;
    put_paint(out, layer)?;
    put(out, b">\n")?;
    put_wires(out, layer, items)?;
    put_lands(out, layer, items)?;
    put(out, b"</g>\n")
}

// From the last layer up to the first.
fn put_layer_groups(out: &mut Vec<u8>, d: &Design, items: &[Item]) -> Result<(), AllocError>
    ensures { OnOk result (Appends out.old.items out.new.items (layer_groups d.now items.now (length d.now.layers))) }
{
    let mut layer = d.layers.len();
    while layer > 0 {
        layer -= 1;
        put_layer_group(out, d, items, layer)?;
    }
    Ok(())
}

// ---- vias and pads on several layers, and holes

fn put_through(out: &mut Vec<u8>, a: &Item) -> Result<(), AllocError>
    ensures { OnOk result (Appends out.old.items out.new.items (through_shapes a.now)) }
{
    if is_through(a) {
        return put_pieces(out, a.pieces.as_slice());
    }
    Ok(())
}

fn put_throughs(out: &mut Vec<u8>, items: &[Item]) -> Result<(), AllocError>
    ensures { OnOk result (Appends out.old.items out.new.items (flat_map through_shapes items.now)) }
{
    for a in items {
        put_through(out, a)?;
    }
    Ok(())
}

#[tactic(auto, unfolding(crate::specs::Picture::through_group))]
fn put_through_group(out: &mut Vec<u8>, items: &[Item]) -> Result<(), AllocError>
    ensures { OnOk result (Appends out.old.items out.new.items (through_group items.now)) }
{
    put(
        out,
        b"<g class=\"through\" fill=\"#000\" stroke=\"#000\" opacity=\"0.85\">\n",
    )?;
    put_throughs(out, items)?;
    put(out, b"</g>\n")
}

fn put_holes(out: &mut Vec<u8>, d: &Design, items: &[Item]) -> Result<(), AllocError>
    ensures { OnOk result (Appends out.old.items out.new.items (flat_map (hole_of d.now) items.now)) }
{
    for a in items {
        put_hole(out, d, a)?;
    }
    Ok(())
}

#[tactic(auto, unfolding(crate::specs::Picture::hole_group))]
fn put_hole_group(out: &mut Vec<u8>, d: &Design, items: &[Item]) -> Result<(), AllocError>
    ensures { OnOk result (Appends out.old.items out.new.items (hole_group d.now items.now)) }
{
    put(out, b"<g class=\"holes\" fill=\"#fff\">\n")?;
    put_holes(out, d, items)?;
    put(out, b"</g>\n")
}

/// Keepouts, the layers, what lies on several of them, and then the holes.
#[tactic(auto, unfolding(crate::specs::Picture::copper_part))]
pub(crate) fn put_copper(out: &mut Vec<u8>, d: &Design, items: &[Item]) -> Result<(), AllocError>
    ensures { OnOk result (Appends out.old.items out.new.items (copper_part d.now items.now)) }
{
    put_keepout_groups(out, items)?;
    put_layer_groups(out, d, items)?;
    put_through_group(out, items)?;
    put_ring_group(out, d, items)?;
    put_hole_group(out, d, items)
}
