//! The placement of a session: its scale and its components.
//! Source: SPECCTRA reference, placement descriptor.

ghost use Rattle.std.specs.Prelude.{◌≡◌, ◌<◌, ◌++◌, OnOk, codes};
ghost use Rattle.ses_writer.specs.Words.{Appends};
ghost use Rattle.ses_writer.specs.Session.{unit_word, resolution_line, side_words, place_line};
ghost use Rattle.ses_writer.specs.Session.{image_change, places_after, component_lines};

use crate::words::{put, put_degrees, put_framed, put_placed, put_whole};
use geo_kernel::Unit;
use pcb_model::{Component, SesScale};
use std::alloc::AllocError;

// The front of the line, with the unit.
fn put_unit(out: &mut Vec<u8>, unit: Unit) -> Result<(), AllocError>
    ensures { OnOk result (Appends out.old.items out.new.items
        (codes "    (resolution " ++ unit_word unit ++ codes " ")) }
{
    match unit {
        Unit::Inch => put(out, b"    (resolution inch "),
        Unit::Mil => put(out, b"    (resolution mil "),
        Unit::Cm => put(out, b"    (resolution cm "),
        Unit::Mm => put(out, b"    (resolution mm "),
        Unit::Um => put(out, b"    (resolution um "),
    }
}

#[tactic(auto, unfolding(crate::specs::Session::resolution_line))]
pub(crate) fn put_resolution(out: &mut Vec<u8>, scale: SesScale) -> Result<(), AllocError>
    ensures { OnOk result (Appends out.old.items out.new.items (resolution_line scale)) }
{
    put_unit(out, scale.unit)?;
    put_whole(out, scale.per)?;
    put(out, b")\n")
}

fn put_side(out: &mut Vec<u8>, back: bool) -> Result<(), AllocError>
    ensures { OnOk result (Appends out.old.items out.new.items (side_words back)) }
{
    if back {
        put(out, b" back ")
    } else {
        put(out, b" front ")
    }
}

#[tactic(auto, unfolding(crate::specs::Session::place_line))]
fn put_place(out: &mut Vec<u8>, nm: u64, c: &Component) -> Result<(), AllocError>
    requires { 0 < nm }
    ensures { OnOk result (Appends out.old.items out.new.items (place_line nm c.now)) }
{
    put_placed(out, nm, b"      (place ", c.name.as_slice(), &c.at)?;
    put_side(out, c.back)?;
    put_degrees(out, c.microdegrees)?;
    put(out, b")\n")
}

#[tactic(auto, unfolding(crate::specs::Session::component_line))]
fn put_image_change(out: &mut Vec<u8>, b: &Component, c: &Component) -> Result<(), AllocError>
    ensures { OnOk result (Appends out.old.items out.new.items (image_change b.now c.now)) }
{
    if b.image.as_slice() == c.image.as_slice() {
        return Ok(());
    }
    put(out, b"    )\n")?;
    put_framed(out, b"    (component ", c.image.as_slice(), b"\n")
}

fn put_places_after(
    out: &mut Vec<u8>,
    nm: u64,
    first: &Component,
    others: &[Component],
) -> Result<(), AllocError>
    requires { 0 < nm }
    ensures { OnOk result (Appends out.old.items out.new.items (places_after nm first.now others.now)) }
{
    let mut before = first;
    for c in others {
        put_image_change(out, before, c)?;
        put_place(out, nm, c)?;
        before = c;
    }
    put(out, b"    )\n")
}

#[tactic(auto, unfolding(crate::specs::Session::component_lines))]
pub(crate) fn put_components(
    out: &mut Vec<u8>,
    nm: u64,
    components: &[Component],
) -> Result<(), AllocError>
    requires { 0 < nm }
    ensures { OnOk result (Appends out.old.items out.new.items (component_lines nm components.now)) }
{
    match components {
        [] => Ok(()),
        [first, others @ ..] => {
            put_framed(out, b"    (component ", first.image.as_slice(), b"\n")?;
            put_place(out, nm, first)?;
            put_places_after(out, nm, first, others)
        }
    }
}
