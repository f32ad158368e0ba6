//! The library of a session: the padstacks of the printed vias.
//! Source: SPECCTRA reference, padstack and shape descriptors.

ghost use Rattle.std.specs.Prelude.{◌≡◌, ◌<◌, ◌++◌, OnOk, IfOk, flat_map, filter, length, codes};
ghost use Rattle.ses_writer.specs.Words.{Appends, spelled};
ghost use Rattle.ses_writer.specs.inner.Passes.{TellsVias, Marks};
ghost use Rattle.ses_writer.specs.Session.{layer_word, shape_word, spine_words, shape_line, padstack_lines};
ghost use Rattle.ses_writer.specs.Session.{library_lines, is_printed};

use crate::words::{put, put_area, put_chain, put_framed, put_run};
use geo_kernel::{List, Spine};
use pcb_model::{Design, Item, Metal, Padstack, Piece};
use std::alloc::{AllocError, Global};

// The name of a layer, and none where there is no such layer.
pub(crate) fn layer_name(d: &Design, layer: u8) -> &[u8]
    ensures { spelled result.now ≡ layer_word d.now layer }
{
    match d.layers.as_slice().get(layer as usize) {
        Some(l) => l.name.as_slice(),
        None => &[],
    }
}

fn shape_front(spine: &Spine) -> &'static [u8]
    ensures { result.now ≡ codes "        (shape (" ++ shape_word spine.now }
{
    match spine {
        Spine::Chain(points) => match points.as_slice() {
            [_] => b"        (shape (circle ",
            _ => b"        (shape (path ",
        },
        Spine::Area(_) => b"        (shape (polygon ",
    }
}

fn put_spine(out: &mut Vec<u8>, nm: u64, spine: &Spine) -> Result<(), AllocError>
    requires { 0 < nm }
    ensures { OnOk result (Appends out.old.items out.new.items (spine_words nm spine.now)) }
{
    match spine {
        Spine::Chain(points) => put_chain(out, nm, points),
        Spine::Area(loops) => put_area(out, nm, loops),
    }
}

#[tactic(auto, unfolding(crate::specs::Session::shape_line))]
fn put_shape(out: &mut Vec<u8>, d: &Design, nm: u64, c: &Piece) -> Result<(), AllocError>
    requires { 0 < nm }
    ensures { OnOk result (Appends out.old.items out.new.items (shape_line d.now nm c.now)) }
{
    let name = layer_name(d, c.layer);
    put_run(out, nm, shape_front(&c.spine), name, c.width)?;
    put_spine(out, nm, &c.spine)?;
    put(out, b"))\n")
}

fn put_shapes(
    out: &mut Vec<u8>,
    d: &Design,
    nm: u64,
    pieces: &List<Piece>,
) -> Result<(), AllocError>
    requires { 0 < nm }
    ensures { OnOk result (Appends out.old.items out.new.items (flat_map (shape_line d.now nm) pieces.now)) }
{
    for c in pieces.as_slice() {
        put_shape(out, d, nm, c)?;
    }
    Ok(())
}

#[tactic(auto, unfolding(crate::specs::Session::padstack_lines))]
fn put_padstack(out: &mut Vec<u8>, d: &Design, nm: u64, s: &Padstack) -> Result<(), AllocError>
    requires { 0 < nm }
    ensures { OnOk result (Appends out.old.items out.new.items (padstack_lines d.now nm s.now)) }
{
    put_framed(out, b"      (padstack ", s.name.as_slice(), b"\n")?;
    put_shapes(out, d, nm, &s.pieces)?;
    put(out, b"        (attach off)\n      )\n")
}

// An item with a net is printed, a fixed one where fixed ones aren't left out.
pub(crate) fn prints(a: &Item, omit_fixed: bool) -> bool
    ensures { result ≡ is_printed omit_fixed a.now }
{
    a.net.is_some() && !(omit_fixed && a.fixed)
}

fn mark_via(flags: &mut [bool], metal: &Metal)
    ensures { Marks metal.now flags.old flags.new }
{
    if let Metal::Via { padstack, .. } = metal {
        let at = *padstack as usize;
        if at < flags.len() {
            flags[at] = true;
        }
    }
}

// For each padstack, whether a printed via names it.
fn named_padstacks(
    alloc: Global,
    d: &Design,
    items: &[Item],
    omit_fixed: bool,
) -> Result<Vec<bool>, AllocError>
    ensures { IfOk result (λ v. TellsVias (filter (is_printed omit_fixed) items.now) (length d.now.padstacks) v.items) }
{
    let mut flags = vec![in alloc; false; d.padstacks.len()]?;
    for a in items {
        if prints(a, omit_fixed) {
            mark_via(&mut flags, &a.metal);
        }
    }
    Ok(flags)
}

// The padstacks of printed vias, in the library's order.
#[tactic(auto, unfolding(crate::specs::Session::library_lines))]
pub(crate) fn put_library(
    out: &mut Vec<u8>,
    alloc: Global,
    d: &Design,
    nm: u64,
    items: &[Item],
    omit_fixed: bool,
) -> Result<(), AllocError>
    requires { 0 < nm }
    ensures { OnOk result
        (Appends out.old.items out.new.items (library_lines d.now nm (filter (is_printed omit_fixed) items.now))) }
{
    let flags = named_padstacks(alloc, d, items, omit_fixed)?;
    for (i, s) in d.padstacks.as_slice().iter().enumerate() {
        if flags[i] {
            put_padstack(out, d, nm, s)?;
        }
    }
    Ok(())
}
