//! The session of a design and of the items of its board.
//! Source: SPECCTRA reference, session file descriptor.

ghost use Rattle.std.specs.Prelude.{◌≡◌, ◌<◌, OnOk, IfOk, filter};
ghost use Rattle.ses_writer.specs.Words.{Appends};
ghost use Rattle.ses_writer.specs.Session.{is_printed, placement_part, parser_lines, routes_part};
ghost use Rattle.ses_writer.specs.Session.{session_of};
ghost use Rattle.ses_writer.specs.inner.Passes.{fronted_line};

use crate::items::items_of;
use crate::library::put_library;
use crate::network::put_network;
use crate::placement::{put_components, put_resolution};
use crate::words::{put, put_framed};
use geo_kernel::Name;
use pcb_board::Board;
use pcb_model::{Design, Item, SesScale};
use std::alloc::{AllocError, Global};

// The line of a host's word, which stands in its front.
fn put_host(out: &mut Vec<u8>, front: &[u8], host: &Option<Name>) -> Result<(), AllocError>
    ensures { OnOk result (Appends out.old.items out.new.items (fronted_line front.now host.now)) }
{
    match host {
        Some(host) => put_framed(out, front, host.as_slice(), b")\n"),
        None => Ok(()),
    }
}

#[tactic(auto, unfolding(crate::specs::Session::placement_part))]
fn put_placement(out: &mut Vec<u8>, d: &Design, scale: SesScale) -> Result<(), AllocError>
    requires { 0 < scale.nm }
    ensures { OnOk result (Appends out.old.items out.new.items (placement_part d.now scale)) }
{
    let name = d.name.as_slice();
    put_framed(out, b"(session ", name, b"\n  (base_design ")?;
    put_framed(out, b"", name, b")\n  (placement\n")?;
    put_resolution(out, scale)?;
    put_components(out, scale.nm, d.components.as_slice())?;
    put(out, b"  )\n  (was_is\n  )\n")
}

#[tactic(auto, unfolding(crate::specs::Session::parser_lines))]
fn put_parser(out: &mut Vec<u8>, d: &Design) -> Result<(), AllocError>
    ensures { OnOk result (Appends out.old.items out.new.items (parser_lines d.now)) }
{
    put(out, b"    (parser\n")?;
    put_host(out, b"      (host_cad ", &d.host_cad)?;
    put_host(out, b"      (host_version ", &d.host_version)?;
    put(out, b"    )\n")
}

#[tactic(auto, unfolding(crate::specs::Session::routes_part))]
fn put_routes(
    out: &mut Vec<u8>,
    alloc: Global,
    d: &Design,
    scale: SesScale,
    items: &[Item],
    omit_fixed: bool,
) -> Result<(), AllocError>
    requires { 0 < scale.nm }
    ensures { OnOk result
        (Appends out.old.items out.new.items (routes_part d.now scale (filter (is_printed omit_fixed) items.now))) }
{
    put(out, b"  (routes\n")?;
    put_resolution(out, scale)?;
    put_parser(out, d)?;
    put(out, b"    (library_out\n")?;
    put_library(out, alloc, d, scale.nm, items, omit_fixed)?;
    put(out, b"    )\n    (network_out\n")?;
    put_network(out, alloc, d, scale.nm, items, omit_fixed)?;
    put(out, b"    )\n  )\n")
}

#[tactic(auto, unfolding(crate::specs::Session::session_of))]
fn put_session(
    out: &mut Vec<u8>,
    alloc: Global,
    d: &Design,
    items: &[Item],
    omit_fixed: bool,
) -> Result<(), AllocError>
    ensures { OnOk result (Appends out.old.items out.new.items (session_of d.now items.now omit_fixed)) }
{
    let scale = SesScale::pick(d);
    put_placement(out, d, scale)?;
    put_routes(out, alloc, d, scale, items, omit_fixed)?;
    put(out, b")\n")
}

/// The session's bytes: the placement of the design, and the wires and vias among `items` that have a net, net by net
/// and in the order of `items`; with `omit_fixed` the fixed ones are left out. The only error is want of memory.
pub fn items_session(
    alloc: Global,
    d: &Design,
    items: &[Item],
    omit_fixed: bool,
) -> Result<Vec<u8>, AllocError>
    ensures { IfOk result (λ v. v.items ≡ session_of d.now items.now omit_fixed) }
{
    let mut out = Vec::new(alloc);
    put_session(&mut out, alloc, d, items, omit_fixed)?;
    Ok(out)
}

/// The session's bytes for the items of a board, in order of id. The only error is want of memory.
pub fn session_text(
    alloc: Global,
    d: &Design,
    board: &Board,
    omit_fixed: bool,
) -> Result<Vec<u8>, AllocError>
    ensures { IfOk result (λ text. text.items ≡ session_of d.now board.now.items omit_fixed) }
{
    let items = items_of(alloc, board)?;
    items_session(alloc, d, items.as_slice(), omit_fixed)
}
