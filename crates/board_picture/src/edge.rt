//! The board's edge, the names of components, and the open connections.

ghost use Rattle.std.specs.Prelude.{◌≡◌, ◌≤◌, ◌^◌, OnOk, flat_map};
ghost use Rattle.ses_writer.specs.Words.{Appends};
ghost use Rattle.board_picture.specs.Picture.{bound_shape, edge_group, name_group, open_shape, open_group};

use crate::names::put_name_texts;
use crate::open::OpenLine;
use crate::shapes::put_loops;
use crate::sheet::Sheet;
use crate::words::{Part, put_parts};
use geo_kernel::{List, Point};
use pcb_model::Design;
use ses_writer::put;
use std::alloc::{AllocError, Global};

// ---- edge

fn put_bounds(out: &mut Vec<u8>, bounds: &[List<List<Point>>]) -> Result<(), AllocError>
    ensures { OnOk result (Appends out.old.items out.new.items (flat_map bound_shape bounds.now)) }
{
    for loops in bounds {
        put(out, b"<path d=\"")?;
        put_loops(out, loops.as_slice())?;
        put(out, b"\"/>\n")?;
    }
    Ok(())
}

/// The boundaries, as thin lines.
#[tactic(auto, unfolding(crate::specs::Picture::edge_group))]
pub(crate) fn put_edge(out: &mut Vec<u8>, s: Sheet, d: &Design) -> Result<(), AllocError>
    ensures { OnOk result (Appends out.old.items out.new.items (edge_group s d.now)) }
{
    put_parts(
        out,
        &[
            Part::Text(b"<g class=\"edge\" fill=\"none\" stroke=\"#000\" stroke-width=\""),
            Part::Length(s.unit / 10),
            Part::Text(b"\">\n"),
        ],
    )?;
    put_bounds(out, d.bounds.as_slice())?;
    put(out, b"</g>\n")
}

// ---- names

/// The names of components that are shown, to the left and above.
#[tactic(auto, unfolding(crate::specs::Picture::name_group))]
pub(crate) fn put_names(
    alloc: Global,
    out: &mut Vec<u8>,
    s: Sheet,
    d: &Design,
) -> Result<(), AllocError>
    requires { s.unit ≤ 2 ^ 59 }
    ensures { OnOk result (Appends out.old.items out.new.items (name_group s d.now)) }
{
    let third = Part::Length(s.unit / 3);
    put_parts(
        out,
        &[
            Part::Text(b"<g class=\"names\" transform=\"translate(-"),
            third,
            Part::Text(b" "),
            third,
            Part::Text(b")\" font-size=\""),
            Part::Length(s.unit / 2),
            Part::Text(b"\" text-anchor=\"end\" stroke=\"#fff\" stroke-width=\""),
            Part::Length(s.unit / 10),
            Part::Text(b"\" paint-order=\"stroke\">\n"),
        ],
    )?;
    put_name_texts(alloc, out, s, d.components.as_slice())?;
    put(out, b"</g>\n")
}

// ---- open connections

fn put_lines(out: &mut Vec<u8>, lines: &[OpenLine]) -> Result<(), AllocError>
    ensures { OnOk result (Appends out.old.items out.new.items (flat_map open_shape lines.now)) }
{
    for line in lines {
        put_parts(
            out,
            &[
                Part::Text(b"<path d=\"M"),
                Part::At(line.from),
                Part::At(line.to),
                Part::Text(b"\"/>\n"),
            ],
        )?;
    }
    Ok(())
}

/// The open connections, dashed.
#[tactic(auto, unfolding(crate::specs::Picture::open_group))]
pub(crate) fn put_open(out: &mut Vec<u8>, s: Sheet, lines: &[OpenLine]) -> Result<(), AllocError>
    ensures { OnOk result (Appends out.old.items out.new.items (open_group s lines.now)) }
{
    put_parts(
        out,
        &[
            Part::Text(b"<g class=\"open\" fill=\"none\" stroke=\"#E0007A\" stroke-width=\""),
            Part::Length(s.unit / 16),
            Part::Text(b"\" stroke-dasharray=\""),
            Part::Length(s.unit / 2),
            Part::Text(b"\">\n"),
        ],
    )?;
    put_lines(out, lines)?;
    put(out, b"</g>\n")
}
