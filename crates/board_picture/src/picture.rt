//! The picture of a board.
//! Source: Scalable Vector Graphics 1.1, document structure and coordinate systems.

ghost use Rattle.std.specs.Prelude.{◌≡◌, ◌≤◌, ◌^◌, OnOk, IfOk};
ghost use Rattle.ses_writer.specs.Words.{Appends};
ghost use Rattle.board_picture.specs.Words.{mm_word};
ghost use Rattle.board_picture.specs.Sheet.{shift_x, shift_y};
ghost use Rattle.board_picture.specs.Picture.{head_part, board_head, board_part, picture_of};

use crate::copper::put_copper;
use crate::edge::{put_edge, put_names, put_open};
use crate::legend::put_legend;
use crate::open::OpenLine;
use crate::sheet::{Sheet, sheet_height, sheet_of, sheet_width, shift_x, shift_y};
use crate::words::{Part, put_mm, put_parts};
use pcb_model::{Design, Item};
use ses_writer::put;
use std::alloc::{AllocError, Global};

// ---- the head

#[tactic(auto, unfolding(crate::specs::Picture::head_part, crate::specs::Picture::ground_words))]
fn put_head(out: &mut Vec<u8>, s: Sheet, d: &Design) -> Result<(), AllocError>
    requires { s.unit ≤ 2 ^ 59 }
    ensures { OnOk result (Appends out.old.items out.new.items (head_part s d.now)) }
{
    let wide = Part::Wide(sheet_width(s));
    let high = Part::Wide(sheet_height(s, d));
    put_parts(
        out,
        &[
            Part::Text(b"<svg xmlns=\"http://www.w3.org/2000/svg\" width=\""),
            wide,
            Part::Text(b"mm\" height=\""),
            high,
            Part::Text(b"mm\" viewBox=\"0 0 "),
            wide,
            Part::Text(b" "),
            high,
            Part::Text(b"\" font-family=\"sans-serif\">\n<title>"),
            Part::Name(d.name.as_slice()),
            Part::Text(b"</title>\n"),
        ],
    )?;
    put(
        out,
        b"<pattern id=\"no-wires\" width=\"0.8\" height=\"0.8\" patternUnits=\"userSpaceOnUse\" \
        patternTransform=\"rotate(45)\"><path d=\"M0 0v1\" stroke=\"#777\" stroke-width=\"0.5\"/></pattern>\n\
        <pattern id=\"no-vias\" width=\"0.8\" height=\"0.8\" patternUnits=\"userSpaceOnUse\" \
        patternTransform=\"rotate(-45)\"><path d=\"M0 0v1\" stroke=\"#777\" stroke-width=\"0.5\"/></pattern>\n\
        <pattern id=\"no-copper\" width=\"0.8\" height=\"0.8\" patternUnits=\"userSpaceOnUse\" \
        patternTransform=\"rotate(45)\"><path d=\"M0 0v1M0 0h1\" stroke=\"#777\" stroke-width=\"0.5\"/></pattern>\n\
        <rect width=\"100%\" height=\"100%\" fill=\"#fff\"/>\n",
    )
}

// ---- the board

fn put_shift_x(out: &mut Vec<u8>, s: Sheet) -> Result<(), AllocError>
    ensures { OnOk result (Appends out.old.items out.new.items (mm_word (shift_x s))) }
{
    put_mm(out, shift_x(s))
}

fn put_shift_y(out: &mut Vec<u8>, s: Sheet) -> Result<(), AllocError>
    ensures { OnOk result (Appends out.old.items out.new.items (mm_word (shift_y s))) }
{
    put_mm(out, shift_y(s))
}

#[tactic(auto, unfolding(crate::specs::Picture::board_head))]
fn put_board_head(out: &mut Vec<u8>, s: Sheet) -> Result<(), AllocError>
    ensures { OnOk result (Appends out.old.items out.new.items (board_head s)) }
{
    put(out, b"<g transform=\"translate(")?;
    put_shift_x(out, s)?;
    put(out, b" ")?;
    put_shift_y(out, s)?;
    put(
        out,
        b") scale(1 -1)\" fill-rule=\"evenodd\" stroke-linecap=\"round\" stroke-linejoin=\"round\">\n",
    )
}

#[tactic(auto, unfolding(crate::specs::Picture::board_part))]
fn put_board(
    alloc: Global,
    out: &mut Vec<u8>,
    s: Sheet,
    d: &Design,
    items: &[Item],
    lines: &[OpenLine],
) -> Result<(), AllocError>
    requires { s.unit ≤ 2 ^ 59 }
    ensures { OnOk result (Appends out.old.items out.new.items (board_part s d.now items.now lines.now)) }
{
    put_board_head(out, s)?;
    put_copper(out, d, items)?;
    put_edge(out, s, d)?;
    put_names(alloc, out, s, d)?;
    put_open(out, s, lines)?;
    put(out, b"</g>\n")
}

/// The picture's bytes: the design's edge, layers and names, what the items are made of, and the open connections
/// that `open_lines` gives for them. The only error is want of memory.
#[tactic(auto, unfolding(crate::specs::Picture::picture_of))]
pub fn picture_text(
    alloc: Global,
    d: &Design,
    items: &[Item],
    lines: &[OpenLine],
) -> Result<Vec<u8>, AllocError>
    ensures { IfOk result (λ text. text.items ≡ picture_of d.now items.now lines.now) }
{
    let s = sheet_of(d);
    let mut text = Vec::new(alloc);
    put_head(&mut text, s, d)?;
    put_board(alloc, &mut text, s, d, items, lines)?;
    put_legend(&mut text, s, d, items, lines)?;
    put(&mut text, b"</svg>\n")?;
    Ok(text)
}
