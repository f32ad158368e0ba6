//! The legend, right of the board: the layers, the marks, counts and the board's size.
//! Its rows are a unit of the sheet high, and count from 0.

ghost use Rattle.std.specs.Prelude.{◌≡◌, ◌+◌, ◌≤◌, ◌^◌, ◌++◌, OnOk, codes, length};
ghost use Rattle.ses_writer.specs.Words.{Appends};
ghost use Rattle.board_picture.specs.Legend.{count_row, layer_row, layer_rows};
ghost use Rattle.board_picture.specs.Legend.{open_row, size_row, swatch_words, label_words, mark_row};
ghost use Rattle.board_picture.specs.Legend.{has_hatch, is_full, is_blind, has_mark, is_there, mark_words, row_behind};
ghost use Rattle.board_picture.specs.Legend.{mark_rows, row_behind_marks};
ghost use Rattle.board_picture.specs.Legend.{wire_count, via_count, count_rows};
ghost use Rattle.board_picture.specs.Legend.{legend_head, legend_part};

use crate::open::OpenLine;
use crate::paint::put_paint;
use crate::rings::spans_board;
use crate::shapes::{Hatch, have_breadth, is_hatched, is_through, is_via, is_wire};
use crate::sheet::{Sheet, legend_left};
use crate::words::{Part, put_parts};
use pcb_model::{BoardLayer, Design, Item};
use std::alloc::AllocError;

// ---- rows

#[tactic(auto, unfolding(crate::specs::Legend::count_row, crate::specs::Legend::row_head))]
fn put_count_row(out: &mut Vec<u8>, row: u128, word: &[u8], n: u64) -> Result<(), AllocError>
    ensures { OnOk result (Appends out.old.items out.new.items (count_row row word.now n)) }
{
    put_parts(
        out,
        &[
            Part::Text(b"<text x=\"2.5\" y=\""),
            Part::Number(row),
            Part::Text(b".8\">"),
            Part::Text(word),
            Part::Number(n as u128),
            Part::Text(b"</text>\n"),
        ],
    )
}

fn put_layer_row(out: &mut Vec<u8>, row: usize, layer: &BoardLayer) -> Result<(), AllocError>
    ensures { OnOk result (Appends out.old.items out.new.items (layer_row (row, layer.now))) }
{
    let number = Part::Number(row as u128);
    put_parts(
        out,
        &[
            Part::Text(b"<path d=\"M0 "),
            number,
            Part::Text(b".5h2\" stroke-width=\"0.6\""),
        ],
    )?;
    put_paint(out, row)?;
    put_parts(
        out,
        &[
            Part::Text(b"/><text x=\"2.5\" y=\""),
            number,
            Part::Text(b".8\">"),
            Part::Name(layer.name.as_slice()),
            Part::Text(b"</text>\n"),
        ],
    )
}

fn put_layer_rows(out: &mut Vec<u8>, d: &Design) -> Result<(), AllocError>
    ensures { OnOk result (Appends out.old.items out.new.items (layer_rows d.now)) }
{
    for (i, layer) in d.layers.as_slice().iter().enumerate() {
        put_layer_row(out, i, layer)?;
    }
    Ok(())
}

fn put_open_row(out: &mut Vec<u8>, row: u128, count: u64) -> Result<(), AllocError>
    ensures { OnOk result (Appends out.old.items out.new.items (open_row row count)) }
{
    put_parts(
        out,
        &[
            Part::Text(b"<path d=\"M0 "),
            Part::Number(row),
            Part::Text(b".5h2\" stroke-width=\""),
            Part::Text(b"0.06\" stroke=\"#E0007A\" stroke-dasharray=\"0.5\"/>"),
        ],
    )?;
    put_count_row(out, row, b"open ", count)
}

// The board's size, and the end of the legend.
fn put_size_row(out: &mut Vec<u8>, row: u128, s: Sheet) -> Result<(), AllocError>
    ensures { OnOk result (Appends out.old.items out.new.items (size_row row s ++ codes "</g>\n")) }
{
    put_parts(
        out,
        &[
            Part::Text(b"<text x=\"2.5\" y=\""),
            Part::Number(row),
            Part::Text(b".8\">"),
            Part::Length(s.wide),
            Part::Text(b" x "),
            Part::Length(s.high),
            Part::Text(b" mm</text>\n"),
            Part::Text(b"</g>\n"),
        ],
    )
}

// ---- rows of what is there

/// What the legend has a row for where the picture shows it.
#[derive(Clone, Copy)]
pub(crate) enum Mark {
    Through,
    Full,
    Blind,
    NoWires,
    NoVias,
    NoCopper,
}

fn swatch_words(mark: Mark) -> &'static [u8]
    ensures { result.now ≡ swatch_words mark }
{
    match mark {
        Mark::Through => b"0.6\" fill=\"#000\" stroke=\"#000\" opacity=\"0.85\"",
        Mark::Full => b"0.3\" stroke=\"#7FFF00\"",
        Mark::Blind => b"0.3\" stroke=\"#000\" stroke-dasharray=\"0.3 0.2\"",
        Mark::NoWires => b"0.6\" stroke=\"url(#no-wires)\"",
        Mark::NoVias => b"0.6\" stroke=\"url(#no-vias)\"",
        Mark::NoCopper => b"0.6\" stroke=\"url(#no-copper)\"",
    }
}

fn label_words(mark: Mark) -> &'static [u8]
    ensures { result.now ≡ label_words mark }
{
    match mark {
        Mark::Through => b"through pads and vias",
        Mark::Full => b"via",
        Mark::Blind => b"blind via, by its layers",
        Mark::NoWires => b"no wires",
        Mark::NoVias => b"no vias",
        Mark::NoCopper => b"no wires and vias",
    }
}

fn has_hatch(hatch: Hatch, a: &Item) -> bool
    ensures { result ≡ has_hatch hatch a.now }
{
    is_hatched(hatch, &a.metal) && have_breadth(a.pieces.as_slice())
}

fn is_full(layers: usize, a: &Item) -> bool
    ensures { result ≡ is_full layers a.now }
{
    is_via(&a.metal) && spans_board(layers, a.pieces.as_slice())
}

fn is_blind(layers: usize, a: &Item) -> bool
    ensures { result ≡ is_blind layers a.now }
{
    is_via(&a.metal) && !spans_board(layers, a.pieces.as_slice())
}

fn has_mark(layers: usize, mark: Mark, a: &Item) -> bool
    ensures { result ≡ has_mark layers mark a.now }
{
    match mark {
        Mark::Through => is_through(a),
        Mark::Full => is_full(layers, a),
        Mark::Blind => is_blind(layers, a),
        Mark::NoWires => has_hatch(Hatch::Wires, a),
        Mark::NoVias => has_hatch(Hatch::Vias, a),
        Mark::NoCopper => has_hatch(Hatch::Both, a),
    }
}

fn is_there(layers: usize, items: &[Item], mark: Mark) -> bool
    ensures { result ≡ is_there layers items.now mark }
{
    for a in items {
        if has_mark(layers, mark, a) {
            return true;
        }
    }
    false
}

#[tactic(auto, unfolding(crate::specs::Legend::mark_row))]
fn put_mark_row(out: &mut Vec<u8>, row: u128, mark: Mark) -> Result<(), AllocError>
    ensures { OnOk result (Appends out.old.items out.new.items (mark_row row mark)) }
{
    let number = Part::Number(row);
    put_parts(
        out,
        &[
            Part::Text(b"<path d=\"M0 "),
            number,
            Part::Text(b".5h2\" stroke-width=\""),
            Part::Text(swatch_words(mark)),
            Part::Text(b"/><text x=\"2.5\" y=\""),
            number,
            Part::Text(b".8\">"),
            Part::Text(label_words(mark)),
            Part::Text(b"</text>\n"),
        ],
    )
}

fn put_mark(
    out: &mut Vec<u8>,
    layers: usize,
    items: &[Item],
    row: u128,
    mark: Mark,
) -> Result<(), AllocError>
    ensures { OnOk result (Appends out.old.items out.new.items (mark_words layers items.now row mark)) }
{
    if is_there(layers, items, mark) {
        return put_mark_row(out, row, mark);
    }
    Ok(())
}

// The row that is free behind that of a mark, which has one if it is there.
fn row_behind(layers: usize, items: &[Item], row: u128, mark: Mark) -> u128
    requires { row ≤ 2 ^ 65 }
    ensures value { result ≡ row_behind layers items.now row mark }
    ensures small { result ≤ row + 1 }
{
    if is_there(layers, items, mark) {
        row + 1
    } else {
        row
    }
}

// The rows of the marks that are there, behind those of the layers.
#[tactic(auto, unfolding(crate::specs::Legend::mark_rows))]
fn put_mark_rows(out: &mut Vec<u8>, layers: usize, items: &[Item]) -> Result<(), AllocError>
    ensures { OnOk result (Appends out.old.items out.new.items (mark_rows layers items.now)) }
{
    let through = layers as u128;
    let full = row_behind(layers, items, through, Mark::Through);
    let blind = row_behind(layers, items, full, Mark::Full);
    let no_wires = row_behind(layers, items, blind, Mark::Blind);
    let no_vias = row_behind(layers, items, no_wires, Mark::NoWires);
    let no_copper = row_behind(layers, items, no_vias, Mark::NoVias);
    put_mark(out, layers, items, through, Mark::Through)?;
    put_mark(out, layers, items, full, Mark::Full)?;
    put_mark(out, layers, items, blind, Mark::Blind)?;
    put_mark(out, layers, items, no_wires, Mark::NoWires)?;
    put_mark(out, layers, items, no_vias, Mark::NoVias)?;
    put_mark(out, layers, items, no_copper, Mark::NoCopper)
}

// The row behind all of them.
fn row_behind_marks(layers: usize, items: &[Item]) -> u128
    ensures value { result ≡ row_behind_marks layers items.now }
    ensures small { result ≤ layers + 6 }
{
    let full = row_behind(layers, items, layers as u128, Mark::Through);
    let blind = row_behind(layers, items, full, Mark::Full);
    let no_wires = row_behind(layers, items, blind, Mark::Blind);
    let no_vias = row_behind(layers, items, no_wires, Mark::NoWires);
    let no_copper = row_behind(layers, items, no_vias, Mark::NoVias);
    row_behind(layers, items, no_copper, Mark::NoCopper)
}

// ---- counts

fn wire_count(items: &[Item]) -> usize
    ensures { result ≡ wire_count items.now }
{
    let mut count = 0;
    for a in items {
        if is_wire(&a.metal) {
            count += 1;
        }
    }
    count
}

fn via_count(items: &[Item]) -> usize
    ensures { result ≡ via_count items.now }
{
    let mut count = 0;
    for a in items {
        if is_via(&a.metal) {
            count += 1;
        }
    }
    count
}

#[tactic(auto, unfolding(crate::specs::Legend::count_rows))]
fn put_count_rows(
    out: &mut Vec<u8>,
    row: u128,
    d: &Design,
    items: &[Item],
) -> Result<(), AllocError>
    requires { row ≤ 2 ^ 65 }
    ensures { OnOk result (Appends out.old.items out.new.items (count_rows row d.now items.now)) }
{
    put_count_row(out, row, b"nets ", d.nets.len() as u64)?;
    put_count_row(out, row + 1, b"wires ", wire_count(items) as u64)?;
    put_count_row(out, row + 2, b"vias ", via_count(items) as u64)
}

// ---- the whole

#[tactic(auto, unfolding(crate::specs::Legend::legend_head))]
fn put_head(out: &mut Vec<u8>, s: Sheet) -> Result<(), AllocError>
    ensures { OnOk result (Appends out.old.items out.new.items (legend_head s)) }
{
    let unit = Part::Length(s.unit);
    put_parts(
        out,
        &[
            Part::Text(b"<g transform=\"translate("),
            Part::Wide(legend_left(s)),
            Part::Text(b" "),
            unit,
            Part::Text(b") scale("),
            unit,
            Part::Text(b")\" font-size=\"0.8\">\n"),
        ],
    )
}

/// The legend.
#[tactic(auto, unfolding(crate::specs::Legend::legend_part))]
pub(crate) fn put_legend(
    out: &mut Vec<u8>,
    s: Sheet,
    d: &Design,
    items: &[Item],
    lines: &[OpenLine],
) -> Result<(), AllocError>
    ensures { OnOk result (Appends out.old.items out.new.items (legend_part s d.now items.now lines.now)) }
{
    let layers = d.layers.len();
    let row = row_behind_marks(layers, items);
    put_head(out, s)?;
    put_layer_rows(out, d)?;
    put_mark_rows(out, layers, items)?;
    put_open_row(out, row, lines.len() as u64)?;
    put_count_rows(out, row + 1, d, items)?;
    put_size_row(out, row + 4, s)
}
