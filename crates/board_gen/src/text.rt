//! The text of a generated board, line after line.
//! Lengths in the text are in um.

ghost use Rattle.std.specs.Prelude.{◌≡◌, ◌≤◌, ◌<◌, ◌*◌, ◌+◌, ◌^◌, IfOk, OnOk, flat_map, decimal, length};
ghost use Rattle.std.specs.List.{range_with_len};
ghost use Rattle.board_gen.specs.Board.{Appends, coordinate, head_lines, library_lines, end_lines, place_line};
ghost use Rattle.board_gen.specs.Board.{net_line, net_lines, side_of, text_of};

use crate::order::{order_of, side_of};
use itoa::Buffer;
use std::alloc::{AllocError, Global};

fn put(out: &mut Vec<u8>, bytes: &[u8]) -> Result<(), AllocError>
    ensures { OnOk result (Appends out.old.items out.new.items bytes.now) }
{
    out.extend_from_slice(bytes)
}

fn put_number(out: &mut Vec<u8>, n: u64) -> Result<(), AllocError>
    ensures { OnOk result (Appends out.old.items out.new.items (decimal n)) }
{
    let mut buffer = Buffer::new();
    put(out, buffer.format(n).as_bytes())
}

// The coordinate of the column or row with this number, in um.
fn coordinate(place: u32) -> u64
    ensures { result ≡ coordinate place }
{
    5_000 * (u64::from(place) + 1)
}

fn put_head(out: &mut Vec<u8>, side: u32) -> Result<(), AllocError>
    ensures { OnOk result (Appends out.old.items out.new.items (head_lines side)) }
{
    put(
        out,
        b"(pcb gen\n(parser (string_quote \"))\n(resolution um 10)\n(unit um)\n(structure\n\
        (layer F.Cu (type signal))\n(layer B.Cu (type signal))\n(boundary (rect pcb 0 0 ",
    )?;
    put_number(out, coordinate(side))?;
    put(out, b" ")?;
    put_number(out, coordinate(side))?;
    put(
        out,
        b"))\n(via V)\n(rule (width 200) (clearance 200)))\n(placement (component P\n",
    )?;
    Ok(())
}

#[tactic(auto, unfolding(crate::specs::Board::place_line))]
fn put_place(out: &mut Vec<u8>, side: u32, site: u32) -> Result<(), AllocError>
    requires { 0 < side }
    ensures { OnOk result (Appends out.old.items out.new.items (place_line side site)) }
{
    put(out, b"(place C")?;
    put_number(out, u64::from(site))?;
    put(out, b" ")?;
    put_number(out, coordinate(site % side))?;
    put(out, b" ")?;
    put_number(out, coordinate(site / side))?;
    put(out, b" front 0)\n")
}

fn put_places(out: &mut Vec<u8>, side: u32, count: u32) -> Result<(), AllocError>
    requires { 0 < side }
    ensures { OnOk result (Appends out.old.items out.new.items (flat_map (place_line side) (range_with_len 0 count))) }
{
    for site in 0..count {
        put_place(out, side, site)?;
    }
    Ok(())
}

#[tactic(auto, unfolding(crate::specs::Board::library_lines))]
fn put_library(out: &mut Vec<u8>) -> Result<(), AllocError>
    ensures { OnOk result (Appends out.old.items out.new.items library_lines) }
{
    put(
        out,
        b"))\n(library\n(image P (pin PAD 1 0 0))\n\
        (padstack PAD (shape (circle F.Cu 1000)) (shape (circle B.Cu 1000)))\n\
        (padstack V (shape (circle F.Cu 600)) (shape (circle B.Cu 600))))\n(network\n",
    )
}

#[tactic(auto, unfolding(crate::specs::Board::net_line))]
fn put_net(out: &mut Vec<u8>, net: usize, from: u32, to: u32) -> Result<(), AllocError>
    ensures { OnOk result (Appends out.old.items out.new.items (net_line net from to)) }
{
    put(out, b"(net N")?;
    put_number(out, net as u64)?;
    put(out, b" (pins C")?;
    put_number(out, u64::from(from))?;
    put(out, b"-1 C")?;
    put_number(out, u64::from(to))?;
    put(out, b"-1))\n")
}

fn put_nets(out: &mut Vec<u8>, order: &[u32]) -> Result<(), AllocError>
    ensures { OnOk result (Appends out.old.items out.new.items (net_lines 0 order.now)) }
{
    for net in 0..order.len() / 2 {
        put_net(out, net, order[2 * net], order[2 * net + 1])?;
    }
    Ok(())
}

#[tactic(auto, unfolding(crate::specs::Board::end_lines))]
fn put_end(out: &mut Vec<u8>) -> Result<(), AllocError>
    ensures { OnOk result (Appends out.old.items out.new.items end_lines) }
{
    put(out, b")\n(wiring))\n")
}

// The text, where this is the side of its square.
#[tactic(auto, unfolding(crate::specs::Board::text_of))]
fn text_with(alloc: Global, n: u32, side: u32) -> Result<Vec<u8>, AllocError>
    requires few { n ≤ 400 }
    requires some { 1 ≤ side }
    requires square { side ≡ side_of (2 * n) }
    ensures { IfOk result (λ v. v.items ≡ text_of n) }
{
    let order = order_of(alloc, n)?;
    let mut out = Vec::new(alloc);
    put_head(&mut out, side)?;
    put_places(&mut out, side, 2 * n)?;
    put_library(&mut out)?;
    put_nets(&mut out, order.as_slice())?;
    put_end(&mut out)?;
    Ok(out)
}

/// The design of the board with number `n`, from 1 to 400, as bytes: two layers, `2 n` sites 5 mm apart in a square,
/// and `n` nets of two pins each. The only error is want of memory.
pub fn design_text(alloc: Global, n: u32) -> Result<Vec<u8>, AllocError>
    requires some { 1 ≤ n }
    requires few { n ≤ 400 }
    ensures text { IfOk result (λ v. v.items ≡ text_of n) }
    ensures short { IfOk result (λ v. length v.items ≤ 2 ^ 26) }
{
    text_with(alloc, n, side_of(2 * n))
}
