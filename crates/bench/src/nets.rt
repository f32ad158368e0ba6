//! A board of nets of two pins, each 2 mm from the next in rows of 100, and an offer for each net.
//! A board begins with its edge and the pins; an offer lays the straight wire of 1 mm between the pins of its net.

use crate::wires::read_short;
use geo_kernel::{List, Point};
use pcb_board::{Board, Offer};
use pcb_model::Metal;
use std::alloc::{AllocError, Global};

/// The most entries of workers that may stand.
const CAP: u64 = 524_288;

const HEAD: &str = "(pcb nets (resolution um 10)
  (structure (layer F) (boundary (rect pcb -10000 -10000 220000 120000)) (rule (width 200) (clearance 200)))
  (placement (component P
";

const MIDDLE: &str = "  ))
  (library (image P (pin PAD 1 0 0) (pin PAD 2 1000 0)) (padstack PAD (shape (circle F 600))))
  (network
";

/// Where the first pin of a net lies, in um; the second lies 1 mm to the right of it.
fn place_of(net: u32) -> (u32, u32) {
    (
        (net % 100).saturating_mul(2_000),
        (net / 100).saturating_mul(2_000),
    )
}

fn add_place(alloc: Global, text: &mut String, net: u32) -> Result<(), AllocError> {
    let (x, y) = place_of(net);
    let line = format!(in alloc; "    (place C{net} {x} {y} front 0)\n")?;
    text.push_str(line.as_str())
}

fn add_net(alloc: Global, text: &mut String, net: u32) -> Result<(), AllocError> {
    let line = format!(in alloc; "    (net N{net} (pins C{net}-1 C{net}-2))\n")?;
    text.push_str(line.as_str())
}

fn text_of(alloc: Global, nets: u32) -> Result<String, AllocError> {
    let mut text = String::from_str(alloc, HEAD)?;
    for net in 0..nets {
        add_place(alloc, &mut text, net)?;
    }
    text.push_str(MIDDLE)?;
    for net in 0..nets {
        add_net(alloc, &mut text, net)?;
    }
    text.push_str("  ) (wiring))\n")?;
    Ok(text)
}

/// A board of so many nets; None where memory is wanting.
pub fn board_of(alloc: Global, nets: u32) -> Option<Board> {
    let text = text_of(alloc, nets).ok()?;
    let design = read_short(alloc, text.as_str())?;
    let (board, _) = Board::start(alloc, design, CAP).ok()?;
    Some(board)
}

fn point(x: u32, y: u32) -> Point {
    Point {
        x: x as i64 * 1_000,
        y: y as i64 * 1_000,
    }
}

/// The straight wire between the pins of a net. Item 0 is the edge, and the pins follow in the order of the nets.
fn offer_of(alloc: Global, net: u32) -> Result<Offer, AllocError> {
    let (x, y) = place_of(net);
    let chain = List::from_slice(alloc, &[point(x, y), point(x.saturating_add(1_000), y)])?;
    let mut add = List::new(alloc);
    add.push(Metal::Wire {
        layer: 0,
        width: 200_000,
        chain,
    })?;
    Ok(Offer {
        base: 0,
        worker: 0,
        net,
        from: net as u64 * 2 + 1,
        to: net as u64 * 2 + 2,
        penalty: None,
        add,
        rip: List::new(alloc),
        shoves: List::new(alloc),
    })
}

/// The wires of the first nets, so many of them.
pub fn offers_of(alloc: Global, nets: u32) -> Result<Vec<Offer>, AllocError> {
    let mut offers = Vec::new(alloc);
    for net in 0..nets {
        offers.push(offer_of(alloc, net)?)?;
    }
    Ok(offers)
}
