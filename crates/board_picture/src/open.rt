//! Open connections: lines between the islands of each net.

ghost use Rattle.std.specs.Prelude.{◌≡◌, ◌++◌, ◌<◌, IfOk, OnOk, length};
ghost use Rattle.pcb_model.specs.Sound.{IsSound};
ghost use Rattle.board_picture.specs.Open.{island_place, line_between, lines_from, lines_of, AreOpenLines};

use geo_kernel::{List, Point};
use pcb_islands::{Island, islands};
use pcb_model::{Copper, Design};
use std::alloc::{AllocError, Global};

/// An open connection of a net: from the first pin of an island to that of the net's next one.
#[derive(Clone, Copy)]
pub struct OpenLine {
    pub net: u32,
    pub from: Point,
    pub to: Point,
}

fn island_place(d: &Design, island: &Island) -> Point
    ensures { result ≡ island_place d.now island.now }
{
    match island.pins.as_slice().get(0) {
        Some(pin) => match d.pins.as_slice().get(*pin as usize) {
            Some(p) => p.centre,
            None => Point { x: 0, y: 0 },
        },
        None => Point { x: 0, y: 0 },
    }
}

fn line_between(d: &Design, island: &Island, next: &Island) -> OpenLine
    ensures { result ≡ line_between d.now island.now next.now }
{
    OpenLine {
        net: island.net,
        from: island_place(d, island),
        to: island_place(d, next),
    }
}

fn push_from(
    lines: &mut List<OpenLine>,
    d: &Design,
    first: &Island,
    others: &[Island],
) -> Result<(), AllocError>
    ensures { OnOk result (lines.new ≡ lines.old ++ lines_from d.now first.now others.now) }
{
    let mut before = first;
    for island in others {
        lines.push(line_between(d, before, island))?;
        before = island;
    }
    Ok(())
}

fn push_lines(lines: &mut List<OpenLine>, d: &Design, found: &[Island]) -> Result<(), AllocError>
    ensures { OnOk result (lines.new ≡ lines.old ++ lines_of d.now found.now) }
{
    match found {
        [] => Ok(()),
        [first, others @ ..] => push_from(lines, d, first, others),
    }
}

/// The open connections of all nets, in the design's order: from each island of a net to its next one.
/// The only error is want of memory.
pub fn open_lines<C: Copper>(alloc: Global, d: &Design, c: &C) -> Result<List<OpenLine>, AllocError>
    requires sound { IsSound d.now }
    requires serves { C.serves c.now d.now }
    ensures { IfOk result (AreOpenLines d.now (C.items c.now)) }
{
    let mut lines = List::new(alloc);
    for net in 0..d.nets.len() as u32 {
        let found = islands(alloc, d, c, net)?;
        push_lines(&mut lines, d, found.as_slice())?;
    }
    Ok(lines)
}
