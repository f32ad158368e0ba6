//! Whether tiles and a plain list give the same answers to all calls of copper.
//! The calls are made about the items and the probes that free wiring makes, and from several ids on.

ghost use Rattle.std.specs.Prelude.{◌≡◌, ◌<◌};
ghost use Rattle.pcb_model.specs.Bounds.{IsItemFit, IsProbeFit};
ghost use Rattle.pcb_model.specs.Sound.{IsSound, Serves};
ghost use Rattle.pcb_tiles.specs.Spread.{ServesSpread};

use crate::board::{probe, routed};
use pcb_model::{Copper, Design, Item, PlainCopper, Probe, Steps};
use pcb_tiles::Tiles;
use std::alloc::Global;
use std::marker::Brand;
use std::sync::ledger::{Blank, Ledger};

/// The id of the items that are asked about: no other has it.
const ASKED: u64 = 100_000;

fn is_same(a: Option<&Item>, b: Option<&Item>) -> bool {
    match (a, b) {
        (None, None) => true,
        (Some(a), Some(b)) => { a.id == b.id && a.net == b.net && a.pieces.len() == b.pieces.len() }
        _ => false,
    }
}

/// Whether both hold the same items below an id.
fn same_below(plain: &PlainCopper, tiles: &Tiles, end: u64) -> bool {
    for id in 0..end {
        if !is_same(plain.item(id), tiles.item(id))
            || !is_same(plain.next_item(id), tiles.next_item(id))
        {
            return false;
        }
    }
    true
}

fn same_of_item<L: Ledger>(
    plain: &PlainCopper,
    tiles: &Tiles,
    d: &Design,
    a: &Item,
    from: u64,
    steps: &mut Steps<L>,
) -> bool
    requires plain { Serves plain.now d.now }
    requires tiles { ServesSpread tiles.now d.now }
    requires a_fits { IsItemFit a.now }
{
    let clash = plain.next_clash(d, a, from, steps);
    let touch = plain.next_touch(a, from, steps);
    tiles.next_clash(d, a, from, steps) == clash && tiles.next_touch(a, from, steps) == touch
}

fn same_of_probe<L: Ledger>(
    plain: &PlainCopper,
    tiles: &Tiles,
    d: &Design,
    p: &Probe,
    from: u64,
    steps: &mut Steps<L>,
) -> bool
    requires plain { Serves plain.now d.now }
    requires tiles { ServesSpread tiles.now d.now }
    requires p_fits { IsProbeFit d.now p.now }
{
    let block = plain.next_block(d, 0, p, from, steps);
    let blocked = plain.is_blocked(d, 0, p, steps);
    tiles.next_block(d, 0, p, from, steps) == block && tiles.is_blocked(d, 0, p, steps) == blocked
}

/// Whether both answer alike about free wiring, from an id on.
fn same_at<L: Ledger>(
    alloc: Global,
    plain: &PlainCopper,
    tiles: &Tiles,
    d: &Design,
    at: usize,
    from: u64,
    steps: &mut Steps<L>,
) -> Option<bool>
    requires sound { IsSound d.now }
    requires plain { Serves plain.now d.now }
    requires tiles { ServesSpread tiles.now d.now }
{
    let p = probe(d, at)?;
    let a = routed(alloc, d, at, ASKED)?;
    let item = same_of_item(plain, tiles, d, &a, from, steps);
    Some(item && same_of_probe(plain, tiles, d, &p, from, steps))
}

/// Whether both answer alike about all free wiring, from several ids on.
fn same_counting<L: Ledger>(
    alloc: Global,
    plain: &PlainCopper,
    tiles: &Tiles,
    d: &Design,
    blank: Blank,
) -> bool
    requires name { blank.name ≡ L.name }
    requires parts { blank.parts ≡ L.parts }
    requires whole { 0 < blank.parts }
    requires sound { IsSound d.now }
    requires plain { Serves plain.now d.now }
    requires tiles { ServesSpread tiles.now d.now }
{
    let mut steps: Steps<L> = Steps::new(blank);
    for from in [0, 3, 20, 100, 1_000] {
        for at in 0..d.free.len() {
            if same_at(alloc, plain, tiles, d, at, from, &mut steps) != Some(true) {
                return false;
            }
        }
    }
    true
}

/// Whether both answer alike about all free wiring and all ids.
pub(crate) fn same(alloc: Global, plain: &PlainCopper, tiles: &Tiles, d: &Design) -> bool
    requires sound { IsSound d.now }
    requires plain { Serves plain.now d.now }
    requires tiles { ServesSpread tiles.now d.now }
{
    same_counting::<Brand>(alloc, plain, tiles, d, Blank::new(1)) && same_below(plain, tiles, 400)
}
