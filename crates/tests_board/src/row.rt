//! A worked row: a board of 10 mm by 10 mm, which has six tiles across and six up, its edge and four pads,
//! and a straight wire of net A that crosses the way between the two pads of net B.

ghost use Rattle.std.specs.Prelude.{◌≡◌, ◌<◌, [], ◌∷◌};
ghost use Rattle.pcb_model.specs.Bounds.{IsItemFit};
ghost use Rattle.pcb_tiles.specs.Spread.{ServesSpread};
ghost use Rattle.pcb_tiles.specs.Tiling.{own_block, asked_block, entries_in};
ghost use Rattle.tests_board.specs.Row.{row_area, row_items, wire_of_a, wire_of_b, edge, pad, at};

use crate::board::{opened, routed};
use crate::laying::CROSS;
use pcb_board::Board;
use pcb_model::{Copper, Design, Item, Steps};
use pcb_tiles::Tiles;
use std::alloc::Global;
use std::marker::Brand;
use std::sync::ledger::{Blank, Ledger};

/// The tiles of the wire of A, and how many entries a search looks at for the wire of B at a reach of 200,000 nm:
/// five of the edge, two of each of its pads and one of the wire. On a call that does nothing.
fn row_has_entries()
    ensures columns { ((own_block row_area wire_of_a).first_column ≡ 0)
        × ((own_block row_area wire_of_a).last_column ≡ 4) }
    ensures rows { ((own_block row_area wire_of_a).first_row ≡ 2) × ((own_block row_area wire_of_a).last_row ≡ 2) }
    ensures wire { entries_in row_area (wire_of_a ∷ []) (asked_block row_area 10000000 wire_of_b) ≡ 5 }
    ensures edge { entries_in row_area (edge ∷ []) (asked_block row_area 200000 wire_of_b) ≡ 5 }
    ensures pad { entries_in row_area (pad 3 (at 5000000 2000000) ∷ []) (asked_block row_area 200000 wire_of_b) ≡ 2 }
    ensures all { entries_in row_area row_items (asked_block row_area 200000 wire_of_b) ≡ 10 }
{}

fn clash_counting<L: Ledger>(tiles: &Tiles, d: &Design, a: &Item, blank: Blank) -> Option<u64>
    requires name { blank.name ≡ L.name }
    requires parts { blank.parts ≡ L.parts }
    requires whole { 0 < blank.parts }
    requires serves { ServesSpread tiles.now d.now }
    requires a_fits { IsItemFit a.now }
{
    let mut steps: Steps<L> = Steps::new(blank);
    tiles.next_clash(d, a, 0, &mut steps)
}

fn clash(tiles: &Tiles, d: &Design, a: &Item) -> Option<u64>
    requires serves { ServesSpread tiles.now d.now }
    requires a_fits { IsItemFit a.now }
{
    clash_counting::<Brand>(tiles, d, a, Blank::new(1))
}

/// The number of fixed items, and what the wire of B clashes with on the board, which has loaded the wire of A behind
/// them. The board's tiles are those of the row: their area is the box of its boundary, and their reach its clearance.
fn row_on(alloc: Global, board: &Board) -> Option<(usize, Option<u64>)> {
    board.keeps();
    let d = board.design();
    let b = routed(alloc, d, 1, 6)?;
    Some((d.fixed.len(), clash(board.items(), d, &b)))
}

#[test]
fn the_wire_of_a_is_in_the_way_of_that_of_b(rt: HostRuntime) {
    row_has_entries();
    let board = opened(rt.alloc(), CROSS).expect(&rt, "no board");
    assert!(rt; row_on(rt.alloc(), &board) == Some((5, Some(5))));
}
