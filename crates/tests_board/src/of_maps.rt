//! The moves by maps beside those that ask the copper, over all moves of both nets of small boards: the legal ones, and
//! those past routed items; once the maps are made, once they followed to copper of which an item went while another
//! came, and once they are back.

ghost use Rattle.std.specs.Prelude.{◌≡◌, ◌<◌, ◌≤◌, ◌∷◌, [], length, IfOk, OnOk};
ghost use Rattle.pcb_model.specs.Sound.{IsSound, Serves};
ghost use Rattle.route_lattice.specs.Fits.{FitsDesign};
ghost use Rattle.route_lattice.specs.Legal.{CanMove};
ghost use Rattle.ripup.specs.Rips.{CanRip};
ghost use Rattle.move_maps.specs.Maps.{AreMapsOf};
ghost use Rattle.tests_board.specs.Laying.{IsLaidOn};

use crate::board::board;
use crate::lattices::lattice_of;
use crate::laying::{CROSS, Routed, WALL, laid};
use geo_kernel::List;
use move_maps::{Counts, MoveMaps};
use pcb_model::{Design, Item, PlainCopper, copy_item};
use ripup::RipMoves;
use route_lattice::{Lattice, LegalMoves, Moves};
use route_plan::{fixed_maps, rips_of};
use std::alloc::{AllocError, Global};
use std::process::Abort;

/// How many moves of a net were compared, how many of them are open, and how many the map opens by itself.
type Seen = (u32, u32, u32);

/// Whether two kinds of moves answer alike for a move.
fn are_alike<M: Moves, L: Moves>(moves: &M, legal: &L, node: u32, i: u32) -> bool
    requires ready { M.ready moves.now }
    requires legal_ready { L.ready legal.now }
    requires node { node < (M.graph moves.now).count }
    requires legal_node { node < (L.graph legal.now).count }
    requires index { i < (M.graph moves.now).arity }
    requires legal_index { i < (L.graph legal.now).arity }
{
    moves.at(node, i) == legal.at(node, i)
        && moves.is_open(node, i) == legal.is_open(node, i)
        && moves.price(node, i) == legal.price(node, i)
}

/// Whether nothing is counted at a place.
fn is_free(counts: &Counts, place: u32) -> bool {
    let place = place as usize;
    place < counts.len() && counts.get(place) == 0
}

fn more(n: u32, one: bool) -> u32 {
    if one { n.saturating_add(1) } else { n }
}

/// What is seen of the moves so far and of those of one more node, or None where the two answer otherwise.
fn seen_at<M: Moves, L: Moves>(
    moves: &M,
    legal: &L,
    counts: &Counts,
    node: u32,
    before: Seen,
) -> Option<Seen>
    requires ready { M.ready moves.now }
    requires legal_ready { L.ready legal.now }
    requires node { node < (M.graph moves.now).count }
    requires legal_node { node < (L.graph legal.now).count }
{
    let (mut all, mut opened, mut free) = before;
    for i in 0..moves.arity().min(legal.arity()) {
        if !are_alike(moves, legal, node, i) {
            return None;
        }
        opened = more(opened, legal.is_open(node, i));
        free = more(free, is_free(counts, all));
        all = more(all, true);
    }
    Some((all, opened, free))
}

/// What is seen of all moves, or None where the two answer otherwise.
fn seen_by<M: Moves, L: Moves>(moves: &M, legal: &L, counts: &Counts) -> Option<Seen>
    requires ready { M.ready moves.now }
    requires legal_ready { L.ready legal.now }
{
    let mut seen = (0, 0, 0);
    for node in 0..moves.count().min(legal.count()) {
        seen = seen_at(moves, legal, counts, node, seen)?;
    }
    Some(seen)
}

/// What is seen of a net both by its map and by the windows round its own copper, or None where it has no map, or the
/// legal moves answer otherwise.
fn seen_of(
    alloc: Global,
    maps: &MoveMaps,
    lat: &Lattice,
    d: &Design,
    c: &PlainCopper,
    net: u32,
) -> Option<Seen>
    requires can_move { CanMove d.now lat.now net 2000000 }
    requires serves { Serves c.now d.now }
    requires maps { AreMapsOf d.now lat.now c.now maps.now }
{
    let legal = LegalMoves::of(lat, d, c, net, 2_000_000);
    match maps.net_moves(alloc, lat, d, c, net, 2_000_000) {
        Ok(Some(moves)) => {
            let counts = &moves.by_map.map.counts;
            let seen = seen_by(&moves.by_map, &legal, counts);
            if seen_by(&moves, &legal, counts) == seen {
                seen
            } else {
                None
            }
        }
        _ => None,
    }
}

/// What is seen of a net past routed items, or None where it has no map, or the copper answers otherwise.
fn passed_of<'a>(
    alloc: Global,
    maps: &'a MoveMaps,
    fixed: &'a MoveMaps,
    lat: &'a Lattice,
    d: &'a Design,
    c: &'a PlainCopper,
    net: u32,
) -> Option<Seen>
    requires can_rip { CanRip d.now lat.now net 2000000 500000 }
    requires serves { Serves c.now d.now }
    requires maps { AreMapsOf d.now lat.now c.now maps.now }
    requires fixed { AreMapsOf d.now lat.now d.now.fixed fixed.now }
{
    let rips = RipMoves::of(lat, d, c, net, 2_000_000, 500_000);
    match rips_of(alloc, maps, fixed, &rips) {
        Ok(Some(moves)) => {
            let map = moves.fixed;
            seen_by(&moves, &rips, &map.counts)
        }
        _ => None,
    }
}

/// What is to be seen of the legal moves of each of the two nets, and of those past routed items.
#[derive(Clone, Copy)]
struct Views {
    first: Seen,
    first_past: Seen,
    second: Seen,
    second_past: Seen,
}

/// Whether that is seen on this copper.
fn is_seen(
    alloc: Global,
    maps: &MoveMaps,
    fixed: &MoveMaps,
    lat: &Lattice,
    d: &Design,
    c: &PlainCopper,
    want: Views,
) -> bool
    requires sound { IsSound d.now }
    requires fits { FitsDesign d.now lat.now }
    requires two { 2 ≤ length d.now.nets }
    requires serves { Serves c.now d.now }
    requires maps { AreMapsOf d.now lat.now c.now maps.now }
    requires fixed { AreMapsOf d.now lat.now d.now.fixed fixed.now }
{
    seen_of(alloc, maps, lat, d, c, 0) == Some(want.first)
        && passed_of(alloc, maps, fixed, lat, d, c, 0) == Some(want.first_past)
        && seen_of(alloc, maps, lat, d, c, 1) == Some(want.second)
        && passed_of(alloc, maps, fixed, lat, d, c, 1) == Some(want.second_past)
}

fn only(alloc: Global, item: &Item) -> Result<List<Item>, AllocError>
    ensures { IfOk result (λ items. items ≡ item.now ∷ []) }
{
    let mut items = List::new(alloc);
    items.push(copy_item(alloc, item)?)?;
    Ok(items)
}

/// Brings the maps from the copper with the one item to that with the other.
fn exchange(
    alloc: Global,
    maps: &mut MoveMaps,
    lat: &Lattice,
    d: &Design,
    old: &Routed,
    new: &Routed,
) -> Result<(), AllocError>
    requires sound { IsSound d.now }
    requires fits { FitsDesign d.now lat.now }
    requires before { IsLaidOn d.now old.now.item old.now.copper }
    requires after { IsLaidOn d.now new.now.item new.now.copper }
    requires maps { AreMapsOf d.now lat.now old.now.copper maps.old }
    ensures { OnOk result (AreMapsOf d.now lat.now new.now.copper maps.new) }
{
    let gone = only(alloc, &old.item)?;
    let come = only(alloc, &new.item)?;
    maps.follow(lat, d, &new.copper, &gone, &come)
}

/// Whether the one is seen on the copper with the first item, the other on that with the second in its place, and the
/// one again on the first copper.
fn are_seen_in_turn<R: Abort>(
    rt: &R,
    alloc: Global,
    fixed: &MoveMaps,
    lat: &Lattice,
    d: &Design,
    first: &Routed,
    second: &Routed,
    one: Views,
    other: Views,
) -> bool
    requires sound { IsSound d.now }
    requires fits { FitsDesign d.now lat.now }
    requires two { 2 ≤ length d.now.nets }
    requires first { IsLaidOn d.now first.now.item first.now.copper }
    requires second { IsLaidOn d.now second.now.item second.now.copper }
    requires fixed { AreMapsOf d.now lat.now d.now.fixed fixed.now }
{
    let mut maps = MoveMaps::of(alloc, lat, d, &first.copper).expect(rt, "no maps");
    let before = is_seen(alloc, &maps, fixed, lat, d, &first.copper, one);
    exchange(alloc, &mut maps, lat, d, first, second).expect(rt, "no exchange");
    let between = is_seen(alloc, &maps, fixed, lat, d, &second.copper, other);
    exchange(alloc, &mut maps, lat, d, second, first).expect(rt, "no exchange");
    before && between && is_seen(alloc, &maps, fixed, lat, d, &first.copper, one)
}

/// Whether both are seen on a board of two nets, whose free wiring is laid in turn.
fn are_seen<R: Abort>(rt: &R, alloc: Global, text: &str, one: Views, other: Views) -> bool {
    let d = board(alloc, text).expect(rt, "no board");
    assert!(rt; d.nets.len() == 2);
    let lat = lattice_of(alloc, &d).expect(rt, "no lattice");
    let fixed = fixed_maps(alloc, &lat, &d).expect(rt, "no maps");
    let first = laid(alloc, &d, 0).expect(rt, "no first item");
    let second = laid(alloc, &d, 1).expect(rt, "no second item");
    are_seen_in_turn(rt, alloc, &fixed, &lat, &d, &first, &second, one, other)
}

// Each layer has 81 nodes, and each node 4 numbers of steps and 2 of vias: 576 steps and 162 vias are there. The wall
// shuts 104 of the steps and 18 of the vias for both nets. For the second net each pad shuts 18 moves, the wire 14
// more, and the via 18. A map opens by itself what is open for a net without copper, at the 98 inner nodes: of the 490
// moves there the wall shuts 98, each pad 16, the wire 14 more, and the via 18. Routed items shut no moves past them.
#[test]
fn maps_tell_the_moves_beside_a_wall(rt: HostRuntime) {
    let wire = Views {
        first: (972, 616, 346),
        first_past: (972, 616, 360),
        second: (972, 566, 346),
        second_past: (972, 580, 360),
    };
    let via = Views {
        first: (972, 616, 342),
        second: (972, 562, 342),
        ..wire
    };
    assert!(rt; are_seen(&rt, rt.alloc(), WALL, wire, via));
}

// Of 288 steps the pads of the first net shut 6 each, and its wire 40 more; those of the second net 8 each, and its
// wire 28 more. At the 49 inner nodes these are, of 196 steps, 1 each and 40 more, and 7 each and 28 more.
#[test]
fn maps_tell_the_moves_around_crossing_wires(rt: HostRuntime) {
    let along = Views {
        first: (324, 272, 140),
        first_past: (324, 272, 180),
        second: (324, 236, 140),
        second_past: (324, 276, 180),
    };
    let across = Views {
        first: (324, 244, 152),
        second: (324, 276, 152),
        ..along
    };
    assert!(rt; are_seen(&rt, rt.alloc(), CROSS, along, across));
}
