//! What is planned for nets, what moves past copper cost, and how a wire is shoved by a line; lines are 1 mm apart.
//! Lengths in chains are in um, penalties and prices in nm. Nodes are numbered by rows of nine.

ghost use Rattle.std.specs.Prelude.{◌≡◌, ◌<◌, ◌≤◌, ◌^◌, IfSome};
ghost use Rattle.pcb_model.specs.Plain.{IsPlainCopper};
ghost use Rattle.pcb_model.specs.Sound.{IsSound, Serves};
ghost use Rattle.ripup.specs.Rips.{CanRip};
ghost use Rattle.route_lattice.specs.Fits.{FitsDesign};
ghost use Rattle.route_lattice.specs.Mesh.{node_count};
ghost use Rattle.route_lattice.specs.Walks.{IsSound as IsGraphSound};

use crate::board::opened;
use crate::lattices::lattice_of;
use crate::offer_board::{CROSS, WALLS, is_chain, takes_first};
use cut_certificate::{check_cut, make_cut};
use geo_kernel::List;
use pcb_board::{Board, Offer, Shoved, Snap, boards_serve};
use pcb_islands::{Island, islands};
use pcb_model::{Copper, Design, Metal};
use ripup::{RipMoves, rip_graph_sound};
use route_lattice::{Found, Lattice, Moves};
use route_plan::{Planned, plan};
use shove::shove_run;
use std::alloc::Global;
use std::process::Abort;
use wave_search::least_walk;

// ---- what is planned

/// An offer from an item to another: its wire, what it rips, and the wires that it shoves.
struct Route {
    from: u64,
    to: u64,
    wire: &'static [(u16, u16)],
    rip: &'static [u64],
    shoves: &'static [(u64, &'static [(u16, u16)])],
}

/// What is planned for a net: an offer, nothing as so many nodes are all that is reached, or nothing as it is whole.
enum Want {
    Offer(Route),
    Shut(usize),
    Whole,
}

/// Whether these wires are shoved to these chains.
fn are_shoved(shoves: &[Shoved], want: &[(u64, &[(u16, u16)])]) -> bool {
    match (shoves, want) {
        ([], []) => true,
        ([shoved], [(id, um)]) => shoved.id == *id && is_chain(shoved.chain.as_slice(), um),
        _ => false,
    }
}

fn is_route(offer: &Offer, route: &Route) -> bool {
    let is_laid = match offer.add.as_slice() {
        [Metal::Wire { chain, .. }] => is_chain(chain.as_slice(), route.wire),
        _ => false,
    };
    is_laid
        && offer.from == route.from
        && offer.to == route.to
        && offer.rip.as_slice() == route.rip
        && are_shoved(offer.shoves.as_slice(), route.shoves)
}

fn is_planned(planned: &Planned, want: &Want) -> bool {
    match (planned, want) {
        (Planned::Offer(offer), Want::Offer(route)) => is_route(offer, route),
        (Planned::Shut(reach), Want::Shut(nodes)) => reach.nodes.len() == *nodes,
        (Planned::Whole, Want::Whole) => true,
        _ => false,
    }
}

fn small(penalty: Option<u64>) -> Option<u64>
    ensures { IfSome result (λ p. p ≤ 2 ^ 30) }
{
    match penalty {
        Some(p) if p <= 1_000_000_000 => Some(p),
        _ => None,
    }
}

/// Whether this is planned for a net, where a via costs 2 mm and a routed item in the way the penalty.
fn plans(
    alloc: Global,
    lat: &Lattice,
    snap: &Snap,
    net: u32,
    penalty: Option<u64>,
    want: &Want,
) -> bool
    requires sound { IsSound snap.now.design }
    requires plain { IsPlainCopper snap.now.design }
    requires fits { FitsDesign snap.now.design lat.now }
    requires serves { Serves snap.now.items snap.now.design }
{
    let d = snap.design();
    if net as usize >= d.nets.len() {
        return false;
    }
    match plan(alloc, lat, d, snap, 2_000_000, 0, net, small(penalty)) {
        Ok(planned) => is_planned(&planned, want),
        Err(_) => false,
    }
}

// ---- what cuts an island off

/// Whether a cut of so many nodes and blocks parts the island from the others.
fn is_cut_off(
    alloc: Global,
    lat: &Lattice,
    snap: &Snap,
    island: &Island,
    others: &List<Island>,
    nodes: usize,
    blocks: usize,
) -> bool
    requires sound { IsSound snap.now.design }
    requires fits { FitsDesign snap.now.design lat.now }
    requires serves { Serves snap.now.items snap.now.design }
{
    let d = snap.design();
    if island.pins.is_empty() || island.net as usize >= d.nets.len() {
        return false;
    }
    match make_cut(alloc, lat, d, snap, island, 2_000_000) {
        Ok(Some(cut)) => {
            cut.reach.nodes.len() == nodes
                && cut.blocked.len() == blocks
                && check_cut(lat, d, snap, island, others, &cut)
        }
        _ => false,
    }
}

/// Whether the island at this place of a net is parted so from the others of the net.
fn cuts(
    alloc: Global,
    lat: &Lattice,
    snap: &Snap,
    net: u32,
    at: usize,
    nodes: usize,
    blocks: usize,
) -> bool
    requires sound { IsSound snap.now.design }
    requires fits { FitsDesign snap.now.design lat.now }
    requires serves { Serves snap.now.items snap.now.design }
{
    let d = snap.design();
    if net as usize >= d.nets.len() {
        return false;
    }
    match islands(alloc, d, snap, net) {
        Ok(mut others) => {
            if at >= others.len() {
                return false;
            }
            let island = others.remove(at);
            is_cut_off(alloc, lat, snap, &island, &others, nodes, blocks)
        }
        Err(_) => false,
    }
}

// ---- what moves cost

/// What a least walk costs from one node to another.
fn price_between<M: Moves>(alloc: Global, moves: &M, from: u32, to: u32) -> Option<u64>
    requires ready { M.ready moves.now }
    requires sound { IsGraphSound (M.graph moves.now) }
    requires from { from < (M.graph moves.now).count }
{
    let mut starts = List::new(alloc);
    starts.push(from).ok()?;
    let mut goals = List::new(alloc);
    goals.push(to).ok()?;
    match least_walk(alloc, moves, &starts, &goals) {
        Ok(Found::Walk(walk)) => Some(walk.price),
        _ => None,
    }
}

/// What a least walk of the second net costs that passes routed items.
fn passing_price(
    alloc: Global,
    lat: &Lattice,
    d: &Design,
    snap: &Snap,
    penalty: u64,
    from: u32,
    to: u32,
) -> Option<u64>
    requires can { CanRip d.now lat.now 1 2000000 penalty }
    requires own { snap.now.design ≡ d.now }
    requires serves { Serves snap.now.items d.now }
    requires from { from < node_count lat.now }
{
    let moves = RipMoves::of(lat, d, snap, 1, 2_000_000, penalty);
    rip_graph_sound();
    price_between(alloc, &moves, from, to)
}

/// Whether a least walk of the second net past routed items has this price from one node to another.
fn costs(
    alloc: Global,
    lat: &Lattice,
    snap: &Snap,
    from: u32,
    to: u32,
    penalty: u64,
    price: u64,
) -> bool
    requires sound { IsSound snap.now.design }
    requires fits { FitsDesign snap.now.design lat.now }
    requires serves { Serves snap.now.items snap.now.design }
{
    let d = snap.design();
    if d.nets.len() < 2 || from >= lat.count() || penalty > 1_000_000_000 {
        return false;
    }
    passing_price(alloc, lat, d, snap, penalty, from, to) == Some(price)
}

// ---- how a wire is shoved

/// Whether the second of an item's three runs goes to the next line, upwards or downwards, so that the wire has this
/// chain, or doesn't where the chain is empty.
fn shoves(alloc: Global, lat: &Lattice, snap: &Snap, id: u64, up: bool, um: &[(u16, u16)]) -> bool
    requires sound { IsSound snap.now.design }
    requires fits { FitsDesign snap.now.design lat.now }
    requires serves { Serves snap.now.items snap.now.design }
{
    let Some(item) = snap.item(id) else {
        return false;
    };
    match &item.metal {
        Metal::Wire { chain, .. } if chain.len() == 4 => {
            match shove_run(alloc, lat, snap.design(), snap, item, 1, up) {
                Ok(Some(shape)) => is_chain(shape.chain.as_slice(), um),
                Ok(None) => um.is_empty(),
                Err(_) => false,
            }
        }
        _ => false,
    }
}

// ---- two boards

/// What a test says of a board.
enum Tells {
    /// What is planned for a net, by a penalty or without one.
    Plans(u32, Option<u64>, Want),
    /// By a cut of how many nodes and blocks the island at a place of a net is parted from its others.
    Cuts(u32, usize, usize, usize),
    /// What a least walk of the second net from node to node costs, past routed items at a penalty.
    Costs(u32, u32, u64, u64),
    /// To which chain an item is shoved upwards or downwards, or none.
    Shoves(u64, bool, &'static [(u16, u16)]),
}

fn is_so(alloc: Global, lat: &Lattice, snap: &Snap, tells: &Tells) -> bool
    requires sound { IsSound snap.now.design }
    requires plain { IsPlainCopper snap.now.design }
    requires fits { FitsDesign snap.now.design lat.now }
    requires serves { Serves snap.now.items snap.now.design }
{
    match tells {
        Tells::Plans(net, penalty, want) => plans(alloc, lat, snap, *net, *penalty, want),
        Tells::Cuts(net, at, nodes, blocks) => {
            cuts(alloc, lat, snap, *net, *at, *nodes, *blocks)
        }
        Tells::Costs(from, to, penalty, price) => {
            costs(alloc, lat, snap, *from, *to, *penalty, *price)
        }
        Tells::Shoves(id, up, um) => shoves(alloc, lat, snap, *id, *up, um),
    }
}

fn are_so(alloc: Global, lat: &Lattice, snap: &Snap, rows: &[Tells]) -> bool
    requires sound { IsSound snap.now.design }
    requires plain { IsPlainCopper snap.now.design }
    requires fits { FitsDesign snap.now.design lat.now }
    requires serves { Serves snap.now.items snap.now.design }
{
    for row in rows {
        if !is_so(alloc, lat, snap, row) {
            return false;
        }
    }
    true
}

/// Whether all of it is so of a board.
fn hold<R: Abort>(rt: &R, alloc: Global, board: &Board, rows: &[Tells]) -> bool
    requires { IsPlainCopper board.now.design }
{
    board.keeps();
    boards_serve();
    match board.snap() {
        Ok(snap) => {
            let lat = lattice_of(alloc, snap.design()).expect(rt, "no lattice");
            are_so(alloc, &lat, &snap, rows)
        }
        Err(_) => false,
    }
}

/// The straight wire of the second net.
const STRAIGHT: Route = Route {
    from: 3,
    to: 4,
    wire: &[(5_000, 2_000), (5_000, 8_000)],
    rip: &[],
    shoves: &[],
};

/// The same, laid over that of the first net.
const STRAIGHT_OVER: Route = Route {
    from: 3,
    to: 4,
    wire: &[(5_000, 2_000), (5_000, 8_000)],
    rip: &[5],
    shoves: &[],
};

static UNLAID: [Tells; 1] = [Tells::Plans(1, None, Want::Offer(STRAIGHT))];

/// Once the first net is laid. The walk over its wire is of 6 mm, and two of its moves are in the wire's way.
static LAID: [Tells; 7] = [
    Tells::Plans(1, None, Want::Shut(36)),
    Tells::Cuts(1, 0, 36, 9),
    Tells::Cuts(1, 1, 36, 9),
    Tells::Plans(0, None, Want::Whole),
    Tells::Plans(0, Some(10_000_000), Want::Whole),
    Tells::Plans(1, Some(10_000_000), Want::Offer(STRAIGHT_OVER)),
    Tells::Costs(13, 67, 10_000_000, 26_000_000),
];

#[test]
fn a_net_is_joined_by_a_least_walk_or_shut_in_or_whole_or_rips(rt: HostRuntime) {
    let alloc = rt.alloc();
    let mut board = opened(alloc, CROSS).expect(&rt, "no board");
    assert!(rt; hold(&rt, alloc, &board, &UNLAID));
    assert!(rt; takes_first(alloc, &mut board) && hold(&rt, alloc, &board, &LAID));
}

/// The chain of the free wire between the walls, with its middle run on the next line.
const UP: [(u16, u16); 6] = [
    (1_000, 8_000),
    (1_000, 5_000),
    (1_000, 6_000),
    (9_000, 6_000),
    (9_000, 5_000),
    (9_000, 8_000),
];

/// Through the gap along the free wire, by 10 mm with six moves in its way.
const ALONG: Route = Route {
    from: 5,
    to: 6,
    wire: &[
        (3_000, 2_000),
        (3_000, 5_000),
        (7_000, 5_000),
        (7_000, 2_000),
    ],
    rip: &[],
    shoves: &[(7, &UP)],
};

/// Through the gap on the next line, over the free wire and back, by 12 mm with four moves in its way.
const OVER: Route = Route {
    from: 5,
    to: 6,
    wire: &[
        (3_000, 2_000),
        (3_000, 6_000),
        (7_000, 6_000),
        (7_000, 2_000),
    ],
    rip: &[7],
    shoves: &[],
};

static WALLED: [Tells; 6] = [
    Tells::Plans(1, Some(500_000), Want::Offer(ALONG)),
    Tells::Plans(1, Some(10_000_000), Want::Offer(OVER)),
    Tells::Costs(11, 15, 500_000, 13_000_000),
    Tells::Costs(11, 15, 10_000_000, 52_000_000),
    Tells::Shoves(7, true, &UP),
    Tells::Shoves(7, false, &[]),
];

#[test]
fn a_wire_in_a_gap_is_shoved_where_it_fits_and_ripped_at_a_greater_penalty(rt: HostRuntime) {
    let alloc = rt.alloc();
    let board = opened(alloc, WALLS).expect(&rt, "no board");
    assert!(rt; hold(&rt, alloc, &board, &WALLED));
}
