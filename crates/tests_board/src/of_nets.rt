//! The first net of small boards: its islands, what anchors its items, a walk's copper, and goals that are shut in.
//! The lattice of each has a line at each mm: four across and three up.

ghost use Rattle.std.specs.Prelude.{◌<◌, ◌≤◌, All, IfOk, IfSome};
ghost use Rattle.pcb_model.specs.Sound.{IsSound, Serves};
ghost use Rattle.route_lattice.specs.Fits.{FitsDesign};
ghost use Rattle.route_lattice.specs.Legal.{CanMove};
ghost use Rattle.route_lattice.specs.Mesh.{node_count};
ghost use Rattle.path_wire.specs.Wires.{IsNetWalk};

use crate::copper::fixed_plain;
use crate::lattices::{Says, holds};
use crate::offer_board::is_chain;
use cut_certificate::{are_shut_in, legal_moves_lead_back};
use geo_kernel::List;
use path_wire::{net_walks, walk_items};
use pcb_islands::{Island, is_whole, islands};
use pcb_model::{Design, Metal, PlainCopper};
use route_lattice::{Found, Lattice, LegalMoves, Walk, anchor_nodes, legal_graph_sound};
use std::alloc::{AllocError, Global};
use wave_search::least_walk;

// ---- islands and anchors

/// Three pins, of which a fixed wire joins the first and the last: on the board are its edge, three pads, and the wire.
const THREE_PINS: &str = "(pcb b (resolution um 10)
  (structure (layer F) (boundary (rect pcb 0 0 5000 4000)) (rule (width 200) (clearance 200)))
  (placement (component I (place C1 1000 1000 front 0) (place C2 3000 1000 front 0) (place C3 1000 3000 front 0)))
  (library (image I (pin S 1 0 0)) (padstack S (shape (circle F 600))))
  (network (net A (pins C1-1 C2-1 C3-1)))
  (wiring (wire (path F 200 1000 1000 1000 3000) (net A) (type fix))))";

fn is_island(found: &List<Island>, at: usize, pins: &[u32], items: &[u64]) -> bool {
    match found.get(at) {
        Some(island) => {
            island.net == 0 && island.pins.as_slice() == pins && island.items.as_slice() == items
        }
        None => false,
    }
}

fn has_islands(alloc: Global, d: &Design, copper: &PlainCopper) -> bool
    requires sound { IsSound d.now }
    requires serves { Serves copper.now d.now }
{
    if d.nets.is_empty() {
        return false;
    }
    match islands(alloc, d, copper, 0) {
        Ok(found) => {
            found.len() == 2
                && is_island(&found, 0, &[0, 2], &[1, 3, 4])
                && is_island(&found, 1, &[1], &[2])
                && !is_whole(&found)
        }
        Err(_) => false,
    }
}

/// Whether the fixed item at a place is anchored at just these nodes.
fn is_anchored(alloc: Global, d: &Design, lat: &Lattice, at: usize, nodes: &[u32]) -> bool
    requires sound { IsSound d.now }
    requires fits { FitsDesign d.now lat.now }
{
    let Some(item) = d.fixed.get(at) else {
        return false;
    };
    match anchor_nodes(alloc, lat, d, item) {
        Ok(found) => found.as_slice() == nodes,
        Err(_) => false,
    }
}

/// Pads are anchored at their centres, and the wire along its spine.
fn are_anchored(alloc: Global, d: &Design, lat: &Lattice) -> bool
    requires sound { IsSound d.now }
    requires fits { FitsDesign d.now lat.now }
{
    is_anchored(alloc, d, lat, 0, &[])
        && is_anchored(alloc, d, lat, 1, &[0])
        && is_anchored(alloc, d, lat, 2, &[2])
        && is_anchored(alloc, d, lat, 3, &[8])
        && is_anchored(alloc, d, lat, 4, &[0, 4, 8])
}

/// Its islands and what anchors its items.
struct ThreePins;

impl Says for ThreePins {
    fn holds(&self, alloc: Global, d: &Design, lat: &Lattice) -> bool {
        match fixed_plain(alloc, d) {
            Ok(copper) => has_islands(alloc, d, &copper) && are_anchored(alloc, d, lat),
            Err(_) => false,
        }
    }
}

#[test]
fn a_fixed_wire_joins_two_of_three_pins_and_is_anchored_along_its_spine(rt: HostRuntime) {
    assert!(rt; holds(rt.alloc(), THREE_PINS, 1_000_000, &ThreePins) == Ok(true));
}

// ---- a walk

/// A pad on the front and one on the back. Keepouts leave one way: on the front to the right, up, and there by a
/// via to the back.
const ONE_WAY: &str = "(pcb b (resolution um 10)
  (structure (layer F) (layer B) (boundary (rect pcb 0 0 5000 4000))
    (keepout (rect F 2500 0 5000 4000)) (keepout (circle F 400 1000 2000)) (via_keepout (rect F 0 0 5000 2400))
    (via V) (rule (width 200) (clearance 200)))
  (placement (component I (place C1 1000 1000 front 0) (place C2 4000 3000 back 0)))
  (library (image I (pin S 1 0 0)) (padstack S (shape (circle F 600)))
    (padstack V (shape (circle F 600)) (shape (circle B 600))))
  (network (net A (pins C1-1 C2-1))))";

/// A least walk of the first net from the starts to the goals.
fn walk_between(
    alloc: Global,
    lat: &Lattice,
    d: &Design,
    copper: &PlainCopper,
    starts: &List<u32>,
    goals: &List<u32>,
) -> Result<Option<Walk>, AllocError>
    requires can_move { CanMove d.now lat.now 0 2000000 }
    requires serves { Serves copper.now d.now }
    requires starts { All (λ v. v < node_count lat.now) starts.now }
    ensures { IfOk result (λ found. IfSome found (λ w. IsNetWalk d.now lat.now 0 w.nodes w.moves)) }
{
    legal_graph_sound();
    net_walks();
    let moves = LegalMoves::of(lat, d, copper, 0, 2_000_000);
    let Found::Walk(walk) = least_walk(alloc, &moves, starts, goals)? else {
        return Ok(None);
    };
    Ok(Some(walk))
}

/// Whether it is a wire of 200 um on a layer, with these points.
fn is_wire(metal: &Metal, on: u8, um: &[(u16, u16)]) -> bool {
    match metal {
        Metal::Wire {
            layer,
            width,
            chain,
        } => *layer == on && *width == 200_000 && is_chain(chain.as_slice(), um),
        _ => false,
    }
}

fn are_laid(metals: &[Metal]) -> bool {
    match metals {
        [front, Metal::Via { padstack, at }, back] => {
            *padstack == 1
                && is_wire(front, 0, &[(1_000, 1_000), (2_000, 1_000), (2_000, 3_000)])
                && is_chain(std::slice::from_ref(at), &[(2_000, 3_000)])
                && is_wire(back, 1, &[(2_000, 3_000), (4_000, 3_000)])
        }
        _ => false,
    }
}

/// Whether the walk is the one way, of 5 mm and a via, and its copper is two wires and a via.
fn is_one_way(alloc: Global, lat: &Lattice, d: &Design, walk: &Walk) -> bool
    requires { IsNetWalk d.now lat.now 0 walk.now.nodes walk.now.moves }
{
    if walk.price != 7_000_000 || walk.nodes.as_slice() != [0, 1, 5, 9, 21, 22, 23].as_slice() {
        return false;
    }
    match walk_items(alloc, lat, d, 0, walk) {
        Ok(metals) => are_laid(metals.as_slice()),
        Err(_) => false,
    }
}

/// Whether the walk from node 0 to node 23 is the one way.
fn goes_one_way(alloc: Global, lat: &Lattice, d: &Design, copper: &PlainCopper) -> bool
    requires can_move { CanMove d.now lat.now 0 2000000 }
    requires serves { Serves copper.now d.now }
    requires there { 0 < node_count lat.now }
{
    let Ok(starts) = List::from_slice(alloc, &[0]) else {
        return false;
    };
    let Ok(goals) = List::from_slice(alloc, &[23]) else {
        return false;
    };
    match walk_between(alloc, lat, d, copper, &starts, &goals) {
        Ok(Some(walk)) => is_one_way(alloc, lat, d, &walk),
        _ => false,
    }
}

/// Its walk is the one way.
struct OneWay;

impl Says for OneWay {
    fn holds(&self, alloc: Global, d: &Design, lat: &Lattice) -> bool {
        if d.nets.is_empty() || lat.count() == 0 {
            return false;
        }
        match fixed_plain(alloc, d) {
            Ok(copper) => goes_one_way(alloc, lat, d, &copper),
            Err(_) => false,
        }
    }
}

#[test]
fn a_walk_with_a_corner_and_a_via_is_two_wires_and_a_via(rt: HostRuntime) {
    assert!(rt; holds(rt.alloc(), ONE_WAY, 1_000_000, &OneWay) == Ok(true));
}

// ---- goals that are shut in

/// A goal, how many nodes are followed at most, and whether the goal is then known to be shut in.
struct ShutIn(u32, u32, bool);

/// The one way leads to node 23. Node 2 lies in the keepout of the front, and there is no node 24.
static SHUT_IN: [ShutIn; 5] = [
    ShutIn(23, 4_000, false),
    ShutIn(23, 3, false),
    ShutIn(2, 4_000, true),
    ShutIn(2, 0, false),
    ShutIn(24, 4_000, false),
];

/// Whether the goals are known to be shut in from the starts.
fn is_known(
    alloc: Global,
    lat: &Lattice,
    d: &Design,
    copper: &PlainCopper,
    starts: &List<u32>,
    goals: &List<u32>,
    most: u32,
) -> Result<bool, AllocError>
    requires can_move { CanMove d.now lat.now 0 2000000 }
    requires serves { Serves copper.now d.now }
    requires starts { All (λ v. v < node_count lat.now) starts.now }
{
    legal_graph_sound();
    legal_moves_lead_back();
    let moves = LegalMoves::of(lat, d, copper, 0, 2_000_000);
    are_shut_in(alloc, &moves, starts, goals, most)
}

/// Whether that is known from node 0.
fn is_told(
    alloc: Global,
    lat: &Lattice,
    d: &Design,
    copper: &PlainCopper,
    starts: &List<u32>,
    row: &ShutIn,
) -> bool
    requires can_move { CanMove d.now lat.now 0 2000000 }
    requires serves { Serves copper.now d.now }
    requires starts { All (λ v. v < node_count lat.now) starts.now }
{
    let Ok(goals) = List::from_slice(alloc, &[row.0]) else {
        return false;
    };
    match is_known(alloc, lat, d, copper, starts, &goals, row.1) {
        Ok(known) => known == row.2,
        Err(_) => false,
    }
}

/// Whether each row is so.
fn are_told(alloc: Global, lat: &Lattice, d: &Design, copper: &PlainCopper) -> bool
    requires can_move { CanMove d.now lat.now 0 2000000 }
    requires serves { Serves copper.now d.now }
    requires there { 0 < node_count lat.now }
{
    let Ok(starts) = List::from_slice(alloc, &[0]) else {
        return false;
    };
    for row in &SHUT_IN {
        if !is_told(alloc, lat, d, copper, &starts, row) {
            return false;
        }
    }
    true
}

/// Which of its nodes are known to be shut in.
struct Cornered;

impl Says for Cornered {
    fn holds(&self, alloc: Global, d: &Design, lat: &Lattice) -> bool {
        if d.nets.is_empty() || lat.count() == 0 {
            return false;
        }
        match fixed_plain(alloc, d) {
            Ok(copper) => are_told(alloc, lat, d, &copper),
            Err(_) => false,
        }
    }
}

#[test]
fn a_goal_is_known_to_be_shut_in_where_no_move_leads_to_it(rt: HostRuntime) {
    assert!(rt; holds(rt.alloc(), ONE_WAY, 1_000_000, &Cornered) == Ok(true));
}
