//! Searches among cells: around walls, by a bound, by a rule of ties, and for the stated walk.
//! A cell's number is its place in the map that shows it.

ghost use Rattle.std.specs.Prelude.{◌≡◌, ◌∷◌, [], ◌<◌, All, length, cond, ◌==◌};
ghost use Rattle.wave_search.specs.Bounds.{IsBound};
ghost use Rattle.wave_search.specs.Cells.{cells_graph};

use crate::cells::{Cells, cells_sound};
use geo_kernel::List;
use route_lattice::{Found, Move, Moves};
use std::alloc::{AllocError, Global};
use std::process::Abort;
use wave_search::{
    Bound, Heading, NoBound, Search, Ties, guided_walk, heading_of, least_walk, stated_walk,
};

/// A least walk from a cell to one of the goals, or all that is reached; from no start where there is no such cell.
fn search(alloc: Global, cells: &Cells, from: u32, goals: &[u32]) -> Result<Found, AllocError> {
    let starts = cells.only(alloc, from)?;
    let goals = List::from_slice(alloc, goals)?;
    cells_sound(cells);
    least_walk(alloc, cells, &starts, &goals)
}

/// Whether a walk of this price over these nodes was found, or at price 0 just these nodes are reached.
fn is_told(found: &Found, price: u64, nodes: &[u32]) -> bool {
    match found {
        Found::Walk(walk) => walk.price == price && walk.nodes.as_slice() == nodes,
        Found::Closed(reach) => price == 0 && reach.nodes.as_slice() == nodes,
    }
}

// ---- small boards, without a bound and by one

const HOOK: &str = "......1.1..1.1..111......";

const CLOSED: &str = "......1.1..1.1......";

const ONE: &str = "....7....";

const CORRIDOR: &str = ".........191111.........";

/// One more step is to be paid for wherever the goal isn't.
#[derive(Drop)]
struct OneStep {
    goal: u32,
}

impl Bound for OneStep {
    ghost low_of = { λ s v. cond (v == s.goal) 0 1 };

    fn low(&self, node: u32) -> u64 {
        if node == self.goal { 0 } else { 1 }
    }
}

/// It is a bound among cells, since a cell of price 0 is a wall. A law, on a call that does nothing.
fn one_step_bounds(cells: &Cells, goals: &List<u32>, goal: u32)
    requires { goals.now ≡ goal ∷ [] }
    ensures { IsBound (cells_graph cells.now.prices cells.now.offsets cells.now.width) goals.now
        (λ v. cond (v == goal) 0 1) }
{}

/// A least walk from a cell to another, found with that bound.
fn guided(alloc: Global, cells: &Cells, from: u32, goal: u32) -> Result<Found, AllocError> {
    let starts = cells.only(alloc, from)?;
    let goals = List::from_slice(alloc, &[goal])?;
    cells_sound(cells);
    one_step_bounds(cells, &goals, goal);
    guided_walk(alloc, cells, &OneStep { goal }, &starts, &goals)
}

/// The width of a map, the map, a cell, the goals, the price of a least walk to one of them, and its nodes; or at
/// price 0 the nodes that are reached.
struct Walks(u8, &'static str, u32, &'static [u32], u64, &'static [u32]);

fn is_found(found: Result<Found, AllocError>, walks: &Walks) -> bool {
    match found {
        Ok(found) => is_told(&found, walks.4, walks.5),
        Err(_) => false,
    }
}

/// Whether that is found on its map, and by a bound too where there is one goal.
fn are_found<R: Abort>(rt: &R, alloc: Global, walks: &Walks) -> bool {
    let cells = Cells::drawn(alloc, walks.0, walks.1).expect(rt, "no map");
    is_found(search(alloc, &cells, walks.2, walks.3), walks)
        && match walks.3 {
            [goal] => is_found(guided(alloc, &cells, walks.2, *goal), walks),
            _ => true,
        }
}

static WALKS: [Walks; 6] = [
    Walks(5, HOOK, 6, &[8], 6, &[6, 11, 16, 17, 18, 13, 8]),
    Walks(5, CLOSED, 11, &[8], 0, &[6, 11]),
    Walks(3, ONE, 4, &[4], 0, &[4]),
    Walks(3, ONE, 9, &[4], 0, &[]),
    Walks(8, CORRIDOR, 11, &[9, 14, 99], 3, &[11, 12, 13, 14]),
    Walks(8, CORRIDOR, 9, &[14], 13, &[9, 10, 11, 12, 13, 14]),
];

#[test]
fn a_least_walk_goes_round_walls_or_all_that_is_reached_is_told(rt: HostRuntime) {
    for walks in &WALKS {
        assert!(rt; are_found(&rt, rt.alloc(), walks), "in {}", walks.1);
    }
}

// ---- ties, and one memory

/// Few turns.
struct FewTurns;

impl Ties for FewTurns {
    fn tells(&self) -> bool {
        true
    }

    fn cost(&self, _node: u32, m: Move, _price: u64, next: Heading) -> u64 {
        match (heading_of(m), next) {
            (Heading::Across, Heading::Up) | (Heading::Up, Heading::Across) => 1,
            _ => 0,
        }
    }
}

/// A map of six columns, the goals, the price of a least walk from cell 7 to one of them, and its nodes if it has few
/// turns.
struct Straight(&'static str, &'static [u32], u64, &'static [u32]);

/// Whether the walk of few turns is that one.
fn is_straight(
    alloc: Global,
    search: &mut Search,
    cells: &Cells,
    starts: &List<u32>,
    goals: &List<u32>,
    straight: &Straight,
) -> bool
    requires size { search.old ≡ length cells.now.prices }
    requires starts { All (λ u. u < length cells.now.prices) starts.now }
    ensures { search.new ≡ search.old }
{
    cells_sound(cells);
    match search.tied_walk(alloc, cells, &NoBound, &FewTurns, starts, goals) {
        Ok(found) => is_told(&found, straight.2, straight.3),
        Err(_) => false,
    }
}

/// Whether a least walk has this price.
fn is_as_cheap(
    alloc: Global,
    search: &mut Search,
    cells: &Cells,
    starts: &List<u32>,
    goals: &List<u32>,
    price: u64,
) -> bool
    requires size { search.old ≡ length cells.now.prices }
    requires starts { All (λ u. u < length cells.now.prices) starts.now }
{
    cells_sound(cells);
    match search.least_walk(alloc, cells, starts, goals) {
        Ok(Found::Walk(walk)) => walk.price == price,
        _ => false,
    }
}

/// Whether both are so on its map, by one memory.
fn goes_straight<R: Abort>(rt: &R, alloc: Global, straight: &Straight) -> bool {
    let cells = Cells::drawn(alloc, 6, straight.0).expect(rt, "no map");
    let mut search = Search::new(alloc, cells.count()).expect(rt, "no memory");
    let starts = cells.only(alloc, 7).expect(rt, "no start");
    let goals = List::from_slice(alloc, straight.1).expect(rt, "no goals");
    is_straight(alloc, &mut search, &cells, &starts, &goals, straight)
        && is_as_cheap(alloc, &mut search, &cells, &starts, &goals, straight.2)
}

static STRAIGHT: [Straight; 2] = [
    Straight(
        ".......111...1111..1111..1111.......",
        &[28, 35],
        6,
        &[7, 13, 19, 25, 26, 27, 28],
    ),
    Straight(
        ".......11....1111..1111..1111.......",
        &[15, 20, 25],
        3,
        &[7, 13, 19, 25],
    ),
];

#[test]
fn of_equally_cheap_walks_and_goals_the_straightest_is_taken(rt: HostRuntime) {
    for straight in &STRAIGHT {
        assert!(rt;
            goes_straight(&rt, rt.alloc(), straight),
            "in {}",
            straight.0
        );
    }
}

// ---- stated walks

/// Nine cells, each of price 1.
const SQUARE: &str = "......111..111..111......";

/// Through the cell of price 3 it costs as much as round it.
const DEAR: &str = "......111..131......";

/// In a column of cells a move to the next cell and one to the next row lead to the same.
const COLUMN: &str = ".111.";

/// The width of a map, the map, a cell, the goals, the price of the stated walk to one of them, its nodes, and the
/// directions of its moves; or at price 0 the nodes that are reached.
struct Stated(
    u8,
    &'static str,
    u32,
    &'static [u32],
    u64,
    &'static [u32],
    &'static [u8],
);

/// The stated walk from a cell to one of the goals, or all that is reached.
fn stated_from(
    alloc: Global,
    cells: &Cells,
    from: u32,
    goals: &[u32],
) -> Result<Found, AllocError> {
    let starts = cells.only(alloc, from)?;
    let goals = List::from_slice(alloc, goals)?;
    cells_sound(cells);
    stated_walk(alloc, cells, &starts, &goals)
}

/// Whether the move is a step in that direction.
fn is_step(m: Move, dir: Option<&u8>) -> bool {
    match (m, dir) {
        (Move::Step { dir: found }, Some(dir)) => found == *dir,
        _ => false,
    }
}

/// Whether the moves are steps in these directions.
fn are_steps(moves: &[Move], dirs: &[u8]) -> bool {
    for (i, m) in moves.iter().enumerate() {
        if !is_step(*m, dirs.get(i)) {
            return false;
        }
    }
    moves.len() == dirs.len()
}

/// Whether the stated walk was found.
fn is_stated(found: &Found, walks: &Stated) -> bool {
    let led = match found {
        Found::Walk(walk) => are_steps(walk.moves.as_slice(), walks.6),
        Found::Closed(_) => walks.6.is_empty(),
    };
    led && is_told(found, walks.4, walks.5)
}

/// Whether that is found on its map.
fn is_first<R: Abort>(rt: &R, alloc: Global, walks: &Stated) -> bool {
    let cells = Cells::drawn(alloc, walks.0, walks.1).expect(rt, "no map");
    match stated_from(alloc, &cells, walks.2, walks.3) {
        Ok(found) => is_stated(&found, walks),
        Err(_) => false,
    }
}

static STATED: [Stated; 9] = [
    Stated(5, SQUARE, 6, &[18], 4, &[6, 7, 8, 13, 18], &[0, 0, 2, 2]),
    Stated(5, SQUARE, 18, &[6], 4, &[18, 13, 8, 7, 6], &[3, 3, 1, 1]),
    Stated(5, SQUARE, 16, &[8], 4, &[16, 11, 6, 7, 8], &[3, 3, 0, 0]),
    Stated(5, SQUARE, 12, &[17, 13, 7, 11], 1, &[12, 7], &[3]),
    Stated(5, SQUARE, 12, &[12, 7], 0, &[12], &[]),
    Stated(5, DEAR, 11, &[13], 4, &[11, 12, 13], &[0, 0]),
    Stated(1, COLUMN, 1, &[3], 2, &[1, 2, 3], &[0, 0]),
    Stated(1, COLUMN, 3, &[1], 2, &[3, 2, 1], &[1, 1]),
    Stated(5, CLOSED, 11, &[8], 0, &[6, 11], &[]),
];

#[test]
fn of_least_walks_the_stated_one_has_the_fewest_moves_and_then_the_least_nodes(rt: HostRuntime) {
    for walks in &STATED {
        assert!(rt;
            is_first(&rt, rt.alloc(), walks),
            "in {} from {}",
            walks.1,
            walks.2
        );
    }
}
