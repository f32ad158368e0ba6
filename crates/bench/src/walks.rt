//! Searches among cells, and what is told of them: their time, and how often their walks turn.
//! The ends of walks are picked by the same small generator of numbers, so each run has the same.

ghost use Rattle.std.specs.Prelude.{◌≡◌, ◌<◌, length};

use crate::cells::{Cells, cells_sound};
use crate::numbers::Numbers;
use crate::told::Watch;
use geo_kernel::List;
use route_lattice::{Found, Move, Moves};
use std::alloc::{AllocError, Global};
use std::io;
use std::rt::Runtime;
use wave_search::{Heading, NoBound, NoTies, Search, Ties, heading_of};

/// What walks cost together, and how often they turn.
#[derive(Clone, Copy)]
struct Sums {
    walks: u64,
    price: u64,
    turns: u64,
}

/// How often a walk turns.
fn turns_of(nodes: &[u32]) -> u64 {
    let mut turns = 0u64;
    for i in 2..nodes.len() {
        let before = nodes[i - 1] as i64 - nodes[i - 2] as i64;
        if nodes[i] as i64 - nodes[i - 1] as i64 != before {
            turns = turns.wrapping_add(1);
        }
    }
    turns
}

/// One walk more, where there is one.
fn add(sums: Sums, found: Found) -> Sums {
    match found {
        Found::Walk(walk) => Sums {
            walks: sums.walks.wrapping_add(1),
            price: sums.price.wrapping_add(walk.price),
            turns: sums.turns.wrapping_add(turns_of(walk.nodes.as_slice())),
        },
        Found::Closed(_) => sums,
    }
}

/// Few turns.
struct FewTurns;

impl Ties for FewTurns {
    fn tells(&self) -> bool {
        true
    }

    fn cost(&self, _node: u32, m: Move, _price: u64, next: Heading) -> u64 {
        match (heading_of(m), next) {
            (Heading::Across, Heading::Up) | (Heading::Up, Heading::Across) => 1,
            _ => 0,
        }
    }
}

/// A search between two cells, by a rule of ties.
fn between<T: Ties>(
    alloc: Global,
    search: &mut Search,
    cells: &Cells,
    ties: &T,
    from: u32,
    to: u32,
) -> Result<Found, AllocError>
    requires size { search.old ≡ length cells.now.prices }
    requires from { from < length cells.now.prices }
    ensures { search.new ≡ search.old }
{
    let starts = List::from_slice(alloc, &[from])?;
    let goals = List::from_slice(alloc, &[to])?;
    cells_sound(cells);
    search.tied_walk(alloc, cells, &NoBound, ties, &starts, &goals)
}

/// A search between two cells in memory of its own.
fn walk_between<T: Ties>(
    alloc: Global,
    cells: &Cells,
    ties: &T,
    from: u32,
    to: u32,
) -> Result<Found, AllocError>
    requires { from < length cells.now.prices }
{
    match Search::new(alloc, cells.count()) {
        Ok(memory) => {
            let mut search = memory;
            between(alloc, &mut search, cells, ties, from, to)
        }
        Err(e) => Err(e),
    }
}

/// Searches between so many pairs of cells, by a rule of ties.
fn among<T: Ties>(alloc: Global, cells: &Cells, ties: &T, pairs: u32) -> Result<Sums, AllocError> {
    let mut sums = Sums {
        walks: 0,
        price: 0,
        turns: 0,
    };
    let mut numbers = Numbers::new(2);
    for _ in 0..pairs {
        let from = numbers.next();
        let to = numbers.next();
        let count = cells.count();
        if count > 0 {
            let found = walk_between(alloc, cells, ties, from % count, to % count)?;
            sums = add(sums, found);
        }
    }
    Ok(sums)
}

/// Says what walks cost together and how often they turn, by a rule of ties.
fn say_sums<R: Runtime>(rt: &R, rule: &str, sums: Sums) -> io::Result<()> {
    let Sums {
        walks,
        price,
        turns,
    } = sums;
    println!(rt; "{rule}: {walks} walks of price {price} turn {turns} times")
}

/// Says what walks among cells cost and how often they turn.
fn say_turns<R: Runtime>(rt: &R, alloc: Global, cells: &Cells) -> io::Result<()> {
    say_sums(rt, "no rule", among(alloc, cells, &NoTies, 100)?)?;
    say_sums(rt, "few turns", among(alloc, cells, &FewTurns, 100)?)
}

/// Tells of walks among cells, of which so many in a hundred are walls.
fn tell_turns_among<R: Runtime>(rt: &R, alloc: Global, side: u32, walls: u32) -> io::Result<()> {
    println!(rt; "{side} x {side} cells, {walls} walls in a hundred")?;
    match Cells::square(alloc, side, walls)? {
        Some(cells) => say_turns(rt, alloc, &cells),
        None => Ok(()),
    }
}

/// Whether a search between two cells finds a walk.
fn is_walk<T: Ties>(
    alloc: Global,
    search: &mut Search,
    cells: &Cells,
    ties: &T,
    from: u32,
    to: u32,
) -> bool
    requires size { search.old ≡ length cells.now.prices }
    requires from { from < length cells.now.prices }
    ensures { search.new ≡ search.old }
{
    match between(alloc, search, cells, ties, from, to) {
        Ok(Found::Walk(_)) => true,
        _ => false,
    }
}

/// The time of the second of two searches in memory of their own, which the first has written, in nanoseconds, and
/// whether both find a walk; none where memory is wanting.
fn nanos_between<R: Runtime, T: Ties>(
    rt: &R,
    alloc: Global,
    cells: &Cells,
    ties: &T,
    from: u32,
    to: u32,
) -> (u128, bool)
    requires { from < length cells.now.prices }
{
    match Search::new(alloc, cells.count()) {
        Ok(memory) => {
            let mut search = memory;
            let first = is_walk(alloc, &mut search, cells, ties, from, to);
            let watch = Watch::start(rt);
            let second = is_walk(alloc, &mut search, cells, ties, from, to);
            (watch.nanos(rt), first && second)
        }
        Err(_) => (0, false),
    }
}

/// Says how many nodes a second a search visits on an open square of cells, corner to corner, by a rule of ties.
fn say_speed<R: Runtime, T: Ties>(
    rt: &R,
    alloc: Global,
    cells: &Cells,
    ties: &T,
    side: u32,
) -> io::Result<()> {
    let count = cells.count();
    let from = side.wrapping_add(1);
    if from >= count {
        return Ok(());
    }
    let (nanos, is_found) = nanos_between(rt, alloc, cells, ties, from, count - 1 - from);
    let speed = u128::from(count) * 1_000_000_000 / nanos.max(1);
    let micros = nanos / 1000;
    println!(rt; "found {is_found}: {count} nodes in {micros} us, {speed} a second")
}

/// Tells how many nodes a second a search visits on an open square, by a rule of ties or without.
fn tell_speed<R: Runtime, T: Ties>(
    rt: &R,
    alloc: Global,
    ties: &T,
    side: u32,
    words: &str,
) -> io::Result<()> {
    println!(rt; "{side} x {side} open cells, {words}")?;
    match Cells::square(alloc, side, 0)? {
        Some(cells) => say_speed(rt, alloc, &cells, ties, side),
        None => Ok(()),
    }
}

/// Tells how often walks turn among walls.
pub fn tell_turns<R: Runtime>(rt: &R, alloc: Global, side: u32) -> io::Result<()> {
    for walls in [10, 20, 30] {
        tell_turns_among(rt, alloc, side, walls)?;
    }
    Ok(())
}

/// Tells the speed on open squares of three sizes.
pub fn tell_speeds<R: Runtime>(rt: &R, alloc: Global) -> io::Result<()> {
    for side in [100, 1000, 2000] {
        tell_speed(rt, alloc, &NoTies, side, "no rule")?;
        tell_speed(rt, alloc, &FewTurns, side, "few turns")?;
    }
    Ok(())
}
