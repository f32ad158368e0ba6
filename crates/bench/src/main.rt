//! Measures what takes the time of routing: pair tests, searches among copper, what a board is asked, reading of trees,
//! and searches over nodes.
//! With a word it times what the word names; with none it makes a small round of each, and tells no time.
#![tactic(auto)]

mod blocks;
mod boards;
mod cells;
mod figures;
mod nets;
mod numbers;
mod pairs;
mod texts;
mod told;
mod walks;
mod wires;

use std::alloc::Global;
use std::rt::Runtime;
use std::{env, io};

/// A small round of each.
fn run_small<R: Runtime>(rt: &R, alloc: Global) -> io::Result<()> {
    pairs::run_small(rt, alloc)?;
    blocks::run(rt, alloc, 10, false)?;
    boards::run_small(rt, alloc)?;
    texts::run_small(rt, alloc)?;
    walks::tell_turns(rt, alloc, 40)
}

/// What a word names, with a number of tests, of searches, of offers or of KB.
fn run<R: Runtime>(rt: &R, alloc: Global, word: &str, number: u64) -> io::Result<()> {
    match word {
        "pairs" => pairs::run_timed(rt, alloc, number),
        "blocks" => blocks::run(rt, alloc, number, true),
        "board" => boards::run_timed(rt, alloc, number),
        "texts" => texts::run_timed(rt, alloc, number),
        "speed" => walks::tell_speeds(rt, alloc),
        "turns" => walks::tell_turns(rt, alloc, 200),
        _ => println!(rt;
            "usage: bench [pairs TESTS | blocks SEARCHES | board OFFERS | texts KB | speed | turns]"
        ),
    }
}

/// The number that a word spells; a million where there is none.
fn number_of(word: Option<&str>) -> u64 {
    match word {
        Some(digits) => digits.parse::<u64>().unwrap_or(1_000_000),
        None => 1_000_000,
    }
}

fn main(rt: HostRuntime) -> io::Result<()> {
    let mut words = env::args(&rt)?;
    let _program = words.next();
    let word = words.next();
    let number = words.next();
    match word {
        None => run_small(&rt, rt.alloc()),
        Some(what) => run(&rt, rt.alloc(), what.as_str(), number_of(number.as_deref())),
    }
}
