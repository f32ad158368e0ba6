//! Trials: the first passes of a run under several patterns, side by side.
//! The best of them is kept where it stands, and the others are let go. No contract says which one is the best.

ghost use Rattle.std.specs.Prelude.{◌≡◌, ◌⊎◌, ◌<◌, All, IfOk};
ghost use Rattle.route_run.specs.inner.States.{IsLaterOf};

use crate::facts::PassLine;
use crate::passes::Passes;
use board_turn::Gate;
use std::alloc::{AllocError, Global};
use std::sync::Wait;
use std::thread;
use std::thread::Threads;

/// The patterns of further runs: odd multipliers that spread the nodes well ("xxHash", Collet 2012). The one that did
/// best on the boards that were measured comes first.
const PATTERNS: [u32; 5] = [
    374_761_393,
    2_246_822_519,
    3_266_489_917,
    2_654_435_761,
    668_265_263,
];

/// How many passes a trial has at most.
const TRIAL_PASSES: u32 = 4;

// The least that was open after one of the passes, and the greatest number where there is none.
fn least_open(lines: &[PassLine]) -> u64 {
    let mut least = u64::MAX;
    for line in lines {
        least = least.min(line.parted);
    }
    least
}

/// How many connections a trial may leave open so that no other one is made behind it: half of the least that was open
/// after one of the first passes of the run before.
pub(crate) fn enough_behind(lines: &[PassLine]) -> u64 {
    let count = lines.len().min(TRIAL_PASSES as usize);
    least_open(&lines[..count]) / 2
}

// Makes the first passes of a trial of a pattern.
fn try_one<'a, R: Threads + Wait + Sync, G: Gate + Sync>(
    rt: &R,
    alloc: Global,
    from: &Passes<'a>,
    pattern: u32,
    gate: &G,
) -> Result<Passes<'a>, AllocError>
    ensures { IfOk result (IsLaterOf from.now) }
{
    let begun = from.under(alloc, pattern)?;
    let passes = begun.go_on(rt, alloc, TRIAL_PASSES, gate)?;
    Ok(passes.set_down())
}

// Tries the patterns side by side.
fn try_all<'a, R: Threads + Wait + Sync, G: Gate + Sync>(
    rt: &R,
    alloc: Global,
    from: &Passes<'a>,
    patterns: &[u32],
    gate: &G,
) -> Result<Vec<Result<Passes<'a>, AllocError>>, AllocError>
    ensures { IfOk result (λ found. All (λ r. IfOk r (IsLaterOf from.now)) found.items) }
{
    let jobs = Vec::from_slice(alloc, patterns)?;
    let found = thread::map_vec(rt, jobs, &|pattern| try_one(rt, alloc, from, pattern, gate))?;
    Ok(found)
}

// The one of two trials that left less open after one of its passes, of equal ones the first.
fn better<'a>(best: Passes<'a>, other: Passes<'a>) -> Passes<'a>
    ensures { (result ≡ best.entry) ⊎ (result ≡ other.entry) }
{
    if least_open(other.lines()) < least_open(best.lines()) {
        drop(best);
        other
    } else {
        drop(other);
        best
    }
}

// The best of one trial and those of further patterns, of equal ones the first.
fn try_more<'a, R: Threads + Wait + Sync, G: Gate + Sync>(
    rt: &R,
    alloc: Global,
    from: &Passes<'a>,
    best: Passes<'a>,
    patterns: &[u32],
    gate: &G,
) -> Result<Passes<'a>, AllocError>
    requires { IsLaterOf from.now best }
    ensures { IfOk result (IsLaterOf from.now) }
{
    let mut best = best;
    for passes in try_all(rt, alloc, from, patterns, gate)? {
        best = better(best, passes?);
    }
    Ok(best)
}

/// Of trials that begin with these passes under several patterns, as many as the run has passes, the one that left the
/// least open. So many are made side by side as there are workers, and none behind one that left few enough open.
pub(crate) fn best_trial<'a, R: Threads + Wait + Sync, G: Gate + Sync>(
    rt: &R,
    alloc: Global,
    from: &Passes<'a>,
    workers: u32,
    enough: u64,
    gate: &G,
) -> Result<Passes<'a>, AllocError>
    requires some { 0 < workers }
    ensures { IfOk result (IsLaterOf from.now) }
{
    let count = PATTERNS.len().min(from.most() as usize);
    let mut best = from.under(alloc, PATTERNS[0])?;
    for patterns in PATTERNS[..count].chunks(workers as usize) {
        if least_open(best.lines()) <= enough {
            return Ok(best);
        }
        best = try_more(rt, alloc, from, best, patterns, gate)?;
    }
    Ok(best)
}
