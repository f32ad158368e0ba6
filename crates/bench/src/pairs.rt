//! Pair tests a second: circles, segments and polygons against segments, near ones and far ones.
//! Near pairs mostly overlap in their boxes; far ones mostly don't.

ghost use Rattle.std.specs.Prelude.{◌≤◌, ◌<◌, ◌^◌};

use crate::figures::{Figure, circle, place, polygon, segment};
use crate::numbers::Numbers;
use crate::told::Watch;
use geo_kernel::spine_keeps;
use std::alloc::{AllocError, Global};
use std::io;
use std::rt::Runtime;

/// The sides of the squares that figures of about 1,000 nm lie in.
const NEAR: u32 = 2_000;

const FAR: u32 = 100_000;

const SIZE: u32 = 1_000;

const LIMIT: u64 = 200;

/// How many figures of each kind there are, how often each two are tested, and whether the time is told.
#[derive(Clone, Copy)]
struct Plan {
    figures: u64,
    rounds: u64,
    timed: bool,
}

#[derive(Clone, Copy)]
enum Kind {
    Circle,
    Segment,
    Polygon8,
    Polygon64,
}

fn make(alloc: Global, kind: Kind, numbers: &mut Numbers, span: u32) -> Result<Figure, AllocError>
    requires some { 0 < span }
    requires small { span ≤ 2 ^ 27 }
{
    let p = place(numbers, span);
    match kind {
        Kind::Circle => circle(alloc, p),
        Kind::Segment => segment(alloc, p, place(numbers, SIZE)),
        Kind::Polygon8 => polygon(alloc, p, 8, SIZE),
        Kind::Polygon64 => polygon(alloc, p, 64, SIZE),
    }
}

fn make_all(
    alloc: Global,
    kind: Kind,
    numbers: &mut Numbers,
    span: u32,
    figures: u64,
) -> Result<Vec<Figure>, AllocError>
    requires some { 0 < span }
    requires small { span ≤ 2 ^ 27 }
{
    let mut all = Vec::new(alloc);
    for _ in 0..figures {
        all.push(make(alloc, kind, numbers, span)?)?;
    }
    Ok(all)
}

/// How many of all pairs of a first and a second figure keep the distance.
fn count(firsts: &[Figure], seconds: &[Figure]) -> u64 {
    let mut kept = 0u64;
    for s in firsts {
        for t in seconds {
            if spine_keeps(&s.spine, &t.spine, LIMIT) {
                kept = kept.wrapping_add(1);
            }
        }
    }
    kept
}

/// Tells how many tests keep the distance, and how many a second these were where that is told.
fn tell_tests<R: Runtime>(
    rt: &R,
    tests: u64,
    kept: u64,
    nanos: u128,
    is_timed: bool,
) -> io::Result<()> {
    if !is_timed {
        return println!(rt; "of {tests} tests {kept} keep");
    }
    let speed = u128::from(tests) * 1_000_000_000 / nanos.max(1);
    println!(rt; "of {tests} tests {kept} keep, {speed} a second")
}

/// Tests each pair of a first and a second figure, and tells how many keep the distance, and how fast it is.
fn tell_round<R: Runtime>(
    rt: &R,
    plan: Plan,
    firsts: &[Figure],
    seconds: &[Figure],
) -> io::Result<()> {
    let watch = Watch::start(rt);
    let mut kept = 0u64;
    for _ in 0..plan.rounds {
        kept = kept.wrapping_add(count(firsts, seconds));
    }
    let nanos = watch.nanos(rt);
    let pairs = plan.figures.wrapping_mul(plan.figures);
    let tests = plan.rounds.wrapping_mul(pairs);
    tell_tests(rt, tests, kept, nanos, plan.timed)
}

fn round<R: Runtime>(rt: &R, alloc: Global, kind: Kind, span: u32, plan: Plan) -> io::Result<()>
    requires some { 0 < span }
    requires small { span ≤ 2 ^ 27 }
{
    let name = match kind {
        Kind::Circle => "circles",
        Kind::Segment => "segments",
        Kind::Polygon8 => "polygons of 8",
        Kind::Polygon64 => "polygons of 64",
    };
    println!(rt; "{name} against segments in {span} nm")?;
    let mut numbers = Numbers::new(1);
    let firsts = make_all(alloc, kind, &mut numbers, span, plan.figures)?;
    let seconds = make_all(alloc, Kind::Segment, &mut numbers, span, plan.figures)?;
    tell_round(rt, plan, firsts.as_slice(), seconds.as_slice())
}

/// Makes the tests of each kind, near and far.
fn run<R: Runtime>(rt: &R, alloc: Global, plan: Plan) -> io::Result<()> {
    for kind in [Kind::Circle, Kind::Segment, Kind::Polygon8, Kind::Polygon64] {
        round(rt, alloc, kind, NEAR, plan)?;
        round(rt, alloc, kind, FAR, plan)?;
    }
    Ok(())
}

/// Ten figures of each kind, each two tested once.
pub fn run_small<R: Runtime>(rt: &R, alloc: Global) -> io::Result<()> {
    let plan = Plan {
        figures: 10,
        rounds: 1,
        timed: false,
    };
    run(rt, alloc, plan)
}

/// So many tests of each kind, and their speed.
pub fn run_timed<R: Runtime>(rt: &R, alloc: Global, tests: u64) -> io::Result<()> {
    let plan = Plan {
        figures: 256,
        rounds: tests / (256 * 256) + 1,
        timed: true,
    };
    run(rt, alloc, plan)
}
