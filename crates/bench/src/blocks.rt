//! Searches whether a step is blocked, among 1,000 wires of which five are near, in turn from id 0 and from id 1.
//! No two in a row are alike, and each looks at all wires, as none blocks the step.

ghost use Rattle.std.specs.Prelude.{◌≡◌, ◌<◌};
ghost use Rattle.pcb_model.specs.declared.design.Design.{Design as TheDesign};
ghost use Rattle.pcb_model.specs.Bounds.{IsProbeFit};
ghost use Rattle.pcb_model.specs.Sound.{IsSound};

use crate::told::{Watch, each_of, tell};
use crate::wires::{board, fixed_copper};
use geo_kernel::Point;
use pcb_model::{Copper, Design, Probe, Steps};
use std::alloc::Global;
use std::io;
use std::marker::Brand;
use std::rt::Runtime;
use std::sync::ledger::{Blank, Ledger};

/// How many of so many searches find the step blocked.
fn count<C: Copper, L: Ledger>(
    copper: &C,
    d: &Design,
    step: &Probe,
    calls: u64,
    blank: Blank,
) -> u64
    requires name { blank.name ≡ L.name }
    requires parts { blank.parts ≡ L.parts }
    requires whole { 0 < blank.parts }
    requires serves { C.serves copper.now d.now }
    requires step_fits { IsProbeFit d.now step.now }
{
    let mut steps: Steps<L> = Steps::new(blank);
    let mut blocked = 0u64;
    for i in 0..calls {
        if copper.next_block(d, 0, step, i % 2, &mut steps).is_some() {
            blocked = blocked.wrapping_add(1);
        }
    }
    blocked
}

/// From (0, 0) to (1 mm, 1 mm), as wide as a wire.
fn step() -> Probe
    ensures { (d : TheDesign) → IsProbeFit d result }
{
    Probe::Step {
        layer: 0,
        width: 200_000,
        a: Point { x: 0, y: 0 },
        b: Point {
            x: 1_000_000,
            y: 1_000_000,
        },
    }
}

/// How many of so many searches find that step blocked.
pub fn count_blocked<C: Copper>(copper: &C, d: &Design, calls: u64) -> u64
    requires { C.serves copper.now d.now }
{
    count::<C, Brand>(copper, d, &step(), calls, Blank::new(1))
}

/// Tells how many of so many searches on this copper find that step blocked, and what one took.
pub fn tell_blocked<R: Runtime, C: Copper>(
    rt: &R,
    place: &str,
    copper: &C,
    d: &Design,
    calls: u64,
    is_timed: bool,
) -> io::Result<()>
    requires { C.serves copper.now d.now }
{
    let watch = Watch::start(rt);
    let blocked = count_blocked(copper, d, calls);
    let each = each_of(is_timed, watch.nanos(rt), calls);
    println!(rt; "on {place}, of {calls} searches")?;
    tell(rt, "blocked", blocked, each)
}

/// The same on the plain list of a board's fixed items.
pub fn tell_on_list<R: Runtime>(
    rt: &R,
    alloc: Global,
    d: &Design,
    calls: u64,
    is_timed: bool,
) -> io::Result<()>
    requires { IsSound d.now }
{
    match fixed_copper(alloc, d) {
        Ok(copper) => tell_blocked(rt, "a plain list", &copper, d, calls, is_timed),
        Err(_) => println!(rt; "no copper"),
    }
}

/// So many searches on the plain list of the board's wires, and their time if it is told.
pub fn run<R: Runtime>(rt: &R, alloc: Global, calls: u64, is_timed: bool) -> io::Result<()> {
    match board(alloc) {
        Some(d) => tell_on_list(rt, alloc, &d, calls, is_timed),
        None => println!(rt; "no board"),
    }
}
