//! Megabytes a second of the reader of trees, on design texts of any length that are made here.
//! They are places with quoted names and nets with their pins; their words are as long as those of real designs.

use crate::told::Watch;
use dsn_tree::read_tree;
use std::alloc::{AllocError, Global};
use std::io;
use std::rt::Runtime;

/// Adds places until the text is about so long.
fn add_places(alloc: Global, text: &mut String, bytes: usize) -> Result<(), AllocError> {
    for i in 0..u32::MAX {
        if text.len() >= bytes {
            break;
        }
        let line = format!(in alloc;
            "    (component \"R:{i}\" (place R{i} {i}25.5 -1050{i} front 90 (PN \"10 k\")))\n"
        )?;
        text.push_str(line.as_str())?;
    }
    Ok(())
}

/// Adds nets until the text is about so long.
fn add_nets(alloc: Global, text: &mut String, bytes: usize) -> Result<(), AllocError> {
    for i in 0..u32::MAX {
        if text.len() >= bytes {
            break;
        }
        let line = format!(in alloc; "    (net N{i} (pins C{i}-1 C{i}-2 \"R {i}\"-1))\n")?;
        text.push_str(line.as_str())?;
    }
    Ok(())
}

/// A design text of about so many bytes.
fn design_text(alloc: Global, bytes: usize) -> Result<String, AllocError> {
    let mut text = String::from_str(
        alloc,
        "(pcb \"made board\"\n  (parser (string_quote \") (space_in_quoted_tokens on))\n  (placement\n",
    )?;
    add_places(alloc, &mut text, bytes / 2)?;
    text.push_str("  )\n  (network\n")?;
    add_nets(alloc, &mut text, bytes)?;
    text.push_str("  ))\n")?;
    Ok(text)
}

/// Whether the text was read.
fn reads(alloc: Global, text: &str) -> bool {
    match read_tree(alloc, text.as_bytes()) {
        Ok(_) => true,
        Err(_) => false,
    }
}

/// Reads the text five times, and tells the time and the speed at best.
fn tell_rate<R: Runtime>(rt: &R, alloc: Global, text: &str) -> io::Result<()> {
    let mut best = u128::MAX;
    let mut all_read = true;
    for _ in 0..5 {
        let watch = Watch::start(rt);
        all_read = reads(alloc, text) && all_read;
        best = best.min(watch.nanos(rt) / 1000);
    }
    let bytes = text.len();
    let rate = bytes as u128 / best.max(1);
    println!(rt; "read: {all_read}, {bytes} bytes at best in {best} us, {rate} MB a second")
}

/// Reads one small text.
pub fn run_small<R: Runtime>(rt: &R, alloc: Global) -> io::Result<()> {
    let text = design_text(alloc, 4000)?;
    let read = reads(alloc, text.as_str());
    println!(rt; "read: {read}")
}

/// Reads a text of about so many KB.
pub fn run_timed<R: Runtime>(rt: &R, alloc: Global, kilobytes: u64) -> io::Result<()> {
    let text = design_text(alloc, kilobytes.min(1_000_000) as usize * 1000)?;
    tell_rate(rt, alloc, text.as_str())
}
