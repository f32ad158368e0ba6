//! The lines of calls that stop before they route.
//! Each is put by one call of the sink.

ghost use Rattle.std.specs.Prelude.{◌≡◌, ◌<◌, ◌^◌, IfOk, List as Seq, ℕ, flat_map};
ghost use Rattle.std.specs.Borrow.{Bor};
ghost use Rattle.desk_io.specs.Answers.{PutGives};
ghost use Rattle.dsn_route.specs.Lines.{usage_line, refused_line, read_fault_line, check_line, check_ok_line};
ghost use Rattle.dsn_route.specs.Lines.{limit_line, over_line, nodes_line, what_word};

use crate::route::MAX_BYTES;
use desk_io::{Sink, SinkFail};
use dsn_shapes::What;
use itoa::Buffer;
use std::alloc::{AllocError, Global};

// These pieces, one after another.
fn joined(alloc: Global, pieces: &[&[u8]]) -> Result<Vec<u8>, AllocError>
    ensures { IfOk result (λ line. line.items ≡ flat_map (λ (p : Bor (Seq ℕ)). p.now) pieces.now) }
{
    let mut line = Vec::new(alloc);
    for piece in pieces {
        line.extend_from_slice(piece)?;
    }
    Ok(line)
}

// Puts these pieces as one.
fn say<R: Sink>(alloc: Global, pieces: &[&[u8]], report: &mut R) -> Result<(), SinkFail>
    ensures { PutGives (R.state report.old) (R.state report.new)
        (flat_map (λ (p : Bor (Seq ℕ)). p.now) pieces.now) result }
{
    match joined(alloc, pieces) {
        Ok(line) => report.put(&line),
        Err(e) => Err(SinkFail::Memory(e)),
    }
}

fn what_word(what: What) -> &'static [u8]
    ensures { result.now ≡ what_word what }
{
    match what {
        What::Nothing => b"nothing",
        What::Layers => b"layers",
        What::Nets => b"nets",
        What::Pins => b"pins",
        What::Items => b"items",
        What::Vertices => b"vertices",
    }
}

/// Puts `usage N`.
pub fn say_usage<R: Sink>(alloc: Global, number: u8, report: &mut R) -> Result<(), SinkFail>
    ensures { PutGives (R.state report.old) (R.state report.new) (usage_line number) result }
{
    let mut buffer = Buffer::new();
    let digits = buffer.format(number).as_bytes();
    let pieces: [&[u8]; 3] = [b"usage ", digits, b"\n"];
    say(alloc, &pieces, report)
}

/// Puts `refused N at PLACE`; the place is a byte offset.
pub fn say_refused<R: Sink>(
    alloc: Global,
    number: u8,
    place: u64,
    report: &mut R,
) -> Result<(), SinkFail>
    ensures { PutGives (R.state report.old) (R.state report.new) (refused_line number place) result }
{
    let mut buffer = Buffer::new();
    let digits = buffer.format(number).as_bytes();
    let mut other = Buffer::new();
    let offset = other.format(place).as_bytes();
    let pieces: [&[u8]; 5] = [b"refused ", digits, b" at ", offset, b"\n"];
    say(alloc, &pieces, report)
}

/// Puts `read fault`.
pub fn say_read_fault<R: Sink>(report: &mut R) -> Result<(), SinkFail>
    ensures { PutGives (R.state report.old) (R.state report.new) read_fault_line result }
{
    report.put(b"read fault\n")
}

/// Puts `check ok`.
pub fn say_check_ok<R: Sink>(report: &mut R) -> Result<(), SinkFail>
    ensures { PutGives (R.state report.old) (R.state report.new) check_ok_line result }
{
    report.put(b"check ok\n")
}

/// Puts `check N at M`: which check fails, and where.
pub fn say_check<R: Sink>(
    alloc: Global,
    number: u8,
    at: u64,
    report: &mut R,
) -> Result<(), SinkFail>
    ensures { PutGives (R.state report.old) (R.state report.new) (check_line number at) result }
{
    let mut buffer = Buffer::new();
    let digits = buffer.format(number).as_bytes();
    let mut other = Buffer::new();
    let place = other.format(at).as_bytes();
    let pieces: [&[u8]; 5] = [b"check ", digits, b" at ", place, b"\n"];
    say(alloc, &pieces, report)
}

/// Puts `limit bytes` with the most bytes of an input.
pub fn say_limit<R: Sink>(alloc: Global, report: &mut R) -> Result<(), SinkFail>
    ensures { PutGives (R.state report.old) (R.state report.new) limit_line result }
{
    let mut buffer = Buffer::new();
    let digits = buffer.format(MAX_BYTES).as_bytes();
    let pieces: [&[u8]; 3] = [b"limit bytes ", digits, b"\n"];
    say(alloc, &pieces, report)
}

/// Puts `limit WHAT NUMBER`: what is counted, and how many there may be.
pub fn say_over<R: Sink>(
    alloc: Global,
    what: What,
    limit: u64,
    report: &mut R,
) -> Result<(), SinkFail>
    ensures { PutGives (R.state report.old) (R.state report.new) (over_line what limit) result }
{
    let mut buffer = Buffer::new();
    let digits = buffer.format(limit).as_bytes();
    let pieces: [&[u8]; 5] = [b"limit ", what_word(what), b" ", digits, b"\n"];
    say(alloc, &pieces, report)
}

/// Puts `limit nodes` with how many nodes the lattice would have.
pub fn say_nodes<R: Sink>(alloc: Global, count: u128, report: &mut R) -> Result<(), SinkFail>
    ensures { PutGives (R.state report.old) (R.state report.new) (nodes_line count) result }
{
    let mut buffer = Buffer::new();
    let digits = buffer.format(count).as_bytes();
    let pieces: [&[u8]; 3] = [b"limit nodes ", digits, b"\n"];
    say(alloc, &pieces, report)
}
