//! Reading a report.

ghost use Rattle.std.specs.Prelude.{◌≡◌, ◌++◌, ◌+◌, ◌≤◌, ℕ, List as Seq, IfOk, MatchResult, length};
ghost use Rattle.report_form.specs.Form.{Told as TheTold, line_ends};
ghost use Rattle.report_form.specs.Reading.{Reads};
ghost use Rattle.report_form.specs.inner.Halts.{IsHalted, WholeRead};
ghost use Rattle.report_form.specs.inner.State.{At, Gridded, Page};

use crate::cuts::Halt;
use crate::head::{Head, read_head};
use crate::nets::read_nets;
use crate::passes::after_joins;
use crate::reading::{GridLine, ReadCut, Reading};
use crate::value::{capped, exact};
use geo_kernel::{List, Name};
use pcb_model::Design;
use std::alloc::{AllocError, Global};

// The number of the line at which the rest of the text begins, counted from 1.
fn line_at(text: &[u8], rest: &[u8]) -> u64
    requires { length rest.now ≤ length text.now }
    ensures { (front : Seq ℕ) → text.now ≡ front ++ rest.now → result ≡ 1 + line_ends front }
{
    let (front, _) = text.split_at(text.len() - rest.len());
    let mut ends: u64 = 0;
    for byte in front {
        if *byte == b'\n' {
            ends += 1;
        }
    }
    ends + 1
}

// What follows the line of the grid.
fn read_rest<'a>(
    alloc: Global,
    d: &Design,
    firsts: &[List<Name>],
    text: &'a [u8],
) -> Result<List<List<ReadCut>>, Halt<'a>>
    requires same { length firsts.now ≡ length d.now.nets }
    ensures { (p : Page) (h : TheTold) → p.design ≡ d.now → p.firsts ≡ firsts.now → At p (Gridded h) text.now
        → MatchResult result (WholeRead p) (IsHalted p) }
{
    match after_joins(text) {
        Ok(rest) => read_nets(alloc, d, firsts, rest),
        Err(stop) => Err(Halt::Stop(stop)),
    }
}

/// Reads a report of the design, where `firsts` has for each net the names of its islands' first pins. Its one error is
/// want of memory.
pub fn read_report(
    alloc: Global,
    d: &Design,
    firsts: &List<List<Name>>,
    text: &[u8],
) -> Result<Reading, AllocError>
    requires { length firsts.now ≡ length d.now.nets }
    ensures { IfOk result (Reads d.now firsts.now text.now) }
{
    let head = match read_head(d, text) {
        Ok(head) => head,
        Err(stop) => {
            return Ok(Reading::OutOfPlace {
                line: line_at(text, stop),
                passed: None,
            });
        }
    };
    let grid = GridLine {
        grid: capped(head.grid),
        nodes: exact(head.nodes),
        line: line_at(text, head.before),
    };
    match read_rest(alloc, d, firsts.as_slice(), head.rest) {
        Ok(nets) => Ok(Reading::Read { grid, nets }),
        Err(Halt::Stop(stop)) => Ok(Reading::OutOfPlace {
            line: line_at(text, stop),
            passed: Some(grid),
        }),
        Err(Halt::Memory(error)) => Err(error),
    }
}
