//! The lines of one direction: multiples of the grid, rounded down to the session unit, and anchors beside them.
//! Spans of multiples are found by division, so lines are counted without being listed.

ghost use Rattle.std.specs.Prelude.{◌≡◌, ℕ, ◌+◌, ◌*◌, ◌<◌, ◌≤◌, ◌^◌, pos, IfOk, length, vec_len, filter, map, ◌++◌};
ghost use Rattle.std.specs.Prelude.{◌+ℤ◌, ◌*ℤ◌, ◌≤ℤ◌, ◌<ℤ◌, unsigned_abs};
ghost use Rattle.std.specs.Int.{int_gap};
ghost use Rattle.route_lattice.specs.Round.{floor_div, ceil_div, rounded_down};
ghost use Rattle.route_lattice.specs.Lines.{is_grid_line, up_from};
ghost use Rattle.route_lattice.specs.Spans.{IsRulerFit, IsSpan, IsSpanFit, IsAscending, is_other, line_of, StaysClose};

use crate::round::{quotient_down, quotient_up, round_down};
use geo_kernel::List;
use std::alloc::{AllocError, Global};

/// The session unit and the grid, and the numbers strictly between which lines may lie; in nm.
#[derive(Clone, Copy)]
pub(crate) struct Ruler {
    pub unit: u64,
    pub grid: u64,
    pub low: i64,
    pub high: i64,
}

/// Multiples of the grid, from `first` to below `end`.
#[derive(Clone, Copy)]
pub(crate) struct Span {
    pub first: i64,
    pub end: i64,
}

/// The least multiple of `n` above `z`.
fn multiple_above(z: i64, n: u64) -> i64
    requires small { unsigned_abs z ≤ 2 ^ 29 }
    requires some { 0 < n }
    requires short { n ≤ 2 ^ 30 }
    ensures value { result ≡ (floor_div z n +ℤ pos 1) *ℤ pos n }
    ensures within { unsigned_abs result ≤ 2 ^ 31 }
{
    (quotient_down(z, n) + 1) * n as i64
}

/// The least multiple of `n` at or above `z`.
fn multiple_from(z: i64, n: u64) -> i64
    requires small { unsigned_abs z ≤ 2 ^ 29 }
    requires some { 0 < n }
    requires short { n ≤ 2 ^ 30 }
    ensures value { result ≡ ceil_div z n *ℤ pos n }
    ensures within { unsigned_abs result ≤ 2 ^ 31 }
{
    quotient_up(z, n) * n as i64
}

/// The multiples of the grid whose lines lie strictly between the ruler's ends.
pub(crate) fn span_of(r: Ruler) -> Span
    requires { IsRulerFit r }
    ensures span { IsSpan r.unit r.grid r.low r.high result.first result.end }
    ensures fits { IsSpanFit result }
{
    let first = quotient_up(multiple_above(r.low, r.unit), r.grid);
    let end = quotient_up(multiple_from(r.high, r.unit), r.grid);
    Span { first, end }
}

/// The numbers of a list, ascending, each once.
fn ascending(mut numbers: Vec<i64>) -> Result<List<i64>, AllocError>
    ensures ascending { IfOk result (λ r. IsAscending numbers.items r) }
    ensures short { IfOk result (λ r. length r ≤ vec_len numbers) }
{
    numbers.sort()?;
    numbers.dedup();
    Ok(List::from_vec(numbers))
}

/// The line of a multiple of the grid.
fn line_at(unit: u64, grid: u64, k: i64) -> i64
    requires some { 0 < unit }
    requires short { unit ≤ 2 ^ 29 }
    requires fine { grid ≤ 2 ^ 30 }
    requires near { unsigned_abs k * grid ≤ 2 ^ 32 }
    ensures { result ≡ line_of unit grid k }
{
    round_down(unit, k * grid as i64)
}

/// Whether a number within 2^29 is a line of the grid.
fn is_on_grid(r: Ruler, x: i64) -> bool
    requires fit { IsRulerFit r }
    requires near { unsigned_abs x ≤ 2 ^ 29 }
    ensures { result ≡ is_grid_line r.unit r.grid x }
{
    round_down(r.unit, multiple_from(x, r.grid)) == x
}

/// Whether a number lies strictly between the ruler's ends and is no line of the grid.
fn is_beside(r: Ruler, x: i64) -> bool
    requires { IsRulerFit r }
    ensures { result ≡ is_other r.unit r.grid r.low r.high x }
{
    if r.low < x {
        if x < r.high { !is_on_grid(r, x) } else { false }
    } else {
        false
    }
}

/// The anchors strictly between the ruler's ends that are no lines of the grid, ascending, each once.
pub(crate) fn others_of(alloc: Global, r: Ruler, anchors: &[i64]) -> Result<List<i64>, AllocError>
    requires { IsRulerFit r }
    ensures beside { IfOk result (λ xs. IsAscending (filter (is_other r.unit r.grid r.low r.high) anchors.now) xs) }
    ensures short { IfOk result (λ xs. length xs ≤ length anchors.now) }
{
    let found: Vec<i64> = anchors
        .iter()
        .copied()
        .filter(|x| is_beside(r, *x))
        .collect(alloc)?;
    ascending(found)
}

/// How many multiples a span has.
pub(crate) fn span_len(s: Span) -> u64
    requires { IsSpanFit s }
    ensures value { result ≡ int_gap s.first s.end }
    ensures small { result ≤ 2 ^ 33 }
{
    if s.first < s.end {
        (s.end - s.first) as u64
    } else {
        0
    }
}

/// The lines of a span of the grid and the other lines, ascending, each once.
pub(crate) fn lines_of(
    alloc: Global,
    r: Ruler,
    s: Span,
    others: &[i64],
) -> Result<List<i64>, AllocError>
    requires ruler { IsRulerFit r }
    requires span { IsSpanFit s }
    requires near { StaysClose r.grid s.first s.end }
    ensures { IfOk result
        (λ xs. IsAscending (map (line_of r.unit r.grid) (up_from s.first (int_gap s.first s.end)) ++ others.now)
        xs) }
{
    let mut lines = Vec::new(alloc);
    for i in 0..span_len(s) {
        lines.push(line_at(r.unit, r.grid, s.first + i as i64))?;
    }
    lines.extend_from_slice(others)?;
    ascending(lines)
}
