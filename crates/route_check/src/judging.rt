//! The judge of a session and its report.

ghost use Rattle.std.specs.Prelude.{◌≡◌, ◌↔◌, ◌<◌, ◌≤◌, ◌^◌, ℕ, List as Seq, All, IfOk, IfSome, IsTrue};
ghost use Rattle.std.specs.Prelude.{Some, length};
ghost use Rattle.pcb_model.specs.Copper.{Ascends};
ghost use Rattle.pcb_model.specs.Sound.{IsSound, Serves};
ghost use Rattle.pcb_islands.specs.declared.net.Island.{Island as OneIsland};
ghost use Rattle.route_lattice.specs.Mesh.{node_count};
ghost use Rattle.route_lattice.specs.Whole.{lattice_of};
ghost use Rattle.report_form.specs.Form.{IsOutOfPlace, IsTrulyTold};
ghost use Rattle.report_form.specs.Reading.{IsMisread, IsRead, HasTrueLine};
ghost use Rattle.ses_reader.specs.Sound.{IsItemSound};
ghost use Rattle.route_check.specs.Judged.{Answers, Judges, first_names as first_names_of};
ghost use Rattle.route_check.specs.inner.Found.{IsFound};
ghost use Rattle.route_check.specs.inner.Order.{IsVerdictOf, JudgesBoard};

use crate::board::board_items;
use crate::laws::session_boards_serve;
use crate::names::first_names;
use crate::order::{judge_nets, wrong_copper};
use crate::verdict::{JudgeFault, Verdict};
use copper_check::{islands_of_all, tiles_of};
use geo_kernel::List;
use pcb_islands::Island;
use pcb_model::{Design, Item};
use pcb_tiles::Tiles;
use report_form::{GridLine, ReadCut, Reading, read_report, reports_say_one};
use route_lattice::{Ground, Lattice, LatticeFault};
use ses_reader::SesItem;
use std::alloc::{AllocError, Global};

/// A board whose report is judged: its design, its items and the tiles of them, and the islands net by net.
#[derive(Drop)]
struct FoundBoard<'a> {
    d: &'a Design,
    tiles: &'a Tiles,
    items: &'a [Item],
    found: &'a [List<Island>],
}

// Whether the line of the grid tells this number of nodes.
fn tells(grid: &GridLine, count: u128) -> bool
    ensures { IsTrue result ↔ grid.now.nodes ≡ Some count }
{
    match grid.nodes {
        Some(nodes) => nodes == count,
        None => false,
    }
}

// How many nodes the lattice of a grid has.
fn nodes_of(alloc: Global, d: &Design, grid: u64) -> Result<u128, AllocError>
    requires sound { IsSound d.now }
    requires from { 1000 ≤ grid }
    requires to { grid ≤ 409600000 }
    ensures is { IfOk result (λ count. count ≡ node_count (lattice_of d.now grid)) }
    ensures few { IfOk result (λ count. count < 2 ^ 128) }
{
    match Lattice::of(alloc, d, Some(grid)) {
        Ok(lat) => Ok(u128::from(lat.count())),
        Err(LatticeFault::TooManyNodes { count }) => Ok(count),
        Err(LatticeFault::Memory(cause)) => Err(cause),
    }
}

// The line that isn't in its place where that of the grid is in its place, but for the number of nodes.
fn line_behind(alloc: Global, d: &Design, line: u64, grid: &GridLine) -> Result<u64, AllocError>
    requires sound { IsSound d.now }
    requires from { 1000 ≤ grid.now.grid }
    requires to { grid.now.grid ≤ 409600000 }
    ensures { (firsts : Seq (Seq (Seq ℕ))) (text : Seq ℕ) → HasTrueLine d.now firsts text line grid.now
        → IfOk result (IsOutOfPlace d.now (IsTrulyTold d.now firsts) text) }
{
    let count = nodes_of(alloc, d, grid.grid)?;
    if tells(grid, count) {
        return Ok(line);
    }
    Ok(grid.line)
}

// The line that isn't in its place where the number of nodes counts, too.
fn true_line(
    alloc: Global,
    d: &Design,
    line: u64,
    passed: Option<GridLine>,
) -> Result<u64, AllocError>
    requires sound { IsSound d.now }
    requires ranged { IfSome passed (λ g. (1000 ≤ g.grid) × (g.grid ≤ 409600000)) }
    ensures { (firsts : Seq (Seq (Seq ℕ))) (text : Seq ℕ) → IsMisread d.now firsts text line passed
        → IfOk result (IsOutOfPlace d.now (IsTrulyTold d.now firsts) text) }
{
    match passed {
        Some(grid) => line_behind(alloc, d, line, &grid),
        None => {
            let _ = nodes_of(alloc, d, 409600000)?;
            Ok(line)
        }
    }
}

// What is wrong with the copper, the lines and the cuts first, or that nothing is.
fn judge_on(
    alloc: Global,
    on: &Ground<'_, Tiles>,
    items: &[Item],
    found: &[List<Island>],
    nets: &[List<ReadCut>],
) -> Result<Verdict, AllocError>
    requires same_items { on.now.items ≡ items.now }
    requires serves { Serves items.now on.now.d }
    requires nets { All (All (λ (s : OneIsland). s.net < length on.now.d.nets)) found.now }
    requires same { length found.now ≡ length nets.now }
    ensures { IfOk result (IsVerdictOf on.now.d on.now.lat items.now found.now nets.now) }
{
    on.keeps();
    match wrong_copper(on.d, on.c, items) {
        Some(wrong) => Ok(wrong),
        None => judge_nets(alloc, on, found, nets),
    }
}

// What is wrong first where each line of the report is in its place.
fn judge_read(
    alloc: Global,
    board: &FoundBoard<'_>,
    grid: GridLine,
    nets: &[List<ReadCut>],
) -> Result<Verdict, JudgeFault>
    requires board { let b = board.now in IsFound b.d.now b.tiles.now b.items.now b.found.now }
    requires from { 1000 ≤ grid.grid }
    requires to { grid.grid ≤ 409600000 }
    requires same { length board.now.found.now ≡ length nets.now }
    ensures { let b = board.now in
        (text : Seq ℕ) → IsRead b.d.now (first_names_of b.d.now b.found.now) text grid nets.now
        → Answers (record { design = b.d.now; items = b.items.now; found = b.found.now; report = text }) result }
{
    reports_say_one();
    let lat = match Lattice::of(alloc, board.d, Some(grid.grid)) {
        Ok(lat) => lat,
        Err(LatticeFault::TooManyNodes { count }) => {
            return Err(JudgeFault::TooManyNodes { count });
        }
        Err(LatticeFault::Memory(cause)) => return Err(JudgeFault::Memory(cause)),
    };
    if !tells(&grid, u128::from(lat.count())) {
        return Ok(Verdict::No {
            number: 2,
            at: grid.line,
        });
    }
    let on = Ground {
        lat: &lat,
        d: board.d,
        c: board.tiles,
    };
    match judge_on(alloc, &on, board.items, board.found, nets) {
        Ok(verdict) => Ok(verdict),
        Err(cause) => Err(JudgeFault::Memory(cause)),
    }
}

// What the report's text answers, for the islands on the board.
fn judge_found(
    alloc: Global,
    board: &FoundBoard<'_>,
    report: &[u8],
) -> Result<Result<Verdict, JudgeFault>, AllocError>
    requires board { let b = board.now in IsFound b.d.now b.tiles.now b.items.now b.found.now }
    ensures { let b = board.now in IfOk result
        (Answers (record { design = b.d.now; items = b.items.now; found = b.found.now; report = report.now })) }
{
    let names = first_names(alloc, board.d, board.found)?;
    match read_report(alloc, board.d, &names, report)? {
        Reading::Read { grid, nets } => Ok(judge_read(alloc, board, grid, nets.as_slice())),
        Reading::OutOfPlace { line, passed } => Ok(Ok(Verdict::No {
            number: 2,
            at: true_line(alloc, board.d, line, passed)?,
        })),
    }
}

fn judge_board(
    alloc: Global,
    d: &Design,
    items: &[Item],
    report: &[u8],
) -> Result<Result<Verdict, JudgeFault>, AllocError>
    requires sound { IsSound d.now }
    requires ascends { Ascends items.now }
    requires serves { Serves items.now d.now }
    ensures { IfOk result (JudgesBoard d.now items.now report.now) }
{
    let tiles = tiles_of(alloc, d, items)?;
    let found = islands_of_all(alloc, d, &tiles)?;
    let board = FoundBoard {
        d,
        tiles: &tiles,
        items,
        found: found.as_slice(),
    };
    judge_found(alloc, &board, report)
}

/// Judges a session's items and a report of the design: yes, or what is wrong first. Its faults are a lattice of too
/// many nodes, and want of memory.
pub fn judge(
    alloc: Global,
    d: &Design,
    items: &List<SesItem>,
    report: &[u8],
) -> Result<Verdict, JudgeFault>
    requires sound { IsSound d.now }
    requires items { All (IsItemSound d.now) items.now }
    ensures { Judges d.now items.now report.now result }
{
    session_boards_serve();
    let board = match board_items(alloc, d, items) {
        Ok(board) => board,
        Err(cause) => return Err(JudgeFault::Memory(cause)),
    };
    match judge_board(alloc, d, board.as_slice(), report) {
        Ok(answer) => answer,
        Err(cause) => Err(JudgeFault::Memory(cause)),
    }
}
