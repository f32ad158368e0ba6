//! What is kept of a report that was read.

use geo_kernel::List;

/// A stretch of nodes: the signal layer, the y line, the first and the last x line, each at most 2^32 - 1.
#[derive(Clone, Copy)]
pub struct ReadRun {
    pub level: u32,
    pub row: u32,
    pub first: u32,
    pub last: u32,
}

/// A cut: whether it names the first pin of the island in whose place it stands, how many nodes are reached and how
/// many moves are blocked, each at most 2^64 - 1, and the stretches.
#[derive(Drop)]
pub struct ReadCut {
    pub named: bool,
    pub reached: u64,
    pub blocked: u64,
    pub runs: List<ReadRun>,
}

/// The line of the grid: the grid in nm, how many nodes it tells, if they are fewer than 2^128, and the number of the
/// line, counted from 1.
#[derive(Clone, Copy)]
pub struct GridLine {
    pub grid: u64,
    pub nodes: Option<u128>,
    pub line: u64,
}

/// What a text is read as: a report, with the cuts of each net in the design's order, a complete net's none; or a text
/// with a line that isn't in its place, counted from 1. `passed` is the line of the grid, if that one is in its place.
#[derive(Drop)]
pub enum Reading {
    Read {
        grid: GridLine,
        nets: List<List<ReadCut>>,
    },
    OutOfPlace {
        line: u64,
        passed: Option<GridLine>,
    },
}
