//! What judging a session and its report answers.

use std::alloc::AllocError;
use thiserror::Error;

/// Yes, or what is wrong first: 2 a line of the report, counted from 1; 3 the id of an item that disagrees with
/// another; 4 that of one that isn't inside; 5 that of one that isn't laid as its net wants; 6 a net whose line isn't
/// true; 7 the first pin of an island whose cut is none.
#[derive(Clone, Copy, PartialEq, Eq)]
pub enum Verdict {
    Yes,
    No { number: u8, at: u64 },
}

/// Why nothing was judged.
#[derive(Clone, Copy, Debug, PartialEq, Eq, Error)]
pub enum JudgeFault {
    /// The lattice of the report's grid has too many nodes.
    #[error("the lattice would have {count} nodes")]
    TooManyNodes { count: u128 },
    /// There was no memory.
    #[error(transparent)]
    Memory(AllocError),
}
