//! What a run goes by.
//! It is copied to whoever makes a part of the run.

use route_lattice::Lattice;

/// What a run goes by.
#[derive(Clone, Copy)]
pub struct RunInput<'a> {
    /// The lattice of the design.
    pub lat: &'a Lattice,
    /// The price of a via, in nm.
    pub via_cost: u64,
    /// How many workers there are.
    pub workers: u32,
    /// The most passes.
    pub passes: u32,
    /// Of how many items that a cut names settled moves are tried.
    pub tries: u32,
    /// Whether the closing pass joins by moves at 45 degrees too.
    pub diagonal: bool,
}
