//! What a pass goes by.
//! It is lent for the pass, and copied to whoever works in it.

use move_maps::MoveMaps;
use route_lattice::Lattice;
use route_plan::MappedSnap;

/// Maps that were made before a pass.
#[derive(Drop)]
pub struct PassMaps {
    /// An earlier snapshot of the board with the maps of its moves, with a copy of which each worker begins.
    pub mapped: Option<MappedSnap>,
    /// Maps of the moves on the design's fixed items alone, which serve where there is a penalty.
    pub fixed: Option<MoveMaps>,
}

/// What a pass goes by.
#[derive(Clone, Copy)]
pub struct PassInput<'a> {
    /// The lattice.
    pub lat: &'a Lattice,
    /// The price of a via, in nm.
    pub via_cost: u64,
    /// How many workers there are.
    pub workers: u32,
    /// The nets that are to be worked off.
    pub tasks: &'a [u32],
    /// What a move costs for each routed item in its way, in nm; without one no routed item gives way.
    pub penalty: Option<u64>,
    /// The pattern by which searches prefer some of equally cheap walks; 0 prefers none.
    pub pattern: u32,
    /// The maps that were made before.
    pub maps: &'a PassMaps,
}
