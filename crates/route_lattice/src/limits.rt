//! How many nodes a lattice may have, and which grids are taken where none is given.

/// Nodes of a lattice.
pub const MOST_NODES: u128 = 1 << 24;

/// Nodes of a lattice of the default grid, where one of the grids that are tried has so few.
pub const DEFAULT_NODES: u128 = 1 << 22;

/// The finest default grid, in nm.
pub const FINEST_GRID: u64 = 100_000;

/// How many default grids are tried, each twice the one before it.
pub const TRIED_GRIDS: u32 = 12;
