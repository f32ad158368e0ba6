//! The ranges of the numbers that a command line gives, and what is taken where it gives none.

/// Workers that may be asked for.
pub const MOST_WORKERS: u32 = 16;

/// Workers where none are asked for.
pub const WORKERS: u32 = 4;

/// Passes that may be asked for.
pub const MOST_PASSES: u32 = 99;

/// Passes where none are asked for.
pub const PASSES: u32 = 10;

/// The longest grid that may be asked for, in um.
pub const LONGEST_GRID: u32 = 100_000;

/// The greatest price of a via that may be asked for, in um.
pub const MOST_VIA_COST: u32 = 1_000_000;

/// The price of a via where none is asked for, in um.
pub const VIA_COST: u32 = 2_000;

/// The most items that a cut names of which settled moves may be tried.
pub const MOST_TRIES: u32 = 1_000;

/// Of how many of them where none are asked for.
pub const TRIES: u32 = 16;

/// The last generated board.
pub const LAST_BOARD: u32 = 400;
