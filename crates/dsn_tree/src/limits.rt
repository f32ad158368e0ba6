//! How deep a text may be.

/// Brackets that may be open at a time.
pub const MOST_DEPTH: usize = 64;
