//! How far from the origin a point may be, and how wide copper may be, in nm.

/// The greatest absolute value of a coordinate.
pub const FURTHEST: u64 = 1 << 29;

/// The greatest width, diameter and clearance.
pub const WIDEST: u64 = 1 << 28;
