//! How many of its things a design may have, how large the parts of a file may be, and how large the file.

/// Layers of a design.
pub const MOST_LAYERS: u64 = 32;

/// Nets of a design.
pub const MOST_NETS: u64 = 131_072;

/// Pins of a design.
pub const MOST_PINS: u64 = 524_288;

/// Items that a design begins with: its boundaries, keepouts and pins, and the wires and vias of its wiring.
pub const MOST_ITEMS: u64 = 2_097_152;

/// Vertices of one shape.
pub const MOST_VERTICES: u64 = 16_384;

/// Units of a resolution, as 10 in `(resolution um 10)`.
pub const MOST_PER: u32 = 1_000_000;

/// Bytes of a file that a program reads.
pub const MOST_BYTES: u64 = 67_108_864;
