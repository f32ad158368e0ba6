//! The numbers of the refusals of a session, as `docs/PICTURE.md` tells them.

/// The list isn't a `session`, or `routes`, `resolution` or `network_out` is missing.
pub const NO_SESSION: u8 = 1;

/// A number, a unit or a count is none that can be, or is too large.
pub const NO_MEASURE: u8 = 2;

/// The design has no net of this name.
pub const NO_NET: u8 = 3;

/// The design has no layer of this name.
pub const NO_LAYER: u8 = 4;

/// The design has no padstack of this name.
pub const NO_PADSTACK: u8 = 5;

/// A wire hasn't just one path, or a path has fewer than two points or half a point.
pub const NO_PATH: u8 = 6;
