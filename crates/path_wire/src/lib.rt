//! The copper of a walk over the lattice: wires with their corners, and vias.
//! Its laws say that the copper is legal where each move of the walk is.
#![tactic(auto)]

mod laws;
mod wires;

pub use laws::{
    common_points_touch, copper_agrees, copper_by_parts, copper_connects, copper_inside,
    copper_touches, copper_well_laid, copper_widths, diagonal_prices_round_up, net_walks,
    own_copper_agrees, wide_walks,
};
pub use wires::walk_items;
