//! The reader of a design's wiring: its wires and vias, fixed or free, in nm.
//! It answers the wiring, or the refusal whose place comes first in it.
#![tactic(auto)]

mod counts;
mod layers;
mod net;
mod via;
mod wire;
mod wiring;

pub use layers::layers_below;
pub use via::{point_by, spine_past};
pub use wiring::read_wiring;
