//! Components and where they stand: the reader of a design's placement, and placed copper, in nm.
//! The reader answers the components, or the refusal whose place comes first in the placement.
#![tactic(auto)]

mod copper;
mod place;
mod placing;
mod point;
mod reach;
mod seat;

pub use copper::{
    ban_copper, bare_seat, pin_centre, pin_copper, pin_seat, place_shape, place_spine, turn_over,
};
pub use placing::read_placement;
pub use point::place_point;
pub use seat::{Mount, Seat, Stand};
