//! Maps of the moves of groups of nets.
//! A move that nothing shuts in the map is open; for another the copper is asked.
#![tactic(auto)]

mod brush;
mod centred;
mod clear;
mod counts;
mod cover;
mod fill;
mod firsts;
mod group;
mod inner;
mod joins;
mod laws;
mod links;
mod map;
mod margins;
mod moves;
mod net_moves;
mod own;
mod paint;
mod parts;
mod span;
mod spot;
mod start;
mod step;
mod tally;
mod via;
mod window;

pub use counts::Counts;
pub use laws::{merges_tally, open_by_bit, tallies_change};
pub use map::{GroupMap, MoveMaps};
pub use moves::MapMoves;
pub use net_moves::NetMoves;
pub use own::OwnCopper;
pub use window::{steps_off_are_clear, vias_out_are_clear};
