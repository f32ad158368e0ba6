//! Planes on power layers: a mesh of fixed wires in place of each.
//! Source: SPECCTRA reference, plane descriptor.
#![tactic(auto)]

mod area;
mod candidate;
mod fault;
mod laid;
mod laws;
pub mod limits;
mod lines;
mod reading;
mod taking;
mod trial;

pub use area::PlaneArea;
pub use fault::RibFault;
pub use laws::{further_items_serve, ribs_are_one, ribs_hold, ribs_stay_inside};
pub use reading::{planes_in, read_planes};
pub use taking::ribs;
