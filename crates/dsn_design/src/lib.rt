//! The design of a text: what its sections make together, or the first refusal.
//! All lengths are whole nanometres (nm); indices count from 0.
#![tactic(auto)]

mod board;
mod copper;
mod design;
mod edges;
mod items;
mod laws;
mod nets;
mod parts;
mod pins;
mod stacks;
mod usable;
mod wiring;

pub use design::read_design;
pub use laws::one_outcome;
pub use parts::Parts;
