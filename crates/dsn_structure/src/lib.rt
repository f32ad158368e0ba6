//! Readers of what stands before the sections of a design, and of its structure.
//! Each answers the value of its part, or the refusal whose place comes first in it.
#![tactic(auto)]

mod areas;
mod header;
mod layers;
mod layout;
mod vias;

pub use header::{count_of, read_head, unit_of};
pub use layout::read_structure;
