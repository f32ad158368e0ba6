//! Whether the nodes of some stretches shut an island in, and how many moves lead out of them: without a search.
#![tactic(auto)]

mod anchors;
mod cut;
mod laws;
mod marks;
mod outward;
mod stretch;

pub use anchors::{AnchoredIslands, anchors_of};
pub use cut::{CutSize, cut_size};
pub use laws::sizes_are_one;
pub use marks::blank_marks;
pub use stretch::Stretch;
