//! Offers to a board: whether one is well formed, the items that it makes, and the least id at which it meets trouble.
//! An offer is judged by the design and the items ever given, its trouble by the copper that stands now.
#![tactic(auto)]

mod clauses;
mod copy;
mod ids;
mod judgement;
mod make;
mod metals;
mod near;
mod offer;
mod pairs;
mod parted;
mod shoves;
mod trouble;

pub use copy::copy_offer;
pub use ids::gone_ids;
pub use judgement::{Judged, judge};
pub use offer::{CLOSER, Offer, Shoved};
pub use trouble::least_trouble;
