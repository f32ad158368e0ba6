//! The islands of a net: which of its pins touching copper joins.
//! A net is complete where it has at most one island.
#![tactic(auto)]

mod flood;
mod gather;
mod ids;
mod laws;
mod net;
mod pad;
mod places;

pub use laws::{island_items_own, islands_are_one, joining_falls, others_change_nothing};
pub use net::{Island, is_whole, islands};
pub use pad::pad_of;
