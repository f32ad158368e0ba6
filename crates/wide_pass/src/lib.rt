//! The closing pass by rounds: between two of them islands that legal moves leave open are joined by moves at 45
//! degrees, as long as such moves lead from one to another.
#![tactic(auto)]

mod close;
mod join;
mod laws;
mod round;
mod sizes;

pub use close::{Wide, close_wide};
pub use laws::{rounds_join_least, wide_joins_leave_fewer, wide_reach_shuts};
