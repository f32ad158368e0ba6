//! Plans: what a worker offers to lay for a net on a snapshot of a board.
//! An offer lays the copper of a least walk from the net's first island to another. What is in its way is shoved where
//! each item has a shove that fits and all of them stand together, and else ripped. What was mapped last of a board has
//! maps of the moves on it, which follow the board from one snapshot to the next.
#![tactic(auto)]

mod added;
mod fit;
mod fixed_copper;
mod laws;
mod mapped;
mod moved;
mod planner;
mod plans;
mod rips;
mod route;
mod way;

pub use fixed_copper::fixed_maps;
pub use laws::rip_bound_sound;
pub use mapped::{MappedSnap, map_board, map_snap};
pub use planner::{Planner, plan};
pub use plans::{FromIsland, NetPlan, Planned};
pub use rips::{MapRips, rips_of};
pub use route::{NetSearch, Route, Routed};
