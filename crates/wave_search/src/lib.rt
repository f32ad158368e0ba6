//! A least walk over open moves, or all nodes that open moves reach where no walk leads to a goal.
//! The search is Dijkstra's with a bound on the rest of a walk (Hart, Nilsson and Raphael 1968).
#![tactic(auto)]

mod bins;
mod bound;
mod box_bound;
mod choices;
mod choose;
mod front;
mod labels;
mod marks;
mod one;
mod query;
mod ready;
mod rows;
mod search;
mod stated;
mod ties;
mod trace;

pub use bound::{Bound, NoBound};
pub use box_bound::{BoxBound, box_bound_sound};
pub use one::stated_walks_are_one;
pub use search::{Search, guided_walk, least_walk, stated_walk};
pub use ties::{Heading, LayerDirections, NoTies, Ties, heading_of};
