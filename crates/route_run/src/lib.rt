//! A run: a design's board starts, passes over its nets are made, the best of them is kept, and the closing pass tells
//! how the nets end. The board is legal after each of its entries.
#![tactic(auto)]

mod connections;
mod facts;
mod input;
mod keep;
mod laws;
mod passes;
mod run;
mod starts;
mod state;
mod trials;

pub use facts::{Facts, PassLine};
pub use input::RunInput;
pub use laws::cuts_are_shut;
pub use run::{MOST_ENTRIES, Routed, run_nets};
pub use starts::run_best;
