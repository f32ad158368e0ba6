//! Shoves: a run of a wire goes to the next line of the lattice, and the wire's two parts follow.
//! A shoved wire agrees with all other items and touches whatever of its net it touched before.
#![tactic(auto)]

mod laws;
mod line;
mod replace;
mod run;

pub use laws::shoved_chains;
pub use run::{Reshape, shove_at, shove_run};
