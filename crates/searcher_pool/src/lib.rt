//! A pass: workers share a board, each in a thread of its own. They claim tasks, and plan and offer for each until it
//! ends.
#![tactic(auto)]

mod input;
mod laws;
mod log;
mod pass;
mod pool;
mod threads;
mod worker;

pub use input::{PassInput, PassMaps};
pub use laws::{full_passes_are_spent, passes_are_least};
pub use log::{OfferNote, WorkerLog, is_full};
pub use pass::{run_pass, run_pass_from};
