//! What came to copper and what went, between two states of it.
//! A change is told by ids: it names the items of the one state that the other lacks.
#![tactic(auto)]

mod between;
mod laws;

pub use between::{Since, changes_between};
pub use laws::differences_are_changes;
