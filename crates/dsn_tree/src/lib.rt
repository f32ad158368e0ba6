//! The tree of a text in the design language, and look-ups in it.
//! A text is one group, of at most so many levels as a limit allows.
#![tactic(auto)]

mod fault;
mod heads;
mod laws;
pub mod limits;
mod reading;
mod tree;

pub use fault::TreeFault;
pub use heads::{child, children, is_headed, items, word};
pub use laws::one_answer;
pub use reading::read_tree;
pub use tree::Tree;
