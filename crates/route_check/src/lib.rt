//! The judge of a session and its report: what it answers, and what its answers are worth.
#![tactic(auto)]

mod board;
mod cuts;
mod equal;
mod judging;
mod laws;
mod left;
mod lines;
mod names;
mod order;
mod verdict;

pub use board::board_items;
pub use judging::judge;
pub use laws::{right_is_vouched, right_is_yes, session_boards_serve};
pub use left::items_left;
pub use verdict::{JudgeFault, Verdict};
