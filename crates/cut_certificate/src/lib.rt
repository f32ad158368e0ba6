//! Cuts: why no legal walk leads from an island of a net to another one.
//! A cut is made by a flood that closed: a stack and a table of marks, which find all nodes that open moves reach,
//! without prices and in no order. It can be checked without one.
#![tactic(auto)]

mod backwards;
mod border;
mod check;
mod cut;
mod front;
mod laws;
mod make;
mod marks;
mod past;
mod shut;
mod sound;
mod spread;

pub use backwards::Backwards;
pub use border::meets;
pub use check::{check_cut, cut_closes};
pub use cut::{Block, Blocker, Cut};
pub use laws::legal_moves_lead_back;
pub use make::{goals_of, make_cut, make_cut_among, make_cut_with, starts_of};
pub use past::may_lead_past;
pub use spread::{are_shut_in, flood};
