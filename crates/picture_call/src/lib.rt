//! The call behind the program that draws: it reads a design, and a session where one is named, and writes the
//! picture of the board. Its contract says of every outcome why it came and what it left.
#![tactic(auto)]

mod call;
mod copper;
mod outcome;

pub use call::{MAX_BYTES, draw};
pub use outcome::{Outcome, PictureCall};
