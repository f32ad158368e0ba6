//! A valid design of a number, as text: sites in a square, joined in pairs by a shuffle.
//! The same number always gives the same text.
#![tactic(auto)]

mod order;
mod text;

pub use text::design_text;
