//! The words of the command line: which command they ask for, with its names and knobs, or why they are refused.
//! `clap` parses what follows the command word; contracts see words as lists of bytes.
#![tactic(auto)]

mod command;
mod form;
mod knobs;
pub mod limits;
mod text;
mod words;

pub use command::{Command, Knobs, WordFault};
pub use knobs::number_between;
pub use text::Text;
pub use words::{USAGE, read_words};
