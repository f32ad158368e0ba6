//! The reader of a design's library: its padstacks and images, in nm.
//! It answers the library, or the refusal whose place comes first in it.
#![tactic(auto)]

mod image;
mod library;
mod padstack;
mod pin;

pub use library::read_library;
