//! The reader of a design's network: its nets with their pins, its classes, and the clearances between classes, in nm.
//! It answers the network, or the refusal whose place comes first in it.
#![tactic(auto)]

mod class;
mod classes;
mod net;
mod network;
mod owners;
mod pairs;
mod pins;
mod refs;
mod split;
mod words;

pub use network::read_network;
pub use owners::Owners;
pub use pairs::MOST_PAIRS;
pub use split::split_pin;
