//! The reader of a session: the wires and vias of its nets, in nm.
//! It answers them, or the fault of the text's tree, or the refusal whose place comes first.
#![tactic(auto)]

mod index;
mod item;
mod laws;
mod measure;
mod network;
mod numbers;
mod resolution;
mod session;
pub mod table;
mod vertices;
mod via;
mod wire;
mod wiring;

pub use item::{SesFault, SesItem};
pub use laws::one_session;
pub use session::read_session;
pub use wiring::wires_of;
