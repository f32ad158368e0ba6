//! The session of a routed board, as bytes.
//! Source: SPECCTRA reference, session file descriptor.
#![tactic(auto)]

mod items;
mod library;
mod network;
mod placement;
mod session;
mod words;

pub use session::{items_session, session_text};
pub use words::{put, put_whole, put_word};
