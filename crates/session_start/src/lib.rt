//! A design that starts from an earlier session: its free wiring is what the session holds beside the fixed wiring.
#![tactic(auto)]

mod laws;
mod start;

pub use laws::{legal_wiring_is_kept, other_wiring_keeps};
pub use start::with_session;
