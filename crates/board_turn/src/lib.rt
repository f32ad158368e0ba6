//! One board for several passes: each takes its turn in the order of tickets.
//! The passes of a turn tell at its end all that was done with the board, and in what order. The tasks of a turn are
//! numbers below a bound, and each is claimed by one worker.
#![tactic(auto)]

mod claims;
mod event;
mod gate;
mod laws;
mod lock;
mod turn;

pub use claims::{Claimer, Counter};
pub use event::{Action, Event};
pub use gate::{Gate, NoGate};
pub use laws::{events_keep, one_pass_sees_all};
pub use turn::{Pass, Turn};
