//! The top call: it reads the design that the words name, routes it, from an earlier session where they name one, and
//! writes the session and the report; or it judges a session and its report by the design.
//! Its contract says of every answer why it came and what it left.
#![tactic(auto)]

mod check;
mod context;
mod earlier;
mod lines;
mod outcome;
mod refusals;
mod route;
mod status;
mod write;

pub use outcome::Outcome;
pub use route::{MAX_BYTES, dsn_route};
pub use route_run::Routed;
pub use status::Status;
