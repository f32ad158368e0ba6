//! What a call answers: how it ended, and what it routed.

ghost use Rattle.std.specs.Prelude.{◌≡◌, None};

use crate::Status;
use route_run::Routed;

/// How a call ended, and the board and facts of its run, where it routed: always where it ended with a report, and
/// where a write failed or memory was wanting behind the routing.
#[derive(Drop)]
pub struct Outcome {
    pub status: Status,
    pub routed: Option<Routed>,
}

/// The outcome of a call that routed nothing.
pub(crate) fn unrouted(status: Status) -> Outcome
    ensures { result ≡ record { status = status; routed = None } }
{
    Outcome {
        status,
        routed: None,
    }
}
