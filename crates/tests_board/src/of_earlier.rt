//! Designs that are routed from an earlier session, which the new one replaces.
//! The designs are those of two pins that face each other.

use crate::calls::{Wanted, called_over};
use crate::designs::{ON_FRONT, TWO_LAYERS, swapped};
use crate::of_routes::{
    ALL_COMPLETE, FACING, FIXED, FIXED_NETS, ONE_NET, PAIR_SESSION, SESSION, SESSION_END,
    THREE_NETS,
};
use board_turn::NoGate;
use dsn_route::Status;
use std::alloc::Global;
use std::process::Abort;
use std::sync::Wait;
use std::thread::Threads;

/// From the session that the call replaces.
const AGAIN: &str = "route u.dsn u.ses --from u.ses --grid 1000 --workers 1 --passes 1";

/// From a session that isn't there.
const MISSING: &str = "route u.dsn u.ses --from v.ses --grid 1000 --workers 1 --passes 1";

/// The rest of the report where all comes back.
const BACK: &str = "pass 1 commits 0 open 0
kept 1
joins 0
net A complete
complete 1 open 0
";

const BOTH_BACK: &str = "pass 1 commits 0 open 0
kept 1
joins 0
net A complete
net B complete
net C complete
complete 3 open 0
";

/// A wire of net A that crosses no pin, and is too narrow.
const NARROW: &str = "      (net A
        (wire (path F.Cu 1000 20000 50000 80000 50000))
      )
";

/// The report's lines up to the passes, where the item at this place of the session is left out.
const ONE_DROPPED: &str = "board T
layers 2 nets 1 pins 2
grid 1000000 nodes 162
dropped 1
drop 338
notes 0
";

const JOINED_ANEW: &str = "pass 1 commits 1 open 0
kept 1
joins 0
net A complete
complete 1 open 0
";

/// What is shown, edits of the design, the parts of the earlier session, the words, and what the call leaves.
struct Earlier(
    &'static str,
    &'static [(&'static str, &'static str)],
    &'static [&'static str],
    &'static str,
    Wanted<'static>,
);

static EARLIER: [Earlier; 6] = [
    Earlier(
        "the wire of the earlier session comes back",
        &[ON_FRONT],
        &[PAIR_SESSION, FACING, SESSION_END],
        AGAIN,
        Wanted {
            status: Status::Complete,
            report: &[ONE_NET, BACK],
            session: Some(&[PAIR_SESSION, FACING, SESSION_END]),
            made: Some((0, 1)),
        },
    ),
    Earlier(
        "a wire that is too narrow is dropped",
        &[ON_FRONT],
        &[PAIR_SESSION, NARROW, SESSION_END],
        AGAIN,
        Wanted {
            status: Status::Complete,
            report: &[ONE_DROPPED, JOINED_ANEW],
            session: Some(&[PAIR_SESSION, FACING, SESSION_END]),
            made: Some((1, 1)),
        },
    ),
    Earlier(
        "fixed wiring takes away what the session has of it",
        &FIXED,
        &[PAIR_SESSION, FACING, FIXED_NETS, SESSION_END],
        AGAIN,
        Wanted {
            status: Status::Complete,
            report: &[THREE_NETS, BOTH_BACK],
            session: Some(&[PAIR_SESSION, FACING, FIXED_NETS, SESSION_END]),
            made: Some((0, 1)),
        },
    ),
    Earlier(
        "an empty session has no wiring",
        &FIXED,
        &[PAIR_SESSION, SESSION_END],
        AGAIN,
        Wanted {
            status: Status::Complete,
            report: &[THREE_NETS, ALL_COMPLETE],
            session: Some(&[PAIR_SESSION, FACING, FIXED_NETS, SESSION_END]),
            made: Some((1, 1)),
        },
    ),
    Earlier(
        "a text that is no session",
        &[ON_FRONT],
        &[PAIR_SESSION, FACING],
        AGAIN,
        Wanted {
            status: Status::Rejected,
            report: &["check 1 at 304\n"],
            session: SESSION,
            made: None,
        },
    ),
    Earlier(
        "the earlier session isn't there",
        &[ON_FRONT],
        &[PAIR_SESSION, SESSION_END],
        MISSING,
        Wanted {
            status: Status::ReadFault,
            report: &["read fault\n"],
            session: SESSION,
            made: None,
        },
    ),
];

/// The parts one behind the other; None where memory is wanting.
fn text(alloc: Global, parts: &[&str]) -> Option<String> {
    let mut whole = String::new(alloc);
    for part in parts {
        whole.push_str(part).ok()?;
    }
    Some(whole)
}

/// Whether a call over that design and session leaves what is wanted.
fn leaves_from<T: Threads + Wait + Sync + Abort>(rt: &T, alloc: Global, row: &Earlier) -> bool {
    let Earlier(_, edits, session, line, wanted) = row;
    let design = swapped(alloc, TWO_LAYERS, edits).expect(rt, "no design");
    let session = text(alloc, session).expect(rt, "no session");
    let held = [("u.dsn", design.as_bytes()), ("u.ses", session.as_bytes())];
    called_over(rt, alloc, &held, line, (0, 0), &NoGate).is(wanted)
}

#[test]
fn a_route_starts_from_an_earlier_session(rt: HostRuntime) {
    for row in &EARLIER {
        assert!(rt; leaves_from(&rt, rt.alloc(), row), "{}", row.0);
    }
}
