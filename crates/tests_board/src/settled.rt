//! Settled moves: what shuts an island in is taken out or moved aside where that helps.
//! With none tried the island keeps its cut.

use crate::calls::{Wanted, leaves};
use crate::designs::CROSSING;
use crate::of_routes::{
    ACROSS, APART, CROSSING_FRONT, CROSSING_HEAD, Route, SESSION, SESSION_END, STRAIGHT, WALLED,
};
use dsn_route::Status;

/// Routes at a grid of 1 mm by one worker in one pass, and tries no settled move.
const NONE_TRIED: &str = "route u.dsn u.ses --grid 1000 --workers 1 --passes 1 --tries 0";

/// The same, with so many tries as without an option.
const TRIED: &str = "route u.dsn u.ses --grid 1000 --workers 1 --passes 1";

/// Net A's wire was taken out for net B, and its net takes a way round: first by lesser nodes.
const MADE_WAY: &str = "pass 1 commits 1 open 1
kept 1
joins 2
net A complete
net B complete
complete 2 open 0
";

const BELOW: &str = "      (net A
        (wire (path F.Cu 2000 10000 50000 10000 10000 90000 10000 90000 50000))
      )
      (net B
        (wire (path F.Cu 2000 50000 20000 50000 80000))
      )
";

/// Net A's wire was moved up by a line, and stays whole.
const MOVED_ASIDE: &str = "pass 1 commits 0 open 1
kept 1
joins 1
net A complete
net B complete
complete 2 open 0
";

const ABOVE: &str = "      (net A
        (wire (path F.Cu 2000 10000 80000 10000 50000 10000 60000 90000 60000 90000 50000 90000 80000))
      )
      (net B
        (wire (path F.Cu 2000 30000 20000 30000 50000 70000 50000 70000 20000))
      )
";

/// The session of those pins up to its nets.
const APART_FRONT: &str = "(session T
  (base_design T)
  (placement
    (resolution um 10)
    (component P
      (place C1 10000 80000 front 0)
      (place C2 90000 80000 front 0)
      (place C3 30000 20000 front 0)
      (place C4 70000 20000 front 0)
    )
  )
  (was_is
  )
  (routes
    (resolution um 10)
    (parser
      (host_cad KiCad)
      (host_version 8)
    )
    (library_out
    )
    (network_out
";

static SETTLED: [Route; 4] = [
    Route(
        "net A lies across net B, which has a cut for each of its islands and no walk",
        &[],
        NONE_TRIED,
        Wanted {
            status: Status::SomeOpen,
            report: &[CROSSING_HEAD, ACROSS],
            session: Some(&[CROSSING_FRONT, STRAIGHT, SESSION_END]),
            made: Some((1, 1)),
        },
    ),
    Route(
        "net A, which lies across net B, is taken out and goes round",
        &[],
        TRIED,
        Wanted {
            status: Status::Complete,
            report: &[CROSSING_HEAD, MADE_WAY],
            session: Some(&[CROSSING_FRONT, BELOW, SESSION_END]),
            made: Some((3, 1)),
        },
    ),
    Route(
        "a wire and a wall part net B",
        &APART,
        NONE_TRIED,
        Wanted {
            status: Status::SomeOpen,
            report: &[CROSSING_HEAD, WALLED],
            session: SESSION,
            made: Some((0, 1)),
        },
    ),
    Route(
        "the wire that parts net B with a wall is moved up by a line",
        &APART,
        TRIED,
        Wanted {
            status: Status::Complete,
            report: &[CROSSING_HEAD, MOVED_ASIDE],
            session: Some(&[APART_FRONT, ABOVE, SESSION_END]),
            made: Some((1, 1)),
        },
    ),
];

#[test]
fn what_shuts_an_island_in_is_taken_out_or_moved_aside_where_that_helps(rt: HostRuntime) {
    for Route(name, edits, line, wanted) in &SETTLED {
        assert!(rt;
            leaves(&rt, rt.alloc(), CROSSING, edits, line, wanted),
            "{name}"
        );
    }
}
