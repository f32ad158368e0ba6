//! Several starts: a board that a further run completes, and one on which it leaves more open than the first run.
//! The better run is handed back, whole: its passes and its board.

use crate::calls::{Wanted, leaves};
use crate::of_routes::SESSION;
use dsn_route::Status;

/// Four pairs of pins on one layer, of which the first run joins two in each of its passes, and a further run all.
const CROWDED: &str = "(pcb T
  (parser (string_quote \") (host_cad KiCad) (host_version 8))
  (resolution um 10)
  (unit um)
  (structure
    (layer F.Cu (type signal))
    (boundary (rect pcb 0 0 7000 7000))
    (rule (width 200) (clearance 200)))
  (placement (component P
    (place C1 1000 5000 front 0)
    (place C2 4000 2000 front 0)
    (place C3 5000 4000 front 0)
    (place C4 3000 4000 front 0)
    (place C5 5000 5000 front 0)
    (place C6 2000 4000 front 0)
    (place C7 2000 3000 front 0)
    (place C8 6000 4000 front 0)))
  (library
    (image P (pin PAD 1 0 0))
    (padstack PAD (shape (circle F.Cu 1000))))
  (network
    (net N0 (pins C1-1 C2-1))
    (net N1 (pins C3-1 C4-1))
    (net N2 (pins C5-1 C6-1))
    (net N3 (pins C7-1 C8-1)))
  (wiring))
";

/// Four pairs of pins on one layer, of which the first run joins three in its first pass, and further runs two.
const CLOSE: &str = "(pcb T
  (parser (string_quote \") (host_cad KiCad) (host_version 8))
  (resolution um 10)
  (unit um)
  (structure
    (layer F.Cu (type signal))
    (boundary (rect pcb 0 0 6000 6000))
    (rule (width 200) (clearance 200)))
  (placement (component P
    (place C1 4000 5000 front 0)
    (place C2 2000 2000 front 0)
    (place C3 3000 5000 front 0)
    (place C4 4000 2000 front 0)
    (place C5 4000 1000 front 0)
    (place C6 5000 2000 front 0)
    (place C7 3000 2000 front 0)
    (place C8 5000 3000 front 0)))
  (library
    (image P (pin PAD 1 0 0))
    (padstack PAD (shape (circle F.Cu 1000))))
  (network
    (net N0 (pins C1-1 C2-1))
    (net N1 (pins C3-1 C4-1))
    (net N2 (pins C5-1 C6-1))
    (net N3 (pins C7-1 C8-1)))
  (wiring))
";

/// Routes at a grid of 1 mm by one worker.
const ONCE: &str = "route u.dsn u.ses --grid 1000 --workers 1 --tries 0 --passes 1";

const TWICE: &str = "route u.dsn u.ses --grid 1000 --workers 1 --tries 0 --passes 2";

/// With one pass there is one run.
const CROWDED_ONCE: Wanted = Wanted {
    status: Status::SomeOpen,
    report: &[
        "board T\nlayers 1 nets 4 pins 8\ngrid 1000000 nodes 36\ndropped 0\nnotes 0\n",
        "pass 1 commits 2 open 2\nkept 1\njoins 0\n",
        "..",
    ],
    session: SESSION,
    made: Some((2, 1)),
};

const CROWDED_TWICE: Wanted = Wanted {
    status: Status::Complete,
    report: &[
        "board T\nlayers 1 nets 4 pins 8\ngrid 1000000 nodes 36\ndropped 0\nnotes 0\n",
        "pass 1 commits 4 open 0\nkept 1\njoins 0\n",
        "..",
    ],
    session: SESSION,
    made: Some((4, 1)),
};

/// The first pass of the first run is kept, so its board goes back by an entry.
const CLOSE_TWICE: Wanted = Wanted {
    status: Status::SomeOpen,
    report: &[
        "board T\nlayers 1 nets 4 pins 8\ngrid 1000000 nodes 25\ndropped 0\nnotes 0\n",
        "pass 1 commits 3 open 1\npass 2 commits 1 open 2\nkept 1\njoins 0\n",
        "..",
    ],
    session: SESSION,
    made: Some((5, 1)),
};

#[test]
fn a_further_run_is_handed_back_where_it_leaves_less(rt: HostRuntime) {
    assert!(rt; leaves(&rt, rt.alloc(), CROWDED, &[], ONCE, &CROWDED_ONCE));
    assert!(rt; leaves(&rt, rt.alloc(), CROWDED, &[], TWICE, &CROWDED_TWICE));
}

#[test]
fn the_first_run_is_handed_back_where_further_ones_leave_more(rt: HostRuntime) {
    assert!(rt; leaves(&rt, rt.alloc(), CLOSE, &[], TWICE, &CLOSE_TWICE));
}
