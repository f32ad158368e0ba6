//! Designs that are routed: their sessions and reports.
//! Each net gets least walks, or a cut for each of its islands.

use crate::calls::{Wanted, called, leaves};
use crate::designs::{CROSSING, KICAD, ON_FRONT, TWO_LAYERS, swapped};
use board_turn::NoGate;
use dsn_route::Status;

/// What is shown, edits of a design, the words of a call, and what the call leaves.
pub(crate) struct Route(
    pub &'static str,
    pub &'static [(&'static str, &'static str)],
    pub &'static str,
    pub Wanted<'static>,
);

/// Routes at a grid of 1 mm by one worker, in one pass and in three.
const ROUTE: &str = "route u.dsn u.ses --grid 1000 --workers 1 --passes 1";

const ROUTE_THRICE: &str = "route u.dsn u.ses --grid=1000 --workers=1 --passes=3";

pub(crate) const SESSION_END: &str = "    )
  )
)
";

/// A session, whatever its text.
pub(crate) const SESSION: Option<&[&str]> = Some(&[".."]);

// ---- two nets whose pins lie across each other, on one layer

/// The session up to its nets.
pub(crate) const CROSSING_FRONT: &str = "(session T
  (base_design T)
  (placement
    (resolution um 10)
    (component P
      (place C1 10000 50000 front 0)
      (place C2 90000 50000 front 0)
      (place C3 50000 20000 front 0)
      (place C4 50000 80000 front 0)
    )
  )
  (was_is
  )
  (routes
    (resolution um 10)
    (parser
      (host_cad KiCad)
      (host_version 8)
    )
    (library_out
    )
    (network_out
";

/// Net A's wire, and the wires of both nets where net A's goes round net B's.
pub(crate) const STRAIGHT: &str = "      (net A
        (wire (path F.Cu 2000 10000 50000 90000 50000))
      )
";

const ROUND: &str = "      (net B
        (wire (path F.Cu 2000 50000 20000 50000 80000))
      )
      (net A
        (wire (path F.Cu 2000 10000 50000 10000 90000 90000 90000 90000 50000))
      )
";

/// Net B before net A.
const NO_B_LAST: (&str, &str) = (" (net B (pins C3-1 C4-1))", "");

const B_FIRST: (&str, &str) = ("(net A", "(net B (pins C3-1 C4-1)) (net A");

/// The lines of a report of two nets on one layer up to its passes.
pub(crate) const CROSSING_HEAD: &str = "board T
layers 1 nets 2 pins 4
grid 1000000 nodes 81
dropped 0
notes 0
";

/// The rest of the report where net A lies across net B.
pub(crate) const ACROSS: &str = "pass 1 commits 1 open 1
kept 1
joins 0
net A complete
net B open 2
cut \"C3-1\" reached 36 blocked 9
by smd 1
by smd 2
by wire 5
run 0 0 0 8
run 0 1 0 8
run 0 2 0 8
run 0 3 0 8
cut \"C4-1\" reached 36 blocked 9
by smd 1
by smd 2
by wire 5
run 0 5 0 8
run 0 6 0 8
run 0 7 0 8
run 0 8 0 8
complete 1 open 1
";

const IN_ONE_PASS: &str = "pass 1 commits 2 open 0
kept 1
joins 0
net B complete
net A complete
complete 2 open 0
";

/// The rest of the report where net A's wire and a wall lie between the pins of net B.
pub(crate) const WALLED: &str = "pass 1 commits 0 open 1
kept 1
joins 0
net A complete
net B open 2
cut \"C3-1\" reached 12 blocked 7
by area 1
by wire 7
run 0 0 0 2
run 0 1 0 2
run 0 2 0 2
run 0 3 0 2
cut \"C4-1\" reached 12 blocked 7
by area 1
by wire 7
run 0 0 6 8
run 0 1 6 8
run 0 2 6 8
run 0 3 6 8
complete 1 open 1
";

/// The rest of the report where net A is ripped for net B and then takes a way round.
const RIPPED: &str = "pass 2 commits 1 open 1
pass 3 commits 1 open 0
kept 3
joins 0
net A complete
net B complete
complete 2 open 0
";

/// Net A has a wire across net B already.
const LAID: (&str, &str) = (
    "(wiring)",
    "(wiring (wire (path F.Cu 200 1000 5000 9000 5000) (net A)))",
);

/// The pins stand so that a wire of net A, which is there already, and walls part those of net B.
pub(crate) const APART: [(&str, &str); 5] = [
    (
        "(place C1 1000 5000 front 0)",
        "(place C1 1000 8000 front 0)",
    ),
    (
        "(place C2 9000 5000 front 0)",
        "(place C2 9000 8000 front 0)",
    ),
    (
        "(place C3 5000 2000 front 0)\n    (place C4 5000 8000 front 0)",
        "(place C3 3000 2000 front 0)\n    (place C4 7000 2000 front 0)",
    ),
    (
        "    (rule (width",
        "    (keepout (rect F.Cu 4000 0 6000 4700))\n    (keepout (rect F.Cu 4000 6300 6000 10000))\n    (rule (width",
    ),
    (
        "(wiring)",
        "(wiring (wire (path F.Cu 200 1000 8000 1000 5000 9000 5000 9000 8000) (net A) (type route)))",
    ),
];

static CROSSINGS: [Route; 3] = [
    Route(
        "net A takes a way of 16 mm round net B, which is laid first",
        &[NO_B_LAST, B_FIRST],
        ROUTE,
        Wanted {
            status: Status::Complete,
            report: &[CROSSING_HEAD, IN_ONE_PASS],
            session: Some(&[CROSSING_FRONT, ROUND, SESSION_END]),
            made: Some((2, 1)),
        },
    ),
    Route(
        "net A, which the first pass laid, is ripped in the second and comes back in the third",
        &[],
        ROUTE_THRICE,
        Wanted {
            status: Status::Complete,
            report: &[CROSSING_HEAD, "pass 1 commits 1 open 1\n", RIPPED],
            session: SESSION,
            made: Some((3, 3)),
        },
    ),
    Route(
        "net A, which was there, is ripped in the second pass and comes back in the third",
        &[LAID],
        ROUTE_THRICE,
        Wanted {
            status: Status::Complete,
            report: &[CROSSING_HEAD, "pass 1 commits 0 open 1\n", RIPPED],
            session: SESSION,
            made: Some((2, 3)),
        },
    ),
];

#[test]
fn crossing_nets_get_least_walks_and_a_later_pass_rips_what_is_in_the_way(rt: HostRuntime) {
    for Route(name, edits, line, wanted) in &CROSSINGS {
        assert!(rt;
            leaves(&rt, rt.alloc(), CROSSING, edits, line, wanted),
            "{name}"
        );
    }
}

// ---- two pins that face each other, on two layers

/// The lines of a report up to its passes: of one net, of two, of none and of three.
pub(crate) const ONE_NET: &str = "board T
layers 2 nets 1 pins 2
grid 1000000 nodes 162
dropped 0
notes 0
";

const TWO_NETS: &str = "board T
layers 2 nets 2 pins 2
grid 1000000 nodes 162
dropped 0
notes 0
";

const NO_NET: &str = "board T
layers 2 nets 0 pins 2
grid 1000000 nodes 162
dropped 0
notes 0
";

/// The same of two nets, with the place of a wire that is dropped.
const ONE_DROPPED: &str = "board T
layers 2 nets 2 pins 2
grid 1000000 nodes 162
dropped 1
drop 577
notes 0
";

pub(crate) const THREE_NETS: &str = "board T
layers 2 nets 3 pins 2
grid 1000000 nodes 162
dropped 0
notes 0
";

/// The sessions of the two pins on two layers, up to their nets, and after them.
pub(crate) const PAIR_SESSION: &str = "(session T
  (base_design T)
  (placement
    (resolution um 10)
    (component P
      (place C1 20000 50000 front 0)
      (place C2 80000 50000 front 0)
    )
  )
  (was_is
  )
  (routes
    (resolution um 10)
    (parser
      (host_cad KiCad)
      (host_version 8)
    )
    (library_out
    )
    (network_out
";

/// Net A's wire on the front and on the back.
pub(crate) const FACING: &str = "      (net A
        (wire (path F.Cu 2000 20000 50000 80000 50000))
      )
";

const ON_BACK: &str = "      (net A
        (wire (path B.Cu 2000 20000 50000 80000 50000))
      )
";

pub(crate) const JOINED: &str = "pass 1 commits 1 open 0
kept 1
joins 0
net A complete
complete 1 open 0
";

/// The rest of the report where a wall parts the two pins on all layers: up to the first cut, the second, and the end.
pub(crate) const LEFT_PART: &str = "pass 1 commits 0 open 1
kept 1
joins 0
net A open 2
cut \"C1-1\" reached 72 blocked 18
by area 1
run 0 0 0 3
run 0 1 0 3
run 0 2 0 3
run 0 3 0 3
run 0 4 0 3
run 0 5 0 3
run 0 6 0 3
run 0 7 0 3
run 0 8 0 3
run 1 0 0 3
run 1 1 0 3
run 1 2 0 3
run 1 3 0 3
run 1 4 0 3
run 1 5 0 3
run 1 6 0 3
run 1 7 0 3
run 1 8 0 3
";

pub(crate) const RIGHT_PART: &str = "cut \"C2-1\" reached 72 blocked 18
by area 1
run 0 0 5 8
run 0 1 5 8
run 0 2 5 8
run 0 3 5 8
run 0 4 5 8
run 0 5 5 8
run 0 6 5 8
run 0 7 5 8
run 0 8 5 8
run 1 0 5 8
run 1 1 5 8
run 1 2 5 8
run 1 3 5 8
run 1 4 5 8
run 1 5 5 8
run 1 6 5 8
run 1 7 5 8
run 1 8 5 8
";

pub(crate) const NONE_COMPLETE: &str = "complete 0 open 1
";

const WALL_ON_FRONT: (&str, &str) = (
    "    (via V)\n",
    "    (keepout W (rect F.Cu 4900 0 5100 10000))\n    (via V)\n",
);

pub(crate) const WALL: (&str, &str) = (
    "    (via V)\n",
    "    (keepout W (rect signal 4900 0 5100 10000))\n    (via V)\n",
);

/// One net, and two nets, without pins beside net A.
const NET_B: (&str, &str) = ("(pins C1-1 C2-1)))", "(pins C1-1 C2-1)) (net B))");

const NETS_B_AND_C: (&str, &str) = ("(pins C1-1 C2-1)))", "(pins C1-1 C2-1)) (net B) (net C))");

/// A fixed wire of net B just far enough from net A's straight way, and one that is too near.
const BESIDE: (&str, &str) = (
    "(wiring)",
    "(wiring (wire (path F.Cu 200 3000 9000 3000 5400 7000 5400) (net B) (type fix)))",
);

const TOO_NEAR: (&str, &str) = (
    "(wiring)",
    "(wiring (wire (path F.Cu 200 3000 9000 3000 5399.9 7000 5399.9) (net B) (type fix)))",
);

const WITH_BESIDE: &str = "      (net A
        (wire (path F.Cu 2000 20000 50000 80000 50000))
      )
      (net B
        (wire (path F.Cu 2000 30000 90000 30000 54000 70000 54000))
      )
";

const WITH_TOO_NEAR: &str = "      (net A
        (wire (path F.Cu 2000 20000 50000 20000 40000 80000 40000 80000 50000))
      )
      (net B
        (wire (path F.Cu 2000 30000 90000 30000 53999 70000 53999))
      )
";

/// Fixed wires of both nets, and what they are in a session.
pub(crate) const FIXED: [(&str, &str); 3] = [
    ON_FRONT,
    NETS_B_AND_C,
    (
        "(wiring)",
        "(wiring (wire (path F.Cu 200 2000 8000 4000 8000) (net B) (type fix)) \
         (wire (path F.Cu 200 3000 8000 5000 8000) (net C) (type fix)))",
    ),
];

pub(crate) const FIXED_NETS: &str = "      (net B
        (wire (path F.Cu 2000 20000 80000 40000 80000))
      )
      (net C
        (wire (path F.Cu 2000 30000 80000 50000 80000))
      )
";

/// Free wires of net B: one too near a pad, and one that keeps from all.
const FREE: [(&str, &str); 3] = [
    ON_FRONT,
    NET_B,
    (
        "(wiring)",
        "(wiring (wire (path F.Cu 200 2000 5500 3000 5500) (net B)) \
         (wire (path F.Cu 200 2000 7000 3000 7000) (net B)))",
    ),
];

const KEPT: &str = "      (net B
        (wire (path F.Cu 2000 20000 70000 30000 70000))
      )
";

const BOTH_COMPLETE: &str = "pass 1 commits 1 open 0
kept 1
joins 0
net A complete
net B complete
complete 2 open 0
";

pub(crate) const ALL_COMPLETE: &str = "pass 1 commits 1 open 0
kept 1
joins 0
net A complete
net B complete
net C complete
complete 3 open 0
";

const TURNED: [(&str, &str); 4] = [
    ("0 0 10000 10000", "-10000 -10000 20000 20000"),
    ("(place C1 2000 5000 front 0)", "(place C1 0 0 front 30)"),
    (
        "(place C2 8000 5000 front 0)",
        "(place C2 2000 5000 front 0)",
    ),
    ("(pin PAD 1 0 0)", "(pin PAD 1 10000 0)"),
];

const TURNED_HEAD: &str = "board T
layers 2 nets 1 pins 2
grid 1000000 nodes 1740
dropped 0
notes 0
";

const TURNED_FRONT: &str = "(session T
  (base_design T)
  (placement
    (resolution um 10)
    (component P
      (place C1 0 0 front 30)
      (place C2 20000 50000 front 0)
    )
  )
  (was_is
  )
  (routes
    (resolution um 10)
    (parser
      (host_cad KiCad)
      (host_version 8)
    )
    (library_out
    )
    (network_out
";

const TURNED_WIRE: &str = "      (net A
        (wire (path F.Cu 2000 86603 50000 120000 50000))
      )
";

static PAIRS: [Route; 10] = [
    Route(
        "pads on the front alone are joined on the front",
        &[ON_FRONT],
        ROUTE,
        Wanted {
            status: Status::Complete,
            report: &[ONE_NET, JOINED],
            session: Some(&[PAIR_SESSION, FACING, SESSION_END]),
            made: Some((1, 1)),
        },
    ),
    Route(
        "a walk keeps clear of a wall on the front",
        &[WALL_ON_FRONT],
        ROUTE,
        Wanted {
            status: Status::Complete,
            report: &[ONE_NET, JOINED],
            session: Some(&[PAIR_SESSION, ON_BACK, SESSION_END]),
            made: Some((1, 1)),
        },
    ),
    Route(
        "a wall on all layers parts the pins",
        &[WALL],
        ROUTE,
        Wanted {
            status: Status::SomeOpen,
            report: &[ONE_NET, LEFT_PART, RIGHT_PART, NONE_COMPLETE],
            session: Some(&[PAIR_SESSION, SESSION_END]),
            made: Some((0, 1)),
        },
    ),
    Route(
        "a fixed wire just far enough stays",
        &[ON_FRONT, NET_B, BESIDE],
        ROUTE,
        Wanted {
            status: Status::Complete,
            report: &[TWO_NETS, BOTH_COMPLETE],
            session: Some(&[PAIR_SESSION, WITH_BESIDE, SESSION_END]),
            made: Some((1, 1)),
        },
    ),
    Route(
        "a fixed wire that is too near is kept clear of",
        &[ON_FRONT, NET_B, TOO_NEAR],
        ROUTE,
        Wanted {
            status: Status::Complete,
            report: &[TWO_NETS, BOTH_COMPLETE],
            session: Some(&[PAIR_SESSION, WITH_TOO_NEAR, SESSION_END]),
            made: Some((1, 1)),
        },
    ),
    Route(
        "fixed wiring is printed",
        &FIXED,
        ROUTE,
        Wanted {
            status: Status::Complete,
            report: &[THREE_NETS, ALL_COMPLETE],
            session: Some(&[PAIR_SESSION, FACING, FIXED_NETS, SESSION_END]),
            made: Some((1, 1)),
        },
    ),
    Route(
        "fixed wiring is omitted",
        &FIXED,
        "route --omit-fixed u.dsn --passes=1 --grid 1000 u.ses",
        Wanted {
            status: Status::Complete,
            report: &[THREE_NETS, ALL_COMPLETE],
            session: Some(&[PAIR_SESSION, FACING, SESSION_END]),
            made: Some((1, 1)),
        },
    ),
    Route(
        "free wiring that is not legal is dropped and its place is told; the other is kept",
        &FREE,
        ROUTE,
        Wanted {
            status: Status::Complete,
            report: &[ONE_DROPPED, BOTH_COMPLETE],
            session: Some(&[PAIR_SESSION, FACING, KEPT, SESSION_END]),
            made: Some((1, 1)),
        },
    ),
    Route(
        "a pin of a turned component is reached to a tenth of a um",
        &TURNED,
        ROUTE,
        Wanted {
            status: Status::Complete,
            report: &[TURNED_HEAD, JOINED],
            session: Some(&[TURNED_FRONT, TURNED_WIRE, SESSION_END]),
            made: Some((1, 1)),
        },
    ),
    Route(
        "a design without nets is complete",
        &[("(network (net A (pins C1-1 C2-1)))", "(network)")],
        ROUTE,
        Wanted {
            status: Status::Complete,
            report: &[
                NO_NET,
                "pass 1 commits 0 open 0\nkept 1\njoins 0\ncomplete 0 open 0\n",
            ],
            session: Some(&[PAIR_SESSION, SESSION_END]),
            made: Some((0, 1)),
        },
    ),
];

#[test]
fn walks_keep_clear_of_keepouts_and_fixed_wires_and_of_wiring_what_is_legal_stays(rt: HostRuntime) {
    for Route(name, edits, line, wanted) in &PAIRS {
        assert!(rt;
            leaves(&rt, rt.alloc(), TWO_LAYERS, edits, line, wanted),
            "{name}"
        );
    }
}

// ---- larger boards

const GENERATED: &str = "board gen
layers 2 nets 1 pins 2
grid 100000 nodes 44402
dropped 0
notes 0
pass 1 commits 1 open 0
kept 1
joins 0
net N0 complete
complete 1 open 0
";

const OF_KICAD: &str = "board \"K board.dsn\"
layers 2 nets 4 pins 8
grid 100000 nodes 298402
dropped 0
notes 1
pass 1 commits 4 open 0
kept 1
joins 0
net GND complete
net VCC complete
net SIG complete
net OUT complete
complete 4 open 0
";

static GENERATED_LEFT: Wanted<'static> = Wanted {
    status: Status::Complete,
    report: &[GENERATED],
    session: None,
    made: Some((1, 1)),
};

static KICAD_LEFT: Wanted<'static> = Wanted {
    status: Status::Complete,
    report: &[OF_KICAD],
    session: SESSION,
    made: Some((4, 1)),
};

#[test]
fn a_generated_board_gets_the_short_report_and_one_of_kicad_is_complete(rt: HostRuntime) {
    assert!(rt; leaves(&rt, rt.alloc(), "", &[], "gen 1", &GENERATED_LEFT));
    assert!(rt;
        leaves(
            &rt,
            rt.alloc(),
            KICAD,
            &[],
            "route u.dsn u.ses",
            &KICAD_LEFT
        )
    );
}

// ---- faults

/// The first half of the session of two pins that face each other; that of their report ends with its head.
const HALF_SESSION: &str = "(session T
  (base_design T)
  (placement
    (resolution um 10)
    (component P
      (place C1 20000 50000 front 0)
      (place C2 80000 50000 front 0)
    )
  )
  (was_is
  )
  (routes
    (resoluti";

/// The words; which call of the desk and which put of the sink fails; and what is left then.
static FAULTS: [(&str, (u64, u64), Wanted); 5] = [
    (
        ROUTE,
        (1, 0),
        Wanted {
            status: Status::ReadFault,
            report: &["read fault\n"],
            session: None,
            made: None,
        },
    ),
    (
        ROUTE,
        (1, 1),
        Wanted {
            status: Status::WriteFault,
            report: &["read "],
            session: None,
            made: None,
        },
    ),
    (
        ROUTE,
        (2, 0),
        Wanted {
            status: Status::WriteFault,
            report: &[],
            session: Some(&[HALF_SESSION]),
            made: Some((1, 1)),
        },
    ),
    (
        ROUTE,
        (0, 1),
        Wanted {
            status: Status::WriteFault,
            report: &[ONE_NET],
            session: Some(&[PAIR_SESSION, FACING, SESSION_END]),
            made: Some((1, 1)),
        },
    ),
    (
        "",
        (0, 1),
        Wanted {
            status: Status::WriteFault,
            report: &["usag"],
            session: None,
            made: None,
        },
    ),
];

#[test]
fn faults_leave_a_front_of_what_was_due(rt: HostRuntime) {
    let alloc = rt.alloc();
    let text = swapped(alloc, TWO_LAYERS, &[ON_FRONT]).expect(&rt, "no text");
    for (line, fails, wanted) in &FAULTS {
        let left = called(&rt, alloc, text.as_bytes(), line, *fails, &NoGate);
        assert!(rt; left.is(wanted), "{} and {}", fails.0, fails.1);
    }
}
