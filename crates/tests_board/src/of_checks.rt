//! Sessions and reports that are judged by the top call: as a run wrote them, and each with one change.
//! The designs are those of two pins that face each other: item 0 is the boundary, then come a wall where there is one,
//! the two pins, and the session's items.

use crate::calls::{Wanted, called_over};
use crate::designs::{ON_FRONT, TWO_LAYERS, swapped};
use crate::of_routes::{
    ALL_COMPLETE, FACING, FIXED, JOINED, LEFT_PART, NONE_COMPLETE, ONE_NET, PAIR_SESSION,
    RIGHT_PART, SESSION, SESSION_END, THREE_NETS, WALL,
};
use board_turn::NoGate;
use dsn_route::Status;
use std::alloc::Global;
use std::process::Abort;
use std::sync::Wait;
use std::thread::Threads;

type Edits = &'static [(&'static str, &'static str)];

/// Edits of the design, the parts of a session, and the parts of a report with edits of it.
#[derive(Clone, Copy)]
struct Texts {
    design: Edits,
    session: &'static [&'static str],
    report: &'static [&'static str],
    told: Edits,
}

/// The parts one behind the other, with these edits; None where a piece is missing or memory is wanting.
fn text(alloc: Global, parts: &[&str], edits: &[(&str, &str)]) -> Option<String> {
    let mut whole = String::new(alloc);
    for part in parts {
        whole.push_str(part).ok()?;
    }
    swapped(alloc, whole.as_str(), edits)
}

// ---- the texts

/// Pads on the front alone, and the wire between them.
const FRONT_PADS: Texts = Texts {
    design: &[ON_FRONT],
    session: &[PAIR_SESSION, FACING, SESSION_END],
    report: &[ONE_NET, JOINED],
    told: &[],
};

/// A wall parts the pads on all layers.
const PARTED_PADS: Texts = Texts {
    design: &[WALL],
    session: &[PAIR_SESSION, SESSION_END],
    report: &[ONE_NET, LEFT_PART, RIGHT_PART, NONE_COMPLETE],
    told: &[],
};

/// The same, where each cut tells how many nodes moves at 45 degrees reach.
const WIDELY_PARTED: Texts = Texts {
    design: &[WALL],
    session: &[PAIR_SESSION, SESSION_END],
    report: &[
        ONE_NET,
        LEFT_PART,
        "wide 72\n",
        RIGHT_PART,
        "wide 72\n",
        NONE_COMPLETE,
    ],
    told: &[],
};

/// Fixed wires of two further nets that lie over each other, left out of the session.
const FIXED_WIRES: Texts = Texts {
    design: &FIXED,
    session: &[PAIR_SESSION, FACING, SESSION_END],
    report: &[THREE_NETS, ALL_COMPLETE],
    told: &[],
};

// ---- the command

/// What is shown, the texts, edits of the session and of the report, how the call ends, and what it puts.
struct Checked(&'static str, Texts, Edits, Edits, Status, &'static str);

static CHECKED: [Checked; 14] = [
    Checked(
        "the wire between two pads",
        FRONT_PADS,
        &[],
        &[],
        Status::Complete,
        "check ok\n",
    ),
    Checked(
        "the wire is half as wide",
        FRONT_PADS,
        &[("F.Cu 2000", "F.Cu 1000")],
        &[],
        Status::Rejected,
        "check 5 at 3\n",
    ),
    Checked(
        "the wire is taken out",
        FRONT_PADS,
        &[(FACING, "")],
        &[],
        Status::Rejected,
        "check 6 at 0\n",
    ),
    Checked(
        "the wire's net is none of the design",
        FRONT_PADS,
        &[("(net A", "(net Z")],
        &[],
        Status::Rejected,
        "check 1 at 328\n",
    ),
    Checked(
        "the session ends too early",
        FRONT_PADS,
        &[(SESSION_END, "")],
        &[],
        Status::Rejected,
        "check 1 at 304\n",
    ),
    Checked(
        "the report's grid is too fine",
        FRONT_PADS,
        &[],
        &[("grid 1000000", "grid 1000")],
        Status::Limit,
        "limit nodes 199960002\n",
    ),
    Checked(
        "a wall parts the pads",
        PARTED_PADS,
        &[],
        &[],
        Status::Complete,
        "check ok\n",
    ),
    Checked(
        "a row of nodes is taken out of a cut",
        PARTED_PADS,
        &[],
        &[("run 0 8 0 3\n", "")],
        Status::Rejected,
        "check 7 at 0\n",
    ),
    Checked(
        "each cut tells how far moves at 45 degrees reach",
        WIDELY_PARTED,
        &[],
        &[],
        Status::Complete,
        "check ok\n",
    ),
    Checked(
        "that number isn't judged",
        WIDELY_PARTED,
        &[],
        &[("wide 72\ncut", "wide 5\ncut")],
        Status::Complete,
        "check ok\n",
    ),
    Checked(
        "the second cut alone tells it",
        WIDELY_PARTED,
        &[],
        &[("wide 72\ncut", "cut")],
        Status::Rejected,
        "check 2 at 50\n",
    ),
    Checked(
        "the first cut alone tells it",
        WIDELY_PARTED,
        &[],
        &[("wide 72\ncomplete", "complete")],
        Status::Rejected,
        "check 2 at 51\n",
    ),
    Checked(
        "a cut tells it twice",
        WIDELY_PARTED,
        &[],
        &[("wide 72\ncut", "wide 72\nwide 72\ncut")],
        Status::Rejected,
        "check 2 at 31\n",
    ),
    Checked(
        "fixed wiring is omitted",
        FIXED_WIRES,
        &[],
        &[],
        Status::Complete,
        "check ok\n",
    ),
];

/// Whether a check of these texts, where the call of the desk and the put of the sink with these numbers fail, ends so
/// and puts this, and leaves the session.
fn ends<T: Threads + Wait + Sync + Abort>(
    rt: &T,
    alloc: Global,
    row: &Checked,
    fails: (u64, u64),
) -> bool {
    let Checked(_, texts, session, report, status, line) = row;
    let design = swapped(alloc, TWO_LAYERS, texts.design).expect(rt, "no design");
    let session = text(alloc, texts.session, session).expect(rt, "no session");
    let report = text(alloc, texts.report, report).expect(rt, "no report");
    let held = [
        ("u.dsn", design.as_bytes()),
        ("u.ses", session.as_bytes()),
        ("u.txt", report.as_bytes()),
    ];
    let left = called_over(rt, alloc, &held, "check u.dsn u.ses u.txt", fails, &NoGate);
    left.is(&Wanted {
        status: *status,
        report: &[*line],
        session: SESSION,
        made: None,
    })
}

#[test]
fn a_check_answers_what_is_wrong_first(rt: HostRuntime) {
    for row in &CHECKED {
        assert!(rt; ends(&rt, rt.alloc(), row, (0, 0)), "{}", row.0);
    }
}

/// Which call of the desk and which put of the sink fails, and what is left then.
static FAULTS: [((u64, u64), Checked); 4] = [
    (
        (2, 0),
        Checked(
            "the session can't be read",
            FRONT_PADS,
            &[],
            &[],
            Status::ReadFault,
            "read fault\n",
        ),
    ),
    (
        (3, 0),
        Checked(
            "the report can't be read",
            FRONT_PADS,
            &[],
            &[],
            Status::ReadFault,
            "read fault\n",
        ),
    ),
    (
        (3, 0),
        Checked(
            "the session is none, so the report isn't read",
            FRONT_PADS,
            &[("(net A", "(net Z")],
            &[],
            Status::Rejected,
            "check 1 at 328\n",
        ),
    ),
    (
        (0, 1),
        Checked(
            "the line can't be put",
            FRONT_PADS,
            &[],
            &[],
            Status::WriteFault,
            "chec",
        ),
    ),
];

#[test]
fn faults_of_a_check_leave_the_files(rt: HostRuntime) {
    for (fails, row) in &FAULTS {
        assert!(rt; ends(&rt, rt.alloc(), row, *fails), "{}", row.0);
    }
}
