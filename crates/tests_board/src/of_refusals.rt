//! Calls that stop before they route, and the one line that they put.
//! No session is written then.

use crate::calls::{Wanted, leaves};
use crate::designs::{CROSSING, ON_FRONT, TWO_LAYERS};
use dsn_route::Status;
use std::alloc::{AllocError, Global};
use std::process::Abort;
use std::sync::Wait;
use std::thread::Threads;

/// A text that ends within quotes.
const CUT_IN_QUOTES: &str =
    "(pcb \"K board.dsn\"\n  (parser (string_quote \") (space_in_quoted_tokens on)\n    (host_cad \"KiCad's ";

/// A text that ends within its placement.
const CUT_IN_PLACEMENT: &str = "(pcb T
  (parser (string_quote \") (host_cad KiCad) (host_version 8))
  (resolution um 10)
  (unit um)
  (structure
    (layer F.Cu (type signal))
    (layer B.Cu (type signal))
    (boundary (rect pcb 0 0 10000 10000))
    (via V)
    (rule (width 200) (clearance 200)))
  (placement (component P
  ";

const DEEP: &str = "(((((((((((((((((((((((((((((((((((((((((((((((((((((((((((((((((";

const MANY_LAYERS: &str =
    "    (layer L0)(layer L1)(layer L2)(layer L3)(layer L4)(layer L5)(layer L6)(layer L7)(layer L8)\
    (layer L9)(layer L10)(layer L11)(layer L12)(layer L13)(layer L14)(layer L15)(layer L16)(layer L17)\
    (layer L18)(layer L19)(layer L20)(layer L21)(layer L22)(layer L23)(layer L24)(layer L25)(layer L26)\
    (layer L27)(layer L28)(layer L29)(layer L30) (boundary";

/// Whether a call over a text with these edits ends so, puts this line, writes no session and routes nothing.
fn stops<T: Threads + Wait + Sync + Abort>(
    rt: &T,
    alloc: Global,
    text: &str,
    edits: &[(&str, &str)],
    words: &str,
    end: (Status, &'static str),
) -> bool {
    let wanted = Wanted {
        status: end.0,
        report: &[end.1],
        session: None,
        made: None,
    };
    leaves(rt, alloc, text, edits, words, &wanted)
}

static TEXTS: [(&str, &str); 9] = [
    ("", "refused 6 at 0\n"),
    (")", "refused 4 at 0\n"),
    (DEEP, "refused 5 at 64\n"),
    (CUT_IN_QUOTES, "refused 1 at 88\n"),
    ("(", "refused 3 at 0\n"),
    ("(pcb ", "refused 3 at 0\n"),
    (
        "(pcb T\n  (parser (string_quote \") (host_",
        "refused 3 at 34\n",
    ),
    (CUT_IN_PLACEMENT, "refused 3 at 284\n"),
    ("(pcb T\n  (parser (string_quote %", "refused 2 at 31\n"),
];

#[test]
fn texts_without_a_design_are_refused(rt: HostRuntime) {
    for &(text, line) in &TEXTS {
        let end = (Status::Refused, line);
        assert!(rt;
            stops(&rt, rt.alloc(), text, &[], "route u.dsn u.ses", end),
            "{line}"
        );
    }
}

static BROKEN: [(&[(&str, &str)], Status, &str); 5] = [
    (
        &[("(wiring))\n", "(wiring")],
        Status::Refused,
        "refused 3 at 588\n",
    ),
    (
        &[("    (boundary (rect pcb 0 0 10000 10000))\n", "")],
        Status::Refused,
        "refused 24 at 104\n",
    ),
    (
        &[("    (boundary", MANY_LAYERS)],
        Status::Limit,
        "limit layers 32\n",
    ),
    (
        &[
            ON_FRONT,
            (
                "(wiring)",
                "(wiring (wire (path F.Cu 200 0 0 1 1) (net Z)))",
            ),
        ],
        Status::Refused,
        "refused 20 at 604\n",
    ),
    (
        &[
            (
                "(component P\n    (place C1 2000 5000 front 0)\n    (place C2 8000 5000 front 0))",
                "(component Q (place J 1000 1000 front 0)) (component P2 (place J-1 3000 1000 front 0))",
            ),
            (
                "(image P (pin PAD 1 0 0))",
                "(image Q (pin PAD 1-2 0 0)) (image P2 (pin PAD 2 0 0))",
            ),
            ("(pins C1-1 C2-1)", "(pins J-1-2)"),
        ],
        Status::Refused,
        "refused 17 at 609\n",
    ),
];

#[test]
fn designs_that_break_a_rule_are_refused_and_a_passed_limit_is_said(rt: HostRuntime) {
    for &(edits, status, line) in &BROKEN {
        let end = (status, line);
        assert!(rt;
            stops(&rt, rt.alloc(), TWO_LAYERS, edits, "route u.dsn u.ses", end),
            "{line}"
        );
    }
}

static WIDE: [(&str, &str); 1] = [("0 0 10000 10000", "0 0 200000 200000")];

static CALLS: [(&str, Status, &str); 14] = [
    ("", Status::Usage, "usage 1\n"),
    ("draw", Status::Usage, "usage 2\n"),
    ("gen 401", Status::Usage, "usage 3\n"),
    ("route u.dsn", Status::Usage, "usage 3\n"),
    ("route a -b", Status::Usage, "usage 3\n"),
    ("route a b --grid", Status::Usage, "usage 3\n"),
    ("route a b --grid=0", Status::Usage, "usage 3\n"),
    ("route a b --grid 5 --grid 5", Status::Usage, "usage 3\n"),
    ("route a b --grid 100001", Status::Usage, "usage 3\n"),
    ("route a b --omit-fixed=1", Status::Usage, "usage 3\n"),
    ("route a b --passes 100", Status::Usage, "usage 3\n"),
    ("route -- -a -b", Status::ReadFault, "read fault\n"),
    (
        "route v.dsn u.ses --grid 100000",
        Status::ReadFault,
        "read fault\n",
    ),
    (
        "route u.dsn u.ses --grid 1",
        Status::Limit,
        "limit nodes 39999600001\n",
    ),
];

#[test]
fn calls_that_stop_say_why(rt: HostRuntime) {
    for &(words, status, line) in &CALLS {
        let end = (status, line);
        assert!(rt;
            stops(&rt, rt.alloc(), CROSSING, &WIDE, words, end),
            "{line}"
        );
    }
}

// ---- limits

/// A part of a text: words as they stand, or words so many times, with a number from 0 between their two halves.
#[derive(Clone, Copy)]
enum Part {
    Words(&'static str),
    Counted(&'static str, &'static str, u32),
}

const ONE_LAYER: &str =
    "(pcb b (resolution um 10) (structure (layer A) (boundary (rect A 0 0 9 9)))";

const IMAGE: &str = " (library (padstack P) (image I ";

const PLACES: &str = ")) (placement (component I ";

/// What passes a limit, and what is said of it.
static LIMITS: [(&[Part], &str); 5] = [
    (
        &[
            Part::Words(ONE_LAYER),
            Part::Words(IMAGE),
            Part::Counted("(pin P ", " 0 0)", 1_024),
            Part::Words(PLACES),
            Part::Counted("(place ", " 0 0 front 0)", 513),
            Part::Words(")))"),
        ],
        "limit pins 524288\n",
    ),
    (
        &[
            Part::Words(ONE_LAYER),
            Part::Words(IMAGE),
            Part::Counted("(keepout ", " (circle A 1))", 1_025),
            Part::Words(PLACES),
            Part::Counted("(place ", " 0 0 front 0)", 2_048),
            Part::Words(")))"),
        ],
        "limit items 2097152\n",
    ),
    (
        &[
            Part::Words(ONE_LAYER),
            Part::Words(" (library (padstack P (shape (polygon A 0"),
            Part::Counted(" ", " 0", 16_385),
            Part::Words(")))))"),
        ],
        "limit vertices 16384\n",
    ),
    (
        &[
            Part::Words(ONE_LAYER),
            Part::Words(" (network "),
            Part::Counted("(net ", ")", 131_073),
            Part::Words("))"),
        ],
        "limit nets 131072\n",
    ),
    (
        &[Part::Counted(
            "(layer that stands before any board, and is one of more than a file may hold, with the number ",
            ")",
            700_000,
        )],
        "limit bytes 67108864\n",
    ),
];

fn put_part(alloc: Global, text: &mut String, part: Part) -> Result<(), AllocError> {
    match part {
        Part::Words(words) => text.push_str(words),
        Part::Counted(front, back, count) => {
            for n in 0..count {
                let piece = format!(in alloc; "{front}{n}{back}")?;
                text.push_str(piece.as_str())?;
            }
            Ok(())
        }
    }
}

fn text_of(alloc: Global, parts: &[Part]) -> Result<String, AllocError> {
    let mut text = String::new(alloc);
    for part in parts {
        put_part(alloc, &mut text, *part)?;
    }
    Ok(text)
}

#[test]
fn what_passes_a_limit_is_told_with_the_limit(rt: HostRuntime) {
    for &(parts, line) in &LIMITS {
        let text = text_of(rt.alloc(), parts).expect(&rt, "no text");
        let end = (Status::Limit, line);
        assert!(rt;
            stops(
                &rt,
                rt.alloc(),
                text.as_str(),
                &[],
                "route u.dsn u.ses",
                end
            ),
            "{line}"
        );
    }
}
