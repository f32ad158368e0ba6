//! Lists of words: what they ask for, and why they are refused.
//! Each option is given before, between and behind the names, and left out.

use route_words::{Command, Knobs, Text, WordFault, read_words};
use std::alloc::{AllocError, Global};

/// The knobs where no option is given.
const DEFAULTS: Knobs = Knobs {
    grid: None,
    workers: 4,
    passes: 10,
    via_cost: 2_000_000,
    tries: 16,
    omit_fixed: false,
};

/// The words of a line, with a bar between each two.
pub(crate) fn words_of(alloc: Global, line: &str) -> Result<Vec<String>, AllocError> {
    let mut words = Vec::new(alloc);
    for word in line.split('|') {
        words.push(String::from_str(alloc, word)?)?;
    }
    Ok(words)
}

/// What the words of a line ask for, or why they are refused.
fn read(alloc: Global, line: &str) -> Result<Command, WordFault> {
    let words = words_of(alloc, line)?;
    read_words(alloc, words.as_slice())
}

/// Whether the words of a line ask to route these files with these knobs, and from no earlier session.
fn routes(alloc: Global, line: &str, input: &str, output: &str, knobs: Knobs) -> bool {
    match read(alloc, line) {
        Ok(
            Command::Route {
                input: design,
                output: session,
                from: None,
                diagonal: false,
                knobs: given,
            },
        ) => design.as_str() == input && session.as_str() == output && given == knobs,
        _ => false,
    }
}

/// Whether this is the name of a file.
fn is_name(name: &Option<Text>, wanted: &str) -> bool {
    match name {
        Some(name) => name.as_str() == wanted,
        None => false,
    }
}

/// Whether the words of a line ask to route the file a into the file b with moves at 45 degrees, from no session.
fn slants(alloc: Global, line: &str) -> bool {
    match read(alloc, line) {
        Ok(
            Command::Route {
                input,
                output,
                from: None,
                diagonal: true,
                knobs: _,
            },
        ) => input.as_str() == "a" && output.as_str() == "b",
        _ => false,
    }
}

/// Whether the words of a line ask to route the file a into the file b from this earlier session.
fn starts(alloc: Global, line: &str, old: &str) -> bool {
    match read(alloc, line) {
        Ok(
            Command::Route {
                input,
                output,
                from,
                diagonal: _,
                knobs: _,
            },
        ) => input.as_str() == "a" && output.as_str() == "b" && is_name(&from, old),
        _ => false,
    }
}

/// Whether the words of a line ask to judge these files.
fn judges(alloc: Global, line: &str, design: &str, session: &str, report: &str) -> bool {
    match read(alloc, line) {
        Ok(
            Command::Check {
                input,
                session: second,
                report: third,
            },
        ) => input.as_str() == design && second.as_str() == session && third.as_str() == report,
        _ => false,
    }
}

/// Whether the words of a line ask for the generated board of this number.
fn generates(alloc: Global, line: &str, number: u32) -> bool {
    match read(alloc, line) {
        Ok(Command::Gen { n }) => n == number,
        _ => false,
    }
}

/// Whether the words of a line are refused so.
fn refuses(alloc: Global, line: &str, fault: WordFault) -> bool {
    match read(alloc, line) {
        Ok(_) => false,
        Err(given) => given == fault,
    }
}

const OMITS: Knobs = Knobs {
    grid: None,
    workers: 4,
    passes: 10,
    via_cost: 2_000_000,
    tries: 16,
    omit_fixed: true,
};

const GIVEN: Knobs = Knobs {
    grid: Some(1_000),
    workers: 16,
    passes: 99,
    via_cost: 0,
    tries: 1_000,
    omit_fixed: true,
};

const LONG: Knobs = Knobs {
    grid: Some(100_000_000),
    workers: 4,
    passes: 10,
    via_cost: 1_000_000_000,
    tries: 0,
    omit_fixed: false,
};

static ROUTES: [(&str, &str, &str, Knobs); 6] = [
    ("route|t.dsn|t.ses", "t.dsn", "t.ses", DEFAULTS),
    ("route|--|-a|-b", "-a", "-b", DEFAULTS),
    ("route|a|--|--grid", "a", "--grid", DEFAULTS),
    ("route|-|--omit-fixed|b=c", "-", "b=c", OMITS),
    (
        "route|--workers|16|a|--grid=1|b|--passes|0099|--tries=1000|--omit-fixed|--via-cost=0",
        "a",
        "b",
        GIVEN,
    ),
    (
        "route|a|b|--grid|100000|--via-cost|1000000|--tries|0",
        "a",
        "b",
        LONG,
    ),
];

#[test]
fn reads_what_to_route(rt: HostRuntime) {
    for &(line, input, output, knobs) in &ROUTES {
        assert!(rt; routes(rt.alloc(), line, input, output, knobs), "{line}");
    }
}

#[test]
fn reads_earlier_sessions(rt: HostRuntime) {
    assert!(rt; starts(rt.alloc(), "route|a|b|--from|c.ses", "c.ses"));
    assert!(rt; starts(rt.alloc(), "route|--from=c=d|a|b", "c=d"));
    assert!(rt; starts(rt.alloc(), "route|a|--from=-x|--|b", "-x"));
    assert!(rt; starts(rt.alloc(), "route|a|--from|-|b|--tries=1", "-"));
}

#[test]
fn reads_what_to_judge(rt: HostRuntime) {
    assert!(rt;
        judges(
            rt.alloc(),
            "check|t.dsn|t.ses|t.txt",
            "t.dsn",
            "t.ses",
            "t.txt"
        )
    );
    assert!(rt; judges(rt.alloc(), "check|-|--|-b|--grid", "-", "-b", "--grid"));
}

#[test]
fn reads_numbers_of_boards(rt: HostRuntime) {
    assert!(rt; generates(rt.alloc(), "gen|1", 1));
    assert!(rt; generates(rt.alloc(), "gen|--|0000400", 400));
}

#[test]
fn reads_whether_moves_at_45_degrees_are_asked_for(rt: HostRuntime) {
    for &line in &["route|a|b|--diagonal", "route|--diagonal|a|--grid|5|b"] {
        assert!(rt; slants(rt.alloc(), line), "{line}");
    }
    assert!(rt; !slants(rt.alloc(), "route|a|b|--omit-fixed"));
}

#[test]
fn refuses_commands(rt: HostRuntime) {
    assert!(rt; matches!(read_words(rt.alloc(), &[]), Err(WordFault::NoCommand)));
    for &command in &["draw", "", "--", "Route", "checks", "--grid"] {
        assert!(rt;
            refuses(rt.alloc(), command, WordFault::UnknownCommand),
            "{command}"
        );
    }
}

/// Uses of `route`, `check` and `gen` that don't fit them. A bar at the end stands before an empty word.
const USES: &str = "\
route|t.dsn
route|a|
route|a|b|c
route|a|b|--grid|5|--grid|5
route|a|b|--omit-fixed|--omit-fixed
route|a|--grid|--|5
route|a|b|--grid=0
route|a|b|--grid=100001
route|a|b|--grid=
route|a|b|--grid
route|a|b|--grid=00000005
route|a|b|--grid=5um
route|a|b|--workers=0
route|a|b|--workers=17
route|a|b|--passes=100
route|a|b|--via-cost=1000001
route|a|b|--via-cost=-1
route|a|b|--tries=1001
route|a|b|--tries
route|a|b|--omit-fixed=yes
route|a|b|--omit-fixed=
route|a|b|--from
route|a|b|--from=
route|a|b|--from|
route|a|b|--from|-x
route|a|b|--from|--|c
route|a|b|--from=c|--from=c
route|a|b|--diagonal=yes
route|a|b|--diagonal=
route|a|b|--diagonal|--diagonal
route|a|b|--diagonals
route|a|b|--grids=5
route|a|b|--gri=5
route|a|b|--help
route|a|b|-h
route|a|b|-g
check
check|a|b
check|a|b|
check||b|c
check|a||c
check|a|b|c|d
check|a|b|c|--grid=5
check|a|b|c|--omit-fixed
check|a|b|c|--diagonal
check|a|b|c|--help
check|a|b|-c
gen|0
gen|401
gen|
gen|-1
gen|+1
gen|1.0
gen|00000001
gen|--grid
gen|--help
gen|-
gen
gen|1|2
gen|1|--grid=5
gen|1|--diagonal";

#[test]
fn refuses_uses_of_commands(rt: HostRuntime) {
    for line in USES.lines() {
        assert!(rt; refuses(rt.alloc(), line, WordFault::Usage), "{line}");
    }
}
