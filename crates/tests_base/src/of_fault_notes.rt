//! What standard error says: places in a text, the note of each fault, and of wrong words and files what is wrong and
//! what to do. Places and notes were worked out by hand.

use crate::of_route_words::words_of;
use fault_notes::{
    Bar, Counted, Fault, FileNames, Place, Said, check_words, find_trouble, note_text, place_of,
    read_line, refusal_words, word_at, word_note,
};
use route_words::USAGE;
use std::alloc::Global;

const DESIGN: &[u8] = b"(pcb b\n\n (unit nm)\n)";

static PLACES: [(u64, u64, u64); 7] = [
    (0, 1, 1),
    (6, 1, 7),
    (7, 2, 1),
    (8, 3, 1),
    (15, 3, 8),
    (20, 4, 2),
    (99, 4, 2),
];

#[test]
fn places_bytes(rt: HostRuntime) {
    for &(at, line, column) in &PLACES {
        assert!(rt; place_of(DESIGN, at) == Place { line, column }, "{at}");
    }
    assert!(rt; place_of(b"", 5) == Place { line: 1, column: 1 });
}

/// Whether that is the note of a fault.
fn is_noted(alloc: Global, fault: Fault, text: Option<&[u8]>, note: &str) -> bool {
    let files = FileNames {
        input: "a.dsn",
        session: "a.ses",
        report: "a.txt",
    };
    match note_text(alloc, fault, files, text) {
        Ok(told) => told.as_str() == note,
        Err(_) => false,
    }
}

const REFUSED: Fault = Fault::Told(Said::Refused {
    number: 11,
    place: 15,
});

const FINE: Fault = Fault::Told(Said::Limit {
    counted: Counted::Nodes,
    number: 20_000_000,
});

static NOTES: [(Fault, &str); 11] = [
    (
        REFUSED,
        "a.dsn: refused at byte 15: the unit isn't inch, mil, cm, mm or um (refusal 11)\n",
    ),
    (
        Fault::Told(Said::ReadFault),
        "a.dsn: the file can't be read\n",
    ),
    (
        Fault::Unread(Bar::Absent),
        "a.dsn: the file can't be read: there is no such file\n",
    ),
    (
        Fault::Unread(Bar::Folder),
        "a.dsn: the file can't be read: it is a folder\n",
    ),
    (
        Fault::Unread(Bar::Denied),
        "a.dsn: the file can't be read: the system doesn't allow it\n",
    ),
    (
        FINE,
        "a.dsn: too large: 20000000 nodes in the lattice, where 16777216 are the most: give `route` a coarser --grid\n",
    ),
    (
        Fault::Session(Bar::Other),
        "a.ses: the file can't be written\n",
    ),
    (
        Fault::Session(Bar::Absent),
        "a.ses: the file can't be written: there is no such folder\n",
    ),
    (
        Fault::Session(Bar::Folder),
        "a.ses: the file can't be written: it is a folder\n",
    ),
    (
        Fault::Report,
        "dsnroute: standard output can't be written\n",
    ),
    (
        Fault::Memory,
        "dsnroute: memory was wanting, or the design has more than 16777216 class pairs\n",
    ),
];

#[test]
fn tells_faults(rt: HostRuntime) {
    for &(fault, note) in &NOTES {
        assert!(rt; is_noted(rt.alloc(), fault, None, note), "{note}");
    }
}

#[test]
fn tells_the_line_of_a_refusal_and_the_usage(rt: HostRuntime) {
    let note = "a.dsn:3:8: refused: the unit isn't inch, mil, cm, mm or um: nm (refusal 11)\n";
    assert!(rt; is_noted(rt.alloc(), REFUSED, Some(DESIGN), note));
    let fault = Fault::Told(Said::Usage { number: 1 });
    let usage = format!(in rt.alloc(); "dsnroute: there is no command\n{USAGE}").expect(
        &rt, "no text",
    );
    assert!(rt; is_noted(rt.alloc(), fault, None, usage.as_str()));
}

// ---- what a refusal means

/// The words of each refusal, as docs/REFUSALS.md has them up to the first colon.
static REFUSALS: [(u8, &str); 26] = [
    (1, "a quoted piece has no end"),
    (2, "the byte behind `(string_quote` is none of \", ' and $"),
    (3, "this bracket isn't closed"),
    (4, "something stands before or behind the list"),
    (5, "more than 64 brackets are open"),
    (6, "there is no list"),
    (7, "the list isn't a `pcb` with a name"),
    (8, "`resolution`, `structure` or a layer is missing"),
    (
        9,
        "a number is wanted, and isn't there or is none that can be",
    ),
    (10, "a coordinate, width, clearance or angle is too large"),
    (11, "the unit isn't inch, mil, cm, mm or um"),
    (12, "no layer has this name"),
    (
        13,
        "a second layer, padstack, image, pin, component or net has this name",
    ),
    (14, "the library has no padstack of this name"),
    (15, "the library has no image of this name"),
    (16, "no component and pin fit this reference"),
    (17, "this reference fits two pins"),
    (18, "a second net names this pin"),
    (19, "this reference names a component without coordinates"),
    (20, "no net has this name"),
    (
        21,
        "this program leaves this form out, or a name has a quotation mark",
    ),
    (
        22,
        "the numbers of a shape, its layer or the side of a place don't fit",
    ),
    (23, "a limit is passed"),
    (24, "there is no boundary"),
    (25, "no class has this name"),
    (26, "the list hasn't just one `classes` list with two names"),
];

#[test]
fn tells_refusals_by_number(rt: HostRuntime) {
    for &(number, words) in &REFUSALS {
        assert!(rt; refusal_words(number) == words, "{number}");
    }
    assert!(rt; refusal_words(27) == "the design isn't as it should be");
}

// ---- what is wrong with a session or its report

/// What is said of each number, as docs/REPORT.md has it.
static CHECKS: [(u64, &str); 7] = [
    (1, "this can't be read as a session of the design"),
    (
        2,
        "this line isn't in the report's form, or a number in it isn't that of the design",
    ),
    (3, "it comes too near to another item"),
    (4, "it doesn't lie inside the board"),
    (
        5,
        "it is too narrow, on a power layer, or a via that its net doesn't list",
    ),
    (6, "the line of this net isn't true of the session"),
    (7, "the cut of the island with this first pin isn't one"),
];

/// Lines that are put, and what is said of them where the session's text wasn't kept.
static CHECK_NOTES: [(&[u8], &str); 4] = [
    (
        b"check 1 at 7\n",
        "a.ses: refused at byte 7: this can't be read as a session of the design (check 1)\n",
    ),
    (
        b"check 2 at 5\n",
        "a.txt:5: this line isn't in the report's form, or a number in it isn't that of the design (check 2)\n",
    ),
    (
        b"check 5 at 3\n",
        "a.ses: item 3: it is too narrow, on a power layer, or a via that its net doesn't list (check 5)\n",
    ),
    (
        b"check 6 at 0\n",
        "a.txt: net 0: the line of this net isn't true of the session (check 6)\n",
    ),
];

#[test]
fn tells_checks_by_number(rt: HostRuntime) {
    for &(number, words) in &CHECKS {
        assert!(rt; check_words(number) == words, "{number}");
    }
    for &(line, note) in &CHECK_NOTES {
        assert!(rt;
            is_noted(rt.alloc(), Fault::Told(read_line(line)), None, note),
            "{note}"
        );
    }
}

// ---- wrong words

/// Words with a bar between each two, and the first line that is said of them.
static WRONG_WORDS: [(&str, &str); 28] = [
    ("draw", "draw: there is no such command"),
    ("route|t.dsn", "a name is missing"),
    ("route|a|", "a name is empty"),
    ("route|a|b|c", "c: a name too many"),
    (
        "route|a|b|--grid=0",
        "--grid=0: --grid wants a whole number from 1 to 100000 um, in one to seven digits",
    ),
    (
        "route|a|--grid|5um|b",
        "5um: --grid wants a whole number from 1 to 100000 um, in one to seven digits",
    ),
    (
        "route|a|b|--workers=17",
        "--workers=17: --workers wants a whole number from 1 to 16, in one to seven digits",
    ),
    (
        "route|--passes|100|a|b",
        "100: --passes wants a whole number from 1 to 99, in one to seven digits",
    ),
    (
        "route|a|b|--via-cost",
        "--via-cost: a whole number is wanted behind it, from 0 to 1000000 um, in one to seven digits",
    ),
    (
        "route|a|--workers|--|5",
        "--workers: a whole number is wanted behind it, from 1 to 16, in one to seven digits",
    ),
    (
        "route|--grid|5|a|b|--grid=6",
        "--grid=6: the option is given a second time",
    ),
    (
        "route|a|b|--grids=5",
        "--grids=5: there is no such option; behind -- it would be a name",
    ),
    (
        "route|-a|b",
        "-a: there is no such option; behind -- it would be a name",
    ),
    (
        "route|a|b|--tries=1001",
        "--tries=1001: --tries wants a whole number from 0 to 1000, in one to seven digits",
    ),
    (
        "route|a|b|--omit-fixed=yes",
        "--omit-fixed=yes: the option takes no value",
    ),
    (
        "route|a|b|--diagonal=yes",
        "--diagonal=yes: the option takes no value",
    ),
    (
        "route|a|b|--from",
        "--from: the name of a file is wanted behind it",
    ),
    (
        "route|a|--from=|b",
        "--from=: the name of a file is wanted behind it",
    ),
    (
        "route|a|b|--from|-x",
        "--from: the name of a file is wanted behind it",
    ),
    ("route|a|--from|c", "a name is missing"),
    ("check|a|b", "a name is missing"),
    ("check|a||c", "a name is empty"),
    ("check|a|b|--|c|-d", "-d: a name too many"),
    (
        "check|a|b|c|--grid=5",
        "--grid=5: this command takes no options",
    ),
    ("check|a|b|-c", "-c: this command takes no options"),
    (
        "gen|401",
        "401: gen wants a whole number from 1 to 400, in one to seven digits",
    ),
    ("gen|1|2", "2: a name too many"),
    ("gen|1|--grid=5", "--grid=5: this command takes no options"),
];

/// Whether that is the first line of what is said of these words, and the usage follows.
fn is_told(alloc: Global, line: &str, told: &str) -> bool {
    let Ok(words) = words_of(alloc, line) else {
        return false;
    };
    let Some(trouble) = find_trouble(words.as_slice()) else {
        return false;
    };
    match (
        word_note(alloc, trouble),
        format!(in alloc; "dsnroute: {told}\n{USAGE}"),
    ) {
        (Ok(note), Ok(wanted)) => note.as_str() == wanted.as_str(),
        _ => false,
    }
}

#[test]
fn tells_wrong_words(rt: HostRuntime) {
    for &(line, told) in &WRONG_WORDS {
        assert!(rt; is_told(rt.alloc(), line, told), "{line}");
    }
    assert!(rt; find_trouble(&[]).is_some());
}

// ---- files of another kind

/// Texts, the number and place of their refusal, and what is said of them.
static WRONG_TEXTS: [(&str, u64, u64, &str); 6] = [
    (
        "(kicad_pcb (version 20211014))",
        7,
        0,
        "a.dsn:1:1: refused: this is a board of KiCad: in its board editor take File > Export > Specctra DSN, \
        and give that file: (kicad_pcb (refusal 7)\n",
    ),
    (
        "(kicad_sch (version 20211123))",
        7,
        0,
        "a.dsn:1:1: refused: this is a schematic of KiCad: open its board, and take File > Export > Specctra DSN \
        there: (kicad_sch (refusal 7)\n",
    ),
    (
        "(session b)",
        7,
        0,
        "a.dsn:1:1: refused: this is a session: give the design that it belongs to: (session (refusal 7)\n",
    ),
    (
        "{\n  \"board\": {}\n}",
        4,
        0,
        "a.dsn:1:1: refused: this is a project of KiCad, or other JSON: open its board, and take File > Export > \
        Specctra DSN there: { (refusal 4)\n",
    ),
    (
        "",
        6,
        0,
        "a.dsn:1:1: refused: there is no list (refusal 6)\n",
    ),
    (
        "(pcb b (network (net A (pins U1-99))))",
        16,
        29,
        "a.dsn:1:30: refused: no component and pin fit this reference: U1-99 (refusal 16)\n",
    ),
];

#[test]
fn tells_wrong_files(rt: HostRuntime) {
    for &(text, number, place, note) in &WRONG_TEXTS {
        let fault = Fault::Told(Said::Refused { number, place });
        let told = is_noted(rt.alloc(), fault, Some(text.as_bytes()), note);
        assert!(rt; told, "{note}");
    }
}

#[test]
fn shows_words(rt: HostRuntime) {
    let text = b"(a b\x07c) \xc3\xa9 0123456789012345678901234567890123456789012";
    assert!(rt; word_at(text, 0) == "(a");
    assert!(rt; word_at(text, 3) == "b");
    assert!(rt; word_at(text, 6) == ")");
    assert!(rt; word_at(text, 7) == "");
    assert!(rt; word_at(text, 8) == "");
    assert!(rt; word_at(text, 11) == "0123456789012345678901234567890123456789");
    assert!(rt; word_at(text, 999) == "");
}
