//! The command `dsnroute`: it reads a design, routes it, writes its session and puts a report; or it judges a session
//! and its report by the design.
//! Its exit code is that of the top call's status; where there is no report, standard error says why to a person.
#![tactic(auto)]

mod names;
mod progress;

use crate::names::refused;
use crate::progress::{ClearedSink, Manner, Progress};
use board_turn::{Gate, NoGate};
use desk_io::{Desk, HostDesk, HostSink, KeptText, Sink, WatchedOutput};
use dsn_route::{Status, dsn_route};
use fault_notes::{
    Bar, Counted, Fault, FileNames, KeptLine, Said, find_trouble, note_text, read_line, why_unread,
    why_unwritten, word_note,
};
use route_words::{Command, Text, read_words};
use std::alloc::{AllocError, Global};
use std::io::IsTerminal;
use std::process::ExitCode;
use std::rt::{Env, Files};
use std::sync::Wait;
use std::thread::Threads;
use std::time::Clock;
use std::{env, io};

// The words without the program's own name. Words that are no text are wrong words.
fn words_of<R: Env + AllocGlobal>(rt: &R) -> Result<Vec<String>, io::Error> {
    let mut words = Vec::new(rt.alloc());
    for word in env::args(rt)?.skip(1) {
        words.push(word)?;
    }
    Ok(words)
}

// `route` without names, which is refused.
fn wrong_words(alloc: Global) -> Result<Vec<String>, AllocError> {
    let mut words = Vec::new(alloc);
    words.push(String::from_str(alloc, "route")?)?;
    Ok(words)
}

// Why a call with this status, which put this line first, ended without a report; None where it ended with one.
fn fault_of(status: Status, line: &[u8]) -> Option<Fault> {
    match status {
        Status::Complete | Status::SomeOpen => None,
        Status::Usage | Status::Refused | Status::ReadFault | Status::Limit | Status::Rejected =>
            Some(Fault::Told(read_line(line))),
        Status::WriteFault => {
            if line.is_empty() {
                Some(Fault::Session(Bar::Other))
            } else {
                Some(Fault::Report)
            }
        }
        Status::Memory => Some(Fault::Memory),
    }
}

// The fault with why a file can't be read or written, which the host is asked once more.
fn fault_with_bar<R: Files + AllocGlobal>(rt: &R, fault: Fault, files: FileNames) -> Fault {
    match fault {
        Fault::Told(Said::ReadFault) => Fault::Unread(why_unread(rt, files.input)),
        Fault::Session(_) => Fault::Session(why_unwritten(rt, files.session)),
        _ => fault,
    }
}

fn named<'a>(input: &'a str, session: &'a str, report: &'a str) -> FileNames<'a> {
    FileNames {
        input,
        session,
        report,
    }
}

// The file of `check` that gave no text: the one behind the file that was read last.
fn unread_file<'a, D: Desk>(desk: &KeptText<D>, files: FileNames<'a>) -> &'a str {
    if desk.text_of(files.session).is_some() {
        files.report
    } else if desk.text_of(files.input).is_some() {
        files.session
    } else {
        files.input
    }
}

// The files of `check`, that which a fault is of in the place of the design's.
fn faulty_files<'a, D: Desk>(
    desk: &KeptText<D>,
    fault: Fault,
    files: FileNames<'a>,
) -> FileNames<'a> {
    let file = match fault {
        Fault::Told(Said::ReadFault) => unread_file(desk, files),
        Fault::Told(
            Said::Limit {
                counted: Counted::Bytes,
                number: _,
            },
        ) => unread_file(desk, files),
        Fault::Told(
            Said::Limit {
                counted: Counted::Nodes,
                number: _,
            },
        ) => files.report,
        _ => files.input,
    };
    named(file, files.session, files.report)
}

// The note of a call of `check`. A place is told by the text that was read last, if it is of that file.
fn check_note<R: Files + AllocGlobal, D: Desk>(
    rt: &R,
    desk: &KeptText<D>,
    fault: Fault,
    files: FileNames,
) -> Result<String, AllocError> {
    let files = faulty_files(desk, fault, files);
    let fault = fault_with_bar(rt, fault, files);
    let text = match fault {
        Fault::Told(Said::Check { number: _, at: _ }) => desk.text_of(files.session),
        _ => desk.text_of(files.input),
    };
    note_text(rt.alloc(), fault, files, text)
}

// The files of `route` from an earlier session: that which a fault is of stands in the place of the design's, or of the
// session's where the earlier one can't be read as a session.
fn files_from<'a, D: Desk>(
    desk: &KeptText<D>,
    fault: Fault,
    old: &'a str,
    files: FileNames<'a>,
) -> FileNames<'a> {
    let unread = if desk.text_of(files.input).is_some() {
        old
    } else {
        files.input
    };
    match fault {
        Fault::Told(Said::Check { number: _, at: _ }) => named(files.input, old, ""),
        Fault::Told(Said::ReadFault) => named(unread, files.session, ""),
        Fault::Told(
            Said::Limit {
                counted: Counted::Bytes,
                number: _,
            },
        ) => named(unread, files.session, ""),
        _ => files,
    }
}

// The note of a call of `route` from the earlier session `old`. A place is told by the text that was read last, if it
// is of that file.
fn from_note<R: Files + AllocGlobal, D: Desk>(
    rt: &R,
    desk: &KeptText<D>,
    fault: Fault,
    old: &str,
    files: FileNames,
) -> Result<String, AllocError> {
    let files = files_from(desk, fault, old, files);
    let fault = fault_with_bar(rt, fault, files);
    let text = match fault {
        Fault::Told(Said::Check { number: _, at: _ }) => desk.text_of(files.session),
        _ => desk.text_of(files.input),
    };
    note_text(rt.alloc(), fault, files, text)
}

// The note of a call of `route`, from an earlier session where one is named.
fn route_note<R: Files + AllocGlobal, D: Desk>(
    rt: &R,
    desk: &KeptText<D>,
    fault: Fault,
    from: &Option<Text>,
    files: FileNames,
) -> Result<String, AllocError> {
    match from {
        Some(old) => from_note(rt, desk, fault, old.as_str(), files),
        None => {
            let fault = fault_with_bar(rt, fault, files);
            note_text(rt.alloc(), fault, files, desk.text_of(files.input))
        }
    }
}

// The note of words that are no call, or of one that names no file.
fn word_fault_note(alloc: Global, words: &[String], fault: Fault) -> Result<String, AllocError> {
    match (fault, find_trouble(words)) {
        (Fault::Told(Said::Usage { .. }), Some(trouble)) => word_note(alloc, trouble),
        _ => note_text(alloc, fault, named("the generated board", "", ""), None),
    }
}

// The note of a fault, with the names of the files that the words give. A place is told by the text that was read.
fn note_of<R: Files + AllocGlobal, D: Desk>(
    rt: &R,
    words: &[String],
    desk: &KeptText<D>,
    fault: Fault,
) -> Result<String, AllocError> {
    match read_words(rt.alloc(), words) {
        Ok(
            Command::Route {
                input,
                output,
                from,
                diagonal: _,
                knobs: _,
            },
        ) => route_note(
            rt,
            desk,
            fault,
            &from,
            named(input.as_str(), output.as_str(), ""),
        ),
        Ok(
            Command::Check {
                input,
                session,
                report,
            },
        ) => {
            let files = named(input.as_str(), session.as_str(), report.as_str());
            check_note(rt, desk, fault, files)
        }
        _ => word_fault_note(rt.alloc(), words, fault),
    }
}

// Says on standard error why there is no report. Where that fails too, the status alone tells.
fn tell<R: Eprint>(rt: &R, note: &Result<String, AllocError>) {
    let _ = match note {
        Ok(note) => eprint!(rt; "{note}"),
        Err(_) => eprint!(rt; "dsnroute: memory was wanting\n"),
    };
}

/// How a call ended, and what is to be told of that where there is no report.
#[derive(Drop)]
struct Ended {
    status: Status,
    note: Option<Result<String, AllocError>>,
}

// Makes the call over the host's files.
fn call<R: Files + Threads + Wait + AllocGlobal + Sync, S: Sink + Drop, G: Gate + Sync>(
    rt: &R,
    words: &[String],
    sink: S,
    gate: &G,
) -> Ended {
    let mut desk = KeptText::new(rt.alloc(), HostDesk::new(rt));
    let mut kept = KeptLine::new(sink);
    let outcome = dsn_route(rt, rt.alloc(), words, &mut desk, &mut kept, gate);
    let status = outcome.status;
    drop(outcome);
    let note = match fault_of(status, kept.line()) {
        Some(fault) => Some(note_of(rt, words, &desk, fault)),
        None => None,
    };
    Ended { status, note }
}

// The call with a sign of life, where one is asked for and there is a clock.
fn call_shown<R: Files + Eprint + Clock + Threads + Wait + AllocGlobal + Sync, S: Sink + Drop>(
    rt: &R,
    words: &[String],
    manner: Manner,
    sink: S,
) -> Ended {
    if manner == Manner::Quiet {
        return call(rt, words, sink, &NoGate);
    }
    let Some(progress) = Progress::begin(rt, manner) else {
        return call(rt, words, sink, &NoGate);
    };
    let cleared = ClearedSink {
        sink,
        progress: &progress,
    };
    let ended = call(rt, words, cleared, &progress);
    progress.clear();
    ended
}

// Makes the call, and says why where it ends without a report. Whoever stopped reading that is told nothing.
fn call_told<R: Files + Print + Eprint + Clock + Threads + Wait + AllocGlobal + Sync>(
    rt: &R,
    words: &[String],
    manner: Manner,
) -> Status {
    let output = WatchedOutput::new(rt);
    let ended = call_shown(rt, words, manner, HostSink::new(&output));
    if !output.has_no_reader()
        && let Some(note) = &ended.note
    {
        tell(rt, note);
    }
    ended.status
}

fn run<R: Files + Print + Eprint + Clock + Threads + Wait + AllocGlobal + Sync>(
    rt: &R,
    words: &[String],
    manner: Manner,
) -> Status {
    match refused(rt, words) {
        Some(status) => status,
        None => call_told(rt, words, manner),
    }
}

// What the program ends with where its words can't be had: for want of memory, or since one is no text.
fn unread<R: Files + Print + Eprint + Clock + Threads + Wait + AllocGlobal + Sync>(
    rt: &R,
    fault: &io::Error,
) -> Status {
    if fault.kind() == io::ErrorKind::OutOfMemory {
        tell(rt, &Err(AllocError));
        return Status::Memory;
    }
    match wrong_words(rt.alloc()) {
        Ok(words) => run(rt, &words, Manner::Quiet),
        Err(fault) => {
            tell(rt, &Err(fault));
            Status::Memory
        }
    }
}

// How progress is shown: as lines where the environment asks for it by DSNROUTE_PROGRESS=1, on one line where standard
// error is a terminal, and else not at all.
fn manner_of<R: Env + AllocGlobal>(rt: &R, is_terminal: bool) -> Manner {
    match env::var(rt, "DSNROUTE_PROGRESS") {
        Ok(value) if value.as_str() == "1" => Manner::Lines,
        _ => {
            if is_terminal {
                Manner::Line
            } else {
                Manner::Quiet
            }
        }
    }
}

fn main(rt: HostRuntime) -> ExitCode {
    let manner = manner_of(&rt, rt.stderr().is_terminal());
    let status = match words_of(&rt) {
        Ok(words) => run(&rt, &words, manner),
        Err(fault) => unread(&rt, &fault),
    };
    ExitCode::from(status.code())
}
