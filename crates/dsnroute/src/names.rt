//! What the names of a call's files tell before anything is read: that it would write over its own design, or that its
//! session has no place.

use desk_io::{HostSink, Sink, are_one_file, has_no_place};
use dsn_route::Status;
use fault_notes::{Fault, FileNames, note_text, why_unwritten};
use route_words::{Command, Text, WordFault, read_words};
use std::rt::Files;

// Says that the design and the session are one file, and puts the line of faulty words.
fn refuse_one_file<R: Print + Eprint>(rt: &R, input: &Text, output: &Text) -> Status {
    let input = input.as_str();
    let output = output.as_str();
    let _ = eprint!(rt; "dsnroute: IN and OUT are one file: {input} and {output}\n");
    match HostSink::new(rt).put(b"usage 3\n") {
        Ok(()) => Status::Usage,
        Err(_) => Status::WriteFault,
    }
}

// Says that the session can't be written.
fn refuse_no_place<R: Files + Eprint + AllocGlobal>(rt: &R, output: &Text) -> Status {
    let output = output.as_str();
    let fault = Fault::Session(why_unwritten(rt, output));
    let files = FileNames {
        input: output,
        session: output,
        report: output,
    };
    let _ = match note_text(rt.alloc(), fault, files, None) {
        Ok(note) => eprint!(rt; "{note}"),
        Err(_) => eprint!(rt; "{output}: the file can't be written\n"),
    };
    Status::WriteFault
}

// How a call with these names ends without being made.
fn refused_names<R: Files + Print + Eprint + AllocGlobal>(
    rt: &R,
    input: &Text,
    output: &Text,
) -> Option<Status> {
    if are_one_file(rt, input.as_str(), output.as_str()) {
        return Some(refuse_one_file(rt, input, output));
    }
    if has_no_place(rt, output.as_str()) {
        return Some(refuse_no_place(rt, output));
    }
    None
}

/// How a call with these words ends without being made; None where it is to be made.
pub(crate) fn refused<R: Files + Print + Eprint + AllocGlobal>(
    rt: &R,
    words: &[String],
) -> Option<Status> {
    match read_words(rt.alloc(), words) {
        Ok(
            Command::Route {
                input,
                output,
                from: _,
                diagonal: _,
                knobs: _,
            },
        ) => refused_names(rt, &input, &output),
        Err(WordFault::Memory(_)) => {
            let _ = eprint!(rt; "dsnroute: memory was wanting\n");
            Some(Status::Memory)
        }
        _ => None,
    }
}
