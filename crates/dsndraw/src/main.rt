//! The command `dsndraw`: it draws a design, or a session of it, as a picture.
//! Its exit code tells how that ended; where there is no picture, standard error says why to a person.
#![tactic(auto)]

mod names;
mod notes;
mod words;

use crate::names::{Refused, why_refused};
use crate::notes::{WANTING_NOTE, WORDS_NOTE, note_of};
use crate::words::read_call;
use desk_io::{HostDesk, KeptText};
use fault_notes::{Fault, FileNames, note_text, why_unwritten};
use picture_call::{PictureCall, draw};
use route_words::WordFault;
use std::process::ExitCode;
use std::rt::{Env, Files};
use std::{env, io};

/// The exit code of refused words.
const WORDS_CODE: u8 = 2;

/// The exit code of want of memory.
const WANTING_CODE: u8 = 7;

// The words without the program's own name.
fn words_of<R: Env + AllocGlobal>(rt: &R) -> Result<Vec<String>, io::Error> {
    let mut words = Vec::new(rt.alloc());
    for word in env::args(rt)?.skip(1) {
        words.push(word)?;
    }
    Ok(words)
}

// What the words ask for. Words that are no text are wrong words.
fn call_of<R: Env + AllocGlobal>(rt: &R) -> Result<PictureCall, WordFault> {
    match words_of(rt) {
        Ok(words) => read_call(rt.alloc(), &words),
        Err(fault) => {
            if fault.kind() == io::ErrorKind::OutOfMemory {
                Err(WordFault::Memory(std::alloc::AllocError))
            } else {
                Err(WordFault::Usage)
            }
        }
    }
}

// Draws the picture, and says on standard error why there is none. Where that fails too, the exit code alone tells.
fn drawn<R: Files + Eprint + AllocGlobal>(rt: &R, call: &PictureCall) -> u8 {
    let mut desk = KeptText::new(rt.alloc(), HostDesk::new(rt));
    let outcome = draw(rt.alloc(), call, &mut desk);
    let _ = match note_of(rt, &desk, call, &outcome) {
        Ok(note) => eprint!(rt; "{note}"),
        Err(_) => eprint!(rt; "{WANTING_NOTE}"),
    };
    outcome.code()
}

// Says why the picture of this name isn't to be drawn.
fn tell_refused<R: Files + Eprint + AllocGlobal>(rt: &R, output: &str, why: Refused) {
    let note = match why {
        Refused::NoPlace => {
            let fault = Fault::Session(why_unwritten(rt, output));
            let files = FileNames {
                input: output,
                session: output,
                report: output,
            };
            note_text(rt.alloc(), fault, files, None)
        }
        _ => {
            let words = why.words();
            format!(in rt.alloc(); "{output}: {words}\n")
        }
    };
    let _ = match note {
        Ok(note) => eprint!(rt; "{note}"),
        Err(_) => eprint!(rt; "{WANTING_NOTE}"),
    };
}

fn run<R: Files + Eprint + AllocGlobal>(rt: &R, call: &PictureCall) -> u8 {
    match why_refused(rt, call) {
        Some(why) => {
            tell_refused(rt, call.output.as_str(), why);
            why.code()
        }
        None => drawn(rt, call),
    }
}

fn main(rt: HostRuntime) -> ExitCode {
    let code = match call_of(&rt) {
        Ok(call) => run(&rt, &call),
        Err(WordFault::Memory(_)) => {
            let _ = eprint!(rt; "{WANTING_NOTE}");
            WANTING_CODE
        }
        Err(_) => {
            let _ = eprint!(rt; "{WORDS_NOTE}");
            WORDS_CODE
        }
    };
    ExitCode::from(code)
}
