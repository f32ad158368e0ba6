//! Calls over a desk in memory that has a design in its file u.dsn, and what they leave.
//! Sessions are written into the file u.ses; where one is judged it is read from there, and its report from u.txt.

use crate::designs::swapped;
use board_turn::{Gate, NoGate};
use desk_io::{MemDesk, MemSink};
use dsn_route::{Status, dsn_route};
use std::alloc::{AllocError, Global};
use std::process::Abort;
use std::sync::Wait;
use std::thread::Threads;

/// What is told of a run: how many entries its board has, and which pass was kept.
pub(crate) type Made = (usize, u32);

/// What a call must leave: how it ended; the parts of its report and of its session, one behind the other, where it
/// writes one; and what is told of its run, where it routes. The part `..` stands for any rest.
#[derive(Clone, Copy)]
pub(crate) struct Wanted<'a> {
    pub status: Status,
    pub report: &'a [&'static str],
    pub session: Option<&'a [&'static str]>,
    pub made: Option<Made>,
}

/// How a call ended, what is told of its run, and the desk and the sink that it left.
#[derive(Drop)]
pub(crate) struct Left {
    pub status: Status,
    made: Option<Made>,
    desk: MemDesk,
    sink: MemSink,
}

/// Whether the bytes are these parts, one behind the other.
fn are_parts(bytes: &[u8], parts: &[&str]) -> bool {
    let mut rest = bytes;
    for part in parts {
        if *part == ".." {
            return true;
        }
        match rest.strip_prefix(part.as_bytes()) {
            Some(next) => rest = next,
            None => return false,
        }
    }
    rest.is_empty()
}

impl Left {
    /// Whether that is left.
    pub(crate) fn is(&self, wanted: &Wanted) -> bool {
        let is_session = match (self.desk.file("u.ses"), wanted.session) {
            (Some(bytes), Some(parts)) => are_parts(bytes, parts),
            (None, None) => true,
            _ => false,
        };
        is_session
            && (self.status, self.made) == (wanted.status, wanted.made)
            && are_parts(self.sink.bytes(), wanted.report)
    }
}

/// The words of a line.
fn words_of(alloc: Global, line: &str) -> Result<Vec<String>, AllocError> {
    let mut words = Vec::new(alloc);
    for word in line.split_whitespace() {
        words.push(String::from_str(alloc, word)?)?;
    }
    Ok(words)
}

/// A desk that has these files, whose call of a number fails.
fn desk_of(alloc: Global, held: &[(&str, &[u8])], fails: u64) -> Result<MemDesk, AllocError> {
    let mut files = Vec::new(alloc);
    for &(name, bytes) in held {
        files.push((String::from_str(alloc, name)?, bytes.to_vec(alloc)?))?;
    }
    MemDesk::new(alloc, files, vec![in alloc; fails]?)
}

/// How a call over that desk and sink ends, and what is told of its run.
fn told<T: Threads + Wait + Sync, G: Gate + Sync>(
    rt: &T,
    alloc: Global,
    words: &[String],
    desk: &mut MemDesk,
    sink: &mut MemSink,
    gate: &G,
) -> (Status, Option<Made>) {
    let outcome = dsn_route(rt, alloc, words, desk, sink, gate);
    let made = match &outcome.routed {
        Some(routed) => Some((routed.board.history().len(), routed.facts.kept)),
        None => None,
    };
    (outcome.status, made)
}

/// What a call with the words of a line leaves over a desk with these files, where its workers go through the gate, and
/// the call of the desk and the put of the sink with these numbers fail. They count from 1, so 0 lets none fail.
pub(crate) fn called_over<T: Threads + Wait + Sync + Abort, G: Gate + Sync>(
    rt: &T,
    alloc: Global,
    held: &[(&str, &[u8])],
    line: &str,
    fails: (u64, u64),
    gate: &G,
) -> Left {
    let words = words_of(alloc, line).expect(rt, "no words");
    let mut desk = desk_of(alloc, held, fails.0).expect(rt, "no desk");
    let puts = vec![in alloc; fails.1].expect(rt, "no sink");
    let mut sink = MemSink::new(alloc, puts);
    let (status, made) = told(rt, alloc, words.as_slice(), &mut desk, &mut sink, gate);
    Left {
        status,
        made,
        desk,
        sink,
    }
}

/// The same over a design's bytes.
pub(crate) fn called<T: Threads + Wait + Sync + Abort, G: Gate + Sync>(
    rt: &T,
    alloc: Global,
    bytes: &[u8],
    line: &str,
    fails: (u64, u64),
    gate: &G,
) -> Left {
    called_over(rt, alloc, &[("u.dsn", bytes)], line, fails, gate)
}

/// Whether a call with the words of a line leaves that over a design's text with these edits.
pub(crate) fn leaves<T: Threads + Wait + Sync + Abort>(
    rt: &T,
    alloc: Global,
    text: &str,
    edits: &[(&str, &str)],
    line: &str,
    wanted: &Wanted,
) -> bool {
    let text = swapped(alloc, text, edits).expect(rt, "no text");
    let left = called(rt, alloc, text.as_bytes(), line, (0, 0), &NoGate);
    left.is(wanted)
}
