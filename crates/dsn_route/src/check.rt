//! The order of `check`: read of the design, its length, the design; the same of the session; read of the report, its
//! length, and what is judged. Each text is let go before the next file is read.

ghost use Rattle.std.specs.Prelude.{◌≡◌, ℕ, List as Seq, Ok, All};
ghost use Rattle.pcb_model.specs.Sound.{IsSound};
ghost use Rattle.ses_reader.specs.Sound.{IsItemSound};
ghost use Rattle.route_words.specs.declared.command.Command.TheVariants.{Check};
ghost use Rattle.dsn_route.specs.Judging.{IsDesignIn, IsSessionIn, place_of};
ghost use Rattle.dsn_route.specs.Answers.{Stopped};
ghost use Rattle.dsn_route.specs.inner.Said.{EndsJudged, EndsMisread};

use crate::Status;
use crate::lines::{say_check, say_check_ok, say_nodes};
use crate::refusals::{end_refused, end_unread, refusal_of, tree_refusal};
use crate::route::MAX_BYTES;
use crate::status::ended;
use desk_io::{Desk, Sink};
use dsn_design::read_design;
use geo_kernel::List;
use pcb_model::Design;
use route_check::{JudgeFault, Verdict, judge};
use route_words::Text;
use ses_reader::{SesFault, SesItem, read_session};
use std::alloc::Global;

/// The number of a session that can't be read.
const UNREAD_SESSION: u8 = 1;

// Where a text is no session, as a byte offset; None where memory was wanting.
fn place_of(fault: &SesFault) -> Option<u64>
    ensures { result ≡ place_of fault.now }
{
    match fault {
        SesFault::Spelling(fault) => match tree_refusal(fault) {
            Some(refusal) => Some(refusal.at),
            None => None,
        },
        SesFault::Refused { number: _, at } => Some(*at),
        SesFault::Memory(_) => None,
    }
}

/// Puts the line of a text that is no session.
pub(crate) fn end_misread<R: Sink>(alloc: Global, fault: &SesFault, sink: &mut R) -> Status
    ensures { EndsMisread (place_of fault.now) (R.state sink.old) (R.state sink.new) result }
{
    match place_of(fault) {
        Some(at) => ended(say_check(alloc, UNREAD_SESSION, at, sink), Status::Rejected),
        None => Status::Memory,
    }
}

// Puts the line of what was judged.
fn end_judged<R: Sink>(alloc: Global, answer: Result<Verdict, JudgeFault>, sink: &mut R) -> Status
    ensures { EndsJudged answer (R.state sink.old) (R.state sink.new) result }
{
    match answer {
        Ok(Verdict::Yes) => ended(say_check_ok(sink), Status::Complete),
        Ok(Verdict::No { number, at }) => {
            ended(say_check(alloc, number, at, sink), Status::Rejected)
        }
        Err(JudgeFault::TooManyNodes { count }) => {
            ended(say_nodes(alloc, count, sink), Status::Limit)
        }
        Err(JudgeFault::Memory(_)) => Status::Memory,
    }
}

// Reads the report, and judges it and the items of the session.
fn check_report<D: Desk, R: Sink>(
    alloc: Global,
    d: &Design,
    items: &List<SesItem>,
    report: &Text,
    desk: &mut D,
    sink: &mut R,
) -> Status
    requires sound { IsSound d.now }
    requires items { All (IsItemSound d.now) items.now }
    ensures { (input session : Seq ℕ) → IsDesignIn input (D.state desk.old) d.now
        → IsSessionIn session (D.state desk.old) d.now items.now
        → Stopped (Ok (Check input session report.now)) (D.state desk.old) (D.state desk.new)
        (R.state sink.old) (R.state sink.new) result }
{
    match desk.read(report.as_str(), MAX_BYTES) {
        Ok(text) => end_judged(alloc, judge(alloc, d, items, &text), sink),
        Err(fail) => end_unread(alloc, fail, sink),
    }
}

// Reads the session, and goes on to the report.
fn check_session<D: Desk, R: Sink>(
    alloc: Global,
    d: &Design,
    session: &Text,
    report: &Text,
    desk: &mut D,
    sink: &mut R,
) -> Status
    requires sound { IsSound d.now }
    ensures { (input : Seq ℕ) → IsDesignIn input (D.state desk.old) d.now
        → Stopped (Ok (Check input session.now report.now)) (D.state desk.old) (D.state desk.new)
        (R.state sink.old) (R.state sink.new) result }
{
    match desk.read(session.as_str(), MAX_BYTES) {
        Ok(text) => {
            let read = read_session(alloc, &text, d);
            drop(text);
            match read {
                Ok(items) => check_report(alloc, d, &items, report, desk, sink),
                Err(fault) => end_misread(alloc, &fault, sink),
            }
        }
        Err(fail) => end_unread(alloc, fail, sink),
    }
}

/// Judges the session and the report in the files of these names by the design in the file `input`.
pub(crate) fn check<D: Desk, R: Sink>(
    alloc: Global,
    input: &Text,
    session: &Text,
    report: &Text,
    desk: &mut D,
    sink: &mut R,
) -> Status
    ensures { Stopped (Ok (Check input.now session.now report.now)) (D.state desk.old) (D.state desk.new)
        (R.state sink.old) (R.state sink.new) result }
{
    match desk.read(input.as_str(), MAX_BYTES) {
        Ok(text) => {
            let read = read_design(alloc, &text);
            drop(text);
            match read {
                Ok(design) => check_session(alloc, &design, session, report, desk, sink),
                Err(fault) => match refusal_of(&fault) {
                    Some(refusal) => end_refused(alloc, refusal, sink),
                    None => Status::Memory,
                },
            }
        }
        Err(fail) => end_unread(alloc, fail, sink),
    }
}
