//! The order of the top call: words, read of the input, its length, the design; the same of the earlier session, where
//! one is named; the lattice, routing, write of the output, report; or words, and what `check` does.
//! Each step that fails ends the call with the line of its cause.

ghost use Rattle.std.specs.Prelude.{◌≡◌, ◌≤◌, ◌^◌, ℕ, List as Seq, Ok, IsErr, IfSome, Option as Maybe, length};
ghost use Rattle.std.specs.Prelude.{option_map, true};
ghost use Rattle.pcb_model.specs.declared.design.Design.{Design as TheDesign};
ghost use Rattle.pcb_model.specs.Sound.{IsSound};
ghost use Rattle.pcb_model.specs.Plain.{IsPlainCopper};
ghost use Rattle.route_lattice.specs.Mesh.{node_count};
ghost use Rattle.route_words.specs.Words.{texts, command_of, IsWithin};
ghost use Rattle.route_words.specs.declared.command.Command.TheVariants.{Check, Route};
ghost use Rattle.route_words.specs.declared.command.Knobs.{Knobs as TheKnobs};
ghost use Rattle.route_run.specs.Runs.{IsTask};
ghost use Rattle.pcb_board.specs.Boards.{BoardOf};
ghost use Rattle.dsn_route.specs.Lines.{number_of as number_told};
ghost use Rattle.dsn_route.specs.Commands.{from_of, is_diagonal as is_slanted, knobs_of as knobs_told, mesh_of};
ghost use Rattle.dsn_route.specs.Commands.{IsText, IsInputOf};
ghost use Rattle.dsn_route.specs.Answers.{Answers};
ghost use Rattle.dsn_route.specs.Judging.{IsDesignOf, IsNoSession, IsVouchedFor};
ghost use Rattle.dsn_route.specs.inner.Said.{RoutesDesign, IsOrder, IsReadFor};
ghost use Rattle.dsn_route.specs.Due.{IsMissing, IsLong, IsRead, IsUnfit, IsOver, IsTooFine, IsRoutable};
ghost use Rattle.dsn_route.specs.Due.{IsDue, IsDueAfterRead, HasNoFault, IsDone};
ghost use Rattle.dsn_route.specs.Due.{AreWideShut, IsFromBoard, ComesBack};
ghost use Rattle.dsn_route.specs.Due.{IsSessionHeld, AreHeld, HasFewNodes, AreOfRun, IsJudgedDone, IsClean};

use crate::Status;
use crate::check::check;
use crate::context::RunContext;
use crate::earlier::route_from;
use crate::lines::{say_nodes, say_usage};
use crate::outcome::{Outcome, unrouted};
use crate::refusals::{end_refused, end_unread, refusal_of};
use crate::status::ended;
use crate::write::{RunOutput, write_out};
use board_gen::design_text;
use board_turn::Gate;
use check_law::{later_runs_are_right, later_runs_read_back, runs_are_right};
use desk_io::{Desk, Sink};
use dsn_design::{one_outcome, read_design};
use pcb_model::Design;
use pcb_model::limits::MOST_BYTES;
use route_check::right_is_vouched;
use route_lattice::{Lattice, LatticeFault};
use route_run::{RunInput, cuts_are_shut, run_best};
use route_words::{Command, Knobs, Text, WordFault, read_words};
use ses_reader::one_session;
use session_law::runs_read_back;
use start_law::sessions_come_back;
use std::alloc::Global;
use std::sync::Wait;
use std::thread::Threads;

/// The most bytes of an input.
pub const MAX_BYTES: u64 = MOST_BYTES;

/// How a generated board is routed.
const DEFAULT_KNOBS: Knobs = Knobs {
    grid: None,
    workers: 1,
    passes: 10,
    via_cost: 2_000_000,
    tries: 16,
    omit_fixed: false,
};

// The number of a fault of the words; want of memory has none.
fn number_of(fault: WordFault) -> Option<u8>
    ensures { result ≡ number_told fault }
{
    match fault {
        WordFault::NoCommand => Some(1),
        WordFault::UnknownCommand => Some(2),
        WordFault::Usage => Some(3),
        WordFault::Memory(_) => None,
    }
}

// The knobs of a command; `check` has none.
fn knobs_of(command: &Command) -> Knobs
    ensures { result ≡ knobs_told command.now }
{
    match command {
        Command::Route {
            input: _,
            output: _,
            from: _,
            diagonal: _,
            knobs,
        } => *knobs,
        Command::Check {
            input: _,
            session: _,
            report: _,
        }
        | Command::Gen { n: _ } => DEFAULT_KNOBS,
    }
}

// The file of the earlier session from which a command starts, if it names one.
fn earlier_of(command: &Command) -> Option<&Text>
    ensures { option_map (λ name. name.now) result ≡ from_of command.now }
{
    match command {
        Command::Route {
            input: _,
            output: _,
            from,
            diagonal: _,
            knobs: _,
        } => match from {
            Some(name) => Some(name),
            None => None,
        },
        Command::Check {
            input: _,
            session: _,
            report: _,
        }
        | Command::Gen { n: _ } => None,
    }
}

// Whether a command asks for joins by moves at 45 degrees.
fn is_diagonal(command: &Command) -> bool
    ensures { result ≡ is_slanted command.now }
{
    match command {
        Command::Route {
            input: _,
            output: _,
            from: _,
            diagonal,
            knobs: _,
        } => *diagonal,
        Command::Check {
            input: _,
            session: _,
            report: _,
        }
        | Command::Gen { n: _ } => false,
    }
}

// Routes a design on its lattice.
fn route_on<T: Threads + Wait + Sync, D: Desk, R: Sink, G: Gate + Sync>(
    context: &RunContext<'_, T, G>,
    lat: &Lattice,
    design: Design,
    command: &Command,
    desk: &mut D,
    report: &mut R,
) -> Outcome
    requires sound { IsSound design }
    requires order { IsOrder command.now }
    requires task { IsTask design lat.now (knobs_told command.now).via_cost }
    requires lattice { lat.now ≡ mesh_of command.now design }
    requires few { node_count lat.now ≤ 2 ^ 24 }
    ensures { RoutesDesign command.now design (D.state desk.old)
        (D.state desk.new) (R.state report.old) (R.state report.new) result }
{
    let knobs = knobs_of(command);
    let input = RunInput {
        lat,
        via_cost: knobs.via_cost,
        workers: knobs.workers,
        passes: knobs.passes,
        tries: knobs.tries,
        diagonal: is_diagonal(command),
    };
    match run_best(context.rt, context.alloc, input, design, context.gate) {
        Ok(routed) => {
            let run = RunOutput {
                lat,
                routed: &routed,
            };
            let status = write_out(context.alloc, &run, command, desk, report);
            Outcome {
                status,
                routed: Some(routed),
            }
        }
        Err(_) => unrouted(Status::Memory),
    }
}

/// Routes the design that a command asks for.
pub(crate) fn route_design<T: Threads + Wait + Sync, D: Desk, R: Sink, G: Gate + Sync>(
    context: &RunContext<'_, T, G>,
    design: Design,
    command: &Command,
    desk: &mut D,
    report: &mut R,
) -> Outcome
    requires sound { IsSound design }
    requires plain { IsPlainCopper design }
    requires order { IsOrder command.now }
    requires asked { IsDesignOf command.now (D.state desk.old) design }
    ensures { Answers (Ok command.now) (D.state desk.old)
        (D.state desk.new) (R.state report.old) (R.state report.new) result }
{
    match Lattice::of(context.alloc, &design, knobs_of(command).grid) {
        Ok(lat) => {
            let outcome = route_on(context, &lat, design, command, desk, report);
            drop(lat);
            outcome
        }
        Err(LatticeFault::TooManyNodes { count }) => {
            drop(design);
            unrouted(ended(say_nodes(context.alloc, count, report), Status::Limit))
        }
        Err(LatticeFault::Memory(_)) => {
            drop(design);
            unrouted(Status::Memory)
        }
    }
}

// Routes a design that was read, from the earlier session that the command names, if it names one.
fn route_read<T: Threads + Wait + Sync, D: Desk, R: Sink, G: Gate + Sync>(
    context: &RunContext<'_, T, G>,
    design: Design,
    command: &Command,
    desk: &mut D,
    report: &mut R,
) -> Outcome
    requires sound { IsSound design }
    requires plain { IsPlainCopper design }
    requires order { IsOrder command.now }
    requires read { IsReadFor command.now (D.state desk.old) design }
    ensures { Answers (Ok command.now) (D.state desk.old)
        (D.state desk.new) (R.state report.old) (R.state report.new) result }
{
    match earlier_of(command) {
        Some(old) => route_from(context, design, old, command, desk, report),
        None => route_design(context, design, command, desk, report),
    }
}

// Reads the design of a text, and routes it.
fn route_text<T: Threads + Wait + Sync, D: Desk, R: Sink, G: Gate + Sync>(
    context: &RunContext<'_, T, G>,
    text: &[u8],
    command: &Command,
    desk: &mut D,
    report: &mut R,
) -> Outcome
    requires order { IsOrder command.now }
    requires is_text { IsText command.now (D.state desk.old) text.now }
    requires fits { length text.now ≤ 2 ^ 26 }
    ensures { Answers (Ok command.now) (D.state desk.old)
        (D.state desk.new) (R.state report.old) (R.state report.new) result }
{
    match read_design(context.alloc, text) {
        Ok(design) => route_read(context, design, command, desk, report),
        Err(fault) => match refusal_of(&fault) {
            Some(refusal) => unrouted(end_refused(context.alloc, refusal, report)),
            None => unrouted(Status::Memory),
        },
    }
}

// Reads the input, and routes it.
fn route_file<T: Threads + Wait + Sync, D: Desk, R: Sink, G: Gate + Sync>(
    context: &RunContext<'_, T, G>,
    input: &Text,
    command: &Command,
    desk: &mut D,
    report: &mut R,
) -> Outcome
    requires order { IsOrder command.now }
    requires names { IsInputOf command.now input.now }
    ensures { Answers (Ok command.now) (D.state desk.old)
        (D.state desk.new) (R.state report.old) (R.state report.new) result }
{
    match desk.read(input.as_str(), MAX_BYTES) {
        Ok(text) => route_text(context, &text, command, desk, report),
        Err(fail) => unrouted(end_unread(context.alloc, fail, report)),
    }
}

// Does what a command asks for.
fn route<T: Threads + Wait + Sync, D: Desk, R: Sink, G: Gate + Sync>(
    context: &RunContext<'_, T, G>,
    command: &Command,
    desk: &mut D,
    report: &mut R,
) -> Outcome
    requires within { IsWithin command.now }
    ensures { Answers (Ok command.now) (D.state desk.old)
        (D.state desk.new) (R.state report.old) (R.state report.new) result }
{
    match command {
        Command::Route {
            input,
            output: _,
            from: _,
            diagonal: _,
            knobs: _,
        } => route_file(context, input, command, desk, report),
        Command::Check {
            input,
            session,
            report: page,
        } => unrouted(check(context.alloc, input, session, page, desk, report)),
        Command::Gen { n } => match design_text(context.alloc, *n) {
            Ok(text) => route_text(context, &text, command, desk, report),
            Err(_) => unrouted(Status::Memory),
        },
    }
}

/// With `route`, reads the design in the file that the words name first, routes it on the lattice at the grid that they
/// give (or at the design's default grid), writes its session into the file that they name second, and puts the report;
/// where they name an earlier session, that is the wiring from which the design starts, in the place of its own; where
/// they ask for it, the closing pass joins by moves at 45 degrees too;
/// with `gen` routes the generated board of a number and puts its short report. With `check` it judges the session and
/// the report in the files that the words name second and third by the design in the first, writes no file, and puts a
/// line. A call that stops before it routes or judges puts the line of the cause instead. Each worker works in a thread
/// of its own, where one can be started; `rt` starts it, and lets it wait for its turn.
/// Over every desk and sink each answer has its cause (`answers`), and the cause that stands at entry has its answer
/// (the other clauses).
pub fn dsn_route<T: Threads + Wait + Sync, D: Desk, R: Sink, G: Gate + Sync>(
    rt: &T,
    alloc: Global,
    words: &[String],
    desk: &mut D,
    report: &mut R,
    gate: &G,
) -> Outcome
    ensures answers { Answers (command_of (texts words.now)) (D.state desk.old)
        (D.state desk.new) (R.state report.old) (R.state report.new) result }
    ensures usage { IsErr (command_of (texts words.now)) → IsDue Status.Usage result.status }
    ensures absent { IsMissing (command_of (texts words.now)) (D.state desk.old)
        → IsDue Status.ReadFault result.status }
    ensures limit { IsLong (command_of (texts words.now)) (D.state desk.old)
        → IsDueAfterRead Status.Limit result.status }
    ensures refused { (text : Seq ℕ) → IsRead (command_of (texts words.now)) (D.state desk.old) text → IsUnfit text
        → IsDueAfterRead Status.Refused result.status }
    ensures counted { (text : Seq ℕ) → IsRead (command_of (texts words.now)) (D.state desk.old) text → IsOver text
        → IsDueAfterRead Status.Limit result.status }
    ensures nodes { (text : Seq ℕ) → IsRead (command_of (texts words.now)) (D.state desk.old) text
        → IsTooFine (command_of (texts words.now)) (D.state desk.old) text → IsDueAfterRead Status.Limit result.status }
    ensures complete { (text : Seq ℕ) → IsRead (command_of (texts words.now)) (D.state desk.old) text
        → IsRoutable (command_of (texts words.now)) (D.state desk.old) text
        → HasNoFault (D.state desk.old) (D.state desk.new) (R.state report.old) (R.state report.new)
        → IsDone result.status }
    ensures rejected { (d : TheDesign) (told : Seq ℕ) (place : ℕ)
        → IsSessionHeld (command_of (texts words.now)) (D.state desk.old) d told → IsNoSession told d place
        → IsDueAfterRead Status.Rejected result.status }
    ensures comes_back { (b : BoardOf) → IsFromBoard (command_of (texts words.now)) (D.state desk.old) b
        → IfSome result.routed (ComesBack b) }
    ensures wide_shut { (input output : Seq ℕ) (from : Maybe (Seq ℕ)) (knobs : TheKnobs)
        → command_of (texts words.now) ≡ Ok (Route input output from true knobs)
        → IfSome result.routed (AreWideShut knobs) }
    ensures judged { (d : TheDesign) (told page : Seq ℕ)
        → AreHeld (command_of (texts words.now)) (D.state desk.old) d told page → HasFewNodes d told page
        → HasNoFault (D.state desk.old) (D.state desk.new) (R.state report.old) (R.state report.new)
        → IsJudgedDone result.status }
    ensures clean { (d : TheDesign) (told page : Seq ℕ)
        → AreHeld (command_of (texts words.now)) (D.state desk.old) d told page → AreOfRun d told page
        → HasNoFault (D.state desk.old) (D.state desk.new) (R.state report.old) (R.state report.new)
        → IsClean result.status }
    ensures vouched { (input session page : Seq ℕ)
        → command_of (texts words.now) ≡ Ok (Check input session page) → result.status ≡ Status.Complete
        → IsVouchedFor input session page (D.state desk.old) }
{
    one_outcome();
    one_session();
    cuts_are_shut();
    later_runs_are_right();
    later_runs_read_back();
    right_is_vouched();
    runs_are_right();
    runs_read_back();
    sessions_come_back();
    match read_words(alloc, words) {
        Ok(command) => route(&RunContext { rt, alloc, gate }, &command, desk, report),
        Err(fault) => match number_of(fault) {
            Some(number) => unrouted(ended(say_usage(alloc, number, report), Status::Usage)),
            None => unrouted(Status::Memory),
        },
    }
}
