//! What a call leaves that routed: the session in its file and the report, or the short report alone.
//! Both texts are made before anything is written.

ghost use Rattle.std.specs.Prelude.{◌≡◌, ℕ, Bool, List as Seq, Option};
ghost use Rattle.desk_io.specs.States.{DeskState};
ghost use Rattle.route_words.specs.declared.command.Command.TheVariants.{Route, Gen};
ghost use Rattle.dsn_route.specs.Commands.{mesh_at, mesh_of, default_knobs, AsksToRoute};
ghost use Rattle.dsn_route.specs.Answers.{Leaves};
ghost use Rattle.dsn_route.specs.inner.Said.{IsVerdict};

use crate::Status;
use crate::status::ended;
use cut_certificate::Cut;
use desk_io::{Desk, DeskFail, Sink};
use route_lattice::Lattice;
use route_report::report_text;
use route_run::Routed;
use route_words::{Command, Knobs, Text};
use ses_writer::session_text;
use std::alloc::Global;

/// What a run gave: the lattice, and what was routed on it.
#[derive(Clone, Copy)]
pub(crate) struct RunOutput<'a> {
    pub lat: &'a Lattice,
    pub routed: &'a Routed,
}

// Complete where there is no cut.
fn verdict(cuts: &[Cut]) -> Status
    ensures { IsVerdict cuts.now result }
{
    if cuts.is_empty() {
        Status::Complete
    } else {
        Status::SomeOpen
    }
}

// Writes the session and puts the report.
fn write_both<D: Desk, R: Sink>(
    alloc: Global,
    run: &RunOutput<'_>,
    output: &Text,
    knobs: Knobs,
    desk: &mut D,
    report: &mut R,
) -> Status
    requires lattice { run.now.lat.now ≡ mesh_at knobs run.now.routed.now.board.design }
    ensures { (input : Seq ℕ) (from : Option (Seq ℕ)) (diagonal : Bool)
        → Leaves (Route input output.now from diagonal knobs) run.now.routed.now.board run.now.routed.now.facts
        (D.state desk.old) (D.state desk.new) (R.state report.old) (R.state report.new) result }
{
    let routed = run.routed;
    let board = &routed.board;
    let Ok(session) = session_text(alloc, board.design(), board, knobs.omit_fixed) else {
        return Status::Memory;
    };
    let Ok(page) = report_text(alloc, board.design(), run.lat, board, &routed.facts, false) else {
        return Status::Memory;
    };
    match desk.write(output.as_str(), &session) {
        Ok(()) => ended(report.put(&page), verdict(routed.facts.cuts.as_slice())),
        Err(DeskFail::Memory(_)) => Status::Memory,
        Err(_) => Status::WriteFault,
    }
}

// Puts the short report.
fn put_short<R: Sink>(alloc: Global, run: &RunOutput<'_>, report: &mut R) -> Status
    requires lattice { run.now.lat.now ≡ mesh_at default_knobs run.now.routed.now.board.design }
    ensures { (n : ℕ) (desk : DeskState)
        → Leaves (Gen n) run.now.routed.now.board run.now.routed.now.facts desk desk (R.state report.old)
        (R.state report.new) result }
{
    let routed = run.routed;
    let board = &routed.board;
    let Ok(page) = report_text(alloc, board.design(), run.lat, board, &routed.facts, true) else {
        return Status::Memory;
    };
    ended(report.put(&page), verdict(routed.facts.cuts.as_slice()))
}

/// Writes what a command wants of a run, and answers how the call ends.
pub(crate) fn write_out<D: Desk, R: Sink>(
    alloc: Global,
    run: &RunOutput<'_>,
    command: &Command,
    desk: &mut D,
    report: &mut R,
) -> Status
    requires routes { AsksToRoute command.now }
    requires lattice { run.now.lat.now ≡ mesh_of command.now run.now.routed.now.board.design }
    ensures { Leaves command.now run.now.routed.now.board run.now.routed.now.facts (D.state desk.old)
        (D.state desk.new) (R.state report.old) (R.state report.new) result }
{
    match command {
        Command::Route {
            input: _,
            output,
            from: _,
            diagonal: _,
            knobs,
        } => write_both(alloc, run, output, *knobs, desk, report),
        Command::Check {
            input: _,
            session: _,
            report: _,
        }
        | Command::Gen { n: _ } => put_short(alloc, run, report),
    }
}
