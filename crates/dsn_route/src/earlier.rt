//! The order behind a design that starts from an earlier session: read of the session, its length, its wiring. The text
//! is let go before the design is routed.

ghost use Rattle.std.specs.Prelude.{◌≡◌, Ok, Some, All};
ghost use Rattle.pcb_model.specs.Sound.{IsSound};
ghost use Rattle.pcb_model.specs.Plain.{IsPlainCopper};
ghost use Rattle.ses_reader.specs.Sound.{IsItemSound};
ghost use Rattle.dsn_route.specs.Commands.{from_of};
ghost use Rattle.dsn_route.specs.Answers.{Answers};
ghost use Rattle.dsn_route.specs.inner.Said.{IsEarlier, IsOrder, IsReadFor};

use crate::Status;
use crate::check::end_misread;
use crate::context::RunContext;
use crate::outcome::{Outcome, unrouted};
use crate::refusals::end_unread;
use crate::route::{MAX_BYTES, route_design};
use board_turn::Gate;
use desk_io::{Desk, Sink};
use geo_kernel::List;
use pcb_model::Design;
use route_words::{Command, Text};
use ses_reader::{SesItem, read_session};
use session_start::{other_wiring_keeps, with_session};
use std::sync::Wait;
use std::thread::Threads;

// Routes the design that starts from a session's items.
fn route_started<T: Threads + Wait + Sync, D: Desk, R: Sink, G: Gate + Sync>(
    context: &RunContext<'_, T, G>,
    design: Design,
    items: List<SesItem>,
    command: &Command,
    desk: &mut D,
    report: &mut R,
) -> Outcome
    requires sound { IsSound design }
    requires plain { IsPlainCopper design }
    requires items { All (IsItemSound design) items }
    requires order { IsOrder command.now }
    requires read { IsReadFor command.now (D.state desk.old) design }
    requires session { IsEarlier command.now (D.state desk.old) design items }
    ensures { Answers (Ok command.now) (D.state desk.old)
        (D.state desk.new) (R.state report.old) (R.state report.new) result }
{
    other_wiring_keeps();
    let started = with_session(context.alloc, design, &items);
    drop(items);
    match started {
        Ok(design) => route_design(context, design, command, desk, report),
        Err(_) => unrouted(Status::Memory),
    }
}

/// Reads the earlier session of a design, and routes the design from it.
pub(crate) fn route_from<T: Threads + Wait + Sync, D: Desk, R: Sink, G: Gate + Sync>(
    context: &RunContext<'_, T, G>,
    design: Design,
    old: &Text,
    command: &Command,
    desk: &mut D,
    report: &mut R,
) -> Outcome
    requires sound { IsSound design }
    requires plain { IsPlainCopper design }
    requires order { IsOrder command.now }
    requires names { from_of command.now ≡ Some old.now }
    requires read { IsReadFor command.now (D.state desk.old) design }
    ensures { Answers (Ok command.now) (D.state desk.old)
        (D.state desk.new) (R.state report.old) (R.state report.new) result }
{
    match desk.read(old.as_str(), MAX_BYTES) {
        Ok(text) => {
            let read = read_session(context.alloc, &text, &design);
            drop(text);
            match read {
                Ok(items) => route_started(context, design, items, command, desk, report),
                Err(fault) => {
                    drop(design);
                    unrouted(end_misread(context.alloc, &fault, report))
                }
            }
        }
        Err(fail) => {
            drop(design);
            unrouted(end_unread(context.alloc, fail, report))
        }
    }
}
