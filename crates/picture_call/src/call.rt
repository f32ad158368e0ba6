//! The order of a call: read of the design, read of the session, the picture, and its write.
//! Each step that fails ends the call with its cause.

ghost use Rattle.std.specs.Prelude.{◌≡◌, All, Some};
ghost use Rattle.pcb_model.specs.Sound.{IsSound, IsFreeSound};
ghost use Rattle.picture_call.specs.Drawing.{IsInput, IsDesignIn, IsWiring, IsPicture};
ghost use Rattle.picture_call.specs.Answers.{IsSessionIn, Leaves};

use crate::copper::picture_with;
use crate::{Outcome, PictureCall};
use desk_io::{Desk, DeskFail};
use dsn_design::read_design;
use dsn_shapes::DesignFault;
use pcb_model::limits::MOST_BYTES;
use pcb_model::{Design, FreeWire};
use route_words::Text;
use ses_reader::{SesFault, read_session, wires_of};
use std::alloc::Global;

/// The most bytes of a design's file and of a session's.
pub const MAX_BYTES: u64 = MOST_BYTES;

fn write_page<D: Desk>(page: &[u8], call: &PictureCall, desk: &mut D) -> Outcome
    requires picture { IsPicture call.now (D.state desk.old).files page.now }
    ensures { Leaves call.now (D.state desk.old) (D.state desk.new) result }
{
    match desk.write(call.output.as_str(), page) {
        Ok(()) => Outcome::Drawn,
        Err(DeskFail::Memory(_)) => Outcome::Memory,
        Err(_) => Outcome::Unwritten,
    }
}

// Draws the design with this wiring.
fn draw_wires<D: Desk>(
    alloc: Global,
    d: &Design,
    wires: &[FreeWire],
    call: &PictureCall,
    desk: &mut D,
) -> Outcome
    requires sound { IsSound d.now }
    requires wires { All (IsFreeSound d.now) wires.now }
    requires design { IsDesignIn call.now.design (D.state desk.old).files d.now }
    requires wiring { IsWiring call.now.session (D.state desk.old).files d.now wires.now }
    ensures { Leaves call.now (D.state desk.old) (D.state desk.new) result }
{
    match picture_with(alloc, d, wires) {
        Ok(page) => write_page(&page, call, desk),
        Err(_) => Outcome::Memory,
    }
}

// Draws the design with the wiring of a session's text.
#[tactic(auto, using(crate::proofs::Sessions::wires_sound, crate::proofs::Sessions::wiring_of))]
fn draw_session_text<D: Desk>(
    alloc: Global,
    d: &Design,
    text: &[u8],
    call: &PictureCall,
    desk: &mut D,
) -> Outcome
    requires sound { IsSound d.now }
    requires design { IsDesignIn call.now.design (D.state desk.old).files d.now }
    requires session { IsSessionIn call.now.session (D.state desk.old).files text.now }
    ensures { Leaves call.now (D.state desk.old) (D.state desk.new) result }
{
    let items = match read_session(alloc, text, d) {
        Ok(items) => items,
        Err(SesFault::Spelling(fault)) => return Outcome::SessionMisspelt(fault),
        Err(SesFault::Refused { number, at }) => return Outcome::SessionRefused { number, at },
        Err(SesFault::Memory(_)) => return Outcome::Memory,
    };
    match wires_of(alloc, items.as_slice()) {
        Ok(wires) => draw_wires(alloc, d, wires.as_slice(), call, desk),
        Err(_) => Outcome::Memory,
    }
}

// Draws the design with the wiring of the session in the file of this name.
#[tactic(auto, using(crate::proofs::Sessions::session_named))]
fn draw_session<D: Desk>(
    alloc: Global,
    d: &Design,
    name: &Text,
    call: &PictureCall,
    desk: &mut D,
) -> Outcome
    requires sound { IsSound d.now }
    requires design { IsDesignIn call.now.design (D.state desk.old).files d.now }
    requires named { call.now.session ≡ Some name.now }
    ensures { Leaves call.now (D.state desk.old) (D.state desk.new) result }
{
    match desk.read(name.as_str(), MAX_BYTES) {
        Ok(text) => draw_session_text(alloc, d, &text, call, desk),
        Err(DeskFail::Failed) => Outcome::SessionUnread,
        Err(DeskFail::TooLong { seen: _ }) => Outcome::SessionTooLong,
        Err(DeskFail::Memory(_)) => Outcome::Memory,
    }
}

fn draw_text<D: Desk>(alloc: Global, text: &[u8], call: &PictureCall, desk: &mut D) -> Outcome
    requires design { IsInput call.now.design (D.state desk.old).files text.now }
    ensures { Leaves call.now (D.state desk.old) (D.state desk.new) result }
{
    match read_design(alloc, text) {
        Ok(design) => match &call.session {
            Some(name) => draw_session(alloc, &design, name, call, desk),
            None => draw_wires(alloc, &design, design.free.as_slice(), call, desk),
        },
        Err(DesignFault::Spelling(fault)) => Outcome::DesignMisspelt(fault),
        Err(DesignFault::Refused(refusal)) => Outcome::DesignRefused(refusal),
        Err(DesignFault::Memory(_)) => Outcome::Memory,
    }
}

/// Reads the design, and the session where one is named, and writes the picture of the board: of the design's fixed
/// items, and of the session's wires and vias, or of the design's own free ones where no session is named.
/// Nothing is written unless the whole picture stands. Over every desk each outcome has its cause.
pub fn draw<D: Desk>(alloc: Global, call: &PictureCall, desk: &mut D) -> Outcome
    ensures { Leaves call.now (D.state desk.old) (D.state desk.new) result }
{
    match desk.read(call.design.as_str(), MAX_BYTES) {
        Ok(text) => draw_text(alloc, &text, call, desk),
        Err(DeskFail::Failed) => Outcome::DesignUnread,
        Err(DeskFail::TooLong { seen: _ }) => Outcome::DesignTooLong,
        Err(DeskFail::Memory(_)) => Outcome::Memory,
    }
}
