//! What standard error says where there is no picture: which file, where, and what is wrong.
//! What is said of a design is what `dsnroute` says of it.

use desk_io::{Desk, KeptText};
use dsn_shapes::table::{BAD_QUOTE_BYTE, NO_LIST, QUOTE_OPEN, SURPLUS, TOO_DEEP, UNCLOSED};
use dsn_shapes::{Refusal, What};
use dsn_tree::TreeFault;
use fault_notes::{
    Bar, Counted, Fault, FileNames, Said, note_text, place_of, why_unread, why_unwritten, word_at,
};
use picture_call::{MAX_BYTES, Outcome, PictureCall};
use ses_reader::table::{NO_LAYER, NO_MEASURE, NO_NET, NO_PADSTACK, NO_SESSION};
use std::alloc::{AllocError, Global};
use std::rt::Files;

/// What is said of refused words.
pub(crate) const WORDS_NOTE: &str = "\
dsndraw: two or three names are wanted
dsndraw DESIGN [SESSION] OUT
";

/// What is said where memory was wanting; that is the answer, too, to a design with too many class pairs.
pub(crate) const WANTING_NOTE: &str =
    "dsndraw: memory was wanting, or the design has more than 16777216 class pairs\n";

// What is wrong with a session, by the numbers of its refusals.
fn session_words(number: u8) -> &'static str {
    match number {
        NO_SESSION =>
            "the list isn't a `session`, or `routes`, `resolution` or `network_out` is missing",
        NO_MEASURE => "a number, unit or count is none that can be, or is too large",
        NO_NET => "the design has no net of this name",
        NO_LAYER => "the design has no layer of this name",
        NO_PADSTACK => "the design has no padstack of this name",
        _ => "a wire is wanted with one path, of whole points and at least two",
    }
}

// The fault of a text without a tree; an empty text is refused at its first byte.
fn misspelt(fault: &TreeFault) -> Fault {
    let (number, place) = match fault {
        TreeFault::QuoteOpen { at } => (QUOTE_OPEN, *at),
        TreeFault::BadQuoteByte { at } => (BAD_QUOTE_BYTE, *at),
        TreeFault::Unclosed { at } => (UNCLOSED, *at),
        TreeFault::Surplus { at } => (SURPLUS, *at),
        TreeFault::TooDeep { at } => (TOO_DEEP, *at),
        TreeFault::Empty => (NO_LIST, 0),
        TreeFault::Memory(_) => return Fault::Memory,
    };
    Fault::Told(Said::Refused {
        number: u64::from(number),
        place,
    })
}

// What a limit of a design counts; None where the refusal is of none.
fn counted(what: What) -> Option<Counted> {
    match what {
        What::Nothing => None,
        What::Layers => Some(Counted::Layers),
        What::Nets => Some(Counted::Nets),
        What::Pins => Some(Counted::Pins),
        What::Items => Some(Counted::Items),
        What::Vertices => Some(Counted::Vertices),
    }
}

// The fault of a refused design; where it passes a limit, that is told in place of a byte.
fn refused(refusal: Refusal) -> Fault {
    match counted(refusal.what) {
        Some(counted) => Fault::Told(Said::Limit {
            counted,
            number: u128::from(refusal.limit),
        }),
        None => Fault::Told(Said::Refused {
            number: u64::from(refusal.number),
            place: refusal.at,
        }),
    }
}

// The fault of a file that has more bytes than the limit.
const TOO_LONG: Fault = Fault::Told(Said::Limit {
    counted: Counted::Bytes,
    number: MAX_BYTES as u128,
});

// The fault with why the file of this name can't be read or written, which the host is asked once more.
fn fault_with_bar<R: Files + AllocGlobal>(rt: &R, file: &str, fault: Fault) -> Fault {
    match fault {
        Fault::Told(Said::ReadFault) => Fault::Unread(why_unread(rt, file)),
        Fault::Session(_) => Fault::Session(why_unwritten(rt, file)),
        _ => fault,
    }
}

// The note of a fault in the file of this name.
fn file_note<R: Files + AllocGlobal, D: Desk>(
    rt: &R,
    desk: &KeptText<D>,
    file: &str,
    fault: Fault,
) -> Result<String, AllocError> {
    match fault {
        Fault::Memory => String::from_str(rt.alloc(), WANTING_NOTE),
        _ => {
            let fault = fault_with_bar(rt, file, fault);
            let files = FileNames {
                input: file,
                session: file,
                report: file,
            };
            note_text(rt.alloc(), fault, files, desk.text_of(file))
        }
    }
}

// Where a session is refused: its line and column, or the byte where its text wasn't kept.
fn session_front(
    alloc: Global,
    file: &str,
    text: Option<&[u8]>,
    at: u64,
) -> Result<String, AllocError> {
    match text {
        Some(text) => {
            let place = place_of(text, at);
            let line = place.line;
            let column = place.column;
            format!(in alloc; "{file}:{line}:{column}")
        }
        None => format!(in alloc; "{file}: byte {at}"),
    }
}

// The word at a place of a text, behind a colon; nothing where the text wasn't kept or shows none.
fn session_word(alloc: Global, text: Option<&[u8]>, at: u64) -> Result<String, AllocError> {
    match text {
        Some(text) => {
            let word = word_at(text, at);
            if word.is_empty() {
                Ok(String::new(alloc))
            } else {
                format!(in alloc; ": {word}")
            }
        }
        None => Ok(String::new(alloc)),
    }
}

// The note of a refused session.
fn session_note(
    alloc: Global,
    file: &str,
    text: Option<&[u8]>,
    number: u8,
    at: u64,
) -> Result<String, AllocError> {
    let front = session_front(alloc, file, text, at)?;
    let word = session_word(alloc, text, at)?;
    let words = session_words(number);
    format!(in alloc; "{front}: the session is refused: {words}{word} (session refusal {number})\n")
}

/// The note of an outcome, which is empty where the picture is drawn.
pub(crate) fn note_of<R: Files + AllocGlobal, D: Desk>(
    rt: &R,
    desk: &KeptText<D>,
    call: &PictureCall,
    outcome: &Outcome,
) -> Result<String, AllocError> {
    let design = call.design.as_str();
    let output = call.output.as_str();
    let session = match &call.session {
        Some(name) => name.as_str(),
        None => design,
    };
    match outcome {
        Outcome::Drawn => Ok(String::new(rt.alloc())),
        Outcome::DesignUnread => file_note(rt, desk, design, Fault::Told(Said::ReadFault)),
        Outcome::SessionUnread => file_note(rt, desk, session, Fault::Told(Said::ReadFault)),
        Outcome::DesignTooLong => file_note(rt, desk, design, TOO_LONG),
        Outcome::SessionTooLong => file_note(rt, desk, session, TOO_LONG),
        Outcome::DesignMisspelt(fault) => file_note(rt, desk, design, misspelt(fault)),
        Outcome::DesignRefused(refusal) => file_note(rt, desk, design, refused(*refusal)),
        Outcome::SessionMisspelt(fault) => file_note(rt, desk, session, misspelt(fault)),
        Outcome::SessionRefused { number, at } => {
            session_note(rt.alloc(), session, desk.text_of(session), *number, *at)
        }
        Outcome::Unwritten => file_note(rt, desk, output, Fault::Session(Bar::Other)),
        Outcome::Memory => file_note(rt, desk, design, Fault::Memory),
    }
}
