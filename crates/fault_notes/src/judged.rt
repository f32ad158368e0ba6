//! What is said of a session and a report that aren't as they should be.
//! A session that can't be read is told by its line and column, and else the line of the report, the item, the net or
//! the pin by its number.

ghost use Rattle.std.specs.Prelude.{◌≡◌, ◌++◌, IfOk, codes, decimal, string_bytes};
ghost use Rattle.std.specs.Option.{option_map};
ghost use Rattle.fault_notes.specs.Notes.{IsFramed, is_unread, is_of_report, numbered, numbered_what, judged_file};
ghost use Rattle.fault_notes.specs.Notes.{check_front, check_back, check_word};

use crate::FileNames;
use crate::notes::{Part, place_front, place_word, text_of};
use crate::refusals::check_words;
use std::alloc::{AllocError, Global};

// Whether the session can't be read.
fn is_unread(number: u64) -> bool
    ensures { result ≡ is_unread number }
{
    number == 1
}

// Whether it is the report that is told of.
fn is_of_report(number: u64) -> bool
    ensures { result ≡ is_of_report number }
{
    number == 2 || number == 6 || number == 7
}

fn judged_file<'a>(files: FileNames<'a>, number: u64) -> &'a str
    ensures { result.now ≡ judged_file files.entry number }
{
    if is_of_report(number) {
        files.report
    } else {
        files.session
    }
}

// What is numbered: a line, a net, a pin or an item.
fn numbered_what(number: u64) -> &'static str
    ensures { result.now ≡ numbered_what number }
{
    match number {
        2 => ":",
        6 => ": net ",
        7 => ": pin ",
        _ => ": item ",
    }
}

fn numbered<'a>(alloc: Global, file: &'a str, what: &'a str, at: u64) -> Result<String, AllocError>
    ensures { IfOk result (λ front. string_bytes front ≡ numbered file.now what.now at) }
{
    text_of(
        alloc,
        &[
            Part::Text(file),
            Part::Text(what),
            Part::Number(u128::from(at)),
            Part::Text(": "),
        ],
    )
}

fn check_front(
    alloc: Global,
    files: FileNames,
    text: Option<&[u8]>,
    number: u64,
    at: u64,
) -> Result<String, AllocError>
    ensures { IfOk result (λ front. string_bytes front
        ≡ check_front files.entry (option_map (λ t. t.now) text.entry) number at) }
{
    if is_unread(number) {
        return place_front(alloc, files.session, text, at);
    }
    let file = judged_file(files, number);
    numbered(alloc, file, numbered_what(number), at)
}

// The word of the session that is told of, behind a colon.
fn check_word(
    alloc: Global,
    text: Option<&[u8]>,
    number: u64,
    at: u64,
) -> Result<String, AllocError>
    ensures { IfOk result (λ word. string_bytes word ≡ check_word (option_map (λ t. t.now) text.entry) number at) }
{
    if is_unread(number) {
        return place_word(alloc, text, at);
    }
    Ok(String::new(alloc))
}

fn check_back(
    alloc: Global,
    text: Option<&[u8]>,
    number: u64,
    at: u64,
) -> Result<String, AllocError>
    ensures { IfOk result (λ back. string_bytes back ≡ check_back (option_map (λ t. t.now) text.entry) number at) }
{
    let word = check_word(alloc, text, number, at)?;
    text_of(
        alloc,
        &[
            Part::Text(word.as_str()),
            Part::Text(" (check "),
            Part::Number(u128::from(number)),
            Part::Text(")\n"),
        ],
    )
}

/// The note of a session or a report that isn't as it should be; `text` is the session's, where it was kept.
pub(crate) fn check_note(
    alloc: Global,
    files: FileNames,
    text: Option<&[u8]>,
    number: u64,
    at: u64,
) -> Result<String, AllocError>
    ensures { IfOk result (λ note. IsFramed
        (check_front files.entry (option_map (λ t. t.now) text.entry) number at)
        (check_back (option_map (λ t. t.now) text.entry) number at) (string_bytes note)) }
{
    let front = check_front(alloc, files, text, number, at)?;
    let back = check_back(alloc, text, number, at)?;
    let words = check_words(number);
    text_of(
        alloc,
        &[
            Part::Text(front.as_str()),
            Part::Text(words),
            Part::Text(back.as_str()),
        ],
    )
}
