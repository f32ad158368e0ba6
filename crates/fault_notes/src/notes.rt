//! What standard error says of a fault.
//! It names the file and, in a design, the line and the column; then what is wrong, and what to do where that is known.

ghost use Rattle.std.specs.Prelude.{◌≡◌, ◌++◌, IfOk, OnOk, codes, flat_map, string_bytes};
ghost use Rattle.std.specs.Option.{option_map};
ghost use Rattle.fault_notes.specs.Notes.{IsFramed, IsReasoned, IsNote, place_front, place_word, refusal_back};
ghost use Rattle.fault_notes.specs.Notes.{mistake_of, limit_front, unread_words, unwritten_words};
ghost use Rattle.fault_notes.specs.inner.Parts.{part_word, part_words};

use crate::fault::{unread_words, unwritten_words};
use crate::judged::check_note;
use crate::line::word;
use crate::refusals::{limit_words, refusal_words, usage_words};
use crate::{Bar, Counted, Fault, FileNames, Said, mistake_in, place_of, word_at};
use itoa::Buffer;
use route_words::USAGE;
use std::alloc::{AllocError, Global};

// ---- parts

/// A part of a note: text, or a number.
#[derive(Clone, Copy)]
pub(crate) enum Part<'a> {
    Number(u128),
    Text(&'a str),
}

fn put_part(out: &mut String, part: Part) -> Result<(), AllocError>
    ensures { OnOk result (string_bytes out.new ≡ string_bytes out.old ++ part_word part.entry) }
{
    match part {
        Part::Number(n) => {
            let mut buffer = Buffer::new();
            out.push_str(buffer.format(n))
        }
        Part::Text(text) => out.push_str(text),
    }
}

fn put_parts(out: &mut String, parts: &[Part]) -> Result<(), AllocError>
    ensures { OnOk result (string_bytes out.new ≡ string_bytes out.old ++ flat_map part_word parts.now) }
{
    for part in parts {
        put_part(out, *part)?;
    }
    Ok(())
}

// Parts, one after another.
pub(crate) fn text_of(alloc: Global, parts: &[Part]) -> Result<String, AllocError>
    ensures { IfOk result (λ text. string_bytes text ≡ part_words parts.now) }
{
    let mut text = String::new(alloc);
    put_parts(&mut text, parts)?;
    Ok(text)
}

// ---- notes

fn usage_note(alloc: Global, number: u64) -> Result<String, AllocError>
    ensures { IfOk result (λ note. IsFramed (codes "dsnroute: ") (codes "\n" ++ USAGE.now) (string_bytes note)) }
{
    let words = usage_words(number);
    text_of(
        alloc,
        &[
            Part::Text("dsnroute: "),
            Part::Text(words),
            Part::Text("\n"),
            Part::Text(USAGE),
        ],
    )
}

pub(crate) fn place_front(
    alloc: Global,
    file: &str,
    text: Option<&[u8]>,
    at: u64,
) -> Result<String, AllocError>
    ensures { IfOk result (λ front. string_bytes front ≡ place_front file.now (option_map (λ t. t.now) text.entry) at) }
{
    match text {
        Some(text) => {
            let place = place_of(text, at);
            text_of(
                alloc,
                &[
                    Part::Text(file),
                    Part::Text(":"),
                    Part::Number(place.line as u128),
                    Part::Text(":"),
                    Part::Number(place.column as u128),
                    Part::Text(": refused: "),
                ],
            )
        }
        None => {
            text_of(
                alloc,
                &[
                    Part::Text(file),
                    Part::Text(": refused at byte "),
                    Part::Number(at as u128),
                    Part::Text(": "),
                ],
            )
        }
    }
}

/// The word at a place of the text, behind a colon; nothing where the text isn't known or shows none.
pub(crate) fn place_word(alloc: Global, text: Option<&[u8]>, at: u64) -> Result<String, AllocError>
    ensures { IfOk result (λ word. string_bytes word ≡ place_word (option_map (λ t. t.now) text.entry) at) }
{
    let Some(text) = text else {
        return Ok(String::new(alloc));
    };
    let word = word_at(text, at);
    if word.is_empty() {
        return Ok(String::new(alloc));
    }
    text_of(alloc, &[Part::Text(": "), Part::Text(word)])
}

// What is wrong, for a file of another kind.
fn mistake_of(text: Option<&[u8]>) -> Option<&'static str>
    ensures { option_map (λ words. words.now) result ≡ mistake_of (option_map (λ t. t.now) text.entry) }
{
    match text {
        Some(text) => mistake_in(text),
        None => None,
    }
}

fn refusal_back(
    alloc: Global,
    text: Option<&[u8]>,
    number: u64,
    at: u64,
) -> Result<String, AllocError>
    ensures { IfOk result (λ back. string_bytes back ≡ refusal_back (option_map (λ t. t.now) text.entry) at number) }
{
    let word = place_word(alloc, text, at)?;
    text_of(
        alloc,
        &[
            Part::Text(word.as_str()),
            Part::Text(" (refusal "),
            Part::Number(u128::from(number)),
            Part::Text(")\n"),
        ],
    )
}

fn refused_note(
    alloc: Global,
    file: &str,
    text: Option<&[u8]>,
    number: u64,
    at: u64,
) -> Result<String, AllocError>
    ensures { IfOk result (λ note. IsReasoned (mistake_of (option_map (λ t. t.now) text.entry))
        (place_front file.now (option_map (λ t. t.now) text.entry) at)
        (refusal_back (option_map (λ t. t.now) text.entry) at number) (string_bytes note)) }
{
    let front = place_front(alloc, file, text, at)?;
    let back = refusal_back(alloc, text, number, at)?;
    let words = match mistake_of(text) {
        Some(words) => words,
        None => refusal_words(number.min(255) as u8),
    };
    text_of(
        alloc,
        &[
            Part::Text(front.as_str()),
            Part::Text(words),
            Part::Text(back.as_str()),
        ],
    )
}

fn limit_note(
    alloc: Global,
    file: &str,
    counted: Counted,
    number: u128,
) -> Result<String, AllocError>
    ensures { IfOk result (λ note. IsFramed (limit_front file.now counted number) (codes "\n") (string_bytes note)) }
{
    let what = word(counted);
    let words = limit_words(counted);
    text_of(
        alloc,
        &[
            Part::Text(file),
            Part::Text(": too large: "),
            Part::Number(number),
            Part::Text(" "),
            Part::Text(what),
            Part::Text(words),
            Part::Text("\n"),
        ],
    )
}

fn unread_note(alloc: Global, file: &str, bar: Bar) -> Result<String, AllocError>
    ensures { IfOk result (λ note. string_bytes note ≡ file.now ++ unread_words bar) }
{
    text_of(alloc, &[Part::Text(file), Part::Text(unread_words(bar))])
}

fn unwritten_note(alloc: Global, file: &str, bar: Bar) -> Result<String, AllocError>
    ensures { IfOk result (λ note. string_bytes note ≡ file.now ++ unwritten_words bar) }
{
    text_of(alloc, &[Part::Text(file), Part::Text(unwritten_words(bar))])
}

/// The note of a fault, for a person, with the names of the call's files. `text` is that of the file which is refused,
/// the design or the session, where it was kept: a refusal is then told by line, column and word, and else by its byte,
/// and a file of another kind by what it is.
pub fn note_text(
    alloc: Global,
    fault: Fault,
    files: FileNames,
    text: Option<&[u8]>,
) -> Result<String, AllocError>
    ensures { IfOk result (λ note. IsNote USAGE.now fault files.entry
        (option_map (λ t. t.now) text.entry) (string_bytes note)) }
{
    match fault {
        Fault::Told(Said::Usage { number }) => usage_note(alloc, number),
        Fault::Told(Said::Refused { number, place }) => {
            refused_note(alloc, files.input, text, number, place)
        }
        Fault::Told(Said::ReadFault) => unread_note(alloc, files.input, Bar::Other),
        Fault::Told(Said::Limit { counted, number }) => {
            limit_note(alloc, files.input, counted, number)
        }
        Fault::Told(Said::Check { number, at }) => check_note(alloc, files, text, number, at),
        Fault::Told(Said::Other) => Ok(String::new(alloc)),
        Fault::Unread(bar) => unread_note(alloc, files.input, bar),
        Fault::Session(bar) => unwritten_note(alloc, files.session, bar),
        Fault::Report => String::from_str(alloc, "dsnroute: standard output can't be written\n"),
        Fault::Memory => String::from_str(
            alloc,
            "dsnroute: memory was wanting, or the design has more than 16777216 class pairs\n",
        ),
    }
}
