//! The words of the command line: a design, perhaps a session, and the picture.
//! `clap` reads them; a word behind `--` is a name, whatever it begins with.

use clap::error::ErrorKind;
use clap::{Arg, ArgMatches, Command, Error};
use picture_call::PictureCall;
use route_words::{Text, WordFault};
use std::alloc::{AllocError, Global};

/// The names of the words in their order.
const PLACES: [&str; 3] = ["first", "second", "third"];

// The form of the words.
fn form<'a>(alloc: Global) -> Result<Command<'a>, AllocError> {
    let mut form = Command::new(alloc, "dsndraw")
        .no_binary_name(true)
        .disable_help_flag(true)
        .disable_version_flag(true);
    for place in PLACES {
        form = form.arg(Arg::new(alloc, place))?;
    }
    Ok(form)
}

// What the words hold.
fn parse<'a>(alloc: Global, words: &'a [String]) -> Result<ArgMatches<'a>, Error> {
    let form = form(alloc)?;
    form.try_get_matches_from(words)
}

// A name; no name is empty.
fn name_of(alloc: Global, word: Option<&str>) -> Result<Text, WordFault> {
    let Some(word) = word else {
        return Err(WordFault::Usage);
    };
    if word.is_empty() {
        return Err(WordFault::Usage);
    }
    let name = Text::from_str(alloc, word)?;
    Ok(name)
}

// The files that are named; the last one is the picture's.
fn find_call(alloc: Global, found: &ArgMatches) -> Result<PictureCall, WordFault> {
    let design = name_of(alloc, found.get_str("first"))?;
    let second = name_of(alloc, found.get_str("second"))?;
    match found.get_str("third") {
        None => Ok(PictureCall {
            design,
            session: None,
            output: second,
        }),
        third => Ok(PictureCall {
            design,
            session: Some(second),
            output: name_of(alloc, third)?,
        }),
    }
}

/// What the words ask for; the program's own name isn't among them.
pub(crate) fn read_call(alloc: Global, words: &[String]) -> Result<PictureCall, WordFault> {
    match parse(alloc, words) {
        Ok(found) => find_call(alloc, &found),
        Err(error) => match error.kind() {
            ErrorKind::OutOfMemory => Err(WordFault::Memory(AllocError)),
            _ => Err(WordFault::Usage),
        },
    }
}
