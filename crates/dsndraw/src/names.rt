//! What the names of a call's files tell before anything is read: that the picture would be written over a design or a
//! session, or that it has no place.

use desk_io::{are_one_file, has_no_place, holds_a_list};
use picture_call::PictureCall;
use std::rt::Files;

/// Why a picture is not drawn.
#[derive(Clone, Copy)]
pub(crate) enum Refused {
    /// The picture's file is one of those that are read.
    OneFile,
    /// The picture's file holds a list, as designs and sessions do.
    List,
    /// There is no place for the picture's file.
    NoPlace,
}

impl Refused {
    /// The exit code: that of refused words, or of a picture that can't be written.
    pub(crate) fn code(self) -> u8 {
        match self {
            Refused::OneFile | Refused::List => 2,
            Refused::NoPlace => 5,
        }
    }

    /// What is said of it behind the picture's name.
    pub(crate) fn words(self) -> &'static str {
        match self {
            Refused::OneFile => "the picture would be written over a file that it is drawn from",
            Refused::List => "the picture would be written over a design or a session",
            Refused::NoPlace => "the file can't be written",
        }
    }
}

/// Why the picture isn't to be drawn; None where it is.
pub(crate) fn why_refused<R: Files + AllocGlobal>(rt: &R, call: &PictureCall) -> Option<Refused> {
    let output = call.output.as_str();
    if are_one_file(rt, call.design.as_str(), output) {
        return Some(Refused::OneFile);
    }
    if let Some(session) = &call.session
        && are_one_file(rt, session.as_str(), output)
    {
        return Some(Refused::OneFile);
    }
    if holds_a_list(rt, output) {
        return Some(Refused::List);
    }
    if has_no_place(rt, output) {
        return Some(Refused::NoPlace);
    }
    None
}
