//! What a word of a command line looks like.

ghost use Rattle.std.specs.Prelude.{◌≢◌};
ghost use Rattle.route_words.specs.Parts.{look_of};
ghost use Rattle.route_words.specs.Parts.Look.{plain};
ghost use Rattle.fault_notes.specs.inner.Looks.{IsLook, IsSpelled};

use crate::trouble::{Choice, name};

/// All options.
const ALL_CHOICES: [Choice; 8] = [
    Choice::Grid,
    Choice::Workers,
    Choice::Passes,
    Choice::ViaCost,
    Choice::Tries,
    Choice::OmitFixed,
    Choice::From,
    Choice::Diagonal,
];

/// What a word looks like.
#[derive(Clone, Copy)]
pub(crate) enum Look<'a> {
    /// It doesn't begin with a hyphen, or is a hyphen alone.
    Plain,
    /// Two hyphens alone: names follow.
    Dashes,
    /// An option of `route`.
    Bare(Choice),
    /// An option of `route`, with this value behind `=`.
    Valued(Choice, &'a [u8]),
    /// It begins with a hyphen, and is none of these.
    Strange,
}

// The word as this option, alone or with a value; None exactly where it is neither.
fn spelled(word: &[u8], choice: Choice) -> Option<Option<&[u8]>>
    ensures { IsSpelled choice word.now result }
{
    let Some(rest) = word.strip_prefix(name(choice).as_bytes()) else {
        return None;
    };
    match rest {
        [] => Some(None),
        [b'=', value @ ..] => Some(Some(value)),
        _ => None,
    }
}

// A word behind a hyphen.
fn option_look(word: &[u8]) -> Look<'_>
    requires { look_of word.now ≢ plain }
    ensures { IsLook word.now result }
{
    for choice in ALL_CHOICES {
        match spelled(word, choice) {
            Some(None) => return Look::Bare(choice),
            Some(Some(value)) => return Look::Valued(choice, value),
            None => {}
        }
    }
    Look::Strange
}

/// What the word looks like.
pub(crate) fn read_look(word: &[u8]) -> Look<'_>
    ensures { IsLook word.now result }
{
    match word {
        [] => Look::Plain,
        [b'-'] => Look::Plain,
        [b'-', b'-'] => Look::Dashes,
        [b'-', ..] => option_look(word),
        _ => Look::Plain,
    }
}
