//! What can be wrong with the words of a command line.
//! The ranges of the options are those that `route_words` keeps to.

ghost use Rattle.std.specs.Prelude.{◌≡◌};
ghost use Rattle.fault_notes.specs.Words.{name_of, range_of, board_range};

use route_words::limits::{
    LAST_BOARD, LONGEST_GRID, MOST_PASSES, MOST_TRIES, MOST_VIA_COST, MOST_WORKERS,
};

/// An option of `route`.
#[derive(Clone, Copy, PartialEq, Eq)]
pub enum Choice {
    Grid,
    Workers,
    Passes,
    ViaCost,
    Tries,
    OmitFixed,
    From,
    Diagonal,
}

/// The numbers from `least` to `most`.
#[derive(Clone, Copy)]
pub struct Range {
    pub least: u32,
    pub most: u32,
}

/// What is wrong with the words of a command line.
#[derive(Clone, Copy)]
pub enum Trouble<'a> {
    /// There is no word.
    NoCommand,
    /// The first word is no command.
    NotACommand(&'a str),
    /// The word begins with a hyphen, and is no option of `route`.
    Strange(&'a str),
    /// The option was given before.
    Again(&'a str),
    /// The option takes a number of this range, and has none.
    NoValue(Choice, Range),
    /// The option takes a number of this range, and this value is none.
    Outside(Choice, Range, &'a str),
    /// The option takes the name of a file, and has none.
    NoName(&'a str),
    /// The option takes no value, and has one.
    Valued(&'a str),
    /// The word is no number of a generated board.
    NotABoard(&'a str),
    /// The command takes no options.
    NoOptions(&'a str),
    /// The name is empty.
    Empty,
    /// The word is a name too many.
    Surplus(&'a str),
    /// A name is missing.
    Missing,
}

/// An option as a word.
pub(crate) fn name(choice: Choice) -> &'static str
    ensures { result.now ≡ name_of choice }
{
    match choice {
        Choice::Grid => "--grid",
        Choice::Workers => "--workers",
        Choice::Passes => "--passes",
        Choice::ViaCost => "--via-cost",
        Choice::Tries => "--tries",
        Choice::OmitFixed => "--omit-fixed",
        Choice::From => "--from",
        Choice::Diagonal => "--diagonal",
    }
}

/// The numbers that an option takes, if it takes one; lengths in um.
pub(crate) fn range_for(choice: Choice) -> Option<Range>
    ensures { result ≡ range_of choice }
{
    match choice {
        Choice::Grid => Some(Range {
            least: 1,
            most: LONGEST_GRID,
        }),
        Choice::Workers => Some(Range {
            least: 1,
            most: MOST_WORKERS,
        }),
        Choice::Passes => Some(Range {
            least: 1,
            most: MOST_PASSES,
        }),
        Choice::ViaCost => Some(Range {
            least: 0,
            most: MOST_VIA_COST,
        }),
        Choice::Tries => Some(Range {
            least: 0,
            most: MOST_TRIES,
        }),
        Choice::OmitFixed | Choice::From | Choice::Diagonal => None,
    }
}

/// Whether an option takes the name of a file.
pub(crate) fn takes_name(choice: Choice) -> bool {
    matches!(choice, Choice::From)
}

/// Whether an option takes a value.
pub(crate) fn takes_value(choice: Choice) -> bool {
    takes_name(choice) || range_for(choice).is_some()
}

/// The numbers of generated boards.
pub(crate) fn boards() -> Range
    ensures { result ≡ board_range }
{
    Range {
        least: 1,
        most: LAST_BOARD,
    }
}
