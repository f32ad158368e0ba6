//! How it is said what is wrong with the words of a command line.
//! The word stands first, then what it should be, and then how the program is called.

ghost use Rattle.std.specs.Prelude.{◌≡◌, IfOk, string_bytes, codes, ◌++◌};
ghost use Rattle.fault_notes.specs.Notes.{IsPlain, IsFramed};
ghost use Rattle.fault_notes.specs.Words.{IsWordNote, trouble_front};
ghost use Rattle.fault_notes.specs.declared.trouble.Trouble.TheVariants.{NoValue, Outside, NotABoard};

use crate::notes::{Part, text_of};
use crate::trouble::{Choice, Range, Trouble, boards, name};
use route_words::USAGE;
use std::alloc::{AllocError, Global};

// What is wrong with the word, or what else is to be known of its number.
fn trouble_words(trouble: Trouble) -> &'static str
    ensures { IsPlain result.now }
{
    match trouble {
        Trouble::NoCommand => "a command is wanted",
        Trouble::NotACommand(_) => "there is no such command",
        Trouble::Strange(_) => "there is no such option; behind -- it would be a name",
        Trouble::Again(_) => "the option is given a second time",
        Trouble::NoValue(choice, _) | Trouble::Outside(choice, _, _) => unit_words(choice),
        Trouble::NoName(_) => "the name of a file is wanted behind it",
        Trouble::Valued(_) => "the option takes no value",
        Trouble::NotABoard(_) => ", in one to seven digits",
        Trouble::NoOptions(_) => "this command takes no options",
        Trouble::Empty => "a name is empty",
        Trouble::Surplus(_) => "a name too many",
        Trouble::Missing => "a name is missing",
    }
}

// What the number of an option counts, and how it is written.
fn unit_words(choice: Choice) -> &'static str
    ensures { IsPlain result.now }
{
    match choice {
        Choice::Grid | Choice::ViaCost => " um, in one to seven digits",
        _ => ", in one to seven digits",
    }
}

// The front of a note that names a word.
fn word_front(alloc: Global, word: &str) -> Result<String, AllocError>
    ensures { IfOk result (λ front. string_bytes front ≡ codes "dsnroute: " ++ (word.now ++ codes ": ")) }
{
    text_of(
        alloc,
        &[Part::Text("dsnroute: "), Part::Text(word), Part::Text(": ")],
    )
}

fn no_value_front(alloc: Global, choice: Choice, range: Range) -> Result<String, AllocError>
    ensures { IfOk result (λ front. string_bytes front ≡ trouble_front (NoValue choice range)) }
{
    text_of(
        alloc,
        &[
            Part::Text("dsnroute: "),
            Part::Text(name(choice)),
            Part::Text(": a whole number is wanted behind it, from "),
            Part::Number(u128::from(range.least)),
            Part::Text(" to "),
            Part::Number(u128::from(range.most)),
        ],
    )
}

fn outside_front(
    alloc: Global,
    choice: Choice,
    range: Range,
    word: &str,
) -> Result<String, AllocError>
    ensures { IfOk result (λ front. string_bytes front ≡ trouble_front (Outside choice range word.entry)) }
{
    text_of(
        alloc,
        &[
            Part::Text("dsnroute: "),
            Part::Text(word),
            Part::Text(": "),
            Part::Text(name(choice)),
            Part::Text(" wants a whole number from "),
            Part::Number(u128::from(range.least)),
            Part::Text(" to "),
            Part::Number(u128::from(range.most)),
        ],
    )
}

fn board_front(alloc: Global, word: &str) -> Result<String, AllocError>
    ensures { IfOk result (λ front. string_bytes front ≡ trouble_front (NotABoard word.entry)) }
{
    let range = boards();
    text_of(
        alloc,
        &[
            Part::Text("dsnroute: "),
            Part::Text(word),
            Part::Text(": gen wants a whole number from "),
            Part::Number(u128::from(range.least)),
            Part::Text(" to "),
            Part::Number(u128::from(range.most)),
        ],
    )
}

fn trouble_front(alloc: Global, trouble: Trouble) -> Result<String, AllocError>
    ensures { IfOk result (λ front. string_bytes front ≡ trouble_front trouble.entry) }
{
    match trouble {
        Trouble::NotACommand(word)
        | Trouble::Strange(word)
        | Trouble::Again(word)
        | Trouble::NoName(word)
        | Trouble::Valued(word)
        | Trouble::NoOptions(word)
        | Trouble::Surplus(word) => word_front(alloc, word),
        Trouble::NoValue(choice, range) => no_value_front(alloc, choice, range),
        Trouble::Outside(choice, range, word) => outside_front(alloc, choice, range, word),
        Trouble::NotABoard(word) => board_front(alloc, word),
        Trouble::NoCommand | Trouble::Empty | Trouble::Missing => {
            String::from_str(alloc, "dsnroute: ")
        }
    }
}

/// The note of wrong words, for a person: the word and what is wrong with it, and how the program is called.
pub fn word_note(alloc: Global, trouble: Trouble) -> Result<String, AllocError>
    ensures { IfOk result (λ note. IsWordNote USAGE.now trouble.entry (string_bytes note)) }
{
    let words = trouble_words(trouble);
    let front = trouble_front(alloc, trouble)?;
    format!(in alloc; "{front}{words}\n{USAGE}")
}
