//! Which of the words of a command line is wrong, and why.
//! Each word is judged by itself and by the words beside it.

ghost use Rattle.std.specs.Prelude.{◌≡◌, ◌<◌, IfSome, Some, IsTrue, length};
ghost use Rattle.std.specs.declared.alloc.Global.{Global as GlobalOf};
ghost use Rattle.fault_notes.specs.Words.{IsAmong, IsTrouble, name_of, with_value, range_of, IsOutside};

use crate::look::{Look, read_look};
use crate::trouble::{Choice, Range, Trouble, boards, range_for, takes_name, takes_value};
use route_words::number_between;

// ---- words

// One of the words.
fn word_at<'a>(words: &'a [String], at: usize) -> &'a str
    requires { at < length words.now }
    ensures { IsAmong words.entry.now result.now }
{
    words[at].as_str()
}

fn is_outside(range: Range, word: &[u8]) -> bool
    ensures { IsTrue result → IsOutside range word.now }
{
    number_between(range.least, range.most, word).is_none()
}

// Whether the word is this option, with a value or without.
fn is_of(choice: Choice, word: &str) -> bool {
    match read_look(word.as_bytes()) {
        Look::Bare(other) | Look::Valued(other, _) => other == choice,
        _ => false,
    }
}

// Whether the option is among the words behind the command and before this place.
fn is_given(words: &[String], at: usize, choice: Choice) -> bool {
    for word in words.iter().take(at).skip(1) {
        if is_of(choice, word.as_str()) {
            return true;
        }
    }
    false
}

// ---- options of `route`

// Whether the word can be the name of a file behind an option.
fn is_file_name(word: &[u8]) -> bool {
    !word.is_empty() && matches!(read_look(word), Look::Plain)
}

// An option alone that takes the name of a file, which follows it.
fn bare_name_trouble<'a>(words: &'a [String], at: usize, word: &'a str) -> Option<Trouble<'a>>
    requires at { at < length words.now }
    requires among { IsAmong words.now word.now }
    ensures { IfSome result (IsTrouble words.entry.now) }
{
    match words.get(at + 1) {
        Some(next) if is_file_name(next.as_str().as_bytes()) => None,
        _ => Some(Trouble::NoName(word)),
    }
}

// An option alone that takes a number, which follows it, or no value.
fn bare_number_trouble<'a>(words: &'a [String], at: usize, choice: Choice) -> Option<Trouble<'a>>
    requires at { at < length words.now }
    requires among { IsAmong words.now (name_of choice) }
    ensures { IfSome result (IsTrouble words.entry.now) }
{
    let Some(range) = range_for(choice) else {
        return None;
    };
    match words.get(at + 1) {
        Some(next) if matches!(read_look(next.as_str().as_bytes()), Look::Plain) => None,
        _ => Some(Trouble::NoValue(choice, range)),
    }
}

// An option alone: what follows it is its value, if it takes one.
fn bare_trouble<'a>(
    words: &'a [String],
    at: usize,
    word: &'a str,
    choice: Choice,
) -> Option<Trouble<'a>>
    requires at { at < length words.now }
    requires among { IsAmong words.now word.now }
    requires option { IsAmong words.now (name_of choice) }
    ensures { IfSome result (IsTrouble words.entry.now) }
{
    if takes_name(choice) {
        bare_name_trouble(words, at, word)
    } else {
        bare_number_trouble(words, at, choice)
    }
}

// An option that takes no number, with a value in the same word.
fn valued_name_trouble<'a>(
    words: &'a [String],
    word: &'a str,
    choice: Choice,
    value: &[u8],
) -> Option<Trouble<'a>>
    requires among { IsAmong words.now word.now }
    ensures { IfSome result (IsTrouble words.entry.now) }
{
    let _words = words;
    if !takes_name(choice) {
        return Some(Trouble::Valued(word));
    }
    if value.is_empty() {
        return Some(Trouble::NoName(word));
    }
    None
}

// An option with a value in the same word.
fn valued_trouble<'a>(
    words: &'a [String],
    word: &'a str,
    choice: Choice,
    value: &[u8],
) -> Option<Trouble<'a>>
    requires among { IsAmong words.now word.now }
    requires value { word.now ≡ with_value choice value.now }
    ensures { IfSome result (IsTrouble words.entry.now) }
{
    match range_for(choice) {
        None => valued_name_trouble(words, word, choice, value),
        Some(range) => {
            if is_outside(range, value) {
                Some(Trouble::Outside(choice, range, word))
            } else {
                None
            }
        }
    }
}

// A word that is the value of the option before it.
fn value_trouble<'a>(words: &'a [String], word: &'a str, choice: Choice) -> Option<Trouble<'a>>
    requires among { IsAmong words.now word.now }
    requires option { IsAmong words.now (name_of choice) }
    ensures { IfSome result (IsTrouble words.entry.now) }
{
    let Some(range) = range_for(choice) else {
        return None;
    };
    if is_outside(range, word.as_bytes()) {
        return Some(Trouble::Outside(choice, range, word));
    }
    None
}

// The option before the word at this place, where it waits for a value.
fn waiting(words: &[String], at: usize) -> Option<Choice>
    requires { at < length words.now }
    ensures { IfSome result (λ choice. IsAmong words.entry.now (name_of choice)) }
{
    if at < 2 {
        return None;
    }
    match read_look(word_at(words, at - 1).as_bytes()) {
        Look::Bare(choice) if takes_value(choice) => Some(choice),
        _ => None,
    }
}

fn trouble_at<'a>(words: &'a [String], at: usize) -> Option<Trouble<'a>>
    requires { at < length words.now }
    ensures { IfSome result (IsTrouble words.entry.now) }
{
    let word = word_at(words, at);
    match read_look(word.as_bytes()) {
        Look::Plain => match waiting(words, at) {
            Some(choice) => value_trouble(words, word, choice),
            None => None,
        },
        Look::Dashes => None,
        Look::Strange => Some(Trouble::Strange(word)),
        Look::Bare(choice) => {
            if is_given(words, at, choice) {
                return Some(Trouble::Again(word));
            }
            bare_trouble(words, at, word, choice)
        }
        Look::Valued(choice, value) => {
            if is_given(words, at, choice) {
                return Some(Trouble::Again(word));
            }
            valued_trouble(words, word, choice, value)
        }
    }
}

// The first wrong option or value; behind two hyphens there is none.
fn option_trouble<'a>(words: &'a [String]) -> Option<Trouble<'a>>
    ensures { IfSome result (IsTrouble words.entry.now) }
{
    for at in 1..words.len() {
        if word_at(words, at) == "--" {
            return None;
        }
        if let Some(trouble) = trouble_at(words, at) {
            return Some(trouble);
        }
    }
    None
}

// ---- names

// Whether the word is a name, where no two hyphens stand before it.
fn is_name(words: &[String], at: usize) -> bool
    requires { at < length words.now }
{
    matches!(read_look(word_at(words, at).as_bytes()), Look::Plain) && waiting(words, at).is_none()
}

// The first name that is empty or one too many, or that one of two is missing.
fn name_trouble<'a>(words: &'a [String]) -> Option<Trouble<'a>>
    ensures { IfSome result (IsTrouble words.entry.now) }
{
    let mut ended = false;
    let mut count = 0u32;
    for at in 1..words.len() {
        let word = word_at(words, at);
        if !ended && word == "--" {
            ended = true;
        } else if ended || is_name(words, at) {
            if count == 2 {
                return Some(Trouble::Surplus(word));
            }
            if let [] = word.as_bytes() {
                return Some(Trouble::Empty);
            }
            count = count.saturating_add(1);
        }
    }
    if count < 2 {
        return Some(Trouble::Missing);
    }
    None
}

// ---- `gen`

fn board_trouble<'a>(words: &'a [String], at: usize) -> Option<Trouble<'a>>
    requires { at < length words.now }
    ensures { IfSome result (IsTrouble words.entry.now) }
{
    let word = word_at(words, at);
    if is_outside(boards(), word.as_bytes()) {
        return Some(Trouble::NotABoard(word));
    }
    None
}

fn gen_trouble<'a>(words: &'a [String]) -> Option<Trouble<'a>>
    ensures { IfSome result (IsTrouble words.entry.now) }
{
    let mut ended = false;
    let mut count = 0u32;
    for at in 1..words.len() {
        let word = word_at(words, at);
        if !ended && word == "--" {
            ended = true;
        } else if !ended && !matches!(read_look(word.as_bytes()), Look::Plain) {
            return Some(Trouble::NoOptions(word));
        } else if count == 1 {
            return Some(Trouble::Surplus(word));
        } else {
            if let Some(trouble) = board_trouble(words, at) {
                return Some(trouble);
            }
            count = count.saturating_add(1);
        }
    }
    if count == 0 {
        return Some(Trouble::Missing);
    }
    None
}

// ---- `check`

// The first option, the first name that is empty or one too many, or that one of three is missing.
fn check_trouble<'a>(words: &'a [String]) -> Option<Trouble<'a>>
    ensures { IfSome result (IsTrouble words.entry.now) }
{
    let mut ended = false;
    let mut count = 0u32;
    for at in 1..words.len() {
        let word = word_at(words, at);
        if !ended && word == "--" {
            ended = true;
        } else if !ended && !matches!(read_look(word.as_bytes()), Look::Plain) {
            return Some(Trouble::NoOptions(word));
        } else if count == 3 {
            return Some(Trouble::Surplus(word));
        } else {
            if let [] = word.as_bytes() {
                return Some(Trouble::Empty);
            }
            count = count.saturating_add(1);
        }
    }
    if count < 3 {
        return Some(Trouble::Missing);
    }
    None
}

fn route_trouble<'a>(words: &'a [String]) -> Option<Trouble<'a>>
    ensures { IfSome result (IsTrouble words.entry.now) }
{
    if let Some(trouble) = option_trouble(words) {
        return Some(trouble);
    }
    name_trouble(words)
}

// The command is the first of the words.
fn command_trouble<'a>(words: &'a [String], first: &'a str) -> Option<Trouble<'a>>
    requires { IsAmong words.now first.now }
    ensures { IfSome result (IsTrouble words.entry.now) }
{
    match first {
        "route" => route_trouble(words),
        "check" => check_trouble(words),
        "gen" => gen_trouble(words),
        _ => Some(Trouble::NotACommand(first)),
    }
}

/// What is wrong with the words of a command line, the command first; the program's own name isn't among them. What is
/// told is so: the word is one of these, and a number is wanted exactly where the option takes one. None where nothing
/// wrong is found.
pub fn find_trouble<'a>(words: &'a [String]) -> Option<Trouble<'a>>
    ensures { IfSome result (IsTrouble words.entry.now) }
{
    if words.is_empty() {
        return Some(Trouble::NoCommand);
    }
    command_trouble(words, word_at(words, 0))
}
