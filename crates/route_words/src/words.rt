//! The words of the command line.
//! `route`, `check` and `gen` are read by forms of their own; what a list of words means is one definition.

ghost use Rattle.std.specs.Prelude.{◌≡◌, ◌∷◌, [], List as Seq, Some, IfOk};
ghost use Rattle.std.specs.Option.{option_map};
ghost use Rattle.clap.specs.Matches.{found_of};
ghost use Rattle.route_words.specs.Words.{texts, is_given_empty, route_with, route_of, check_with, check_of};
ghost use Rattle.route_words.specs.Words.{gen_with, gen_of};
ghost use Rattle.route_words.specs.Words.{command_of, Says, IsWithin, gen_form, check_form, route_form};
ghost use Rattle.route_words.specs.Parts.{Word, parts_of};
ghost use Rattle.route_words.specs.inner.Forms.{is_on, knobs_found, HoldsGen, HoldsCheck, HoldsRoute};

use crate::form::{find_check, find_gen, find_route};
use crate::knobs::{read_knobs, read_number};
use crate::limits::LAST_BOARD;
use crate::{Command, Knobs, Text, WordFault};
use clap::ArgMatches;
use std::alloc::{AllocError, Global};

/// How the program is called: its words, with the ranges and defaults of the options.
pub const USAGE: &str = "\
dsnroute route IN OUT [--grid UM] [--workers N] [--passes N] [--via-cost UM] [--tries T] [--omit-fixed]
               [--from OLD] [--diagonal]
dsnroute check IN SES REPORT
dsnroute gen N
  --grid UM      1 to 100000 um; without it, the grid that the design asks for
  --workers N    1 to 16; 4 without it
  --passes N     1 to 99; 10 without it
  --via-cost UM  0 to 1000000 um; 2000 without it
  --tries T      0 to 1000; 16 without it
  --omit-fixed   leave the fixed wiring out of the session
  --from OLD     start from the wiring of the earlier session OLD in the place of the design's
  --diagonal     join what stays open by tracks at 45 degrees too
  check          judge a session and its report by the design
  gen N          the generated board number N, 1 to 400
  --             each word after it is a name
";

fn is_on(value: Option<&str>) -> bool
    ensures { result ≡ is_on (option_map (λ w. w.now) value.entry) }
{
    match value {
        Some(text) => text == "true",
        None => false,
    }
}

fn knobs_found(found: &ArgMatches) -> Option<Knobs>
    ensures { result ≡ knobs_found (found_of found.now) }
{
    read_knobs(
        found.get_str("grid"),
        found.get_str("workers"),
        found.get_str("passes"),
        found.get_str("via-cost"),
        found.get_str("tries"),
        is_on(found.get_str("omit-fixed")),
    )
}

fn is_given_empty(name: Option<&str>) -> bool
    ensures { result ≡ is_given_empty (option_map (λ w. w.now) name.entry) }
{
    match name {
        Some(name) => name.is_empty(),
        None => false,
    }
}

// The text of a name that may be missing.
fn text_given(alloc: Global, name: Option<&str>) -> Result<Option<Text>, AllocError>
    ensures { IfOk result (λ text. text ≡ option_map (λ w. w.now) name.entry) }
{
    match name {
        Some(name) => Ok(Some(Text::from_str(alloc, name)?)),
        None => Ok(None),
    }
}

fn route_with(
    alloc: Global,
    input: &str,
    output: &str,
    from: Option<&str>,
    diagonal: bool,
    knobs: Knobs,
) -> Result<Command, WordFault>
    ensures { Says (route_with (input.now ∷ output.now ∷ []) (option_map (λ w. w.now) from.entry) diagonal
        (Some knobs)) result }
{
    if input.is_empty() || output.is_empty() || is_given_empty(from) {
        return Err(WordFault::Usage);
    }
    let input = Text::from_str(alloc, input)?;
    let output = Text::from_str(alloc, output)?;
    let from = text_given(alloc, from)?;
    Ok(Command::Route {
        input,
        output,
        from,
        diagonal,
        knobs,
    })
}

// The command by what `clap` found in the words after `route`.
fn route_found(alloc: Global, found: &ArgMatches) -> Result<Command, WordFault>
    ensures { (words : Seq Word) → HoldsRoute (parts_of route_form words) (found_of found.now)
        → Says (route_of words) result }
{
    let Some(input) = found.get_str("input") else {
        return Err(WordFault::Usage);
    };
    let Some(output) = found.get_str("output") else {
        return Err(WordFault::Usage);
    };
    let Some(knobs) = knobs_found(found) else {
        return Err(WordFault::Usage);
    };
    let from = found.get_str("from");
    let diagonal = is_on(found.get_str("diagonal"));
    route_with(alloc, input, output, from, diagonal, knobs)
}

fn read_route(alloc: Global, words: &[String]) -> Result<Command, WordFault>
    ensures { Says (route_of (texts words.now)) result }
{
    match find_route(alloc, words) {
        Ok(found) => route_found(alloc, &found),
        Err(fault) => Err(fault),
    }
}

fn check_with(alloc: Global, input: &str, session: &str, report: &str) -> Result<Command, WordFault>
    ensures { Says (check_with (input.now ∷ session.now ∷ report.now ∷ [])) result }
{
    if input.is_empty() || session.is_empty() || report.is_empty() {
        return Err(WordFault::Usage);
    }
    let input = Text::from_str(alloc, input)?;
    let session = Text::from_str(alloc, session)?;
    let report = Text::from_str(alloc, report)?;
    Ok(Command::Check {
        input,
        session,
        report,
    })
}

// The command by what `clap` found in the words after `check`.
fn check_found(alloc: Global, found: &ArgMatches) -> Result<Command, WordFault>
    ensures { (words : Seq Word) → HoldsCheck (parts_of check_form words) (found_of found.now)
        → Says (check_of words) result }
{
    let Some(input) = found.get_str("input") else {
        return Err(WordFault::Usage);
    };
    let Some(session) = found.get_str("session") else {
        return Err(WordFault::Usage);
    };
    let Some(report) = found.get_str("report") else {
        return Err(WordFault::Usage);
    };
    check_with(alloc, input, session, report)
}

fn read_check(alloc: Global, words: &[String]) -> Result<Command, WordFault>
    ensures { Says (check_of (texts words.now)) result }
{
    match find_check(alloc, words) {
        Ok(found) => check_found(alloc, &found),
        Err(fault) => Err(fault),
    }
}

// The command by what `clap` found in the words after `gen`.
fn gen_found(found: &ArgMatches) -> Result<Command, WordFault>
    ensures { (words : Seq Word) → HoldsGen (parts_of gen_form words) (found_of found.now)
        → Says (gen_of words) result }
{
    let Some(word) = found.get_str("number") else {
        return Err(WordFault::Usage);
    };
    match read_number(1, LAST_BOARD, word) {
        Some(n) => Ok(Command::Gen { n }),
        None => Err(WordFault::Usage),
    }
}

fn read_gen(alloc: Global, words: &[String]) -> Result<Command, WordFault>
    ensures { Says (gen_of (texts words.now)) result }
{
    match find_gen(alloc, words) {
        Ok(found) => gen_found(&found),
        Err(fault) => Err(fault),
    }
}

fn read_command(alloc: Global, words: &[String]) -> Result<Command, WordFault>
    ensures { Says (command_of (texts words.now)) result }
{
    let [first, rest @ ..] = words else {
        return Err(WordFault::NoCommand);
    };
    match first.as_str() {
        "route" => read_route(alloc, rest),
        "check" => read_check(alloc, rest),
        "gen" => read_gen(alloc, rest),
        _ => Err(WordFault::UnknownCommand),
    }
}

/// What the words ask for; the program's own name isn't among them. The answer is that of the definition `command_of`:
/// a command, or `NoCommand` exactly where there is no word, `UnknownCommand` exactly where the first is no command,
/// and `Usage` exactly where the others don't fit it. Want of memory may take the place of any answer.
pub fn read_words(alloc: Global, words: &[String]) -> Result<Command, WordFault>
    ensures says { Says (command_of (texts words.now)) result }
    ensures within { IfOk result IsWithin }
{
    read_command(alloc, words)
}
