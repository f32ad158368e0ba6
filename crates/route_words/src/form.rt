//! The forms of the words after a command, for `clap`, and what it finds in the words.
//! A fault of `clap` other than want of memory is one of usage.

ghost use Rattle.std.specs.Prelude.{◌≡◌, ◌∷◌, ◌++◌, [], IfOk, false};
ghost use Rattle.clap.specs.Simple.{App, app_of};
ghost use Rattle.clap.specs.Walk.{rule_of};
ghost use Rattle.clap.specs.Values.{kind_of};
ghost use Rattle.route_words.specs.Words.{texts};
ghost use Rattle.route_words.specs.inner.Forms.{bare_app, named, valued, flag, fault_by, Reads};
ghost use Rattle.route_words.specs.inner.Forms.{route_args, check_args, Adds, Makes, IsPlainForm};
ghost use Rattle.route_words.specs.inner.Forms.{FindsRoute, FindsCheck, FindsGen};

use crate::WordFault;
use clap::error::ErrorKind;
use clap::{Arg, ArgAction, ArgMatches, Command, Error};
use std::alloc::{AllocError, Global};

// A form without names and options.
fn bare_form<'a>(alloc: Global) -> Command<'a>
    ensures { app_of result ≡ bare_app }
{
    Command::new(alloc, "dsnroute")
        .no_binary_name(true)
        .disable_help_flag(true)
        .disable_version_flag(true)
}

// An option with a value.
fn valued_arg<'a>(alloc: Global, name: &'a str) -> Arg<'a>
    ensures rule { rule_of result ≡ valued name.entry.now }
    ensures own { result.global ≡ false }
{
    Arg::new(alloc, name).long(name)
}

// Puts a value behind the others.
fn push<T: Drop>(list: &mut Vec<T>, value: T) -> Result<(), AllocError>
    ensures { IfOk result (λ _. list.new.items ≡ list.old.items ++ value ∷ []) }
{
    list.push(value)?;
    Ok(())
}

fn push_name<'a>(alloc: Global, args: &mut Vec<Arg<'a>>, name: &'a str) -> Result<(), AllocError>
    ensures { IfOk result (λ _. Adds (named name.entry.now ∷ []) args.old.items args.new.items) }
{
    push(args, Arg::new(alloc, name))
}

fn push_valued<'a>(alloc: Global, args: &mut Vec<Arg<'a>>, name: &'a str) -> Result<(), AllocError>
    ensures { IfOk result (λ _. Adds (valued name.entry.now ∷ []) args.old.items args.new.items) }
{
    push(args, valued_arg(alloc, name))
}

fn push_flag<'a>(alloc: Global, args: &mut Vec<Arg<'a>>, name: &'a str) -> Result<(), AllocError>
    ensures { IfOk result (λ _. Adds (flag name.entry.now ∷ []) args.old.items args.new.items) }
{
    push(
        args,
        Arg::new(alloc, name).long(name).action(ArgAction::SetTrue),
    )
}

// The arguments of the words after `route`.
fn push_route<'a>(alloc: Global, args: &mut Vec<Arg<'a>>) -> Result<(), AllocError>
    ensures { IfOk result (λ _. Adds route_args args.old.items args.new.items) }
{
    push_name(alloc, args, "input")?;
    push_name(alloc, args, "output")?;
    push_valued(alloc, args, "grid")?;
    push_valued(alloc, args, "workers")?;
    push_valued(alloc, args, "passes")?;
    push_valued(alloc, args, "via-cost")?;
    push_valued(alloc, args, "tries")?;
    push_flag(alloc, args, "omit-fixed")?;
    push_valued(alloc, args, "from")?;
    push_flag(alloc, args, "diagonal")
}

// The arguments of the words after `check`.
fn push_check<'a>(alloc: Global, args: &mut Vec<Arg<'a>>) -> Result<(), AllocError>
    ensures { IfOk result (λ _. Adds check_args args.old.items args.new.items) }
{
    push_name(alloc, args, "input")?;
    push_name(alloc, args, "session")?;
    push_name(alloc, args, "report")
}

// What the words hold by the form with these arguments.
fn parse<'a>(
    alloc: Global,
    args: Vec<Arg<'a>>,
    words: &'a [String],
) -> Result<ArgMatches<'a>, Error>
    ensures { (app : App) → Makes args.entry.items app → IsPlainForm app → Reads app (texts words.entry.now) result }
{
    let form = bare_form(alloc).args(args)?;
    form.try_get_matches_from(words)
}

fn fault_by(error: &Error) -> WordFault
    ensures { result ≡ fault_by (kind_of error.now) }
{
    match error.kind() {
        ErrorKind::OutOfMemory => WordFault::Memory(AllocError),
        _ => WordFault::Usage,
    }
}

/// What the words after `route` hold, where they fit its form.
pub(crate) fn find_route<'a>(
    alloc: Global,
    words: &'a [String],
) -> Result<ArgMatches<'a>, WordFault>
    ensures { FindsRoute (texts words.entry.now) result }
{
    let mut args = Vec::new(alloc);
    push_route(alloc, &mut args)?;
    match parse(alloc, args, words) {
        Ok(found) => Ok(found),
        Err(error) => Err(fault_by(&error)),
    }
}

/// What the words after `check` hold, where they fit its form.
pub(crate) fn find_check<'a>(
    alloc: Global,
    words: &'a [String],
) -> Result<ArgMatches<'a>, WordFault>
    ensures { FindsCheck (texts words.entry.now) result }
{
    let mut args = Vec::new(alloc);
    push_check(alloc, &mut args)?;
    match parse(alloc, args, words) {
        Ok(found) => Ok(found),
        Err(error) => Err(fault_by(&error)),
    }
}

/// What the words after `gen` hold, where they fit its form.
pub(crate) fn find_gen<'a>(alloc: Global, words: &'a [String]) -> Result<ArgMatches<'a>, WordFault>
    ensures { FindsGen (texts words.entry.now) result }
{
    let mut args = Vec::new(alloc);
    push_name(alloc, &mut args, "number")?;
    match parse(alloc, args, words) {
        Ok(found) => Ok(found),
        Err(error) => Err(fault_by(&error)),
    }
}
