//! The lines of what was dropped, of the notes and of the passes.

ghost use Rattle.std.specs.Prelude.{◌≡◌, ◌-◌, ◌^◌, ℕ, [], List as Seq, MatchOption, MatchResult};
ghost use Rattle.report_form.specs.Form.{Told as TheTold};
ghost use Rattle.report_form.specs.Reading.{capped};
ghost use Rattle.report_form.specs.inner.Fields.{HasPass, PassAt};
ghost use Rattle.report_form.specs.inner.Halts.{AllPassesRead, DroppedRead, IsJoiningAt, IsNettingAt, IsPassingAt};
ghost use Rattle.report_form.specs.inner.Halts.{PlacesRead};
ghost use Rattle.report_form.specs.inner.State.{At, Dropping, Gridded, IsPage, IsStopped, Joining, Page, Passing};

use crate::cursor::{one, three};
use crate::value::{capped, writes};

// So many lines of places.
fn after_places<'a>(text: &'a [u8], wanted: u64) -> Result<&'a [u8], &'a [u8]>
    ensures { (p : Page) (h : TheTold) → IsPage p → At p (Dropping h []) text.now
        → wanted ≡ capped (2 ^ 64 - 1) h.dropped
        → MatchResult result (λ r. PlacesRead p h r.now) (λ r. IsStopped p r.now) }
{
    let mut rest = text;
    for _taken in 0..wanted {
        match one(rest, b"drop ") {
            Some((_, next)) => rest = next,
            None => return Err(rest),
        }
    }
    Ok(rest)
}

// What was dropped.
fn after_dropped<'a>(text: &'a [u8]) -> Result<&'a [u8], &'a [u8]>
    ensures { (p : Page) (h : TheTold) → IsPage p → At p (Gridded h) text.now
        → MatchResult result (λ r. DroppedRead p r.now) (λ r. IsStopped p r.now) }
{
    match one(text, b"dropped ") {
        Some((dropped, behind)) => after_places(behind, capped(dropped)),
        None => Err(text),
    }
}

// And the notes.
fn after_notes<'a>(text: &'a [u8]) -> Result<&'a [u8], &'a [u8]>
    ensures { (p : Page) → IsPage p → DroppedRead p text.now
        → MatchResult result (λ r. IsPassingAt p r.now) (λ r. IsStopped p r.now) }
{
    match one(text, b"notes ") {
        Some((_, next)) => Ok(next),
        None => Err(text),
    }
}

// The rest behind the line of the pass of this number.
fn after_pass<'a>(text: &'a [u8], number: usize) -> Option<&'a [u8]>
    ensures { MatchOption result ((a b r : Seq ℕ) → HasPass number a b r text.now → ⊥)
        (λ r. PassAt number r.now text.now) }
{
    let line = three(text, b"pass ", b" commits ", b" open ")?;
    if writes(line.a, number) {
        Some(line.rest)
    } else {
        None
    }
}

/// The rest behind the passes, and how many there are.
#[derive(Clone, Copy)]
struct Passes<'a> {
    count: usize,
    rest: &'a [u8],
}

fn after_passes<'a>(text: &'a [u8]) -> Passes<'a>
    ensures { (p : Page) (h : TheTold) → IsPage p → At p (Passing h []) text.now
        → AllPassesRead p h result.count result.rest.now }
{
    let mut left = text;
    for k in 0..text.len() {
        match after_pass(left, k + 1) {
            Some(next) => left = next,
            None => {
                return Passes {
                    count: k,
                    rest: left,
                };
            }
        }
    }
    Passes {
        count: text.len(),
        rest: left,
    }
}

// The passes, and which was kept.
fn after_kept<'a>(text: &'a [u8]) -> Result<&'a [u8], &'a [u8]>
    ensures { (p : Page) (h : TheTold) → IsPage p → At p (Passing h []) text.now
        → MatchResult result (λ r. IsJoiningAt p r.now) (λ r. IsStopped p r.now) }
{
    let Passes { count, rest } = after_passes(text);
    if count == 0 {
        return Err(rest);
    }
    match one(rest, b"kept ") {
        Some((_, next)) => Ok(next),
        None => Err(rest),
    }
}

// The line of joins.
fn after_last<'a>(text: &'a [u8]) -> Result<&'a [u8], &'a [u8]>
    ensures { (p : Page) (h : TheTold) → IsPage p → At p (Joining h) text.now
        → MatchResult result (λ r. IsNettingAt p r.now) (λ r. IsStopped p r.now) }
{
    match one(text, b"joins ") {
        Some((_, next)) => Ok(next),
        None => Err(text),
    }
}

/// The rest behind the lines from what was dropped to the joins; where one isn't in its place, the rest that begins
/// with it comes back.
pub(crate) fn after_joins<'a>(text: &'a [u8]) -> Result<&'a [u8], &'a [u8]>
    ensures { (p : Page) (h : TheTold) → IsPage p → At p (Gridded h) text.now
        → MatchResult result (λ r. IsNettingAt p r.now) (λ r. IsStopped p r.now) }
{
    match after_dropped(text) {
        Ok(dropped) => match after_notes(dropped) {
            Ok(passing) => match after_kept(passing) {
                Ok(joining) => after_last(joining),
                Err(stop) => Err(stop),
            },
            Err(stop) => Err(stop),
        },
        Err(stop) => Err(stop),
    }
}
