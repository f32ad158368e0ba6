//! The first lines of a report, to that of the grid.

ghost use Rattle.std.specs.Prelude.{◌≡◌, ◌++◌, ℕ, List as Seq, MatchOption, MatchResult};
ghost use Rattle.report_form.specs.Form.{size_line};
ghost use Rattle.report_form.specs.inner.Fields.{HasGrid};
ghost use Rattle.report_form.specs.inner.Halts.{HeadRead};
ghost use Rattle.report_form.specs.inner.State.{IsPage, IsStoppedEarly, Page, board_line};

use crate::cursor::{TwoNumbers, after, three, two};
use crate::spelling::after_spelled;
use crate::value::{capped, writes};
use pcb_model::Design;

// The rest behind the line of the board's name.
fn after_board<'a>(d: &Design, text: &'a [u8]) -> Option<&'a [u8]>
    ensures { MatchOption result ((r : Seq ℕ) → text.now ≡ board_line d.now ++ r → ⊥)
        (λ r. text.now ≡ board_line d.now ++ r.now) }
{
    let behind = after(text, b"board ")?;
    let rest = after_spelled(behind, d.name.as_slice())?;
    after(rest, b"\n")
}

// The rest behind the line of sizes.
fn after_sizes<'a>(d: &Design, text: &'a [u8]) -> Option<&'a [u8]>
    ensures { MatchOption result ((r : Seq ℕ) → text.now ≡ size_line d.now ++ r → ⊥)
        (λ r. text.now ≡ size_line d.now ++ r.now) }
{
    let layers = d.layers.len();
    let nets = d.nets.len();
    let pins = d.pins.len();
    let line = three(text, b"layers ", b" nets ", b" pins ")?;
    if !writes(line.a, layers) {
        return None;
    }
    if !writes(line.b, nets) {
        return None;
    }
    if !writes(line.c, pins) {
        return None;
    }
    Some(line.rest)
}

// The line of the grid.
fn grid_line<'a>(text: &'a [u8]) -> Option<TwoNumbers<'a>>
    ensures { MatchOption result ((g n r : Seq ℕ) → HasGrid g n r text.now → ⊥)
        (λ x. HasGrid x.a.now x.b.now x.rest.now text.now) }
{
    let line = two(text, b"grid ", b" nodes ")?;
    let grid = capped(line.a);
    if grid < 1000 {
        return None;
    }
    if grid > 409600000 {
        return None;
    }
    Some(line)
}

/// The digits of the grid and of the nodes, and the rest before that line and behind it.
#[derive(Clone, Copy)]
pub(crate) struct Head<'a> {
    pub before: &'a [u8],
    pub grid: &'a [u8],
    pub nodes: &'a [u8],
    pub rest: &'a [u8],
}

/// Reads the first three lines; where one isn't in its place, the rest that begins with it comes back.
pub(crate) fn read_head<'a>(d: &Design, text: &'a [u8]) -> Result<Head<'a>, &'a [u8]>
    ensures { (p : Page) → IsPage p → p.design ≡ d.now → p.text ≡ text.now
        → MatchResult result (λ h. HeadRead p h.before.now h.grid.now h.nodes.now h.rest.now)
        (λ r. IsStoppedEarly p r.now) }
{
    let Some(named) = after_board(d, text) else {
        return Err(text);
    };
    let Some(sized) = after_sizes(d, named) else {
        return Err(named);
    };
    let Some(line) = grid_line(sized) else {
        return Err(sized);
    };
    Ok(Head {
        before: sized,
        grid: line.a,
        nodes: line.b,
        rest: line.rest,
    })
}
