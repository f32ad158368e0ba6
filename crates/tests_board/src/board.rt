//! Boards from short texts, and what stands at a place in their lists.
//! The free wiring of a text is the copper that a test lays; its fixed items are what it meets.

ghost use Rattle.std.specs.Prelude.{◌≡◌, ◌≤◌, ◌^◌, false, IfOk, IfSome, Some};
ghost use Rattle.std.specs.Option.{option_copied};
ghost use Rattle.pcb_model.specs.Bounds.{IsItemFit, IsProbeFit};
ghost use Rattle.pcb_model.specs.Board.{IsRouted};
ghost use Rattle.pcb_model.specs.Plain.{IsPlainCopper};
ghost use Rattle.pcb_model.specs.Sound.{IsSound, IsFreeSound, IsItemOf};

use dsn_design::read_design;
use geo_kernel::List;
use pcb_board::Board;
use pcb_model::{Design, FreeWire, Item, Metal, Probe, copy_metal, make_item};
use std::alloc::{AllocError, Global};

/// What a test says of a board.
pub(crate) trait Says {
    /// Whether it is so.
    fn holds(&self, alloc: Global, d: &Design) -> bool
        requires { IsSound d.now };
}

fn held_of<S: Says>(alloc: Global, d: &Design, rows: &[S]) -> u64
    requires { IsSound d.now }
{
    let mut held = 0u64;
    for row in rows {
        if !row.holds(alloc, d) {
            return held;
        }
        held = held.wrapping_add(1);
    }
    held
}

/// How many rows hold of the board of a text before the first that doesn't; none where the text is refused.
pub(crate) fn held<S: Says>(alloc: Global, text: &str, rows: &[S]) -> u64 {
    match board(alloc, text) {
        Some(d) => held_of(alloc, &d, rows),
        None => 0,
    }
}

/// The design of a short text, or None where it is refused.
pub(crate) fn board(alloc: Global, text: &str) -> Option<Design>
    ensures sound { IfSome result IsSound }
    ensures plain { IfSome result IsPlainCopper }
{
    let bytes = text.as_bytes();
    if bytes.len() > 1_000_000 {
        return None;
    }
    match read_design(alloc, bytes) {
        Ok(design) => Some(design),
        Err(_) => None,
    }
}

/// The board of a short text and the places of what was dropped, or None where it is refused or memory is wanting.
pub(crate) fn start(alloc: Global, text: &str, cap: u64) -> Option<(Board, List<u64>)>
    requires { cap ≤ 2 ^ 19 }
    ensures { IfSome result (λ r. IsPlainCopper r.0.design) }
{
    let design = board(alloc, text)?;
    Board::start(alloc, design, cap).ok()
}

/// The board of a short text with room for as many ids as there can be, or None where it is refused or memory is
/// wanting.
pub(crate) fn opened(alloc: Global, text: &str) -> Option<Board>
    ensures { IfSome result (λ b. IsPlainCopper b.design) }
{
    let (board, _) = start(alloc, text, 524_288)?;
    Some(board)
}

/// A fixed item.
pub(crate) fn fixed(d: &Design, at: usize) -> Option<&Item>
    requires { IsSound d.now }
    ensures { IfSome (option_copied result) IsItemFit }
{
    d.fixed.get(at)
}

/// The routed item of this id that this free wiring makes.
pub(crate) fn made(alloc: Global, d: &Design, free: &FreeWire, id: u64) -> Result<Item, AllocError>
    requires sound { IsSound d.now }
    requires free { IsFreeSound d.now free.now }
    ensures of { IfOk result (IsItemOf d.now) }
    ensures routed { IfOk result IsRouted }
    ensures id { IfOk result (λ a. a.id ≡ id) }
{
    let metal = copy_metal(alloc, &free.metal)?;
    let item = make_item(alloc, d, id, Some(free.net), false, metal)?;
    Ok(item)
}

/// The routed item of this id that the free wiring at a place makes.
pub(crate) fn routed(alloc: Global, d: &Design, at: usize, id: u64) -> Option<Item>
    requires { IsSound d.now }
    ensures of { IfSome result (IsItemOf d.now) }
    ensures routed { IfSome result IsRouted }
    ensures id { IfSome result (λ a. a.id ≡ id) }
{
    let free = d.free.get(at)?;
    match made(alloc, d, free, id) {
        Ok(item) => Some(item),
        Err(_) => None,
    }
}

/// The probe that stands for free wiring: a via, or a wire of two points.
pub(crate) fn probe(d: &Design, at: usize) -> Option<Probe>
    requires { IsSound d.now }
    ensures { IfSome result (IsProbeFit d.now) }
{
    match &d.free.get(at)?.metal {
        Metal::Wire {
            layer,
            width,
            chain,
        } => match chain.as_slice() {
            [a, b] => Some(Probe::Step {
                layer: *layer,
                width: *width,
                a: *a,
                b: *b,
            }),
            _ => None,
        },
        Metal::Via { padstack, at } => Some(Probe::Via {
            padstack: *padstack,
            at: *at,
        }),
        _ => None,
    }
}
