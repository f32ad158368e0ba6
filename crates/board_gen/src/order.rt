//! How the sites stand and which of them are joined.
//! The shuffle is that of Fisher and Yates; its numbers come from a linear congruential generator modulo 2^31.

ghost use Rattle.std.specs.Prelude.{◌≡◌, ◌≤◌, ◌<◌, ◌*◌, ◌-◌, ◌^◌, IfOk, length};
ghost use Rattle.std.specs.List.{range_with_len};
ghost use Rattle.board_gen.specs.Board.{next_state, order_of, shuffled, side_of};

use std::alloc::{AllocError, Global};

/// The least whole number whose square is at least `count`.
pub(crate) fn side_of(count: u32) -> u32
    requires { count ≤ 800 }
    ensures least { result ≡ side_of count }
    ensures some { 1 ≤ count → 1 ≤ result }
{
    let mut side = 0;
    while side * side < count {
        side += 1;
    }
    side
}

fn next_state(state: u64) -> u64
    requires { state < 2 ^ 31 }
    ensures value { result ≡ next_state state }
    ensures small { result < 2 ^ 31 }
{
    (1_103_515_245 * state + 12_345) % 0x8000_0000
}

// Each entry from the last to the second changes places with one that isn't behind it.
fn shuffled(mut entries: Vec<u32>, start: u64) -> Vec<u32>
    requires { start < 2 ^ 31 }
    ensures { result.items ≡ shuffled (length entries.items - 1) start entries.items }
{
    let mut state = start;
    let mut at = entries.len();
    while at > 1 {
        at -= 1;
        state = next_state(state);
        entries.swap(at, (state / 65_536) as usize % (at + 1));
    }
    entries
}

fn numbers(alloc: Global, count: u32) -> Result<Vec<u32>, AllocError>
    ensures { IfOk result (λ v. v.items ≡ range_with_len 0 count) }
{
    (0..count).collect(alloc)
}

/// The sites in the order in which they are joined, two by two.
pub(crate) fn order_of(alloc: Global, n: u32) -> Result<Vec<u32>, AllocError>
    requires { n ≤ 400 }
    ensures { IfOk result (λ v. v.items ≡ order_of n) }
{
    let entries = numbers(alloc, 2 * n)?;
    Ok(shuffled(entries, u64::from(n)))
}
