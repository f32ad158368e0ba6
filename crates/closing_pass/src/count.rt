//! How many connections are open on a board: over all nets, the islands less one.
//! Each settled move that is kept makes them fewer, so a closing pass ends.

ghost use Rattle.std.specs.Prelude.{◌≡◌, ◌<◌, ◌≤◌, ◌^◌, IfOk, length};
ghost use Rattle.pcb_model.specs.Sound.{IsSound, Serves};
ghost use Rattle.closing_pass.specs.OpenCount.{IsOpenCount};
ghost use Rattle.closing_pass.specs.inner.Counting.{CountsNet};

use pcb_board::{Board, Snap, boards_serve};
use pcb_islands::islands;
use std::alloc::{AllocError, Global};

// How many connections of a net are open: its islands less one, and none where it has no island.
fn open_connections(alloc: Global, snap: &Snap, net: u32) -> Result<u64, AllocError>
    requires serves { IsSound snap.now.design × Serves snap.now.items snap.now.design }
    requires net { net < length snap.now.design.nets }
    ensures count { IfOk result (CountsNet snap.now.design snap.now.items net) }
    ensures few { IfOk result (λ count. count ≤ 2 ^ 26) }
{
    let found = islands(alloc, snap.design(), snap, net)?;
    Ok((found.len() as u64).saturating_sub(1))
}

// How many connections are open on a snapshot.
fn count_on(alloc: Global, snap: &Snap) -> Result<u64, AllocError>
    requires serves { IsSound snap.now.design × Serves snap.now.items snap.now.design }
    ensures { IfOk result (IsOpenCount snap.now.design snap.now.items) }
{
    let mut count = 0;
    for net in 0..snap.design().nets.len() as u32 {
        count += open_connections(alloc, snap, net)?;
    }
    Ok(count)
}

/// How many connections are open on a board.
pub(crate) fn count_open(alloc: Global, board: &Board) -> Result<u64, AllocError>
    ensures { IfOk result (IsOpenCount board.now.design board.now.items) }
{
    board.keeps();
    boards_serve();
    let snap = board.snap()?;
    let count = count_on(alloc, &snap);
    drop(snap);
    count
}
