//! What is open on a board: the nets with several islands, and how many connections they lack.

ghost use Rattle.std.specs.Prelude.{◌≡◌, ◌<◌, ◌≤◌, ◌^◌, [], IfOk, OnOk, length, vec_len};
ghost use Rattle.pcb_model.specs.Sound.{IsSound, Serves};
ghost use Rattle.pcb_board.specs.Boards.{BoardOf};
ghost use Rattle.route_run.specs.inner.Passing.{IsOpenNet, AreOpenNets, AreOpenOn};

use pcb_board::{Board, Snap, boards_serve};
use pcb_islands::{islands, islands_are_one};
use std::alloc::{AllocError, Global};

/// The nets that have several islands, in order, and how many connections are open.
#[derive(Drop)]
pub(crate) struct OpenNets {
    pub nets: Vec<u32>,
    pub count: u64,
}

impl OpenNets {
    /// The same once more.
    pub(crate) fn copy(&self, alloc: Global) -> Result<OpenNets, AllocError>
        ensures { IfOk result (λ o. (b : BoardOf) → AreOpenOn b self.now → AreOpenOn b o) }
    {
        let nets = Vec::from_slice(alloc, self.nets.as_slice())?;
        Ok(OpenNets {
            nets,
            count: self.count,
        })
    }
}

// How many connections of a net are open: its islands less one, and none where it has no island.
fn open_connections(alloc: Global, snap: &Snap, net: u32) -> Result<u64, AllocError>
    requires serves { IsSound snap.now.design × Serves snap.now.items snap.now.design }
    requires net { net < length snap.now.design.nets }
    ensures count { IfOk result (IsOpenNet snap.now.design snap.now.items net) }
    ensures few { IfOk result (λ count. count ≤ 2 ^ 26) }
{
    let found = islands(alloc, snap.design(), snap, net)?;
    Ok((found.len() as u64).saturating_sub(1))
}

// Gathers the nets of a snapshot that have several islands, and counts the connections that are open.
fn gather(alloc: Global, snap: &Snap, nets: &mut Vec<u32>) -> Result<u64, AllocError>
    requires serves { IsSound snap.now.design × Serves snap.now.items snap.now.design }
    requires none { (vec_len nets.old ≡ 0) × (nets.old.items ≡ []) }
    ensures few { OnOk result (vec_len nets.new ≤ length snap.now.design.nets) }
    ensures are { IfOk result
        (AreOpenNets snap.now.design snap.now.items (length snap.now.design.nets) nets.new.items) }
{
    islands_are_one();
    let mut count = 0;
    for net in 0..snap.design().nets.len() as u32 {
        let open = open_connections(alloc, snap, net)?;
        if 0 < open {
            nets.push(net)?;
            count += open;
        }
    }
    Ok(count)
}

/// Looks over the nets of a board.
pub(crate) fn look_over(alloc: Global, board: &Board) -> Result<OpenNets, AllocError>
    ensures { IfOk result (AreOpenOn board.now) }
{
    board.keeps();
    boards_serve();
    let snap = board.snap()?;
    let mut nets = Vec::new(alloc);
    let gathered = gather(alloc, &snap, &mut nets);
    drop(snap);
    match gathered {
        Ok(count) => Ok(OpenNets { nets, count }),
        Err(error) => Err(error),
    }
}
