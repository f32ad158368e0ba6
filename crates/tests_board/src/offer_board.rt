//! The texts of boards for offers and plans, offers of one wire as data, and what a board answers to them.
//! Lengths in the texts and in the chains are in um.

ghost use Rattle.std.specs.Prelude.{◌≡◌};

use geo_kernel::{List, Point};
use pcb_board::{Answer, Board, Offer, Shoved};
use pcb_model::{Copper, Metal};
use std::alloc::{AllocError, Global};

/// Two nets whose pins lie across each other: the boundary is item 0, the pins are 1 and 2 of net 0, 3 and 4 of net 1.
pub(crate) const CROSS: &str = "(pcb U
  (resolution um 10)
  (unit um)
  (structure
    (layer F.Cu (type signal))
    (boundary (rect pcb 0 0 10000 10000))
    (rule (width 200) (clearance 200)))
  (placement (component P
    (place C1 1000 5000 front 0)
    (place C2 9000 5000 front 0)
    (place C3 5000 2000 front 0)
    (place C4 5000 8000 front 0)))
  (library
    (image P (pin PAD 1 0 0))
    (padstack PAD (shape (circle F.Cu 1000))))
  (network (net A (pins C1-1 C2-1)) (net B (pins C3-1 C4-1)))
  (wiring))";

/// Two walls with a gap between them, through which a free wire of net 0 leads, item 7. The pins of net 1, items 5
/// and 6, lie below it.
pub(crate) const WALLS: &str = "(pcb C
  (resolution um 10)
  (unit um)
  (structure
    (layer F.Cu (type signal))
    (boundary (rect pcb 0 0 10000 10000))
    (keepout (rect F.Cu 4000 0 6000 4700))
    (keepout (rect F.Cu 4000 6300 6000 10000))
    (rule (width 200) (clearance 200)))
  (placement (component P
    (place C1 1000 8000 front 0)
    (place C2 9000 8000 front 0)
    (place C3 3000 2000 front 0)
    (place C4 7000 2000 front 0)))
  (library
    (image P (pin PAD 1 0 0))
    (padstack PAD (shape (circle F.Cu 1000))))
  (network (net A (pins C1-1 C2-1)) (net B (pins C3-1 C4-1)))
  (wiring (wire (path F.Cu 200 1000 8000 1000 5000 9000 5000 9000 8000) (net A) (type route))))";

/// Whether a chain has these points, in um.
pub(crate) fn is_chain(chain: &[Point], um: &[(u16, u16)]) -> bool {
    if chain.len() != um.len() {
        return false;
    }
    for i in 0..chain.len() {
        let (x, y) = um[i];
        if chain[i].x != x as i64 * 1_000 || chain[i].y != y as i64 * 1_000 {
            return false;
        }
    }
    true
}

/// A chain of these points, in um.
fn chain_of(alloc: Global, um: &[(u16, u16)]) -> Result<List<Point>, AllocError> {
    let mut chain = List::new(alloc);
    for (x, y) in um {
        chain.push(Point {
            x: *x as i64 * 1_000,
            y: *y as i64 * 1_000,
        })?;
    }
    Ok(chain)
}

/// A list of metals with the one wire of 200 um on the first layer; without points it is empty.
fn wire(alloc: Global, um: &[(u16, u16)]) -> Result<List<Metal>, AllocError> {
    let mut add = List::new(alloc);
    if um.is_empty() {
        return Ok(add);
    }
    let chain = chain_of(alloc, um)?;
    add.push(Metal::Wire {
        layer: 0,
        width: 200_000,
        chain,
    })?;
    Ok(add)
}

/// A list of the one wire that is shoved, and of its new chain in um.
fn shoved(
    alloc: Global,
    shove: Option<(u64, &'static [(u16, u16)])>,
) -> Result<List<Shoved>, AllocError> {
    let mut shoves = List::new(alloc);
    if let Some((id, um)) = shove {
        let chain = chain_of(alloc, um)?;
        shoves.push(Shoved { id, chain })?;
    }
    Ok(shoves)
}

/// An offer of one wire between two items of a net, laid over items that it rips, or over one that it shoves.
#[derive(Clone, Copy)]
pub(crate) struct Join {
    pub base: u64,
    pub worker: u32,
    pub net: u32,
    pub from: u64,
    pub to: u64,
    pub wire: &'static [(u16, u16)],
    pub rip: &'static [u64],
    pub shove: Option<(u64, &'static [(u16, u16)])>,
}

/// That of worker 0 for the first net, from its first pin straight to its second.
pub(crate) fn along(base: u64) -> Join {
    Join {
        base,
        worker: 0,
        net: 0,
        from: 1,
        to: 2,
        wire: &[(1_000, 5_000), (9_000, 5_000)],
        rip: &[],
        shove: None,
    }
}

/// That of worker 1 for the second net, from its first pin straight to its second.
pub(crate) fn across(base: u64, rip: &'static [u64]) -> Join {
    Join {
        base,
        worker: 1,
        net: 1,
        from: 3,
        to: 4,
        wire: &[(5_000, 2_000), (5_000, 8_000)],
        rip,
        shove: None,
    }
}

/// The offer, as a board takes it.
pub(crate) fn offer_of(alloc: Global, join: &Join) -> Result<Offer, AllocError> {
    let rip = List::from_slice(alloc, join.rip)?;
    let shoves = shoved(alloc, join.shove)?;
    Ok(Offer {
        base: join.base,
        worker: join.worker,
        net: join.net,
        from: join.from,
        to: join.to,
        penalty: None,
        rip,
        shoves,
        add: wire(alloc, join.wire)?,
    })
}

/// Whether a board answers so to one offer after another.
pub(crate) fn answers(alloc: Global, board: &mut Board, steps: &[(Join, Answer)]) -> bool {
    for (join, want) in steps {
        let answer = match offer_of(alloc, join) {
            Ok(offer) => board.offer(offer).ok(),
            Err(_) => None,
        };
        if answer != Some(*want) {
            return false;
        }
    }
    true
}

/// Whether a board takes the first net's wire as item 5, with its first entry. Its design stays.
pub(crate) fn takes_first(alloc: Global, board: &mut Board) -> bool
    ensures { board.new.design ≡ board.old.design }
{
    let Ok(offer) = offer_of(alloc, &along(0)) else {
        return false;
    };
    match board.offer(offer) {
        Ok(answer) => answer == Answer::Committed { number: 1 },
        Err(_) => false,
    }
}

/// Whether these are the ids that stand on a board, of the first twenty.
pub(crate) fn stand(board: &Board, want: &[u64]) -> bool {
    for id in 0..20 {
        if board.items().item(id).is_some() != want.contains(&id) {
            return false;
        }
    }
    true
}
