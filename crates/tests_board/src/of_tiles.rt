//! Tiles beside a plain list of the same items, as items are added, taken out and put back.
//! All free wiring is laid; then each third item is taken out, and each second of these is put back at once.

ghost use Rattle.std.specs.Prelude.{IfSome};
ghost use Rattle.pcb_model.specs.Sound.{IsSound, Serves};
ghost use Rattle.pcb_tiles.specs.Spread.{ServesSpread};

use crate::board::board;
use crate::copper::{fixed_plain, fixed_tiles, lay, lay_plain, put_back, take_out};
use crate::same::same;
use geo_kernel::Rect4;
use pcb_model::{Design, PlainCopper};
use pcb_tiles::Tiles;
use std::alloc::Global;
use std::process::Abort;

/// A board of 12 mm by 12 mm with two layers, two nets, a via and two pins, and four wires and three vias as its free
/// wiring, of which some cross and some are near.
const BOARD: &str = "(pcb board
  (resolution um 10)
  (structure
    (layer F (type signal))
    (layer B (type signal))
    (boundary (rect pcb 0 0 12000 12000))
    (via V)
    (rule (width 200) (clearance 200)))
  (placement (component P (place C1 2000 5000 front 0) (place C2 8000 5000 front 0)))
  (library
    (image P (pin PAD 1 0 0))
    (padstack PAD (shape (circle F 1000)) (shape (circle B 1000)))
    (padstack V (shape (circle F 600)) (shape (circle B 600))))
  (network (net A (pins C1-1)) (net M (pins C2-1)))
  (wiring
    (wire (path F 200 1500 3000 4000 3000) (net A) (type route))
    (via V 3000 7000 (net M) (type route))
    (wire (path B 200 2500 2000 2500 6000) (net M) (type route))
    (via V 2700 3000 (net A) (type route))
    (wire (path F 200 5000 1000 9000 5000) (net M) (type route))
    (wire (path B 200 7000 2000 7000 9000) (net A) (type route))
    (via V 11500 11500 (net A) (type route))))";

fn id_of(d: &Design, at: usize) -> u64 {
    (d.fixed.len() as u64).saturating_add(at as u64)
}

/// The plain list of all free wiring, or of what is held at the end.
fn plain_of(alloc: Global, d: &Design, all: bool) -> Option<PlainCopper>
    requires { IsSound d.now }
    ensures { IfSome result (λ copper. Serves copper d.now) }
{
    let mut copper = fixed_plain(alloc, d).ok()?;
    for at in 0..d.free.len() {
        if all || at % 3 != 1 || at % 6 == 1 {
            lay_plain(alloc, d, &mut copper, at, id_of(d, at))?;
        }
    }
    Some(copper)
}

fn lay_all(alloc: Global, d: &Design, tiles: &mut Tiles) -> Option<()>
    requires sound { IsSound d.now }
    requires serves { ServesSpread tiles.old d.now }
    ensures { IfSome result (λ _. ServesSpread tiles.new d.now) }
{
    for at in 0..d.free.len() {
        lay(alloc, d, tiles, at, id_of(d, at))?;
    }
    Some(())
}

/// Takes each third item out, and puts each second of these back.
fn change(alloc: Global, d: &Design, tiles: &mut Tiles) -> Option<()>
    requires sound { IsSound d.now }
    requires serves { ServesSpread tiles.old d.now }
    ensures { IfSome result (λ _. ServesSpread tiles.new d.now) }
{
    for at in 0..d.free.len() {
        if at % 3 == 1 {
            take_out(d, tiles, id_of(d, at))?;
        }
        if at % 6 == 1 {
            put_back(alloc, d, tiles, at, id_of(d, at))?;
        }
    }
    Some(())
}

/// Whether the tiles answer as the plain list of all free wiring does, or of what is held at the end.
fn is_as_plain(alloc: Global, d: &Design, tiles: &Tiles, all: bool) -> bool
    requires sound { IsSound d.now }
    requires serves { ServesSpread tiles.now d.now }
{
    match plain_of(alloc, d, all) {
        Some(plain) => same(alloc, &plain, tiles, d),
        None => false,
    }
}

/// The area leaves a part of the board out, and with it some of the items.
const AREA: Rect4 = Rect4 {
    x0: 1_000_000,
    y0: -500_000,
    x1: 9_000_000,
    y1: 11_000_000,
};

/// A share of tiles, which serves as they do.
fn shared(d: &Design, tiles: &Tiles) -> Option<Tiles>
    requires { ServesSpread tiles.now d.now }
    ensures { IfSome result (λ t. ServesSpread t d.now) }
{
    match tiles.share() {
        Ok(share) => Some(share),
        Err(_) => None,
    }
}

/// Whether a share of tiles with all free wiring, that is changed, answers as a plain list, and the tiles that it was
/// shared from, which are asked at the end.
fn answers<R: Abort>(rt: &R, alloc: Global) -> [bool; 2] {
    let d = board(alloc, BOARD).expect(rt, "no board");
    let mut laid = fixed_tiles(alloc, &d, AREA).expect(rt, "no tiles");
    lay_all(alloc, &d, &mut laid).expect(rt, "not laid");
    let mut tiles = shared(&d, &laid).expect(rt, "no share");
    change(alloc, &d, &mut tiles).expect(rt, "not changed");
    [
        is_as_plain(alloc, &d, &tiles, false),
        is_as_plain(alloc, &d, &laid, true),
    ]
}

#[test]
fn tiles_and_their_shares_answer_as_plain_lists_do(rt: HostRuntime) {
    assert_eq!(rt; answers(&rt, rt.alloc()), [true; 2]);
}
