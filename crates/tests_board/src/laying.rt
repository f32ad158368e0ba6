//! Small boards of texts, and the copper of their fixed items with one routed item.
//! Lengths in texts are in um.

ghost use Rattle.std.specs.Prelude.{◌≡◌, ◌++◌, ◌∷◌, [], IfOk, IfSome, length};
ghost use Rattle.pcb_model.specs.Sound.{IsSound, IsFreeSound, IsItemOf};
ghost use Rattle.tests_board.specs.Laying.{IsLaidOn};

use crate::board::made;
use crate::copper::{add_plain, fixed_list};
use pcb_model::{Design, FreeWire, Item, PlainCopper, copy_item};
use std::alloc::{AllocError, Global};

/// Two layers, and a wall on both between the pins of the first net; the second net has no pins. The free wiring is a
/// wire of the first net on the back from its left pin, and a via in its place.
pub(crate) const WALL: &str = "(pcb T
  (resolution um 10)
  (unit um)
  (structure
    (layer F.Cu (type signal))
    (layer B.Cu (type signal))
    (boundary (rect pcb 0 0 10000 10000))
    (via V)
    (keepout (rect signal 4900 0 5100 10000))
    (rule (width 200) (clearance 200)))
  (placement (component P
    (place C1 2000 5000 front 0)
    (place C2 8000 5000 front 0)))
  (library
    (image P (pin PAD 1 0 0))
    (padstack PAD (shape (circle F.Cu 1000)) (shape (circle B.Cu 1000)))
    (padstack V (shape (circle F.Cu 600)) (shape (circle B.Cu 600))))
  (network (net A (pins C1-1 C2-1)) (net B))
  (wiring
    (wire (path B.Cu 200 2000 5000 4000 5000) (net A) (type route))
    (via V 3000 7000 (net A) (type route))))";

/// One layer, and two nets whose pins lie across each other. The free wiring is the straight wire of the first net, and
/// that of the second.
pub(crate) const CROSS: &str = "(pcb U
  (resolution um 10)
  (unit um)
  (structure
    (layer F.Cu (type signal))
    (boundary (rect pcb 0 0 10000 10000))
    (rule (width 200) (clearance 200)))
  (placement (component P
    (place C1 1000 5000 front 0)
    (place C2 9000 5000 front 0)
    (place C3 5000 2000 front 0)
    (place C4 5000 8000 front 0)))
  (library
    (image P (pin PAD 1 0 0))
    (padstack PAD (shape (circle F.Cu 1000))))
  (network (net A (pins C1-1 C2-1)) (net B (pins C3-1 C4-1)))
  (wiring
    (wire (path F.Cu 200 1000 5000 9000 5000) (net A) (type route))
    (wire (path F.Cu 200 5000 2000 5000 8000) (net B) (type route))))";

/// A routed item, and the copper of a design's fixed items and that item.
#[derive(Drop)]
pub(crate) struct Routed {
    pub item: Item,
    pub copper: PlainCopper,
}

fn copper_with(alloc: Global, d: &Design, item: &Item) -> Result<PlainCopper, AllocError>
    requires sound { IsSound d.now }
    requires of { IsItemOf d.now item.now }
    requires id { item.now.id ≡ length d.now.fixed }
    ensures { IfOk result (λ copper. copper ≡ d.now.fixed ++ item.now ∷ []) }
{
    let mut copper = fixed_list(alloc, d)?;
    let copy = copy_item(alloc, item)?;
    add_plain(&mut copper, copy)?;
    Ok(copper)
}

fn lay(alloc: Global, d: &Design, free: &FreeWire) -> Result<Routed, AllocError>
    requires sound { IsSound d.now }
    requires free { IsFreeSound d.now free.now }
    ensures { IfOk result (λ laid. IsLaidOn d.now laid.item laid.copper) }
{
    let item = made(alloc, d, free, d.fixed.len() as u64)?;
    let copper = copper_with(alloc, d, &item)?;
    Ok(Routed { item, copper })
}

/// The routed item that the free wiring at a place makes, laid on the fixed items.
pub(crate) fn laid(alloc: Global, d: &Design, at: usize) -> Option<Routed>
    requires { IsSound d.now }
    ensures { IfSome result (λ laid. IsLaidOn d.now laid.item laid.copper) }
{
    let free = d.free.get(at)?;
    match lay(alloc, d, free) {
        Ok(laid) => Some(laid),
        Err(_) => None,
    }
}
