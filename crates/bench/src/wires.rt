//! A board of one layer and two nets with 1,000 wires of 1 mm, at 45 degrees.
//! Five lie within a millimetre of a step of net 0 from (0, 0) to (1 mm, 1 mm) and don't block it; the others are far.

ghost use Rattle.std.specs.Prelude.{◌≡◌, ◌++◌, ◌∷◌, [], ◌<◌, All, IfOk, IfSome, OnOk};
ghost use Rattle.pcb_model.specs.Bounds.{IsItemFit};
ghost use Rattle.pcb_model.specs.Plain.{IsPlainCopper};
ghost use Rattle.pcb_model.specs.Sound.{IsSound, Serves};

use dsn_design::read_design;
use pcb_model::{Design, Item, PlainCopper, copy_item};
use std::alloc::{AllocError, Global};

/// How many wires there are.
const WIRES: u32 = 1_000;

/// The board up to its wires.
const HEAD: &str = "(pcb wires (resolution um 10)
  (structure (layer F) (boundary (rect pcb -10000 -10000 220000 40000)) (rule (width 200) (clearance 200)))
  (network (net A) (net B))
  (wiring
";

/// Where wire `i` begins, in um: the first five beside the step, the others in rows of 100, from 10 mm on, 2 mm apart.
fn start(i: u32) -> (u32, u32) {
    if i < 5 {
        (i.saturating_mul(100).saturating_add(600), 0)
    } else {
        (after_ten_mm(i % 100), after_ten_mm(i / 100))
    }
}

/// So many steps of 2 mm after 10 mm, in um.
fn after_ten_mm(steps: u32) -> u32 {
    steps.saturating_mul(2_000).saturating_add(10_000)
}

fn add_wire(alloc: Global, text: &mut String, i: u32) -> Result<(), AllocError> {
    let (x, y) = start(i);
    let x1 = x.saturating_add(1_000);
    let y1 = y.saturating_add(1_000);
    let line = format!(in alloc; "    (wire (path F 200 {x} {y} {x1} {y1}) (net B) (type fix))\n")?;
    text.push_str(line.as_str())
}

fn board_text(alloc: Global) -> Result<String, AllocError> {
    let mut text = String::from_str(alloc, HEAD)?;
    for i in 0..WIRES {
        add_wire(alloc, &mut text, i)?;
    }
    text.push_str("  ))\n")?;
    Ok(text)
}

/// The design of a text of a million bytes at most; None where it is refused.
pub fn read_short(alloc: Global, text: &str) -> Option<Design>
    ensures sound { IfSome result IsSound }
    ensures plain { IfSome result IsPlainCopper }
{
    let bytes = text.as_bytes();
    if bytes.len() > 1_000_000 {
        return None;
    }
    match read_design(alloc, bytes) {
        Ok(d) => Some(d),
        Err(_) => None,
    }
}

/// The board; None where memory is wanting.
pub fn board(alloc: Global) -> Option<Design>
    ensures { IfSome result IsSound }
{
    match board_text(alloc) {
        Ok(text) => read_short(alloc, text.as_str()),
        Err(_) => None,
    }
}

fn add_item(copper: &mut PlainCopper, item: Item) -> Result<(), AllocError>
    requires above { All (λ b. b.id < item.id) copper.old }
    requires fits { IsItemFit item }
    ensures { OnOk result (copper.new ≡ copper.old ++ item ∷ []) }
{
    match copper.add(item) {
        Ok(()) => Ok(()),
        Err((_, e)) => Err(e),
    }
}

/// The copper of a design's fixed items.
pub fn fixed_copper(alloc: Global, d: &Design) -> Result<PlainCopper, AllocError>
    requires { IsSound d.now }
    ensures { IfOk result (λ copper. Serves copper d.now) }
{
    let mut copper = PlainCopper::new(alloc);
    for item in d.fixed.as_slice() {
        let copy = copy_item(alloc, item)?;
        add_item(&mut copper, copy)?;
    }
    Ok(copper)
}
