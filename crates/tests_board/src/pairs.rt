//! When two items agree, and when routed copper lies as its net and the board want it.
//! Lengths in the texts are in um, all others in nm.

ghost use Rattle.std.specs.Prelude.{◌≡◌, ◌<◌};
ghost use Rattle.pcb_model.specs.Bounds.{IsDesignFit, IsItemFit, IsProbeFit};
ghost use Rattle.pcb_model.specs.Sound.{IsSound};

use self::Said::{Far, Lies, Meet};
use crate::board::{Says, fixed, held, probe, routed};
use pcb_model::{
    Design, Extent, Item, Probe, Steps, inside_board, pair_ok, probe_inside, probe_ok, touch,
    width_ok,
};
use std::alloc::Global;
use std::marker::Brand;
use std::sync::ledger::{Blank, Ledger};

fn agree_counting<L: Ledger>(d: &Design, a: &Item, p: &Probe, b: &Item, blank: Blank) -> [bool; 2]
    requires name { blank.name ≡ L.name }
    requires parts { blank.parts ≡ L.parts }
    requires whole { 0 < blank.parts }
    requires design { IsDesignFit d.now }
    requires a_fits { IsItemFit a.now }
    requires p_fits { IsProbeFit d.now p.now }
    requires b_fits { IsItemFit b.now }
{
    let mut steps: Steps<L> = Steps::new(blank);
    let agree = pair_ok(d, a, b, &mut steps);
    [agree, probe_ok(d, 0, p, b, &mut steps)]
}

/// Whether free wiring of net 0 agrees with an item, and whether the rules let its probe be laid beside the item.
fn agree(d: &Design, a: &Item, p: &Probe, b: &Item) -> [bool; 2]
    requires design { IsDesignFit d.now }
    requires a_fits { IsItemFit a.now }
    requires p_fits { IsProbeFit d.now p.now }
    requires b_fits { IsItemFit b.now }
{
    agree_counting::<Brand>(d, a, p, b, Blank::new(1))
}

/// Whether their extents show that wiring, and its probe, and an item keep each clearance up to 999 nm.
fn are_far(d: &Design, a: &Item, p: &Probe, b: &Item) -> [bool; 2]
    requires design { IsDesignFit d.now }
    requires a_fits { IsItemFit a.now }
    requires p_fits { IsProbeFit d.now p.now }
    requires b_fits { IsItemFit b.now }
{
    let around = Extent::of_item(b);
    [
        Extent::of_item(a).is_far_from(&around, 999),
        Extent::of_probe(d, p).is_far_from(&around, 999),
    ]
}

/// What free wiring and a fixed item are to each other.
#[derive(Clone, Copy)]
struct Meeting {
    touch: bool,
    agree: [bool; 2],
    far: [bool; 2],
    inside: [bool; 2],
    laid: bool,
}

fn meet(d: &Design, a: &Item, p: &Probe, b: &Item) -> Meeting
    requires design { IsDesignFit d.now }
    requires a_fits { IsItemFit a.now }
    requires p_fits { IsProbeFit d.now p.now }
    requires b_fits { IsItemFit b.now }
{
    Meeting {
        touch: touch(a, b),
        agree: agree(d, a, p, b),
        far: are_far(d, a, p, b),
        inside: [inside_board(d, a), probe_inside(d, p)],
        laid: width_ok(d, a),
    }
}

fn meet_at(alloc: Global, d: &Design, free: usize, item: usize) -> Option<Meeting>
    requires { IsSound d.now }
{
    let p = probe(d, free)?;
    let b = fixed(d, item)?;
    let a = routed(alloc, d, free, 1_000)?;
    Some(meet(d, &a, &p, b))
}

/// What a test says of free wiring of net 0 and a fixed item.
enum Said {
    /// Whether they touch, and whether they agree, as does the wiring's probe.
    Meet(bool, bool),
    /// Whether the wiring, and its probe, are far from the item.
    Far(bool),
    /// Whether the wiring and its probe lie inside the board, and whether it lies as its net wants it.
    Lies(bool, bool),
}

/// The places of free wiring and a fixed item, and what is said of them.
struct Pair(usize, usize, Said);

impl Says for Pair {
    fn holds(&self, alloc: Global, d: &Design) -> bool {
        match (meet_at(alloc, d, self.0, self.1), &self.2) {
            (Some(met), Meet(touch, agree)) => met.touch == *touch && met.agree == [*agree; 2],
            (Some(met), Far(far)) => met.far == [*far; 2],
            (Some(met), Lies(inside, laid)) => { met.inside == [*inside; 2] && met.laid == *laid }
            (None, _) => false,
        }
    }
}

// ---- wires

/// Of the fixed wires 1 to 5 three lie beside free wire 0, and two cross it; fixed 6 to 8 lie at free via 1.
const WIRES: &str = "(pcb wires
  (resolution um 10)
  (structure
    (layer F (type signal)) (layer B (type signal))
    (boundary (rect pcb 0 0 100000 100000))
    (via V) (rule (width 200) (clearance 200)))
  (library (padstack V (shape (circle F 600)) (shape (circle B 600))))
  (network (net GND) (net VCC))
  (wiring
    (wire (path F 200 10000 10000 20000 10000) (net GND))
    (via V 50000 50000 (net GND))
    (wire (path F 200 10000 10400 20000 10400) (net VCC) (type fix))
    (wire (path F 200 10000 10399.9 20000 10399.9) (net VCC) (type fix))
    (wire (path F 200 10000 10399.9 20000 10399.9) (net GND) (type fix))
    (wire (path F 200 15000 5000 15000 15000) (net VCC) (type fix))
    (wire (path B 200 15000 5000 15000 15000) (net VCC) (type fix))
    (via V 50601 50000 (net VCC) (type fix))
    (via V 50600.999 50000 (net VCC) (type fix))
    (wire (path B 200 50000 40000 50000 60000) (net VCC) (type fix))))";

const AT_WIRES: [Pair; 10] = [
    // Wires keep their clearance and half of each width, and items meet on each layer that both have.
    Pair(0, 1, Meet(false, true)),
    Pair(0, 2, Meet(false, false)),
    Pair(0, 3, Meet(false, true)),
    Pair(0, 4, Meet(true, false)),
    Pair(0, 5, Meet(false, true)),
    Pair(1, 8, Meet(true, false)),
    // Items are far where their boxes or layers are.
    Pair(1, 6, Far(true)),
    Pair(1, 7, Far(false)),
    Pair(0, 4, Far(false)),
    Pair(0, 5, Far(true)),
];

// ---- vias at pads

/// An smd pad of GND, and two vias of its net: one on it, and one beside it.
const PAD: &str = "(pcb pad
  (resolution um 10)
  (structure
    (layer F (type signal)) (layer B (type signal))
    (boundary (rect pcb 0 0 10000 10000))
    (via V) (rule (width 200) (clearance 200)))
  (placement (component I (place C1 5000 5000 front 0)))
  (library
    (image I (pin S 1 0 0))
    (padstack S (shape (circle F 1000)))
    (padstack V (shape (circle F 600)) (shape (circle B 600))))
  (network (net GND (pins C1-1)))
  (wiring (via V 5000 5000 (net GND)) (via V 5801 5000 (net GND))))";

/// The same with leave for vias at smd pads.
const OPEN_PAD: &str = "(pcb pad
  (resolution um 10)
  (structure
    (layer F (type signal)) (layer B (type signal))
    (boundary (rect pcb 0 0 10000 10000))
    (via V) (rule (width 200) (clearance 200)) (control (via_at_smd on)))
  (placement (component I (place C1 5000 5000 front 0)))
  (library
    (image I (pin S 1 0 0))
    (padstack S (shape (circle F 1000)))
    (padstack V (shape (circle F 600)) (shape (circle B 600))))
  (network (net GND (pins C1-1)))
  (wiring (via V 5000 5000 (net GND))))";

const AT_PAD: [Pair; 2] = [Pair(0, 1, Meet(true, false)), Pair(1, 1, Meet(false, true))];

// ---- widths, layers and padstacks

/// Free wiring of one net; it is inside, and padstack W isn't in the list of vias.
const LAID: &str = "(pcb laid
  (resolution um 10)
  (structure
    (layer F (type signal)) (layer P (type power)) (layer B (type signal))
    (boundary (rect pcb -100 -100 100 100))
    (via V) (rule (width 200) (clearance 200)))
  (library
    (padstack V (shape (circle F 600)) (shape (circle B 600)))
    (padstack W (shape (circle F 600)) (shape (circle B 600))))
  (network (net GND))
  (wiring
    (wire (path F 200 0 0 90 0) (net GND))
    (wire (path B 200.001 0 0 90 0) (net GND))
    (wire (path F 199.999 0 0 90 0) (net GND))
    (wire (path P 200 0 0 90 0) (net GND))
    (via V 7 -5 (net GND))
    (via W 7 -5 (net GND))))";

/// Wires lie wide enough on signal layers, and vias are of a listed padstack.
const LYING: [Pair; 6] = [
    Pair(0, 0, Lies(true, true)),
    Pair(1, 0, Lies(true, true)),
    Pair(2, 0, Lies(true, false)),
    Pair(3, 0, Lies(true, false)),
    Pair(4, 0, Lies(true, true)),
    Pair(5, 0, Lies(true, false)),
];

// ---- the board's edge

/// Wires beside the left edge, within the clearance of it or not, inside and outside.
const EDGE: &str = "(pcb edge
  (resolution um 10)
  (structure
    (layer F (type signal))
    (boundary (rect pcb 0 0 10000 10000))
    (rule (width 200) (clearance 200)))
  (network (net GND))
  (wiring
    (wire (path F 200 300 1000 300 2000) (net GND))
    (wire (path F 200 299.9 1000 299.9 2000) (net GND))
    (wire (path F 200 -299.9 1000 -299.9 2000) (net GND))
    (wire (path F 200 -300 1000 -300 2000) (net GND))))";

const AT_EDGE: [Pair; 8] = [
    Pair(0, 0, Lies(true, true)),
    Pair(1, 0, Lies(true, true)),
    Pair(2, 0, Lies(false, true)),
    Pair(3, 0, Lies(false, true)),
    Pair(0, 0, Meet(false, true)),
    Pair(1, 0, Meet(false, false)),
    Pair(2, 0, Meet(false, false)),
    Pair(3, 0, Meet(false, true)),
];

// ---- keepouts

/// Three keepouts of one place; free are a wire and a via in them, and a via beside them.
const KEEPOUTS: &str = "(pcb keepouts
  (resolution um 10)
  (structure
    (layer F (type signal)) (layer B (type signal))
    (boundary (rect pcb 0 0 100000 100000))
    (keepout (rect F 20000 20000 30000 30000))
    (wire_keepout (rect F 20000 20000 30000 30000))
    (via_keepout (rect F 20000 20000 30000 30000))
    (via V) (rule (width 200) (clearance 200)))
  (library (padstack V (shape (circle F 600)) (shape (circle B 600))))
  (network (net GND))
  (wiring
    (wire (path F 200 15000 22000 35000 22000) (net GND))
    (via V 22000 22000 (net GND))
    (via V 30500 25000 (net GND))))";

const BANNED: [Pair; 7] = [
    Pair(0, 1, Meet(true, false)),
    Pair(1, 1, Meet(true, false)),
    Pair(2, 1, Meet(false, true)),
    Pair(0, 2, Meet(true, false)),
    Pair(1, 2, Meet(true, true)),
    Pair(0, 3, Meet(true, true)),
    Pair(1, 3, Meet(true, false)),
];

// ---- all

/// Wires and vias agree by their clearance and layers. Routed copper lies as its net wants it, inside, and keeps from
/// the edge. A via stays off an smd pad unless it is allowed, and copper off keepouts that name it.
static BOARDS: [(&str, &[Pair]); 6] = [
    (WIRES, &AT_WIRES),
    (LAID, &LYING),
    (EDGE, &AT_EDGE),
    (PAD, &AT_PAD),
    (OPEN_PAD, &[Pair(0, 1, Meet(true, true))]),
    (KEEPOUTS, &BANNED),
];

#[test]
fn items_agree_by_their_rules_and_routed_copper_lies_as_its_net_wants_it(rt: HostRuntime) {
    for &(text, rows) in &BOARDS {
        let count = held(rt.alloc(), text, rows);
        assert!(rt; count == rows.len() as u64, "{count} rows hold of {text}");
    }
}
