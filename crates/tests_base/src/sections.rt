//! A board with several sections of each kind, and what its readers hold of it, one after another.
//! The values are worked out by hand. Lengths are in nm; indices count from 0.

ghost use Rattle.dsn_shapes.specs.Within.{IsLibraryWithin};

use crate::of_placement::has_copper;
use crate::of_shapes::has_forms;
use dsn_library::read_library;
use dsn_network::{read_network, split_pin};
use dsn_placement::read_placement;
use dsn_shapes::{Library, Network, PinRef, Placing, Split, Structure, Wiring};
use dsn_structure::read_structure;
use dsn_tree::{Tree, read_tree};
use dsn_units::Scale;
use dsn_wiring::read_wiring;
use geo_kernel::List;
use std::alloc::Global;
use std::process::Abort;

/// The numbers of the board are micrometres.
pub(crate) const UM: Scale = Scale { nm: 1_000 };

/// The board. Its layers are F.Cu, the power layer GND, and B.Cu.
const BOARD: &str = "(pcb b
  (structure (layer F.Cu (type signal) (property (index 0))) (layer GND (type Power))
    (boundary (rect pcb 0 0 10 20)) (plane GND (qarc)) (via V (spare X) W)
    (rule (width 250) (clearance 200.1))
    (keepout \"\" (note) (polygon F.Cu 5 0 0 9 0 9 9)
      (window (rect F.Cu 1 1 2 2) (x)) (window (path F.Cu 7 3 3 4 3 4 4))))
  (structure (layer B.Cu (type jumper)) (via V)
    (control (via_at_smd off) (z)) (control (via_at_smd on)) (place_control (flip_style rotate_first))
    (via_keepout (circle signal 5)) (wire_keepout (circle B.Cu 5))
    (boundary (path pcb 1 0 0 9 0 9 9 0 0) (rect pcb 1 1 2 2))
    (rule (width 9) (clearance 50 (type smd_smd)) (clearance 6 (type default_smd))
      (clearance 7 (type default_wire)) (width 0.3) (z)) (z))
  (placement (component R (place R1 140000 -115000 back 90 (PN 100n)) (place R3)) (place_control (x)) (z))
  (placement (component R (place R2 1.5 2 FRONT -90) (z))
    (component J (place J 0 0 front 0) (place K 0 0 front 0)) (component R (place J-1 0 0 front 0)))
  (library (image R (pin P (rotate 90) 1 -800 0) (pin P 2 800 0.5)
    (via_keepout (circle F.Cu 5 -2 0)) (outline) (z)) (z))
  (library (image J (pin P 1-2 0 0)) (padstack V) (padstack W)
    (padstack P (shape (circle F.Cu 0.01 1 0) (z)) (attach off) (z)))
  (network (net GND (pins R1-1 R2-2) (rule (width 0.3)) (pins R1-1) (z))
    (class one \"\" GND NO VCC (rule (clearance 0.2)) (circuit (use_via W V) (z))))
  (network (class two VCC (rule (width 400))) (z) (net VCC (pins J-1-1)) (class three) (net \"\")
    (class_class (classes one two) (rule (clearance 0.4) (z)) (z)) (class two))
  (network (class_class (classes two (z) two) (rule (clearance 6 (type via_smd)) (clearance 7 (type hole_via)))))
  (wiring (wire (path F.Cu 200 0 0 1 1) (net GND) (type fix)) (via V 3 4 (net VCC) (x)) (z))
  (wiring (via V 5 6 9) (wire (type route) (net VCC) (path B.Cu 0.25 0 0 2 0 (q) 2 2) (net GND) (type fix))
    (Via P 0 0 (net \"\") (type Protect))))";

/// Whether there are so many layers, padstacks of vias, boundaries and keepouts, and the last width and clearance.
fn is_structure(s: &Structure) -> bool {
    (s.layers.len(), s.vias.len()) == (3, 3)
        && (s.bounds.len(), s.bans.len()) == (2, 3)
        && (s.rules.width, s.rules.plain) == (Some(300), Some(200_100))
        // A plane, (note), (x), three (z) and a clearance for a pair of kinds that isn't known.
        && s.notes == 7
}

/// Whether there are so many padstacks and images, and each (z) of an image, a library, a shape and a padstack.
fn is_library(library: &Library) -> bool {
    (library.stacks.len(), library.images.len(), library.notes) == (3, 2, 4)
}

/// Whether there are so many components, and each (z) of a section and of a component.
fn is_placing(placing: &Placing) -> bool {
    (placing.places.len(), placing.notes) == (6, 2)
}

/// Whether there are so many nets, classes and class pairs, and notes of two (z) in lists, of a net that a class names
/// and that isn't there, of a (z) in a section, of one in a class pair and one in its rule, and of a clearance for a
/// pair of kinds that isn't known.
fn is_network(network: &Network) -> bool {
    (network.nets.len(), network.classes.len()) == (3, 4)
        && (network.pairs.len(), network.notes) == (5, 7)
}

/// The classes of each pair, its plain clearance, and how many it has for pairs of kinds: two class lists have the name
/// `two`, so that a pair of it with `one` is two pairs, and with itself three.
static PAIRS: [(u32, u32, Option<u64>, usize); 5] = [
    (0, 1, Some(400), 0),
    (0, 3, Some(400), 0),
    (1, 1, None, 1),
    (1, 3, None, 1),
    (3, 3, None, 1),
];

/// Whether pair `i` is so.
fn is_pair(network: &Network, i: usize, wanted: (u32, u32, Option<u64>, usize)) -> bool {
    let (a, b, plain, typed) = wanted;
    match network.pairs.get(i) {
        Some(pair) => {
            (pair.a, pair.b) == (a, b)
                && pair.rules.plain == plain
                && pair.rules.typed.len() == typed
        }
        None => false,
    }
}

/// Whether the class pairs are those of the table.
fn are_pairs(network: &Network) -> bool {
    for (i, wanted) in PAIRS.iter().enumerate() {
        if !is_pair(network, i, *wanted) {
            return false;
        }
    }
    true
}

/// Whether there are so many wires and vias, and each list in a via and in a section.
fn is_wiring(wiring: &Wiring) -> bool {
    (wiring.wires.len(), wiring.notes) == (5, 2)
}

/// Whether a reference to a pin is split so.
fn is_split(
    alloc: Global,
    library: &Library,
    placing: &Placing,
    text: &str,
    wanted: Split,
) -> bool {
    match List::from_slice(alloc, text.as_bytes()) {
        Ok(text) => split_pin(&text, library, placing) == wanted,
        Err(_) => false,
    }
}

static SPLITS: [(&str, Split); 6] = [
    ("R1-2", Split::One(PinRef { place: 0, pin: 1 })),
    ("J-1-1", Split::One(PinRef { place: 5, pin: 0 })),
    ("K-1-2", Split::One(PinRef { place: 4, pin: 0 })),
    ("J-1-2", Split::Many),
    ("J-2", Split::Unknown),
    ("R1", Split::Unknown),
];

/// Whether each reference is split at each of its hyphens.
fn are_split(alloc: Global, library: &Library, placing: &Placing) -> bool {
    for &(text, wanted) in &SPLITS {
        if !is_split(alloc, library, placing, text, wanted) {
            return false;
        }
    }
    true
}

// ---- the readers, each over what those before it hold

/// Whether so it is of the components, nets and wiring of the board.
fn holds_the_rest<R: Abort>(
    rt: &R,
    alloc: Global,
    tree: &Tree,
    structure: &Structure,
    library: &Library,
) -> bool
    requires { IsLibraryWithin library.now }
{
    let placing = read_placement(alloc, tree, UM, structure, library).ok();
    let placing = placing.expect(rt, "no placement");
    let network = read_network(alloc, tree, UM, library, &placing).ok();
    let network = network.expect(rt, "no network");
    let wiring = read_wiring(alloc, tree, UM, structure, library, &placing, &network).ok();
    let wiring = wiring.expect(rt, "no wiring");
    is_placing(&placing)
        && are_split(alloc, library, &placing)
        && is_network(&network)
        && are_pairs(&network)
        && is_wiring(&wiring)
}

#[test]
fn each_reader_holds_what_stands_in_all_its_sections_of_the_board(rt: HostRuntime) {
    let alloc = rt.alloc();
    let tree = read_tree(alloc, BOARD.as_bytes())
        .ok()
        .expect(&rt, "no tree");
    let structure = read_structure(alloc, &tree, UM)
        .ok()
        .expect(&rt, "no structure");
    let Ok(library) = read_library(alloc, &tree, UM, &structure.layers) else {
        panic!(rt; "no library");
    };
    assert!(rt; is_structure(&structure) && has_forms(&rt, alloc, &structure.layers));
    assert!(rt; is_library(&library) && has_copper(alloc, &library));
    assert!(rt; holds_the_rest(&rt, alloc, &tree, &structure, &library));
}
