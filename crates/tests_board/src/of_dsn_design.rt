//! Designs of two boards from outside, with the values that they hold.
//! Lengths in the texts are in um, all others in nm.

use crate::board::{Says, held};
use geo_kernel::{Point, Spine};
use pcb_model::{Design, Item, Kind, Metal, Piece};
use std::alloc::Global;

/// A board as KiCad writes it, with a component on the back, a plane and a protected wire.
const KICAD: &str = "(pcb \"K board.dsn\"
  (parser (string_quote \") (space_in_quoted_tokens on)
    (host_cad \"KiCad's Pcbnew\") (host_version \"8.0.1\"))
  (resolution um 10)
  (unit um)
  (structure
    (layer F.Cu (type signal) (property (index 0)))
    (layer B.Cu (type signal) (property (index 1)))
    (boundary (path pcb 0 100000 -100000 150000 -100000 150000 -130000
      100000 -130000 100000 -100000))
    (plane GND (polygon B.Cu 0 101000 -101000 149000 -101000 149000 -129000 101000 -129000))
    (via \"Via[0-1]_800:400_um\")
    (rule (width 250) (clearance 200.1) (clearance 200.1 (type default_smd))
      (clearance 50 (type smd_smd))))
  (placement
    (component Conn:J2 (place J1 105000.000000 -105000.000000 front 0.000000 (PN J2)))
    (component \"R:0603\"
      (place R1 125000 -105000 front 0 (PN 10k))
      (place R2 125000 -125000 front 0 (PN 10k))
      (place C1 140000 -115000 back 90 (PN 100n))))
  (library
    (image Conn:J2 (pin Round[A]Pad_1700_um 1 0 0) (pin Round[A]Pad_1700_um 2 0 -20000))
    (image \"R:0603\" (outline (path signal 120 -800 400 800 400))
      (pin Rect[T]Pad_800x900_um 1 -800 0)
      (pin Rect[T]Pad_800x900_um (rotate 180) 2 800 0))
    (padstack Round[A]Pad_1700_um (shape (circle F.Cu 1700)) (shape (circle B.Cu 1700)) (attach off))
    (padstack Rect[T]Pad_800x900_um
      (shape (polygon F.Cu 0 -400 -450 400 -450 400 450 -400 450 -400 -450)) (attach off))
    (padstack \"Via[0-1]_800:400_um\" (shape (circle F.Cu 800)) (shape (circle B.Cu 800)) (attach off)))
  (network
    (net GND (pins J1-1 R1-1))
    (net VCC (pins J1-2 R2-1))
    (net SIG (pins R1-2 C1-1))
    (net OUT (pins R2-2 C1-2))
    (class kicad_default \"\" GND VCC SIG OUT
      (circuit (use_via \"Via[0-1]_800:400_um\"))
      (rule (width 250) (clearance 200.1))))
  (wiring (wire (path F.Cu 250 124200 -125000 120000 -125000)(net VCC)(type protect))))";

/// A board with each kind of item: two loops in one boundary, keepouts of the board and of an image, a component that
/// isn't placed, one on the back, and wiring that is fixed, free, or without a net. Each item is worked out by hand.
const SMALL: &str = "(pcb b
  (resolution um 10)
  (structure
    (layer F (type signal)) (layer P (type power)) (layer B (type signal))
    (boundary (rect pcb 0 0 100 100) (path pcb 2 40 40 60 40 60 60 40 40))
    (via_keepout (circle P 4 5 5)) (keepout k (rect F 1 1 2 2))
    (via V T) (rule (width 3) (clearance 1)))
  (placement (component I (place C1 10 20 front 0) (place C2) (place C3 30 20 back 0)))
  (library
    (image I (pin S 1 0 0) (pin T 2 5 0) (wire_keepout (rect F 1 2 3 4)))
    (padstack S (shape (circle F 2))) (padstack T (shape (circle F 2 9 9)) (shape (circle B 2)))
    (padstack V (shape (circle signal 2))))
  (network (net A (pins C1-1 C3-2 C1-1)) (net N)
    (class c A N (circuit (use_via T))) (class d A (circuit (use_via V V))))
  (wiring (wire (path F 4 1 1 9 1) (net A)) (via V 10 20 (net A) (type fix)) (wire (path B 4 1 1 9 1))
    (via T 3 4 (net N) (type PROTECT)) (via V 50 50 (net N) (type route))))";

/// What a test says of a design.
enum Told {
    /// How many notes, components, pins, fixed items and free wiring there are.
    Counts([u64; 5]),
    /// The net of a pin, whether it is surface-mounted, and its centre.
    Pin(usize, Option<u32>, bool, Point),
    /// The pins and the vias of a net.
    Net(usize, &'static [u32], &'static [u32]),
    /// The kind and the net of a fixed item, what it bans, and its pieces.
    Fixed(usize, Kind, Option<u32>, Option<(bool, bool)>, (u64, u64, usize)),
    /// The place in the text and the net of free wiring, and what it is made of.
    Free(usize, u64, u32, (u32, u64, Point)),
}

fn layers(pieces: &[Piece]) -> u64 {
    let mut digits = 0u64;
    for piece in pieces {
        digits = digits
            .wrapping_mul(10)
            .wrapping_add(1)
            .wrapping_add(piece.layer as u64);
    }
    digits
}

fn vertices(spine: &Spine) -> usize {
    match spine {
        Spine::Chain(points) => points.len(),
        Spine::Area(loops) => match loops.as_slice() {
            [points] => points.len(),
            _ => 0,
        },
    }
}

/// The layers of pieces, counted from 1, as the digits of a number, and the width and the count of vertices of the
/// last.
fn summary(pieces: &[Piece]) -> (u64, u64, usize) {
    match pieces {
        [.., last] => (layers(pieces), last.width, vertices(&last.spine)),
        _ => (0, 0, 0),
    }
}

/// Whether a fixed item bans wires, and whether it bans vias.
fn bans(item: &Item) -> Option<(bool, bool)> {
    match &item.metal {
        Metal::Ban { wires, vias } => Some((*wires, *vias)),
        _ => None,
    }
}

/// Of free wiring the layer or the padstack, the width of a wire, and the first vertex.
fn metal_of(metal: &Metal) -> Option<(u32, u64, Point)> {
    match metal {
        Metal::Wire {
            layer,
            width,
            chain,
        } => Some((*layer as u32, *width, *chain.get(0)?)),
        Metal::Via { padstack, at } => Some((*padstack, 0, *at)),
        _ => None,
    }
}

impl Says for Told {
    fn holds(&self, _alloc: Global, d: &Design) -> bool {
        match self {
            Told::Counts(counts) => {
                *counts
                    == [
                        d.notes,
                        d.components.len() as u64,
                        d.pins.len() as u64,
                        d.fixed.len() as u64,
                        d.free.len() as u64,
                    ]
            }
            Told::Pin(at, net, smd, centre) => match d.pins.get(*at) {
                Some(pin) => pin.net == *net && pin.smd == *smd && pin.centre == *centre,
                None => false,
            },
            Told::Net(at, pins, vias) => match d.nets.get(*at) {
                Some(net) => net.pins.as_slice() == *pins && net.vias.as_slice() == *vias,
                None => false,
            },
            Told::Fixed(at, kind, net, ban, pieces) => match d.fixed.get(*at) {
                Some(item) => {
                    item.kind == *kind
                        && item.net == *net
                        && bans(item) == *ban
                        && summary(item.pieces.as_slice()) == *pieces
                }
                None => false,
            },
            Told::Free(at, place, net, metal) => match d.free.get(*at) {
                Some(free) => {
                    free.at == *place && free.net == *net && metal_of(&free.metal) == Some(*metal)
                }
                None => false,
            },
        }
    }
}

static OF_KICAD: [Told; 7] = [
    Told::Counts([1, 4, 8, 10, 0]),
    Told::Pin(
        0,
        Some(0),
        false,
        Point {
            x: 105_000_000,
            y: -105_000_000,
        },
    ),
    Told::Pin(
        3,
        Some(2),
        true,
        Point {
            x: 125_800_000,
            y: -105_000_000,
        },
    ),
    Told::Pin(
        6,
        Some(2),
        true,
        Point {
            x: 140_000_000,
            y: -114_200_000,
        },
    ),
    Told::Pin(
        7,
        Some(3),
        true,
        Point {
            x: 140_000_000,
            y: -115_800_000,
        },
    ),
    Told::Net(0, &[0, 2], &[2]),
    Told::Net(3, &[5, 7], &[2]),
];

#[test]
fn a_board_of_kicad(rt: HostRuntime) {
    assert_eq!(rt; held(rt.alloc(), KICAD, &OF_KICAD), 7);
}

/// The fixed items are in the order of their ids, and a net has the vias of its last class.
static OF_SMALL: [Told; 16] = [
    Told::Net(0, &[0, 3], &[2, 2]),
    Told::Net(1, &[], &[]),
    Told::Fixed(0, Kind::Area, None, Some((true, true)), (123_123, 2_000, 4)),
    Told::Fixed(1, Kind::Area, None, Some((false, true)), (2, 4_000, 1)),
    Told::Fixed(2, Kind::Area, None, Some((true, true)), (1, 0, 4)),
    Told::Fixed(3, Kind::Area, None, Some((true, false)), (1, 0, 4)),
    Told::Fixed(4, Kind::Smd, Some(0), None, (1, 2_000, 1)),
    Told::Fixed(5, Kind::Pin, None, None, (13, 2_000, 1)),
    Told::Fixed(6, Kind::Area, None, Some((true, false)), (3, 0, 4)),
    Told::Fixed(7, Kind::Smd, None, None, (3, 2_000, 1)),
    Told::Fixed(8, Kind::Pin, Some(0), None, (31, 2_000, 1)),
    Told::Fixed(9, Kind::Via, Some(0), None, (13, 2_000, 1)),
    Told::Fixed(10, Kind::Wire, None, None, (3, 4_000, 2)),
    Told::Fixed(11, Kind::Via, Some(1), None, (13, 2_000, 1)),
    Told::Free(0, 751, 0, (0, 4_000, Point { x: 1_000, y: 1_000 })),
    Told::Free(
        1,
        883,
        1,
        (
            2,
            0,
            Point {
                x: 50_000,
                y: 50_000,
            },
        ),
    ),
];

#[test]
fn a_board_with_each_kind_of_item(rt: HostRuntime) {
    assert_eq!(rt; held(rt.alloc(), SMALL, &OF_SMALL), 16);
}
