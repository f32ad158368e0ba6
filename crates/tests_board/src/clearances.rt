//! Which of several clearances and widths counts.
//! All lengths are in nm.

use crate::board::{Says, held};
use pcb_model::{Design, Kind, clearance, reach_of, width_of};
use std::alloc::Global;

/// Net 0 has the structure's rules, net 1 those of its class too, nets 2 to 6 clearances of their own, and between the
/// classes of nets 1, 7 and 8 stand others.
const RULES: &str = "(pcb rules
  (resolution um 10)
  (structure
    (layer F (type signal))
    (boundary (rect pcb 0 0 100 100))
    (rule (width 200) (clearance 200.1) (clearance 250 (type default_smd)) (clearance 50 (type smd_smd))))
  (network
    (net OF_BOARD)
    (net OF_CLASS)
    (net PAIR_FIRST (rule (clearance 50 (type smd_smd)) (clearance 300 (type default_smd))))
    (net PAIR_LAST (rule (clearance 300 (type default_smd)) (clearance 50 (type smd_smd))))
    (net VIA_AND_SMD (rule (clearance 300 (type default_smd)) (clearance 70 (type via_smd))))
    (net SMALLER_LAST (rule (clearance 300 (type default_smd)) (clearance 40 (type default_smd))))
    (net GREATER_LAST (rule (width 150) (clearance 40 (type default_smd)) (clearance 300 (type default_smd))))
    (net SLOW)
    (net FAST (rule (clearance 900)))
    (class plain OF_CLASS (rule (width 400) (clearance 120)))
    (class slow SLOW (rule (clearance 130)))
    (class fast FAST)
    (class_class (classes slow fast) (rule (clearance 90) (clearance 500 (type default_smd))))
    (class_class (classes fast slow) (rule (clearance 80 (type smd_smd)) (clearance 60 (type wire_via))))
    (class_class (classes fast slow) (rule (clearance 70 (type via_wire)) (clearance 210)))
    (class_class (classes slow slow) (rule (clearance 40)))
    (class_class (classes slow plain) (rule (clearance 55 (type pin_pin))))))";

/// What a test says of the rules.
enum Rule {
    /// The clearance in nm of items of two nets, or of none, and of these kinds.
    Clearance(Option<u32>, Kind, Option<u32>, Kind, u64),
    /// The width of a net.
    Width(u32, u64),
    /// The reach of the board, which no clearance passes.
    Reach(u64),
}

impl Says for Rule {
    fn holds(&self, _alloc: Global, d: &Design) -> bool {
        match self {
            Rule::Clearance(a, ka, b, kb, nm) => clearance(d, *a, *ka, *b, *kb) == *nm,
            Rule::Width(net, nm) => width_of(d, *net) == *nm,
            Rule::Reach(nm) => reach_of(d) == *nm,
        }
    }
}

static OF_RULES: [Rule; 34] = [
    // A class comes before the structure.
    Rule::Clearance(Some(0), Kind::Smd, Some(0), Kind::Smd, 50_000),
    Rule::Clearance(Some(0), Kind::Smd, Some(0), Kind::Wire, 250_000),
    Rule::Clearance(Some(0), Kind::Wire, Some(0), Kind::Wire, 200_100),
    Rule::Clearance(Some(1), Kind::Smd, Some(1), Kind::Smd, 120_000),
    Rule::Clearance(Some(1), Kind::Wire, Some(1), Kind::Wire, 120_000),
    // An exact pair comes before any kind and counts in either order, and of like clearances the last read counts.
    Rule::Clearance(Some(2), Kind::Smd, Some(2), Kind::Smd, 50_000),
    Rule::Clearance(Some(3), Kind::Smd, Some(3), Kind::Smd, 50_000),
    Rule::Clearance(Some(3), Kind::Smd, Some(3), Kind::Area, 300_000),
    Rule::Clearance(Some(3), Kind::Pin, Some(3), Kind::Wire, 200_100),
    Rule::Clearance(Some(4), Kind::Via, Some(4), Kind::Smd, 70_000),
    Rule::Clearance(Some(4), Kind::Smd, Some(4), Kind::Via, 70_000),
    Rule::Clearance(Some(5), Kind::Pin, Some(5), Kind::Smd, 40_000),
    Rule::Clearance(Some(6), Kind::Pin, Some(6), Kind::Smd, 300_000),
    // Two nets keep the greater of their clearances.
    Rule::Clearance(Some(0), Kind::Smd, Some(1), Kind::Smd, 120_000),
    Rule::Clearance(Some(1), Kind::Smd, Some(0), Kind::Smd, 120_000),
    Rule::Clearance(Some(0), Kind::Smd, None, Kind::Smd, 50_000),
    // What stands between two classes comes before the nets' own clearances, also where it is less; the last plain one
    // counts, in whichever list of the two classes it stands, and in whichever order these are named.
    Rule::Clearance(Some(7), Kind::Wire, Some(8), Kind::Wire, 210_000),
    Rule::Clearance(Some(8), Kind::Wire, Some(7), Kind::Wire, 210_000),
    // One for the very pair of kinds comes before one for any kind, and both before the plain one; of like ones the
    // last counts.
    Rule::Clearance(Some(7), Kind::Smd, Some(8), Kind::Smd, 80_000),
    Rule::Clearance(Some(8), Kind::Pin, Some(7), Kind::Smd, 500_000),
    Rule::Clearance(Some(7), Kind::Wire, Some(8), Kind::Via, 70_000),
    Rule::Clearance(Some(8), Kind::Wire, Some(7), Kind::Via, 70_000),
    // Of one class with itself, and of two classes without a plain clearance between them.
    Rule::Clearance(Some(7), Kind::Wire, Some(7), Kind::Wire, 40_000),
    Rule::Clearance(Some(7), Kind::Pin, Some(1), Kind::Pin, 55_000),
    Rule::Clearance(Some(1), Kind::Pin, Some(7), Kind::Pin, 55_000),
    Rule::Clearance(Some(7), Kind::Wire, Some(1), Kind::Pin, 130_000),
    // Where nothing stands between their classes the nets' own count.
    Rule::Clearance(Some(8), Kind::Wire, Some(8), Kind::Wire, 900_000),
    Rule::Clearance(Some(8), Kind::Wire, Some(1), Kind::Wire, 900_000),
    Rule::Clearance(Some(8), Kind::Wire, None, Kind::Wire, 900_000),
    Rule::Clearance(Some(7), Kind::Wire, None, Kind::Wire, 200_100),
    // A net has its own width or its class's.
    Rule::Width(0, 200_000),
    Rule::Width(1, 400_000),
    Rule::Width(6, 150_000),
    Rule::Reach(900_000),
];

#[test]
fn of_several_clearances_and_widths_one_counts(rt: HostRuntime) {
    assert_eq!(rt; held(rt.alloc(), RULES, &OF_RULES), 34);
}
