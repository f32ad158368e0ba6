//! Heads of designs: their names, resolutions and units, and what was passed over.
//! A head that is refused holds nothing.

use dsn_structure::read_head;
use dsn_tree::read_tree;
use geo_kernel::Unit;
use std::alloc::Global;
use std::process::Abort;

const KICAD: &str = "(pcb \"K board.dsn\" (parser (string_quote \") (space_in_quoted_tokens on)
  (host_cad \"KiCad's Pcbnew\") (z)) (resolution um 10) (unit mm) (unit ft) (structure (z)) (z))";

/// Whether a text's head has this name, and this unit and count of its resolution, this many nm to the unit of its
/// numbers, and this many lists that were passed over.
fn is_head<R: Abort>(
    rt: &R,
    alloc: Global,
    text: &str,
    name: &str,
    measures: (Unit, u64, u64, u64),
) -> bool {
    let tree = read_tree(alloc, text.as_bytes()).ok().expect(rt, "no tree");
    let head = read_head(alloc, &tree).ok().expect(rt, "no head");
    head.name.as_slice() == name.as_bytes()
        && (head.unit, head.per, head.scale.nm, head.notes) == measures
}

static HEADS: [(&str, &str, (Unit, u64, u64, u64)); 2] = [
    (KICAD, "K board.dsn", (Unit::Um, 10, 1_000_000, 2)),
    (
        "(PCB b (Resolution MIL 1e1))",
        "b",
        (Unit::Mil, 10, 25_400, 0),
    ),
];

#[test]
fn numbers_are_in_the_first_unit_or_else_in_that_of_the_resolution(rt: HostRuntime) {
    for &(text, name, measures) in &HEADS {
        assert!(rt; is_head(&rt, rt.alloc(), text, name, measures), "{name}");
    }
}
