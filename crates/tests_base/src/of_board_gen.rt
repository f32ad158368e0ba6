//! Generated boards: the whole text of the first, and lines of the second.
//! States, shuffles and sites were worked out by hand.

use board_gen::design_text;

// The state becomes 1103527590, so the entries 0 and 1 change places; the square has two sites a side.
const FIRST: &str = "(pcb gen
(parser (string_quote \"))
(resolution um 10)
(unit um)
(structure
(layer F.Cu (type signal))
(layer B.Cu (type signal))
(boundary (rect pcb 0 0 15000 15000))
(via V)
(rule (width 200) (clearance 200)))
(placement (component P
(place C0 5000 5000 front 0)
(place C1 10000 5000 front 0)
))
(library
(image P (pin PAD 1 0 0))
(padstack PAD (shape (circle F.Cu 1000)) (shape (circle B.Cu 1000)))
(padstack V (shape (circle F.Cu 600)) (shape (circle B.Cu 600))))
(network
(net N0 (pins C1-1 C0-1))
)
(wiring))
";

#[test]
fn gives_the_first_board(rt: HostRuntime) {
    let text = design_text(rt.alloc(), 1).expect(&rt, "no board");
    assert!(rt; text.as_slice() == FIRST.as_bytes());
}
