//! The pictures of two small boards, byte for byte: one of two layers with three pins of which one is open, a keepout,
//! and names with marks that XML reads as its own; and one of three layers with a blind via, keepouts of wires and of
//! vias, a name that would meet another, and one that XML doesn't take. Lengths in the designs are in um.

ghost use Rattle.pcb_model.specs.Sound.{IsSound, Serves};

use crate::board::opened;
use board_picture::{open_lines, picture_text};
use pcb_board::{Board, Snap, boards_serve};
use std::alloc::Global;
use std::process::Abort;

/// The wires and the via are fixed, so that the board's items are the design's.
const DESIGN: &str = r#"(pcb "P&Q"
  (resolution um 10)
  (unit um)
  (structure
    (layer F.Cu (type signal))
    (layer B.Cu (type signal))
    (boundary (rect pcb -1000 -2000 9000 6000))
    (keepout "" (polygon F.Cu 0 6000 -1000 8000 -1000 8000 500))
    (via V)
    (rule (width 200) (clearance 200)))
  (placement
    (component P (place C<1> 1000 2000 front 0) (place C2 7000 2000 front 0))
    (component S (place C3 4000 4500.5 front 0)))
  (library
    (image P (pin PAD 1 0 0))
    (image S (pin SMALL 1 0 0))
    (padstack PAD (shape (circle F.Cu 1000)) (shape (circle B.Cu 1000)))
    (padstack SMALL (shape (rect F.Cu -500 -250 500 250)))
    (padstack V (shape (circle F.Cu 600)) (shape (circle B.Cu 600))))
  (network (net A (pins C<1>-1 C2-1 C3-1)))
  (wiring
    (wire (path F.Cu 250 1000 2000 4000 2000) (net A) (type fix))
    (via V 4000 2000 (net A) (type fix))
    (wire (path B.Cu 200.5 4000 2000 5000 3000 7000 2000) (net A) (type fix))))"#;

/// The text, worked by hand. As a picture it shows the names C<1>, C2 and C3 upright, C3 above the others, and in
/// black the pads of C<1> and C2 and the via.
const PICTURE: &str =
    r##"<svg xmlns="http://www.w3.org/2000/svg" width="14.25mm" height="8.5mm" viewBox="0 0 14.25 8.5" font-family="sans-serif">
<title>P&amp;Q</title>
<pattern id="no-wires" width="0.8" height="0.8" patternUnits="userSpaceOnUse" patternTransform="rotate(45)"><path d="M0 0v1" stroke="#777" stroke-width="0.5"/></pattern>
<pattern id="no-vias" width="0.8" height="0.8" patternUnits="userSpaceOnUse" patternTransform="rotate(-45)"><path d="M0 0v1" stroke="#777" stroke-width="0.5"/></pattern>
<pattern id="no-copper" width="0.8" height="0.8" patternUnits="userSpaceOnUse" patternTransform="rotate(45)"><path d="M0 0v1M0 0h1" stroke="#777" stroke-width="0.5"/></pattern>
<rect width="100%" height="100%" fill="#fff"/>
<g transform="translate(1.5 6.25) scale(1 -1)" fill-rule="evenodd" stroke-linecap="round" stroke-linejoin="round">
<g class="keepouts" fill="url(#no-wires)" stroke="url(#no-wires)">
</g>
<g class="keepouts" fill="url(#no-vias)" stroke="url(#no-vias)">
</g>
<g class="keepouts" fill="url(#no-copper)" stroke="url(#no-copper)">
<path stroke-width="0" d="M 6 -1 8 -1 8 0.5z"/>
</g>
<g id="B.Cu" fill="#56B4E9" stroke="#56B4E9" opacity="0.85">
<path stroke-width="0.2005" fill="none" d="M 4 2 5 3 7 2h0"/>
</g>
<g id="F.Cu" fill="#BE4B00" stroke="#BE4B00" opacity="0.85">
<path stroke-width="0.25" fill="none" d="M 1 2 4 2h0"/>
<path stroke-width="0" d="M 3.5 4.2505 4.5 4.2505 4.5 4.7505 3.5 4.7505z"/>
</g>
<g class="through" fill="#000" stroke="#000" opacity="0.85">
<path stroke-width="1" fill="none" d="M 1 2h0"/>
<path stroke-width="1" fill="none" d="M 1 2h0"/>
<path stroke-width="1" fill="none" d="M 7 2h0"/>
<path stroke-width="1" fill="none" d="M 7 2h0"/>
<path stroke-width="0.6" fill="none" d="M 4 2h0"/>
<path stroke-width="0.6" fill="none" d="M 4 2h0"/>
</g>
<g class="vias" fill="none">
<circle r="0.12" stroke-width="0.12" stroke="#7FFF00" transform="translate( 4 2)"/>
</g>
<g class="holes" fill="#fff">
<circle r="0.2" transform="translate( 1 2)"/>
<circle r="0.2" transform="translate( 7 2)"/>
<circle r="0.12" transform="translate( 4 2)"/>
</g>
<g class="edge" fill="none" stroke="#000" stroke-width="0.025">
<path d="M -1 -2 9 -2 9 6 -1 6z"/>
</g>
<g class="names" transform="translate(-0.083333 0.083333)" font-size="0.125" text-anchor="end" stroke="#fff" stroke-width="0.025" paint-order="stroke">
<text transform="matrix(1 0 0 -1 1 2)">C&lt;1&gt;</text>
<text transform="matrix(1 0 0 -1 7 2)">C2</text>
<text transform="matrix(1 0 0 -1 4 4.5005)">C3</text>
</g>
<g class="open" fill="none" stroke="#E0007A" stroke-width="0.015625" stroke-dasharray="0.125">
<path d="M 1 2 4 4.5005"/>
</g>
</g>
<g transform="translate(10.75 0.25) scale(0.25)" font-size="0.8">
<path d="M0 0.5h2" stroke-width="0.6" fill="#BE4B00" stroke="#BE4B00" opacity="0.85"/><text x="2.5" y="0.8">F.Cu</text>
<path d="M0 1.5h2" stroke-width="0.6" fill="#56B4E9" stroke="#56B4E9" opacity="0.85"/><text x="2.5" y="1.8">B.Cu</text>
<path d="M0 2.5h2" stroke-width="0.6" fill="#000" stroke="#000" opacity="0.85"/><text x="2.5" y="2.8">through pads and vias</text>
<path d="M0 3.5h2" stroke-width="0.3" stroke="#7FFF00"/><text x="2.5" y="3.8">via</text>
<path d="M0 4.5h2" stroke-width="0.6" stroke="url(#no-copper)"/><text x="2.5" y="4.8">no wires and vias</text>
<path d="M0 5.5h2" stroke-width="0.06" stroke="#E0007A" stroke-dasharray="0.5"/><text x="2.5" y="5.8">open 1</text>
<text x="2.5" y="6.8">nets 1</text>
<text x="2.5" y="7.8">wires 2</text>
<text x="2.5" y="8.8">vias 1</text>
<text x="2.5" y="9.8">10 x 8 mm</text>
</g>
</svg>
"##;

/// The name C2 would meet é1, and the third one is U+FFFF.
const LAYERED: &str = "(pcb b
  (resolution um 10)
  (unit um)
  (structure
    (layer F (type signal))
    (layer I (type signal))
    (layer B (type signal))
    (boundary (rect pcb 0 0 10000 8000))
    (wire_keepout W (rect F 1000 1000 2000 2000))
    (via_keepout V (rect B 3000 1000 4000 2000))
    (via V W)
    (rule (width 200) (clearance 200)))
  (placement
    (component P (place \u{e9}1 1000 5000 front 0) (place C2 1200 5000 front 0) (place \u{ffff} 5000 5000 front 0)))
  (library
    (image P)
    (padstack V (shape (circle F 600)) (shape (circle I 600)) (shape (circle B 600)))
    (padstack W (shape (circle F 500)) (shape (circle I 500))))
  (network (net A))
  (wiring
    (via V 6000 6000 (net A) (type fix))
    (via W 8000 6000 (net A) (type fix))))";

const LAYERED_PICTURE: &str =
    r##"<svg xmlns="http://www.w3.org/2000/svg" width="14.25mm" height="8.5mm" viewBox="0 0 14.25 8.5" font-family="sans-serif">
<title>b</title>
<pattern id="no-wires" width="0.8" height="0.8" patternUnits="userSpaceOnUse" patternTransform="rotate(45)"><path d="M0 0v1" stroke="#777" stroke-width="0.5"/></pattern>
<pattern id="no-vias" width="0.8" height="0.8" patternUnits="userSpaceOnUse" patternTransform="rotate(-45)"><path d="M0 0v1" stroke="#777" stroke-width="0.5"/></pattern>
<pattern id="no-copper" width="0.8" height="0.8" patternUnits="userSpaceOnUse" patternTransform="rotate(45)"><path d="M0 0v1M0 0h1" stroke="#777" stroke-width="0.5"/></pattern>
<rect width="100%" height="100%" fill="#fff"/>
<g transform="translate(0.5 8.25) scale(1 -1)" fill-rule="evenodd" stroke-linecap="round" stroke-linejoin="round">
<g class="keepouts" fill="url(#no-wires)" stroke="url(#no-wires)">
<path stroke-width="0" d="M 1 1 2 1 2 2 1 2z"/>
</g>
<g class="keepouts" fill="url(#no-vias)" stroke="url(#no-vias)">
<path stroke-width="0" d="M 3 1 4 1 4 2 3 2z"/>
</g>
<g class="keepouts" fill="url(#no-copper)" stroke="url(#no-copper)">
</g>
<g id="B" fill="#00724F" stroke="#00724F" opacity="0.85">
</g>
<g id="I" fill="#56B4E9" stroke="#56B4E9" opacity="0.85">
</g>
<g id="F" fill="#BE4B00" stroke="#BE4B00" opacity="0.85">
</g>
<g class="through" fill="#000" stroke="#000" opacity="0.85">
<path stroke-width="0.6" fill="none" d="M 6 6h0"/>
<path stroke-width="0.6" fill="none" d="M 6 6h0"/>
<path stroke-width="0.6" fill="none" d="M 6 6h0"/>
<path stroke-width="0.5" fill="none" d="M 8 6h0"/>
<path stroke-width="0.5" fill="none" d="M 8 6h0"/>
</g>
<g class="vias" fill="none">
<circle r="0.12" stroke-width="0.12" stroke="#7FFF00" transform="translate( 6 6)"/>
<circle r="0.1" stroke-width="0.1" stroke="#BE4B00" transform="translate( 8 6)"/>
<circle r="0.1" stroke-width="0.05" stroke="#56B4E9" transform="translate( 8 6)"/>
</g>
<g class="holes" fill="#fff">
<circle r="0.12" transform="translate( 6 6)"/>
<circle r="0.1" transform="translate( 8 6)"/>
</g>
<g class="edge" fill="none" stroke="#000" stroke-width="0.025">
<path d="M 0 0 10 0 10 8 0 8z"/>
</g>
<g class="names" transform="translate(-0.083333 0.083333)" font-size="0.125" text-anchor="end" stroke="#fff" stroke-width="0.025" paint-order="stroke">
<text transform="matrix(1 0 0 -1 1 5)">é1</text>
<text transform="matrix(1 0 0 -1 5 5)">?</text>
</g>
<g class="open" fill="none" stroke="#E0007A" stroke-width="0.015625" stroke-dasharray="0.125">
</g>
</g>
<g transform="translate(10.75 0.25) scale(0.25)" font-size="0.8">
<path d="M0 0.5h2" stroke-width="0.6" fill="#BE4B00" stroke="#BE4B00" opacity="0.85"/><text x="2.5" y="0.8">F</text>
<path d="M0 1.5h2" stroke-width="0.6" fill="#56B4E9" stroke="#56B4E9" opacity="0.85"/><text x="2.5" y="1.8">I</text>
<path d="M0 2.5h2" stroke-width="0.6" fill="#00724F" stroke="#00724F" opacity="0.85"/><text x="2.5" y="2.8">B</text>
<path d="M0 3.5h2" stroke-width="0.6" fill="#000" stroke="#000" opacity="0.85"/><text x="2.5" y="3.8">through pads and vias</text>
<path d="M0 4.5h2" stroke-width="0.3" stroke="#7FFF00"/><text x="2.5" y="4.8">via</text>
<path d="M0 5.5h2" stroke-width="0.3" stroke="#000" stroke-dasharray="0.3 0.2"/><text x="2.5" y="5.8">blind via, by its layers</text>
<path d="M0 6.5h2" stroke-width="0.6" stroke="url(#no-wires)"/><text x="2.5" y="6.8">no wires</text>
<path d="M0 7.5h2" stroke-width="0.6" stroke="url(#no-vias)"/><text x="2.5" y="7.8">no vias</text>
<path d="M0 8.5h2" stroke-width="0.06" stroke="#E0007A" stroke-dasharray="0.5"/><text x="2.5" y="8.8">open 0</text>
<text x="2.5" y="9.8">nets 1</text>
<text x="2.5" y="10.8">wires 0</text>
<text x="2.5" y="11.8">vias 2</text>
<text x="2.5" y="12.8">10 x 8 mm</text>
</g>
</svg>
"##;

/// Designs and their pictures.
static PICTURES: [(&str, &str); 2] = [(DESIGN, PICTURE), (LAYERED, LAYERED_PICTURE)];

/// Whether the picture of a board's design is the text.
fn is_drawn<R: Abort>(rt: &R, alloc: Global, snap: &Snap, picture: &str) -> bool
    requires sound { IsSound snap.now.design }
    requires serves { Serves snap.now.items snap.now.design }
{
    let d = snap.design();
    let lines = open_lines(alloc, d, snap).ok().expect(rt, "no lines");
    let text = picture_text(alloc, d, d.fixed.as_slice(), lines.as_slice());
    text.ok().expect(rt, "no picture").as_slice() == picture.as_bytes()
}

fn is_drawn_on<R: Abort>(rt: &R, alloc: Global, board: &Board, picture: &str) -> bool {
    board.keeps();
    boards_serve();
    match board.snap() {
        Ok(snap) => is_drawn(rt, alloc, &snap, picture),
        Err(_) => false,
    }
}

#[test]
fn a_picture_shows_all(rt: HostRuntime) {
    let alloc = rt.alloc();
    for &(design, picture) in &PICTURES {
        let board = opened(alloc, design).expect(&rt, "no board");
        assert!(rt; is_drawn_on(&rt, alloc, &board, picture), "{design}");
    }
}
