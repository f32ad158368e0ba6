//! The designs of the examples, and their edits.
//! An edit replaces a piece of a text, which must stand in it.

use std::alloc::Global;

/// Two pairs of pins that must cross, on one layer: the boundary is item 0, the pins are 1 and 2 of net 0, 3 and 4 of
/// net 1.
pub(crate) const CROSSING: &str = "(pcb T
  (parser (string_quote \") (host_cad KiCad) (host_version 8))
  (resolution um 10)
  (unit um)
  (structure
    (layer F.Cu (type signal))
    (boundary (rect pcb 0 0 10000 10000))
    (rule (width 200) (clearance 200)))
  (placement (component P
    (place C1 1000 5000 front 0)
    (place C2 9000 5000 front 0)
    (place C3 5000 2000 front 0)
    (place C4 5000 8000 front 0)))
  (library
    (image P (pin PAD 1 0 0))
    (padstack PAD (shape (circle F.Cu 1000))))
  (network (net A (pins C1-1 C2-1)) (net B (pins C3-1 C4-1)))
  (wiring))
";

/// Two pins that face each other, on two layers.
pub(crate) const TWO_LAYERS: &str = "(pcb T
  (parser (string_quote \") (host_cad KiCad) (host_version 8))
  (resolution um 10)
  (unit um)
  (structure
    (layer F.Cu (type signal))
    (layer B.Cu (type signal))
    (boundary (rect pcb 0 0 10000 10000))
    (via V)
    (rule (width 200) (clearance 200)))
  (placement (component P
    (place C1 2000 5000 front 0)
    (place C2 8000 5000 front 0)))
  (library
    (image P (pin PAD 1 0 0))
    (padstack PAD (shape (circle F.Cu 1000)) (shape (circle B.Cu 1000)))
    (padstack V (shape (circle F.Cu 600)) (shape (circle B.Cu 600))))
  (network (net A (pins C1-1 C2-1)))
  (wiring))
";

/// A board as KiCad writes it: two layers, four nets, and a fixed wire.
pub(crate) const KICAD: &str = "(pcb \"K board.dsn\"
  (parser (string_quote \") (space_in_quoted_tokens on)
    (host_cad \"KiCad's Pcbnew\") (host_version \"8.0.1\"))
  (resolution um 10)
  (unit um)
  (structure
    (layer F.Cu (type signal) (property (index 0)))
    (layer B.Cu (type signal) (property (index 1)))
    (boundary (path pcb 0 100000 -100000 150000 -100000 150000 -130000
      100000 -130000 100000 -100000))
    (plane GND (polygon B.Cu 0 101000 -101000 149000 -101000 149000 -129000 101000 -129000))
    (via \"Via[0-1]_800:400_um\")
    (rule (width 250) (clearance 200.1) (clearance 200.1 (type default_smd))
      (clearance 50 (type smd_smd))))
  (placement
    (component Conn:J2 (place J1 105000.000000 -105000.000000 front 0.000000 (PN J2)))
    (component \"R:0603\"
      (place R1 125000 -105000 front 0 (PN 10k))
      (place R2 125000 -125000 front 0 (PN 10k))
      (place C1 140000 -115000 back 90 (PN 100n))))
  (library
    (image Conn:J2 (pin Round[A]Pad_1700_um 1 0 0) (pin Round[A]Pad_1700_um 2 0 -20000))
    (image \"R:0603\" (outline (path signal 120 -800 400 800 400))
      (pin Rect[T]Pad_800x900_um 1 -800 0)
      (pin Rect[T]Pad_800x900_um (rotate 180) 2 800 0))
    (padstack Round[A]Pad_1700_um (shape (circle F.Cu 1700)) (shape (circle B.Cu 1700)) (attach off))
    (padstack Rect[T]Pad_800x900_um
      (shape (polygon F.Cu 0 -400 -450 400 -450 400 450 -400 450 -400 -450)) (attach off))
    (padstack \"Via[0-1]_800:400_um\" (shape (circle F.Cu 800)) (shape (circle B.Cu 800)) (attach off)))
  (network
    (net GND (pins J1-1 R1-1))
    (net VCC (pins J1-2 R2-1))
    (net SIG (pins R1-2 C1-1))
    (net OUT (pins R2-2 C1-2))
    (class kicad_default \"\" GND VCC SIG OUT
      (circuit (use_via \"Via[0-1]_800:400_um\"))
      (rule (width 250) (clearance 200.1))))
  (wiring (wire (path F.Cu 250 124200 -125000 120000 -125000)(net VCC)(type protect))))
";

/// Pads on the front alone.
pub(crate) const ON_FRONT: (&str, &str) = (" (shape (circle B.Cu 1000))", "");

/// The text with each old piece replaced by the new one, in order, or None where one is missing or memory is wanting.
pub(crate) fn swapped(alloc: Global, text: &str, pairs: &[(&str, &str)]) -> Option<String> {
    let mut now = String::from_str(alloc, text).ok()?;
    for &(old, new) in pairs {
        let (before, after) = now.as_str().split_once(old)?;
        now = format!(in alloc; "{before}{new}{after}").ok()?;
    }
    Some(now)
}
