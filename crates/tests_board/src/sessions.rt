//! Whole sessions of small boards, worked by hand, and their scale.
//! Lengths in the designs are in um, those in the sessions in their resolution.

use crate::board::{Says, board, held};
use pcb_model::{Design, Item, SesScale};
use ses_writer::items_session;
use std::alloc::Global;

fn is_text(alloc: Global, d: &Design, items: &[Item], omit_fixed: bool, want: &str) -> bool {
    match items_session(alloc, d, items, omit_fixed) {
        Ok(text) => text.as_slice() == want.as_bytes(),
        Err(_) => false,
    }
}

/// The session of a board with the fixed items of another, whether fixed wiring is left out, and the nm of its unit.
struct Session(&'static str, bool, &'static str, u64);

impl Says for Session {
    fn holds(&self, alloc: Global, d: &Design) -> bool {
        if SesScale::pick(d).nm != self.3 {
            return false;
        }
        match board(alloc, self.0) {
            Some(other) => is_text(alloc, d, other.fixed.as_slice(), self.1, self.2),
            None => false,
        }
    }
}

// ---- two pads and a wire

const TWO_PADS: &str = "(pcb T
  (parser (string_quote \") (host_cad KiCad) (host_version 8))
  (resolution um 10)
  (unit um)
  (structure
    (layer F.Cu (type signal))
    (layer B.Cu (type signal))
    (boundary (rect pcb 0 0 10000 10000))
    (via V)
    (rule (width 200) (clearance 200)))
  (placement (component P
    (place C1 2000 5000 front 0)
    (place C2 8000 5000 front 0)))
  (library
    (image P (pin PAD 1 0 0))
    (padstack PAD (shape (circle F.Cu 1000)) (shape (circle B.Cu 1000)))
    (padstack V (shape (circle F.Cu 600)) (shape (circle B.Cu 600))))
  (network (net A (pins C1-1 C2-1)))
  (wiring
    (wire (path B.Cu 200 8000 5000 2000 5000))
    (wire (path F.Cu 200 8000 5000 2000 5000) (net A) (type fix))
    (wire (path F.Cu 200 2000 5000 8000 5000) (net A))))";

/// Pads and the wire without a net aren't printed.
const SESSION_OF_TWO_PADS: &str = "(session T
  (base_design T)
  (placement
    (resolution um 10)
    (component P
      (place C1 20000 50000 front 0)
      (place C2 80000 50000 front 0)
    )
  )
  (was_is
  )
  (routes
    (resolution um 10)
    (parser
      (host_cad KiCad)
      (host_version 8)
    )
    (library_out
    )
    (network_out
      (net A
        (wire (path F.Cu 2000 20000 50000 80000 50000))
      )
    )
  )
)
";

// ---- a wire off the resolution

const FINE_WIRE: &str = "(pcb T
  (resolution um 10)
  (structure
    (layer F.Cu (type signal))
    (boundary (rect pcb 0 0 10000 10000)))
  (placement (component P (place C1 2000 5000 front 0)))
  (library (image P))
  (network (net A))
  (wiring (wire (path F.Cu 200.05 8000 5000.05 -0.15 -0.05) (net A) (type fix))))";

/// A wire that is not whole in the resolution makes the session finer.
const FINE_SESSION: &str = "(session T
  (base_design T)
  (placement
    (resolution um 1000)
    (component P
      (place C1 2000000 5000000 front 0)
    )
  )
  (was_is
  )
  (routes
    (resolution um 1000)
    (parser
    )
    (library_out
    )
    (network_out
      (net A
        (wire (path F.Cu 200050 -150 -50 8000000 5000050))
      )
    )
  )
)
";

/// What is not whole in a resolution that is kept is rounded half upwards.
const ROUNDED_SESSION: &str = "(session T
  (base_design T)
  (placement
    (resolution um 10)
    (component P
      (place C1 20000 50000 front 0)
      (place C2 80000 50000 front 0)
    )
  )
  (was_is
  )
  (routes
    (resolution um 10)
    (parser
      (host_cad KiCad)
      (host_version 8)
    )
    (library_out
    )
    (network_out
      (net A
        (wire (path F.Cu 2001 -1 0 80000 50001))
      )
    )
  )
)
";

// ---- all parts of a session

const ALL: &str = "(pcb \"K board.dsn\"
  (parser (string_quote \") (space_in_quoted_tokens on) (host_cad \"KiCad's Pcbnew\"))
  (resolution um 10)
  (structure
    (layer F.Cu (type signal)) (layer B.Cu (type signal))
    (boundary (rect pcb -5000 -5000 5000 5000))
    (via unused) (rule (width 200) (clearance 200)))
  (placement
    (component R:0603 (place R1 -1000 0.2 front 0) (place \"R 2\" -1000 0.2 back 90.5))
    (component \"\" (place C1 -1000 0.2 front 359.999999))
    (component R:0603 (place R3 -1000 0.2 front 1.00001)))
  (library
    (image R:0603) (image \"\")
    (padstack unused (shape (circle F.Cu 500)) (shape (circle B.Cu 500)))
    (padstack \"Via[0-1]_800:400_um\"
      (shape (circle F.Cu 800)) (shape (path F.Cu 400 0.1 0.3 0.1 -0.3))
      (shape (polygon B.Cu 0 400 -400 400 400 -400 400))))
  (network (net GND) (net \"Net 1\") (net VCC))
  (wiring
    (wire (path B.Cu 200 0.1 0.2 0.3 0 0.1 0.2) (net VCC) (type fix))
    (wire (path F.Cu 0.3 0.2 -0.1 0.1 -0.1 0 0) (net \"Net 1\") (type protect))
    (via \"Via[0-1]_800:400_um\" -0.9 1 (net VCC) (type fix))))";

const SESSION_OF_ALL: &str = "(session \"K board.dsn\"
  (base_design \"K board.dsn\")
  (placement
    (resolution um 10)
    (component R:0603
      (place R1 -10000 2 front 0)
      (place \"R 2\" -10000 2 back 90.5)
    )
    (component \"\"
      (place C1 -10000 2 front 359.999999)
    )
    (component R:0603
      (place R3 -10000 2 front 1.00001)
    )
  )
  (was_is
  )
  (routes
    (resolution um 10)
    (parser
      (host_cad \"KiCad's Pcbnew\")
    )
    (library_out
      (padstack \"Via[0-1]_800:400_um\"
        (shape (circle F.Cu 8000 0 0))
        (shape (path F.Cu 4000 1 -3 1 3))
        (shape (polygon B.Cu 0 4000 -4000 4000 4000 -4000 4000))
        (attach off)
      )
    )
    (network_out
      (net \"Net 1\"
        (wire (path F.Cu 3 0 0 1 -1 2 -1))
      )
      (net VCC
        (wire (path B.Cu 2000 1 2 3 0 1 2))
        (via \"Via[0-1]_800:400_um\" -9 10)
      )
    )
  )
)
";

/// The same without the wiring, all of which is fixed.
const SESSION_WITHOUT_WIRING: &str = "(session \"K board.dsn\"
  (base_design \"K board.dsn\")
  (placement
    (resolution um 10)
    (component R:0603
      (place R1 -10000 2 front 0)
      (place \"R 2\" -10000 2 back 90.5)
    )
    (component \"\"
      (place C1 -10000 2 front 359.999999)
    )
    (component R:0603
      (place R3 -10000 2 front 1.00001)
    )
  )
  (was_is
  )
  (routes
    (resolution um 10)
    (parser
      (host_cad \"KiCad's Pcbnew\")
    )
    (library_out
    )
    (network_out
    )
  )
)
";

/// Each board with its sessions.
static BOARDS: [(&str, &[Session]); 3] = [
    (
        TWO_PADS,
        &[
            Session(TWO_PADS, false, SESSION_OF_TWO_PADS, 100),
            Session(FINE_WIRE, false, ROUNDED_SESSION, 100),
        ],
    ),
    (FINE_WIRE, &[Session(FINE_WIRE, false, FINE_SESSION, 1)]),
    (
        ALL,
        &[
            Session(ALL, false, SESSION_OF_ALL, 100),
            Session(ALL, true, SESSION_WITHOUT_WIRING, 100),
        ],
    ),
];

#[test]
fn sessions_are_byte_for_byte_these(rt: HostRuntime) {
    for &(text, rows) in &BOARDS {
        let count = held(rt.alloc(), text, rows);
        assert!(rt; count == rows.len() as u64, "{count} sessions of {text}");
    }
}
