//! The design with the wiring that is left of a session.

ghost use Rattle.std.specs.Prelude.{◌≡◌, All, IfOk};
ghost use Rattle.pcb_model.specs.Sound.{IsSound};
ghost use Rattle.ses_reader.specs.Sound.{IsItemSound};
ghost use Rattle.session_start.specs.Starting.{started, with_free};

use crate::laws::other_wiring_keeps;
use geo_kernel::List;
use pcb_model::{Design, FreeWire};
use route_check::items_left;
use ses_reader::{SesItem, wires_of};
use std::alloc::{AllocError, Global};

// The wiring that is left of a session.
fn wiring_left(alloc: Global, d: &Design, old: &List<SesItem>) -> Result<List<FreeWire>, AllocError>
    requires sound { IsSound d.now }
    requires items { All (IsItemSound d.now) old.now }
    ensures { IfOk result (λ wires. with_free d.now wires ≡ started d.now old.now) }
{
    let left = items_left(alloc, d, old)?;
    let wires = wires_of(alloc, left.as_slice());
    drop(left);
    wires
}

// The design with other free wiring.
fn with_wires(d: Design, wires: List<FreeWire>) -> Design
    ensures { result ≡ with_free d wires }
{
    let mut d = d;
    d.free = wires;
    d
}

/// The design whose free wiring is that of a session, in order and with its places, less what the design has as fixed
/// wiring: each fixed wire or via takes away the first item that is the same. `AllocError` comes only for want of
/// memory.
pub fn with_session(alloc: Global, d: Design, old: &List<SesItem>) -> Result<Design, AllocError>
    requires sound { IsSound d }
    requires items { All (IsItemSound d) old.now }
    ensures started { IfOk result (λ e. e ≡ started d old.now) }
    ensures sound { IfOk result IsSound }
{
    other_wiring_keeps();
    match wiring_left(alloc, &d, old) {
        Ok(wires) => Ok(with_wires(d, wires)),
        Err(error) => {
            drop(d);
            Err(error)
        }
    }
}
