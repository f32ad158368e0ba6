//! What shuts a legal move: the item of the least id that disagrees with what the move lays, or a boundary.
//! None of the calls takes memory.

ghost use Rattle.std.specs.Prelude.{◌≡◌, ◌↔◌, Some, IfNone};
ghost use Rattle.pcb_model.specs.Bounds.{IsProbeFit};
ghost use Rattle.route_lattice.specs.Legal.{IsLegalProbe};
ghost use Rattle.cut_certificate.specs.declared.cut.Blocker.{Blocker as OneBlocker};
ghost use Rattle.cut_certificate.specs.Cuts.{ShutsProbe, IsShutBy};

use crate::border::Shuts;
use crate::cut::Blocker;
use pcb_model::{Copper, Probe};
use route_lattice::{Ground, LegalMoves};

/// What shuts a probe of the net, or None where it is legal.
fn shuts_probe<C: Copper>(on: &Ground<'_, C>, net: u32, probe: &Probe) -> Option<Blocker>
    requires { IsProbeFit on.now.d probe.now }
    ensures legal { IfNone result (IsLegalProbe on.now.d on.now.items net probe.now) }
    ensures shut { (by : OneBlocker) → (ShutsProbe on.now.d on.now.items net probe.now by ↔ (result ≡ Some by)) }
{
    if let Some(id) = on.block_from(net, probe, 0) {
        return Some(Blocker::Item(id));
    }
    if !on.is_probe_inside(probe) {
        return Some(Blocker::Outside);
    }
    None
}

impl<C: Copper> Shuts for LegalMoves<'_, C> {
    ghost shut_by = { λ s. IsShutBy s.d.now s.lat.now (C.items s.c.now) s.net };

    fn blocker(&self, node: u32, i: u32) -> Option<Blocker> {
        self.c.in_order();
        let on = Ground {
            lat: self.lat,
            d: self.d,
            c: self.c,
        };
        match self.probe(node, i) {
            None => unreachable!(),
            Some(probe) => shuts_probe(&on, self.net, &probe),
        }
    }

    fn has_prices(&self) {}
}
