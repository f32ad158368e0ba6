//! Whether wires and vias may be added for a net.
//! A wire has the width of its net and lies on a signal layer; a via's padstack is in the net's list.

ghost use Rattle.std.specs.Prelude.{◌↔◌, ◌<◌, All, IsTrue, length};
ghost use Rattle.pcb_model.specs.Bounds.{IsDesignFit};
ghost use Rattle.board_offers.specs.Offers.{IsAddable};

use crate::near::{are_near, is_near, is_via_near};
use pcb_model::{Design, Metal, is_listed, is_signal, width_of};

fn is_addable(d: &Design, net: u32, m: &Metal) -> bool
    requires design { IsDesignFit d.now }
    ensures { IsTrue result ↔ IsAddable d.now net m.now }
{
    match m {
        Metal::Wire {
            layer,
            width,
            chain,
        } => {
            is_signal(d, *layer)
                && *width == width_of(d, net)
                && chain.len() >= 2
                && are_near(chain.as_slice())
        }
        Metal::Via { padstack, at } => {
            is_listed(d, net, *padstack) && is_near(*at) && is_via_near(d, *padstack, *at)
        }
        _ => false,
    }
}

/// Whether there are metals, and each may be added.
pub(crate) fn has_metals(d: &Design, net: u32, add: &[Metal]) -> bool
    requires design { IsDesignFit d.now }
    ensures { IsTrue result ↔ ((0 < length add.now) × All (IsAddable d.now net) add.now) }
{
    if add.is_empty() {
        return false;
    }
    for m in add {
        if !is_addable(d, net, m) {
            return false;
        }
    }
    true
}
