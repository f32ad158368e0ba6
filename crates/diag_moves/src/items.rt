//! The copper of a walk with diagonals.
//! It is laid as that of other walks is, so a stretch of diagonals in a row is one straight part of a wire.

ghost use Rattle.std.specs.Prelude.{◌≡◌, IfOk};
ghost use Rattle.path_wire.specs.Wires.{IsNetWalk, copper_of};

use geo_kernel::List;
use path_wire::walk_items;
use pcb_model::{Design, Metal};
use route_lattice::{Lattice, Walk};
use std::alloc::{AllocError, Global};

/// The copper of a walk over moves of a net, diagonals among them: a wire of the net's width for each longest stretch
/// of steps, whose vertices are its ends and the nodes at which the direction changes, and a via for each via move.
/// `AllocError` comes only for want of memory.
pub fn wide_items(
    alloc: Global,
    lat: &Lattice,
    d: &Design,
    net: u32,
    w: &Walk,
) -> Result<List<Metal>, AllocError>
    requires { IsNetWalk d.now lat.now net w.now.nodes w.now.moves }
    ensures { IfOk result (λ metals. metals ≡ copper_of d.now lat.now net w.now.nodes w.now.moves) }
{
    walk_items(alloc, lat, d, net, w)
}
