//! Vias that are known to be there: where they lead, by arithmetic on the node's number.

ghost use Rattle.std.specs.Prelude.{◌≡◌, ℕ, ◌<◌, ◌≤◌, Some};
ghost use Rattle.route_lattice.specs.declared.moves.Move.TheVariants.{Via};
ghost use Rattle.route_lattice.specs.Mesh.{node_count};
ghost use Rattle.route_lattice.specs.Ways.{way, way_count};
ghost use Rattle.route_lattice.specs.Legal.{CanMove};

use pcb_model::Design;
use route_lattice::{Lattice, Move};

/// Where the via of an index leads, if it is there.
pub(crate) fn via_to(lat: &Lattice, d: &Design, net: u32, node: u32, i: u32) -> (Move, u32)
    requires can_move { CanMove d.now lat.now net 0 }
    requires node { node < node_count lat.now }
    requires via { 4 ≤ i }
    requires index { i < way_count d.now lat.now net }
    ensures { (padstack layer to : ℕ) → way d.now lat.now net node i ≡ Some (Via padstack layer, to)
        → result ≡ (Via padstack layer, to) }
{
    let layers = lat.layers().as_slice();
    let number = (i - 4) as usize;
    let padstack = d.nets.as_slice()[net as usize].vias.as_slice()[number / layers.len()];
    let level = number % layers.len();
    let layer = layers[level];
    (Move::Via { padstack, layer }, lat.node_on(node, level))
}
