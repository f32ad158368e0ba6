//! Which layers a padstack joins.

ghost use Rattle.std.specs.Prelude.{◌≡◌};
ghost use Rattle.move_maps.specs.Spots.{join_layers as joins_layers};

use pcb_model::Piece;
use route_lattice::has_copper;

/// Whether two layers are not one, and the pieces have copper on both.
pub(crate) fn join_layers(pieces: &[Piece], from: u8, to: u8) -> bool
    ensures { result ≡ joins_layers pieces.now from to }
{
    from != to && has_copper(pieces, from) && has_copper(pieces, to)
}
