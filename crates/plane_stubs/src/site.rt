//! Where stubs are sought: a design, its lattice, and the ids of its ribs.

ghost use Rattle.std.specs.Prelude.{◌≡◌, ◌<◌, length};
ghost use Rattle.pcb_tiles.specs.Spread.{ServesSpread};
ghost use Rattle.plane_stubs.specs.inner.Sites.{on_site};

use crate::rib_moves::RibMoves;
use pcb_model::Design;
use pcb_tiles::Tiles;
use route_lattice::{Lattice, LegalMoves};
use std::marker::Model;

/// A design, its lattice, the price of a via, and the ids of the ribs, from `first` to below `last`.
#[derive(Drop)]
pub(crate) struct Site<'a> {
    pub(crate) d: &'a Design,
    pub(crate) lat: &'a Lattice,
    pub(crate) via_cost: u64,
    pub(crate) first: u64,
    pub(crate) last: u64,
}

impl<'a> Model for Site<'a> {
    ghost use Rattle.std.specs.Prelude.{◌<◌, ◌^◌};
    ghost use Rattle.plane_stubs.specs.inner.Sites.{SiteOf, IsSite};

    ghost Value = { SiteOf };

    ghost view = { λ s. record {
      d = s.d.now;
      lat = s.lat.now;
      via_cost = s.via_cost;
      first = s.first;
      last = s.last;
    } };

    ghost invariant = { λ s. IsSite s.d.now s.lat.now s.via_cost × (s.last < 2 ^ 64) };
}

impl<'a> Site<'a> {
    /// The legal moves of a net there.
    pub(crate) fn moves(&self, tiles: &'a Tiles, net: u32) -> RibMoves<'a>
        requires serves { ServesSpread tiles.now self.now.d }
        requires net { net < length self.now.d.nets }
        ensures { result ≡ record { on = on_site self.now tiles.now.items; net = net } }
    {
        RibMoves {
            legal: LegalMoves::of(self.lat, self.d, tiles, net, self.via_cost),
            first: self.first,
            last: self.last,
        }
    }
}
