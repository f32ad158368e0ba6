//! The least way from an island to a via that touches a rib.

ghost use Rattle.std.specs.Prelude.{◌≡◌, ◌<◌, ◌∷◌, [], All, IfOk, MatchOption, length};
ghost use Rattle.pcb_tiles.specs.Spread.{ServesSpread};
ghost use Rattle.route_lattice.specs.Mesh.{node_count};
ghost use Rattle.route_lattice.specs.Walks.{Answers, NoneLeads};
ghost use Rattle.plane_joins.specs.Stubs.{HasNoStub, IsLeastStub};
ghost use Rattle.plane_joins.specs.inner.Graph.{stub_graph};
ghost use Rattle.plane_stubs.specs.inner.Landings.{AreLandings, LandsLeast};
ghost use Rattle.plane_stubs.specs.inner.Sites.{on_site};

use crate::left_over::LeftOver;
use crate::site::Site;
use crate::stub_moves::StubMoves;
use cut_certificate::starts_of;
use geo_kernel::List;
use pcb_islands::Island;
use pcb_tiles::Tiles;
use route_lattice::{Found, Walk, legal_graph_sound};
use std::alloc::{AllocError, Global};
use wave_search::guided_walk;

// A least walk from the starts to the last node of the graph of stubs, or all that is reached where there is none.
fn seek(alloc: Global, moves: &StubMoves<'_>, starts: &List<u32>) -> Result<Found, AllocError>
    requires landings { AreLandings moves.now.on.on moves.now.on.net moves.now.rows.now }
    requires starts { All (λ v. v < node_count moves.now.on.on.lat) starts.now }
    ensures { IfOk result
        (Answers (stub_graph moves.now.on.on moves.now.on.net) starts.now (node_count moves.now.on.on.lat ∷ [])) }
{
    moves.on.are_sound();
    let left = LeftOver {
        count: moves.on.count(),
        via_cost: moves.on.via_price(),
    };
    let mut goals = List::new(alloc);
    goals.push(left.count)?;
    guided_walk(alloc, moves, &left, starts, &goals)
}

// A least walk from the starts to a via that touches a rib, or None exactly where there is none.
fn walk_to_rib(
    alloc: Global,
    moves: &StubMoves<'_>,
    starts: &List<u32>,
) -> Result<Option<Walk>, AllocError>
    requires landings { AreLandings moves.now.on.on moves.now.on.net moves.now.rows.now }
    requires starts { All (λ v. v < node_count moves.now.on.on.lat) starts.now }
    ensures { IfOk result (λ o. MatchOption o
        (NoneLeads (stub_graph moves.now.on.on moves.now.on.net) starts.now (node_count moves.now.on.on.lat ∷ []))
        (LandsLeast moves.now.on.on moves.now.on.net starts.now)) }
{
    moves.on.are_sound();
    match seek(alloc, moves, starts)? {
        Found::Walk(w) => Ok(Some(moves.land(w)?)),
        Found::Closed(reach) => {
            drop(reach);
            Ok(None)
        }
    }
}

impl Site<'_> {
    /// The least way from a legal anchor of the island to a via that touches a rib; None exactly where there is none.
    pub(crate) fn stub_of(
        &self,
        alloc: Global,
        tiles: &Tiles,
        rows: &List<List<bool>>,
        island: &Island,
    ) -> Result<Option<Walk>, AllocError>
        requires serves { ServesSpread tiles.now self.now.d }
        requires net { island.now.net < length self.now.d.nets }
        requires landings { AreLandings (on_site self.now tiles.now.items) island.now.net rows.now }
        ensures { IfOk result (λ o. MatchOption o (HasNoStub (on_site self.now tiles.now.items) island.now)
            (IsLeastStub (on_site self.now tiles.now.items) island.now)) }
    {
        legal_graph_sound();
        let starts = starts_of(alloc, self.lat, self.d, tiles, island)?;
        let moves = StubMoves {
            on: self.moves(tiles, island.net),
            rows,
        };
        walk_to_rib(alloc, &moves, &starts)
    }
}
