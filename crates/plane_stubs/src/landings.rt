//! Which via moves touch a rib, as a table: a search has no memory to make the via's item.

ghost use Rattle.std.specs.Prelude.{◌≡◌, ◌≤◌, ◌<◌, IfOk, length};
ghost use Rattle.pcb_tiles.specs.Spread.{ServesSpread};
ghost use Rattle.route_lattice.specs.Ways.{way_count};
ghost use Rattle.plane_stubs.specs.inner.Landings.{IsLandingRow, AreLandings};
ghost use Rattle.plane_stubs.specs.inner.Sites.{on_site};

use crate::rib_moves::RibMoves;
use crate::site::Site;
use geo_kernel::List;
use pcb_tiles::Tiles;
use std::alloc::{AllocError, Global};

// Whether what move `i` of a node lays touches a rib, node by node.
fn row_of(alloc: Global, moves: &RibMoves<'_>, i: u32) -> Result<List<bool>, AllocError>
    requires via { 4 ≤ i }
    requires index { i < way_count moves.now.on.d moves.now.on.lat moves.now.net }
    ensures { IfOk result (IsLandingRow moves.now.on moves.now.net i) }
{
    let mut row = List::new(alloc);
    for node in 0..moves.count() {
        let lands = moves.lands(alloc, node, i)?;
        row.push(lands)?;
    }
    Ok(row)
}

/// A net, and which of its via moves touch a rib: a row of nodes for each.
#[derive(Drop)]
pub(crate) struct Landings {
    pub(crate) net: u32,
    pub(crate) rows: List<List<bool>>,
}

// The rows of all via moves of a net.
fn rows_of(alloc: Global, moves: &RibMoves<'_>) -> Result<List<List<bool>>, AllocError>
    ensures { IfOk result (AreLandings moves.now.on moves.now.net) }
{
    let mut rows = List::new(alloc);
    for i in 4..moves.arity() {
        let row = row_of(alloc, moves, i)?;
        rows.push(row)?;
    }
    Ok(rows)
}

impl Site<'_> {
    /// Which via moves of a net touch a rib.
    pub(crate) fn landings(
        &self,
        alloc: Global,
        tiles: &Tiles,
        net: u32,
    ) -> Result<Landings, AllocError>
        requires serves { ServesSpread tiles.now self.now.d }
        requires net { net < length self.now.d.nets }
        ensures net { IfOk result (λ l. l.net ≡ net) }
        ensures rows { IfOk result (λ l. AreLandings (on_site self.now tiles.now.items) net l.rows) }
    {
        let moves = self.moves(tiles, net);
        let rows = rows_of(alloc, &moves)?;
        Ok(Landings { net, rows })
    }
}
