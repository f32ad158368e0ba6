//! The cuts of the islands of a net from which nothing leads on.
//! Nothing is laid any more.

ghost use Rattle.std.specs.Prelude.{◌≡◌, ◌<◌, IfOk, Some, length, remove, slice_get};
ghost use Rattle.pcb_islands.specs.declared.net.Island.{Island as OneIsland};
ghost use Rattle.cut_certificate.specs.Cuts.{Cuts as CutsOff};
ghost use Rattle.closing_pass.specs.Closing.{HaveCuts};
ghost use Rattle.closing_pass.specs.inner.ClosedBoard.{MayBeCut, AreShut};

use crate::join::put_back;
use cut_certificate::{Cut, make_cut_among, make_cut_with};
use geo_kernel::List;
use move_maps::MoveMaps;
use pcb_board::Snap;
use pcb_islands::Island;
use pcb_model::Design;
use route_lattice::Lattice;
use std::alloc::{AllocError, Global};
use std::marker::Model;

/// A snapshot of a board, with its design, a lattice, the price of a via in nm, and maps of the moves on it.
#[derive(Drop)]
pub(crate) struct ClosedBoard<'a> {
    pub lat: &'a Lattice,
    pub d: &'a Design,
    pub snap: &'a Snap,
    pub via_cost: u64,
    pub maps: &'a MoveMaps,
}

impl<'a> Model for ClosedBoard<'a> {
    ghost use Rattle.move_maps.specs.Maps.{AreMapsOf};
    ghost use Rattle.closing_pass.specs.inner.ClosedBoard.{ClosedBoardOf, CanCut};

    ghost Value = { ClosedBoardOf };

    ghost view = { λ s. record {
      d = s.d.now;
      lat = s.lat.now;
      items = s.snap.now.items;
      via_cost = s.via_cost;
    } };

    ghost invariant = { λ s. CanCut s.d.now s.lat.now s.via_cost s.snap.now
        × AreMapsOf s.d.now s.lat.now s.snap.now.items s.maps.now };
}

impl ClosedBoard<'_> {
    /// The cut of an island, searched by maps where the net has one.
    fn cut_of(
        &self,
        alloc: Global,
        island: &Island,
        others: &List<Island>,
    ) -> Result<Option<Cut>, AllocError>
        requires { MayBeCut self.now.d island.now }
        ensures { IfOk result
            (CutsOff self.now.d self.now.lat self.now.items self.now.via_cost island.now others.now) }
    {
        let (lat, d, snap, via_cost) = (self.lat, self.d, self.snap, self.via_cost);
        match self
            .maps
            .net_moves(alloc, lat, d, snap, island.net, via_cost)
        {
            Ok(Some(legal)) => {
                let cut = make_cut_with(alloc, lat, d, snap, &legal, island, others, via_cost);
                drop(legal);
                cut
            }
            Ok(None) => make_cut_among(alloc, lat, d, snap, island, others, via_cost),
            Err(error) => Err(error),
        }
    }

    /// The cut of the island at a place, which comes back with the others.
    fn cut_at(
        &self,
        alloc: Global,
        found: List<Island>,
        place: usize,
    ) -> Result<(List<Island>, Cut), AllocError>
        requires shut { AreShut self.now found }
        requires place { place < length found }
        ensures found { IfOk result (λ r. r.0 ≡ found) }
        ensures cut { IfOk result (λ r. (island : OneIsland) → slice_get found place ≡ Some island
            → CutsOff self.now.d self.now.lat self.now.items self.now.via_cost island (remove found place)
            (Some r.1)) }
    {
        let mut others = found;
        let island = others.remove(place);
        let cut = match self.cut_of(alloc, &island, &others) {
            Ok(Some(cut)) => cut,
            Ok(None) => unreachable!(),
            Err(error) => {
                drop((others, island));
                return Err(error);
            }
        };
        match put_back(others, place, island) {
            Ok(found) => Ok((found, cut)),
            Err(error) => {
                drop(cut);
                Err(error)
            }
        }
    }

    /// The cuts of all islands of a net.
    pub(crate) fn cuts_of(
        &self,
        alloc: Global,
        found: List<Island>,
    ) -> Result<List<Cut>, AllocError>
        requires { AreShut self.now found }
        ensures { IfOk result (HaveCuts self.now.d self.now.lat self.now.via_cost self.now.items found) }
    {
        let mut found = found;
        let mut cuts = List::new(alloc);
        for place in 0..found.len() {
            let (same, cut) = self.cut_at(alloc, found, place)?;
            cuts.push(cut)?;
            found = same;
        }
        Ok(cuts)
    }
}
