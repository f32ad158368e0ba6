//! A snapshot with the maps of the moves on it.
//! The maps are made once, and follow to each later snapshot.

ghost use Rattle.std.specs.Prelude.{◌≡◌, IfOk, IfSome, OnOk};
ghost use Rattle.move_maps.specs.Maps.{AreMapsOf};
ghost use Rattle.route_lattice.specs.Fits.{FitsDesign};
ghost use Rattle.route_plan.specs.Mapped.{CanMap, IsLater, IsMapped, IsMappedOn};

use copper_change::differences_are_changes;
use move_maps::MoveMaps;
use pcb_board::{Board, Snap, boards_serve, ids_stay};
use pcb_model::Copper;
use route_lattice::Lattice;
use std::alloc::{AllocError, Global};

/// A snapshot, and the maps of the moves on it.
#[derive(Drop)]
pub struct MappedSnap {
    pub snap: Snap,
    pub maps: MoveMaps,
}

impl MappedSnap {
    /// The same once more. `AllocError` comes only for want of memory.
    pub fn copy(&self, alloc: Global) -> Result<MappedSnap, AllocError>
        ensures { IfOk result (λ s. s ≡ self.now) }
    {
        let snap = self.snap.share()?;
        let maps = self.maps.copy(alloc)?;
        Ok(MappedSnap { snap, maps })
    }
}

// Lets the maps of an earlier snapshot follow to a later one. Where no entry came between them, nothing is asked.
fn follow(lat: &Lattice, last: &Snap, snap: &Snap, maps: &mut MoveMaps) -> Result<(), AllocError>
    requires can { CanMap lat.now snap.now }
    requires later { IsLater lat.now (record { snap = last.now; maps = maps.old }) snap.now }
    ensures { OnOk result (AreMapsOf snap.now.design lat.now snap.now.items maps.new) }
{
    if last.number() == snap.number() {
        return Ok(());
    }
    differences_are_changes();
    last.in_order();
    snap.in_order();
    let since = snap.since(last)?;
    maps.follow(lat, snap.design(), snap, &since.gone, &since.come)?;
    Ok(())
}

/// The snapshot with its maps, which are made anew only where none was mapped before. `AllocError` comes only for
/// want of memory.
pub fn map_snap(
    alloc: Global,
    lat: &Lattice,
    last: Option<MappedSnap>,
    snap: Snap,
) -> Result<MappedSnap, AllocError>
    requires can { CanMap lat.now snap }
    requires later { IfSome last (λ s. IsLater lat.now s snap) }
    ensures { IfOk result (IsMapped lat.now snap) }
{
    match last {
        Some(
            MappedSnap {
                snap: before,
                mut maps,
            },
        ) => {
            let followed = follow(lat, &before, &snap, &mut maps);
            drop(before);
            match followed {
                Ok(()) => Ok(MappedSnap { snap, maps }),
                Err(error) => {
                    drop((snap, maps));
                    Err(error)
                }
            }
        }
        None => match MoveMaps::of(alloc, lat, snap.design(), &snap) {
            Ok(maps) => Ok(MappedSnap { snap, maps }),
            Err(error) => {
                drop(snap);
                Err(error)
            }
        },
    }
}

/// The board as it is, with the maps of the moves on it, by what was mapped of it before. `AllocError` comes only for
/// want of memory.
pub fn map_board(
    alloc: Global,
    lat: &Lattice,
    last: Option<MappedSnap>,
    board: &Board,
) -> Result<MappedSnap, AllocError>
    requires fits { FitsDesign board.now.design lat.now }
    requires last { IfSome last (IsMappedOn lat.now board.now) }
    ensures { IfOk result (IsMappedOn lat.now board.now) }
{
    board.keeps();
    boards_serve();
    ids_stay();
    let snap = board.snap()?;
    map_snap(alloc, lat, last, snap)
}
