//! Boards of texts with their lattices, and what is said of both.
//! Lengths in texts are in um, and those of designs and lattices in nm.

ghost use Rattle.std.specs.Prelude.{◌≤◌, ◌^◌, IfSome};
ghost use Rattle.pcb_model.specs.Sound.{IsSound};
ghost use Rattle.route_lattice.specs.Fits.{FitsDesign};

use crate::board::board;
use pcb_model::Design;
use route_lattice::{Lattice, LatticeFault};
use std::alloc::Global;

/// The lattice of a design at a grid of 1 mm.
pub(crate) fn lattice_of(alloc: Global, d: &Design) -> Option<Lattice>
    requires { IsSound d.now }
    ensures { IfSome result (FitsDesign d.now) }
{
    match Lattice::of(alloc, d, Some(1_000_000)) {
        Ok(lattice) => Some(lattice),
        Err(_) => None,
    }
}

/// A grid of at most 1 mm; 0 stands for the default grid.
fn grid_of(grid: u32) -> Option<u64>
    ensures { IfSome result (λ g. (1 ≤ g) × (g ≤ 2 ^ 30)) }
{
    if grid == 0 || grid > 1_000_000 {
        None
    } else {
        Some(grid as u64)
    }
}

/// What a test says of a lattice and its design.
pub(crate) trait Says {
    /// Whether it is so.
    fn holds(&self, alloc: Global, d: &Design, lat: &Lattice) -> bool
        requires sound { IsSound d.now }
        requires fits { FitsDesign d.now lat.now };
}

fn holds_at<S: Says>(alloc: Global, d: &Design, grid: u32, says: &S) -> Result<bool, u128>
    requires { IsSound d.now }
{
    match Lattice::of(alloc, d, grid_of(grid)) {
        Ok(lattice) => Ok(says.holds(alloc, d, &lattice)),
        Err(LatticeFault::TooManyNodes { count }) => Err(count),
        Err(LatticeFault::Memory(_)) => Err(0),
    }
}

/// Whether it holds of the lattice of a text at a grid, or the number of the nodes where they are too many.
pub(crate) fn holds<S: Says>(alloc: Global, text: &str, grid: u32, says: &S) -> Result<bool, u128> {
    match board(alloc, text) {
        Some(d) => holds_at(alloc, &d, grid, says),
        None => Err(0),
    }
}
