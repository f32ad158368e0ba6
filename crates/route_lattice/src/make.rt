//! The lattice of a design.
//! No list of lines is made before the nodes are counted.

ghost use Rattle.std.specs.Prelude.{◌≡◌, ℕ, ◌+◌, ◌*◌, ◌<◌, ◌≤◌, ◌^◌, length, IfOk, IfSome, unwrap_or};
ghost use Rattle.pcb_model.specs.Sound.{IsSound};
ghost use Rattle.route_lattice.specs.Fits.{FitsDesign};
ghost use Rattle.route_lattice.specs.Mesh.{node_count};
ghost use Rattle.route_lattice.specs.Parts.{ArePartsFit, mesh_of, AreAxesFit, AreAxesOf, first_grid};
ghost use Rattle.route_lattice.specs.Whole.{default_grid, lattice_of, IsLatticeOf};
ghost use Rattle.route_lattice.specs.declared.make.LatticeFault.TheVariants.{Memory};
ghost use Rattle.route_lattice.specs.declared.gather.Parts.{Parts as TheParts};

use crate::axis::{Axis, axis_len, axis_lines, axis_of};
use crate::gather::{Parts, gather};
use crate::limits::{DEFAULT_NODES, FINEST_GRID, MOST_NODES, TRIED_GRIDS};
use crate::lines::Ruler;
use crate::mesh::Lattice;
use geo_kernel::List;
use pcb_model::Design;
use std::alloc::{AllocError, Global};
use thiserror::Error;

/// Why a design has no lattice at a grid.
#[derive(Debug, Drop, Error)]
pub enum LatticeFault {
    /// It would have this many nodes, more than 2^24.
    #[error("the lattice would have {count} nodes")]
    TooManyNodes { count: u128 },
    /// Memory is wanting.
    #[error(transparent)]
    Memory(AllocError),
}

impl From<AllocError> for LatticeFault {
    ghost from_gives = { λ error e. e ≡ Memory error };

    fn from(error: AllocError) -> LatticeFault {
        LatticeFault::Memory(error)
    }
}

/// The lines of both directions.
#[derive(Drop)]
pub(crate) struct Axes {
    pub across: Axis,
    pub up: Axis,
}

/// Both directions of the lattice of parts and a grid.
fn axes_of(alloc: Global, p: &Parts, grid: u64) -> Result<Axes, AllocError>
    requires parts { ArePartsFit p.now }
    requires some { 1 ≤ grid }
    requires fine { grid ≤ 2 ^ 30 }
    ensures fit { IfOk result AreAxesFit }
    ensures axes { IfOk result (AreAxesOf p.now grid) }
{
    let unit = p.unit;
    let x = Ruler {
        unit,
        grid,
        low: p.outline.x0,
        high: p.outline.x1,
    };
    let y = Ruler {
        unit,
        grid,
        low: p.outline.y0,
        high: p.outline.y1,
    };
    let across = axis_of(alloc, x, p.across.as_slice())?;
    let up = axis_of(alloc, y, p.up.as_slice())?;
    Ok(Axes { across, up })
}

/// How many nodes the lattice has.
fn node_total(layers: &List<u8>, a: &Axes) -> u128
    requires layers { length layers.now ≤ 32 }
    requires axes { AreAxesFit a.now }
    ensures { (p : TheParts) (grid : ℕ) → p.layers ≡ layers.now → AreAxesOf p grid a.now
        → result ≡ node_count (mesh_of p grid) }
{
    let height = axis_len(&a.up);
    let width = axis_len(&a.across);
    layers.len() as u128 * u128::from(height) * u128::from(width)
}

/// How many nodes the lattice of parts and a grid has.
fn nodes_at(alloc: Global, p: &Parts, grid: u64) -> Result<u128, AllocError>
    requires parts { ArePartsFit p.now }
    requires some { 1 ≤ grid }
    requires fine { grid ≤ 2 ^ 30 }
    ensures { IfOk result (λ n. n ≡ node_count (mesh_of p.now grid)) }
{
    let axes = axes_of(alloc, p, grid)?;
    Ok(node_total(&p.layers, &axes))
}

/// The default grid of parts.
fn pick_grid(alloc: Global, p: &Parts) -> Result<u64, AllocError>
    requires { ArePartsFit p.now }
    ensures value { IfOk result (λ grid. grid ≡ first_grid p.now) }
    ensures some { IfOk result (λ grid. 1 ≤ grid) }
    ensures fine { IfOk result (λ grid. grid ≤ 2 ^ 30) }
{
    let mut grid = FINEST_GRID;
    for _ in 0..TRIED_GRIDS {
        if nodes_at(alloc, p, grid)? <= DEFAULT_NODES {
            return Ok(grid);
        }
        grid *= 2;
    }
    Ok(grid)
}

/// The grid that is given, or else the default grid.
fn grid_or_default(alloc: Global, p: &Parts, grid: Option<u64>) -> Result<u64, AllocError>
    requires parts { ArePartsFit p.now }
    requires grid { IfSome grid (λ g. (1 ≤ g) × (g ≤ 2 ^ 30)) }
    ensures value { IfOk result (λ g. g ≡ unwrap_or grid (first_grid p.now)) }
    ensures some { IfOk result (λ g. 1 ≤ g) }
    ensures fine { IfOk result (λ g. g ≤ 2 ^ 30) }
{
    match grid {
        Some(g) => Ok(g),
        None => pick_grid(alloc, p),
    }
}

/// The lattice of parts and a grid, of its axes and the number of its nodes.
fn lattice_on(
    alloc: Global,
    p: &Parts,
    grid: u64,
    axes: &Axes,
    count: u32,
) -> Result<Lattice, AllocError>
    requires fit { AreAxesFit axes.now }
    requires axes { AreAxesOf p.now grid axes.now }
    requires counted { count ≡ node_count (mesh_of p.now grid) }
    requires few { count ≤ 2 ^ 24 }
    ensures { IfOk result (λ m. m ≡ mesh_of p.now grid) }
{
    let xs = axis_lines(alloc, &axes.across)?;
    let ys = axis_lines(alloc, &axes.up)?;
    let layers = List::from_slice(alloc, p.layers.as_slice())?;
    Ok(Lattice::of_parts(grid, p.unit, xs, ys, layers, count))
}

/// The lattice of parts and a grid.
pub(crate) fn build(alloc: Global, p: &Parts, grid: u64) -> Result<Lattice, LatticeFault>
    requires parts { ArePartsFit p.now }
    requires some { 1 ≤ grid }
    requires fine { grid ≤ 2 ^ 30 }
    ensures { IsLatticeOf (mesh_of p.now grid) result }
{
    let axes = axes_of(alloc, p, grid)?;
    let count = node_total(&p.layers, &axes);
    if count > MOST_NODES {
        return Err(LatticeFault::TooManyNodes { count });
    }
    Ok(lattice_on(alloc, p, grid, &axes, count as u32)?)
}

impl Lattice {
    /// The lattice of a design at a grid in nm, or at the design's default grid.
    ///
    /// Its lines are the multiples of the grid, rounded down to the session unit, and the coordinates of the anchors of
    /// all pins with a net, as far as they lie strictly inside the box of the first boundary.
    ///
    /// # Errors
    /// `TooManyNodes` with their count, exactly where there would be more than 2^24; `Memory` where memory is wanting.
    pub fn of(alloc: Global, d: &Design, grid: Option<u64>) -> Result<Lattice, LatticeFault>
        requires sound { IsSound d.now }
        requires grid { IfSome grid (λ g. (1 ≤ g) × (g ≤ 2 ^ 30)) }
        ensures lattice { IsLatticeOf (lattice_of d.now (unwrap_or grid (default_grid d.now))) result }
        ensures fits { IfOk result (FitsDesign d.now) }
    {
        let parts = gather(alloc, d)?;
        let grid = grid_or_default(alloc, &parts, grid)?;
        build(alloc, &parts, grid)
    }
}
