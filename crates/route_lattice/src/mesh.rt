//! The lattice: the crossings of x lines and y lines on each signal layer, as numbered nodes.
//! A node's point and layer are arithmetic on its number.

ghost use Rattle.std.specs.Prelude.{◌≡◌, ℕ, ◌+◌, ◌*◌, ◌/◌, ◌%◌, ◌<◌, ◌≤◌, ◌^◌, length};
ghost use Rattle.route_lattice.specs.Mesh.{node_count, point_of, layer_of};

use geo_kernel::{List, Point};
use std::marker::Model;

/// The crossings of lines on each signal layer. Node `(l ny + j) nx + i` is that of signal layer l, y line j and x
/// line i.
#[derive(Drop)]
pub struct Lattice {
    grid: u64,
    unit: u64,
    xs: List<i64>,
    ys: List<i64>,
    layers: List<u8>,
    count: u32,
}

impl Model for Lattice {
    ghost use Rattle.std.specs.Prelude.{◌≡◌, ℕ, ◌*◌, ◌≤◌, ◌^◌, length};
    ghost use Rattle.route_lattice.specs.Mesh.{Mesh};

    ghost Value = { Mesh };

    ghost view = { λ s. record { grid = s.grid; unit = s.unit; xs = s.xs; ys = s.ys; layers = s.layers } };

    ghost invariant = { λ s. (s.count ≡ length s.layers * length s.ys * length s.xs) × (s.count ≤ 2 ^ 24) };
}

impl Lattice {
    /// A lattice of its parts.
    pub(crate) fn of_parts(
        grid: u64,
        unit: u64,
        xs: List<i64>,
        ys: List<i64>,
        layers: List<u8>,
        count: u32,
    ) -> Lattice
        requires counted { count ≡ length layers * length ys * length xs }
        requires few { count ≤ 2 ^ 24 }
        ensures grid { result.grid ≡ grid }
        ensures unit { result.unit ≡ unit }
        ensures xs { result.xs ≡ xs }
        ensures ys { result.ys ≡ ys }
        ensures layers { result.layers ≡ layers }
    {
        Lattice {
            grid,
            unit,
            xs,
            ys,
            layers,
            count,
        }
    }

    /// The grid, in nm.
    pub fn grid(&self) -> u64
        ensures { result ≡ self.now.grid }
    {
        self.grid
    }

    /// The unit of the session to which anchors are rounded, in nm.
    pub fn unit(&self) -> u64
        ensures { result ≡ self.now.unit }
    {
        self.unit
    }

    /// The number of nodes.
    pub fn count(&self) -> u32
        ensures nodes { result ≡ node_count self.now }
        ensures few { result ≤ 2 ^ 24 }
    {
        self.count
    }

    /// The x of the lines across, ascending, in nm.
    pub fn xs(&self) -> &List<i64>
        ensures { result.now ≡ self.now.xs }
    {
        &self.xs
    }

    /// The y of the lines up, ascending, in nm.
    pub fn ys(&self) -> &List<i64>
        ensures { result.now ≡ self.now.ys }
    {
        &self.ys
    }

    /// The numbers of the signal layers among the layers of the board.
    pub fn layers(&self) -> &List<u8>
        ensures { result.now ≡ self.now.layers }
    {
        &self.layers
    }

    /// A node's point.
    pub fn point(&self, node: u32) -> Point
        requires { node < node_count self.now }
        ensures { result ≡ point_of self.now node }
    {
        let width = self.xs.len();
        let height = self.ys.len();
        let place = node as usize;
        Point {
            x: self.xs.as_slice()[place % width],
            y: self.ys.as_slice()[place / width % height],
        }
    }

    /// The layer of the board on which a node lies.
    pub fn layer(&self, node: u32) -> u8
        requires { node < node_count self.now }
        ensures { result ≡ layer_of self.now node }
    {
        let place = node as usize / self.xs.len() / self.ys.len();
        self.layers.as_slice()[place]
    }
}
