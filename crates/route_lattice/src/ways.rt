//! The moves of a net at a node: steps to the next lines, and vias to other signal layers.
//! Where a move leads is arithmetic on the node's number.

ghost use Rattle.std.specs.Prelude.{◌≡◌, ◌+◌, ◌*◌, ◌/◌, ◌%◌, ◌<◌, ◌≤◌, ◌^◌, length, IfSome};
ghost use Rattle.pcb_model.specs.Bounds.{IsDesignFit};
ghost use Rattle.pcb_model.specs.Sound.{IsSound};
ghost use Rattle.route_lattice.specs.Mesh.{node_count, node_at, row, column};
ghost use Rattle.route_lattice.specs.Fits.{FitsDesign};
ghost use Rattle.route_lattice.specs.Ways.{step_at, vias_of, via_at, way as way_at, way_count as way_count_of};

use crate::mesh::Lattice;
use crate::moves::Move;
use crate::near::can_join;
use pcb_model::Design;
use pcb_model::pieces::padstack_pieces;

impl Lattice {
    /// The node of a signal layer, a y line and an x line, each by its place.
    pub(crate) fn node(&self, level: usize, row: usize, column: usize) -> u32
        requires level { level < length self.now.layers }
        requires row { row < length self.now.ys }
        requires column { column < length self.now.xs }
        ensures value { result ≡ node_at self.now level row column }
        ensures there { result < node_count self.now }
    {
        let _ = self.count();
        let width = self.xs().len();
        let height = self.ys().len();
        ((level * height + row) * width + column) as u32
    }

    /// The step of a direction, below 4.
    fn step(&self, node: u32, dir: u32) -> Option<(Move, u32)>
        requires node { node < node_count self.now }
        requires dir { dir < 4 }
        ensures { result ≡ step_at self.now node dir }
    {
        let _ = self.count();
        let width = self.xs().len();
        let height = self.ys().len();
        let place = node as usize;
        let i = place % width;
        let j = place / width % height;
        if dir == 0 {
            if i + 1 < width {
                Some((Move::Step { dir: 0 }, node + 1))
            } else {
                None
            }
        } else if dir == 1 {
            if 0 < i {
                Some((Move::Step { dir: 1 }, node - 1))
            } else {
                None
            }
        } else if dir == 2 {
            if j + 1 < height {
                Some((Move::Step { dir: 2 }, (place + width) as u32))
            } else {
                None
            }
        } else if 0 < j {
            Some((Move::Step { dir: 3 }, (place - width) as u32))
        } else {
            None
        }
    }

    /// The node above or below a node, on signal layer `level`.
    pub fn node_on(&self, node: u32, level: usize) -> u32
        requires node { node < node_count self.now }
        requires level { level < length self.now.layers }
        ensures { result ≡ node_at self.now level (row self.now node) (column self.now node) }
    {
        let width = self.xs().len();
        let place = node as usize;
        self.node(level, place / width % self.ys().len(), place % width)
    }

    /// The via of a padstack to signal layer `level`.
    fn via(&self, d: &Design, node: u32, padstack: u32, level: usize) -> Option<(Move, u32)>
        requires node { node < node_count self.now }
        requires level { level < length self.now.layers }
        ensures { result ≡ via_at d.now self.now node padstack level }
    {
        let layer = self.layers().as_slice()[level];
        let from = self.layer(node);
        if from == layer {
            return None;
        }
        let pieces = padstack_pieces(d, padstack);
        if can_join(pieces, self.point(node), from, layer) {
            Some((Move::Via { padstack, layer }, self.node_on(node, level)))
        } else {
            None
        }
    }

    /// How many numbers the moves of a node have for a net.
    pub fn way_count(&self, d: &Design, net: u32) -> u32
        requires sound { IsSound d.now }
        requires fits { FitsDesign d.now self.now }
        requires net { net < length d.now.nets }
        ensures { result ≡ way_count_of d.now self.now net }
    {
        let vias = d.nets.as_slice()[net as usize].vias.len();
        (4 + vias * self.layers().len()) as u32
    }

    /// Move `i` of a node for a net, and the node that it leads to.
    pub(crate) fn way(&self, d: &Design, net: u32, node: u32, i: u32) -> Option<(Move, u32)>
        requires sound { IsSound d.now }
        requires fits { FitsDesign d.now self.now }
        requires net { net < length d.now.nets }
        requires node { node < node_count self.now }
        requires index { i < way_count_of d.now self.now net }
        ensures value { result ≡ way_at d.now self.now net node i }
        ensures leads { IfSome result (λ w. w.1 < node_count self.now) }
    {
        if i < 4 {
            return self.step(node, i);
        }
        let number = (i - 4) as usize;
        let layers = self.layers().len();
        let padstack = d.nets.as_slice()[net as usize].vias.as_slice()[number / layers];
        self.via(d, node, padstack, number % layers)
    }
}
