//! Steps that are known to be there: where they lead and what they cost, by arithmetic on the node's number.

ghost use Rattle.std.specs.Prelude.{◌≡◌, ℕ, ◌<◌, ◌-ℤ◌, pos, length, slice_index_or, unsigned_abs, Some};
ghost use Rattle.route_lattice.specs.declared.moves.Move.{Move as OneMove};
ghost use Rattle.route_lattice.specs.Mesh.{node_count};
ghost use Rattle.route_lattice.specs.Ways.{step_at};
ghost use Rattle.route_lattice.specs.Legal.{way_price};

use route_lattice::{Lattice, Move};

/// How many x lines the lattice of a node has.
fn width_at(lat: &Lattice, node: u32) -> u32
    requires { node < node_count lat.now }
    ensures { result ≡ length lat.now.xs }
{
    let _node = node;
    let _ = lat.count();
    lat.xs().len() as u32
}

/// Where the step of a direction leads, if it is there.
pub(crate) fn step_to(lat: &Lattice, node: u32, dir: u32) -> (Move, u32)
    requires node { node < node_count lat.now }
    requires dir { dir < 4 }
    ensures { (w : OneMove × ℕ) → step_at lat.now node dir ≡ Some w → result ≡ w }
{
    let _ = lat.count();
    let width = width_at(lat, node);
    match dir {
        0 => (Move::Step { dir: 0 }, node + 1),
        1 => (Move::Step { dir: 1 }, node.saturating_sub(1)),
        2 => (Move::Step { dir: 2 }, node + width),
        _ => (Move::Step { dir: 3 }, node.saturating_sub(width)),
    }
}

/// The gap between two lines, given by their places, in nm.
fn gap(lines: &[i64], from: usize, to: usize) -> u64
    ensures { from < length lines.now → to < length lines.now
        → result ≡ unsigned_abs (slice_index_or lines.now to (pos 0) -ℤ slice_index_or lines.now from (pos 0)) }
{
    match (lines.get(from), lines.get(to)) {
        (Some(a), Some(b)) => b.abs_diff(*a),
        _ => 0,
    }
}

/// What the step of a direction costs, if it is there: the gap that it crosses, in nm.
pub(crate) fn step_price(lat: &Lattice, node: u32, dir: u32) -> u64
    requires node { node < node_count lat.now }
    requires dir { dir < 4 }
    ensures { (w : OneMove × ℕ) (via_cost : ℕ) → step_at lat.now node dir ≡ Some w
        → result ≡ way_price lat.now via_cost node (Some w) }
{
    let _ = lat.count();
    let xs = lat.xs().as_slice();
    let ys = lat.ys().as_slice();
    let width = xs.len();
    let place = node as usize;
    let column = place % width;
    match dir {
        0 => gap(xs, column, column + 1),
        1 => gap(xs, column, column.saturating_sub(1)),
        2 => {
            let row = place / width % ys.len();
            gap(ys, row, row + 1)
        }
        _ => {
            let row = place / width % ys.len();
            gap(ys, row, row.saturating_sub(1))
        }
    }
}
