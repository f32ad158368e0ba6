//! Wires and vias of a walk: one wire for each stretch of steps, one via for each via move.
//! A wire's vertices are the ends of its stretch and the nodes at which the direction changes.

ghost use Rattle.std.specs.Prelude.{◌≡◌, ◌+◌, ◌<◌, ◌≤◌, ◌∷◌, ◌++◌, [], map, All, IfOk, OnOk, length, true};
ghost use Rattle.std.specs.Prelude.{slice_index, drop};
ghost use Rattle.pcb_model.specs.Rules.{width_for};
ghost use Rattle.route_lattice.specs.Mesh.{node_count, point_of, layer_of};
ghost use Rattle.path_wire.specs.Wires.{IsNetWalk, goes_on as goes_on_of, corners as corners_of, copper_from};
ghost use Rattle.path_wire.specs.Wires.{copper_of};

use geo_kernel::{List, Point};
use pcb_model::{Design, Metal, width_of};
use route_lattice::{Lattice, Move, Walk};
use std::alloc::{AllocError, Global};

/// The copper of a walk of a net, in order: a wire of the net's width for each longest stretch of steps, and a via
/// for each via move.
/// A walk without moves gives a wire from the node's point to itself. `AllocError` comes only for want of memory.
pub fn walk_items(
    alloc: Global,
    lat: &Lattice,
    d: &Design,
    net: u32,
    w: &Walk,
) -> Result<List<Metal>, AllocError>
    requires { IsNetWalk d.now lat.now net w.now.nodes w.now.moves }
    ensures { IfOk result (λ metals. metals ≡ copper_of d.now lat.now net w.now.nodes w.now.moves) }
{
    let width = width_of(d, net);
    if w.moves.is_empty() {
        return point_wire(alloc, lat, width, w.nodes.as_slice()[0]);
    }
    lay(alloc, lat, width, w.nodes.as_slice(), w.moves.as_slice())
}

/// A wire from a node's point to itself.
fn point_wire(
    alloc: Global,
    lat: &Lattice,
    width: u64,
    node: u32,
) -> Result<List<Metal>, AllocError>
    requires { node < node_count lat.now }
    ensures { IfOk result
        (λ metals. metals
        ≡ Metal.Wire (layer_of lat.now node) width (point_of lat.now node ∷ point_of lat.now node ∷ []) ∷ []) }
{
    let at = lat.point(node);
    let chain = List::from_slice(alloc, &[at, at])?;
    let mut metals = List::new(alloc);
    metals.push(Metal::Wire {
        layer: lat.layer(node),
        width,
        chain,
    })?;
    Ok(metals)
}

/// Whether the moves go on by a step in the direction.
pub(crate) fn goes_on(dir: u8, moves: &[Move]) -> bool
    ensures { result ≡ goes_on_of dir moves.now }
{
    if moves.is_empty() {
        return false;
    }
    match moves[0] {
        Move::Step { dir: next } => dir == next,
        Move::Via { .. } => false,
    }
}

/// The points of the stretch of steps that begins at the first node: its ends and corners.
fn stretch(
    alloc: Global,
    lat: &Lattice,
    nodes: &[u32],
    moves: &[Move],
) -> Result<List<Point>, AllocError>
    requires there { All (λ v. v < node_count lat.now) nodes.now }
    requires lengths { length nodes.now ≡ length moves.now + 1 }
    ensures { IfOk result
        (λ points. points
        ≡ map (point_of lat.now) (slice_index nodes.now 0 ∷ corners_of (drop 1 nodes.now) moves.now)) }
{
    let mut points = List::new(alloc);
    points.push(lat.point(nodes[0]))?;
    for i in 0..moves.len() {
        match moves[i] {
            Move::Step { dir } => {
                if !goes_on(dir, &moves[i + 1..]) {
                    points.push(lat.point(nodes[i + 1]))?;
                }
            }
            Move::Via { .. } => return Ok(points),
        }
    }
    Ok(points)
}

/// The wire of the stretch of steps that begins at the first node.
fn wire(
    alloc: Global,
    lat: &Lattice,
    width: u64,
    nodes: &[u32],
    moves: &[Move],
) -> Result<Metal, AllocError>
    requires there { All (λ v. v < node_count lat.now) nodes.now }
    requires lengths { length nodes.now ≡ length moves.now + 1 }
    ensures { IfOk result
        (λ a. a ≡ Metal.Wire (layer_of lat.now (slice_index nodes.now 0)) width
        (map (point_of lat.now) (slice_index nodes.now 0 ∷ corners_of (drop 1 nodes.now) moves.now))) }
{
    let chain = stretch(alloc, lat, nodes, moves)?;
    Ok(Metal::Wire {
        layer: lat.layer(nodes[0]),
        width,
        chain,
    })
}

/// The wires and vias of a walk.
fn lay(
    alloc: Global,
    lat: &Lattice,
    width: u64,
    nodes: &[u32],
    moves: &[Move],
) -> Result<List<Metal>, AllocError>
    requires there { All (λ v. v < node_count lat.now) nodes.now }
    requires lengths { length nodes.now ≡ length moves.now + 1 }
    ensures { IfOk result (λ metals. metals ≡ copper_from lat.now width true nodes.now moves.now) }
{
    let mut metals = List::new(alloc);
    push_all(&mut metals, alloc, lat, width, nodes, moves)?;
    Ok(metals)
}

/// Appends the wires and vias of a walk.
fn push_all(
    metals: &mut List<Metal>,
    alloc: Global,
    lat: &Lattice,
    width: u64,
    nodes: &[u32],
    moves: &[Move],
) -> Result<(), AllocError>
    requires there { All (λ v. v < node_count lat.now) nodes.now }
    requires lengths { length nodes.now ≡ length moves.now + 1 }
    ensures { OnOk result (metals.new ≡ metals.old ++ copper_from lat.now width true nodes.now moves.now) }
{
    let mut fresh = true;
    for i in 0..moves.len() {
        match moves[i] {
            Move::Step { dir: _dir } => {
                if fresh {
                    metals.push(wire(alloc, lat, width, &nodes[i..], &moves[i..])?)?;
                }
                fresh = false;
            }
            Move::Via {
                padstack,
                layer: _layer,
            } => {
                metals.push(Metal::Via {
                    padstack,
                    at: lat.point(nodes[i]),
                })?;
                fresh = true;
            }
        }
    }
    Ok(())
}
