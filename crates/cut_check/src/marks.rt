//! Marks on the nodes of stretches.
//! A node that two stretches have is marked and listed once.

ghost use Rattle.std.specs.Prelude.{◌≡◌, ◌↔◌, ◌<◌, ◌≤◌, ◌^◌, ℕ, All, Contains, IfOk, IsTrue, OnOk, length};
ghost use Rattle.std.specs.List.Sorted.{IsStrictlyIncreasing};
ghost use Rattle.route_lattice.specs.Mesh.{node_at, node_count};
ghost use Rattle.cut_check.specs.Stretches.{IsOfSome, IsOfStretch, IsOnLattice};
ghost use Rattle.cut_check.specs.Marks.{IsBlank};
ghost use Rattle.cut_check.specs.inner.Marking.{AreCleared, AreMarked, AreSorted, Gains};

use crate::stretch::Stretch;
use route_lattice::Lattice;
use std::alloc::{AllocError, Global};

/// Marks for the nodes of a lattice, of which none is set.
pub fn blank_marks(alloc: Global, lat: &Lattice) -> Result<Vec<bool>, AllocError>
    ensures { IfOk result (λ marks. IsBlank (node_count lat.now) marks.items) }
{
    let marks = vec![in alloc; false; lat.count() as usize]?;
    Ok(marks)
}

// Marks and lists a node that isn't marked.
fn mark(marks: &mut Vec<bool>, nodes: &mut Vec<u32>, node: u32) -> Result<(), AllocError>
    requires node { node < length marks.old.items }
    requires marked { AreMarked (length marks.old.items) marks.old.items nodes.old.items }
    ensures marked { OnOk result (AreMarked (length marks.old.items) marks.new.items nodes.new.items) }
    ensures gains { OnOk result (Gains (λ v. node ≡ v) nodes.old.items nodes.new.items) }
{
    let place = node as usize;
    if marks[place] {
        return Ok(());
    }
    nodes.push(node)?;
    marks[place] = true;
    Ok(())
}

// The node of the stretch in a column.
fn node_in(lat: &Lattice, s: Stretch, column: u32) -> u32
    requires on { IsOnLattice lat.now s }
    requires column { column ≤ s.last }
    ensures value { result ≡ node_at lat.now s.level s.row column }
    ensures there { result < node_count lat.now }
    ensures small { result < 2 ^ 24 }
{
    let width = lat.xs().len();
    let height = lat.ys().len();
    let _ = lat.count();
    ((s.level as usize * height + s.row as usize) * width + column as usize) as u32
}

fn mark_stretch(
    lat: &Lattice,
    s: Stretch,
    marks: &mut Vec<bool>,
    nodes: &mut Vec<u32>,
) -> Result<(), AllocError>
    requires on { IsOnLattice lat.now s }
    requires marked { AreMarked (node_count lat.now) marks.old.items nodes.old.items }
    ensures marked { OnOk result (AreMarked (node_count lat.now) marks.new.items nodes.new.items) }
    ensures gains { OnOk result (Gains (IsOfStretch lat.now s) nodes.old.items nodes.new.items) }
{
    let _ = node_in(lat, s, s.last);
    for column in s.first..s.last + 1 {
        mark(marks, nodes, node_in(lat, s, column))?;
    }
    Ok(())
}

/// Marks and lists the nodes of the stretches.
pub(crate) fn mark_all(
    lat: &Lattice,
    runs: &[Stretch],
    marks: &mut Vec<bool>,
    nodes: &mut Vec<u32>,
) -> Result<(), AllocError>
    requires on { All (IsOnLattice lat.now) runs.now }
    requires marked { AreMarked (node_count lat.now) marks.old.items nodes.old.items }
    ensures marked { OnOk result (AreMarked (node_count lat.now) marks.new.items nodes.new.items) }
    ensures gains { OnOk result (Gains (IsOfSome lat.now runs.now) nodes.old.items nodes.new.items) }
{
    for s in runs {
        mark_stretch(lat, *s, marks, nodes)?;
    }
    Ok(())
}

/// Takes the marks of the nodes away.
pub(crate) fn clear(marks: &mut Vec<bool>, nodes: &[u32])
    requires there { All (λ v. v < length marks.old.items) nodes.now }
    ensures { AreCleared nodes.now marks.old.items marks.new.items }
{
    for node in nodes {
        marks[*node as usize] = false;
    }
}

fn ascends(nodes: &[u32]) -> bool
    ensures { IsTrue result ↔ IsStrictlyIncreasing nodes.now }
{
    for k in 1..nodes.len() {
        if nodes[k] <= nodes[k - 1] {
            return false;
        }
    }
    true
}

fn sorted(mut nodes: Vec<u32>) -> Vec<u32>
    ensures { AreSorted nodes.items result.items }
{
    nodes.sort_unstable();
    nodes.dedup();
    nodes
}

/// The nodes, ascending.
pub(crate) fn ascending(nodes: Vec<u32>) -> Vec<u32>
    ensures { AreSorted nodes.items result.items }
{
    if ascends(&nodes) {
        return nodes;
    }
    sorted(nodes)
}
