//! Stretches of nodes.

ghost use Rattle.std.specs.Prelude.{◌↔◌, All, IsTrue};
ghost use Rattle.cut_check.specs.Stretches.{IsOnLattice};

use route_lattice::Lattice;

/// Nodes of a lattice on one row: the place of the signal layer, that of the y line, and those of the first and the
/// last x line.
#[derive(Clone, Copy)]
pub struct Stretch {
    pub level: u32,
    pub row: u32,
    pub first: u32,
    pub last: u32,
}

fn is_on(lat: &Lattice, s: Stretch) -> bool
    ensures { IsTrue result ↔ IsOnLattice lat.now s }
{
    if s.level as usize >= lat.layers().len() {
        return false;
    }
    if s.row as usize >= lat.ys().len() {
        return false;
    }
    if s.last as usize >= lat.xs().len() {
        return false;
    }
    if s.last < s.first {
        return false;
    }
    true
}

/// Whether each stretch lies on the lattice and has a node.
pub(crate) fn all_on(lat: &Lattice, runs: &[Stretch]) -> bool
    ensures { IsTrue result ↔ All (IsOnLattice lat.now) runs.now }
{
    for s in runs {
        if !is_on(lat, *s) {
            return false;
        }
    }
    true
}
