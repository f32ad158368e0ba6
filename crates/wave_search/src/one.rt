//! Laws of stated walks, on a call that does nothing.
//! There is at most one such walk, and it is a least one.

ghost use Rattle.wave_search.specs.Stated.{AreLeastStated, AreOneStated};

use route_lattice::Moves;

/// A stated walk is a least walk. Two of them, between the same starts and goals in whatever order, are equal.
pub fn stated_walks_are_one<M: Moves>(m: &M)
    ensures least { AreLeastStated (M.graph m.now) }
    ensures one { AreOneStated (M.graph m.now) }
{}
