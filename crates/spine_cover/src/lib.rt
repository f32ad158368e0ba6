//! Copper whose spines cover one point touches: this law and its like, for the proofs of callers.
//! The functions do nothing; a call brings the law that its clauses state.
#![tactic(auto)]

ghost use Rattle.std.specs.Prelude.{ℕ, ◌+◌, Contains, List as Seq};
ghost use Rattle.geo_kernel.specs.declared.point.Point.{Point as OnePoint};
ghost use Rattle.geo_kernel.specs.declared.spine.Spine.{Spine as OneSpine};
ghost use Rattle.geo_kernel.specs.Spine.{SpinesTouch};
ghost use Rattle.geo_kernel.specs.Moved.{moved, moved_spine};
ghost use Rattle.geo_kernel.specs.Solid.{IsSimple};
ghost use Rattle.spine_cover.specs.Covering.{CoversBy};

use geo_kernel::Spine;

/// Two spines, each a chain or an area of one loop, that lie within half of `w` and within half of `v` of one
/// point, or have it inside, touch by the sum `w + v`.
/// Lengths are in nm.
pub fn covering_touches()
    ensures { (p : OnePoint) (s t : OneSpine) (w v : ℕ) → IsSimple s → IsSimple t → CoversBy p w s → CoversBy p v t
        → SpinesTouch s t (w + v) }
{}

/// A moved spine covers the moved point of each point that it covered; it is still a chain, or an area of one loop.
pub fn covering_moves()
    ensures covers { (by p : OnePoint) (s : OneSpine) (w : ℕ) → CoversBy p w s
        → CoversBy (moved by p) w (moved_spine by s) }
    ensures simple { (by : OnePoint) (s : OneSpine) → IsSimple s → IsSimple (moved_spine by s) }
{}

/// A chain covers its vertices, whatever its width.
pub fn chains_cover_vertices()
    ensures { (p : OnePoint) (points : Seq OnePoint) (w : ℕ) → Contains points p → CoversBy p w (Spine.Chain points) }
{}
