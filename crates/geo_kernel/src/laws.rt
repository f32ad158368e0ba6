//! Laws of keeping, touching and staying inside, for the proofs of callers.
//! The functions do nothing; a call brings the law that its clauses state.

ghost use Rattle.std.specs.Prelude.{◌≤◌, ◌<◌, ℕ, List as Seq, [], ◌∷◌};
ghost use Rattle.geo_kernel.specs.declared.point.Point.{Point as Vertex};
ghost use Rattle.geo_kernel.specs.declared.spine.Spine.{Spine};
ghost use Rattle.geo_kernel.specs.declared.spine.Spine.TheVariants.{Chain};
ghost use Rattle.geo_kernel.specs.Spine.{SpinesKeep, SpinesTouch, BeginInside, closed};
ghost use Rattle.geo_kernel.specs.Solid.{StaysInside};

/// Keeping a distance, and touching by one, say the same of two spines in either order.
pub fn keeping_is_symmetric()
    ensures keep { (s t : Spine) (k : ℕ) → SpinesKeep s t k → SpinesKeep t s k }
    ensures touch { (s t : Spine) (k : ℕ) → SpinesTouch s t k → SpinesTouch t s k }
{}

/// Spines that keep a distance keep each smaller one, and touch by none of these.
pub fn keeps_less()
    ensures keep { (s t : Spine) (k j : ℕ) → SpinesKeep s t k → j ≤ k → SpinesKeep s t j }
    ensures apart { (s t : Spine) (k j : ℕ) → SpinesKeep s t k → j < k → ¬ (SpinesTouch s t j) }
{}

/// A chain that begins inside a loop and keeps a distance above 0 from the loop's edge has all its points inside.
pub fn edges_hold()
    ensures { (chain rim : Seq Vertex) (k : ℕ) → 0 < k → BeginInside chain (rim ∷ [])
        → SpinesKeep (Chain chain) (Chain (closed rim)) k → StaysInside chain (rim ∷ []) }
{}
