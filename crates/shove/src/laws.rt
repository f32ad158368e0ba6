//! Laws of shoved chains, each on a call that does nothing.
//! Other crates cite them by what these calls ensure.

ghost use Rattle.std.specs.Prelude.{◌≡◌, ◌≤◌, ◌^◌, ℕ, Bool, List as Seq, All, length};
ghost use Rattle.geo_kernel.specs.declared.point.Point.{Point as OnePoint};
ghost use Rattle.geo_kernel.specs.Plane.{IsWithin};
ghost use Rattle.pcb_model.specs.declared.design.Design.{Design as TheDesign};
ghost use Rattle.route_lattice.specs.Mesh.{Mesh};
ghost use Rattle.route_lattice.specs.Fits.{FitsDesign};
ghost use Rattle.shove.specs.Shoves.{IsShovedChain};

/// A run of a chain has one shoved chain each way. It has at least two points, and none beyond 2^29 where the old
/// chain has none.
pub fn shoved_chains()
    ensures one { (m : Mesh) (chain : Seq OnePoint) (r : ℕ) (up : Bool) (s t : Seq OnePoint)
        → IsShovedChain m chain r up s → IsShovedChain m chain r up t → s ≡ t }
    ensures points { (m : Mesh) (chain : Seq OnePoint) (r : ℕ) (up : Bool) (s : Seq OnePoint)
        → IsShovedChain m chain r up s → 2 ≤ length s }
    ensures within { (d : TheDesign) (m : Mesh) (chain : Seq OnePoint) (r : ℕ) (up : Bool) (s : Seq OnePoint)
        → FitsDesign d m → All (IsWithin (2 ^ 29)) chain → IsShovedChain m chain r up s → All (IsWithin (2 ^ 29)) s }
{}
