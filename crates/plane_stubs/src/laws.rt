//! Laws of designs with their planes, each on a call that does nothing.

ghost use Rattle.std.specs.Prelude.{ℕ, ◌++◌, map, List, All};
ghost use Rattle.pcb_model.specs.declared.design.Design.{Design as TheDesign};
ghost use Rattle.pcb_model.specs.Plain.{IsPlainCopper};
ghost use Rattle.pcb_model.specs.Sound.{IsSound};
ghost use Rattle.route_lattice.specs.Fits.{FitsDesign};
ghost use Rattle.route_lattice.specs.Mesh.{Mesh};
ghost use Rattle.route_lattice.specs.Whole.{lattice_of};
ghost use Rattle.plane_joins.specs.declared.area.PlaneArea.{PlaneArea as OnePlane};
ghost use Rattle.plane_joins.specs.Planes.{IsPlaneOf};
ghost use Rattle.plane_stubs.specs.Holding.{HoldAsPlaned, LeavesNoStub};
ghost use Rattle.plane_joins.specs.Changed.{AreOnScale};
ghost use Rattle.plane_joins.specs.Planned.{IsPlaned, tight};

use path_wire::own_copper_agrees;
use plane_joins::ribs_hold;

/// Of a design with its planes the ribs are such, and the stubs obey the rules of routed copper; each pair with one of
/// them agrees. No stub is left: an island of a plane's net that holds no rib has no way to one. On the lattice of the
/// design all are whole in the unit of its session.
pub fn planed_designs_hold()
    ensures holds { (d : TheDesign) (lat : Mesh) (planes : List OnePlane) (via_cost : ℕ) (e : TheDesign) → IsSound d
        → IsPlainCopper d → FitsDesign d lat → All (IsPlaneOf d) planes → (h : IsPlaned d lat planes via_cost e)
        → HoldAsPlaned d planes h.ribs h.stubs }
    ensures left { (d : TheDesign) (lat : Mesh) (planes : List OnePlane) (via_cost : ℕ) (e : TheDesign) → IsSound d
        → IsPlainCopper d → FitsDesign d lat → All (IsPlaneOf d) planes → (h : IsPlaned d lat planes via_cost e)
        → LeavesNoStub d lat planes via_cost h.ribs h.stubs }
    ensures scale { (d : TheDesign) (grid : ℕ) (planes : List OnePlane) (via_cost : ℕ) (e : TheDesign) → IsSound d
        → IsPlainCopper d → FitsDesign d (lattice_of d grid) → All (IsPlaneOf d) planes
        → (h : IsPlaned d (lattice_of d grid) planes via_cost e) → AreOnScale d (h.ribs ++ map tight h.stubs) }
{
    ribs_hold();
    own_copper_agrees();
}
