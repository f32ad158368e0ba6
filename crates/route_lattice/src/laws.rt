//! Laws of the lattice of a design, each on a call that does nothing.
//! Other crates cite them by what these calls ensure.

ghost use Rattle.std.specs.Prelude.{◌≡◌, ℕ, ◌<◌, ◌≤◌, ◌^◌, true, false};
ghost use Rattle.geo_kernel.specs.Boxes.{IsLeastBox};
ghost use Rattle.geo_kernel.specs.Plane.{IsWithin};
ghost use Rattle.pcb_model.specs.declared.design.Design.{Design as TheDesign};
ghost use Rattle.pcb_model.specs.Sound.{IsSound};
ghost use Rattle.route_lattice.specs.Gather.{anchors_of, first_points, outline_of, unit_of};
ghost use Rattle.route_lattice.specs.Lines.{AreLines};
ghost use Rattle.route_lattice.specs.Mesh.{node_count, point_of};
ghost use Rattle.route_lattice.specs.Whole.{lattice_of};

/// The lines ascend, and are exactly the numbers strictly inside the box that are lines of the grid or anchors'
/// coordinates.
pub fn lines_by_membership()
    ensures across { (d : TheDesign) (grid : ℕ) → 1 ≤ grid
        → AreLines (unit_of d) grid (outline_of d).x0 (outline_of d).x1 (anchors_of (unit_of d) false d.pins)
        (lattice_of d grid).xs }
    ensures up { (d : TheDesign) (grid : ℕ) → 1 ≤ grid
        → AreLines (unit_of d) grid (outline_of d).y0 (outline_of d).y1 (anchors_of (unit_of d) true d.pins)
        (lattice_of d grid).ys }
{}

/// The box of the first boundary is the least box of its points.
pub fn outline_is_least()
    ensures { (d : TheDesign) → IsSound d → IsLeastBox (first_points d.bounds) (outline_of d) }
{}

/// The point of every node is within 2^29.
pub fn nodes_within()
    ensures { (d : TheDesign) (grid node : ℕ) → IsSound d → node < node_count (lattice_of d grid)
        → IsWithin (2 ^ 29) (point_of (lattice_of d grid) node) }
{}
