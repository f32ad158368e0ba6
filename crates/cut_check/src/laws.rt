//! Laws of cuts and their sizes, each on a call that does nothing.

ghost use Rattle.std.specs.Prelude.{◌≡◌, ℕ, List as Seq};
ghost use Rattle.pcb_model.specs.declared.design.Design.{Design as TheDesign};
ghost use Rattle.route_lattice.specs.Mesh.{Mesh};
ghost use Rattle.cut_check.specs.declared.stretch.Stretch.{Stretch as OneStretch};
ghost use Rattle.cut_check.specs.Stretches.{AreNodesOf};
ghost use Rattle.cut_check.specs.Sizes.{IsOutCount};

/// Stretches have one list of nodes, and so many moves lead out of nodes.
pub fn sizes_are_one()
    ensures nodes { (m : Mesh) (runs : Seq OneStretch) (xs ys : Seq ℕ) → AreNodesOf m runs xs → AreNodesOf m runs ys
        → xs ≡ ys }
    ensures counts { (d : TheDesign) (m : Mesh) (net : ℕ) (nodes : Seq ℕ) (a b : ℕ) → IsOutCount d m net nodes a
        → IsOutCount d m net nodes b → a ≡ b }
{}
