//! What a set bit says, on a call that does nothing.

ghost use Rattle.std.specs.Prelude.{◌≡◌, ℕ, List, Option, Some, Contains};
ghost use Rattle.pcb_model.specs.declared.item.Item.{Item as OneItem};
ghost use Rattle.pcb_model.specs.declared.design.Design.{Design as TheDesign};
ghost use Rattle.route_lattice.specs.Mesh.{Mesh};
ghost use Rattle.route_lattice.specs.Legal.{probe_at, IsOpen};
ghost use Rattle.move_maps.specs.Groups.{AreAlike};
ghost use Rattle.move_maps.specs.Maps.{IsTally, TalliesChange, MergesTally};

/// A move that nothing shuts in the map of a group is open for each net of the group.
pub fn open_by_bit()
    ensures { (d : TheDesign) (m : Mesh) (items : List OneItem) (g net node i : ℕ) → AreAlike d g net
        → IsTally d g items (probe_at d m g node i) 0 → IsOpen d items net (probe_at d m net node i) }
{}

/// Copper that comes raises a tally where the move isn't clear of it, and copper that goes lowers it.
pub fn tallies_change()
    ensures { TalliesChange }
{}

/// A list that two lists were merged to has the tallies of the two.
pub fn merges_tally()
    ensures { MergesTally }
{}
