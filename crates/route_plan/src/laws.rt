//! The law of a bound, on a call that does nothing.
//! Searches of plans rest on it.

ghost use Rattle.std.specs.Prelude.{ℕ, List as Seq};
ghost use Rattle.pcb_model.specs.declared.item.Item.{Item as OneItem};
ghost use Rattle.pcb_model.specs.declared.design.Design.{Design as TheDesign};
ghost use Rattle.route_lattice.specs.Mesh.{Mesh};
ghost use Rattle.geo_kernel.specs.declared.point.Rect4.{Rect4 as OneBox};
ghost use Rattle.wave_search.specs.Around.{AreAround, low_at};
ghost use Rattle.wave_search.specs.Bounds.{IsBound};
ghost use Rattle.ripup.specs.Rips.{CanRip, rip_graph};

use wave_search::box_bound_sound;

/// Over the moves of a net that pass routed items, the way to the nearest of boxes around the goals is a bound for
/// them.
pub fn rip_bound_sound()
    ensures { (d : TheDesign) (m : Mesh) (items : Seq OneItem) (net via_cost penalty : ℕ) (goals : Seq ℕ)
        (boxes : Seq OneBox)
        → CanRip d m net via_cost penalty → AreAround m goals boxes
        → IsBound (rip_graph d m items net via_cost penalty) goals (low_at m boxes) }
{
    box_bound_sound();
}
