//! Laws of designs with further fixed items, each on a call that does nothing.

ghost use Rattle.std.specs.Prelude.{◌≡◌, List, All};
ghost use Rattle.pcb_model.specs.declared.item.Item.{Item as OneItem};
ghost use Rattle.pcb_model.specs.declared.design.Design.{Design as TheDesign};
ghost use Rattle.pcb_model.specs.Pairs.{Agrees};
ghost use Rattle.pcb_model.specs.Plain.{IsPlainCopper, IsPlainItem};
ghost use Rattle.pcb_model.specs.Scale.{scale_of};
ghost use Rattle.pcb_model.specs.Sound.{IsSound};
ghost use Rattle.plane_joins.specs.declared.area.PlaneArea.{PlaneArea as OnePlane};
ghost use Rattle.plane_joins.specs.Changed.{AreOnScale, MayFollow, with_fixed};
ghost use Rattle.plane_joins.specs.Holding.{HoldAsRibs, IsRibOf, LiesInRim};
ghost use Rattle.plane_joins.specs.Planes.{IsPlaneOf};
ghost use Rattle.plane_joins.specs.Ribs.{AreRibs};

use geo_kernel::edges_hold;

/// A design with further fixed wires and vias is as sound and as plain as it was; its items agree as they did; and
/// where all of them are whole in the session's unit, its session has the same scale.
pub fn further_items_serve()
    ensures sound { (d : TheDesign) (more : List OneItem) → IsSound d → MayFollow d more → IsSound (with_fixed d more) }
    ensures plain { (d : TheDesign) (more : List OneItem) → IsPlainCopper d → All IsPlainItem more
        → IsPlainCopper (with_fixed d more) }
    ensures agree { (d : TheDesign) (more : List OneItem) (a b : OneItem) → Agrees d a b
        → Agrees (with_fixed d more) a b }
    ensures disagree { (d : TheDesign) (more : List OneItem) (a b : OneItem) → Agrees (with_fixed d more) a b
        → Agrees d a b }
    ensures scale { (d : TheDesign) (more : List OneItem) → AreOnScale d more
        → scale_of (with_fixed d more) ≡ scale_of d }
{}

/// Ribs are sound further fixed wires, whole in the session's unit, each of one of the planes; each pair with one of
/// them agrees.
pub fn ribs_hold()
    ensures { (d : TheDesign) (planes : List OnePlane) (found : List OneItem) → IsSound d → All (IsPlaneOf d) planes
        → AreRibs d planes found → HoldAsRibs d planes found }
{}

/// All rational points of a rib of a plane lie inside the plane's rim.
pub fn ribs_stay_inside()
    ensures { (d : TheDesign) (p : OnePlane) (a : OneItem) → IsRibOf d a p → LiesInRim p a }
{
    edges_hold();
}

/// Planes have one list of ribs.
pub fn ribs_are_one()
    ensures { (d : TheDesign) (planes : List OnePlane) (found others : List OneItem) → AreRibs d planes found
        → AreRibs d planes others → found ≡ others }
{}
