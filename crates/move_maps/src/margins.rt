//! What is looked up once for all moves of a group that an item may shut: widths, clearances, and a box round the item.
//! A step with both ends beyond one side of the box is clear without a look at the item's pieces.

ghost use Rattle.std.specs.Prelude.{◌↔◌, ◌^◌, [], ◌∷◌, IsTrue};
ghost use Rattle.std.specs.Bool.{OnTrue};
ghost use Rattle.pcb_model.specs.Bounds.{IsFit, IsItemFit};
ghost use Rattle.pcb_model.specs.Near.{IsBoxWithin, IsExtentOf};
ghost use Rattle.pcb_model.specs.Pieces.{wire_piece};
ghost use Rattle.move_maps.specs.Clear.{WireKeeps};
ghost use Rattle.move_maps.specs.Margins.{IsBeyond, IsFence, AreMargins, ShutsSteps};

use crate::clear::wire_keeps;
use crate::cover::grow_for;
use crate::group::Group;
use crate::window::grown;
use geo_kernel::{Point, Rect4};
use pcb_model::{Extent, Item, Kind, clearance, width_of};

/// The width of a group's wires, the clearances that its wires and its vias keep from an item, in nm, and a box beyond
/// which wires keep their clearance.
#[derive(Clone, Copy)]
pub(crate) struct Margins {
    pub width: u64,
    pub wires: u64,
    pub vias: u64,
    pub near: Rect4,
}

// Whether both points are beyond one side of the box.
fn is_beyond(area: Rect4, a: Point, b: Point) -> bool
    ensures { OnTrue result (IsBeyond area a b) }
{
    if a.x <= area.x0 && b.x <= area.x0 {
        return true;
    }
    if area.x1 <= a.x && area.x1 <= b.x {
        return true;
    }
    if a.y <= area.y0 && b.y <= area.y0 {
        return true;
    }
    if area.y1 <= a.y && area.y1 <= b.y {
        return true;
    }
    false
}

impl Margins {
    /// Those of the group and an item with this extent.
    pub(crate) fn of(group: &Group<'_>, item: &Item, extent: Extent) -> Margins
        requires extent { IsExtentOf item.now.pieces extent }
        requires within { IsBoxWithin (2 ^ 29) extent.bounds }
        ensures { AreMargins group.now.d group.now.first item.now result }
    {
        let d = group.d;
        let first = Some(group.first);
        let width = width_of(d, group.first);
        let wires = clearance(d, first, Kind::Wire, item.net, item.kind);
        Margins {
            width,
            wires,
            vias: clearance(d, first, Kind::Via, item.net, item.kind),
            near: grown(extent.bounds, grow_for(wires, width, extent.width)),
        }
    }

    /// Whether a wire of the group between two points keeps its clearance from the item.
    pub(crate) fn step_keeps(&self, layer: u8, a: Point, b: Point, item: &Item) -> bool
        requires fence { IsFence item.now self.now }
        requires fit { IsFit (wire_piece layer self.now.width (a ∷ b ∷ [])) }
        requires item { IsItemFit item.now }
        ensures { IsTrue result ↔ WireKeeps self.now.wires layer self.now.width (a ∷ b ∷ []) item.now }
    {
        if is_beyond(self.near, a, b) {
            return true;
        }
        wire_keeps(self.wires, layer, self.width, &[a, b], item)
    }

    /// Whether no wire from the point keeps the clearance, since a disc at the point doesn't.
    pub(crate) fn shuts_steps(&self, layer: u8, at: Point, item: &Item) -> bool
        requires fence { IsFence item.now self.now }
        requires fit { IsFit (wire_piece layer self.now.width (at ∷ [])) }
        requires item { IsItemFit item.now }
        ensures { OnTrue result (ShutsSteps self.now.wires layer self.now.width at item.now) }
    {
        if is_beyond(self.near, at, at) {
            return false;
        }
        !wire_keeps(self.wires, layer, self.width, &[at], item)
    }
}
