//! Items that come to the counts of a group, or go from them, one after another.

ghost use Rattle.std.specs.Prelude.{◌≡◌, ◌*◌, ◌++◌, List, All, length};
ghost use Rattle.pcb_model.specs.declared.item.Item.{Item as OneItem};
ghost use Rattle.pcb_model.specs.Sound.{IsItemOf};
ghost use Rattle.route_lattice.specs.Mesh.{node_count};
ghost use Rattle.route_lattice.specs.Ways.{way_count};
ghost use Rattle.copper_change.specs.Changes.{IsChange};
ghost use Rattle.move_maps.specs.Paint.{Paints, Shuts, AreTallied};
ghost use Rattle.move_maps.specs.Settings.{IsTable};

use crate::brush::{Brush, Stroke};
use crate::counts::Counts;
use crate::group::Group;
use pcb_model::Item;

/// Paints one item into the counts of the group, or out of them.
pub(crate) fn paint_item(group: &Group<'_>, counts: &mut Counts, item: &Item, stroke: Stroke)
    requires item { IsItemOf group.now.d item.now }
    requires size { IsTable group.now counts.old }
    ensures { let s = group.now in Paints stroke s.d s.lat s.first item.now 0
        (node_count s.lat * way_count s.d s.lat s.first) counts.old counts.new }
{
    let brush = Brush::of(group, item, stroke);
    brush.paint(counts);
}

/// Takes the items out of the counts.
fn take_out(group: &Group<'_>, counts: &mut Counts, gone: &[Item])
    requires items { All (IsItemOf group.now.d) gone.now }
    requires size { IsTable group.now counts.old }
    ensures size { length counts.new ≡ length counts.old }
    ensures goes { let s = group.now in (kept : List OneItem)
        → AreTallied s.d s.lat s.first (gone.now ++ kept) counts.old
        → AreTallied s.d s.lat s.first kept counts.new }
{
    for item in gone {
        paint_item(group, counts, item, Stroke::Goes);
    }
}

/// Brings the items into the counts.
fn put_in(group: &Group<'_>, counts: &mut Counts, come: &[Item])
    requires items { All (IsItemOf group.now.d) come.now }
    requires size { IsTable group.now counts.old }
    ensures size { length counts.new ≡ length counts.old }
    ensures comes { let s = group.now in (kept : List OneItem) → AreTallied s.d s.lat s.first kept counts.old
        → AreTallied s.d s.lat s.first (come.now ++ kept) counts.new }
{
    for item in come {
        paint_item(group, counts, item, Stroke::Comes);
    }
}

/// Shuts the moves that some of the items shut, for good.
pub(crate) fn shut_by_each(group: &Group<'_>, counts: &mut Counts, items: &[Item])
    requires items { All (IsItemOf group.now.d) items.now }
    requires size { IsTable group.now counts.old }
    ensures { let s = group.now in Shuts s.d s.lat s.first items.now counts.old counts.new }
{
    for item in items {
        paint_item(group, counts, item, Stroke::Stays);
    }
}

/// Takes the items that are gone out of the counts, and brings in those that have come.
pub(crate) fn change(group: &Group<'_>, counts: &mut Counts, gone: &[Item], come: &[Item])
    requires gone { All (IsItemOf group.now.d) gone.now }
    requires come { All (IsItemOf group.now.d) come.now }
    requires size { IsTable group.now counts.old }
    ensures size { length counts.new ≡ length counts.old }
    ensures changes { let s = group.now in (old new : List OneItem) → IsChange old gone.now come.now new
        → AreTallied s.d s.lat s.first old counts.old → AreTallied s.d s.lat s.first new counts.new }
{
    take_out(group, counts, gone);
    put_in(group, counts, come);
}
