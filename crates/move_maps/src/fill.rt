//! The counts of a group for some copper: each item is painted in, one after another.

ghost use Rattle.std.specs.Prelude.{◌*◌, ◌<◌, [], ◌∷◌, List as Seq, length, IfOk, OnOk};
ghost use Rattle.pcb_model.specs.declared.item.Item.{Item as OneItem};
ghost use Rattle.pcb_model.specs.Sound.{IsItemOf};
ghost use Rattle.move_maps.specs.Paint.{AreTallied};
ghost use Rattle.move_maps.specs.Settings.{IsTable};
ghost use Rattle.move_maps.specs.Starts.{AreInner};

use crate::brush::Stroke;
use crate::counts::Counts;
use crate::group::Group;
use crate::parts::{is_edge, parts_of};
use crate::start::start_counts;
use crate::tally::{paint_item, shut_by_each};
use pcb_model::{Copper, Item};
use route_lattice::Ground;
use std::alloc::{AllocError, Global};

// Brings an item into the counts of the group: a fixed ban of chains link by link, for good.
fn bring(
    alloc: Global,
    group: &Group<'_>,
    counts: &mut Counts,
    item: &Item,
) -> Result<(), AllocError>
    requires item { IsItemOf group.now.d item.now }
    requires size { IsTable group.now counts.old }
    ensures { let s = group.now in OnOk result ((items : Seq OneItem) → AreTallied s.d s.lat s.first items counts.old
        → AreTallied s.d s.lat s.first (item.now ∷ items) counts.new) }
{
    if !is_edge(item) {
        paint_item(group, counts, item, Stroke::Comes);
        return Ok(());
    }
    let parts = parts_of(alloc, item)?;
    shut_by_each(group, counts, parts.as_slice());
    Ok(())
}

// Brings each item of the copper into the counts of the group of a net.
fn bring_all<C: Copper>(
    alloc: Global,
    on: &Ground<'_, C>,
    first: u32,
    counts: &mut Counts,
) -> Result<(), AllocError>
    requires first { first < length on.now.d.nets }
    requires tallied { AreTallied on.now.d on.now.lat first [] counts.old }
    ensures { OnOk result (AreTallied on.now.d on.now.lat first on.now.items counts.new) }
{
    let copper = on.c;
    copper.in_order();
    let group = Group::of(on, first);
    let mut from = 0;
    while let Some(item) = copper.next_item(from) {
        bring(alloc, &group, counts, item)?;
        let Some(next) = item.id.checked_add(1) else {
            return Ok(());
        };
        from = next;
    }
    Ok(())
}

/// The counts of the group of a net for the copper. `inner` says of each crossing, row by row, whether it lies inside.
pub(crate) fn counts_for<C: Copper>(
    alloc: Global,
    on: &Ground<'_, C>,
    first: u32,
    inner: &[bool],
) -> Result<Counts, AllocError>
    requires first { first < length on.now.d.nets }
    requires inner { let m = on.now.lat in AreInner on.now.d m (length m.ys * length m.xs) inner.now }
    ensures { let s = on.now in IfOk result (AreTallied s.d s.lat first s.items) }
{
    let moves = on.moves(first, 0);
    let mut counts = start_counts(alloc, &moves, inner)?;
    bring_all(alloc, on, first, &mut counts)?;
    Ok(counts)
}
