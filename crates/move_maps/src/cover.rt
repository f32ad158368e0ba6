//! The window of the nodes whose moves copper of some extent may shut: steps and vias of a group alike.

ghost use Rattle.std.specs.Prelude.{◌≡◌, ℕ, ◌+◌, ◌-◌, ◌*◌, ◌≤◌, ◌<◌, ◌^◌, ◌-ℤ◌, min, max, length};
ghost use Rattle.pcb_model.specs.declared.item.Item.{Item as OneItem};
ghost use Rattle.pcb_model.specs.Near.{IsBoxWithin, IsExtentOf};
ghost use Rattle.pcb_model.specs.Pieces.{padstack_pieces};
ghost use Rattle.pcb_model.specs.Sound.{IsSound};
ghost use Rattle.move_maps.specs.Paint.{Covers, CoversSteps, CoversVia, IsWindowIn, IsHeld};

use crate::group::Group;
use crate::window::{Window, window_for};
use geo_kernel::{Point, Rect4};
use pcb_model::{Design, Extent, Probe, width_of};

/// How far a box has to be grown for copper of these widths beyond it to keep each clearance up to `reach`.
pub(crate) fn grow_for(reach: u64, one: u64, other: u64) -> u64
    requires reach { reach ≤ 2 ^ 28 }
    requires one { one ≤ 2 ^ 28 }
    requires other { other ≤ 2 ^ 28 }
    ensures enough { 2 * reach + one + other + 1 ≤ 2 * result }
    ensures within { result ≤ 2 ^ 31 }
{
    reach + (one + other) / 2 + 1
}

// The window with the lines beside it.
fn widened(window: Window, columns: usize, rows: usize) -> Window
    requires right { window.right ≤ columns }
    requires top { window.top ≤ rows }
    ensures left { result.left ≡ window.left - 1 }
    ensures right { result.right ≡ min columns (window.right + 1) }
    ensures bottom { result.bottom ≡ window.bottom - 1 }
    ensures top { result.top ≡ min rows (window.top + 1) }
{
    Window {
        left: window.left.saturating_sub(1),
        right: columns.min(window.right.saturating_add(1)),
        bottom: window.bottom.saturating_sub(1),
        top: rows.min(window.top.saturating_add(1)),
    }
}

/// The least window over both.
pub(crate) fn joined(a: Window, b: Window) -> Window
    ensures a { IsHeld a result }
    ensures b { IsHeld b result }
    ensures right { result.right ≡ max a.right b.right }
    ensures top { result.top ≡ max a.top b.top }
    ensures left { result.left ≡ min a.left b.left }
    ensures bottom { result.bottom ≡ min a.bottom b.bottom }
{
    Window {
        left: a.left.min(b.left),
        right: a.right.max(b.right),
        bottom: a.bottom.min(b.bottom),
        top: a.top.max(b.top),
    }
}

/// The nodes out of the window have steps that are clear of each item of the extent.
pub(crate) fn step_window(group: &Group<'_>, extent: Extent) -> Window
    requires bounds { IsBoxWithin (2 ^ 29) extent.bounds }
    requires width { extent.width ≤ 2 ^ 28 }
    ensures covers { let s = group.now in
        (b : OneItem) → IsExtentOf b.pieces extent → CoversSteps s.d s.lat s.first b result }
    ensures left { result.left ≤ length group.now.lat.xs }
    ensures right { result.right ≤ length group.now.lat.xs }
    ensures bottom { result.bottom ≤ length group.now.lat.ys }
    ensures top { result.top ≤ length group.now.lat.ys }
{
    let lat = group.lat;
    let grow = grow_for(group.reach, width_of(group.d, group.first), extent.width);
    let window = window_for(group, extent.bounds, grow);
    widened(window, lat.xs().len(), lat.ys().len())
}

// Where a point may be for copper in the box of a padstack about it to meet an item's box.
fn around(item: Rect4, stack: Rect4) -> Rect4
    requires item { IsBoxWithin (2 ^ 29) item }
    requires stack { IsBoxWithin (2 ^ 29) stack }
    ensures x0 { result.x0 ≡ item.x0 -ℤ stack.x1 }
    ensures y0 { result.y0 ≡ item.y0 -ℤ stack.y1 }
    ensures x1 { result.x1 ≡ item.x1 -ℤ stack.x0 }
    ensures y1 { result.y1 ≡ item.y1 -ℤ stack.y0 }
    ensures within { IsBoxWithin (2 ^ 30) result }
{
    Rect4 {
        x0: item.x0 - stack.x1,
        y0: item.y0 - stack.y1,
        x1: item.x1 - stack.x0,
        y1: item.y1 - stack.y0,
    }
}

/// The extent of a padstack's pieces, about the origin.
pub(crate) fn padstack_extent(d: &Design, padstack: u32) -> Extent
    requires { IsSound d.now }
    ensures has { IsExtentOf (padstack_pieces d.now padstack) result }
    ensures within { IsBoxWithin (2 ^ 29) result.bounds }
{
    let origin = Point { x: 0, y: 0 };
    Extent::of_probe(
        d,
        &Probe::Via {
            padstack,
            at: origin,
        },
    )
}

// The vias of the padstack at the nodes out of the window are clear of each item of the extent.
fn via_window(group: &Group<'_>, padstack: u32, extent: Extent) -> Window
    requires bounds { IsBoxWithin (2 ^ 29) extent.bounds }
    requires width { extent.width ≤ 2 ^ 28 }
    ensures covers { let s = group.now in
        (b : OneItem) → IsExtentOf b.pieces extent → CoversVia s.d s.lat s.first b padstack result }
    ensures left { result.left ≤ length group.now.lat.xs }
    ensures right { result.right ≤ length group.now.lat.xs }
    ensures bottom { result.bottom ≤ length group.now.lat.ys }
    ensures top { result.top ≤ length group.now.lat.ys }
{
    let stack = padstack_extent(group.d, padstack);
    let grow = grow_for(group.reach, stack.width, extent.width);
    window_for(group, around(extent.bounds, stack.bounds), grow)
}

// The window whose right isn't before its left, nor its top below its bottom.
fn ordered(window: Window) -> Window
    ensures held { IsHeld window result }
    ensures left { result.left ≡ window.left }
    ensures right { result.right ≡ max window.left window.right }
    ensures bottom { result.bottom ≡ window.bottom }
    ensures top { result.top ≡ max window.bottom window.top }
{
    Window {
        left: window.left,
        right: window.left.max(window.right),
        bottom: window.bottom,
        top: window.bottom.max(window.top),
    }
}

/// The window of the nodes whose moves for the group an item of the extent may shut.
pub(crate) fn cover(group: &Group<'_>, extent: Extent) -> Window
    requires bounds { IsBoxWithin (2 ^ 29) extent.bounds }
    requires width { extent.width ≤ 2 ^ 28 }
    ensures covers { let s = group.now in
        (b : OneItem) → IsExtentOf b.pieces extent → Covers s.d s.lat s.first b result }
    ensures within { IsWindowIn group.now.lat result }
{
    let mut window = step_window(group, extent);
    for padstack in group.vias() {
        window = joined(window, via_window(group, *padstack, extent));
    }
    ordered(window)
}
