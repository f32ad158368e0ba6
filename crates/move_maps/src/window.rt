//! The part of the lattice whose moves an item may shut.

ghost use Rattle.std.specs.Prelude.{◌≡◌, ◌≤◌, ◌<◌, ◌↔◌, ◌-ℤ◌, ◌+ℤ◌, ◌^◌, pos, length, All, IsTrue};
ghost use Rattle.pcb_model.specs.Near.{IsBoxWithin};
ghost use Rattle.move_maps.specs.Windows.{LeavesOut, IsWindowFor, IsPlaceOut, StepsOffAreClear, ViasOutAreClear};

use crate::group::Group;
use geo_kernel::Rect4;
use route_lattice::{first_above, first_from};

/// The places of lines: columns from `left` to below `right`, and rows from `bottom` to below `top`.
#[derive(Clone, Copy, Default)]
pub(crate) struct Window {
    pub left: usize,
    pub right: usize,
    pub bottom: usize,
    pub top: usize,
}

/// A box with its sides moved out.
pub(crate) fn grown(area: Rect4, grow: u64) -> Rect4
    requires box_within { IsBoxWithin (2 ^ 30) area }
    requires grow_within { grow ≤ 2 ^ 31 }
    ensures x0 { result.x0 ≡ area.x0 -ℤ pos grow }
    ensures y0 { result.y0 ≡ area.y0 -ℤ pos grow }
    ensures x1 { result.x1 ≡ area.x1 +ℤ pos grow }
    ensures y1 { result.y1 ≡ area.y1 +ℤ pos grow }
{
    Rect4 {
        x0: area.x0 - grow as i64,
        y0: area.y0 - grow as i64,
        x1: area.x1 + grow as i64,
        y1: area.y1 + grow as i64,
    }
}

// The places of all lines in a box.
fn window_of(group: &Group<'_>, area: Rect4) -> Window
    ensures leaves { LeavesOut group.now.lat area result }
    ensures left { result.left ≤ length group.now.lat.xs }
    ensures right { result.right ≤ length group.now.lat.xs }
    ensures bottom { result.bottom ≤ length group.now.lat.ys }
    ensures top { result.top ≤ length group.now.lat.ys }
{
    let xs = group.lat.xs().as_slice();
    let ys = group.lat.ys().as_slice();
    Window {
        left: first_from(xs, area.x0),
        right: first_above(xs, area.x1),
        bottom: first_from(ys, area.y0),
        top: first_above(ys, area.y1),
    }
}

/// The lines that are within `grow` of a box.
pub(crate) fn window_for(group: &Group<'_>, area: Rect4, grow: u64) -> Window
    requires box_within { IsBoxWithin (2 ^ 30) area }
    requires grow_within { grow ≤ 2 ^ 31 }
    ensures window { IsWindowFor group.now.lat area grow result }
    ensures left { result.left ≤ length group.now.lat.xs }
    ensures right { result.right ≤ length group.now.lat.xs }
    ensures bottom { result.bottom ≤ length group.now.lat.ys }
    ensures top { result.top ≤ length group.now.lat.ys }
{
    window_of(group, grown(area, grow))
}

// Whether a column and a row aren't both in the window.
fn is_place_out(window: &Window, column: usize, row: usize) -> bool
    ensures { IsTrue result ↔ IsPlaceOut window.now column row }
{
    if column < window.left {
        return true;
    }
    if column >= window.right {
        return true;
    }
    if row < window.bottom {
        return true;
    }
    row >= window.top
}

/// Whether a column and a row are out of all the windows.
pub(crate) fn is_out_of_all(windows: &[Window], column: usize, row: usize) -> bool
    ensures { IsTrue result ↔ All (λ w. IsPlaceOut w column row) windows.now }
{
    for window in windows {
        if !is_place_out(window, column, row) {
            return false;
        }
    }
    true
}

/// The steps of all nodes that are neither in the window of an item's box nor beside it are clear of the item.
/// A law, on a call that does nothing.
pub fn steps_off_are_clear()
    ensures { StepsOffAreClear }
{}

/// The vias of a padstack at all nodes out of a window for the item's box and the padstack's are clear of the item.
/// A law, on a call that does nothing.
pub fn vias_out_are_clear()
    ensures { ViasOutAreClear }
{}
