//! The windows of the nodes whose moves an item may shut: link by link where its pieces are chains, since the box of a
//! long wire is large and what it shuts is little.

ghost use Rattle.std.specs.Prelude.{◌≡◌, ◌≤◌, ◌<◌, ◌^◌, length, map, All};
ghost use Rattle.geo_kernel.specs.Plane.{IsWithin};
ghost use Rattle.geo_kernel.specs.Spine.{chain_segments};
ghost use Rattle.pcb_model.specs.declared.item.Item.{Item as OneItem};
ghost use Rattle.pcb_model.specs.Bounds.{IsFit, IsItemFit};
ghost use Rattle.move_maps.specs.Windows.{Widens};
ghost use Rattle.move_maps.specs.Paint.{Covers, CoverTogether, TakeIn};
ghost use Rattle.move_maps.specs.Parts.{IsString, IsStrung, part, parts_by, parts};

use crate::cover::{cover, joined};
use crate::group::Group;
use crate::parts::is_strung;
use crate::window::Window;
use arrayvec::ArrayVec;
use geo_kernel::{Point, Spine};
use pcb_model::{Extent, Item, Piece, Probe};

/// So many windows stand apart in a list; further ones are joined to the last.
pub(crate) const MOST_APART: usize = 32;

// Adds a window, or joins it to the last of many.
fn add_window(windows: &mut ArrayVec<Window, MOST_APART>, window: Window)
    ensures { Widens windows.old.items window windows.new.items }
{
    if !windows.is_full() {
        windows.push(window);
        return;
    }
    match windows.pop() {
        Some(last) => windows.push(joined(last, window)),
        None => windows.push(window),
    }
}

// The window of the nodes whose moves a link of a piece may shut.
fn link_window(group: &Group<'_>, piece: &Piece, from: Point, to: Point) -> Window
    requires piece { IsFit piece.now }
    requires from { IsWithin (2 ^ 29) from }
    requires to { IsWithin (2 ^ 29) to }
    ensures { let s = group.now in (b : OneItem) → Covers s.d s.lat s.first
        (part b piece.now (record { from = from; to = to })) result }
{
    let step = Probe::Step {
        layer: piece.layer,
        width: piece.width,
        a: from,
        b: to,
    };
    cover(group, Extent::of_probe(group.d, &step))
}

// Takes in the links of a chain.
fn take_links(
    windows: &mut ArrayVec<Window, MOST_APART>,
    group: &Group<'_>,
    piece: &Piece,
    points: &[Point],
)
    requires piece { IsFit piece.now }
    requires within { All (IsWithin (2 ^ 29)) points.now }
    requires two { 2 ≤ length points.now }
    ensures { let s = group.now in (b : OneItem) → TakeIn s.d s.lat s.first
        (map (part b piece.now) (chain_segments points.now))
        windows.old.items windows.new.items }
{
    let mut from = points[0];
    for to in &points[1..] {
        let window = link_window(group, piece, from, *to);
        add_window(windows, window);
        from = *to;
    }
}

// Takes in the links of a piece.
fn take_piece(windows: &mut ArrayVec<Window, MOST_APART>, group: &Group<'_>, piece: &Piece)
    requires piece { IsFit piece.now }
    requires string { IsString piece.now }
    ensures { let s = group.now in (b : OneItem) → TakeIn s.d s.lat s.first (parts_by b piece.now)
        windows.old.items windows.new.items }
{
    match &piece.spine {
        Spine::Chain(points) => take_links(windows, group, piece, points.as_slice()),
        Spine::Area(_) => {}
    }
}

// The windows of all links of an item.
fn link_windows(group: &Group<'_>, item: &Item) -> ArrayVec<Window, MOST_APART>
    requires item { IsItemFit item.now }
    requires strung { IsStrung item.now }
    ensures { let s = group.now in All (λ a. CoverTogether s.d s.lat s.first a result.items) (parts item.now) }
{
    let mut windows = ArrayVec::new();
    for piece in item.pieces.as_slice() {
        take_piece(&mut windows, group, piece);
    }
    windows
}

/// The windows of the nodes whose moves for the group an item may shut: that of each link where its pieces
/// are chains, and else `whole`, that of all its pieces.
pub(crate) fn windows_near(
    group: &Group<'_>,
    item: &Item,
    whole: Window,
) -> ArrayVec<Window, MOST_APART>
    requires item { IsItemFit item.now }
    requires whole { let s = group.now in Covers s.d s.lat s.first item.now whole }
    ensures { let s = group.now in CoverTogether s.d s.lat s.first item.now result.items }
{
    if is_strung(item) {
        return link_windows(group, item);
    }
    let mut windows = ArrayVec::new();
    windows.push(whole);
    windows
}
