//! The nodes that anchor items, without a look at the whole lattice.
//! Only the lines that cross the boxes of an item's segments are looked at.

ghost use Rattle.std.specs.Prelude.{◌≡◌, ◌<◌, ◌≤◌, ◌<ℤ◌, ◌≤ℤ◌, ℕ, pos, IfOk, OnOk, length, slice_index_or};
ghost use Rattle.std.specs.List.Sorted.{IsStrictlySortedBy};
ghost use Rattle.std.specs.Ordering.{int_cmp};
ghost use Rattle.pcb_model.specs.Sound.{IsSound, IsItemOf};
ghost use Rattle.route_lattice.specs.Fits.{FitsDesign};
ghost use Rattle.route_lattice.specs.Anchors.{AreAnchorsOf, AreAnchorsAmong};
ghost use Rattle.route_lattice.specs.Found.{Gains, IsAnchorNode, IsAnchorWithId, IsInRow, IsOnLevel};
ghost use Rattle.route_lattice.specs.Found.{IsWindowOf, IsWindowIn, IsAnchorIn, IsAnchorAlong};
ghost use Rattle.route_lattice.specs.Found.{AreSorted, box_between as the_box_between};

use crate::anchor::LatticeItem;
use crate::ground::Ground;
use crate::mesh::Lattice;
use geo_kernel::{List, Point, Rect4};
use pcb_model::{Copper, Design, Item, Metal};
use std::alloc::{AllocError, Global};

/// The places of lines: columns from `left` to below `right`, and rows from `bottom` to below `top`.
#[derive(Clone, Copy)]
pub(crate) struct Window {
    pub left: usize,
    pub right: usize,
    pub bottom: usize,
    pub top: usize,
}

/// The place of the first line from a number on.
pub fn first_from(lines: &[i64], low: i64) -> usize
    requires { IsStrictlySortedBy int_cmp lines.now }
    ensures within { result ≤ length lines.now }
    ensures below { (k : ℕ) → k < result → slice_index_or lines.now k (pos 0) <ℤ low }
    ensures from { (k : ℕ) → result ≤ k → k < length lines.now → low ≤ℤ slice_index_or lines.now k (pos 0) }
{
    lines.partition_point(|z| *z < low)
}

/// The place of the first line above a number.
pub fn first_above(lines: &[i64], high: i64) -> usize
    requires { IsStrictlySortedBy int_cmp lines.now }
    ensures within { result ≤ length lines.now }
    ensures up_to { (k : ℕ) → k < result → slice_index_or lines.now k (pos 0) ≤ℤ high }
    ensures above { (k : ℕ) → result ≤ k → k < length lines.now → high <ℤ slice_index_or lines.now k (pos 0) }
{
    lines.partition_point(|z| *z <= high)
}

fn box_between(a: Point, b: Point) -> Rect4
    ensures { result ≡ the_box_between a b }
{
    Rect4 {
        x0: a.x.min(b.x),
        y0: a.y.min(b.y),
        x1: a.x.max(b.x),
        y1: a.y.max(b.y),
    }
}

/// The places of the lines that cross a box.
fn window_of(lat: &Lattice, r: Rect4) -> Window
    requires xs_ascend { IsStrictlySortedBy int_cmp lat.now.xs }
    requires ys_ascend { IsStrictlySortedBy int_cmp lat.now.ys }
    ensures { IsWindowOf lat.now r result }
{
    let xs = lat.xs().as_slice();
    let ys = lat.ys().as_slice();
    Window {
        left: first_from(xs, r.x0),
        right: first_above(xs, r.x1),
        bottom: first_from(ys, r.y0),
        top: first_above(ys, r.y1),
    }
}

impl LatticeItem<'_> {
    fn push_row(
        &self,
        found: &mut Vec<u32>,
        window: Window,
        level: usize,
        row: usize,
    ) -> Result<(), AllocError>
        requires window { IsWindowIn self.now.lat window }
        requires level { level < length self.now.lat.layers }
        requires row { row < length self.now.lat.ys }
        ensures { OnOk result
            (Gains (IsInRow self.now.d self.now.lat self.now.item window level row)
            (IsAnchorNode self.now.d self.now.lat self.now.item) found.old.items found.new.items) }
    {
        for column in window.left..window.right {
            let node = self.lat.node(level, row, column);
            if self.has_anchor(node) {
                found.push(node)?;
            }
        }
        Ok(())
    }

    fn push_level(
        &self,
        found: &mut Vec<u32>,
        window: Window,
        level: usize,
    ) -> Result<(), AllocError>
        requires window { IsWindowIn self.now.lat window }
        requires level { level < length self.now.lat.layers }
        ensures { OnOk result
            (Gains (IsOnLevel self.now.d self.now.lat self.now.item window level)
            (IsAnchorNode self.now.d self.now.lat self.now.item) found.old.items found.new.items) }
    {
        for row in window.bottom..window.top {
            self.push_row(found, window, level, row)?;
        }
        Ok(())
    }

    /// Appends the nodes in the box of two points that anchor the item.
    fn push_between(&self, found: &mut Vec<u32>, a: Point, b: Point) -> Result<(), AllocError>
        ensures { OnOk result
            (Gains (IsAnchorIn self.now.d self.now.lat self.now.item a b)
            (IsAnchorNode self.now.d self.now.lat self.now.item) found.old.items found.new.items) }
    {
        let window = window_of(self.lat, box_between(a, b));
        for level in 0..self.lat.layers().len() {
            self.push_level(found, window, level)?;
        }
        Ok(())
    }

    /// Appends the nodes that anchor the item and lie in the box of a segment of a chain.
    fn push_along(&self, found: &mut Vec<u32>, chain: &[Point]) -> Result<(), AllocError>
        ensures { OnOk result
            (Gains (IsAnchorAlong self.now.d self.now.lat self.now.item chain.now)
            (IsAnchorNode self.now.d self.now.lat self.now.item) found.old.items found.new.items) }
    {
        for k in 0..chain.len() {
            self.push_between(found, chain[k.saturating_sub(1)], chain[k])?;
        }
        Ok(())
    }

    /// Appends the nodes that anchor the item.
    fn push_anchors(&self, found: &mut Vec<u32>) -> Result<(), AllocError>
        ensures { OnOk result
            (Gains (IsAnchorNode self.now.d self.now.lat self.now.item)
            (IsAnchorNode self.now.d self.now.lat self.now.item) found.old.items found.new.items) }
    {
        match &self.item.metal {
            Metal::Wire { chain, .. } => self.push_along(found, chain.as_slice()),
            Metal::Via { at, .. } => self.push_between(found, *at, *at),
            Metal::Pad { pin } => {
                let at = self.pin_anchor(*pin);
                self.push_between(found, at, at)
            }
            Metal::Ban { .. } => Ok(()),
        }
    }
}

/// Appends the nodes that anchor the item with the id.
fn push_of_id<C: Copper>(
    found: &mut Vec<u32>,
    on: &Ground<'_, C>,
    id: u64,
) -> Result<(), AllocError>
    ensures { OnOk result
        (Gains (IsAnchorWithId on.now.d on.now.lat on.now.items id) (IsAnchorWithId on.now.d on.now.lat on.now.items id)
        found.old.items found.new.items) }
{
    on.in_order();
    match on.item(id) {
        Some(item) => {
            let sought = LatticeItem {
                lat: on.lat,
                d: on.d,
                item,
            };
            sought.push_anchors(found)
        }
        None => Ok(()),
    }
}

fn ascending(mut numbers: Vec<u32>) -> List<u32>
    ensures { AreSorted numbers.items result }
{
    numbers.sort_unstable();
    numbers.dedup();
    List::from_vec(numbers)
}

/// The nodes that anchor an item of the design, ascending.
pub fn anchor_nodes(
    alloc: Global,
    lat: &Lattice,
    d: &Design,
    item: &Item,
) -> Result<List<u32>, AllocError>
    requires sound { IsSound d.now }
    requires fits { FitsDesign d.now lat.now }
    requires item { IsItemOf d.now item.now }
    ensures { IfOk result (AreAnchorsOf d.now lat.now item.now) }
{
    let on = LatticeItem { lat, d, item };
    let mut found = Vec::new(alloc);
    on.push_anchors(&mut found)?;
    Ok(ascending(found))
}

/// The nodes that anchor some item of the copper with one of the ids, ascending, each once.
pub fn anchors_among<C: Copper>(
    alloc: Global,
    lat: &Lattice,
    d: &Design,
    c: &C,
    ids: &[u64],
) -> Result<List<u32>, AllocError>
    requires sound { IsSound d.now }
    requires fits { FitsDesign d.now lat.now }
    requires serves { C.serves c.now d.now }
    ensures { IfOk result (AreAnchorsAmong d.now lat.now (C.items c.now) ids.now) }
{
    c.in_order();
    let on = Ground { lat, d, c };
    let mut found = Vec::new(alloc);
    for id in ids {
        push_of_id(&mut found, &on, *id)?;
    }
    Ok(ascending(found))
}
