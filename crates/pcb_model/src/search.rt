//! Searches among items in order of id, beside which their extents stand.
//! A far item costs one comparison of boxes: no step, no clearance and no segment.

ghost use Rattle.std.specs.Prelude.{◌≡◌, ℕ, ◌+◌, ◌≤◌, ◌<◌, All, length, slice_index_or, Some, None, MatchOption};
ghost use Rattle.std.specs.Bool.{OnTrue, OnFalse};
ghost use Rattle.pcb_model.specs.declared.item.Item.{Item as OneItem};
ghost use Rattle.pcb_model.specs.Pieces.{pieces_of, metal_of, kind_of};
ghost use Rattle.pcb_model.specs.Bounds.{IsDesignFit, IsItemFit, IsProbeFit};
ghost use Rattle.pcb_model.specs.Pairs.{Agrees, ProbeAgrees, AreTouching};
ghost use Rattle.pcb_model.specs.Near.{IsExtentOf, IsQueryOf};
ghost use Rattle.pcb_model.specs.Copper.{IsOther, Finds, Ascends, IsAt, AreExtentsOf};

use crate::near::{Extent, Query};
use crate::pair::{pair_agrees, same_net, touch};
use crate::probe::probe_agrees;
use crate::{Design, Item, Probe, Steps};
use std::sync::ledger::Ledger;

/// Where the first id that isn't below `id` stands.
pub(crate) fn place_of(items: &[Item], id: u64) -> usize
    requires { Ascends items.now }
    ensures bound { result ≤ length items.now }
    ensures below { (k : ℕ) (e : OneItem) → k < result → (slice_index_or items.now k e).id < id }
    ensures above { (k : ℕ) (e : OneItem) → result ≤ k → k < length items.now → id ≤ (slice_index_or items.now k e).id }
{
    items.partition_point(|b| b.id < id)
}

/// Whether the item is another one and disagrees with `a`. At most one step.
fn clashes<L: Ledger>(
    d: &Design,
    q: &Query,
    a: &Item,
    b: &Item,
    extent: &Extent,
    steps: &mut Steps<L>,
) -> bool
    requires design { IsDesignFit d.now }
    requires query { IsQueryOf d.now a.now.net a.now.kind a.now.pieces q.now }
    requires a_fits { IsItemFit a.now }
    requires b_fits { IsItemFit b.now }
    requires extent_of { IsExtentOf b.now.pieces extent.now }
    ensures yes { OnTrue result (IsOther (Some a.now.id) b.now × (Agrees d.now a.now b.now → ⊥)) }
    ensures no { OnFalse result (IsOther (Some a.now.id) b.now → Agrees d.now a.now b.now) }
    ensures cost { steps.new ≤ steps.old + 1 }
{
    if b.id == a.id {
        return false;
    }
    if q.extent.is_far_from(extent, q.reach) {
        return false;
    }
    steps.tick();
    !pair_agrees(d, q.side.towards(b.kind), a, b)
}

/// Whether the item disagrees with the probe. At most one step.
fn blocks<L: Ledger>(
    d: &Design,
    q: &Query,
    net: u32,
    p: &Probe,
    b: &Item,
    extent: &Extent,
    steps: &mut Steps<L>,
) -> bool
    requires design { IsDesignFit d.now }
    requires query { IsQueryOf d.now (Some net) (kind_of (metal_of p.now)) (pieces_of d.now (metal_of p.now)) q.now }
    requires p_fits { IsProbeFit d.now p.now }
    requires b_fits { IsItemFit b.now }
    requires extent_of { IsExtentOf b.now.pieces extent.now }
    ensures yes { OnTrue result (ProbeAgrees d.now net p.now b.now → ⊥) }
    ensures no { OnFalse result (ProbeAgrees d.now net p.now b.now) }
    ensures cost { steps.new ≤ steps.old + 1 }
{
    if q.extent.is_far_from(extent, q.reach) {
        return false;
    }
    steps.tick();
    !probe_agrees(d, q.side.towards(b.kind), net, p, b)
}

/// Whether the item is another one of the net of `a` and touches it. At most one step.
pub fn joins<L: Ledger>(
    a: &Item,
    around: &Extent,
    b: &Item,
    extent: &Extent,
    steps: &mut Steps<L>,
) -> bool
    requires a_fits { IsItemFit a.now }
    requires around_a { IsExtentOf a.now.pieces around.now }
    requires b_fits { IsItemFit b.now }
    requires extent_of { IsExtentOf b.now.pieces extent.now }
    ensures yes { OnTrue result (IsOther (Some a.now.id) b.now × AreTouching a.now b.now) }
    ensures no { OnFalse result (IsOther (Some a.now.id) b.now → AreTouching a.now b.now → ⊥) }
    ensures cost { steps.new ≤ steps.old + 1 }
{
    if b.id == a.id || !same_net(a.net, b.net) {
        return false;
    }
    if around.is_far_from(extent, 0) {
        return false;
    }
    steps.tick();
    touch(a, b)
}

pub(crate) fn first_clash<L: Ledger>(
    d: &Design,
    a: &Item,
    items: &[Item],
    extents: &[Extent],
    from: u64,
    steps: &mut Steps<L>,
) -> Option<u64>
    requires design { IsDesignFit d.now }
    requires a_fits { IsItemFit a.now }
    requires ascends { Ascends items.now }
    requires fit { All IsItemFit items.now }
    requires paired { AreExtentsOf items.now extents.now }
    ensures finds { Finds (λ b. Agrees d.now a.now b → ⊥) (Agrees d.now a.now) from (Some a.now.id) items.now result }
    ensures cost { steps.new ≤ steps.old + length items.now }
{
    let q = Query::of_item(d, a);
    for i in place_of(items, from)..items.len() {
        if clashes(d, &q, a, &items[i], &extents[i], steps) {
            return Some(items[i].id);
        }
    }
    None
}

pub(crate) fn first_block<L: Ledger>(
    d: &Design,
    net: u32,
    p: &Probe,
    items: &[Item],
    extents: &[Extent],
    from: u64,
    steps: &mut Steps<L>,
) -> Option<u64>
    requires design { IsDesignFit d.now }
    requires p_fits { IsProbeFit d.now p.now }
    requires ascends { Ascends items.now }
    requires fit { All IsItemFit items.now }
    requires paired { AreExtentsOf items.now extents.now }
    ensures finds { Finds (λ b. ProbeAgrees d.now net p.now b → ⊥) (ProbeAgrees d.now net p.now) from None
        items.now result }
    ensures cost { steps.new ≤ steps.old + length items.now }
{
    let q = Query::of_probe(d, net, p);
    for i in place_of(items, from)..items.len() {
        if blocks(d, &q, net, p, &items[i], &extents[i], steps) {
            return Some(items[i].id);
        }
    }
    None
}

pub(crate) fn first_touch<L: Ledger>(
    a: &Item,
    items: &[Item],
    extents: &[Extent],
    from: u64,
    steps: &mut Steps<L>,
) -> Option<u64>
    requires a_fits { IsItemFit a.now }
    requires ascends { Ascends items.now }
    requires fit { All IsItemFit items.now }
    requires paired { AreExtentsOf items.now extents.now }
    ensures finds { Finds (AreTouching a.now) (λ b. AreTouching a.now b → ⊥) from (Some a.now.id) items.now result }
    ensures cost { steps.new ≤ steps.old + length items.now }
{
    let around = Extent::of_item(a);
    for i in place_of(items, from)..items.len() {
        if joins(a, &around, &items[i], &extents[i], steps) {
            return Some(items[i].id);
        }
    }
    None
}

/// Where the item of this id stands.
pub(crate) fn index_of(items: &[Item], id: u64) -> Option<usize>
    requires { Ascends items.now }
    ensures { MatchOption result (All (λ b. b.id ≡ id → ⊥) items.now) (λ i. IsAt items.now i id) }
{
    let i = place_of(items, id);
    if i == items.len() {
        return None;
    }
    if items[i].id == id {
        return Some(i);
    }
    None
}
