//! Whether the cuts of a report shut their islands in.

ghost use Rattle.std.specs.Prelude.{◌≡◌, ◌⊎◌, ◌<◌, ◌≤◌, ◌↔◌, ℕ, All, IfOk, IsTrue, OnOk, Some, length, map};
ghost use Rattle.std.specs.Bool.{OnFalse, OnTrue};
ghost use Rattle.pcb_islands.specs.declared.net.Island.{Island as OneIsland};
ghost use Rattle.route_lattice.specs.Mesh.{node_count};
ghost use Rattle.cut_check.specs.Sizes.{AreAnchored};
ghost use Rattle.cut_check.specs.Marks.{IsBlank};
ghost use Rattle.route_check.specs.inner.Kept.{AreAllJudged, AreJudged, HaveTheirCuts, IsKeptFalse, IsKeptTrue};
ghost use Rattle.route_check.specs.inner.Kept.{IsPinBelow, stretch_of};

use crate::names::first_pin;
use cut_check::{
    AnchoredIslands, CutSize, Stretch, anchors_of, blank_marks, cut_size, sizes_are_one,
};
use geo_kernel::List;
use pcb_islands::Island;
use pcb_model::Copper;
use report_form::{ReadCut, ReadRun};
use route_lattice::Ground;
use std::alloc::{AllocError, Global};

fn stretches(alloc: Global, runs: &[ReadRun]) -> Result<Vec<Stretch>, AllocError>
    ensures { IfOk result (λ s. s.items ≡ map stretch_of runs.now) }
{
    let mut stretches = Vec::new(alloc);
    for r in runs {
        stretches.push(Stretch {
            level: r.level,
            row: r.row,
            first: r.first,
            last: r.last,
        })?;
    }
    Ok(stretches)
}

// Whether the report tells this size.
fn is_size(size: CutSize, cut: &ReadCut) -> bool
    ensures { IsTrue result ↔ (size.reached ≡ cut.now.reached) × (size.blocked ≡ cut.now.blocked) }
{
    size.reached == cut.reached && size.blocked == cut.blocked
}

// Whether the cut in the place of the island at place k is one.
fn is_cut<C: Copper>(
    alloc: Global,
    on: &Ground<'_, C>,
    own: &AnchoredIslands<'_>,
    k: usize,
    cut: &ReadCut,
    marks: &mut Vec<bool>,
) -> Result<bool, AllocError>
    requires anchored { AreAnchored on.now.d on.now.lat on.now.items own.now.islands.now own.now.anchors.now }
    requires nets { All (λ (s : OneIsland). s.net < length on.now.d.nets) own.now.islands.now }
    requires place { k < length own.now.islands.now }
    requires blank { IsBlank (node_count on.now.lat) marks.old.items }
    ensures blank { OnOk result (IsBlank (node_count on.now.lat) marks.new.items) }
    ensures yes { IfOk result
        (λ is. OnTrue is (IsKeptTrue on.now.d on.now.lat on.now.items own.now.islands.now k cut.now)) }
    ensures no { IfOk result
        (λ is. OnFalse is (IsKeptFalse on.now.d on.now.lat on.now.items own.now.islands.now k cut.now)) }
{
    if !cut.named {
        return Ok(false);
    }
    sizes_are_one();
    on.keeps();
    let runs = stretches(alloc, cut.runs.as_slice())?;
    match cut_size(alloc, on, own, k, &runs, marks)? {
        None => Ok(false),
        Some(size) => Ok(is_size(size, cut)),
    }
}

// The lesser of the bound and a pin.
fn lowered(bound: Option<u64>, pin: u32) -> Option<u64>
    ensures is { (result ≡ bound) ⊎ (result ≡ Some pin) }
    ensures below { (other : ℕ) → IsPinBelow result other → IsPinBelow bound other }
    ensures own { IsPinBelow result pin → ⊥ }
{
    let pin = u64::from(pin);
    match bound {
        None => Some(pin),
        Some(least) => Some(least.min(pin)),
    }
}

// The least first pin of an island of the net whose cut is none, if it is less than the bound.
fn lowered_by_net<C: Copper>(
    alloc: Global,
    on: &Ground<'_, C>,
    own: &[Island],
    cuts: &[ReadCut],
    marks: &mut Vec<bool>,
    bound: Option<u64>,
) -> Result<Option<u64>, AllocError>
    requires nets { All (λ (s : OneIsland). s.net < length on.now.d.nets) own.now }
    requires same { length cuts.now ≤ length own.now }
    requires blank { IsBlank (node_count on.now.lat) marks.old.items }
    ensures blank { OnOk result (IsBlank (node_count on.now.lat) marks.new.items) }
    ensures lowered { IfOk result
        (AreJudged on.now.d on.now.lat on.now.items own.now cuts.now (length cuts.now) bound) }
{
    let anchors = anchors_of(alloc, on, own)?;
    let anchored = AnchoredIslands {
        islands: own,
        anchors: anchors.as_slice(),
    };
    let mut least = bound;
    for k in 0..cuts.len() {
        if !is_cut(alloc, on, &anchored, k, &cuts[k], marks)? {
            least = lowered(least, first_pin(&own[k]));
        }
    }
    Ok(least)
}

/// The least first pin of an island whose cut is none, or None where all are cuts.
pub(crate) fn first_false_cut<C: Copper>(
    alloc: Global,
    on: &Ground<'_, C>,
    found: &[List<Island>],
    nets: &[List<ReadCut>],
) -> Result<Option<u64>, AllocError>
    requires nets { All (All (λ (s : OneIsland). s.net < length on.now.d.nets)) found.now }
    requires same { length found.now ≡ length nets.now }
    requires lines { HaveTheirCuts found.now nets.now }
    ensures { IfOk result (AreAllJudged on.now.d on.now.lat on.now.items found.now nets.now (length nets.now)) }
{
    let mut marks = blank_marks(alloc, on.lat)?;
    let mut least = None;
    for net in 0..nets.len() {
        let own = found[net].as_slice();
        let cuts = nets[net].as_slice();
        least = lowered_by_net(alloc, on, own, cuts, &mut marks, least)?;
    }
    Ok(least)
}
