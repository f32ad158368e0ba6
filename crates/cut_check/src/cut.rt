//! Whether stretches of nodes are a cut of an island, and how large it is.

ghost use Rattle.std.specs.Prelude.{◌≡◌, ◌<◌, ℕ, All, Contains, IfOk, MatchOption, OnOk, Some, length, remove};
ghost use Rattle.std.specs.Prelude.{slice_get};
ghost use Rattle.std.specs.List.Sorted.{IsStrictlyIncreasing};
ghost use Rattle.pcb_islands.specs.declared.net.Island.{Island as OneIsland};
ghost use Rattle.route_lattice.specs.Mesh.{node_count};
ghost use Rattle.copper_alike.specs.Sets.{IsCutSet};
ghost use Rattle.cut_check.specs.Sizes.{AreAnchored, IsSized};
ghost use Rattle.cut_check.specs.Marks.{IsBlank};
ghost use Rattle.cut_check.specs.inner.Marking.{AreMarked};
ghost use Rattle.cut_check.specs.inner.Outs.{IsSizedBy};

use crate::anchors::AnchoredIslands;
use crate::marks::{ascending, clear, mark_all};
use crate::outward::Marked;
use crate::stretch::{Stretch, all_on};
use pcb_model::Copper;
use route_lattice::{Ground, legal_graph_sound};
use std::alloc::{AllocError, Global};

/// How many nodes a cut has, and how many moves of its net lead out of them.
#[derive(Clone, Copy)]
pub struct CutSize {
    pub reached: u64,
    pub blocked: u64,
}

// The size of the cut that has these nodes, or None where they don't shut the island in.
fn size_of<C: Copper>(
    on: &Ground<'_, C>,
    own: &AnchoredIslands<'_>,
    k: usize,
    marks: &[bool],
    nodes: &[u32],
) -> Option<CutSize>
    requires anchored { AreAnchored on.now.d on.now.lat on.now.items own.now.islands.now own.now.anchors.now }
    requires nets { All (λ (s : OneIsland). s.net < length on.now.d.nets) own.now.islands.now }
    requires place { k < length own.now.islands.now }
    requires ascend { IsStrictlyIncreasing nodes.now }
    requires marked { AreMarked (node_count on.now.lat) marks.now nodes.now }
    ensures { let islands = own.now.islands.now in (island : OneIsland) → slice_get islands k ≡ Some island
        → MatchOption result (IsCutSet on.now.d on.now.lat on.now.items island (remove islands k) nodes.now → ⊥)
        (IsSizedBy on.now.d on.now.lat on.now.items island (remove islands k) nodes.now) }
{
    legal_graph_sound();
    on.keeps();
    let anchors = own.anchors;
    let net = own.islands[k].net;
    let moves = on.moves(net, 0);
    let held = Marked {
        moves: &moves,
        marks,
        nodes,
    };
    if !held.holds_legal(on, net, anchors[k].as_slice()) {
        return None;
    }
    if !held.holds_no_other(anchors, k) {
        return None;
    }
    match held.outs() {
        None => None,
        Some(blocked) => Some(CutSize {
            reached: nodes.len() as u64,
            blocked,
        }),
    }
}

/// The size of the cut of the island at a place among those of its net that these stretches have, or None where they
/// have none. No mark is set before, and none behind.
pub fn cut_size<C: Copper>(
    alloc: Global,
    on: &Ground<'_, C>,
    own: &AnchoredIslands<'_>,
    k: usize,
    runs: &[Stretch],
    marks: &mut Vec<bool>,
) -> Result<Option<CutSize>, AllocError>
    requires anchored { AreAnchored on.now.d on.now.lat on.now.items own.now.islands.now own.now.anchors.now }
    requires nets { All (λ (s : OneIsland). s.net < length on.now.d.nets) own.now.islands.now }
    requires place { k < length own.now.islands.now }
    requires blank { IsBlank (node_count on.now.lat) marks.old.items }
    ensures blank { OnOk result (IsBlank (node_count on.now.lat) marks.new.items) }
    ensures sized { IfOk result (IsSized on.now.d on.now.lat on.now.items own.now.islands.now k runs.now) }
{
    if !all_on(on.lat, runs) {
        return Ok(None);
    }
    let mut nodes = Vec::new(alloc);
    mark_all(on.lat, runs, marks, &mut nodes)?;
    let nodes = ascending(nodes);
    let size = size_of(on, own, k, marks, &nodes);
    clear(marks, &nodes);
    Ok(size)
}
