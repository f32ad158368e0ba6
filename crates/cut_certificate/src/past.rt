//! Whether a walk may lead on from a cut past an item that isn't there any more.
//! Of the moves that lead out of the cut only those are asked that the item shut, and beyond its nodes all.

ghost use Rattle.std.specs.Prelude.{◌≡◌, ℕ, ◌<◌, All, Contains, IfOk, IfSome, OnOk, Some};
ghost use Rattle.std.specs.Bool.{OnTrue, OnFalse};
ghost use Rattle.std.specs.List.Sorted.{IsStrictlyIncreasing};
ghost use Rattle.route_lattice.specs.Walks.{Hop as OneHop, IsSound, NoneLeads, Opens};
ghost use Rattle.cut_certificate.specs.Past.{IsCutPast, IsMoveIn};
ghost use Rattle.cut_certificate.specs.inner.Beyond.{beyond, EndsAmong};

use crate::border::{has, meets};
use crate::cut::{Block, Blocker, Cut};
use crate::sound::SoundMoves;
use crate::spread::flood;
use geo_kernel::List;
use route_lattice::{Move, Moves};
use std::alloc::{AllocError, Global};

/// The moves to nodes beyond some others, which ascend.
#[derive(Drop)]
struct Beyond<'a, M: Moves> {
    moves: &'a M,
    nodes: &'a [u32],
}

impl<M: Moves> Moves for Beyond<'_, M> {
    ghost graph = { λ s. beyond (M.graph s.moves.now) s.nodes.now };

    ghost ready = { λ s. M.ready s.moves.now × IsStrictlyIncreasing s.nodes.now };

    fn count(&self) -> u32 {
        self.moves.count()
    }

    fn arity(&self) -> u32 {
        self.moves.arity()
    }

    fn at(&self, node: u32, i: u32) -> Option<(Move, u32)> {
        self.moves.at(node, i)
    }

    fn is_open(&self, node: u32, i: u32) -> bool {
        let Some((_, to)) = self.moves.at(node, i) else {
            return false;
        };
        if has(self.nodes, to) {
            return false;
        }
        self.moves.is_open(node, i)
    }

    fn price(&self, node: u32, i: u32) -> u64 {
        self.moves.price(node, i)
    }
}

impl<M: Moves> SoundMoves<'_, M> {
    /// Where the move of a block leads, or None where it is shut.
    fn open_end(&self, block: &Block) -> Option<u32>
        requires { IsMoveIn (M.graph self.now) block.now }
        ensures end { (h : OneHop) → Opens (M.graph self.now) block.now.node h → h.index ≡ block.now.index
            → result ≡ Some h.to }
        ensures there { IfSome result (λ v. v < (M.graph self.now).count) }
    {
        self.are_sound();
        let Some((_, to)) = self.moves.at(block.node, block.index) else {
            return None;
        };
        if self.moves.is_open(block.node, block.index) {
            return Some(to);
        }
        None
    }

    /// Appends where the move of a block leads, if the item of an id shut it and it is open.
    fn push_end(&self, ends: &mut List<u32>, block: &Block, id: u64) -> Result<(), AllocError>
        requires { IsMoveIn (M.graph self.now) block.now }
        ensures kept { OnOk result ((v : ℕ) → Contains ends.old v → Contains ends.new v) }
        ensures end { OnOk result (EndsAmong (M.graph self.now) id ends.new block.now) }
        ensures there { OnOk result (All (λ v. v < (M.graph self.now).count) ends.old
            → All (λ v. v < (M.graph self.now).count) ends.new) }
    {
        if block.by != Blocker::Item(id) {
            return Ok(());
        }
        if let Some(to) = self.open_end(block) {
            ends.push(to)?;
        }
        Ok(())
    }

    /// Appends where the moves of the blocks lead that the item of an id shut and that are open.
    fn push_ends(&self, ends: &mut List<u32>, blocked: &[Block], id: u64) -> Result<(), AllocError>
        requires { All (IsMoveIn (M.graph self.now)) blocked.now }
        ensures kept { OnOk result ((v : ℕ) → Contains ends.old v → Contains ends.new v) }
        ensures ends { OnOk result (All (EndsAmong (M.graph self.now) id ends.new) blocked.now) }
        ensures there { OnOk result (All (λ v. v < (M.graph self.now).count) ends.old
            → All (λ v. v < (M.graph self.now).count) ends.new) }
    {
        for block in blocked {
            self.push_end(ends, block, id)?;
        }
        Ok(())
    }

    /// Whether a walk may lead from the starts to a goal past the item of an id, which shut moves of a cut.
    fn may_lead_past(
        &self,
        alloc: Global,
        cut: &Cut,
        id: u64,
        starts: &List<u32>,
        goals: &[u32],
    ) -> Result<bool, AllocError>
        requires cut { IsCutPast (M.graph self.now) cut.now id }
        requires starts { All (λ s. s < (M.graph self.now).count) starts.now }
        ensures { IfOk result (λ led. OnFalse led (NoneLeads (M.graph self.now) starts.now goals.now)) }
    {
        self.are_sound();
        let nodes = cut.reach.nodes.as_slice();
        if meets(nodes, goals) {
            return Ok(true);
        }
        let mut ends = List::from_slice(alloc, starts.as_slice())?;
        self.push_ends(&mut ends, cut.blocked.as_slice(), id)?;
        let moves = Beyond {
            moves: self.moves,
            nodes,
        };
        let reach = flood(alloc, &moves, &ends)?;
        Ok(meets(reach.nodes.as_slice(), goals))
    }
}

/// Whether a walk may lead from the starts to a goal, where of the moves that lead out of a cut only those may be open
/// that the item of an id shut. Where not, none leads; it is so for copper without the item, and beside it where it was
/// moved. `AllocError` comes only for want of memory.
pub fn may_lead_past<M: Moves>(
    alloc: Global,
    moves: &M,
    cut: &Cut,
    id: u64,
    starts: &List<u32>,
    goals: &List<u32>,
) -> Result<bool, AllocError>
    requires ready { M.ready moves.now }
    requires sound { IsSound (M.graph moves.now) }
    requires cut { IsCutPast (M.graph moves.now) cut.now id }
    requires starts { All (λ s. s < (M.graph moves.now).count) starts.now }
    ensures { IfOk result (λ led. OnFalse led (NoneLeads (M.graph moves.now) starts.now goals.now)) }
{
    SoundMoves { moves }.may_lead_past(alloc, cut, id, starts, goals.as_slice())
}
