//! The moves that lead out of a set of nodes, listed and checked.
//! Look-ups are binary searches in ascending lists, but by marks where a flood has left them.

ghost use Rattle.std.specs.Prelude.{◌≡◌, ℕ, ◌<◌, ◌↔◌, All, Contains, length, IsTrue, IfOk, OnOk, IsSome, IfNone, Some};
ghost use Rattle.std.specs.List.Sorted.{IsStrictlyIncreasing};
ghost use Rattle.cut_certificate.specs.declared.cut.Blocker.{Blocker as OneBlocker};
ghost use Rattle.cut_certificate.specs.Border.{LeadsOut, IsBefore, AreInOrder, IsListed, IsBlock, AreBlocks};
ghost use Rattle.cut_certificate.specs.inner.Listing.{AllListed, AreEarlier, Extends, IsClosed, IsBorder, Closes};
ghost use Rattle.cut_certificate.specs.inner.Marks.{AreListed, IsMarked};
ghost use Rattle.cut_certificate.specs.Same.{SameMoves};
ghost use Rattle.cut_certificate.specs.Goals.{Meets};

use crate::cut::{Block, Blocker};
use crate::marks::Marks;
use crate::sound::SoundMoves;
use crate::spread::Flooded;
use geo_kernel::List;
use route_lattice::{Moves, Reach};
use std::alloc::{AllocError, Global};
use std::marker::Model;

/// All nodes that moves reach, and the moves that lead out of them.
#[derive(Drop)]
pub(crate) struct Border {
    pub reach: Reach,
    pub blocked: List<Block>,
}

/// Moves of which each is open or is shut by something.
pub(crate) trait Shuts: Moves {
    /// What shuts the move of an index at a node.
    ghost shut_by: { Self → ℕ → ℕ → OneBlocker → Type 0 };

    /// What shuts a move, or None where it is open.
    fn blocker(&self, node: u32, i: u32) -> Option<Blocker>
        requires ready { Self.ready self.now }
        requires node { node < (Self.graph self.now).count }
        requires index { i < (Self.graph self.now).arity }
        requires there { IsSome ((Self.graph self.now).at node i) }
        ensures open { IfNone result ((Self.graph self.now).open_at node i) }
        ensures shut { (by : OneBlocker) → (shut_by self.now node i by ↔ (result ≡ Some by)) };

    /// Each move has a price: a call that does nothing.
    fn has_prices(&self)
        ensures { (node i : ℕ) → node < (Self.graph self.now).count → i < (Self.graph self.now).arity
            → (p : ℕ) × (Self.graph self.now).priced node i p };
}

/// Whether each node is below the next.
pub(crate) fn ascends(nodes: &[u32]) -> bool
    ensures { IsTrue result ↔ IsStrictlyIncreasing nodes.now }
{
    for k in 1..nodes.len() {
        if nodes[k] <= nodes[k - 1] {
            return false;
        }
    }
    true
}

/// Whether the node is among the nodes.
pub(crate) fn has(nodes: &[u32], node: u32) -> bool
    requires ascends { IsStrictlyIncreasing nodes.now }
    ensures { IsTrue result ↔ Contains nodes.now node }
{
    nodes.binary_search(&node).is_ok()
}

fn is_before(a: &Block, b: &Block) -> bool
    ensures { IsTrue result ↔ IsBefore a.now b.now }
{
    a.node < b.node || a.node == b.node && a.index < b.index
}

/// Whether each block is before all later ones: before the next.
fn in_order(blocked: &[Block]) -> bool
    ensures { IsTrue result ↔ AreInOrder blocked.now }
{
    for k in 1..blocked.len() {
        if !is_before(&blocked[k - 1], &blocked[k]) {
            return false;
        }
    }
    true
}

/// Blocks in order.
#[derive(Drop)]
struct BlockList<'a> {
    blocks: &'a [Block],
}

impl<'a> Model for BlockList<'a> {
    ghost use Rattle.std.specs.Prelude.{List};
    ghost use Rattle.cut_certificate.specs.declared.cut.Block.{Block};

    ghost Value = { List Block };

    ghost use Rattle.cut_certificate.specs.Border.{AreInOrder};

    ghost view = { λ s. s.blocks.now };

    ghost invariant = { λ s. AreInOrder s.blocks.now };
}

impl BlockList<'_> {
    fn has(&self, node: u32, index: u32) -> bool
        ensures { IsTrue result ↔ IsListed self.now node index }
    {
        self.blocks
            .binary_search_by_key(&(node, index), |b| (b.node, b.index))
            .is_ok()
    }
}

impl<M: Shuts> SoundMoves<'_, M> {
    /// What shuts a move, or None where it is open.
    fn blocker(&self, node: u32, i: u32) -> Option<Blocker>
        requires node { node < (M.graph self.now).count }
        requires index { i < (M.graph self.now).arity }
        requires there { IsSome ((M.graph self.now).at node i) }
        ensures open { IfNone result ((M.graph self.now).open_at node i) }
        ensures shut { (by : OneBlocker) → (M.shut_by self.now node i by ↔ (result ≡ Some by)) }
    {
        self.moves.blocker(node, i)
    }

    /// Each move has a price: a call that does nothing but say so.
    fn have_prices(&self)
        ensures { (node i : ℕ) → node < (M.graph self.now).count → i < (M.graph self.now).arity
            → (p : ℕ) × (M.graph self.now).priced node i p }
    {
        self.moves.has_prices();
    }
}

/// Nodes of some moves, ascending.
#[derive(Drop)]
struct MoveNodes<'a, M: Shuts> {
    on: SoundMoves<'a, M>,
    nodes: &'a [u32],
    ghost ascend: { IsStrictlyIncreasing nodes.now },
    ghost there: { All (λ v. v < (M.graph on).count) nodes.now },
}

impl<M: Shuts> MoveNodes<'_, M> {
    fn leads_out(&self, node: u32, index: u32) -> bool
        requires node { node < (M.graph self.now.on).count }
        requires index { index < (M.graph self.now.on).arity }
        ensures { IsTrue result ↔ LeadsOut (M.graph self.now.on).at self.now.nodes.now node index }
    {
        match self.on.moves.at(node, index) {
            None => false,
            Some((_, to)) => !has(self.nodes, to),
        }
    }

    fn stays_or_listed(&self, blocked: &BlockList<'_>, node: u32, index: u32) -> bool
        requires node { node < (M.graph self.now.on).count }
        requires index { index < (M.graph self.now.on).arity }
        ensures { IsTrue result ↔ (LeadsOut (M.graph self.now.on).at self.now.nodes.now node index
            → IsListed blocked.now node index) }
    {
        !self.leads_out(node, index) || blocked.has(node, index)
    }

    fn all_listed(&self, blocked: &BlockList<'_>, node: u32) -> bool
        requires { node < (M.graph self.now.on).count }
        ensures { IsTrue result ↔ AllListed (M.graph self.now.on).at (M.graph self.now.on).arity self.now.nodes.now
            blocked.now node }
    {
        for i in 0..self.on.arity() {
            if !self.stays_or_listed(blocked, node, i) {
                return false;
            }
        }
        true
    }

    fn nodes_listed(&self, blocked: &BlockList<'_>) -> bool
        ensures { IsTrue result ↔ All (AllListed (M.graph self.now.on).at (M.graph self.now.on).arity
            self.now.nodes.now blocked.now) self.now.nodes.now }
    {
        for v in self.nodes {
            if !self.all_listed(blocked, *v) {
                return false;
            }
        }
        true
    }

    fn is_shut_by(&self, node: u32, index: u32, by: Blocker) -> bool
        requires node { node < (M.graph self.now.on).count }
        requires index { index < (M.graph self.now.on).arity }
        requires there { IsSome ((M.graph self.now.on).at node index) }
        ensures { IsTrue result ↔ M.shut_by self.now.on node index by }
    {
        self.on.blocker(node, index) == Some(by)
    }

    fn is_block(&self, block: &Block) -> bool
        ensures { IsTrue result ↔ IsBlock (M.graph self.now.on).at (M.graph self.now.on).arity
            (M.shut_by self.now.on) self.now.nodes.now block.now }
    {
        if !has(self.nodes, block.node) {
            return false;
        }
        if block.index >= self.on.arity() {
            return false;
        }
        if !self.leads_out(block.node, block.index) {
            return false;
        }
        self.is_shut_by(block.node, block.index, block.by)
    }

    fn all_blocks(&self, blocked: &[Block]) -> bool
        ensures { IsTrue result ↔ All (IsBlock (M.graph self.now.on).at (M.graph self.now.on).arity
            (M.shut_by self.now.on) self.now.nodes.now) blocked.now }
    {
        for block in blocked {
            if !self.is_block(block) {
                return false;
            }
        }
        true
    }

    fn are_blocks(&self, blocked: &[Block]) -> bool
        ensures { IsTrue result ↔ AreBlocks (M.graph self.now.on).at (M.graph self.now.on).arity
            (M.shut_by self.now.on) self.now.nodes.now blocked.now }
    {
        if !in_order(blocked) {
            return false;
        }
        if !self.all_blocks(blocked) {
            return false;
        }
        let list = BlockList { blocks: blocked };
        self.nodes_listed(&list)
    }
}

/// Whether the blocks are, in order, exactly the moves of the nodes that lead out, each with what shuts it.
pub(crate) fn are_blocks<'a, M: Shuts>(
    on: SoundMoves<'a, M>,
    nodes: &'a [u32],
    blocked: &[Block],
) -> bool
    requires ascend { IsStrictlyIncreasing nodes.now }
    requires there { All (λ v. v < (M.graph on).count) nodes.now }
    ensures { IsTrue result ↔ AreBlocks (M.graph on.entry).at (M.graph on.entry).arity (M.shut_by on.entry) nodes.now
        blocked.now }
{
    let held = MoveNodes { on, nodes };
    held.are_blocks(blocked)
}

/// Whether one of the nodes, which ascend, is a goal.
pub fn meets(nodes: &[u32], goals: &[u32]) -> bool
    requires { IsStrictlyIncreasing nodes.now }
    ensures { IsTrue result ↔ Meets nodes.now goals.now }
{
    for goal in goals {
        if has(nodes, *goal) {
            return true;
        }
    }
    false
}

/// Nodes of some moves, ascending, and the marks on them.
#[derive(Drop)]
struct MarkedNodes<'a, M: Shuts> {
    on: SoundMoves<'a, M>,
    nodes: &'a [u32],
    marks: &'a Marks,
    ghost ascend: { IsStrictlyIncreasing nodes.now },
    ghost there: { All (λ v. v < (M.graph on).count) nodes.now },
    ghost size: { length marks.now ≡ (M.graph on).count },
    ghost marked: { (v : ℕ) → Contains nodes.now v → IsMarked marks.now v },
    ghost unmarked: { (v : ℕ) → (Contains nodes.now v → ⊥) → IsMarked marks.now v → ⊥ },
}

impl<M: Shuts> MarkedNodes<'_, M> {
    /// Whether the node isn't among the nodes.
    fn is_outside(&self, node: u32) -> bool
        requires { node < (M.graph self.now.on).count }
        ensures { IsTrue result ↔ (Contains self.now.nodes.now node → ⊥) }
    {
        !self.marks.has(node)
    }

    fn leads_out(&self, node: u32, index: u32) -> bool
        requires node { node < (M.graph self.now.on).count }
        requires index { index < (M.graph self.now.on).arity }
        ensures { IsTrue result ↔ LeadsOut (M.graph self.now.on).at self.now.nodes.now node index }
    {
        self.on.are_sound();
        match self.on.moves.at(node, index) {
            None => false,
            Some((_, to)) => self.is_outside(to),
        }
    }

    /// Appends the moves of a node that lead out.
    fn push_blocks(&self, node: u32, blocked: &mut Vec<Block>) -> Result<(), AllocError>
        requires inside { Contains self.now.nodes.now node }
        requires closed { IsClosed (M.graph self.now.on).at (M.graph self.now.on).arity
            (M.graph self.now.on).open_at self.now.nodes.now }
        requires earlier { AreEarlier (M.graph self.now.on).at (M.graph self.now.on).arity (M.shut_by self.now.on)
            self.now.nodes.now node blocked.old.items }
        ensures { OnOk result (Extends (M.graph self.now.on).at (M.graph self.now.on).arity (M.shut_by self.now.on)
            self.now.nodes.now node (M.graph self.now.on).arity blocked.old.items blocked.new.items) }
    {
        for i in 0..self.on.arity() {
            if self.leads_out(node, i) {
                let Some(by) = self.on.blocker(node, i) else {
                    unreachable!();
                };
                blocked.push(Block { node, index: i, by })?;
            }
        }
        Ok(())
    }

    /// The moves of the nodes that lead out, in order, each with what shuts it.
    fn blocks_of(&self, alloc: Global) -> Result<Vec<Block>, AllocError>
        requires { IsClosed (M.graph self.now.on).at (M.graph self.now.on).arity
            (M.graph self.now.on).open_at self.now.nodes.now }
        ensures { IfOk result (λ v. AreBlocks (M.graph self.now.on).at (M.graph self.now.on).arity
            (M.shut_by self.now.on) self.now.nodes.now v.items) }
    {
        let mut blocked = Vec::new(alloc);
        for v in self.nodes {
            self.push_blocks(*v, &mut blocked)?;
        }
        Ok(blocked)
    }
}

/// The border of the nodes of a flood, or None where a goal is among them.
fn border_of<M: Shuts>(
    alloc: Global,
    shuts: SoundMoves<'_, M>,
    flooded: Flooded,
    goals: &List<u32>,
) -> Result<Option<Border>, AllocError>
    requires size { length flooded.marks ≡ (M.graph shuts).count }
    requires listed { AreListed flooded.marks (M.graph shuts).count flooded.reach.nodes }
    requires closed { IsClosed (M.graph shuts).at (M.graph shuts).arity (M.graph shuts).open_at flooded.reach.nodes }
    ensures { IfOk result (IsBorder (M.graph shuts.entry) (M.shut_by shuts.entry) flooded.reach.nodes goals.now) }
{
    if meets(flooded.reach.nodes.as_slice(), goals.as_slice()) {
        drop(flooded);
        return Ok(None);
    }
    let held = MarkedNodes {
        on: shuts,
        nodes: flooded.reach.nodes.as_slice(),
        marks: &flooded.marks,
    };
    let blocked = held.blocks_of(alloc);
    drop(held);
    let Flooded { reach, marks } = flooded;
    drop(marks);
    match blocked {
        Ok(blocked) => Ok(Some(Border {
            reach,
            blocked: List::from_vec(blocked),
        })),
        Err(error) => {
            drop(reach);
            Err(error)
        }
    }
}

/// The border of all that open moves reach from the starts, or None where they reach a goal. The flood goes over
/// `legal`, which has the same moves; `shuts` tells what shuts those that lead out.
pub(crate) fn close<M: Shuts, L: Moves>(
    alloc: Global,
    shuts: SoundMoves<'_, M>,
    legal: &SoundMoves<'_, L>,
    starts: &List<u32>,
    goals: &List<u32>,
) -> Result<Option<Border>, AllocError>
    requires same { SameMoves (L.graph legal.now) (M.graph shuts) }
    requires starts { All (λ s. s < (M.graph shuts).count) starts.now }
    ensures { IfOk result (Closes (M.graph shuts.entry) (M.shut_by shuts.entry) starts.now goals.now) }
{
    shuts.are_sound();
    shuts.have_prices();
    let flooded = legal.flood_marked(alloc, starts)?;
    border_of(alloc, shuts, flooded, goals)
}
