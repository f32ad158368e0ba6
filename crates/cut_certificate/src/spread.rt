//! From the starts, the open moves of each node that is found are followed once.
//! Whether a move is open is asked last, since nothing else is dear.

ghost use Rattle.std.specs.Prelude.{◌≡◌, ◌<◌, ◌+◌, ℕ, length, All, Contains, IfOk, OnOk};
ghost use Rattle.std.specs.Bool.{OnTrue, OnFalse};
ghost use Rattle.route_lattice.specs.Walks.{IsSound, IsReach, NoneLeads};
ghost use Rattle.cut_certificate.specs.Backwards.{IsMutual};
ghost use Rattle.cut_certificate.specs.inner.Marks.{IsMarked, Gains, IsLedTo, IsNext, IsBlank, IsFlood, AreListed};
ghost use Rattle.cut_certificate.specs.inner.Marks.{fill_of};

use crate::backwards::Backwards;
use crate::check::all_below;
use crate::front::Front;
use crate::marks::Marks;
use crate::sound::SoundMoves;
use geo_kernel::List;
use route_lattice::{Moves, Reach};
use std::alloc::{AllocError, Global};

/// Nodes, ascending, and the marks on them.
#[derive(Drop)]
pub(crate) struct Flooded {
    pub reach: Reach,
    pub marks: Marks,
}

/// Marks the starts.
fn seed(front: &mut Front, starts: &[u32]) -> Result<(), AllocError>
    requires { All (λ s. s < length front.old.marks) starts.now }
    ensures { OnOk result (Gains (Contains starts.now) (fill_of front.old) (fill_of front.new)) }
{
    for s in starts {
        front.mark(*s)?;
    }
    Ok(())
}

impl<M: Moves> SoundMoves<'_, M> {
    /// Follows move `i` of the node. Its price is asked for since each move of a walk has one.
    fn follow_one(&self, front: &mut Front, node: u32, i: u32) -> Result<(), AllocError>
        requires node { node < (M.graph self.now).count }
        requires index { i < (M.graph self.now).arity }
        requires size { length front.old.marks ≡ (M.graph self.now).count }
        ensures { OnOk result (Gains (IsLedTo (M.graph self.now) node i (i + 1)) (fill_of front.old)
            (fill_of front.new)) }
    {
        let Some((_, to)) = self.moves.at(node, i) else {
            return Ok(());
        };
        if front.has(to) {
            return Ok(());
        }
        if !self.moves.is_open(node, i) {
            return Ok(());
        }
        let _price = self.moves.price(node, i);
        front.mark(to)
    }

    /// Follows all moves of the node.
    fn follow(&self, front: &mut Front, node: u32) -> Result<(), AllocError>
        requires node { node < (M.graph self.now).count }
        requires size { length front.old.marks ≡ (M.graph self.now).count }
        ensures { OnOk result (Gains (IsNext (M.graph self.now) node) (fill_of front.old) (fill_of front.new)) }
    {
        for i in 0..self.arity() {
            self.follow_one(front, node, i)?;
        }
        Ok(())
    }

    /// Marks all nodes that open moves reach from the starts.
    fn mark_reached(&self, front: &mut Front, starts: &List<u32>) -> Result<(), AllocError>
        requires starts { All (λ s. s < (M.graph self.now).count) starts.now }
        requires blank { IsBlank (M.graph self.now).count (fill_of front.old) }
        ensures flood { OnOk result (IsFlood (M.graph self.now) starts.now (fill_of front.new)) }
        ensures done { OnOk result (length front.new.waiting.items ≡ 0) }
    {
        seed(front, starts.as_slice())?;
        'flood: while let Some(node) = front.waiting.pop() {
            self.follow(front, node)?;
        }
        Ok(())
    }

    /// All nodes that open moves reach from the starts, and the marks on them.
    pub(crate) fn flood_marked(
        &self,
        alloc: Global,
        starts: &List<u32>,
    ) -> Result<Flooded, AllocError>
        requires { All (λ s. s < (M.graph self.now).count) starts.now }
        ensures reach { IfOk result (λ f. IsReach (M.graph self.now) starts.now f.reach.nodes) }
        ensures marks { IfOk result (λ f. AreListed f.marks (M.graph self.now).count f.reach.nodes) }
        ensures size { IfOk result (λ f. length f.marks ≡ (M.graph self.now).count) }
    {
        let count = self.count();
        let mut front = Front::new(alloc, count)?;
        self.mark_reached(&mut front, starts)?;
        let nodes = front.marked(alloc)?;
        let Front { marks, waiting } = front;
        drop(waiting);
        Ok(Flooded {
            reach: Reach { nodes },
            marks,
        })
    }

    /// All nodes that open moves reach from the starts.
    pub(crate) fn flood(&self, alloc: Global, starts: &List<u32>) -> Result<Reach, AllocError>
        requires { All (λ s. s < (M.graph self.now).count) starts.now }
        ensures { IfOk result (λ r. IsReach (M.graph self.now) starts.now r.nodes) }
    {
        let Flooded { reach, marks } = self.flood_marked(alloc, starts)?;
        drop(marks);
        Ok(reach)
    }

    /// Marks all nodes that open moves reach from the starts, or stops once more than `most` nodes have been followed.
    fn mark_within(
        &self,
        front: &mut Front,
        starts: &List<u32>,
        most: u32,
    ) -> Result<bool, AllocError>
        requires starts { All (λ s. s < (M.graph self.now).count) starts.now }
        requires blank { IsBlank (M.graph self.now).count (fill_of front.old) }
        ensures flood { IfOk result (λ all. OnTrue all (IsFlood (M.graph self.now) starts.now (fill_of front.new))) }
        ensures done { IfOk result (λ all. OnTrue all (length front.new.waiting.items ≡ 0)) }
    {
        seed(front, starts.as_slice())?;
        let mut left = most;
        'flood: while let Some(node) = front.waiting.pop() {
            if left == 0 {
                return Ok(false);
            }
            left -= 1;
            self.follow(front, node)?;
        }
        Ok(true)
    }
}

/// All nodes that open moves reach from the starts.
pub fn flood<M: Moves>(alloc: Global, moves: &M, starts: &List<u32>) -> Result<Reach, AllocError>
    requires ready { M.ready moves.now }
    requires sound { IsSound (M.graph moves.now) }
    requires starts { All (λ s. s < (M.graph moves.now).count) starts.now }
    ensures { IfOk result (λ r. IsReach (M.graph moves.now) starts.now r.nodes) }
{
    SoundMoves { moves }.flood(alloc, starts)
}

/// Whether one of the nodes is marked.
fn any_marked(front: &Front, nodes: &[u32]) -> bool
    requires { All (λ s. s < length front.now.marks) nodes.now }
    ensures { OnFalse result (All (λ s. IsMarked front.now.marks s → ⊥) nodes.now) }
{
    for s in nodes {
        if front.has(*s) {
            return true;
        }
    }
    false
}

/// Whether some goals, at most `most`, are shut in: open moves lead to them from at most `most` nodes, and no start is
/// among these.
pub fn are_shut_in<M: Moves>(
    alloc: Global,
    moves: &M,
    starts: &List<u32>,
    goals: &List<u32>,
    most: u32,
) -> Result<bool, AllocError>
    requires ready { M.ready moves.now }
    requires sound { IsSound (M.graph moves.now) }
    requires turns { IsMutual (M.graph moves.now) }
    requires starts { All (λ s. s < (M.graph moves.now).count) starts.now }
    ensures { IfOk result (λ shut. OnTrue shut (NoneLeads (M.graph moves.now) starts.now goals.now)) }
{
    let count = moves.count();
    if goals.len() > most as usize || !all_below(goals.as_slice(), count) {
        return Ok(false);
    }
    let turned = Backwards { moves };
    let mut front = Front::new(alloc, count)?;
    let turned = SoundMoves { moves: &turned };
    if !turned.mark_within(&mut front, goals, most)? {
        return Ok(false);
    }
    Ok(!any_marked(&front, starts.as_slice()))
}
