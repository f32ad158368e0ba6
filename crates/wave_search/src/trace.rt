//! The trace of a walk over the labels that a search leaves, by tight moves.
//! A move is tight where it is open and leads from one node to another at exactly the other's price.

ghost use Rattle.std.specs.Prelude.{◌≡◌, ℕ, ◌^◌, ◌<◌, length, [], None, IfOk, OnOk};
ghost use Rattle.std.specs.Prelude.{IfSome, Contains, Some, MatchOption};
ghost use Rattle.std.specs.Bool.{OnTrue};
ghost use Rattle.route_lattice.specs.Walks.{IsWalk};
ghost use Rattle.wave_search.specs.declared.rows.Label.{Label as TheLabel};
ghost use Rattle.wave_search.specs.inner.State.{label_at, IsTight, IsTightOf, IsLeastTight, Roots};

use crate::bound::Bound;
use crate::choices::{Choices, Start};
use crate::labels::Labels;
use crate::query::Query;
use crate::rows::Label;
use crate::ties::Ties;
use geo_kernel::List;
use route_lattice::{Move, Moves, Walk};
use std::alloc::{AllocError, Global};

impl<'a, M: Moves, B: Bound, T: Ties> Query<'a, M, B, T> {
    /// Move `i` of a node, if it is open and leads to the other node at exactly the other's price.
    fn tight_at(&self, from: u32, before: u64, to: u32, price: u64, i: u32) -> Option<Move>
        requires node { from < (M.graph self.now.m.now).count }
        requires index { i < (M.graph self.now.m.now).arity }
        requires small { before < 2 ^ 60 }
        ensures { MatchOption result ((t : IsTight (M.graph self.now.m.now) from before to price) → t.hop.index ≡ i
            → ⊥) (λ mv. IsTightOf (M.graph self.now.m.now) from before to price i mv) }
    {
        let Some((mv, there)) = self.m.at(from, i) else {
            return None;
        };
        if there != to {
            return None;
        }
        if before + self.m.price(from, i) != price {
            return None;
        }
        if !self.m.is_open(from, i) {
            return None;
        }
        Some(mv)
    }

    /// Of the open moves that lead from a node to another at exactly the other's price the one of the least index; None
    /// where there is none.
    pub(crate) fn tight_to(&self, from: u32, before: u64, to: u32, price: u64) -> Option<Move>
        requires node { from < (M.graph self.now.m.now).count }
        requires small { before < 2 ^ 60 }
        ensures { MatchOption result (IsTight (M.graph self.now.m.now) from before to price → ⊥)
            (λ mv. IsLeastTight (M.graph self.now.m.now) from before to price mv) }
    {
        for i in 0..self.m.arity() {
            if let Some(mv) = self.tight_at(from, before, to, price, i) {
                return Some(mv);
            }
        }
        None
    }

    /// Adds the nodes and the moves of the walk that the label of a node stands for.
    fn trace_into(
        &self,
        table: &Labels,
        node: u32,
        label: Label,
        nodes: &mut Vec<u32>,
        moves: &mut Vec<Move>,
    ) -> Result<(), AllocError>
        requires roots { Roots (M.graph self.now.m.now) self.now.starts.now table.now }
        requires small { (v : ℕ) (l : TheLabel) → label_at table.now v ≡ Some l → l.price < 2 ^ 60 }
        requires there { label_at table.now node ≡ Some label }
        requires is_done { 0 < label.rank }
        requires goal { Contains self.now.goals.now node }
        requires no_nodes { nodes.old.items ≡ [] }
        requires no_moves { moves.old.items ≡ [] }
        ensures { OnOk result (IsWalk (M.graph self.now.m.now) self.now.starts.now self.now.goals.now
            (record { nodes = nodes.new.items; moves = moves.new.items; price = label.price })) }
    {
        let mut at = node;
        let mut here = label;
        nodes.push(at)?;
        while let Some(from) = here.origin {
            let Some(before) = table.get(from) else {
                unreachable!();
            };
            let Some(mv) = self.tight_to(from, before.price, at, here.price) else {
                unreachable!();
            };
            moves.push(mv)?;
            at = from;
            here = before;
            nodes.push(at)?;
        }
        nodes.reverse();
        moves.reverse();
        Ok(())
    }

    /// The walk that the label of a node stands for.
    pub(crate) fn trace(
        &self,
        alloc: Global,
        table: &Labels,
        node: u32,
        label: Label,
    ) -> Result<Walk, AllocError>
        requires roots { Roots (M.graph self.now.m.now) self.now.starts.now table.now }
        requires small { (v : ℕ) (l : TheLabel) → label_at table.now v ≡ Some l → l.price < 2 ^ 60 }
        requires there { label_at table.now node ≡ Some label }
        requires is_done { 0 < label.rank }
        requires goal { Contains self.now.goals.now node }
        ensures walk { IfOk result (IsWalk (M.graph self.now.m.now) self.now.starts.now self.now.goals.now) }
        ensures price { IfOk result (λ w. w.price ≡ label.price) }
    {
        let mut nodes = Vec::new(alloc);
        let mut moves = Vec::new(alloc);
        self.trace_into(table, node, label, &mut nodes, &mut moves)?;
        Ok(Walk {
            nodes: List::from_vec(nodes),
            moves: List::from_vec(moves),
            price: label.price,
        })
    }

    /// The label of a node that is done after one of that rank.
    pub(crate) fn label_after(&self, table: &Labels, rank: u32, to: u32) -> Option<Label>
        requires { length table.now ≡ (M.graph self.now.m.now).count }
        ensures { IfSome result (λ l. (label_at table.now to ≡ Some l) × (rank < l.rank)
            × (to < (M.graph self.now.m.now).count) × (l.rank < 2 ^ 32)) }
    {
        if to >= self.m.count() {
            return None;
        }
        let after = table.get(to)?;
        if after.rank <= rank {
            return None;
        }
        Some(after)
    }

    /// Adds the nodes and the moves of a walk from the start, as the choices have it go on. False where they lead
    /// astray, or to no goal at the price.
    fn follow_into(
        &self,
        table: &Labels,
        choices: &Choices,
        start: Start,
        price: u64,
        nodes: &mut Vec<u32>,
        moves: &mut Vec<Move>,
    ) -> Result<bool, AllocError>
        requires roots { Roots (M.graph self.now.m.now) self.now.starts.now table.now }
        requires small { (v : ℕ) (l : TheLabel) → label_at table.now v ≡ Some l → l.price < 2 ^ 60 }
        requires no_nodes { nodes.old.items ≡ [] }
        requires no_moves { moves.old.items ≡ [] }
        ensures { IfOk result (λ led. OnTrue led (IsWalk (M.graph self.now.m.now) self.now.starts.now
            self.now.goals.now (record { nodes = nodes.new.items; moves = moves.new.items; price = price }))) }
    {
        let Some(mut here) = self.label_after(table, 0, start.node) else {
            return Ok(false);
        };
        if here.origin.is_some() {
            return Ok(false);
        }
        let mut at = start.node;
        let mut heading = start.heading;
        nodes.push(at)?;
        while let Some(way) = choices.on(here.rank, heading) {
            let Some(after) = self.label_after(table, here.rank, way.to) else {
                return Ok(false);
            };
            let Some(mv) = self.tight_to(at, here.price, way.to, after.price) else {
                return Ok(false);
            };
            moves.push(mv)?;
            at = way.to;
            here = after;
            heading = way.then;
            nodes.push(at)?;
        }
        if here.price != price || !self.goals.has(at) {
            return Ok(false);
        }
        Ok(true)
    }

    /// A walk from the start to a goal at the price, as the choices have it go on; None where they lead astray.
    pub(crate) fn follow(
        &self,
        alloc: Global,
        table: &Labels,
        choices: &Choices,
        start: Start,
        price: u64,
    ) -> Result<Option<Walk>, AllocError>
        requires roots { Roots (M.graph self.now.m.now) self.now.starts.now table.now }
        requires small { (v : ℕ) (l : TheLabel) → label_at table.now v ≡ Some l → l.price < 2 ^ 60 }
        ensures { IfOk result
            (λ o. IfSome o (λ w. IsWalk (M.graph self.now.m.now) self.now.starts.now self.now.goals.now w
            × (w.price ≡ price))) }
    {
        let mut nodes = Vec::new(alloc);
        let mut moves = Vec::new(alloc);
        let led = self.follow_into(table, choices, start, price, &mut nodes, &mut moves)?;
        if !led {
            return Ok(None);
        }
        Ok(Some(Walk {
            nodes: List::from_vec(nodes),
            moves: List::from_vec(moves),
            price,
        }))
    }
}
