//! Marked nodes: what they hold, and the moves that lead out of them.

ghost use Rattle.std.specs.Prelude.{◌≡◌, ◌↔◌, ◌<◌, ◌^◌, ℕ, All, Any, Contains, IfSome, IsTrue, MatchOption, length};
ghost use Rattle.route_lattice.specs.Mesh.{node_count};
ghost use Rattle.cut_certificate.specs.Border.{LeadsOut};
ghost use Rattle.cut_check.specs.inner.Outs.{AddsOuts, AreOuts, Escapes, HoldsLegal, HoldsNone};
ghost use Rattle.cut_check.specs.inner.Outs.{IsBeside};

use geo_kernel::List;
use pcb_model::Copper;
use route_lattice::{Ground, Moves};
use std::marker::Model;

/// Nodes of some moves, ascending, and their marks.
#[derive(Drop)]
pub(crate) struct Marked<'a, M: Moves> {
    pub moves: &'a M,
    pub marks: &'a [bool],
    pub nodes: &'a [u32],
}

impl<'a, M: Moves> Model for Marked<'a, M> {
    ghost use Rattle.std.specs.List.Sorted.{IsStrictlyIncreasing};
    ghost use Rattle.route_lattice.specs.Walks.{IsSound};
    ghost use Rattle.cut_check.specs.inner.Marking.{AreMarked};
    ghost use Rattle.cut_check.specs.inner.Outs.{MarkedOf};

    ghost Value = { MarkedOf M };

    ghost view = { λ s. record { moves = s.moves.now; nodes = s.nodes.now } };

    ghost invariant = { λ s. M.ready s.moves.now × IsSound (M.graph s.moves.now) × IsStrictlyIncreasing s.nodes.now
        × AreMarked (M.graph s.moves.now).count s.marks.now s.nodes.now };
}

impl<M: Moves> Marked<'_, M> {
    fn has(&self, node: u32) -> bool
        requires node { node < (M.graph self.now.moves).count }
        ensures { IsTrue result ↔ Contains self.now.nodes node }
    {
        self.marks[node as usize]
    }

    fn leads_out(&self, node: u32, i: u32) -> bool
        requires node { node < (M.graph self.now.moves).count }
        requires index { i < (M.graph self.now.moves).arity }
        ensures { IsTrue result ↔ LeadsOut (M.graph self.now.moves).at self.now.nodes node i }
    {
        match self.moves.at(node, i) {
            None => false,
            Some((_, to)) => !self.has(to),
        }
    }

    // How many moves of the node lead out, or None where one of these is open.
    fn out_of(&self, node: u32) -> Option<u32>
        requires there { Contains self.now.nodes node }
        ensures outs { MatchOption result
            (Escapes (M.graph self.now.moves) self.now.nodes node)
            (AddsOuts (M.graph self.now.moves) self.now.nodes node (M.graph self.now.moves).arity) }
        ensures small { IfSome result (λ n. n < 2 ^ 32) }
    {
        let mut count = 0;
        for i in 0..self.moves.arity() {
            if self.leads_out(node, i) {
                if self.moves.is_open(node, i) {
                    return None;
                }
                count += 1;
            }
        }
        Some(count)
    }

    /// How many moves lead out of the nodes, or None where one of these is open.
    pub(crate) fn outs(&self) -> Option<u64>
        ensures { MatchOption result
            (Any (Escapes (M.graph self.now.moves) self.now.nodes) self.now.nodes)
            (AreOuts (M.graph self.now.moves) self.now.nodes) }
    {
        let mut count = 0;
        for node in self.nodes {
            match self.out_of(*node) {
                Some(more) => count += u64::from(more),
                None => return None,
            }
        }
        Some(count)
    }

    fn start_in<C: Copper>(&self, on: &Ground<'_, C>, net: u32, node: u32) -> bool
        requires net { net < length on.now.d.nets }
        requires node { node < node_count on.now.lat }
        requires same { (M.graph self.now.moves).count ≡ node_count on.now.lat }
        ensures { IsTrue result ↔ HoldsLegal on.now.d on.now.lat on.now.items net self.now.nodes node }
    {
        if self.has(node) {
            return true;
        }
        !on.is_legal_node(net, node)
    }

    /// Whether each of these nodes whose disc is legal is marked.
    pub(crate) fn holds_legal<C: Copper>(
        &self,
        on: &Ground<'_, C>,
        net: u32,
        starts: &[u32],
    ) -> bool
        requires net { net < length on.now.d.nets }
        requires starts { All (λ v. v < node_count on.now.lat) starts.now }
        requires same { (M.graph self.now.moves).count ≡ node_count on.now.lat }
        ensures { IsTrue result ↔ All (HoldsLegal on.now.d on.now.lat on.now.items net self.now.nodes) starts.now }
    {
        for node in starts {
            if !self.start_in(on, net, *node) {
                return false;
            }
        }
        true
    }

    fn holds_none(&self, goals: &[u32]) -> bool
        requires goals { All (λ v. v < (M.graph self.now.moves).count) goals.now }
        ensures { IsTrue result ↔ HoldsNone self.now.nodes goals.now }
    {
        for node in goals {
            if self.has(*node) {
                return false;
            }
        }
        true
    }

    // Whether none of the nodes of the list at place j is marked, if that isn't the list at place k.
    fn is_beside(&self, anchors: &[List<u32>], k: usize, j: usize) -> bool
        requires anchors { All (All (λ v. v < (M.graph self.now.moves).count)) anchors.now }
        requires place { j < length anchors.now }
        ensures { IsTrue result ↔ IsBeside self.now.nodes anchors.now k j }
    {
        if j == k {
            return true;
        }
        self.holds_none(anchors[j].as_slice())
    }

    /// Whether no node of the lists but the one at this place is marked.
    pub(crate) fn holds_no_other(&self, anchors: &[List<u32>], k: usize) -> bool
        requires anchors { All (All (λ v. v < (M.graph self.now.moves).count)) anchors.now }
        ensures { IsTrue result ↔ ((j : ℕ) → IsBeside self.now.nodes anchors.now k j) }
    {
        for j in 0..anchors.len() {
            if !self.is_beside(anchors, k, j) {
                return false;
            }
        }
        true
    }
}
