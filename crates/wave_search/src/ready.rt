//! Moves that may be asked for: what their implementation requires of its own parts holds.
//! Who makes such a value proves that once, so no step of a search has a premise of it.

ghost use Rattle.std.specs.Prelude.{◌≡◌, ◌<◌};
ghost use Rattle.std.specs.Bool.{OnTrue, OnFalse};

use route_lattice::{Move, Moves};
use std::marker::Model;

/// Moves that are ready; contracts see the moves.
#[derive(Drop)]
pub(crate) struct ReadyMoves<'a, M: Moves> {
    pub moves: &'a M,
}

impl<'a, M: Moves> Model for ReadyMoves<'a, M> {
    ghost Value = { M };

    ghost view = { λ s. s.moves.now };

    ghost invariant = { λ s. M.ready s.moves.now };
}

impl<M: Moves> ReadyMoves<'_, M> {
    /// The number of nodes.
    pub(crate) fn count(&self) -> u32
        ensures { result ≡ (M.graph self.now).count }
    {
        self.moves.count()
    }

    /// The number of indices that a node's moves may have.
    pub(crate) fn arity(&self) -> u32
        ensures { result ≡ (M.graph self.now).arity }
    {
        self.moves.arity()
    }

    /// The move of that index and the node that it leads to; None where the node has no such move.
    pub(crate) fn at(&self, node: u32, i: u32) -> Option<(Move, u32)>
        requires node { node < (M.graph self.now).count }
        requires index { i < (M.graph self.now).arity }
        ensures { result ≡ (M.graph self.now).at node i }
    {
        self.moves.at(node, i)
    }

    /// Whether the move may be made.
    pub(crate) fn is_open(&self, node: u32, i: u32) -> bool
        requires node { node < (M.graph self.now).count }
        requires index { i < (M.graph self.now).arity }
        ensures opens { OnTrue result ((M.graph self.now).open_at node i) }
        ensures shut { OnFalse result ((M.graph self.now).open_at node i → ⊥) }
    {
        self.moves.is_open(node, i)
    }

    /// What the move costs.
    pub(crate) fn price(&self, node: u32, i: u32) -> u64
        requires node { node < (M.graph self.now).count }
        requires index { i < (M.graph self.now).arity }
        ensures { (M.graph self.now).priced node i result }
    {
        self.moves.price(node, i)
    }
}
