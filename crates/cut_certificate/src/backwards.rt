//! Moves turned round: a flood over them from some goals finds all nodes from which open moves lead to one.
//! A goal that is shut in is soon known to be so, however far the moves from the starts reach.

ghost use Rattle.std.specs.Prelude.{◌≡◌, ◌<◌};
ghost use Rattle.std.specs.Bool.{OnTrue, OnFalse};
ghost use Rattle.route_lattice.specs.Walks.{IsSound};
ghost use Rattle.cut_certificate.specs.Backwards.{backwards, LedBy};
ghost use Rattle.cut_certificate.specs.inner.Marks.{LedOver};

use crate::sound::SoundMoves;
use route_lattice::{Move, Moves};

/// The moves of another set of moves, turned round.
#[derive(Drop)]
pub struct Backwards<'a, M: Moves> {
    pub moves: &'a M,
}

impl<M: Moves> SoundMoves<'_, M> {
    /// Whether move `i` of a node is open and leads to the other one.
    fn leads_by(&self, from: u32, to: u32, i: u32) -> bool
        requires from { from < (M.graph self.now).count }
        requires index { i < (M.graph self.now).arity }
        ensures yes { OnTrue result (LedOver (M.graph self.now) from to i) }
        ensures no { OnFalse result (LedOver (M.graph self.now) from to i → ⊥) }
    {
        let Some((_, there)) = self.moves.at(from, i) else {
            return false;
        };
        if there != to {
            return false;
        }
        if !self.moves.is_open(from, i) {
            return false;
        }
        let _price = self.moves.price(from, i);
        true
    }

    /// Whether an open move leads from a node to another one.
    fn leads(&self, from: u32, to: u32) -> bool
        requires { from < (M.graph self.now).count }
        ensures yes { OnTrue result (LedBy (M.graph self.now) from to) }
        ensures no { OnFalse result (LedBy (M.graph self.now) from to → ⊥) }
    {
        for i in 0..self.arity() {
            if self.leads_by(from, to, i) {
                return true;
            }
        }
        false
    }
}

impl<M: Moves> Moves for Backwards<'_, M> {
    ghost graph = { λ s. backwards (M.graph s.moves.now) };

    ghost ready = { λ s. M.ready s.moves.now × IsSound (M.graph s.moves.now) };

    fn count(&self) -> u32 {
        self.moves.count()
    }

    fn arity(&self) -> u32 {
        self.moves.arity()
    }

    fn at(&self, node: u32, i: u32) -> Option<(Move, u32)> {
        self.moves.at(node, i)
    }

    fn is_open(&self, node: u32, i: u32) -> bool {
        match self.moves.at(node, i) {
            Some((_, from)) => SoundMoves { moves: self.moves }.leads(from, node),
            None => false,
        }
    }

    fn price(&self, _node: u32, _i: u32) -> u64 {
        0
    }
}
