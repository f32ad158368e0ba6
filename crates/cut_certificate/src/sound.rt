//! Moves that are ready and sound, as one value.
//! Who makes one proves that once, and passes it on.

ghost use Rattle.std.specs.Prelude.{◌≡◌};
ghost use Rattle.route_lattice.specs.Walks.{IsSound};

use route_lattice::Moves;
use std::marker::Model;

/// Moves that may be asked for, of a graph that may be searched.
#[derive(Drop)]
pub(crate) struct SoundMoves<'a, M: Moves> {
    pub moves: &'a M,
}

impl<'a, M: Moves> Model for SoundMoves<'a, M> {
    ghost use Rattle.route_lattice.specs.Walks.{IsSound};

    ghost Value = { M };

    ghost view = { λ s. s.moves.now };

    ghost invariant = { λ s. M.ready s.moves.now × IsSound (M.graph s.moves.now) };
}

impl<M: Moves> SoundMoves<'_, M> {
    /// The number of nodes.
    pub(crate) fn count(&self) -> u32
        ensures { result ≡ (M.graph self.now).count }
    {
        self.moves.count()
    }

    /// The number of indices that a node's moves may have.
    pub(crate) fn arity(&self) -> u32
        ensures { result ≡ (M.graph self.now).arity }
    {
        self.moves.arity()
    }

    /// The graph is sound: a call that does nothing but say so.
    pub(crate) fn are_sound(&self)
        ensures { IsSound (M.graph self.now) }
    {
        let _ = &self.moves;
    }
}
