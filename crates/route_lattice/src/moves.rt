//! Moves between numbered nodes, and what a search over them answers.
//! A node is a number below `count`, and a move of a node is an index below `arity`.

ghost use Rattle.std.specs.Prelude.{◌≡◌, ℕ, ◌<◌};
ghost use Rattle.std.specs.Bool.{OnTrue, OnFalse};
ghost use Rattle.route_lattice.specs.Walks.{MoveGraph};

use geo_kernel::List;

/// A step to the next line in a direction, or a via of a padstack to a signal layer.
#[derive(Clone, Copy, PartialEq, Eq)]
pub enum Move {
    Step { dir: u8 },
    Via { padstack: u32, layer: u8 },
}

/// The moves between nodes: where they lead, which of them are open, and what they cost.
pub trait Moves {
    /// The nodes and moves that the calls answer for.
    ghost graph: { Self → MoveGraph };

    /// What has to hold of the implementation's own parts before the calls are made.
    ghost ready: { Self → Type 0 };

    /// The number of nodes.
    fn count(&self) -> u32
        ensures { result ≡ (graph self.now).count };

    /// The number of indices that a node's moves may have.
    fn arity(&self) -> u32
        ensures { result ≡ (graph self.now).arity };

    /// The move of that index and the node that it leads to; None where the node has no such move.
    fn at(&self, node: u32, i: u32) -> Option<(Move, u32)>
        requires ready { ready self.now }
        requires node { node < (graph self.now).count }
        requires index { i < (graph self.now).arity }
        ensures { result ≡ (graph self.now).at node i };

    /// Whether the move may be made.
    fn is_open(&self, node: u32, i: u32) -> bool
        requires ready { ready self.now }
        requires node { node < (graph self.now).count }
        requires index { i < (graph self.now).arity }
        ensures opens { OnTrue result ((graph self.now).open_at node i) }
        ensures shut { OnFalse result ((graph self.now).open_at node i → ⊥) };

    /// What the move costs.
    fn price(&self, node: u32, i: u32) -> u64
        requires ready { ready self.now }
        requires node { node < (graph self.now).count }
        requires index { i < (graph self.now).arity }
        ensures { (graph self.now).priced node i result };
}

/// A chain of moves: its nodes, of which there is one more than moves, and what its moves cost together.
#[derive(Drop)]
pub struct Walk {
    pub nodes: List<u32>,
    pub moves: List<Move>,
    pub price: u64,
}

/// Nodes that moves reach, ascending.
#[derive(Drop)]
pub struct Reach {
    pub nodes: List<u32>,
}

/// What a search answers: a walk, or all that it reached where no walk leads to a goal.
#[derive(Drop)]
pub enum Found {
    Walk(Walk),
    Closed(Reach),
}
