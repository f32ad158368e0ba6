//! What the workers of a pass share: what it goes by, the turn over its board, the counter of its tasks, and the gate.
//! It is lent to all of them at once.

ghost use Rattle.std.specs.Prelude.{◌≡◌, ◌<◌, ◌^◌, length};
ghost use Rattle.searcher_pool.specs.inner.Working.{IsTurnOf};

use crate::input::PassInput;
use board_turn::{Counter, Gate, Turn};
use std::marker::Model;

/// What the workers of a pass share. Contracts see the pass, its turn and its counter.
#[derive(Drop)]
pub(crate) struct Pool<'a, G: Gate> {
    pub input: PassInput<'a>,
    pub turn: Turn,
    pub counter: Counter,
    pub gate: &'a G,
}

impl<'a, G: Gate> Model for Pool<'a, G> {
    ghost use Rattle.searcher_pool.specs.Inputs.{pass_of};
    ghost use Rattle.searcher_pool.specs.inner.Pools.{PoolOf, IsPool};

    ghost Value = { PoolOf };

    ghost view = { λ s. record { pass = pass_of s.input; turn = s.turn; counter = s.counter } };

    ghost invariant = { λ s. IsPool s.input s.turn s.counter };
}

impl<'a, G: Gate> Pool<'a, G> {
    /// The turn is one over the board of the pass, and the counter counts its tasks. It does nothing.
    pub(crate) fn keeps(&self)
        ensures turn { IsTurnOf self.now.pass self.now.turn }
        ensures tasks { self.now.counter.tasks ≡ length self.now.pass.tasks }
        ensures few { length self.now.pass.tasks < 2 ^ 32 }
    {
        let _ = &self.turn;
    }
}
