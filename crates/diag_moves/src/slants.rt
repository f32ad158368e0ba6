//! The diagonals alone, for a flood from nodes that legal moves don't leave.
//! Where none of them leads out, what legal moves reach is all that both reach (`reach_is_whole`).

ghost use Rattle.std.specs.Prelude.{◌≡◌, ◌+◌};
ghost use Rattle.route_lattice.specs.Legal.{CanMove};
ghost use Rattle.diag_moves.specs.Slopes.{slant_graph};

use crate::moves::DiagMoves;
use pcb_model::Copper;
use route_lattice::{Move, Moves};

/// The diagonals among the moves of a net.
#[derive(Drop)]
pub struct Slants<'a, C: Copper> {
    pub all: DiagMoves<'a, C>,
}

impl<C: Copper> Moves for Slants<'_, C> {
    ghost graph = { λ s. slant_graph s.all.legal.d.now s.all.legal.lat.now (C.items s.all.legal.c.now) s.all.legal.net
        s.all.legal.via_cost };

    ghost ready = { λ s. CanMove s.all.legal.d.now s.all.legal.lat.now s.all.legal.net s.all.legal.via_cost
        × C.serves s.all.legal.c.now s.all.legal.d.now };

    fn count(&self) -> u32 {
        self.all.count()
    }

    fn arity(&self) -> u32 {
        4
    }

    fn at(&self, node: u32, i: u32) -> Option<(Move, u32)> {
        self.all.at(node, self.all.legal.arity + i)
    }

    fn is_open(&self, node: u32, i: u32) -> bool {
        self.all.is_open(node, self.all.legal.arity + i)
    }

    fn price(&self, node: u32, i: u32) -> u64 {
        self.all.price(node, self.all.legal.arity + i)
    }
}
