//! Passes one after another, until they end: where nothing is open, where a pass above the first made no entry, or
//! where an offer met a full board. They can be kept where they stand, and gone on with.

ghost use Rattle.std.specs.Prelude.{◌≡◌, ◌≤◌, IfOk, length};
ghost use Rattle.route_run.specs.Runs.{HaveEnded};
ghost use Rattle.route_run.specs.inner.Passing.{HasPassed, IsNew, Stays};
ghost use Rattle.route_run.specs.inner.States.{IsOnTheWay, GoesOn};

use crate::facts::PassLine;
use crate::input::RunInput;
use crate::state::PassState;
use board_turn::Gate;
use geo_kernel::List;
use pcb_board::Board;
use std::alloc::{AllocError, Global};
use std::marker::Model;
use std::sync::Wait;
use std::thread::Threads;

/// The passes of a run that were made so far, how many, and whether a further one may follow.
/// Contracts see where they stand.
#[derive(Drop)]
pub(crate) struct Passes<'a> {
    state: PassState<'a>,
    made: u32,
    more: bool,
}

impl<'a> Model for Passes<'a> {
    ghost use Rattle.route_run.specs.inner.States.{PassStateOf, HaveGone};

    ghost Value = { PassStateOf };

    ghost view = { λ p. p.state };

    ghost invariant = { λ p. HaveGone p.made p.state p.more };
}

impl<'a> Passes<'a> {
    /// None yet, of a pattern over the nets of a new board.
    pub(crate) fn begin(
        alloc: Global,
        input: RunInput<'a>,
        board: Board,
        pattern: u32,
    ) -> Result<Passes<'a>, AllocError>
        requires { IsNew input board }
        ensures { IfOk result (IsOnTheWay input.entry board) }
    {
        board.keeps();
        let state = PassState::start(alloc, input, board, pattern)?;
        Ok(Passes {
            state,
            made: 0,
            more: true,
        })
    }

    /// The same once more, under another pattern from here on.
    pub(crate) fn under(&self, alloc: Global, pattern: u32) -> Result<Passes<'a>, AllocError>
        ensures { IfOk result (λ p. p ≡ self.now) }
    {
        let state = self.state.under(alloc, pattern)?;
        Ok(Passes {
            state,
            made: self.made,
            more: self.more,
        })
    }

    /// Makes further passes until they end, or until so many were made in all.
    pub(crate) fn go_on<R: Threads + Wait + Sync, G: Gate + Sync>(
        self,
        rt: &R,
        alloc: Global,
        most: u32,
        gate: &G,
    ) -> Result<Passes<'a>, AllocError>
        ensures { IfOk result (GoesOn most self.entry) }
    {
        let most = most.min(self.state.most());
        let Passes {
            mut state,
            mut made,
            mut more,
        } = self;
        while more && made < most {
            let (next, on) = state.next(rt, alloc, made + 1, gate)?;
            state = next;
            made += 1;
            more = on;
        }
        Ok(Passes { state, made, more })
    }

    /// The most passes of the run.
    pub(crate) fn most(&self) -> u32
        ensures { result ≡ self.now.run.passes }
    {
        self.state.most()
    }

    /// Makes the rest of the passes of the run, and gives the board and their lines.
    pub(crate) fn finish<R: Threads + Wait + Sync, G: Gate + Sync>(
        self,
        rt: &R,
        alloc: Global,
        gate: &G,
    ) -> Result<(Board, List<PassLine>), AllocError>
        ensures few { IfOk result (λ r. length r.1 ≤ 99) }
        ensures passed { IfOk result (λ r. HasPassed self.entry.lattice self.entry.run r.0 r.1) }
        ensures ended { IfOk result (λ r. HaveEnded self.entry.run r.0 r.1) }
        ensures same { IfOk result (λ r. Stays self.entry.board r.0) }
    {
        let most = self.most();
        let passes = self.go_on(rt, alloc, most, gate)?;
        let Passes {
            state,
            made: _,
            more: _,
        } = passes;
        Ok(state.end())
    }

    /// The same passes without the maps that were made for them, which take memory and can be made again.
    pub(crate) fn set_down(self) -> Passes<'a>
        ensures { result ≡ self.entry }
    {
        let Passes {
            mut state,
            made,
            more,
        } = self;
        state.forget_maps();
        Passes { state, made, more }
    }

    /// Their lines.
    pub(crate) fn lines(&self) -> &[PassLine] {
        self.state.lines()
    }
}
