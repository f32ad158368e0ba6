//! Where passes stand, and the next of them, which works off the nets that have several islands when it starts.
//! What stays from pass to pass stands here: what is open, the maps of the board, and those of the design's fixed
//! copper, which are made before the first pass that has a penalty.

ghost use Rattle.std.specs.Prelude.{◌≡◌, ◌<◌, ◌≤◌, ◌^◌, IfOk, IfSome, IsTrue, not};
ghost use Rattle.searcher_pool.specs.Inputs.{pass_of};
ghost use Rattle.route_run.specs.Runs.{penalty_of as penalty_at};
ghost use Rattle.route_run.specs.Inputs.{CanRun};
ghost use Rattle.route_run.specs.inner.Passing.{untasked, AreOpenOn, AreWorkedOff, CanWorkOff, EndsBy, IsMade};
ghost use Rattle.route_run.specs.inner.States.{first_state, IsMadeBy, IsOneMore};

use crate::connections::{OpenNets, look_over};
use crate::facts::PassLine;
use crate::input::RunInput;
use board_turn::Gate;
use geo_kernel::List;
use pcb_board::Board;
use route_plan::{fixed_maps, map_board};
use searcher_pool::{
    PassInput, PassMaps, full_passes_are_spent, is_full, passes_are_least, run_pass_from,
};
use std::alloc::{AllocError, Global};
use std::marker::Model;
use std::sync::Wait;
use std::thread::Threads;

/// The penalty of a pass is so much times its number, in nm; the first one has none.
const PASS_PENALTY: u64 = 5_000_000;

/// What a pass leaves: the board, the pass's line, what is open then, and whether the board was full for an offer.
#[derive(Drop)]
pub(crate) struct PassResult {
    pub board: Board,
    pub line: PassLine,
    pub open_nets: OpenNets,
    pub full: bool,
}

/// Where passes stand: the board, what is open on it, the lines of the passes, and the maps that were made so far; and
/// the pattern by which its searches prefer some of equally cheap walks.
/// Contracts see the lattice, the run, the board and the lines.
#[derive(Drop)]
pub(crate) struct PassState<'a> {
    input: RunInput<'a>,
    pattern: u32,
    board: Board,
    open_nets: OpenNets,
    lines: List<PassLine>,
    maps: PassMaps,
}

impl<'a> Model for PassState<'a> {
    ghost use Rattle.route_run.specs.Inputs.{run_of};
    ghost use Rattle.route_run.specs.inner.States.{PassStateOf, IsState};

    ghost Value = { PassStateOf };

    ghost view = { λ s. record {
      lattice = s.input.lat.now;
      run = run_of s.input;
      board = s.board;
      lines = s.lines;
    } };

    ghost invariant = { λ s. IsState s.input s.board s.open_nets s.maps };
}

// The penalty of a pass.
fn penalty_of(pass: u32) -> Option<u64>
    requires { pass ≤ 99 }
    ensures penalty { result ≡ penalty_at pass }
    ensures small { IfSome result (λ p. p ≤ 2 ^ 30) }
{
    if pass <= 1 {
        None
    } else {
        Some(PASS_PENALTY * u64::from(pass))
    }
}

// No maps yet.
fn no_maps() -> PassMaps
    ensures mapped { result.mapped ≡ None }
    ensures fixed { result.fixed ≡ None }
{
    PassMaps {
        mapped: None,
        fixed: None,
    }
}

// Works off the open nets, and tells whether the board was full for an offer.
fn work_off<R: Threads + Wait + Sync, G: Gate + Sync>(
    rt: &R,
    alloc: Global,
    board: Board,
    input: PassInput<'_>,
    gate: &G,
) -> Result<(Board, bool), AllocError>
    requires tasks { CanWorkOff input board }
    ensures { IfOk result (λ r. AreWorkedOff (untasked (pass_of input.entry)) board r.0 r.1) }
{
    passes_are_least();
    full_passes_are_spent();
    board.keeps();
    match run_pass_from(rt, alloc, board, input, gate) {
        Ok((board, logs)) => {
            board.keeps();
            let full = is_full(logs.as_slice());
            drop(logs);
            Ok((board, full))
        }
        Err(back) => {
            let cause = back.cause;
            drop(back);
            Err(cause)
        }
    }
}

// Makes a pass over the open nets.
fn one_pass<R: Threads + Wait + Sync, G: Gate + Sync>(
    rt: &R,
    alloc: Global,
    board: Board,
    input: PassInput<'_>,
    gate: &G,
) -> Result<PassResult, AllocError>
    requires tasks { CanWorkOff input board }
    ensures made { IfOk result (λ made. IsMade (untasked (pass_of input.entry)) board made.board made.line made.full) }
    ensures open_nets { IfOk result (λ made. AreOpenOn made.board made.open_nets) }
{
    let before = board.history().len() as u64;
    let (board, full) = work_off(rt, alloc, board, input, gate)?;
    let open_nets = look_over(alloc, &board)?;
    let line = PassLine {
        commits: board.history().len() as u64 - before,
        parted: open_nets.count,
    };
    Ok(PassResult {
        board,
        line,
        open_nets,
        full,
    })
}

// Whether a pass may follow the one of this number.
fn may_follow(number: u32, line: PassLine, full: bool) -> bool
    ensures more { IsTrue result → (0 < line.parted) × (1 < number → 0 < line.commits) × IsTrue (not full) }
    ensures ended { IsTrue (not result) → EndsBy number line full }
{
    0 < line.parted && (number <= 1 || 0 < line.commits) && !full
}

impl<'a> PassState<'a> {
    /// Where passes of a pattern stand before the first.
    pub(crate) fn start(
        alloc: Global,
        input: RunInput<'a>,
        board: Board,
        pattern: u32,
    ) -> Result<PassState<'a>, AllocError>
        requires { CanRun input board.design }
        ensures { IfOk result (λ s. s ≡ first_state input.entry board) }
    {
        let open_nets = look_over(alloc, &board)?;
        Ok(PassState {
            input,
            pattern,
            board,
            open_nets,
            lines: List::new(alloc),
            maps: no_maps(),
        })
    }

    /// The same once more, under another pattern from here on and without maps.
    pub(crate) fn under(&self, alloc: Global, pattern: u32) -> Result<PassState<'a>, AllocError>
        ensures { IfOk result (λ s. s ≡ self.now) }
    {
        let open_nets = self.open_nets.copy(alloc)?;
        let lines = List::from_slice(alloc, self.lines.as_slice())?;
        let board = self.board.copy()?;
        Ok(PassState {
            input: self.input,
            pattern,
            board,
            open_nets,
            lines,
            maps: no_maps(),
        })
    }

    /// The most passes of the run.
    pub(crate) fn most(&self) -> u32
        ensures most { result ≡ self.now.run.passes }
        ensures few { (1 ≤ result) × (result ≤ 99) }
    {
        self.input.passes
    }

    /// The lines of the passes that were made.
    pub(crate) fn lines(&self) -> &[PassLine] {
        self.lines.as_slice()
    }

    /// Lets go of the maps that were made so far.
    pub(crate) fn forget_maps(&mut self)
        ensures { self.new ≡ self.old }
    {
        self.maps = no_maps();
    }

    // Maps the board as it is, by what was mapped before; where no net is open there is nothing to be mapped for.
    fn map_now(&mut self, alloc: Global) -> Result<(), AllocError>
        ensures { self.new ≡ self.old }
    {
        let last = self.maps.mapped.take();
        if !self.open_nets.nets.is_empty() {
            self.maps.mapped = Some(map_board(alloc, self.input.lat, last, &self.board)?);
        }
        Ok(())
    }

    // Maps the design's fixed copper where there is a penalty, unless that was done.
    fn map_fixed(&mut self, alloc: Global, penalty: Option<u64>) -> Result<(), AllocError>
        ensures { self.new ≡ self.old }
    {
        self.board.keeps();
        if penalty.is_some() && self.maps.fixed.is_none() {
            self.maps.fixed = Some(fixed_maps(alloc, self.input.lat, self.board.design())?);
        }
        Ok(())
    }

    // Makes a pass, and tells its line and whether the board was full for an offer.
    fn make_pass<R: Threads + Wait + Sync, G: Gate + Sync>(
        self,
        rt: &R,
        alloc: Global,
        penalty: Option<u64>,
        gate: &G,
    ) -> Result<(PassState<'a>, PassLine, bool), AllocError>
        requires { IfSome penalty (λ p. p ≤ 2 ^ 30) }
        ensures { IfOk result (λ r. IsMadeBy penalty self.entry r.0 r.1 r.2) }
    {
        let PassState {
            input,
            pattern,
            board,
            open_nets,
            lines,
            maps,
        } = self;
        board.keeps();
        let pass = PassInput {
            lat: input.lat,
            via_cost: input.via_cost,
            workers: input.workers,
            tasks: open_nets.nets.as_slice(),
            penalty,
            pattern,
            maps: &maps,
        };
        let passed = one_pass(rt, alloc, board, pass, gate);
        drop(open_nets);
        match passed {
            Ok(made) => {
                let PassResult {
                    board,
                    line,
                    open_nets,
                    full,
                } = made;
                let state = PassState {
                    input,
                    pattern,
                    board,
                    open_nets,
                    lines,
                    maps,
                };
                Ok((state, line, full))
            }
            Err(error) => {
                drop((lines, maps));
                Err(error)
            }
        }
    }

    /// Makes the pass of a number, puts its line behind the others, and tells whether a further one may follow.
    pub(crate) fn next<R: Threads + Wait + Sync, G: Gate + Sync>(
        self,
        rt: &R,
        alloc: Global,
        number: u32,
        gate: &G,
    ) -> Result<(PassState<'a>, bool), AllocError>
        requires { number ≤ 99 }
        ensures { IfOk result (λ r. IsOneMore number self.entry r.0 r.1) }
    {
        let penalty = penalty_of(number);
        let mut state = self;
        state.map_now(alloc)?;
        state.map_fixed(alloc, penalty)?;
        let (mut next, line, full) = state.make_pass(rt, alloc, penalty, gate)?;
        next.lines.push(line)?;
        Ok((next, may_follow(number, line, full)))
    }

    /// The board, and the lines of the passes that were made over it.
    pub(crate) fn end(self) -> (Board, List<PassLine>)
        ensures { (result.0 ≡ self.entry.board) × (result.1 ≡ self.entry.lines) }
    {
        let PassState {
            input: _,
            pattern: _,
            board,
            open_nets: _,
            lines,
            maps: _,
        } = self;
        (board, lines)
    }
}
