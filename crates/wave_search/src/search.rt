//! Searches for a least walk, and the memory that they share.
//! A search costs what it visits: the memory is made once, and what a search wrote is cleared by the next.

ghost use Rattle.std.specs.Prelude.{◌≡◌, ◌<◌, ◌≤◌, IfOk, All};
ghost use Rattle.route_lattice.specs.Walks.{IsSound, Answers};
ghost use Rattle.wave_search.specs.Bounds.{IsBound};
ghost use Rattle.wave_search.specs.Stated.{AnswersStated};

use crate::bound::{Bound, NoBound};
use crate::labels::Labels;
use crate::marks::Goals;
use crate::query::Query;
use crate::ready::ReadyMoves;
use crate::ties::{NoTies, Ties};
use geo_kernel::List;
use route_lattice::{Found, Moves};
use std::alloc::{AllocError, Global};
use std::marker::Model;

/// Memory for searches over a number of nodes, 16 bytes a node; contracts see it as that number. Beside it stands the
/// pattern by which those who search prefer some of equally cheap walks: it changes no price, and 0 prefers none.
pub struct Search {
    labels: Labels,
    pattern: u32,
}

// Let go by a call, where a derived `Drop` would let go field by field in each function that owns it.
impl Drop for Search {
    fn drop(self) {
        let Search {
            labels: _,
            pattern: _,
        } = self;
    }
}

impl Model for Search {
    ghost use Rattle.std.specs.Prelude.{ℕ, length};

    ghost Value = { ℕ };

    ghost view = { λ s. length s.labels };
}

impl Search {
    /// Memory for searches over `count` nodes.
    pub fn new(alloc: Global, count: u32) -> Result<Search, AllocError>
        ensures { IfOk result (λ s. s ≡ count) }
    {
        let labels = Labels::new(alloc, count)?;
        Ok(Search { labels, pattern: 0 })
    }

    /// The pattern that is kept, 0 where none was.
    pub fn pattern(&self) -> u32 {
        self.pattern
    }

    /// Keeps a pattern. No contract speaks of it.
    pub fn prefer(&mut self, pattern: u32)
        ensures { self.new ≡ self.old }
    {
        self.pattern = pattern;
    }

    /// A walk over open moves from a start to a goal such that none costs less; Closed exactly where there is none,
    /// with all nodes that open moves reach from the starts. A goal that is no node is none. Of several such walks
    /// one is taken
    /// that costs little by the rule of ties.
    pub fn tied_walk<M: Moves, B: Bound, T: Ties>(
        &mut self,
        alloc: Global,
        m: &M,
        b: &B,
        ties: &T,
        starts: &List<u32>,
        goals: &List<u32>,
    ) -> Result<Found, AllocError>
        requires size { self.old ≡ (M.graph m.now).count }
        requires ready { M.ready m.now }
        requires sound { IsSound (M.graph m.now) }
        requires bound { IsBound (M.graph m.now) goals.now (B.low_of b.now) }
        requires starts { All (λ s. s < (M.graph m.now).count) starts.now }
        ensures answers { IfOk result (Answers (M.graph m.now) starts.now goals.now) }
        ensures size { self.new ≡ self.old }
    {
        self.labels.clear();
        let sought = Goals::of(alloc, goals)?;
        let ready = ReadyMoves { moves: m };
        let query = Query {
            m: &ready,
            b,
            ties,
            starts,
            goals: &sought,
        };
        query.run(alloc, &mut self.labels)
    }

    /// Of these walks the stated one: of the least walks the one of the fewest moves, of these the one whose nodes are
    /// the least, and of these the one whose indices of moves are.
    pub fn stated_walk<M: Moves, B: Bound>(
        &mut self,
        alloc: Global,
        m: &M,
        b: &B,
        starts: &List<u32>,
        goals: &List<u32>,
    ) -> Result<Found, AllocError>
        requires size { self.old ≡ (M.graph m.now).count }
        requires ready { M.ready m.now }
        requires sound { IsSound (M.graph m.now) }
        requires bound { IsBound (M.graph m.now) goals.now (B.low_of b.now) }
        requires starts { All (λ s. s < (M.graph m.now).count) starts.now }
        ensures answers { IfOk result (AnswersStated (M.graph m.now) starts.now goals.now) }
        ensures size { self.new ≡ self.old }
    {
        self.labels.clear();
        let sought = Goals::of(alloc, goals)?;
        let ready = ReadyMoves { moves: m };
        let query = Query {
            m: &ready,
            b,
            ties: &NoTies,
            starts,
            goals: &sought,
        };
        query.run_stated(alloc, &mut self.labels)
    }

    /// The same without a rule of ties.
    pub fn guided_walk<M: Moves, B: Bound>(
        &mut self,
        alloc: Global,
        m: &M,
        b: &B,
        starts: &List<u32>,
        goals: &List<u32>,
    ) -> Result<Found, AllocError>
        requires size { self.old ≡ (M.graph m.now).count }
        requires ready { M.ready m.now }
        requires sound { IsSound (M.graph m.now) }
        requires bound { IsBound (M.graph m.now) goals.now (B.low_of b.now) }
        requires starts { All (λ s. s < (M.graph m.now).count) starts.now }
        ensures answers { IfOk result (Answers (M.graph m.now) starts.now goals.now) }
        ensures size { self.new ≡ self.old }
    {
        self.tied_walk(alloc, m, b, &NoTies, starts, goals)
    }

    /// The same without a bound either.
    pub fn least_walk<M: Moves>(
        &mut self,
        alloc: Global,
        m: &M,
        starts: &List<u32>,
        goals: &List<u32>,
    ) -> Result<Found, AllocError>
        requires size { self.old ≡ (M.graph m.now).count }
        requires ready { M.ready m.now }
        requires sound { IsSound (M.graph m.now) }
        requires starts { All (λ s. s < (M.graph m.now).count) starts.now }
        ensures answers { IfOk result (Answers (M.graph m.now) starts.now goals.now) }
        ensures size { self.new ≡ self.old }
    {
        self.guided_walk(alloc, m, &NoBound, starts, goals)
    }
}

/// `Search::guided_walk` over memory of its own.
pub fn guided_walk<M: Moves, B: Bound>(
    alloc: Global,
    m: &M,
    b: &B,
    starts: &List<u32>,
    goals: &List<u32>,
) -> Result<Found, AllocError>
    requires ready { M.ready m.now }
    requires sound { IsSound (M.graph m.now) }
    requires bound { IsBound (M.graph m.now) goals.now (B.low_of b.now) }
    requires starts { All (λ s. s < (M.graph m.now).count) starts.now }
    ensures { IfOk result (Answers (M.graph m.now) starts.now goals.now) }
{
    let mut search = Search::new(alloc, m.count())?;
    search.guided_walk(alloc, m, b, starts, goals)
}

/// `Search::least_walk` over memory of its own.
pub fn least_walk<M: Moves>(
    alloc: Global,
    m: &M,
    starts: &List<u32>,
    goals: &List<u32>,
) -> Result<Found, AllocError>
    requires ready { M.ready m.now }
    requires sound { IsSound (M.graph m.now) }
    requires starts { All (λ s. s < (M.graph m.now).count) starts.now }
    ensures { IfOk result (Answers (M.graph m.now) starts.now goals.now) }
{
    guided_walk(alloc, m, &NoBound, starts, goals)
}

/// `Search::stated_walk` over memory of its own, without a bound.
pub fn stated_walk<M: Moves>(
    alloc: Global,
    m: &M,
    starts: &List<u32>,
    goals: &List<u32>,
) -> Result<Found, AllocError>
    requires ready { M.ready m.now }
    requires sound { IsSound (M.graph m.now) }
    requires starts { All (λ s. s < (M.graph m.now).count) starts.now }
    ensures { IfOk result (AnswersStated (M.graph m.now) starts.now goals.now) }
{
    let mut search = Search::new(alloc, m.count())?;
    search.stated_walk(alloc, m, &NoBound, starts, goals)
}
