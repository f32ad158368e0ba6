//! A worker: it plans on a snapshot of the board, offers in its turn, and notes the answer.
//! What it shares with the others is lent to it by the pool.

ghost use Rattle.std.specs.Prelude.{◌≡◌, ◌≤◌, IfOk, IfSome, OnOk};
ghost use Rattle.route_plan.specs.Mapped.{IsMappedOn};
ghost use Rattle.board_turn.specs.Turns.{opening};
ghost use Rattle.searcher_pool.specs.inner.Working.{IsReady, IsAtTask, IsSnapNow, IsPlanned, PlansSeen, IsAfter};
ghost use Rattle.searcher_pool.specs.inner.Working.{IsQuietAfter, Attempts, attempt_of as attempt_told};
ghost use Rattle.searcher_pool.specs.inner.Working.{EndsSeen, EndsDrawn, IsSeated, MayWork, Worked};

use crate::log::OfferNote;
use crate::pool::Pool;
use board_turn::{Claimer, Gate, Pass, events_keep};
use least_offer::late_offers_are_fair;
use pcb_board::{Answer, Offer, Snap, boards_serve, copy_offer, ids_stay};
use route_plan::{MappedSnap, Planned, Planner, map_snap};
use std::alloc::{AllocError, Global};
use std::sync::Wait;
use wave_search::Search;

/// As many offers of a task may come too late before it is left.
const MOST_LATE: u32 = 8;

/// A worker: its number, its pass of the turn and its seat at the counter of tasks, the places that it drew, what it
/// offered, and how often, the memory of its searches, the snapshot that it mapped last, and whether memory was
/// wanting.
#[derive(Drop)]
pub(crate) struct Worker {
    pub number: u32,
    pub pass: Pass,
    pub seat: Claimer,
    pub drawn: Vec<u32>,
    pub notes: Vec<OfferNote>,
    pub turns: u32,
    pub search: Search,
    pub mapped: Option<MappedSnap>,
    pub failed: bool,
}

/// What became of a plan: its task ended, or its offer was committed, or came too late.
#[derive(Clone, Copy)]
pub(crate) enum Attempt {
    Ended,
    Joined,
    Late,
}

// What an answer means for the task.
fn attempt_of(answer: Answer) -> Attempt
    ensures { result ≡ attempt_told answer }
{
    match answer {
        Answer::Committed { number: _ } => Attempt::Joined,
        Answer::Stale { item: _, commit: _ } => Attempt::Late,
        _ => Attempt::Ended,
    }
}

impl<'a, G: Gate> Pool<'a, G> {
    // A snapshot of the board as it is.
    fn take_snap<R: Wait>(&self, rt: &R, worker: &mut Worker) -> Result<Snap, AllocError>
        requires { IsReady self.now.pass self.now.turn worker.old }
        ensures ready { IsReady self.now.pass self.now.turn worker.new }
        ensures after { IsQuietAfter worker.old worker.new }
        ensures snap { IfOk result (IsSnapNow self.now.turn worker.new.pass.seen) }
    {
        events_keep();
        self.keeps();
        self.turn.snap(rt, &mut worker.pass)
    }

    // Plans for a net on a snapshot, by the maps of its moves, and keeps both for the next plan.
    fn plan_on(
        &self,
        alloc: Global,
        worker: &mut Worker,
        snap: Snap,
        net: u32,
    ) -> Result<Planned, AllocError>
        requires at_task { IsAtTask self.now.pass self.now.turn worker.old net }
        requires snap { IsSnapNow self.now.turn worker.old.pass.seen snap }
        ensures ready { IsReady self.now.pass self.now.turn worker.new }
        ensures after { IsQuietAfter worker.old worker.new }
        ensures plan { IfOk result (PlansSeen self.now.pass self.now.turn worker.new net) }
    {
        events_keep();
        boards_serve();
        ids_stay();
        self.keeps();
        let mapped = map_snap(alloc, self.input.lat, worker.mapped.take(), snap)?;
        let planner = Planner::by_maps(
            self.input.lat,
            &mapped,
            self.input.maps.fixed.as_ref(),
            self.input.via_cost,
            worker.number,
        );
        let planned = planner.plan(alloc, &mut worker.search, net, self.input.penalty);
        drop(planner);
        worker.mapped = Some(mapped);
        planned
    }

    // Offers, and notes the answer.
    fn make_offer<R: Wait>(
        &self,
        rt: &R,
        alloc: Global,
        worker: &mut Worker,
        net: u32,
        offer: Offer,
    ) -> Result<Attempt, AllocError>
        requires at_task { IsAtTask self.now.pass self.now.turn worker.old net }
        requires plan { IsPlanned self.now.pass self.now.turn worker.old net offer }
        ensures ready { IsReady self.now.pass self.now.turn worker.new }
        ensures after { IsAfter worker.old worker.new }
        ensures attempt { IfOk result (Attempts self.now.pass self.now.turn worker.old worker.new net) }
    {
        events_keep();
        late_offers_are_fair();
        self.keeps();
        worker.notes.reserve(1)?;
        let copy = match copy_offer(alloc, &offer) {
            Ok(copy) => copy,
            Err(error) => {
                drop(offer);
                return Err(error);
            }
        };
        self.gate.before_offer(worker.number, worker.turns);
        match self.turn.offer(rt, &mut worker.pass, offer) {
            Ok(answer) => {
                worker.notes.push_reserved(OfferNote {
                    offer: copy,
                    answer,
                });
                self.gate.after_answer(worker.number, worker.turns);
                worker.turns = worker.turns.wrapping_add(1);
                Ok(attempt_of(answer))
            }
            Err(back) => {
                let cause = back.cause;
                drop((copy, back));
                Err(cause)
            }
        }
    }

    // Plans for a net on the board as it is, and offers.
    fn plan_and_offer<R: Wait>(
        &self,
        rt: &R,
        alloc: Global,
        worker: &mut Worker,
        net: u32,
    ) -> Result<Attempt, AllocError>
        requires { IsAtTask self.now.pass self.now.turn worker.old net }
        ensures ready { IsReady self.now.pass self.now.turn worker.new }
        ensures after { IsAfter worker.old worker.new }
        ensures attempt { IfOk result (Attempts self.now.pass self.now.turn worker.old worker.new net) }
    {
        events_keep();
        self.keeps();
        let snap = self.take_snap(rt, worker)?;
        let planned = self.plan_on(alloc, worker, snap, net)?;
        match planned {
            Planned::Offer(offer) => self.make_offer(rt, alloc, worker, net, offer),
            Planned::Shut(_) => Ok(Attempt::Ended),
            Planned::Whole => Ok(Attempt::Ended),
        }
    }

    // Plans and offers for a net until it is whole or shut, the board is full, or eight offers came too late.
    // Each join leaves fewer entries that may come, so there is an end.
    fn work_off<R: Wait>(
        &self,
        rt: &R,
        alloc: Global,
        worker: &mut Worker,
        net: u32,
    ) -> Result<(), AllocError>
        requires { IsAtTask self.now.pass self.now.turn worker.old net }
        ensures ready { IsReady self.now.pass self.now.turn worker.new }
        ensures after { IsAfter worker.old worker.new }
        ensures ended { OnOk result (EndsSeen self.now.pass self.now.turn worker.new.pass worker.new.notes.items net) }
    {
        let mut late = 0;
        while late < MOST_LATE {
            match self.plan_and_offer(rt, alloc, worker, net)? {
                Attempt::Ended => return Ok(()),
                Attempt::Joined => {}
                Attempt::Late => late += 1,
            }
        }
        Ok(())
    }

    // What a worker begins with: a copy of what was mapped before the pass.
    fn first_mapped(&self, alloc: Global) -> Result<Option<MappedSnap>, AllocError>
        ensures { IfOk result (λ o. IfSome o (IsMappedOn self.now.pass.lattice (opening self.now.turn))) }
    {
        match &self.input.maps.mapped {
            Some(mapped) => Ok(Some(mapped.copy(alloc)?)),
            None => Ok(None),
        }
    }

    // Draws tasks and works them off, until none is left.
    fn draw_all<R: Wait>(
        &self,
        rt: &R,
        alloc: Global,
        worker: &mut Worker,
    ) -> Result<(), AllocError>
        requires { MayWork self.now.pass self.now.turn self.now.counter worker.old }
        ensures ready { IsReady self.now.pass self.now.turn worker.new }
        ensures seated { IsSeated self.now.counter worker.new }
        ensures name { worker.new.pass.name ≡ worker.old.pass.name }
        ensures done { OnOk result ((self.now.counter.tasks ≤ worker.new.seat.hand.floor)
            × EndsDrawn self.now.pass self.now.turn worker.new.pass worker.new.drawn.items worker.new.notes.items) }
    {
        self.keeps();
        for _ in rt.forever() {
            worker.drawn.reserve(1)?;
            let Some(place) = self.counter.claim(rt, &mut worker.seat) else {
                return Ok(());
            };
            worker.drawn.push_reserved(place as u32);
            let net = self.input.tasks[place as usize];
            self.work_off(rt, alloc, worker, net)?;
        }
        unreachable!()
    }

    // Begins with what was mapped before the pass, and draws until no task is left.
    fn draw_from<R: Wait>(
        &self,
        rt: &R,
        alloc: Global,
        worker: &mut Worker,
    ) -> Result<(), AllocError>
        requires { MayWork self.now.pass self.now.turn self.now.counter worker.old }
        ensures ready { IsReady self.now.pass self.now.turn worker.new }
        ensures seated { IsSeated self.now.counter worker.new }
        ensures name { worker.new.pass.name ≡ worker.old.pass.name }
        ensures done { OnOk result ((self.now.counter.tasks ≤ worker.new.seat.hand.floor)
            × EndsDrawn self.now.pass self.now.turn worker.new.pass worker.new.drawn.items worker.new.notes.items) }
    {
        worker.mapped = self.first_mapped(alloc)?;
        self.draw_all(rt, alloc, worker)
    }

    /// The work of one worker in a pass.
    pub(crate) fn work<R: Wait>(&self, rt: &R, alloc: Global, worker: &mut Worker)
        requires { MayWork self.now.pass self.now.turn self.now.counter worker.old }
        ensures { Worked self.now.pass self.now.turn self.now.counter worker.old.pass.name worker.new }
    {
        let drew = self.draw_from(rt, alloc, worker);
        worker.failed = drew.is_err();
    }
}
