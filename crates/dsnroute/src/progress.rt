//! A sign of life on standard error: the pass, how many offers are answered, and the seconds since the start.
//! A gate sees no more than that a worker begins an offer or has its answer; it changes no answer.

ghost use Rattle.std.specs.Prelude.{◌≡◌, ◌≤◌, IsTrue};

use board_turn::Gate;
use desk_io::{Sink, SinkFail};
use std::sync::atomic::{AtomicU64, Ordering};
use std::time::{Clock, Instant};

/// How progress is shown.
#[derive(Clone, Copy, PartialEq, Eq)]
pub(crate) enum Manner {
    /// Not at all.
    Quiet,
    /// On one line of a terminal, which is cleared at the end.
    Line,
    /// As lines, for a program that reads them.
    Lines,
}

/// The most workers that are told apart: those of a run.
const MOST_WORKERS: usize = 16;

/// What a run was seen to do, and when the next line of it is due, in ms since the start.
#[derive(Drop)]
pub(crate) struct Progress<'a, R: Eprint + Clock> {
    rt: &'a R,
    manner: Manner,
    start: Instant,
    begun: [AtomicU64; MOST_WORKERS],
    pass: AtomicU64,
    answered: AtomicU64,
    due: AtomicU64,
    shown: AtomicU64,
}

// A counter for each worker.
fn counters() -> [AtomicU64; MOST_WORKERS] {
    [
        AtomicU64::new(0),
        AtomicU64::new(0),
        AtomicU64::new(0),
        AtomicU64::new(0),
        AtomicU64::new(0),
        AtomicU64::new(0),
        AtomicU64::new(0),
        AtomicU64::new(0),
        AtomicU64::new(0),
        AtomicU64::new(0),
        AtomicU64::new(0),
        AtomicU64::new(0),
        AtomicU64::new(0),
        AtomicU64::new(0),
        AtomicU64::new(0),
        AtomicU64::new(0),
    ]
}

impl<'a, R: Eprint + Clock> Progress<'a, R> {
    /// A run that begins now; None where there is no clock.
    pub(crate) fn begin(rt: &'a R, manner: Manner) -> Option<Progress<'a, R>> {
        let start = Instant::now(rt).ok()?;
        Some(Progress {
            rt,
            manner,
            start,
            begun: counters(),
            pass: AtomicU64::new(0),
            answered: AtomicU64::new(0),
            due: AtomicU64::new(0),
            shown: AtomicU64::new(0),
        })
    }

    // A worker counts its offers from 0 in each pass, so there are at least as many passes as it began.
    fn count_pass(&self, worker: u32) {
        let Some(begun) = self.begun.get(worker as usize) else {
            return;
        };
        let count = begun.fetch_add(1, Ordering::SeqCst).saturating_add(1);
        if count > self.pass.load(Ordering::SeqCst) {
            self.pass.store(count, Ordering::SeqCst);
        }
    }

    // The ms between two lines.
    fn pause(&self) -> u64 {
        match self.manner {
            Manner::Lines => 1000,
            _ => 100,
        }
    }

    fn show(&self, seconds: u64, tenths: u64) {
        let pass = self.pass.load(Ordering::SeqCst);
        let answered = self.answered.load(Ordering::SeqCst);
        self.shown.store(1, Ordering::SeqCst);
        let rt = self.rt;
        let _ = match self.manner {
            Manner::Line => {
                eprint!(rt;
                    "\rdsnroute: pass {pass}, {answered} offers answered, {seconds}.{tenths} s\x1b[K"
                )
            }
            _ => eprint!(rt; "dsnroute: pass {pass}, {answered} offers answered, {seconds} s\n"),
        };
    }

    // Shows a line where one is due.
    fn tick(&self) {
        let Ok(since) = self.start.elapsed(self.rt) else {
            return;
        };
        let now = since
            .as_secs()
            .saturating_mul(1000)
            .saturating_add(u64::from(since.subsec_millis()));
        let due = self.due.load(Ordering::SeqCst);
        let next = now.saturating_add(self.pause());
        if now >= due
            && self
                .due
                .compare_exchange(due, next, Ordering::SeqCst, Ordering::SeqCst)
                .is_ok()
        {
            self.show(now / 1000, now / 100 % 10);
        }
    }

    /// Clears the line, where one is shown.
    pub(crate) fn clear(&self) {
        if self.manner == Manner::Line && self.shown.load(Ordering::SeqCst) != 0 {
            self.shown.store(0, Ordering::SeqCst);
            let rt = self.rt;
            let _ = eprint!(rt; "\r\x1b[K");
        }
    }
}

impl<'a, R: Eprint + Clock> Gate for Progress<'a, R> {
    fn before_offer(&self, worker: u32, turn: u32) {
        if turn == 0 {
            self.count_pass(worker);
        }
    }

    fn after_answer(&self, _worker: u32, _turn: u32) {
        self.answered.fetch_add(1, Ordering::SeqCst);
        self.tick();
    }
}

/// A sink that clears the line before each put, so that what is put stands alone in a terminal.
#[derive(Drop)]
pub(crate) struct ClearedSink<'a, S, R: Eprint + Clock> {
    pub(crate) sink: S,
    pub(crate) progress: &'a Progress<'a, R>,
}

impl<'a, S: Sink, R: Eprint + Clock> Sink for ClearedSink<'a, S, R> {
    ghost use Rattle.desk_io.specs.Answers.{PutGives};

    ghost state = { λ k. S.state k.sink };

    ghost faults_end = { λ k. S.faults_end k.sink };

    fn put(&mut self, bytes: &[u8]) -> Result<(), SinkFail>
        ensures gives { PutGives (S.state self.old.sink) (S.state self.new.sink) bytes.now result }
        ensures faults { (S.state self.old.sink).faults ≤ (S.state self.new.sink).faults }
        ensures calm { IsTrue (S.state self.old.sink).calm → IsTrue (S.state self.new.sink).calm }
    {
        self.progress.clear();
        self.sink.put(bytes)
    }
}
