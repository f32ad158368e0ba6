//! Gates that hold workers back. Each reads its flag a bounded number of times, so a test that would hang fails.

use board_turn::Gate;
use std::sync::atomic::{AtomicU64, Ordering};
use std::thread;

// As often a gate reads its flag.
const MOST_READS: u64 = 1 << 31;

/// Holds the worker that comes first, until another has its answer.
#[derive(Drop)]
pub(crate) struct FirstWaits {
    // the number of the held worker and 1, or 0 before one came
    held: AtomicU64,
    answered: AtomicU64,
    gave_up: AtomicU64,
}

impl FirstWaits {
    pub(crate) fn new() -> FirstWaits {
        FirstWaits {
            held: AtomicU64::new(0),
            answered: AtomicU64::new(0),
            gave_up: AtomicU64::new(0),
        }
    }

    /// The worker that was held.
    pub(crate) fn held(&self) -> u64 {
        self.held.load(Ordering::SeqCst).wrapping_sub(1)
    }

    /// Whether it was let go before another had its answer.
    pub(crate) fn gave_up(&self) -> bool {
        self.gave_up.load(Ordering::SeqCst) != 0
    }
}

impl Gate for FirstWaits {
    fn before_offer(&self, worker: u32, _turn: u32) {
        let me = u64::from(worker) + 1;
        if self
            .held
            .compare_exchange(0, me, Ordering::SeqCst, Ordering::SeqCst)
            .is_ok()
        {
            for _ in 0..MOST_READS {
                if self.answered.load(Ordering::SeqCst) != 0 {
                    return;
                }
                thread::yield_now();
            }
            self.gave_up.store(1, Ordering::SeqCst);
        }
    }

    fn after_answer(&self, worker: u32, _turn: u32) {
        let me = u64::from(worker) + 1;
        if self.held.load(Ordering::SeqCst) != me {
            self.answered.store(1, Ordering::SeqCst);
        }
    }
}

/// Holds each worker's first offer, until so many workers have come with theirs.
#[derive(Drop)]
pub(crate) struct AllCome {
    wanted: u64,
    come: AtomicU64,
    gave_up: AtomicU64,
}

impl AllCome {
    pub(crate) fn new(wanted: u64) -> AllCome {
        AllCome {
            wanted,
            come: AtomicU64::new(0),
            gave_up: AtomicU64::new(0),
        }
    }

    /// How many workers have come.
    pub(crate) fn come(&self) -> u64 {
        self.come.load(Ordering::SeqCst)
    }

    /// Whether a worker was let go before all had come.
    pub(crate) fn gave_up(&self) -> bool {
        self.gave_up.load(Ordering::SeqCst) != 0
    }
}

impl Gate for AllCome {
    fn before_offer(&self, _worker: u32, turn: u32) {
        if turn == 0 {
            self.come.fetch_add(1, Ordering::SeqCst);
            for _ in 0..MOST_READS {
                if self.come.load(Ordering::SeqCst) >= self.wanted {
                    return;
                }
                thread::yield_now();
            }
            self.gave_up.store(1, Ordering::SeqCst);
        }
    }

    fn after_answer(&self, _worker: u32, _turn: u32) {}
}
