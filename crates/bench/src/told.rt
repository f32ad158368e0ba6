//! The time that a round takes, and the line that tells of it.

use std::io;
use std::rt::Runtime;
use std::time::Instant;

/// When a round began; none where the host has no clock.
#[derive(Clone, Copy)]
pub struct Watch {
    begun: Option<Instant>,
}

impl Watch {
    /// A watch that begins now.
    pub fn start<R: Runtime>(rt: &R) -> Watch {
        Watch {
            begun: Instant::now(rt).ok(),
        }
    }

    /// The nanoseconds since it began; 0 where the host has no clock.
    pub fn nanos<R: Runtime>(self, rt: &R) -> u128 {
        match self.begun {
            Some(begun) => match begun.elapsed(rt) {
                Ok(time) => time.as_nanos(),
                Err(_) => 0,
            },
            None => 0,
        }
    }
}

/// What one of so many calls took, where it is told.
pub fn each_of(is_timed: bool, nanos: u128, calls: u64) -> Option<u128> {
    if is_timed {
        Some(nanos / u128::from(calls.max(1)))
    } else {
        None
    }
}

/// Tells how many of `what` there were, and what each call took.
pub fn tell<R: Runtime>(rt: &R, what: &str, count: u64, each: Option<u128>) -> io::Result<()> {
    match each {
        Some(nanos) => println!(rt; "{what}: {count}, {nanos} ns each"),
        None => println!(rt; "{what}: {count}"),
    }
}
