//! Bytes in memory: a sink whose listed calls fail.
//! The calls are counted from 1.

ghost use Rattle.std.specs.Prelude.{◌≡◌, ◌≤◌, ◌==◌, [], IsTrue, Some, vec_len};
ghost use Rattle.desk_io.specs.Answers.{PutGives};
ghost use Rattle.desk_io.specs.Memory.{is_next_listed, after_call, MemoryPuts};

use crate::count::Count;
use crate::memory::next_is_listed;
use crate::{Sink, SinkFail};
use std::alloc::Global;

/// Bytes in memory. The listed calls fail, and keep the first half of their bytes, rounded down.
/// Each failed call raises the count of faults. The sink is calm where no call is listed.
#[derive(Drop)]
pub struct MemSink {
    bytes: Vec<u8>,
    fail: Vec<u64>,
    calls: Count,
    faults: Count,
}

impl MemSink {
    ghost use Rattle.desk_io.specs.MemSink.{state_of, schedule_of};

    /// An empty sink that fails at the calls with these numbers, counted from 1. It takes no memory.
    pub fn new(alloc: Global, fail: Vec<u64>) -> MemSink
        ensures state { state_of result ≡ record { bytes = Some []; faults = 0; calm = vec_len fail == 0 } }
        ensures schedule { schedule_of result ≡ record { calls = 0; fail = fail.items } }
    {
        MemSink {
            bytes: Vec::new(alloc),
            fail,
            calls: Count::new(),
            faults: Count::new(),
        }
    }

    /// The bytes that were put, in order.
    pub fn bytes(&self) -> &[u8]
        ensures { (state_of self.now).bytes ≡ Some result.now }
    {
        &self.bytes
    }

    /// How many calls failed.
    pub fn faults(&self) -> u64
        ensures { result ≡ (state_of self.now).faults }
    {
        self.faults.get()
    }
}

impl Sink for MemSink {
    ghost use Rattle.desk_io.specs.MemSink.{state_of, schedule_of};

    ghost state = { state_of };

    ghost faults_end = { λ sink. sink.faults.fits };

    fn put(&mut self, bytes: &[u8]) -> Result<(), SinkFail>
        ensures gives { PutGives (state_of self.old) (state_of self.new) bytes.now result }
        ensures faults { (state_of self.old).faults ≤ (state_of self.new).faults }
        ensures calm { IsTrue (state_of self.old).calm → IsTrue (state_of self.new).calm }
        ensures exact { MemoryPuts (is_next_listed (schedule_of self.old)) (state_of self.old) (state_of self.new)
            bytes.now
            result }
        ensures schedule { schedule_of self.new ≡ after_call (schedule_of self.old) }
    {
        let listed = next_is_listed(&mut self.calls, &self.fail);
        let kept = if listed { bytes.len() / 2 } else { bytes.len() };
        self.bytes
            .extend_from_slice(&bytes[..kept])
            .map_err(SinkFail::Memory)?;
        if listed {
            self.faults.raise();
            return Err(SinkFail::Failed);
        }
        Ok(())
    }
}
