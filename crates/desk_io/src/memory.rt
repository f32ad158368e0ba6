//! Files in memory: a desk whose listed calls fail.
//! The calls are counted from 1, reads and writes together.

ghost use Rattle.std.specs.Prelude.{◌≡◌, ◌≤◌, IsTrue, IsSomeAnd, IfOk, Some, false, refl};
ghost use Rattle.std.specs.Option.{option_copied};
ghost use Rattle.std.specs.FinMap.{get};
ghost use Rattle.desk_io.specs.States.{next_count};
ghost use Rattle.desk_io.specs.Count.{count_of};
ghost use Rattle.desk_io.specs.Answers.{ReadGives, WriteGives};
ghost use Rattle.desk_io.specs.Memory.{files_of, is_next_listed, after_call, MemoryReads, MemoryWrites};

use crate::count::Count;
use crate::{CalmDesk, Desk, DeskFail};
use std::alloc::{AllocError, Global};

// Counts a call, and says whether its number is listed.
pub(crate) fn next_is_listed(calls: &mut Count, fail: &[u64]) -> bool
    ensures listed { result ≡ is_next_listed (record { calls = count_of calls.old; fail = fail.now }) }
    ensures counted { count_of calls.new ≡ next_count (count_of calls.old) }
{
    calls.raise();
    fail.contains(&calls.get())
}

/// Files in memory. The listed calls fail; a failed write keeps the first half of its bytes, rounded down.
/// A read of an absent file fails too. Each failed call raises the count of faults.
#[derive(Drop)]
pub struct MemDesk {
    desk: CalmDesk,
    fail: Vec<u64>,
    calls: Count,
}

impl MemDesk {
    ghost use Rattle.desk_io.specs.MemDesk.{state_of, schedule_of};

    /// A desk with these files, by name, that fails at the calls with these numbers, counted from 1.
    /// Of pairs with one name the last counts.
    pub fn new(
        alloc: Global,
        files: Vec<(String, Vec<u8>)>,
        fail: Vec<u64>,
    ) -> Result<MemDesk, AllocError>
        ensures state { IfOk result
            (λ desk. state_of desk ≡ record { files = Some (files_of files.items); faults = 0; calm = false }) }
        ensures schedule { IfOk result (λ desk. schedule_of desk ≡ record { calls = 0; fail = fail.items }) }
    {
        let desk = CalmDesk::new(alloc, files)?;
        Ok(MemDesk {
            desk,
            fail,
            calls: Count::new(),
        })
    }

    /// The bytes of the file of that name; None where it is absent.
    pub fn file(&self, name: &str) -> Option<&[u8]>
        ensures { IsSomeAnd (state_of self.now).files (λ m. option_copied result ≡ get m name.now) }
    {
        self.desk.file(name)
    }

    /// How many calls failed.
    pub fn faults(&self) -> u64
        ensures { result ≡ (state_of self.now).faults }
    {
        self.desk.faults()
    }
}

impl Desk for MemDesk {
    ghost use Rattle.desk_io.specs.MemDesk.{state_of, schedule_of};

    ghost state = { state_of };

    ghost faults_end = { λ desk. desk.desk.faults.fits };

    ghost calm_tells = { λ desk calm. refl };

    fn read(&mut self, name: &str, limit: u64) -> Result<Vec<u8>, DeskFail>
        ensures gives { ReadGives (state_of self.old) (state_of self.new) name.now limit result }
        ensures files { (state_of self.new).files ≡ (state_of self.old).files }
        ensures faults { (state_of self.old).faults ≤ (state_of self.new).faults }
        ensures calm { IsTrue (state_of self.old).calm → IsTrue (state_of self.new).calm }
        ensures exact { MemoryReads (is_next_listed (schedule_of self.old)) (state_of self.old) (state_of self.new)
            name.now
            result }
        ensures schedule { schedule_of self.new ≡ after_call (schedule_of self.old) }
    {
        if next_is_listed(&mut self.calls, &self.fail) {
            self.desk.faults.raise();
            return Err(DeskFail::Failed);
        }
        self.desk.read(name, limit)
    }

    fn write(&mut self, name: &str, bytes: &[u8]) -> Result<(), DeskFail>
        ensures gives { WriteGives (state_of self.old) (state_of self.new) name.now bytes.now result }
        ensures faults { (state_of self.old).faults ≤ (state_of self.new).faults }
        ensures calm { IsTrue (state_of self.old).calm → IsTrue (state_of self.new).calm }
        ensures exact { MemoryWrites (is_next_listed (schedule_of self.old)) (state_of self.old) (state_of self.new)
            name.now
            bytes.now result }
        ensures schedule { schedule_of self.new ≡ after_call (schedule_of self.old) }
    {
        if next_is_listed(&mut self.calls, &self.fail) {
            let kept = bytes.len() / 2;
            self.desk.write(name, &bytes[..kept])?;
            self.desk.faults.raise();
            return Err(DeskFail::Failed);
        }
        self.desk.write(name, bytes)
    }
}
