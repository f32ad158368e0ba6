//! Files in memory: a desk that is calm.
//! The files are a list of pairs to which each write adds one; of pairs with one name the last counts.

ghost use Rattle.std.specs.Prelude.{◌≡◌, ◌≤◌, IsTrue, IsSomeAnd, IfOk, OnOk, OnErr, Some, true, false, refl};
ghost use Rattle.std.specs.Option.{option_copied};
ghost use Rattle.std.specs.FinMap.{get, insert};
ghost use Rattle.desk_io.specs.Answers.{ReadGives, WriteGives};
ghost use Rattle.desk_io.specs.Memory.{files_of, MemoryReads, MemoryWrites};

use crate::count::Count;
use crate::{Desk, DeskFail};
use std::alloc::{AllocError, Global};

// The bytes of the last pair of that name.
fn content<'a>(files: &'a [(String, Vec<u8>)], name: &str) -> Option<&'a [u8]>
    ensures { option_copied result ≡ get (files_of files.now) name.now }
{
    let mut found: Option<&[u8]> = None;
    for pair in files {
        if pair.0.as_str() == name {
            found = Some(&pair.1);
        }
    }
    found
}

// Adds a pair, which counts from now on.
fn add_file(
    alloc: Global,
    files: &mut Vec<(String, Vec<u8>)>,
    name: &str,
    bytes: &[u8],
) -> Result<(), AllocError>
    ensures ok { OnOk result (files_of files.new.items ≡ insert (files_of files.old.items) name.now bytes.now) }
    ensures err { OnErr result (files.new.items ≡ files.old.items) }
{
    let name = String::from_str(alloc, name)?;
    let bytes = bytes.to_vec(alloc)?;
    files.push((name, bytes))?;
    Ok(())
}

/// Files in memory. No call fails but a read of an absent file, which raises the count of faults.
#[derive(Drop)]
pub struct CalmDesk {
    alloc: Global,
    files: Vec<(String, Vec<u8>)>,
    pub(crate) faults: Count,
}

impl CalmDesk {
    ghost use Rattle.desk_io.specs.CalmDesk.{state_of};

    /// A desk with these files, by name. Of pairs with one name the last counts.
    pub fn new(alloc: Global, files: Vec<(String, Vec<u8>)>) -> Result<CalmDesk, AllocError>
        ensures { IfOk result
            (λ desk. state_of desk ≡ record { files = Some (files_of files.items); faults = 0; calm = true }) }
    {
        Ok(CalmDesk {
            alloc,
            files,
            faults: Count::new(),
        })
    }

    /// The bytes of the file of that name; None where it is absent.
    pub fn file(&self, name: &str) -> Option<&[u8]>
        ensures { IsSomeAnd (state_of self.now).files (λ m. option_copied result ≡ get m name.now) }
    {
        content(&self.files, name)
    }

    /// How many calls failed.
    pub fn faults(&self) -> u64
        ensures { result ≡ (state_of self.now).faults }
    {
        self.faults.get()
    }
}

impl Desk for CalmDesk {
    ghost use Rattle.desk_io.specs.CalmDesk.{state_of};

    ghost state = { state_of };

    ghost faults_end = { λ desk. desk.faults.fits };

    ghost calm_tells = { λ desk calm. refl };

    fn read(&mut self, name: &str, limit: u64) -> Result<Vec<u8>, DeskFail>
        ensures gives { ReadGives (state_of self.old) (state_of self.new) name.now limit result }
        ensures files { (state_of self.new).files ≡ (state_of self.old).files }
        ensures faults { (state_of self.old).faults ≤ (state_of self.new).faults }
        ensures calm { IsTrue (state_of self.old).calm → IsTrue (state_of self.new).calm }
        ensures exact { MemoryReads false (state_of self.old) (state_of self.new) name.now result }
    {
        let Some(bytes) = content(&self.files, name) else {
            self.faults.raise();
            return Err(DeskFail::Failed);
        };
        if bytes.len() as u64 > limit {
            return Err(DeskFail::TooLong {
                seen: bytes.len() as u64,
            });
        }
        bytes.to_vec(self.alloc).map_err(DeskFail::Memory)
    }

    fn write(&mut self, name: &str, bytes: &[u8]) -> Result<(), DeskFail>
        ensures gives { WriteGives (state_of self.old) (state_of self.new) name.now bytes.now result }
        ensures faults { (state_of self.old).faults ≤ (state_of self.new).faults }
        ensures calm { IsTrue (state_of self.old).calm → IsTrue (state_of self.new).calm }
        ensures exact { MemoryWrites false (state_of self.old) (state_of self.new) name.now bytes.now result }
    {
        add_file(self.alloc, &mut self.files, name, bytes).map_err(DeskFail::Memory)
    }
}
