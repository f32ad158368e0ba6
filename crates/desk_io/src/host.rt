//! The host's files and its standard output, by loops over read and write.
//! They tell no content, and raise their count of faults at each error of the host.

ghost use Rattle.std.specs.Prelude.{◌≡◌, ◌≤◌, ◌-◌, ◌^◌, None, IfErr, IsTrue, false};
ghost use Rattle.std.proofs.Common.{rules};
ghost use Rattle.desk_io.specs.Count.{count_of};
ghost use Rattle.desk_io.specs.Answers.{ReadGives, WriteGives, PutGives};
ghost use Rattle.desk_io.specs.Host.{ReaderGives, WriterTakes, IsFailedOrMemory, HostReads, HostWrites, HostPuts};

use crate::count::Count;
use crate::replace::{own_name, replace};
use crate::{Desk, DeskFail, Sink, SinkFail};
use std::alloc::{AllocError, Global};
use std::io::{Read, Write};
use std::rt::Files;
use std::{fs, io};

// How many bytes a read of the host is asked for, at most.
const PIECE: usize = 65536;

// Reads to the end, but at most one byte past the limit.
pub(crate) fn read_whole<F: Read>(
    reader: &mut F,
    alloc: Global,
    limit: u64,
) -> Result<Vec<u8>, DeskFail>
    ensures { ReaderGives (F.remaining reader.old) limit result }
{
    let mut bytes = Vec::new(alloc);
    let mut piece = [0u8; PIECE];
    for _ in 0..u64::MAX {
        let room = limit - bytes.len() as u64;
        let wanted = room.saturating_add(1).min(PIECE as u64) as usize;
        let Ok(count) = reader.read(&mut piece[..wanted]) else {
            return Err(DeskFail::Failed);
        };
        if count == 0 {
            return Ok(bytes);
        }
        if count as u64 > room {
            return Err(DeskFail::TooLong { seen: limit + 1 });
        }
        bytes
            .extend_from_slice(&piece[..count])
            .map_err(DeskFail::Memory)?;
    }
    Err(DeskFail::Failed)
}

// Writes all the bytes, and says whether that went well.
pub(crate) fn write_whole<W: Write>(writer: &mut W, bytes: &[u8]) -> bool
    ensures { WriterTakes (W.contents writer.old) (W.contents writer.new) bytes.now result }
{
    let mut taken = 0;
    while taken < bytes.len() {
        let Ok(count) = writer.write(&bytes[taken..]) else {
            return false;
        };
        if count == 0 {
            return false;
        }
        taken += count;
    }
    true
}

// The answer to an error of the host.
fn failed(error: &io::Error) -> DeskFail
    ensures { IsFailedOrMemory result }
{
    if error.kind() == io::ErrorKind::OutOfMemory {
        DeskFail::Memory(AllocError)
    } else {
        DeskFail::Failed
    }
}

// Writes what stands at this name as it is.
fn write_straight<R: Files>(rt: &R, name: &str, bytes: &[u8]) -> io::Result<()> {
    let mut file = fs::create(rt, name)?;
    if write_whole(&mut file, bytes) {
        Ok(())
    } else {
        Err(io::Error::from(io::ErrorKind::Other))
    }
}

// Replaces the regular file of this name, or makes it; what isn't one is written as it is.
fn write_name<R: Files + AllocGlobal>(rt: &R, name: &str, bytes: &[u8]) -> Result<(), DeskFail>
    ensures { IfErr result IsFailedOrMemory }
{
    let written = match own_name(rt, name) {
        Ok(Some(file)) => replace(rt, &file, bytes),
        Ok(None) => write_straight(rt, name, bytes),
        Err(error) => Err(error),
    };
    match written {
        Ok(()) => Ok(()),
        Err(error) => Err(failed(&error)),
    }
}

/// The host's files. A regular file is replaced whole: a write that fails leaves the old one.
#[derive(Drop)]
pub struct HostDesk<'a, R: Files + AllocGlobal> {
    rt: &'a R,
    faults: Count,
}

impl<'a, R: Files + AllocGlobal> HostDesk<'a, R> {
    /// A desk over the runtime's files.
    pub fn new(rt: &'a R) -> Self
        ensures { ⟦<HostDesk<'a, R> as Desk>⟧.state result ≡ record { files = None; faults = 0; calm = false } }
    {
        HostDesk {
            rt,
            faults: Count::new(),
        }
    }

    /// How many calls failed.
    pub fn faults(&self) -> u64
        ensures { result ≡ (⟦<HostDesk<'a, R> as Desk>⟧.state self.now).faults }
    {
        self.faults.get()
    }
}

impl<'a, R: Files + AllocGlobal> Desk for HostDesk<'a, R> {
    ghost state = { λ d. record { files = None; faults = count_of d.faults; calm = false } };

    ghost faults_end = { λ desk. desk.faults.fits };

    ghost calm_tells = { Prim.search rules };

    fn read(&mut self, name: &str, limit: u64) -> Result<Vec<u8>, DeskFail>
        ensures gives { ReadGives (⟦<HostDesk<'a, R> as Desk>⟧.state self.old)
            (⟦<HostDesk<'a, R> as Desk>⟧.state self.new)
            name.now limit result }
        ensures files { (⟦<HostDesk<'a, R> as Desk>⟧.state self.new).files
            ≡ (⟦<HostDesk<'a, R> as Desk>⟧.state self.old).files }
        ensures faults { (⟦<HostDesk<'a, R> as Desk>⟧.state self.old).faults
            ≤ (⟦<HostDesk<'a, R> as Desk>⟧.state self.new).faults }
        ensures calm { IsTrue (⟦<HostDesk<'a, R> as Desk>⟧.state self.old).calm
            → IsTrue (⟦<HostDesk<'a, R> as Desk>⟧.state self.new).calm }
        ensures exact { HostReads (⟦<HostDesk<'a, R> as Desk>⟧.state self.old)
            (⟦<HostDesk<'a, R> as Desk>⟧.state self.new)
            limit result }
    {
        let result = match fs::open(self.rt, name) {
            Ok(mut file) => read_whole(&mut file, self.rt.alloc(), limit),
            Err(_) => Err(DeskFail::Failed),
        };
        if let Err(DeskFail::Failed) = result {
            self.faults.raise();
        }
        result
    }

    fn write(&mut self, name: &str, bytes: &[u8]) -> Result<(), DeskFail>
        ensures gives { WriteGives (⟦<HostDesk<'a, R> as Desk>⟧.state self.old)
            (⟦<HostDesk<'a, R> as Desk>⟧.state self.new)
            name.now bytes.now result }
        ensures faults { (⟦<HostDesk<'a, R> as Desk>⟧.state self.old).faults
            ≤ (⟦<HostDesk<'a, R> as Desk>⟧.state self.new).faults }
        ensures calm { IsTrue (⟦<HostDesk<'a, R> as Desk>⟧.state self.old).calm
            → IsTrue (⟦<HostDesk<'a, R> as Desk>⟧.state self.new).calm }
        ensures exact { HostWrites (⟦<HostDesk<'a, R> as Desk>⟧.state self.old)
            (⟦<HostDesk<'a, R> as Desk>⟧.state self.new)
            result }
    {
        let result = write_name(self.rt, name, bytes);
        if let Err(DeskFail::Failed) = result {
            self.faults.raise();
        }
        result
    }
}

/// The host's standard output.
#[derive(Drop)]
pub struct HostSink<'a, R: Print> {
    rt: &'a R,
    faults: Count,
}

impl<'a, R: Print> HostSink<'a, R> {
    /// A sink over the runtime's standard output.
    pub fn new(rt: &'a R) -> Self
        ensures { ⟦<HostSink<'a, R> as Sink>⟧.state result ≡ record { bytes = None; faults = 0; calm = false } }
    {
        HostSink {
            rt,
            faults: Count::new(),
        }
    }

    /// How many calls failed.
    pub fn faults(&self) -> u64
        ensures { result ≡ (⟦<HostSink<'a, R> as Sink>⟧.state self.now).faults }
    {
        self.faults.get()
    }
}

impl<'a, R: Print> Sink for HostSink<'a, R> {
    ghost state = { λ s. record { bytes = None; faults = count_of s.faults; calm = false } };

    ghost faults_end = { λ sink. sink.faults.fits };

    fn put(&mut self, bytes: &[u8]) -> Result<(), SinkFail>
        ensures gives { PutGives (⟦<HostSink<'a, R> as Sink>⟧.state self.old)
            (⟦<HostSink<'a, R> as Sink>⟧.state self.new)
            bytes.now result }
        ensures faults { (⟦<HostSink<'a, R> as Sink>⟧.state self.old).faults
            ≤ (⟦<HostSink<'a, R> as Sink>⟧.state self.new).faults }
        ensures calm { IsTrue (⟦<HostSink<'a, R> as Sink>⟧.state self.old).calm
            → IsTrue (⟦<HostSink<'a, R> as Sink>⟧.state self.new).calm }
        ensures exact { HostPuts (⟦<HostSink<'a, R> as Sink>⟧.state self.old)
            (⟦<HostSink<'a, R> as Sink>⟧.state self.new)
            result }
    {
        if write_whole(&mut io::writer(self.rt), bytes) {
            return Ok(());
        }
        self.faults.raise();
        Err(SinkFail::Failed)
    }
}
