//! Each desk and each sink once, with ample memory, and their faults.
//! The host's files are tried in files of its own, in the folder that the tests run in.

use desk_io::{
    CalmDesk, Desk, DeskFail, HostDesk, HostSink, MemDesk, MemSink, Sink, SinkFail, WatchedOutput,
};
use std::alloc::Global;
use std::fmt::Display;
use std::process::Abort;
use std::rt::Files;
use std::{fs, io};

/// Whether a read gives that text.
fn gives<D: Desk>(desk: &mut D, name: &str, limit: u64, text: &str) -> bool {
    match desk.read(name, limit) {
        Ok(bytes) => bytes.as_slice() == text.as_bytes(),
        Err(_) => false,
    }
}

/// Whether a read gives nothing, for that reason.
fn refuses<D: Desk>(desk: &mut D, name: &str, limit: u64, reason: DeskFail) -> bool {
    match desk.read(name, limit) {
        Ok(_) => false,
        Err(fail) => fail == reason,
    }
}

/// Whether a write succeeds.
fn takes<D: Desk>(desk: &mut D, name: &str, text: &str) -> bool {
    desk.write(name, text.as_bytes()).is_ok()
}

/// Whether the bytes are there, and are that text.
fn is_text(bytes: Option<&[u8]>, text: &str) -> bool {
    match bytes {
        Some(bytes) => bytes == text.as_bytes(),
        None => false,
    }
}

// ---- desks and a sink in memory

/// Whether what is written is kept and read within its limit, and an absent file is a fault.
fn keeps_and_reads(desk: &mut CalmDesk) -> bool {
    takes(desk, "a", "three")
        && is_text(desk.file("a"), "three")
        && gives(desk, "a", 5, "three")
        && refuses(desk, "a", 4, DeskFail::TooLong { seen: 5 })
        && refuses(desk, "c", 9, DeskFail::Failed)
        && desk.faults() == 1
}

#[test]
fn a_calm_desk_reads_what_is_written(rt: HostRuntime) {
    let mut desk = CalmDesk::new(rt.alloc(), Vec::new(rt.alloc())).expect(&rt, "no desk");
    assert!(rt; keeps_and_reads(&mut desk));
}

/// Whether the first call, a write, leaves `left`, and the second, a read, gives that, where neither is the call of
/// this number.
fn fails_once(desk: &mut MemDesk, number: u64, left: &str) -> bool {
    takes(desk, "b", "12345") == (number != 1)
        && is_text(desk.file("b"), left)
        && gives(desk, "b", 5, left) == (number != 2)
}

/// Whether that is so of a desk that holds no file, and which has so many faults then.
fn fails_at<R: Abort>(rt: &R, alloc: Global, number: u64, left: &str, faults: u64) -> bool {
    let fail = vec![in alloc; number].expect(rt, "no list");
    let mut desk = MemDesk::new(alloc, Vec::new(alloc), fail).expect(rt, "no desk");
    fails_once(&mut desk, number, left) && desk.faults() == faults
}

#[test]
fn a_listed_call_of_a_desk_fails_and_no_other(rt: HostRuntime) {
    for &(number, left, faults) in &[(1, "12", 1), (2, "12345", 1), (3, "12345", 0)] {
        assert!(rt;
            fails_at(&rt, rt.alloc(), number, left, faults),
            "at {number}"
        );
    }
}

/// Whether the put succeeds, or fails where it is to fail.
fn puts<S: Sink>(sink: &mut S, text: &str, fails: bool) -> bool {
    match sink.put(text.as_bytes()) {
        Ok(()) => !fails,
        Err(fail) => fails && fail == SinkFail::Failed,
    }
}

fn keeps_a_prefix(sink: &mut MemSink) -> bool {
    puts(sink, "one ", false)
        && puts(sink, "two", true)
        && puts(sink, " three", false)
        && sink.bytes() == "one t three".as_bytes()
        && sink.faults() == 1
}

#[test]
fn a_put_that_fails_leaves_a_prefix(rt: HostRuntime) {
    let fail = vec![in rt.alloc(); 2].expect(&rt, "no list");
    assert!(rt; keeps_a_prefix(&mut MemSink::new(rt.alloc(), fail)));
}

// ---- the host's files and its standard output

const HOST_FILE: &str = "desk_io_test_file";

/// Whether a long text and then a short one are written and read, each within its limit alone.
fn keeps_the_last<D: Desk>(desk: &mut D, long: &str) -> bool {
    takes(desk, HOST_FILE, long)
        && gives(desk, HOST_FILE, 70000, long)
        && refuses(desk, HOST_FILE, 69999, DeskFail::TooLong { seen: 70000 })
        && takes(desk, HOST_FILE, "short")
        && gives(desk, HOST_FILE, 5, "short")
}

/// Whether an absent file and a folder are not read, and an absent folder and a full device are not written.
fn fails_four_times<D: Desk>(desk: &mut D) -> bool {
    refuses(desk, "desk_io_no_file", 5, DeskFail::Failed)
        && refuses(desk, ".", 5, DeskFail::Failed)
        && !takes(desk, "desk_io_no_folder/file", "1")
        && !takes(desk, "/dev/full", "1")
}

fn host_keeps_and_fails<R: Files + AllocGlobal>(rt: &R, long: &str) -> bool {
    let mut desk = HostDesk::new(rt);
    keeps_the_last(&mut desk, long)
        && fs::remove_file(rt, HOST_FILE).is_ok()
        && desk.faults() == 0
        && fails_four_times(&mut desk)
        && desk.faults() == 4
}

#[test]
fn the_host_reads_what_was_written_last_and_fails_where_it_cannot(rt: HostRuntime) {
    // The text is longer than the pieces that a file is read in.
    let text = "seven..".repeat(rt.alloc(), 10000).expect(&rt, "no text");
    assert!(rt; host_keeps_and_fails(&rt, text.as_str()));
}

#[test]
fn the_hosts_sink_puts(rt: HostRuntime) {
    let mut sink = HostSink::new(&rt);
    assert!(rt; puts(&mut sink, "put to standard output\n", false) && sink.faults() == 0);
}

/// A standard output that takes two bytes at a call, and none where `stop` bytes or fewer are given.
struct Halting {
    stop: usize,
}

impl Print for Halting {
    fn print<D: Display + Drop>(&self, _value: D) -> io::Result<()> {
        Err(io::Error::from(io::ErrorKind::Unsupported))
    }

    fn println<D: Display + Drop>(&self, _value: D) -> io::Result<()> {
        Err(io::Error::from(io::ErrorKind::Unsupported))
    }

    fn write_all(&self, _bytes: &[u8]) -> io::Result<()> {
        Err(io::Error::from(io::ErrorKind::Unsupported))
    }

    fn write_some(&self, bytes: &[u8]) -> io::Result<usize> {
        if bytes.len() <= self.stop {
            return Ok(0);
        }
        Ok(bytes.len().min(2))
    }
}

fn puts_through(output: &Halting, fails: bool, faults: u64) -> bool {
    let mut sink = HostSink::new(output);
    puts(&mut sink, "12345", fails) && sink.faults() == faults
}

#[test]
fn a_put_fails_where_standard_output_stops_in_the_middle(rt: HostRuntime) {
    assert!(rt; puts_through(&Halting { stop: 0 }, false, 0));
    assert!(rt; puts_through(&Halting { stop: 2 }, true, 1));
}

/// A standard output that takes nothing, for a reason.
#[derive(Drop)]
struct Failing {
    reason: io::ErrorKind,
}

impl Print for Failing {
    fn print<D: Display + Drop>(&self, _value: D) -> io::Result<()> {
        Err(io::Error::from(self.reason))
    }

    fn println<D: Display + Drop>(&self, _value: D) -> io::Result<()> {
        Err(io::Error::from(self.reason))
    }

    fn write_all(&self, _bytes: &[u8]) -> io::Result<()> {
        Err(io::Error::from(self.reason))
    }

    fn write_some(&self, _bytes: &[u8]) -> io::Result<usize> {
        Err(io::Error::from(self.reason))
    }
}

/// Whether a put fails for that reason, and whether it is then told that nobody reads.
fn tells_of_no_reader(reason: io::ErrorKind, told: bool) -> bool {
    let failing = Failing { reason };
    let output = WatchedOutput::new(&failing);
    let mut sink = HostSink::new(&output);
    !output.has_no_reader() && puts(&mut sink, "12345", true) && output.has_no_reader() == told
}

#[test]
fn an_output_that_nobody_reads_is_told_from_one_that_is_full(rt: HostRuntime) {
    assert!(rt; tells_of_no_reader(io::ErrorKind::BrokenPipe, true));
    assert!(rt; tells_of_no_reader(io::ErrorKind::StorageFull, false));
}
