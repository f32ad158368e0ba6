//! A sink that remembers its first line.
//! It forwards each put as it is.

ghost use Rattle.std.specs.Prelude.{◌≡◌, ◌≤◌, length, min, take};

use desk_io::{Sink, SinkFail};

/// The most bytes that are kept.
const MOST_KEPT: usize = 80;

/// A sink that forwards each put to the one within, and keeps the first 80 bytes of the first: a status line is
/// shorter.
#[derive(Drop)]
pub struct KeptLine<S> {
    sink: S,
    bytes: [u8; MOST_KEPT],
    length: usize,
    put: bool,
    ghost within: { length ≤ 80 },
}

// The first 80 bytes, and how many there are.
fn front_of(bytes: &[u8]) -> ([u8; MOST_KEPT], usize)
    ensures count { result.1 ≡ min (length bytes.now) 80 }
    ensures front { take result.1 result.0 ≡ take 80 bytes.now }
{
    let mut front = [0; MOST_KEPT];
    let count = bytes.len().min(MOST_KEPT);
    front[..count].copy_from_slice(&bytes[..count]);
    (front, count)
}

impl<S: Sink> KeptLine<S> {
    ghost use Rattle.std.specs.Prelude.{◌≡◌, [], false};
    ghost use Rattle.fault_notes.specs.Kept.{first_line, was_put, sink_of, KeepsFirst};

    /// Keeps what will be put first into `sink`.
    pub fn new(sink: S) -> KeptLine<S>
        ensures sink { sink_of result ≡ sink }
        ensures line { first_line result ≡ [] }
        ensures put { was_put result ≡ false }
    {
        KeptLine {
            sink,
            bytes: [0; MOST_KEPT],
            length: 0,
            put: false,
        }
    }

    /// The first 80 bytes of the first put, whether or not it failed; none where nothing was put.
    pub fn line(&self) -> &[u8]
        ensures { result.now ≡ first_line self.now }
    {
        &self.bytes[..self.length]
    }

    // Keeps the first 80 bytes, where these are the first.
    fn keep(&mut self, bytes: &[u8])
        ensures keeps { KeepsFirst self.old self.new bytes.now }
        ensures sink { sink_of self.new ≡ sink_of self.old }
    {
        if self.put {
            return;
        }
        let (front, length) = front_of(bytes);
        self.bytes = front;
        self.length = length;
        self.put = true;
    }
}

impl<S: Sink> Sink for KeptLine<S> {
    ghost use Rattle.std.specs.Prelude.{◌≤◌, IsTrue};
    ghost use Rattle.desk_io.specs.Answers.{PutGives};
    ghost use Rattle.fault_notes.specs.Kept.{sink_of, KeepsFirst};

    ghost state = { λ k. S.state (sink_of k) };

    ghost faults_end = { λ k. S.faults_end (sink_of k) };

    fn put(&mut self, bytes: &[u8]) -> Result<(), SinkFail>
        ensures gives { PutGives (S.state (sink_of self.old)) (S.state (sink_of self.new)) bytes.now result }
        ensures faults { (S.state (sink_of self.old)).faults ≤ (S.state (sink_of self.new)).faults }
        ensures calm { IsTrue (S.state (sink_of self.old)).calm → IsTrue (S.state (sink_of self.new)).calm }
        ensures keeps { KeepsFirst self.old self.new bytes.now }
    {
        self.keep(bytes);
        self.sink.put(bytes)
    }
}
