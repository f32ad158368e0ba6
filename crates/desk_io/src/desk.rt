//! What holds named files, and what takes the bytes of a report.
//! Both count their faults; the counts never fall, and stand still at 2^64 - 1.

ghost use Rattle.std.specs.Prelude.{◌≡◌, ◌≤◌, ◌-◌, ◌^◌, ℕ, length, IsTrue, IsSome};
ghost use Rattle.desk_io.specs.States.{DeskState, SinkState};
ghost use Rattle.desk_io.specs.Answers.{ReadGives, WriteGives, PutGives};

use std::alloc::AllocError;
use thiserror::Error;

/// Why a call of a desk gave nothing.
#[derive(Clone, Copy, Debug, PartialEq, Eq, Error)]
pub enum DeskFail {
    /// The file is absent, or it could not be opened, read or written to its end. The desk's count of faults rose.
    #[error("the file is absent, or could not be read or written")]
    Failed,
    /// The file has more bytes than the limit. `seen` is greater than the limit.
    #[error("the file is too long: {seen} bytes seen")]
    TooLong { seen: u64 },
    /// There was no memory for the call.
    #[error("out of memory")]
    Memory(AllocError),
}

/// Why a call of a sink did not put all the bytes.
#[derive(Clone, Copy, Debug, PartialEq, Eq, Error)]
pub enum SinkFail {
    /// Only a prefix of the bytes was put. The sink's count of faults rose.
    #[error("the bytes could not be put")]
    Failed,
    /// There was no memory for the call.
    #[error("out of memory")]
    Memory(AllocError),
}

/// Named files.
pub trait Desk {
    /// The files where the desk tells them, the count of faults, and whether the desk is calm.
    ghost state: { Self → DeskState };

    /// The whole file of that name, of at most `limit` bytes. An absent file is a fault.
    /// The files stay as they were.
    fn read(&mut self, name: &str, limit: u64) -> Result<Vec<u8>, DeskFail>
        ensures gives { ReadGives (state self.old) (state self.new) name.now limit result }
        ensures files { (state self.new).files ≡ (state self.old).files }
        ensures faults { (state self.old).faults ≤ (state self.new).faults }
        ensures calm { IsTrue (state self.old).calm → IsTrue (state self.new).calm };

    /// Makes the bytes the whole file of that name. After `Failed` the file holds a prefix of them;
    /// after `Memory` all files are as they were. Other files always stay.
    fn write(&mut self, name: &str, bytes: &[u8]) -> Result<(), DeskFail>
        ensures gives { WriteGives (state self.old) (state self.new) name.now bytes.now result }
        ensures faults { (state self.old).faults ≤ (state self.new).faults }
        ensures calm { IsTrue (state self.old).calm → IsTrue (state self.new).calm };

    /// The count of faults has an end.
    ghost faults_end: { (desk : Self) → (state desk).faults ≤ 2 ^ 64 - 1 };

    /// A calm desk tells its files.
    ghost calm_tells: { (desk : Self) → IsTrue (state desk).calm → IsSome (state desk).files };
}

/// A place for bytes, one piece after another.
pub trait Sink {
    /// The bytes that were put, in order, where the sink tells them, the count of faults, and whether the sink is calm.
    ghost state: { Self → SinkState };

    /// Appends all the bytes. After `Failed` a prefix of them was appended, after `Memory` nothing.
    fn put(&mut self, bytes: &[u8]) -> Result<(), SinkFail>
        ensures gives { PutGives (state self.old) (state self.new) bytes.now result }
        ensures faults { (state self.old).faults ≤ (state self.new).faults }
        ensures calm { IsTrue (state self.old).calm → IsTrue (state self.new).calm };

    /// The count of faults has an end.
    ghost faults_end: { (sink : Self) → (state sink).faults ≤ 2 ^ 64 - 1 };
}
