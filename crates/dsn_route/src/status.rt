//! How a call ended.
//! Each status has an exit code of its own.

ghost use Rattle.std.specs.Prelude.{◌≡◌};
ghost use Rattle.dsn_route.specs.Status.{ended_of};

use desk_io::SinkFail;

/// How a call ended: every net is complete, or the session and its report are as they should be; some net is open; the
/// words are refused; the design is refused; a file couldn't be read; the session or the report couldn't be written; a
/// limit is passed; memory is wanting; the session or its report isn't as it should be.
#[derive(Clone, Copy, PartialEq, Eq)]
pub enum Status {
    Complete,
    SomeOpen,
    Usage,
    Refused,
    ReadFault,
    WriteFault,
    Limit,
    Memory,
    Rejected,
}

impl Status {
    ghost use Rattle.std.specs.Prelude.{◌≡◌};
    ghost use Rattle.dsn_route.specs.Status.{code_of};

    /// The exit code, 0 to 8.
    pub fn code(&self) -> u8
        ensures { result ≡ code_of self.now }
    {
        match self {
            Status::Complete => 0,
            Status::SomeOpen => 1,
            Status::Usage => 2,
            Status::Refused => 3,
            Status::ReadFault => 4,
            Status::WriteFault => 5,
            Status::Limit => 6,
            Status::Memory => 7,
            Status::Rejected => 8,
        }
    }
}

/// How a call ends after its last put, where `status` is due.
pub fn ended(put: Result<(), SinkFail>, status: Status) -> Status
    ensures { result ≡ ended_of put status }
{
    match put {
        Ok(()) => status,
        Err(SinkFail::Failed) => Status::WriteFault,
        Err(SinkFail::Memory(_)) => Status::Memory,
    }
}
