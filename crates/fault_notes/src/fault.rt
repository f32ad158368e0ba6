//! Why a call ended without a report, and the files that it names.

ghost use Rattle.std.specs.Prelude.{◌≡◌};
ghost use Rattle.fault_notes.specs.Notes.{unread_words, unwritten_words};

use crate::Said;

/// Why a file can't be read or written, as far as the host tells.
#[derive(Clone, Copy, PartialEq, Eq)]
pub enum Bar {
    /// There is no such file, or no such folder.
    Absent,
    /// It is a folder.
    Folder,
    /// The host doesn't allow it.
    Denied,
    /// Anything else.
    Other,
}

/// The names of a call's files; one that it doesn't have may have any.
#[derive(Clone, Copy)]
pub struct FileNames<'a> {
    /// The design's; where another file is the one that can't be read, or is too large, that one's.
    pub input: &'a str,
    /// The session's, which is written or judged.
    pub session: &'a str,
    /// That of the report which is judged.
    pub report: &'a str,
}

/// Why a call ended without a report.
#[derive(Clone, Copy)]
pub enum Fault {
    /// A status line says it.
    Told(Said),
    /// The file of the design, or another one that is to be read, can't be read.
    Unread(Bar),
    /// The session's file can't be written.
    Session(Bar),
    /// Standard output can't be written.
    Report,
    /// Memory was wanting; that is the answer, too, to a design with too many class pairs.
    Memory,
}

/// Why a file can't be read.
pub(crate) fn unread_words(bar: Bar) -> &'static str
    ensures { result.now ≡ unread_words bar }
{
    match bar {
        Bar::Absent => ": the file can't be read: there is no such file\n",
        Bar::Folder => ": the file can't be read: it is a folder\n",
        Bar::Denied => ": the file can't be read: the system doesn't allow it\n",
        Bar::Other => ": the file can't be read\n",
    }
}

/// Why a file can't be written.
pub(crate) fn unwritten_words(bar: Bar) -> &'static str
    ensures { result.now ≡ unwritten_words bar }
{
    match bar {
        Bar::Absent => ": the file can't be written: there is no such folder\n",
        Bar::Folder => ": the file can't be written: it is a folder\n",
        Bar::Denied => ": the file can't be written: the system doesn't allow it\n",
        Bar::Other => ": the file can't be written\n",
    }
}
