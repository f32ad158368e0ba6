//! What is asked for, and how a call ended.
//! Each outcome has an exit code.

use dsn_shapes::Refusal;
use dsn_shapes::table::PAST_LIMIT;
use dsn_tree::TreeFault;
use route_words::Text;

/// The files of a picture: the design, the session whose wiring is drawn in place of the design's, and the picture.
#[derive(Drop)]
pub struct PictureCall {
    pub design: Text,
    pub session: Option<Text>,
    pub output: Text,
}

/// How a call ended. Offsets count the bytes before.
#[derive(Drop)]
pub enum Outcome {
    /// The picture is written.
    Drawn,
    /// The design's file couldn't be read.
    DesignUnread,
    /// The session's file couldn't be read.
    SessionUnread,
    /// The design's file has more bytes than the limit.
    DesignTooLong,
    /// The session's file has more bytes than the limit.
    SessionTooLong,
    /// The design's text has no tree.
    DesignMisspelt(TreeFault),
    /// The design is refused.
    DesignRefused(Refusal),
    /// The session's text has no tree.
    SessionMisspelt(TreeFault),
    /// The session is refused, by a number from 1 to 6 of `SesFault`.
    SessionRefused { number: u8, at: u64 },
    /// The picture couldn't be written.
    Unwritten,
    /// Memory was wanting.
    Memory,
}

impl Outcome {
    ghost use Rattle.std.specs.Prelude.{◌≡◌};
    ghost use Rattle.picture_call.specs.Codes.{code_of};

    /// The exit code: 0 and 3 to 8. A design that passes a limit on what it counts has that of too long a file.
    pub fn code(&self) -> u8
        ensures { result ≡ code_of self.now }
    {
        match self {
            Outcome::Drawn => 0,
            Outcome::DesignMisspelt(_) => 3,
            Outcome::DesignRefused(refusal) => { if refusal.number == PAST_LIMIT { 6 } else { 3 } }
            Outcome::DesignUnread | Outcome::SessionUnread => 4,
            Outcome::Unwritten => 5,
            Outcome::DesignTooLong | Outcome::SessionTooLong => 6,
            Outcome::Memory => 7,
            Outcome::SessionMisspelt(_) => 8,
            Outcome::SessionRefused { .. } => 8,
        }
    }
}
