//! Refusals of a design's text: their numbers, their places, and which of several counts.
//! Offsets count the bytes before.

ghost use Rattle.std.specs.Prelude.{◌≡◌, None};
ghost use Rattle.dsn_shapes.specs.Refusals.{Reads, is_before, kept, least, refused};

use dsn_tree::TreeFault;
use std::alloc::AllocError;

/// What a limit counts.
#[derive(Clone, Copy, PartialEq, Eq)]
pub enum What {
    Nothing,
    Layers,
    Nets,
    Pins,
    Items,
    Vertices,
}

/// Why a text is no design: the number of the rule, the byte offset of what breaks it,
/// and for a limit that is passed what it counts and how many there may be.
#[derive(Clone, Copy, PartialEq, Eq)]
pub struct Refusal {
    pub number: u8,
    pub at: u64,
    pub what: What,
    pub limit: u64,
}

/// Why a section has no value.
#[derive(Drop)]
pub enum ReadFault {
    /// The refusal whose place comes first in the section, and there the one of the least number.
    Refused(Refusal),
    /// There was no memory.
    Memory(AllocError),
}

/// Why a text has no design.
#[derive(Drop)]
pub enum DesignFault {
    /// The text has no tree.
    Spelling(TreeFault),
    /// The first refusal of the first phase that has one.
    Refused(Refusal),
    /// There was no memory.
    Memory(AllocError),
}

impl From<AllocError> for ReadFault {
    ghost use Rattle.std.specs.Prelude.{◌≡◌};
    ghost use Rattle.dsn_shapes.specs.declared.refusal.ReadFault.TheVariants.{Memory};

    ghost from_gives = { λ e f. f ≡ Memory e };

    fn from(error: AllocError) -> ReadFault {
        ReadFault::Memory(error)
    }
}

/// A refusal by number that is of no limit.
pub fn refused(number: u8, at: u64) -> Refusal
    ensures { result ≡ refused number at }
{
    Refusal {
        number,
        at,
        what: What::Nothing,
        limit: 0,
    }
}

fn is_before(a: Refusal, b: Refusal) -> bool
    ensures { result ≡ is_before a b }
{
    a.at < b.at || a.at == b.at && a.number < b.number
}

/// Keeps the refusal where it comes before the one that is kept.
pub fn note(first: &mut Option<Refusal>, refusal: Refusal)
    ensures { first.new ≡ kept first.old refusal }
{
    match *first {
        Some(held) => {
            if is_before(refusal, held) {
                *first = Some(refusal);
            }
        }
        None => *first = Some(refusal),
    }
}
