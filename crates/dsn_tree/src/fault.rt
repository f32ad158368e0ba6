//! Why a text has no tree.
//! Offsets count the bytes before.

ghost use Rattle.std.specs.Prelude.{◌≡◌};
ghost use Rattle.dsn_tree.specs.Verdict.{fault_of};

use dsn_tokens::TokenFault;
use std::alloc::AllocError;
use thiserror::Error;

/// Why a text has no tree: the fault that is met first from left to right.
#[derive(Debug, Drop, Error)]
pub enum TreeFault {
    /// The quoted piece that is opened at this offset has no closing byte.
    #[error("the quoted text opened at byte {at} has no end")]
    QuoteOpen { at: u64 },
    /// A quoting byte is due at this offset, and another byte stands there.
    #[error("the byte at {at} can't become the quoting byte")]
    BadQuoteByte { at: u64 },
    /// The text ends, and this bracket is the last that is open.
    #[error("the bracket at byte {at} is not closed")]
    Unclosed { at: u64 },
    /// A word or a closing bracket before the group, or any token behind it.
    #[error("the token at byte {at} stands outside the group")]
    Surplus { at: u64 },
    /// This bracket opens a group that is deeper than the limit.
    #[error("the bracket at byte {at} is too deep")]
    TooDeep { at: u64 },
    /// There is no token.
    #[error("there is no token")]
    Empty,
    /// There was no memory for the tree.
    #[error(transparent)]
    Memory(AllocError),
}

/// A fault of the spelling, as a fault of the tree.
pub fn fault_of(fault: TokenFault) -> TreeFault
    ensures { result ≡ fault_of fault }
{
    match fault {
        TokenFault::QuoteOpen { at } => TreeFault::QuoteOpen { at },
        TokenFault::BadQuoteByte { at } => TreeFault::BadQuoteByte { at },
        TokenFault::Memory(error) => TreeFault::Memory(error),
    }
}

impl From<AllocError> for TreeFault {
    ghost use Rattle.std.specs.Prelude.{◌≡◌};
    ghost use Rattle.dsn_tree.specs.declared.fault.TreeFault.TheVariants.{Memory};

    ghost from_gives = { λ e f. f ≡ Memory e };

    fn from(error: AllocError) -> TreeFault {
        TreeFault::Memory(error)
    }
}
