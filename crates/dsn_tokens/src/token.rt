//! Tokens, and why there is no next one.
//! Offsets count the bytes before.

use crate::context::Context;
use crate::text::Text;
use std::alloc::AllocError;
use thiserror::Error;

/// What a token is.
#[derive(Drop)]
pub enum Mark {
    /// `(`
    Left,
    /// `)`
    Right,
    /// A word's text, without its quoting bytes.
    Word(Text),
}

/// A token with the offset of its first byte.
#[derive(Drop)]
pub struct Token {
    pub at: u64,
    pub mark: Mark,
}

/// A token's mark, its length in bytes, and the context behind it.
pub struct Lexeme {
    pub mark: Mark,
    pub len: usize,
    pub context: Context,
}

/// Why there is no next token.
#[derive(Debug, Drop, Error)]
pub enum TokenFault {
    /// The quoted piece that is opened at this offset has no closing byte.
    #[error("the quoted text opened at byte {at} has no end")]
    QuoteOpen { at: u64 },
    /// A quoting byte is due at this offset, and another byte stands there.
    #[error("the byte at {at} can't become the quoting byte")]
    BadQuoteByte { at: u64 },
    /// There was no memory for the token.
    #[error(transparent)]
    Memory(AllocError),
}

impl From<AllocError> for TokenFault {
    ghost use Rattle.std.specs.Prelude.{◌≡◌};
    ghost use Rattle.dsn_tokens.specs.declared.token.TokenFault.TheVariants.{Memory};

    ghost from_gives = { λ e f. f ≡ Memory e };

    fn from(error: AllocError) -> TokenFault {
        TokenFault::Memory(error)
    }
}
