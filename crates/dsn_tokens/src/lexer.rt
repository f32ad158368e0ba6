//! The lexer: the tokens of a text, one by one.
//! Each call goes over the bytes of one gap and one token.

ghost use Rattle.std.specs.Prelude.{false, slice_index, ◌≡◌, ◌≢◌, ◌==◌, ◌&&◌, ◌+◌, ◌^◌, ◌<◌, ◌≤◌, length, not};
ghost use Rattle.std.specs.Prelude.{filter, IfOk};
ghost use Rattle.dsn_tokens.specs.Spelling.{Next, Shortens, Reads, can_quote};
ghost use Rattle.dsn_tokens.specs.Words.{behind_word};
ghost use Rattle.dsn_tokens.specs.Gaps.{is_blank};
ghost use Rattle.dsn_tokens.specs.Place.{start};
ghost use Rattle.dsn_tokens.specs.declared.context.Context.{Context};
ghost use Rattle.dsn_tokens.specs.declared.context.Line.TheVariants.{Quoting};

use crate::context::{Context, Line};
use crate::fronts::{gap_front, word_front};
use crate::text::Text;
use crate::token::{Lexeme, Mark, Token, TokenFault};
use std::alloc::{AllocError, Global};
use std::marker::Model;

/// The tokens of a text, from left to right.
#[derive(Drop)]
pub struct Lexer<'a> {
    alloc: Global,
    at: usize,
    rest: &'a [u8],
    context: Context,
}

impl<'a> Model for Lexer<'a> {
    ghost use Rattle.std.specs.Prelude.{◌<◌, ◌+◌, ◌^◌, length};
    ghost use Rattle.dsn_tokens.specs.Place.{Place};

    ghost Value = { Place };

    ghost view = { λ l. record { at = l.at; rest = l.rest.now; context = l.context } };

    ghost invariant = { λ l. l.at + length l.rest.now < 2 ^ 63 };
}

impl<'a> Lexer<'a> {
    /// The lexer at the start of a text.
    pub fn new(alloc: Global, text: &'a [u8]) -> Lexer<'a>
        ensures { result ≡ start text.now }
    {
        Lexer {
            alloc,
            at: 0,
            rest: text,
            context: Context {
                line: Line::Fresh,
                opened: false,
                quote: b'"',
            },
        }
    }

    /// The next token, or `None` at the end of the text.
    ///
    /// # Errors
    ///
    /// A fault of the spelling, which each later call answers again, or want of memory.
    /// After each of them the lexer is where it was.
    pub fn next(&mut self) -> Result<Option<Token>, TokenFault>
        ensures next { Next self.old result self.new }
        ensures shorter { Shortens self.old result self.new }
    {
        let gap = gap_front(self.rest, self.context.line);
        let (_, bytes) = self.rest.split_at(gap);
        if bytes.is_empty() {
            return Ok(None);
        }
        let at = self.at + gap;
        let lexeme = match token_front(self.alloc, bytes, at, self.context) {
            Ok(lexeme) => lexeme,
            Err(fault) => return Err(fault),
        };
        let Lexeme { mark, len, context } = lexeme;
        let (_, rest) = bytes.split_at(len);
        self.at = at + len;
        self.rest = rest;
        self.context = context;
        Ok(Some(Token {
            at: at as u64,
            mark,
        }))
    }
}

/// The token at the front of the bytes, of which the first has the offset `at`.
fn token_front(
    alloc: Global,
    bytes: &[u8],
    at: usize,
    context: Context,
) -> Result<Lexeme, TokenFault>
    requires some { 0 < length bytes.now }
    requires fits { at + length bytes.now < 2 ^ 63 }
    requires no_blank { is_blank (slice_index bytes.now 0) ≡ false }
    ensures reads { Reads context bytes.now (at + length bytes.now) result }
    ensures within { IfOk result (λ x. (0 < x.len) × (x.len ≤ length bytes.now)) }
{
    let first = bytes[0];
    if context.line == Line::Quoting {
        return quoting_front(alloc, bytes, at);
    }
    if first == b'(' {
        return Ok(Lexeme {
            mark: Mark::Left,
            len: 1,
            context: Context {
                line: Line::Begun,
                opened: true,
                quote: context.quote,
            },
        });
    }
    if first == b')' {
        return Ok(Lexeme {
            mark: Mark::Right,
            len: 1,
            context: Context {
                line: Line::Begun,
                opened: false,
                quote: context.quote,
            },
        });
    }
    let (len, open_bytes) = word_front(bytes, context.quote);
    if open_bytes > 0 {
        return Err(TokenFault::QuoteOpen {
            at: (at + len - open_bytes) as u64,
        });
    }
    let (spelled, _) = bytes.split_at(len);
    let text = unquoted(alloc, spelled, context.quote)?;
    Ok(Lexeme {
        mark: Mark::Word(text),
        len,
        context: behind_word(context, spelled),
    })
}

/// The byte that becomes the quoting byte, at the front of the bytes.
fn quoting_front(alloc: Global, bytes: &[u8], at: usize) -> Result<Lexeme, TokenFault>
    requires some { 0 < length bytes.now }
    requires fits { at + length bytes.now < 2 ^ 63 }
    ensures reads { (c : Context) → c.line ≡ Quoting → Reads c bytes.now (at + length bytes.now) result }
    ensures within { IfOk result (λ x. (0 < x.len) × (x.len ≤ length bytes.now)) }
{
    let byte = bytes[0];
    if !can_quote(byte) {
        return Err(TokenFault::BadQuoteByte { at: at as u64 });
    }
    let text = Text::of(alloc, &[byte])?;
    Ok(Lexeme {
        mark: Mark::Word(text),
        len: 1,
        context: Context {
            line: Line::Begun,
            opened: false,
            quote: byte,
        },
    })
}

/// Whether the byte may become the quoting byte.
fn can_quote(byte: u8) -> bool
    ensures { result ≡ can_quote byte }
{
    byte == b'"' || byte == b'\'' || byte == b'$'
}

/// The context behind a word that is spelled so.
fn behind_word(context: Context, spelled: &[u8]) -> Context
    ensures { result ≡ behind_word context spelled.now }
{
    let asks = context.opened && spelled.eq_ignore_ascii_case(b"string_quote");
    Context {
        line: if asks { Line::Quoting } else { Line::Begun },
        opened: false,
        quote: context.quote,
    }
}

/// The bytes but for the quoting bytes.
fn unquoted(alloc: Global, spelled: &[u8], quote: u8) -> Result<Text, AllocError>
    ensures { IfOk result (λ t. t ≡ filter (λ b. not (b == quote)) spelled.now) }
{
    if !spelled.contains(&quote) {
        return Text::of(alloc, spelled);
    }
    let text = without(alloc, spelled, quote)?;
    Text::of(alloc, text.as_slice())
}

/// The bytes but for those that are this one.
fn without(alloc: Global, bytes: &[u8], byte: u8) -> Result<Vec<u8>, AllocError>
    ensures { IfOk result (λ rest. rest.items ≡ filter (λ b. not (b == byte)) bytes.now) }
{
    let mut rest = Vec::new(alloc);
    for b in bytes {
        if *b != byte {
            rest.push(*b)?;
        }
    }
    Ok(rest)
}
