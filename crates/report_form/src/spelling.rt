//! Names as a report spells them.

ghost use Rattle.std.specs.Prelude.{◌≡◌, ◌++◌, ◌==◌, ℕ, List as Seq, MatchOption, Some, not};
ghost use Rattle.std.specs.Option.{option_copied};
ghost use Rattle.ses_writer.specs.Words.{is_bare, is_bare_byte, spelled};
ghost use Rattle.report_form.specs.Form.{has_mark};
ghost use Rattle.report_form.specs.inner.Fields.{HasBare, HasFront, HasInner, HasName, HasPin, HasQuoted, IsPinAt};

use crate::cursor::after;

// Whether the byte needs no quotes.
fn is_bare_byte(byte: u8) -> bool
    ensures { result ≡ is_bare_byte byte }
{
    byte.is_ascii_alphanumeric() || b"_.+/:[]~*".contains(&byte)
}

// How many bytes at the front need no quotes.
fn bare_count(text: &[u8]) -> usize
    ensures { HasFront is_bare_byte result text.now }
{
    for (i, byte) in text.iter().enumerate() {
        if !is_bare_byte(*byte) {
            return i;
        }
    }
    text.len()
}

// How many bytes stand before the first quotation mark.
fn inner_count(text: &[u8]) -> usize
    ensures { HasFront (λ b. not (b == 34)) result text.now }
{
    for (i, byte) in text.iter().enumerate() {
        if *byte == b'"' {
            return i;
        }
    }
    text.len()
}

/// Whether the name needs no quotes.
pub(crate) fn is_bare(name: &[u8]) -> bool
    ensures { result ≡ is_bare name.now }
{
    !name.is_empty() && bare_count(name) == name.len()
}

// Whether a byte of the name is a quotation mark.
fn has_mark(name: &[u8]) -> bool
    ensures { result ≡ has_mark name.now }
{
    inner_count(name) < name.len()
}

// The rest behind the name and a quotation mark, behind a first one.
fn after_quoted<'a>(text: &'a [u8], name: &[u8]) -> Option<&'a [u8]>
    ensures { MatchOption result ((r : Seq ℕ) → HasQuoted name.now r text.now → ⊥)
        (λ r. HasQuoted name.now r.now text.now) }
{
    let inner = after(text, b"\"")?;
    let behind = after(inner, name)?;
    after(behind, b"\"")
}

/// The rest behind the spelled name, where the bytes begin with it.
pub(crate) fn after_spelled<'a>(text: &'a [u8], name: &[u8]) -> Option<&'a [u8]>
    ensures { MatchOption result ((r : Seq ℕ) → text.now ≡ spelled name.now ++ r → ⊥)
        (λ r. text.now ≡ spelled name.now ++ r.now) }
{
    if is_bare(name) {
        return after(text, name);
    }
    after_quoted(text, name)
}

// A name between quotes and the rest behind them, behind the first quotation mark.
fn quoted<'a>(inner: &'a [u8]) -> Option<(&'a [u8], &'a [u8])>
    ensures { MatchOption result ((name r : Seq ℕ) → HasInner name r inner.now → ⊥)
        (λ x. HasInner x.0.now x.1.now inner.now) }
{
    let (name, behind) = inner.split_at(inner_count(inner));
    let rest = after(behind, b"\"")?;
    if is_bare(name) {
        return None;
    }
    if bare_count(rest) > 0 {
        return None;
    }
    Some((name, rest))
}

// A name without quotes, and the rest behind it.
fn bare_name<'a>(text: &'a [u8]) -> Option<(&'a [u8], &'a [u8])>
    ensures { MatchOption result ((name r : Seq ℕ) → HasBare name r text.now → ⊥)
        (λ x. HasBare x.0.now x.1.now text.now) }
{
    let count = bare_count(text);
    if count == 0 {
        return None;
    }
    Some(text.split_at(count))
}

/// A spelled name without a quotation mark, before a byte that needs quotes, and the rest behind it.
pub(crate) fn spelled_name<'a>(text: &'a [u8]) -> Option<(&'a [u8], &'a [u8])>
    ensures { MatchOption result ((name r : Seq ℕ) → HasName name r text.now → ⊥)
        (λ x. HasName x.0.now x.1.now text.now) }
{
    match after(text, b"\"") {
        Some(inner) => quoted(inner),
        None => bare_name(text),
    }
}

/// Whether the name is the first pin's, and the rest behind it.
#[derive(Clone, Copy)]
pub(crate) struct Named<'a> {
    pub named: bool,
    pub rest: &'a [u8],
}

// A name where the first pin of its place is known.
fn name_beside<'a>(text: &'a [u8], first: &[u8]) -> Option<Named<'a>>
    ensures { MatchOption result ((pin r : Seq ℕ) → HasPin (Some first.now) pin r text.now → ⊥)
        (λ x. IsPinAt (Some first.now) x.named x.rest.now text.now) }
{
    if has_mark(first) {
        let rest = after_spelled(text, first)?;
        return Some(Named { named: true, rest });
    }
    let (name, rest) = spelled_name(text)?;
    let named = name == first;
    Some(Named { named, rest })
}

/// A name that can stand behind `cut`, where `first` is the name of the first pin of its place.
pub(crate) fn name_at<'a>(text: &'a [u8], first: Option<&[u8]>) -> Option<Named<'a>>
    ensures { MatchOption result ((pin r : Seq ℕ) → HasPin (option_copied first.entry) pin r text.now → ⊥)
        (λ x. IsPinAt (option_copied first.entry) x.named x.rest.now text.now) }
{
    match first {
        Some(first) => name_beside(text, first),
        None => {
            let (_, rest) = spelled_name(text)?;
            Some(Named { named: false, rest })
        }
    }
}
