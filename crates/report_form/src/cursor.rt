//! Words and numbers at the front of a text.

ghost use Rattle.std.specs.Prelude.{◌≡◌, ◌≤◌, ◌<◌, ◌↔◌, ◌++◌, ℕ, List as Seq, [], MatchOption, get_or, length, true};
ghost use Rattle.std.specs.Char.{is_ascii_digit};
ghost use Rattle.report_form.specs.inner.Fields.{HasField, HasFour, HasFront, HasOne, HasThree, HasTwo, IsStop};

/// The rest behind the word, where the bytes begin with it.
pub(crate) fn after<'a>(text: &'a [u8], word: &[u8]) -> Option<&'a [u8]>
    ensures { MatchOption result ((r : Seq ℕ) → text.now ≡ word.now ++ r → ⊥) (λ r. text.now ≡ word.now ++ r.now) }
{
    text.strip_prefix(word)
}

// How many digits stand at the front.
fn digit_count(text: &[u8]) -> usize
    ensures { HasFront is_ascii_digit result text.now }
{
    for (i, byte) in text.iter().enumerate() {
        if !byte.is_ascii_digit() {
            return i;
        }
    }
    text.len()
}

// Whether the first of several digits is 0.
fn leads_with_zero(text: &[u8], count: usize) -> bool
    requires { count ≤ length text.now }
    ensures { (result ≡ true) ↔ ((1 < count) × (get_or text.now 0 0 ≡ 48)) }
{
    if count > 1 { text[0] == b'0' } else { false }
}

// A number at the front: its digits, and the rest behind them.
fn number<'a>(text: &'a [u8]) -> Option<(&'a [u8], &'a [u8])>
    ensures { MatchOption result ((w r : Seq ℕ) → HasField [] w r text.now → ⊥)
        (λ x. HasField [] x.0.now x.1.now text.now) }
{
    let count = digit_count(text);
    if count == 0 {
        return None;
    }
    if leads_with_zero(text, count) {
        return None;
    }
    Some(text.split_at(count))
}

/// A word and a number at the front: its digits, and the rest behind them.
pub(crate) fn field<'a>(text: &'a [u8], word: &[u8]) -> Option<(&'a [u8], &'a [u8])>
    ensures { MatchOption result ((w r : Seq ℕ) → HasField word.now w r text.now → ⊥)
        (λ x. HasField word.now x.0.now x.1.now text.now) }
{
    let behind = after(text, word)?;
    number(behind)
}

/// A line with one number: its digits, and the rest behind the line.
pub(crate) fn one<'a>(text: &'a [u8], word: &[u8]) -> Option<(&'a [u8], &'a [u8])>
    ensures { MatchOption result ((w r : Seq ℕ) → HasOne word.now w r text.now → ⊥)
        (λ x. HasOne word.now x.0.now x.1.now text.now) }
{
    let (digits, behind) = field(text, word)?;
    let rest = after(behind, b"\n")?;
    Some((digits, rest))
}

/// The numbers of a line with two, and the rest behind it.
#[derive(Clone, Copy)]
pub(crate) struct TwoNumbers<'a> {
    pub a: &'a [u8],
    pub b: &'a [u8],
    pub rest: &'a [u8],
}

/// A line with two numbers behind two words.
pub(crate) fn two<'a>(text: &'a [u8], v: &[u8], w: &[u8]) -> Option<TwoNumbers<'a>>
    requires stop { IsStop w.now }
    ensures { MatchOption result ((a b r : Seq ℕ) → HasTwo v.now w.now a b r text.now → ⊥)
        (λ x. HasTwo v.now w.now x.a.now x.b.now x.rest.now text.now) }
{
    let (a, behind) = field(text, v)?;
    let (b, rest) = one(behind, w)?;
    Some(TwoNumbers { a, b, rest })
}

/// The numbers of a line with three, and the rest behind it.
#[derive(Clone, Copy)]
pub(crate) struct ThreeNumbers<'a> {
    pub a: &'a [u8],
    pub b: &'a [u8],
    pub c: &'a [u8],
    pub rest: &'a [u8],
}

/// A line with three numbers behind three words.
pub(crate) fn three<'a>(text: &'a [u8], u: &[u8], v: &[u8], w: &[u8]) -> Option<ThreeNumbers<'a>>
    requires first_stop { IsStop v.now }
    requires second_stop { IsStop w.now }
    ensures { MatchOption result ((a b c r : Seq ℕ) → HasThree u.now v.now w.now a b c r text.now → ⊥)
        (λ x. HasThree u.now v.now w.now x.a.now x.b.now x.c.now x.rest.now text.now) }
{
    let (a, behind) = field(text, u)?;
    let line = two(behind, v, w)?;
    Some(ThreeNumbers {
        a,
        b: line.a,
        c: line.b,
        rest: line.rest,
    })
}

/// The numbers of a line with four, and the rest behind it.
#[derive(Clone, Copy)]
pub(crate) struct FourNumbers<'a> {
    pub a: &'a [u8],
    pub b: &'a [u8],
    pub c: &'a [u8],
    pub e: &'a [u8],
    pub rest: &'a [u8],
}

/// A line with four numbers behind a word, with blanks between them.
pub(crate) fn four<'a>(text: &'a [u8], word: &[u8]) -> Option<FourNumbers<'a>>
    ensures { MatchOption result ((a b c e r : Seq ℕ) → HasFour word.now a b c e r text.now → ⊥)
        (λ x. HasFour word.now x.a.now x.b.now x.c.now x.e.now x.rest.now text.now) }
{
    let (a, behind) = field(text, word)?;
    let line = three(behind, b" ", b" ", b" ")?;
    Some(FourNumbers {
        a,
        b: line.a,
        c: line.b,
        e: line.c,
        rest: line.rest,
    })
}
