//! Decimals as text: an optional sign, one to 18 digits with an optional point, an optional exponent.
//! Source: SPECCTRA reference, number descriptors; a power of ten has one or two digits.

ghost use Rattle.std.specs.Prelude.{◌&&◌, ◌++◌, nat_le};
ghost use Rattle.std.specs.Prelude.{true, IfSome, Some, ◌↔◌, pos, neg_ℤ, ◌≤ℤ◌, ◌+◌, ◌≡◌, ◌<◌, ◌≤◌, ◌^◌, length};
ghost use Rattle.dsn_units.specs.Reading.{sign_of, digits_of, fraction_of, small_number, exponent_of, decimal_of};
ghost use Rattle.dsn_units.specs.Reading.{with_exponent};
ghost use Rattle.dsn_units.specs.Spelling.{number_on, Spells};
ghost use Rattle.dsn_units.specs.declared.number.Decimal.{Decimal as TheDecimal};
ghost use Rattle.std.specs.List.{list_all};
ghost use Rattle.std.specs.Char.{is_ascii_digit};

use crate::Decimal;

fn split_sign(text: &[u8]) -> (bool, &[u8])
    ensures negative { result.0 ≡ (sign_of text.now).0 }
    ensures rest { result.1.now ≡ (sign_of text.now).1 }
{
    match text {
        [b'-', rest @ ..] => (true, rest),
        [b'+', rest @ ..] => (false, rest),
        _ => (false, text),
    }
}

fn split_digits(text: &[u8]) -> (&[u8], &[u8])
    ensures all { list_all is_ascii_digit result.0.now ≡ true }
    ensures digits { result.0.now ≡ (digits_of text.now).0 }
    ensures rest { result.1.now ≡ (digits_of text.now).1 }
{
    for (i, b) in text.iter().enumerate() {
        if !b.is_ascii_digit() {
            return text.split_at(i);
        }
    }
    (text, &[])
}

fn split_fraction(text: &[u8]) -> (&[u8], &[u8])
    ensures all { list_all is_ascii_digit result.0.now ≡ true }
    ensures digits { result.0.now ≡ (fraction_of text.now).0 }
    ensures rest { result.1.now ≡ (fraction_of text.now).1 }
{
    match text {
        [b'.', rest @ ..] => split_digits(rest),
        _ => (&[], text),
    }
}

/// The number that the digits spell behind `before` others, which spell `start`.
fn number_on(start: u64, before: usize, digits: &[u8]) -> u64
    requires room { before + length digits.now ≤ 18 }
    requires small { start < 10 ^ before }
    requires all { list_all is_ascii_digit digits.now ≡ true }
    ensures value { result ≡ number_on start digits.now }
    ensures small { result < 10 ^ (before + length digits.now) }
{
    let mut number = start;
    for b in digits {
        number = 10 * number + u64::from(*b - b'0');
    }
    number
}

fn small_number(negative: bool, digits: &[u8], rest: &[u8]) -> Option<i32>
    requires { list_all is_ascii_digit digits.now ≡ true }
    ensures value { result ≡ small_number negative (digits.now, rest.now) }
    ensures small { IfSome result (λ e. (neg_ℤ (pos 99) ≤ℤ e) × (e ≤ℤ pos 99)) }
{
    if !rest.is_empty() || digits.len() < 1 || digits.len() > 2 {
        return None;
    }
    let number = number_on(0, 0, digits) as i32;
    Some(if negative { -number } else { number })
}

fn exponent(text: &[u8]) -> Option<i32>
    ensures value { result ≡ exponent_of text.now }
    ensures small { IfSome result (λ e. (neg_ℤ (pos 99) ≤ℤ e) × (e ≤ℤ pos 99)) }
{
    match text {
        [] => Some(0),
        [b'e' | b'E', rest @ ..] => {
            let (negative, rest) = split_sign(rest);
            let (digits, rest) = split_digits(rest);
            small_number(negative, digits, rest)
        }
        _ => None,
    }
}

// Whether there are one to 18 digits before and behind the point.
fn are_digits_few(whole: &[u8], fraction: &[u8]) -> bool
    ensures value { result ≡ (nat_le 1 (length (whole.now ++ fraction.now))
        && nat_le (length (whole.now ++ fraction.now)) 18) }
    ensures few { result ≡ true → length whole.now + length fraction.now ≤ 18 }
{
    if whole.len() > 18 || fraction.len() > 18 {
        return false;
    }
    let count = whole.len() + fraction.len();
    1 <= count && count <= 18
}

// The decimal of its digits before and behind the point, of which there are one to 18, times a power of ten.
fn with_exponent(negative: bool, whole: &[u8], fraction: &[u8], shift: i32) -> Option<Decimal>
    requires whole { list_all is_ascii_digit whole.now ≡ true }
    requires fraction { list_all is_ascii_digit fraction.now ≡ true }
    requires small { (neg_ℤ (pos 99) ≤ℤ shift) × (shift ≤ℤ pos 99) }
    ensures { result ≡ with_exponent negative whole.now fraction.now (Some shift) }
{
    if !are_digits_few(whole, fraction) {
        return None;
    }
    let start = number_on(0, 0, whole);
    let digits = number_on(start, whole.len(), fraction);
    Some(Decimal {
        negative,
        digits,
        exponent: shift - fraction.len() as i32,
    })
}

fn decimal(text: &[u8]) -> Option<Decimal>
    ensures { result ≡ decimal_of text.now }
{
    let (negative, rest) = split_sign(text);
    let (whole, rest) = split_digits(rest);
    let (fraction, rest) = split_fraction(rest);
    let shift = exponent(rest)?;
    with_exponent(negative, whole, fraction, shift)
}

/// The decimal that the whole text spells; None exactly where it spells none.
pub fn read_decimal(text: &[u8]) -> Option<Decimal>
    ensures value { result ≡ decimal_of text.now }
    ensures spelled { (d : TheDecimal) → (decimal_of text.now ≡ Some d) ↔ Spells text.now d }
{
    decimal(text)
}
