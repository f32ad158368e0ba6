//! Numbers in plain decimal digits, without a sign and without zeros in front.
//! What stands behind a number is no digit.

ghost use Rattle.std.specs.Prelude.{◌≡◌, ◌<◌, ◌^◌, ◌++◌, ℕ, List as Seq, Some, IfSome, IsSomeAnd, codes, decimal};
ghost use Rattle.fault_notes.specs.inner.Numbers.{digit_count, EndsDigits};

use itoa::Buffer;

// The number that all of the bytes spell.
fn whole_number(digits: &[u8]) -> Option<u128>
    ensures told { IfSome result (λ n. digits.now ≡ decimal n) }
    ensures whole { (n : ℕ) → n < 2 ^ 128 → digits.now ≡ decimal n → IsSomeAnd result (λ m. m ≡ n) }
{
    let Ok(text) = str::from_utf8(digits) else {
        return None;
    };
    let Ok(number) = text.parse::<u128>() else {
        return None;
    };
    let mut buffer = Buffer::new();
    if buffer.format(number).as_bytes() == digits {
        Some(number)
    } else {
        None
    }
}

fn count_of_digits(bytes: &[u8]) -> usize
    ensures { result ≡ digit_count bytes.now }
{
    let mut count = 0;
    for b in bytes {
        if !b.is_ascii_digit() {
            return count;
        }
        count += 1;
    }
    count
}

// The number that the digits at the front spell, and what stands behind them.
fn front_number(bytes: &[u8]) -> Option<(u128, &[u8])>
    ensures told { IfSome result (λ p. bytes.now ≡ decimal p.0 ++ p.1.now) }
    ensures whole { (n : ℕ) (rest : Seq ℕ) → n < 2 ^ 128 → EndsDigits rest → bytes.now ≡ decimal n ++ rest
        → IsSomeAnd result (λ p. (p.0 ≡ n) × (p.1.now ≡ rest)) }
{
    let (digits, rest) = bytes.split_at(count_of_digits(bytes));
    match whole_number(digits) {
        Some(number) => Some((number, rest)),
        None => None,
    }
}

/// The number at the front that fits 64 bits, and what stands behind it.
pub(crate) fn short_front(bytes: &[u8]) -> Option<(u64, &[u8])>
    ensures told { IfSome result (λ p. bytes.now ≡ decimal p.0 ++ p.1.now) }
    ensures whole { (n : ℕ) (rest : Seq ℕ) → n < 2 ^ 64 → EndsDigits rest → bytes.now ≡ decimal n ++ rest
        → IsSomeAnd result (λ p. (p.0 ≡ n) × (p.1.now ≡ rest)) }
{
    let Some((number, rest)) = front_number(bytes) else {
        return None;
    };
    match u64::try_from(number) {
        Ok(number) => Some((number, rest)),
        Err(_) => None,
    }
}

/// The number that stands alone before the end of the line.
pub(crate) fn last_number(bytes: &[u8]) -> Option<u128>
    ensures told { IfSome result (λ n. bytes.now ≡ decimal n ++ codes "\n") }
    ensures whole { (n : ℕ) → n < 2 ^ 128 → bytes.now ≡ decimal n ++ codes "\n" → IsSomeAnd result (λ m. m ≡ n) }
{
    let Some((number, rest)) = front_number(bytes) else {
        return None;
    };
    if rest == b"\n".as_slice() {
        Some(number)
    } else {
        None
    }
}

/// The number that stands alone before the end of the line, where it fits 64 bits.
pub(crate) fn last_short(bytes: &[u8]) -> Option<u64>
    ensures told { IfSome result (λ n. bytes.now ≡ decimal n ++ codes "\n") }
    ensures whole { (n : ℕ) → n < 2 ^ 64 → bytes.now ≡ decimal n ++ codes "\n" → IsSomeAnd result (λ m. m ≡ n) }
{
    let Some(number) = last_number(bytes) else {
        return None;
    };
    match u64::try_from(number) {
        Ok(number) => Some(number),
        Err(_) => None,
    }
}
