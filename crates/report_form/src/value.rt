//! The numbers that digits write.

ghost use Rattle.std.specs.Prelude.{◌≡◌, ◌^◌, ◌-◌, ◌↔◌, decimal, true};
ghost use Rattle.report_form.specs.Form.{IsNumber};
ghost use Rattle.report_form.specs.Reading.{capped, exact};

/// The number that the digits write, but at most 2^64 - 1.
pub(crate) fn capped(digits: &[u8]) -> u64
    requires { IsNumber digits.now }
    ensures { result ≡ capped (2 ^ 64 - 1) digits.now }
{
    let mut n: u64 = 0;
    for byte in digits {
        let more = u128::from(n) * 10 + u128::from(*byte - b'0');
        n = if more < u128::from(u64::MAX) {
            more as u64
        } else {
            u64::MAX
        };
    }
    n
}

/// The number that the digits write, but at most 2^32 - 1.
pub(crate) fn capped_short(digits: &[u8]) -> u32
    requires { IsNumber digits.now }
    ensures { result ≡ capped (2 ^ 32 - 1) digits.now }
{
    let n = capped(digits);
    if n < u64::from(u32::MAX) {
        n as u32
    } else {
        u32::MAX
    }
}

/// The number that the digits write, if it is below 2^128.
pub(crate) fn exact(digits: &[u8]) -> Option<u128>
    requires { IsNumber digits.now }
    ensures { result ≡ exact digits.now }
{
    let mut n: u128 = 0;
    for byte in digits {
        let digit = u128::from(*byte - b'0');
        if n > (u128::MAX - digit) / 10 {
            return None;
        }
        n = n * 10 + digit;
    }
    Some(n)
}

/// Whether the digits write this number.
pub(crate) fn writes(digits: &[u8], n: usize) -> bool
    requires { IsNumber digits.now }
    ensures { (result ≡ true) ↔ (digits.now ≡ decimal n) }
{
    match exact(digits) {
        Some(value) => value == n as u128,
        None => false,
    }
}
