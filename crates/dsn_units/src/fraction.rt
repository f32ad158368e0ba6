//! Twice a decimal's value in some unit, as a whole number and whether that is exact.
//! A value beyond every limit of lengths and angles is told apart, so that no product wraps.

ghost use Rattle.std.specs.Prelude.{◌<◌, ◌≤◌, ◌≡◌, ◌*◌, ◌^◌, ◌↔◌, IsTrue, MatchOption};
ghost use Rattle.dsn_units.specs.Length.{bottom, top};
ghost use Rattle.dsn_units.specs.Halves.{IsHalves};

use crate::Decimal;

// A number beyond all lengths and angles.
const FAR: u128 = 0x1_0000_0000_0000;

/// Twice the size of a value, rounded down, and whether nothing was rounded off.
#[derive(Clone, Copy)]
pub(crate) struct Halves {
    pub(crate) count: u128,
    pub(crate) exact: bool,
}

// Twice the number with so many zeros behind it.
fn grown(number: u128, times: u32) -> Option<Halves>
    ensures { MatchOption result (FAR < number * 10 ^ times) (λ h. IsHalves (number * 10 ^ times) 1 h.count h.exact) }
{
    if number == 0 {
        return Some(Halves {
            count: 0,
            exact: true,
        });
    }
    if number > FAR || times > 14 {
        return None;
    }
    let grown = number * 10u128.pow(times);
    if grown > FAR {
        return None;
    }
    Some(Halves {
        count: 2 * grown,
        exact: true,
    })
}

// Twice the number without its last digits.
fn cut(number: u128, times: u32) -> Option<Halves>
    ensures { MatchOption result (FAR * 10 ^ times < number) (λ h. IsHalves number (10 ^ times) h.count h.exact) }
{
    if times > 38 {
        return Some(Halves {
            count: 0,
            exact: number == 0,
        });
    }
    let base = 10u128.pow(times);
    let whole = number / base;
    if whole > FAR {
        return None;
    }
    let rest = 2 * (number % base);
    Some(Halves {
        count: 2 * whole + rest / base,
        exact: rest % base == 0,
    })
}

/// Twice the size of the decimal's value in a unit of which one is `units` of what is counted.
pub(crate) fn doubled(d: &Decimal, units: u64) -> Option<Halves>
    ensures { MatchOption result (FAR * bottom d.now < top d.now units)
        (λ h. IsHalves (top d.now units) (bottom d.now) h.count h.exact) }
{
    let number = d.digits as u128 * units as u128;
    if d.exponent >= 0 {
        grown(number, d.exponent as u32)
    } else {
        cut(number, d.exponent.unsigned_abs())
    }
}
