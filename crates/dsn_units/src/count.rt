//! Whole numbers that are spelled as decimals, as `10.0` or `1e1`.
//! Source: SPECCTRA reference, positive integers of the resolution descriptor.

ghost use Rattle.std.specs.Prelude.{◌≡◌, ◌≤◌, IfSome};
ghost use Rattle.dsn_units.specs.Length.{whole_of};
ghost use Rattle.dsn_units.specs.Halves.{is_odd};

use crate::Decimal;
use crate::fraction::doubled;
use crate::length::is_below_zero;

// Whether a count of halves is no whole number.
fn is_odd(exact: bool, count: u128) -> bool
    ensures { result ≡ is_odd exact count }
{
    !exact || count % 2 == 1
}

/// The whole number that the decimal is, from 0 to `most`; None exactly where it is no such number.
pub fn whole_number(d: &Decimal, most: u32) -> Option<u32>
    ensures { result ≡ whole_of d.now most }
{
    if is_below_zero(d) {
        return None;
    }
    let Some(halves) = doubled(d, 1) else {
        return None;
    };
    let number = halves.count / 2;
    if is_odd(halves.exact, halves.count) || number > u128::from(most) {
        return None;
    }
    Some(number as u32)
}
