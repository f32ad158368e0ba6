//! Decimals that count units of a session's resolution, as lengths in whole nanometres (nm).
//! Each is an exact fraction until it is rounded once.

ghost use Rattle.std.specs.Prelude.{◌≡◌, ◌<◌, ◌≤◌, ◌*◌, ◌^◌, min, unsigned_abs, MatchOption};
ghost use Rattle.dsn_units.specs.Length.{nearest, signed};
ghost use Rattle.ses_reader.specs.Measures.{IsFar, IsFractionOf, coord_of, extent_of};

use dsn_units::Decimal;
use geo_kernel::Unit;
use geo_kernel::limits::{FURTHEST, WIDEST};

/// The unit of a session's numbers: `per` of it are one `unit`.
#[derive(Clone, Copy, PartialEq, Eq)]
pub(crate) struct Measure {
    pub(crate) unit: Unit,
    pub(crate) per: u32,
}

// A number beyond all lengths in the finest unit.
const FAR: u128 = 0x4000_0000_0000_0000;

// The number with so many zeros behind it, where that isn't beyond all lengths.
fn grown(number: u128, times: u32) -> Option<u128>
    ensures { MatchOption result (FAR < number * 10 ^ times) (λ n. (n ≡ number * 10 ^ times) × (n ≤ FAR)) }
{
    if number == 0 {
        return Some(0);
    }
    if number > FAR || times > 18 {
        return None;
    }
    let grown = number * 10u128.pow(times);
    if grown > FAR { None } else { Some(grown) }
}

// A fraction of nm.
#[derive(Clone, Copy)]
struct Fraction {
    above: u128,
    below: u128,
}

// A number with these zeros behind it, in units of which so many are one nm.
fn whole_fraction(number: u128, times: u32, per: u32) -> Option<Fraction>
    requires { 1 ≤ per }
    ensures { MatchOption result (2 ^ 30 * per < number * 10 ^ times)
        (λ f. (f.above ≡ number * 10 ^ times) × (f.below ≡ per) × (f.above ≤ FAR)) }
{
    match grown(number, times) {
        Some(above) => Some(Fraction {
            above,
            below: per as u128,
        }),
        None => None,
    }
}

// A number that is cut by so many digits; behind 27 digits more of them change no length.
fn cut_fraction(number: u128, times: u32, per: u32) -> Fraction
    ensures above { result.above ≡ number }
    ensures below { result.below ≡ 10 ^ (min times 27) * per }
{
    Fraction {
        above: number,
        below: 10u128.pow(times.min(27)) * per as u128,
    }
}

// A fraction that is rounded as the decimal is, or None where that lies beyond all lengths.
fn fraction_of(d: &Decimal, m: Measure) -> Option<Fraction>
    requires { 1 ≤ m.per }
    ensures { MatchOption result (IsFar m d.now) (λ f. IsFractionOf m d.now f.above f.below) }
{
    let number = d.digits as u128 * m.unit.nm() as u128;
    if d.exponent >= 0 {
        whole_fraction(number, d.exponent as u32, m.per)
    } else {
        Some(cut_fraction(number, d.exponent.unsigned_abs(), m.per))
    }
}

fn signed(negative: bool, size: u128) -> i128
    requires { size < 2 ^ 90 }
    ensures value { result ≡ signed negative size }
    ensures few { unsigned_abs result < 2 ^ 90 }
{
    if negative {
        -(size as i128)
    } else {
        size as i128
    }
}

// A fraction, to the nearest whole number.
fn rounded(above: i128, below: u128) -> i128
    requires above { unsigned_abs above < 2 ^ 90 }
    requires below { below < 2 ^ 124 }
    requires some { 0 < below }
    ensures { result ≡ nearest above below }
{
    let below = below as i128;
    (2 * above + below).div_euclid(2 * below)
}

// The nearest whole number to a fraction with a sign.
fn nearest(negative: bool, f: Fraction) -> i128
    requires above { f.above < 2 ^ 90 }
    requires below { f.below < 2 ^ 124 }
    requires some { 0 < f.below }
    ensures { result ≡ nearest (signed negative f.above) f.below }
{
    rounded(signed(negative, f.above), f.below)
}

/// The decimal as a coordinate in nm: the nearest whole number, the upper one of two that are equally near.
/// None exactly where that passes 2^29 in absolute value.
#[tactic(auto, unfolding(crate::specs::Measures::coord_of))]
pub(crate) fn coord(d: &Decimal, m: Measure) -> Option<i64>
    requires { 1 ≤ m.per }
    ensures { result ≡ coord_of m d.now }
{
    let Some(f) = fraction_of(d, m) else {
        return None;
    };
    let nearest = nearest(d.negative, f);
    if nearest.unsigned_abs() > FURTHEST as u128 {
        return None;
    }
    Some(nearest as i64)
}

/// The decimal as a width in nm: the least whole number that isn't below it.
/// None exactly where the decimal is below 0 or that number passes 2^28.
#[tactic(auto, unfolding(crate::specs::Measures::extent_of))]
pub(crate) fn extent(d: &Decimal, m: Measure) -> Option<u64>
    requires { 1 ≤ m.per }
    ensures { result ≡ extent_of m d.now }
{
    if d.negative && d.digits > 0 {
        return None;
    }
    let Some(f) = fraction_of(d, m) else {
        return None;
    };
    let size = f.above.div_ceil(f.below);
    if size > WIDEST as u128 {
        return None;
    }
    Some(size as u64)
}
