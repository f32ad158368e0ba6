//! Points turned about the origin, in whole nm: quarter turns are exact, the rest goes by a cosine and a sine.
//! Source: the power series of both, eight terms each, in parts of 10^12.

ghost use Rattle.std.specs.Prelude.{◌≡◌, ◌<◌, ◌≤◌, ◌+◌, ◌*◌, ◌/◌, ◌^◌, ℕ, ℤ, pos, int_lt, unsigned_abs, ◌*ℤ◌};
ghost use Rattle.geo_kernel.specs.declared.point.Point.{Point as ThePoint};
ghost use Rattle.dsn_units.specs.declared.angle.Angle.{Angle as TheAngle};
ghost use Rattle.geo_kernel.specs.Plane.{IsWithin};
ghost use Rattle.dsn_units.specs.Length.{nearest};
ghost use Rattle.dsn_units.specs.Turn.{times, term, with_term, alternating, signed_sine, arc, slanted, quarter};
ghost use Rattle.dsn_units.specs.Turn.{quarters, rest, turned};

use crate::Angle;
use geo_kernel::Point;

const ONE: u64 = 1_000_000_000_000;

// A product in parts of one.
fn scaled(t: u64, n: u64) -> u64
    requires t_within { t ≤ ONE }
    requires n_within { n ≤ ONE }
    ensures value { result ≡ times t n }
    ensures within { result ≤ ONE }
{
    (n as u128 * t as u128 / ONE as u128) as u64
}

fn with_term(sum: i64, k: u64, n: u64) -> i64
    requires sum_within { unsigned_abs sum ≤ 8 * ONE }
    requires n_within { n ≤ ONE }
    ensures { result ≡ with_term sum k n }
{
    if k % 2 == 0 {
        sum + n as i64
    } else {
        sum - n as i64
    }
}

// The alternating sum of eight terms.
fn series(first: u64, t: u64, shift: u64) -> i64
    requires first_within { first ≤ ONE }
    requires t_within { t ≤ ONE }
    requires shift_within { shift ≤ 1 }
    ensures value { result ≡ alternating (term first t shift) 8 }
    ensures within { unsigned_abs result ≤ 8 * ONE }
{
    let mut next = first;
    let mut sum: i64 = 0;
    for k in 0..8u64 {
        sum = with_term(sum, k, next);
        next = scaled(t, scaled(t, next)) / ((2 * k + 1 + shift) * (2 * k + 2 + shift));
    }
    sum
}

// A whole number of parts of one, to the nearest, half upwards.
fn rounded(parts: i128) -> i64
    requires { unsigned_abs parts ≤ 2 ^ 75 }
    ensures value { result ≡ nearest parts ONE }
    ensures within { unsigned_abs result ≤ 2 ^ 36 }
{
    let one = ONE as i128;
    (2 * parts + one).div_euclid(2 * one) as i64
}

// A product of a coordinate and a cosine or sine.
fn times(a: i64, b: i64) -> i128
    requires a_within { unsigned_abs a ≤ 2 ^ 31 }
    requires b_within { unsigned_abs b ≤ 8 * ONE }
    ensures value { result ≡ a *ℤ b }
    ensures within { unsigned_abs result ≤ 2 ^ 74 }
{
    a as i128 * b as i128
}

fn slanted(p: Point, c: i64, s: i64) -> Point
    requires p_within { IsWithin (2 ^ 31) p }
    requires c_within { unsigned_abs c ≤ 8 * ONE }
    requires s_within { unsigned_abs s ≤ 8 * ONE }
    ensures value { result ≡ slanted c s p }
    ensures within { IsWithin (2 ^ 36) result }
{
    Point {
        x: rounded(times(p.x, c) - times(p.y, s)),
        y: rounded(times(p.x, s) + times(p.y, c)),
    }
}

fn quarters(p: Point, count: u32) -> Point
    requires { IsWithin (2 ^ 36) p }
    ensures value { result ≡ quarters count p }
    ensures within { IsWithin (2 ^ 36) result }
{
    let mut turned = p;
    for n in 0..count {
        turned = Point {
            x: -turned.y,
            y: turned.x,
        };
    }
    turned
}

fn signed_sine(negative: bool, t: u64) -> i64
    requires { t ≤ ONE }
    ensures value { result ≡ signed_sine negative t }
    ensures within { unsigned_abs result ≤ 8 * ONE }
{
    let sine = series(t, t, 1);
    if negative { -sine } else { sine }
}

// An angle as its quarter turns, and the sign and the arc of its rest.
#[derive(Clone, Copy)]
struct Turn {
    quarters: u32,
    negative: bool,
    arc: u64,
}

fn parts(a: Angle) -> Turn
    requires { a.microdegrees < 360000000 }
    ensures quarters { result.quarters ≡ quarter a }
    ensures negative { result.negative ≡ int_lt (rest a) (pos 0) }
    ensures arc { result.arc ≡ arc a }
    ensures within { result.arc ≤ ONE }
{
    let quarters = (a.microdegrees + 45_000_000) / 90_000_000;
    let whole = 90_000_000 * quarters;
    let rest = a.microdegrees.abs_diff(whole) as u64;
    Turn {
        quarters,
        negative: a.microdegrees < whole,
        arc: rest * 17_453_292_520 / 1_000_000,
    }
}

/// The point turned counter-clockwise about the origin, in nm.
pub fn rotate(p: Point, a: Angle) -> Point
    requires p_within { IsWithin (2 ^ 31) p }
    requires reduced { a.microdegrees < 360000000 }
    ensures value { result ≡ turned a p }
    ensures within { IsWithin (2 ^ 36) result }
{
    let turn = parts(a);
    if turn.arc == 0 {
        return quarters(p, turn.quarters);
    }
    let sine = signed_sine(turn.negative, turn.arc);
    let cosine = series(ONE, turn.arc, 0);
    quarters(slanted(p, cosine, sine), turn.quarters)
}

/// A law: a whole number of quarter turns is exact, and four of them are no turn.
pub fn quarter_turns()
    ensures exact { (a : TheAngle) → (n : ℕ) → (p : ThePoint) → a.microdegrees ≡ 90000000 * n
        → turned a p ≡ quarters n p }
    ensures four { (p : ThePoint) → quarters 4 p ≡ p }
{}
