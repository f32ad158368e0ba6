//! Angles in whole microdegrees, counter-clockwise.
//! Source: SPECCTRA reference, rotation of a component and of a pin.

ghost use Rattle.std.specs.Prelude.{◌≡◌, ◌<◌, MatchResult, IfOk, Some, None};
ghost use Rattle.dsn_units.specs.Length.{angle_of};
ghost use Rattle.dsn_units.specs.Halves.{is_past};

use crate::fraction::doubled;
use crate::length::nearest_half;
use crate::{Decimal, RangeFault};

/// An angle from 0 up to, but not including, 360 degrees.
#[derive(Clone, Copy)]
pub struct Angle {
    pub microdegrees: u32,
}

// 1,000,000 degrees and a whole turn, in microdegrees.
const LIMIT: u128 = 1_000_000_000_000;

const WHOLE_TURN: i64 = 360_000_000;

// Whether a count of halves passes the limit.
fn is_past(exact: bool, count: u128) -> bool
    ensures { result ≡ is_past exact count }
{
    count > 2 * LIMIT || count == 2 * LIMIT && !exact
}

impl Angle {
    /// The angle of so many degrees: the nearest microdegree, half upwards, without its whole turns.
    /// The fault comes exactly where the number passes 1,000,000 degrees in absolute value.
    pub fn of(d: &Decimal) -> Result<Angle, RangeFault>
        ensures value { MatchResult result (λ a. angle_of d.now ≡ Some a) (λ e. angle_of d.now ≡ None) }
        ensures reduced { IfOk result (λ a. a.microdegrees < 360000000) }
    {
        let Some(halves) = doubled(d, 1_000_000) else {
            return Err(RangeFault);
        };
        if is_past(halves.exact, halves.count) {
            return Err(RangeFault);
        }
        let nearest = nearest_half(d.negative, halves.exact, halves.count);
        Ok(Angle {
            microdegrees: nearest.rem_euclid(WHOLE_TURN) as u32,
        })
    }
}
