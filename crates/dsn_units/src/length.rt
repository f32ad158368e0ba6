//! Lengths: coordinates rounded to the nearest nm, extents rounded up.
//! Source of the units: SPECCTRA reference, unit and resolution descriptors.

ghost use Rattle.std.specs.Prelude.{◌≡◌, ◌≤◌, ◌^◌, MatchResult, IfOk, Some, None, unsigned_abs};
ghost use Rattle.geo_kernel.specs.Units.{unit_nm};
ghost use Rattle.dsn_units.specs.Length.{coord_of, extent_of, is_below_zero, signed};
ghost use Rattle.dsn_units.specs.Halves.{nearest_half, roof_half};

use crate::Decimal;
use crate::fraction::doubled;
use geo_kernel::Unit;
use geo_kernel::limits::{FURTHEST, WIDEST};
use thiserror::Error;

/// How many nm one unit of a design's numbers has.
#[derive(Clone, Copy)]
pub struct Scale {
    pub nm: u64,
}

/// A number that passes its limit.
#[derive(Clone, Copy, Debug, PartialEq, Eq, Error)]
#[error("the number passes its limit")]
pub struct RangeFault;

impl Scale {
    /// The scale of a unit.
    pub fn of(unit: Unit) -> Scale
        ensures { result.nm ≡ unit_nm unit }
    {
        Scale { nm: unit.nm() }
    }
}

// Half of a count of halves, to the nearest; of two that are equally near the upper one, with the sign put back.
pub(crate) fn nearest_half(negative: bool, exact: bool, count: u128) -> i64
    requires { count ≤ 2 ^ 50 }
    ensures { result ≡ signed negative (nearest_half negative exact count) }
{
    let size = if negative && exact {
        count / 2
    } else {
        (count + 1) / 2
    } as i64;
    if negative { -size } else { size }
}

// Half of a count of halves, rounded up.
fn roof_half(exact: bool, count: u128) -> u64
    requires { count ≤ 2 ^ 50 }
    ensures { result ≡ roof_half exact count }
{
    let size = if exact {
        (count + 1) / 2
    } else {
        count / 2 + 1
    };
    size as u64
}

/// The decimal as a coordinate in nm: the nearest whole number, the upper one of two that are equally near.
/// The fault comes exactly where that passes 2^29 in absolute value.
pub fn coord(d: &Decimal, s: Scale) -> Result<i64, RangeFault>
    ensures value { MatchResult result (λ c. coord_of d.now s.nm ≡ Some c) (λ e. coord_of d.now s.nm ≡ None) }
    ensures within { IfOk result (λ c. unsigned_abs c ≤ 2 ^ 29) }
{
    let Some(halves) = doubled(d, s.nm) else {
        return Err(RangeFault);
    };
    let nearest = nearest_half(d.negative, halves.exact, halves.count);
    if nearest.unsigned_abs() > FURTHEST {
        return Err(RangeFault);
    }
    Ok(nearest)
}

pub(crate) fn is_below_zero(d: &Decimal) -> bool
    ensures { result ≡ is_below_zero d.now }
{
    d.negative && d.digits > 0
}

/// The decimal as a width, diameter or clearance in nm: the least whole number that isn't below it.
/// The fault comes exactly where the decimal is below 0 or that number passes 2^28.
pub fn extent(d: &Decimal, s: Scale) -> Result<u64, RangeFault>
    ensures value { MatchResult result (λ e. extent_of d.now s.nm ≡ Some e) (λ e. extent_of d.now s.nm ≡ None) }
    ensures within { IfOk result (λ e. e ≤ 2 ^ 28) }
{
    if is_below_zero(d) {
        return Err(RangeFault);
    }
    let Some(halves) = doubled(d, s.nm) else {
        return Err(RangeFault);
    };
    let size = roof_half(halves.exact, halves.count);
    if size > WIDEST {
        return Err(RangeFault);
    }
    Ok(size)
}
