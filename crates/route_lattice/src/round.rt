//! Whole numbers divided and rounded to multiples of a unit.
//! Session units are whole nanometres (nm).

ghost use Rattle.std.specs.Prelude.{◌≡◌, ℕ, ◌+◌, ◌*◌, ◌<◌, ◌≤◌, ◌^◌, pos, ◌+ℤ◌, ◌*ℤ◌, ◌≤ℤ◌, ◌<ℤ◌, unsigned_abs};
ghost use Rattle.route_lattice.specs.Round.{floor_div, ceil_div, rounded_down, nearest};

/// The greatest whole number whose product with `n` is at most `z`.
pub(crate) fn quotient_down(z: i64, n: u64) -> i64
    requires small { unsigned_abs z ≤ 2 ^ 32 }
    requires some { 0 < n }
    requires short { n ≤ 2 ^ 30 }
    ensures value { result ≡ floor_div z n }
    ensures within { unsigned_abs result ≤ 2 ^ 32 }
{
    z.div_euclid(n as i64)
}

/// The least whole number whose product with `n` is at least `z`.
pub(crate) fn quotient_up(z: i64, n: u64) -> i64
    requires small { unsigned_abs z ≤ 2 ^ 31 }
    requires some { 0 < n }
    requires short { n ≤ 2 ^ 30 }
    ensures value { result ≡ ceil_div z n }
    ensures within { unsigned_abs result ≤ 2 ^ 32 }
{
    quotient_down(z + (n as i64 - 1), n)
}

/// The number rounded down to a multiple of the unit.
pub(crate) fn round_down(unit: u64, z: i64) -> i64
    requires some { 0 < unit }
    requires short { unit ≤ 2 ^ 29 }
    requires small { unsigned_abs z ≤ 2 ^ 32 }
    ensures { result ≡ rounded_down unit z }
{
    quotient_down(z, unit) * unit as i64
}

/// The nearest multiple of the unit, half upwards.
pub(crate) fn round_nearest(unit: u64, z: i64) -> i64
    requires small { unsigned_abs z ≤ 2 ^ 29 }
    requires some { 0 < unit }
    requires short { unit ≤ 2 ^ 29 }
    ensures value { result ≡ nearest unit z }
    ensures within { unsigned_abs result ≤ 2 ^ 30 }
{
    quotient_down(2 * z + unit as i64, 2 * unit) * unit as i64
}
