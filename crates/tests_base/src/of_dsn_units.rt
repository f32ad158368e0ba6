//! Numbers from outside: texts and their lengths in um, and points turned by angles.
//! Each public call is made once at least; what a contract says is not tested again.

use dsn_units::{Angle, Scale, coord, extent, read_decimal, rotate, whole_number};
use geo_kernel::{Point, Unit};

/// The sign, the digits and the exponent of the decimal that a text spells.
fn decimal(text: &str) -> Option<(bool, u64, i32)> {
    let d = read_decimal(text.as_bytes())?;
    Some((d.negative, d.digits, d.exponent))
}

static DECIMALS: [(&str, Option<(bool, u64, i32)>); 17] = [
    ("0", Some((false, 0, 0))),
    ("1.23457e+05", Some((false, 123_457, 0))),
    ("-.5", Some((true, 5, -1))),
    ("+1.e2", Some((false, 1, 2))),
    ("1E-99", Some((false, 1, -99))),
    (
        "999999999999999999",
        Some((false, 999_999_999_999_999_999, 0)),
    ),
    (
        ".999999999999999999",
        Some((false, 999_999_999_999_999_999, -18)),
    ),
    ("1e", None),
    (".", None),
    ("", None),
    ("-", None),
    ("1e100", None),
    ("1000000000000000000", None),
    ("1.2.3", None),
    ("--1", None),
    ("1e5x", None),
    ("0x1", None),
];

#[test]
fn decimals_are_read_exactly_as_spelled_and_other_texts_are_none(rt: HostRuntime) {
    for &(text, want) in &DECIMALS {
        assert!(rt; decimal(text) == want, "{text}");
    }
}

static UNITS: [(Unit, u64); 5] = [
    (Unit::Inch, 25_400_000),
    (Unit::Mil, 25_400),
    (Unit::Cm, 10_000_000),
    (Unit::Mm, 1_000_000),
    (Unit::Um, 1_000),
];

#[test]
fn units_have_their_lengths_in_nm(rt: HostRuntime) {
    for &(unit, nm) in &UNITS {
        assert!(rt; Scale::of(unit).nm == nm, "{nm}");
    }
}

/// The coordinate in nm that a text spells in um.
fn coordinate(text: &str) -> Option<i64> {
    coord(&read_decimal(text.as_bytes())?, Scale::of(Unit::Um)).ok()
}

static COORDINATES: [(&str, Option<i64>); 8] = [
    ("1.23457e+05", Some(123_457_000)),
    ("1.23457e+06", None),
    ("0.0004", Some(0)),
    ("0.0005", Some(1)),
    ("-0.0005", Some(0)),
    ("-0.0006", Some(-1)),
    ("-536870.9125", Some(-536_870_912)),
    ("536870.9125", None),
];

#[test]
fn coordinates_in_um_round_to_the_nearest_nm(rt: HostRuntime) {
    for &(text, want) in &COORDINATES {
        assert!(rt; coordinate(text) == want, "{text}");
    }
}

/// The width in nm that a text spells in um.
fn width(text: &str) -> Option<u64> {
    extent(&read_decimal(text.as_bytes())?, Scale::of(Unit::Um)).ok()
}

static WIDTHS: [(&str, Option<u64>); 6] = [
    ("200.1", Some(200_100)),
    ("0.0004", Some(1)),
    ("-0", Some(0)),
    ("-0.1", None),
    ("268435.456", Some(268_435_456)),
    ("268435.4560001", None),
];

#[test]
fn widths_in_um_round_up(rt: HostRuntime) {
    for &(text, want) in &WIDTHS {
        assert!(rt; width(text) == want, "{text}");
    }
}

/// The count of at most a million that a text spells.
fn count(text: &str) -> Option<u32> {
    whole_number(&read_decimal(text.as_bytes())?, 1_000_000)
}

static COUNTS: [(&str, Option<u32>); 6] = [
    ("10.0", Some(10)),
    ("1e1", Some(10)),
    ("1e6", Some(1_000_000)),
    ("1000001", None),
    ("10.5", None),
    ("-1", None),
];

#[test]
fn counts_are_whole_numbers_up_to_a_limit(rt: HostRuntime) {
    for &(text, want) in &COUNTS {
        assert!(rt; count(text) == want, "{text}");
    }
}

/// Where the point (10,000,000, 0) lies when it is turned by so many degrees; none where that is no angle.
fn turned(degrees: &str) -> Option<(i64, i64)> {
    let angle = Angle::of(&read_decimal(degrees.as_bytes())?).ok()?;
    let p = rotate(
        Point {
            x: 10_000_000,
            y: 0,
        },
        angle,
    );
    Some((p.x, p.y))
}

static TURNS: [(&str, Option<(i64, i64)>); 7] = [
    ("30", Some((8_660_254, 5_000_000))),
    ("-90", Some((0, -10_000_000))),
    ("405", Some((7_071_068, 7_071_068))),
    ("180.0", Some((-10_000_000, 0))),
    ("1e6", Some((1_736_482, -9_848_078))),
    ("-0.0000005", Some((10_000_000, 0))),
    ("1000000.0000001", None),
];

#[test]
fn points_turn_by_angles_up_to_a_million_degrees(rt: HostRuntime) {
    for &(degrees, want) in &TURNS {
        assert!(rt; turned(degrees) == want, "{degrees}");
    }
}
