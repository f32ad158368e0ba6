//! Names, numbers, angles and points, as a session spells them.
//! Source: SPECCTRA reference, identifiers, numbers and the path descriptor.

ghost use Rattle.std.specs.Prelude.{◌≡◌, ◌<◌, ◌≤◌, ◌++◌, All, pos, OnOk, codes, decimal, flat_map, reverse};
ghost use Rattle.std.specs.List.{list_all};
ghost use Rattle.ses_writer.specs.Words.{Appends, is_bare_byte, spelled, nearest, length_word, decimals};
ghost use Rattle.ses_writer.specs.Words.{degrees, point_words, is_before, is_lesser, directed};
ghost use Rattle.ses_writer.specs.Words.{chain_words, area_words};

use geo_kernel::{List, Point};
use itoa::Buffer;
use std::alloc::AllocError;

/// Appends bytes. The only error is want of memory.
pub fn put(out: &mut Vec<u8>, bytes: &[u8]) -> Result<(), AllocError>
    ensures { OnOk result (Appends out.old.items out.new.items bytes.now) }
{
    out.extend_from_slice(bytes)
}

fn need_no_quotes(bytes: &[u8]) -> bool
    ensures { result ≡ list_all is_bare_byte bytes.now }
{
    for b in bytes {
        if !(b.is_ascii_alphanumeric() || b"_.+/:[]~*".contains(b)) {
            return false;
        }
    }
    true
}

/// Appends a name, between quotes where it needs them. The only error is want of memory.
#[tactic(auto, unfolding(crate::specs::Words::spelled))]
pub fn put_word(out: &mut Vec<u8>, name: &[u8]) -> Result<(), AllocError>
    ensures { OnOk result (Appends out.old.items out.new.items (spelled name.now)) }
{
    if !name.is_empty() && need_no_quotes(name) {
        return put(out, name);
    }
    put(out, b"\"")?;
    put(out, name)?;
    put(out, b"\"")
}

// A name between two pieces of text.
pub(crate) fn put_framed(
    out: &mut Vec<u8>,
    front: &[u8],
    name: &[u8],
    back: &[u8],
) -> Result<(), AllocError>
    ensures { OnOk result (Appends out.old.items out.new.items (front.now ++ spelled name.now ++ back.now)) }
{
    put(out, front)?;
    put_word(out, name)?;
    put(out, back)
}

fn coordinate_in(nm: u64, x: i64) -> i128
    requires { 0 < nm }
    ensures { result ≡ nearest nm x }
{
    (2 * i128::from(x) + i128::from(nm)).div_euclid(2 * i128::from(nm))
}

fn width_in(nm: u64, width: u64) -> i128
    requires { 0 < nm }
    ensures { result ≡ nearest nm (pos width) }
{
    (2 * i128::from(width) + i128::from(nm)).div_euclid(2 * i128::from(nm))
}

// A blank and a coordinate.
#[tactic(auto, unfolding(crate::specs::Words::length_word))]
fn put_coordinate(out: &mut Vec<u8>, nm: u64, x: i64) -> Result<(), AllocError>
    requires { 0 < nm }
    ensures { OnOk result (Appends out.old.items out.new.items (length_word nm x)) }
{
    put(out, b" ")?;
    let mut buffer = Buffer::new();
    put(out, buffer.format(coordinate_in(nm, x)).as_bytes())
}

// A blank and a width.
#[tactic(auto, unfolding(crate::specs::Words::length_word))]
fn put_width(out: &mut Vec<u8>, nm: u64, width: u64) -> Result<(), AllocError>
    requires { 0 < nm }
    ensures { OnOk result (Appends out.old.items out.new.items (length_word nm (pos width))) }
{
    put(out, b" ")?;
    let mut buffer = Buffer::new();
    put(out, buffer.format(width_in(nm, width)).as_bytes())
}

/// Appends a number, in decimal digits. The only error is want of memory.
pub fn put_whole(out: &mut Vec<u8>, n: u64) -> Result<(), AllocError>
    ensures { OnOk result (Appends out.old.items out.new.items (decimal n)) }
{
    let mut buffer = Buffer::new();
    put(out, buffer.format(n).as_bytes())
}

fn put_decimals(out: &mut Vec<u8>, microdegrees: u32, places: &[u32]) -> Result<(), AllocError>
    requires { All (λ place. (0 < place) × (place ≤ 100000)) places.now }
    ensures { OnOk result (Appends out.old.items out.new.items (decimals microdegrees places.now)) }
{
    for place in places {
        if microdegrees % (10 * *place) == 0 {
            return Ok(());
        }
        out.push(b'0' + (microdegrees / *place % 10) as u8)?;
    }
    Ok(())
}

// An angle in degrees.
#[tactic(auto, unfolding(crate::specs::Words::degrees))]
pub(crate) fn put_degrees(out: &mut Vec<u8>, microdegrees: u32) -> Result<(), AllocError>
    ensures { OnOk result (Appends out.old.items out.new.items (degrees microdegrees)) }
{
    put_whole(out, u64::from(microdegrees / 1_000_000))?;
    if microdegrees % 1_000_000 == 0 {
        return Ok(());
    }
    put(out, b".")?;
    put_decimals(out, microdegrees, &[100_000, 10_000, 1_000, 100, 10, 1])
}

fn put_point(out: &mut Vec<u8>, nm: u64, p: &Point) -> Result<(), AllocError>
    requires { 0 < nm }
    ensures { OnOk result (Appends out.old.items out.new.items (point_words nm p.now)) }
{
    put_coordinate(out, nm, p.x)?;
    put_coordinate(out, nm, p.y)
}

// A name behind a piece of text, and a point behind the name.
pub(crate) fn put_placed(
    out: &mut Vec<u8>,
    nm: u64,
    front: &[u8],
    name: &[u8],
    at: &Point,
) -> Result<(), AllocError>
    requires { 0 < nm }
    ensures { OnOk result (Appends out.old.items out.new.items
        (front.now ++ spelled name.now ++ point_words nm at.now)) }
{
    put(out, front)?;
    put_word(out, name)?;
    put_point(out, nm, at)
}

// A name behind a piece of text, and a width behind the name.
pub(crate) fn put_run(
    out: &mut Vec<u8>,
    nm: u64,
    front: &[u8],
    name: &[u8],
    width: u64,
) -> Result<(), AllocError>
    requires { 0 < nm }
    ensures { OnOk result (Appends out.old.items out.new.items
        (front.now ++ spelled name.now ++ length_word nm (pos width))) }
{
    put(out, front)?;
    put_word(out, name)?;
    put_width(out, nm, width)
}

fn put_points(out: &mut Vec<u8>, nm: u64, points: &[Point]) -> Result<(), AllocError>
    requires { 0 < nm }
    ensures { OnOk result (Appends out.old.items out.new.items (flat_map (point_words nm) points.now)) }
{
    for p in points {
        put_point(out, nm, p)?;
    }
    Ok(())
}

fn put_reversed(out: &mut Vec<u8>, nm: u64, points: &[Point]) -> Result<(), AllocError>
    requires { 0 < nm }
    ensures { OnOk result (Appends out.old.items out.new.items (flat_map (point_words nm) (reverse points.now))) }
{
    let last = points.len();
    for i in 0..last {
        put_point(out, nm, &points[last - 1 - i])?;
    }
    Ok(())
}

fn comes_before(p: Point, q: Point) -> bool
    ensures { result ≡ is_before p q }
{
    if p.x < q.x {
        true
    } else if q.x < p.x {
        false
    } else {
        p.y < q.y
    }
}

// The reversed list of points is the lesser.
fn is_lesser_reversed(points: &[Point]) -> bool
    ensures { result ≡ is_lesser (reverse points.now) points.now }
{
    let last = points.len();
    for i in 0..last {
        let (p, q) = (points[last - 1 - i], points[i]);
        if comes_before(p, q) {
            return true;
        }
        if comes_before(q, p) {
            return false;
        }
    }
    false
}

// The points of a chain, in the direction whose list of points is the lesser.
#[tactic(auto, unfolding(crate::specs::Words::chain_words))]
pub(crate) fn put_chain(out: &mut Vec<u8>, nm: u64, chain: &List<Point>) -> Result<(), AllocError>
    requires { 0 < nm }
    ensures { OnOk result (Appends out.old.items out.new.items (chain_words nm chain.now)) }
{
    if is_lesser_reversed(chain.as_slice()) {
        put_reversed(out, nm, chain.as_slice())
    } else {
        put_points(out, nm, chain.as_slice())
    }
}

// The points of an area, loop after loop.
#[tactic(auto, unfolding(crate::specs::Words::area_words))]
pub(crate) fn put_area(
    out: &mut Vec<u8>,
    nm: u64,
    loops: &List<List<Point>>,
) -> Result<(), AllocError>
    requires { 0 < nm }
    ensures { OnOk result (Appends out.old.items out.new.items (area_words nm loops.now)) }
{
    for points in loops.as_slice() {
        put_points(out, nm, points.as_slice())?;
    }
    Ok(())
}
