//! Lengths, points and names, as a picture spells them.
//! Source: Scalable Vector Graphics 1.1, numbers and path data; XML 1.0, predefined entities.

ghost use Rattle.std.specs.Prelude.{◌≡◌, ◌<◌, ◌≤◌, All, OnOk, IfOk, decimal, flat_map, slice_index};
ghost use Rattle.ses_writer.specs.Words.{Appends, decimals, fraction, degrees};
ghost use Rattle.board_picture.specs.Words.{length_word, sign_word, mm_word, point_words, escaped_byte, escaped};
ghost use Rattle.board_picture.specs.Words.{is_in, is_tail, leads_three, leads_four, length_by, is_no_xml};
ghost use Rattle.board_picture.specs.Words.{char_length, char_by, part_word, part_words};
ghost use Rattle.board_picture.specs.inner.Naming.{next_words, next_skip};

use geo_kernel::Point;
use itoa::Buffer;
use ses_writer::put;
use std::alloc::AllocError;

/// A number, in decimal digits.
fn put_wide(out: &mut Vec<u8>, n: u128) -> Result<(), AllocError>
    ensures { OnOk result (Appends out.old.items out.new.items (decimal n)) }
{
    let mut buffer = Buffer::new();
    put(out, buffer.format(n).as_bytes())
}

fn put_decimals(out: &mut Vec<u8>, nm: u128, places: &[u128]) -> Result<(), AllocError>
    requires { All (λ place. (0 < place) × (place ≤ 100000)) places.now }
    ensures { OnOk result (Appends out.old.items out.new.items (decimals nm places.now)) }
{
    for place in places {
        if nm % (10 * *place) == 0 {
            return Ok(());
        }
        out.push(b'0' + (nm / *place % 10) as u8)?;
    }
    Ok(())
}

fn put_fraction(out: &mut Vec<u8>, nm: u128) -> Result<(), AllocError>
    ensures { OnOk result (Appends out.old.items out.new.items (fraction nm)) }
{
    if nm % 1_000_000 == 0 {
        return Ok(());
    }
    put(out, b".")?;
    put_decimals(out, nm, &[100_000, 10_000, 1_000, 100, 10, 1])
}

/// A length of up to 128 bits in nm, printed in mm.
#[tactic(auto, unfolding(ses_writer::specs::Words::degrees))]
fn put_wide_length(out: &mut Vec<u8>, nm: u128) -> Result<(), AllocError>
    ensures { OnOk result (Appends out.old.items out.new.items (length_word nm)) }
{
    put_wide(out, nm / 1_000_000)?;
    put_fraction(out, nm)
}

/// A length in nm, printed in mm.
pub(crate) fn put_length(out: &mut Vec<u8>, nm: u64) -> Result<(), AllocError>
    ensures { OnOk result (Appends out.old.items out.new.items (length_word nm)) }
{
    put_wide_length(out, u128::from(nm))
}

fn put_sign(out: &mut Vec<u8>, nm: i128) -> Result<(), AllocError>
    ensures { OnOk result (Appends out.old.items out.new.items (sign_word nm)) }
{
    if nm < 0 {
        return put(out, b"-");
    }
    Ok(())
}

/// A coordinate of up to 128 bits in nm, printed in mm.
#[tactic(auto, unfolding(crate::specs::Words::mm_word))]
pub(crate) fn put_mm(out: &mut Vec<u8>, nm: i128) -> Result<(), AllocError>
    ensures { OnOk result (Appends out.old.items out.new.items (mm_word nm)) }
{
    put_sign(out, nm)?;
    put_wide_length(out, nm.unsigned_abs())
}

fn put_coordinate(out: &mut Vec<u8>, nm: i64) -> Result<(), AllocError>
    ensures { OnOk result (Appends out.old.items out.new.items (mm_word nm)) }
{
    put_mm(out, i128::from(nm))
}

/// A point, with a blank before each coordinate.
#[tactic(auto, unfolding(crate::specs::Words::point_words))]
fn put_point(out: &mut Vec<u8>, p: &Point) -> Result<(), AllocError>
    ensures { OnOk result (Appends out.old.items out.new.items (point_words p.now)) }
{
    put(out, b" ")?;
    put_coordinate(out, p.x)?;
    put(out, b" ")?;
    put_coordinate(out, p.y)
}

/// Points, one after another.
pub(crate) fn put_points(out: &mut Vec<u8>, points: &[Point]) -> Result<(), AllocError>
    ensures { OnOk result (Appends out.old.items out.new.items (flat_map point_words points.now)) }
{
    for p in points {
        put_point(out, p)?;
    }
    Ok(())
}

fn put_byte(out: &mut Vec<u8>, b: u8) -> Result<(), AllocError>
    ensures { OnOk result (Appends out.old.items out.new.items (escaped_byte b)) }
{
    if b == b'&' {
        return put(out, b"&amp;");
    }
    if b == b'<' {
        return put(out, b"&lt;");
    }
    if b == b'>' {
        return put(out, b"&gt;");
    }
    if b == b'"' {
        return put(out, b"&quot;");
    }
    if b < 32 {
        return put(out, b"?");
    }
    put(out, &[b])
}

fn is_in(least: u8, most: u8, b: u8) -> bool
    ensures { result ≡ is_in least most b }
{
    least <= b && b <= most
}

fn is_tail(b: u8) -> bool
    ensures { result ≡ is_tail b }
{
    is_in(128, 191, b)
}

fn leads_three(a: u8, b: u8) -> bool
    ensures { result ≡ leads_three a b }
{
    (a == 224 && is_in(160, 191, b))
        || (is_in(225, 236, a) && is_tail(b))
        || (a == 237 && is_in(128, 159, b))
        || (is_in(238, 239, a) && is_tail(b))
}

fn leads_four(a: u8, b: u8) -> bool
    ensures { result ≡ leads_four a b }
{
    (a == 240 && is_in(144, 191, b))
        || (is_in(241, 243, a) && is_tail(b))
        || (a == 244 && is_in(128, 143, b))
}

fn length_by(a: u8, b: u8, c: u8, d: u8) -> usize
    ensures value { result ≡ length_by a b c d }
{
    if a < 128 {
        1
    } else if is_in(194, 223, a) && is_tail(b) {
        2
    } else if leads_three(a, b) && is_tail(c) {
        3
    } else if leads_four(a, b) && (is_tail(c) && is_tail(d)) {
        4
    } else {
        0
    }
}

fn is_no_xml(a: u8, b: u8, c: u8) -> bool
    ensures { result ≡ is_no_xml a b c }
{
    a == 239 && (b == 191 && 190 <= c)
}

// The byte at a place, or 0 behind the last.
fn byte_at(bytes: &[u8], at: usize) -> u8
    ensures { result ≡ slice_index bytes.now at }
{
    match bytes.get(at) {
        Some(b) => *b,
        None => 0,
    }
}

fn char_length(bytes: &[u8]) -> usize
    ensures { result ≡ char_length bytes.now }
{
    length_by(
        byte_at(bytes, 0),
        byte_at(bytes, 1),
        byte_at(bytes, 2),
        byte_at(bytes, 3),
    )
}

// The character of so many bytes at the front, or what stands for it.
fn put_char(out: &mut Vec<u8>, n: usize, bytes: &[u8]) -> Result<(), AllocError>
    ensures { OnOk result (Appends out.old.items out.new.items (char_by n bytes.now)) }
{
    if n == 0 {
        return put(out, b"?");
    }
    if n == 1 {
        return put_byte(out, byte_at(bytes, 0));
    }
    if is_no_xml(byte_at(bytes, 0), byte_at(bytes, 1), byte_at(bytes, 2)) {
        return put(out, b"?");
    }
    put(out, &bytes[..n.min(bytes.len())])
}

// What is put of a name where its next byte stands first, and so many bytes are there already; and how many then are.
fn put_next(out: &mut Vec<u8>, skip: usize, bytes: &[u8]) -> Result<usize, AllocError>
    ensures put { OnOk result (Appends out.old.items out.new.items (next_words skip bytes.now)) }
    ensures skip { IfOk result (λ k. k ≡ next_skip skip bytes.now) }
{
    if skip > 0 {
        return Ok(skip - 1);
    }
    let n = char_length(bytes);
    put_char(out, n, bytes)?;
    Ok(n.saturating_sub(1))
}

/// A name, so that each reader of XML takes it.
fn put_escaped(out: &mut Vec<u8>, name: &[u8]) -> Result<(), AllocError>
    ensures { OnOk result (Appends out.old.items out.new.items (escaped name.now)) }
{
    let mut skip = 0;
    for at in 0..name.len() {
        let (_, rest) = name.split_at(at);
        skip = put_next(out, skip, rest)?;
    }
    Ok(())
}

// ---- several parts at once

/// A part of a picture's text: bytes as they are, a name to be escaped, a number, a length, or points.
#[derive(Clone, Copy)]
pub(crate) enum Part<'a> {
    Text(&'a [u8]),
    Name(&'a [u8]),
    Number(u128),
    Length(u64),
    Wide(u128),
    At(Point),
    Line(&'a [Point]),
}

fn put_part(out: &mut Vec<u8>, part: Part) -> Result<(), AllocError>
    ensures { OnOk result (Appends out.old.items out.new.items (part_word part.entry)) }
{
    match part {
        Part::Text(text) => put(out, text),
        Part::Name(name) => put_escaped(out, name),
        Part::Number(n) => put_wide(out, n),
        Part::Length(nm) => put_length(out, nm),
        Part::Wide(nm) => put_wide_length(out, nm),
        Part::At(p) => put_point(out, &p),
        Part::Line(points) => put_points(out, points),
    }
}

/// Parts, one after another.
pub(crate) fn put_parts(out: &mut Vec<u8>, parts: &[Part]) -> Result<(), AllocError>
    ensures { OnOk result (Appends out.old.items out.new.items (part_words parts.now)) }
{
    for part in parts {
        put_part(out, *part)?;
    }
    Ok(())
}
