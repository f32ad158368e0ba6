//! Numbers that are wanted in a list: coordinates and widths in nm.
//! A word that is no decimal or passes its limit, or an absent one, is refused with 2.

ghost use Rattle.std.specs.Prelude.{◌≡◌, ◌≤◌};
ghost use Rattle.dsn_shapes.specs.Refusals.{noted};
ghost use Rattle.ses_reader.specs.Measures.{coord_at, coord_refusal, extent_at, extent_refusal, refused_unless};
ghost use Rattle.ses_reader.specs.Measures.{word_coord, word_refusal};

use crate::measure::{Measure, coord, extent};
use crate::table::NO_MEASURE;
use dsn_shapes::{Refusal, at_of, note, nth_word, place_of, refused, text_of};
use dsn_tree::Tree;
use dsn_units::read_decimal;

/// Refuses what doesn't hold.
pub(crate) fn note_unless(first: &mut Option<Refusal>, holds: bool, number: u8, at: u64)
    ensures { first.new ≡ noted first.old (refused_unless holds number at) }
{
    if !holds {
        note(first, refused(number, at));
    }
}

fn word_coord(word: &Tree, m: Measure) -> Option<i64>
    requires { 1 ≤ m.per }
    ensures { result ≡ word_coord m word.now }
{
    match read_decimal(text_of(word)) {
        Some(decimal) => coord(&decimal, m),
        None => None,
    }
}

/// The word as a coordinate; None where it is refused.
pub(crate) fn note_word(first: &mut Option<Refusal>, word: &Tree, m: Measure) -> Option<i64>
    requires { 1 ≤ m.per }
    ensures noted { first.new ≡ noted first.old (word_refusal m word.now) }
    ensures value { result ≡ word_coord m word.now }
{
    let coord = word_coord(word, m);
    note_unless(first, coord.is_some(), NO_MEASURE, at_of(word));
    coord
}

fn coord_at(tree: &Tree, i: usize, m: Measure) -> Option<i64>
    requires { 1 ≤ m.per }
    ensures { result ≡ coord_at m tree.now i }
{
    match nth_word(tree, i) {
        Some(word) => word_coord(word, m),
        None => None,
    }
}

fn extent_at(tree: &Tree, i: usize, m: Measure) -> Option<u64>
    requires { 1 ≤ m.per }
    ensures { result ≡ extent_at m tree.now i }
{
    match nth_word(tree, i) {
        Some(word) => match read_decimal(text_of(word)) {
            Some(decimal) => extent(&decimal, m),
            None => None,
        },
        None => None,
    }
}

/// Word `i`, which is wanted, as a coordinate; None where it is refused.
pub(crate) fn note_coord(
    first: &mut Option<Refusal>,
    tree: &Tree,
    i: usize,
    m: Measure,
) -> Option<i64>
    requires { 1 ≤ m.per }
    ensures noted { first.new ≡ noted first.old (coord_refusal m tree.now i) }
    ensures value { result ≡ coord_at m tree.now i }
{
    let coord = coord_at(tree, i, m);
    note_unless(first, coord.is_some(), NO_MEASURE, place_of(tree, i));
    coord
}

/// Word `i`, which is wanted, as a width; None where it is refused.
pub(crate) fn note_extent(
    first: &mut Option<Refusal>,
    tree: &Tree,
    i: usize,
    m: Measure,
) -> Option<u64>
    requires { 1 ≤ m.per }
    ensures noted { first.new ≡ noted first.old (extent_refusal m tree.now i) }
    ensures value { result ≡ extent_at m tree.now i }
{
    let extent = extent_at(tree, i, m);
    note_unless(first, extent.is_some(), NO_MEASURE, place_of(tree, i));
    extent
}
