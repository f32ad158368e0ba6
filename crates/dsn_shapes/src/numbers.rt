//! Numbers that are wanted in a list: coordinates and extents in nm.
//! A word that is no decimal, or an absent one, is refused with 9, and one beyond its limit with 10.

ghost use Rattle.std.specs.Prelude.{◌≡◌};
ghost use Rattle.dsn_shapes.specs.Numbers.{coord_at, coord_refusal, extent_at, extent_refusal, word_coord};
ghost use Rattle.dsn_shapes.specs.Numbers.{word_coord_refusal, word_extent, word_extent_refusal};
ghost use Rattle.dsn_shapes.specs.Refusals.{noted};

use crate::lists::{at_of, nth_word, text_of};
use crate::refusal::{Refusal, note, refused};
use crate::table::{NO_NUMBER, OUT_OF_RANGE};
use dsn_tree::Tree;
use dsn_units::{Scale, coord, extent, read_decimal};

/// The word as a coordinate, the nearest nm; None where it is refused.
pub fn coord_in(first: &mut Option<Refusal>, word: &Tree, s: Scale) -> Option<i64>
    ensures noted { first.new ≡ noted first.old (word_coord_refusal s.nm word.now) }
    ensures value { result ≡ word_coord s.nm word.now }
{
    let Some(decimal) = read_decimal(text_of(word)) else {
        note(first, refused(NO_NUMBER, at_of(word)));
        return None;
    };
    match coord(&decimal, s) {
        Ok(value) => Some(value),
        Err(_) => {
            note(first, refused(OUT_OF_RANGE, at_of(word)));
            None
        }
    }
}

/// The word as a width, diameter or clearance, the least nm not below it; None where it is refused.
pub fn extent_in(first: &mut Option<Refusal>, word: &Tree, s: Scale) -> Option<u64>
    ensures noted { first.new ≡ noted first.old (word_extent_refusal s.nm word.now) }
    ensures value { result ≡ word_extent s.nm word.now }
{
    let Some(decimal) = read_decimal(text_of(word)) else {
        note(first, refused(NO_NUMBER, at_of(word)));
        return None;
    };
    match extent(&decimal, s) {
        Ok(value) => Some(value),
        Err(_) => {
            note(first, refused(OUT_OF_RANGE, at_of(word)));
            None
        }
    }
}

/// The word as a width in nm, without a refusal.
pub(crate) fn peek_extent(word: &Tree, s: Scale) -> Option<u64>
    ensures { result ≡ word_extent s.nm word.now }
{
    let Some(decimal) = read_decimal(text_of(word)) else {
        return None;
    };
    match extent(&decimal, s) {
        Ok(value) => Some(value),
        Err(_) => None,
    }
}

/// Word `i`, which is wanted, as a coordinate in nm; 0 where it is refused.
pub fn coord_at(first: &mut Option<Refusal>, tree: &Tree, i: usize, s: Scale) -> i64
    ensures noted { first.new ≡ noted first.old (coord_refusal s.nm tree.now i) }
    ensures value { result ≡ coord_at s.nm tree.now i }
{
    match nth_word(tree, i) {
        Some(word) => match coord_in(first, word, s) {
            Some(value) => value,
            None => 0,
        },
        None => {
            note(first, refused(NO_NUMBER, at_of(tree)));
            0
        }
    }
}

/// Word `i`, which is wanted, as a width, diameter or clearance in nm; 0 where it is refused.
pub fn extent_at(first: &mut Option<Refusal>, tree: &Tree, i: usize, s: Scale) -> u64
    ensures noted { first.new ≡ noted first.old (extent_refusal s.nm tree.now i) }
    ensures value { result ≡ extent_at s.nm tree.now i }
{
    match nth_word(tree, i) {
        Some(word) => match extent_in(first, word, s) {
            Some(value) => value,
            None => 0,
        },
        None => {
            note(first, refused(NO_NUMBER, at_of(tree)));
            0
        }
    }
}
