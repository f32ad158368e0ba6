//! Lists of a tree: their words, names and places, lists that are left out, and notes.
//! Source: SPECCTRA reference, descriptors; the profile reads some and passes over the others.

ghost use Rattle.std.specs.Prelude.{◌≡◌, ◌∷◌, ◌==◌, ◌||◌, count_by, map, filter};
ghost use Rattle.std.specs.Option.{option_copied};
ghost use Rattle.std.specs.List.{flat_map, list_any};
ghost use Rattle.dsn_tree.specs.Heads.{is_headed, items_of};
ghost use Rattle.dsn_shapes.specs.Lists.{at_of, is_left_out, is_word, left_out, name_of, nth_word};
ghost use Rattle.dsn_shapes.specs.Lists.{place_of, quoted_name, says, text_of};
ghost use Rattle.dsn_shapes.specs.Refusals.{noted};

use crate::refusal::{Refusal, note, refused};
use crate::table::LEFT_OUT;
use dsn_tree::{Tree, is_headed, items};

/// The byte offset of a tree.
pub fn at_of(tree: &Tree) -> u64
    ensures { result ≡ at_of tree.now }
{
    match tree {
        Tree::Word { at, .. } => *at,
        Tree::Group { at, .. } => *at,
    }
}

/// Whether the tree is a word.
pub fn is_word(tree: &Tree) -> bool
    ensures { result ≡ is_word tree.now }
{
    match tree {
        Tree::Word { .. } => true,
        Tree::Group { .. } => false,
    }
}

/// The text of a word; a group has none.
pub fn text_of(tree: &Tree) -> &[u8]
    ensures { result.now ≡ text_of tree.now }
{
    match tree {
        Tree::Word { text, .. } => text.as_slice(),
        Tree::Group { .. } => &[],
    }
}

/// Word `i` of a list, whose head is word 0; groups between words are skipped.
pub fn nth_word(tree: &Tree, i: usize) -> Option<&Tree>
    ensures { option_copied result ≡ nth_word tree.now i }
{
    let mut left = i;
    for item in items(tree) {
        if is_word(item) {
            if left == 0 {
                return Some(item);
            }
            left -= 1;
        }
    }
    None
}

/// The offset of word `i`, or else of the list.
pub fn place_of(tree: &Tree, i: usize) -> u64
    ensures { result ≡ place_of tree.now i }
{
    match nth_word(tree, i) {
        Some(word) => at_of(word),
        None => at_of(tree),
    }
}

/// Word `i` as a name; one that isn't there is the empty name.
pub fn name_of(tree: &Tree, i: usize) -> &[u8]
    ensures { result.now ≡ name_of tree.now i }
{
    match nth_word(tree, i) {
        Some(word) => text_of(word),
        None => &[],
    }
}

/// Whether word `i` is this keyword, in any case of letters.
pub fn says(tree: &Tree, i: usize, keyword: &[u8]) -> bool
    ensures { result ≡ says tree.now i keyword.now }
{
    match nth_word(tree, i) {
        Some(word) => text_of(word).eq_ignore_ascii_case(keyword),
        None => false,
    }
}

/// Refuses a name that is given by word `i` and that a session can't print.
pub fn refuse_quoted_name(first: &mut Option<Refusal>, tree: &Tree, i: usize)
    ensures { first.new ≡ noted first.old (quoted_name tree.now i) }
{
    if name_of(tree, i).contains(&b'"') {
        note(first, refused(LEFT_OUT, place_of(tree, i)));
    }
}

/// Whether the profile leaves the list out.
pub fn is_left_out(tree: &Tree) -> bool
    ensures { result ≡ is_left_out tree.now }
{
    is_headed(tree, b"qarc")
        || is_headed(tree, b"polyline_path")
        || is_headed(tree, b"layer_rule")
        || is_headed(tree, b"region")
        || is_headed(tree, b"absolute") && says(tree, 1, b"on")
}

/// Refuses a list that the profile leaves out.
pub fn refuse_left_out(first: &mut Option<Refusal>, tree: &Tree)
    ensures { first.new ≡ noted first.old (left_out tree.now) }
{
    if is_left_out(tree) {
        note(first, refused(LEFT_OUT, place_of(tree, 0)));
    }
}
