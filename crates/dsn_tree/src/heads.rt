//! Look-ups in the items of a group.
//! A word has no items, so that a look-up in it finds nothing.

ghost use Rattle.std.specs.Prelude.{◌≡◌};
ghost use Rattle.std.specs.Option.{option_copied};
ghost use Rattle.dsn_tree.specs.Heads.{child, children, is_headed, placed, items_of, word};

use crate::tree::Tree;
use dsn_tokens::Text;

/// The items of a group, from left to right.
pub fn items(tree: &Tree) -> &[Tree]
    ensures { result.now ≡ items_of tree.now }
{
    match tree {
        Tree::Word { .. } => &[],
        Tree::Group { items, .. } => items.as_slice(),
    }
}

/// Item `i` of a group where it is a word.
pub fn word(tree: &Tree, i: usize) -> Option<&Text>
    ensures { option_copied result ≡ word tree.now i }
{
    match items(tree).get(i) {
        Some(Tree::Word { text, .. }) => Some(text),
        _ => None,
    }
}

/// Whether the tree is a group whose first item is this word, in any case of letters.
pub fn is_headed(tree: &Tree, head: &[u8]) -> bool
    ensures { result ≡ is_headed head.now tree.now }
{
    match word(tree, 0) {
        Some(text) => text.as_slice().eq_ignore_ascii_case(head),
        None => false,
    }
}

/// The first group among the items that has this head.
pub fn child<'a>(tree: &'a Tree, head: &[u8]) -> Option<&'a Tree>
    ensures { option_copied result ≡ child tree.now head.now }
{
    let all = items(tree);
    for item in all {
        if is_headed(item, head) {
            return Some(item);
        }
    }
    None
}

/// The first group with this head among the items from `from` on, with its place.
pub fn children<'a>(tree: &'a Tree, head: &[u8], from: usize) -> Option<(usize, &'a Tree)>
    ensures { placed result ≡ children tree.now head.now from }
{
    let all = items(tree);
    for i in from..all.len() {
        if is_headed(&all[i], head) {
            return Some((i, &all[i]));
        }
    }
    None
}
