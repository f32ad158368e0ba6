//! Values from outside: texts with their trees and faults.
//! The contracts cover all other texts.

use dsn_tree::{Tree, TreeFault, child, children, is_headed, items, read_tree, word};
use std::alloc::Global;

/// The tree of a text, with no contract, so that the proofs of its callers are short.
fn read(alloc: Global, text: &[u8]) -> Result<Tree, TreeFault> {
    read_tree(alloc, text)
}

fn place_of(tree: &Tree) -> u64 {
    match tree {
        Tree::Word { at, .. } | Tree::Group { at, .. } => *at,
    }
}

/// A board with two pins and two layers.
const BOARD: &str = "(pcb T
  (parser (string_quote \") (host_cad KiCad) (host_version 8))
  (resolution um 10)
  (unit um)
  (structure
    (layer F.Cu (type signal))
    (layer B.Cu (type signal))
    (boundary (rect pcb 0 0 10000 10000))
    (via V)
    (rule (width 200) (clearance 200)))
  (placement (component P
    (place C1 2000 5000 front 0)
    (place C2 8000 5000 front 0)))
  (library
    (image P (pin PAD 1 0 0))
    (padstack PAD (shape (circle F.Cu 1000)) (shape (circle B.Cu 1000)))
    (padstack V (shape (circle F.Cu 600)) (shape (circle B.Cu 600))))
  (network (net A (pins C1-1 C2-1)))
  (wiring))";

/// Whether item `i` of the tree is that word, at that place.
fn is_word(tree: &Tree, i: usize, text: &str, place: u64) -> bool {
    match (items(tree).get(i), word(tree, i)) {
        (Some(item), Some(word)) => place_of(item) == place && word.as_slice() == text.as_bytes(),
        _ => false,
    }
}

/// A text, the place of its group and how many items that has, and one of them: which, the word, and its place.
type Row = (&'static str, u64, usize, usize, &'static str, u64);

fn is_read(alloc: Global, row: &Row) -> bool {
    let (text, place, count, i, word, at) = *row;
    match read(alloc, text.as_bytes()) {
        Ok(tree) => {
            place_of(&tree) == place && items(&tree).len() == count && is_word(&tree, i, word, at)
        }
        Err(_) => false,
    }
}

static ROWS: [Row; 7] = [
    ("(a \"b c\"d)", 0, 2, 0, "a", 1),
    ("(a \"b c\"d)", 0, 2, 1, "b cd", 3),
    ("# (\n(a)", 4, 1, 0, "a", 5),
    ("((a) string_quote % string_quote\"\" %)", 0, 5, 4, "%", 35),
    ("(p (string_quote ') 'J-1'-2 \"x\")", 0, 4, 2, "J-1-2", 20),
    ("(p (string_quote ') 'J-1'-2 \"x\")", 0, 4, 3, "\"x\"", 28),
    (BOARD, 0, 10, 1, "T", 5),
];

#[test]
fn a_text_is_one_group_whose_words_have_their_places_and_lose_the_quoting_byte(rt: HostRuntime) {
    for row in &ROWS {
        assert!(rt; is_read(rt.alloc(), row));
    }
}

/// Whether the text has no tree, but a fault with that sentence.
fn tells(alloc: Global, text: &[u8], sentence: &str) -> bool {
    match read(alloc, text) {
        Ok(_) => false,
        Err(fault) => match format!(in alloc; "{fault}") {
            Ok(told) => told.as_str() == sentence,
            Err(_) => false,
        },
    }
}

/// As many brackets as may be open, and one more.
const DEEPEST: &str = "((((((((((((((((((((((((((((((((((((((((((((((((((((((((((((((((";

const DEEPER: &str = "(((((((((((((((((((((((((((((((((((((((((((((((((((((((((((((((((";

static FAULTS: [(&str, &str); 14] = [
    ("a (b)", "the token at byte 0 stands outside the group"),
    ("(a) (b)", "the token at byte 4 stands outside the group"),
    ("(a) b", "the token at byte 4 stands outside the group"),
    (")", "the token at byte 0 stands outside the group"),
    ("(a))", "the token at byte 3 stands outside the group"),
    (
        "(pcb \"K board.dsn\" (string_quote \") (host_cad \"KiCad's",
        "the quoted text opened at byte 46 has no end",
    ),
    ("(a) b\"c", "the quoted text opened at byte 5 has no end"),
    ("a\"", "the quoted text opened at byte 1 has no end"),
    (
        "(string_quote %)",
        "the byte at 14 can't become the quoting byte",
    ),
    (
        "(String_Quote \n # \"",
        "the byte at 16 can't become the quoting byte",
    ),
    (
        "(string_quote(",
        "the byte at 13 can't become the quoting byte",
    ),
    (" # (a)", "there is no token"),
    (DEEPEST, "the bracket at byte 63 is not closed"),
    (DEEPER, "the bracket at byte 64 is too deep"),
];

#[test]
fn each_fault_tells_where_it_is_met_first(rt: HostRuntime) {
    for &(text, sentence) in &FAULTS {
        assert!(rt; tells(rt.alloc(), text.as_bytes(), sentence), "{text}");
    }
}

/// Whether the two groups `structure` of the text below are found by their heads, and no third.
fn has_both(tree: &Tree) -> bool {
    match (child(tree, b"structure"), children(tree, b"structure", 3)) {
        (Some(first), Some((4, second))) => {
            is_headed(first, b"structure")
                && is_word(first, 1, "1", 18)
                && is_word(second, 2, "a b", 60)
                && children(tree, b"structure", 5).is_none()
        }
        _ => false,
    }
}

#[test]
fn a_group_is_found_by_its_head_in_any_case(rt: HostRuntime) {
    let text = "(pcb x (STRUCTURE 1) (parser (string_quote $)) (structure 2 $a b$))";
    let tree = read(rt.alloc(), text.as_bytes())
        .ok()
        .expect(&rt, "no tree");
    assert!(rt; has_both(&tree));
}
