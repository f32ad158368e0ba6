//! The tree of a text: words, and groups in brackets.
//! Offsets count the bytes before.

use dsn_tokens::Text;
use geo_kernel::List;

/// A word, or a group of trees in brackets, each with the offset of its first byte.
#[derive(Drop)]
pub enum Tree {
    Word { at: u64, text: Text },
    Group { at: u64, items: List<Tree> },
}
