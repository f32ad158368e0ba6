//! Reading the tree of a text.
//! A group is read by a call of its own, so that calls nest as deep as brackets may.

ghost use Rattle.std.specs.Prelude.{[], ◌∷◌, ◌++◌, IfOk, OnOk, ◌≡◌, ◌<◌, ◌≤◌, ◌-◌, ◌^◌, length};
ghost use Rattle.dsn_tree.specs.Groups.{ReadsGroup};
ghost use Rattle.dsn_tree.specs.Trees.{ReadsTree};

use crate::fault::{TreeFault, fault_of};
use crate::limits::MOST_DEPTH;
use crate::tree::Tree;
use dsn_tokens::{Lexer, Mark, Token, each_read};
use geo_kernel::List;
use std::alloc::{AllocError, Global};

/// Appends a tree.
fn append(items: &mut List<Tree>, tree: Tree) -> Result<(), AllocError>
    ensures { OnOk result (items.new ≡ items.old ++ tree ∷ []) }
{
    items.push(tree)?;
    Ok(())
}

/// A list with room for one tree, since most groups are short.
fn short_list(alloc: Global) -> Result<List<Tree>, AllocError>
    ensures { IfOk result (λ items. items ≡ []) }
{
    let items = Vec::with_capacity(alloc, 1)?;
    Ok(List::from_vec(items))
}

/// The items of the group that is opened at `at`, through its closing bracket, with `room` for deeper groups in it.
fn rest_of_group(
    alloc: Global,
    lexer: &mut Lexer,
    at: u64,
    room: usize,
) -> Result<List<Tree>, TreeFault>
    requires { room ≤ MOST_DEPTH - 1 }
    ensures { ReadsGroup lexer.old at room result lexer.new }
{
    let mut items = short_list(alloc)?;
    loop {
        let token = match lexer.next() {
            Ok(Some(token)) => token,
            Ok(None) => return Err(TreeFault::Unclosed { at }),
            Err(fault) => return Err(fault_of(fault)),
        };
        let Token { at: inner, mark } = token;
        let tree = match mark {
            Mark::Right => return Ok(items),
            Mark::Word(text) => Tree::Word { at: inner, text },
            Mark::Left => {
                if room == 0 {
                    each_read();
                    return Err(TreeFault::TooDeep { at: inner });
                }
                let inside = match rest_of_group(alloc, lexer, inner, room - 1) {
                    Ok(inside) => inside,
                    Err(fault) => return Err(fault),
                };
                Tree::Group {
                    at: inner,
                    items: inside,
                }
            }
        };
        append(&mut items, tree)?;
    }
}

/// The tree of a text that is one group.
///
/// # Errors
///
/// The fault that is met first from left to right, or want of memory.
pub fn read_tree(alloc: Global, text: &[u8]) -> Result<Tree, TreeFault>
    ensures { ReadsTree text.now result }
{
    let mut lexer = Lexer::new(alloc, text);
    let first = match lexer.next() {
        Ok(Some(token)) => token,
        Ok(None) => return Err(TreeFault::Empty),
        Err(fault) => return Err(fault_of(fault)),
    };
    let Token { at, mark } = first;
    match mark {
        Mark::Left => {}
        _ => {
            each_read();
            return Err(TreeFault::Surplus { at });
        }
    }
    let items = match rest_of_group(alloc, &mut lexer, at, MOST_DEPTH - 1) {
        Ok(items) => items,
        Err(fault) => return Err(fault),
    };
    match lexer.next() {
        Ok(None) => Ok(Tree::Group { at, items }),
        Ok(Some(token)) => {
            each_read();
            Err(TreeFault::Surplus { at: token.at })
        }
        Err(fault) => Err(fault_of(fault)),
    }
}
