//! Lists of a tree that are picked out by their heads, and passes over such lists.
//! Each call costs what it goes over; the lists stay where they are in the tree.

ghost use Rattle.std.specs.Prelude.{◌≡◌, [], ◌∷◌, ◌++◌, ◌<◌, length, map, filter, slice_get, IfOk, OnErr, OnOk};
ghost use Rattle.std.specs.Prelude.{count_by};
ghost use Rattle.std.specs.Option.{option_copied};
ghost use Rattle.std.specs.List.{list_any, flat_map};
ghost use Rattle.dsn_tree.specs.Heads.{is_headed, items_of};
ghost use Rattle.dsn_shapes.specs.Lists.{capped, has_head, heads_of, is_note, left_out, left_out_in};
ghost use Rattle.dsn_shapes.specs.Lists.{lists, notes_in, trees_of, words_of};
ghost use Rattle.dsn_shapes.specs.Refusals.{noted};

use crate::known::{ListKind, idle_in, read_in};
use crate::lists::{is_left_out, is_word, refuse_left_out};
use crate::refusal::Refusal;
use dsn_tree::{Tree, is_headed, items};
use std::alloc::{AllocError, Global};
use std::marker::Model;

/// Some lists or words of a tree, from left to right.
#[derive(Drop)]
pub struct Trees<'a> {
    refs: Vec<&'a Tree>,
}

impl<'a> Model for Trees<'a> {
    ghost use Rattle.std.specs.Prelude.{List};
    ghost use Rattle.dsn_tree.specs.declared.tree.Tree.{Tree as TheTree};
    ghost use Rattle.dsn_tree.specs.contracts.tree.Tree as e;
    ghost use Rattle.std.specs.Coded.{codes};
    ghost use Rattle.dsn_shapes.specs.Lists.{trees_of};

    ghost Value = { List TheTree };

    ghost coded = { Prim.hlevel (codes, e.the_row.coded) };

    ghost view = { λ s. trees_of s.refs.items };
}

/// Whether the tree is a list with one of these heads.
pub fn has_head(tree: &Tree, heads: &[&[u8]]) -> bool
    ensures { result ≡ has_head (heads_of heads.now) tree.now }
{
    for head in heads {
        if is_headed(tree, head) {
            return true;
        }
    }
    false
}

impl<'a> Trees<'a> {
    /// No tree.
    pub fn new(alloc: Global) -> Trees<'a>
        ensures { result ≡ [] }
    {
        Trees {
            refs: Vec::new(alloc),
        }
    }

    /// Appends a tree; where memory is wanting, the trees stay as they were.
    pub fn push(&mut self, tree: &'a Tree) -> Result<(), AllocError>
        ensures ok { OnOk result (self.new ≡ self.old ++ tree.now ∷ []) }
        ensures err { OnErr result (self.new ≡ self.old) }
    {
        self.refs.push(tree)?;
        Ok(())
    }

    /// How many trees there are.
    pub fn len(&self) -> usize
        ensures { result ≡ length self.now }
    {
        self.refs.len()
    }

    /// The tree at a place.
    pub fn get(&self, i: usize) -> Option<&'a Tree>
        ensures { option_copied result ≡ slice_get self.now i }
    {
        self.refs.get(i).copied()
    }

    /// The trees as a slice.
    pub fn as_slice(&self) -> &[&'a Tree]
        ensures { trees_of result.now ≡ self.now }
    {
        self.refs.as_slice()
    }

    /// The one tree.
    pub fn one(alloc: Global, tree: &'a Tree) -> Result<Trees<'a>, AllocError>
        ensures { IfOk result (λ s. s ≡ tree.now ∷ []) }
    {
        let mut trees = Trees::new(alloc);
        trees.push(tree)?;
        Ok(trees)
    }

    /// The words of a list: groups between words are skipped.
    pub fn words(alloc: Global, tree: &'a Tree) -> Result<Trees<'a>, AllocError>
        ensures { IfOk result (λ s. s ≡ words_of tree.now) }
    {
        let mut words = Trees::new(alloc);
        for item in items(tree) {
            if is_word(item) {
                words.push(item)?;
            }
        }
        Ok(words)
    }

    /// Appends the lists with one of these heads that stand directly in the tree.
    pub(crate) fn push_lists(&mut self, tree: &'a Tree, heads: &[&[u8]]) -> Result<(), AllocError>
        ensures { OnOk result (self.new ≡ self.old ++ filter (has_head (heads_of heads.now)) (items_of tree.now)) }
    {
        for item in items(tree) {
            if has_head(item, heads) {
                self.push(item)?;
            }
        }
        Ok(())
    }

    /// The lists with one of these heads that stand directly in these lists, from left to right.
    pub fn lists(&self, alloc: Global, heads: &[&[u8]]) -> Result<Trees<'a>, AllocError>
        ensures { IfOk result (λ s. s ≡ lists (heads_of heads.now) self.now) }
    {
        lists_in(alloc, self.as_slice(), heads)
    }

    /// The lists with this head that stand directly in these lists, from left to right.
    pub fn headed(&self, alloc: Global, head: &[u8]) -> Result<Trees<'a>, AllocError>
        ensures { IfOk result (λ s. s ≡ lists (head.now ∷ []) self.now) }
    {
        self.lists(alloc, &[head])
    }

    /// The lists with this head that stand directly in one list.
    pub fn in_list(alloc: Global, tree: &'a Tree, head: &[u8]) -> Result<Trees<'a>, AllocError>
        ensures { IfOk result (λ s. s ≡ lists (head.now ∷ []) (tree.now ∷ [])) }
    {
        Trees::one(alloc, tree)?.headed(alloc, head)
    }
}

#[tactic(auto, unfolding(crate::specs::Lists::lists))]
fn lists_in<'a>(alloc: Global, trees: &[&'a Tree], heads: &[&[u8]]) -> Result<Trees<'a>, AllocError>
    ensures { IfOk result (λ s. s ≡ lists (heads_of heads.now) (trees_of trees.now)) }
{
    let mut found = Trees::new(alloc);
    for tree in trees {
        found.push_lists(tree, heads)?;
    }
    Ok(found)
}

fn refuse_left_out_in(first: &mut Option<Refusal>, tree: &Tree)
    ensures { first.new ≡ noted first.old (flat_map left_out (items_of tree.now)) }
{
    for item in items(tree) {
        refuse_left_out(first, item);
    }
}

fn is_note(tree: &Tree, kind: ListKind) -> bool
    ensures { result ≡ is_note kind tree.now }
{
    !is_word(tree)
        && !is_left_out(tree)
        && !has_head(tree, read_in(kind))
        && !has_head(tree, idle_in(kind))
}

fn notes_of(tree: &Tree, kind: ListKind) -> u64
    ensures { result ≡ count_by (is_note kind) (items_of tree.now) }
{
    let mut notes: u64 = 0;
    for item in items(tree) {
        if is_note(item, kind) {
            notes += 1;
        }
    }
    notes
}

/// Passes over what stands directly in these lists of one kind, beside what is read or known there:
/// refuses the lists that are left out, and counts the others.
pub fn pass_over(first: &mut Option<Refusal>, trees: &Trees, kind: ListKind) -> u64
    ensures noted { first.new ≡ noted first.old (left_out_in trees.now) }
    ensures notes { result ≡ capped (notes_in kind trees.now) }
{
    pass_over_each(first, trees.as_slice(), kind)
}

#[tactic(auto, unfolding(crate::specs::Lists::left_out_in, crate::specs::Lists::notes_in))]
fn pass_over_each(first: &mut Option<Refusal>, trees: &[&Tree], kind: ListKind) -> u64
    ensures noted { first.new ≡ noted first.old (left_out_in (trees_of trees.now)) }
    ensures notes { result ≡ capped (notes_in kind (trees_of trees.now)) }
{
    let mut notes: u64 = 0;
    for tree in trees {
        refuse_left_out_in(first, tree);
        notes = notes.saturating_add(notes_of(tree, kind));
    }
    notes
}
