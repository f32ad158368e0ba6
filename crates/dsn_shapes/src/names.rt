//! An index of the names that lists give: where each is first given.
//! It is an ordered map, so that a design with many names is read in little more than their length.

ghost use Rattle.std.specs.Prelude.{◌≡◌, ℕ, List, IfOk, OnOk, Some, cond, is_some, if◌then◌else◌};
ghost use Rattle.std.specs.Str.{bytes_eq};
ghost use Rattle.dsn_shapes.specs.Index.{place_by};
ghost use Rattle.dsn_shapes.specs.Lists.{heads_of, trees_of};
ghost use Rattle.dsn_shapes.specs.Names.{first_place, given_again, is_at, names_at, place_index, same_names};
ghost use Rattle.dsn_shapes.specs.Refusals.{noted};

use crate::lists::{name_of, place_of};
use crate::refusal::{Refusal, note, refused};
use crate::table::NAMED_TWICE;
use crate::trees::Trees;
use dsn_tree::Tree;
use std::alloc::{AllocError, Global};
use std::collections::BTreeMap;
use std::marker::Model;

/// The names that lists give, in order, with where each first stands.
#[derive(Drop)]
pub struct NameIndex<'a> {
    names: Vec<&'a [u8]>,
    places: BTreeMap<&'a [u8], usize>,
}

impl<'a> Model for NameIndex<'a> {
    ghost use Rattle.std.specs.Prelude.{◌≡◌, ℕ, List};
    ghost use Rattle.dsn_shapes.specs.Index.{place_by};
    ghost use Rattle.dsn_shapes.specs.Lists.{heads_of};
    ghost use Rattle.dsn_shapes.specs.Names.{first_place};

    ghost Value = { List (List ℕ) };

    ghost view = { λ s. heads_of s.names.items };

    ghost invariant = { λ s. (q : List ℕ) → place_by s.places q ≡ first_place q (heads_of s.names.items) };
}

/// A place in a list as an index, which ends at 2^32 - 1.
pub fn place_index(place: usize) -> u32
    ensures { result ≡ place_index place }
{
    place.min(0xFFFF_FFFF) as u32
}

// Keeps the place of a name that has none yet.
fn keep_place<'a>(
    places: &mut BTreeMap<&'a [u8], usize>,
    name: &'a [u8],
    place: usize,
) -> Result<(), AllocError>
    ensures { OnOk result ((q : List ℕ)
        → place_by places.new q
        ≡ (if is_some (place_by places.old name.now) then place_by places.old q
        else cond (bytes_eq name.now q) (Some place) (place_by places.old q))) }
{
    if !places.contains_key(name) {
        places.insert(name, place)?;
    }
    Ok(())
}

fn places_of<'a>(alloc: Global, names: &[&'a [u8]]) -> Result<BTreeMap<&'a [u8], usize>, AllocError>
    ensures { IfOk result (λ places. (q : List ℕ) → place_by places q ≡ first_place q (heads_of names.now)) }
{
    let mut places = BTreeMap::new(alloc);
    for (k, name) in names.iter().enumerate() {
        keep_place(&mut places, name, k)?;
    }
    Ok(places)
}

fn index_of<'a>(alloc: Global, trees: &[&'a Tree], i: usize) -> Result<NameIndex<'a>, AllocError>
    ensures { IfOk result (λ x. x ≡ names_at i (trees_of trees.now)) }
{
    let mut names = Vec::new(alloc);
    for tree in trees {
        names.push(name_of(tree, i))?;
    }
    NameIndex::of(alloc, names)
}

impl<'a> NameIndex<'a> {
    /// The index of the names that word `i` of these lists gives.
    pub fn new(alloc: Global, trees: &Trees<'a>, i: usize) -> Result<NameIndex<'a>, AllocError>
        ensures { IfOk result (λ x. x ≡ names_at i trees.now) }
    {
        index_of(alloc, trees.as_slice(), i)
    }

    /// The index of these names.
    pub fn of(alloc: Global, names: Vec<&'a [u8]>) -> Result<NameIndex<'a>, AllocError>
        ensures { IfOk result (λ x. x ≡ heads_of names.entry.items) }
    {
        match places_of(alloc, names.as_slice()) {
            Ok(places) => Ok(NameIndex { names, places }),
            Err(error) => {
                drop(names);
                Err(error)
            }
        }
    }

    /// Where a name first stands among them.
    pub fn first_place(&self, name: &[u8]) -> Option<usize>
        ensures { result ≡ first_place name.now self.now }
    {
        self.places.get(name).copied()
    }

    /// Refuses each list of the index whose name an earlier one gives; `trees` are those that the index is of.
    pub fn refuse_same(&self, first: &mut Option<Refusal>, trees: &Trees, i: usize)
        ensures { first.new ≡ noted first.old (given_again i self.now 0 trees.now) }
    {
        refuse_again(self, first, trees.as_slice(), i);
    }
}

fn refuse_again(index: &NameIndex, first: &mut Option<Refusal>, trees: &[&Tree], i: usize)
    ensures { first.new ≡ noted first.old (given_again i index.now 0 (trees_of trees.now)) }
{
    for (k, tree) in trees.iter().enumerate() {
        let place = index.first_place(name_of(tree, i));
        if place != Some(k) {
            note(first, refused(NAMED_TWICE, place_of(tree, i)));
        }
    }
}
