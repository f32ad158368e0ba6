//! Classes of nets: the padstacks of their vias, and their rules.
//! Source: SPECCTRA reference, class and circuit descriptors.

ghost use Rattle.std.specs.Prelude.{◌≡◌, ◌∷◌, [], map, sum_by, IfOk, OnOk};
ghost use Rattle.std.specs.List.{flat_map};
ghost use Rattle.dsn_shapes.specs.Lists.{capped, trees_of};
ghost use Rattle.dsn_shapes.specs.Refusals.{noted};
ghost use Rattle.dsn_shapes.specs.Rules.{rule_notes};
ghost use Rattle.dsn_network.specs.Words.{rules_in};
ghost use Rattle.dsn_network.specs.Whole.{rules_passed};
ghost use Rattle.dsn_network.specs.Classes.{class_refusals, read_class_of, unknown_via, via_refusals};
ghost use Rattle.dsn_network.specs.Classes.{via_stack, vias_of};

use crate::words::{rules_of, words_in};
use dsn_shapes::table::NO_PADSTACK;
use dsn_shapes::{
    NameIndex, ReadClass, Refusal, Rules, Trees, at_of, note, place_index, refused, text_of,
};
use dsn_tree::Tree;
use dsn_units::Scale;
use geo_kernel::List;
use std::alloc::{AllocError, Global};

// The padstack that a word names, by its index.
fn via_stack(first: &mut Option<Refusal>, word: &Tree, stacks: &NameIndex) -> u32
    ensures noted { first.new ≡ noted first.old (unknown_via stacks.now word.now) }
    ensures value { result ≡ via_stack stacks.now word.now }
{
    match stacks.first_place(text_of(word)) {
        Some(place) => place_index(place),
        None => {
            note(first, refused(NO_PADSTACK, at_of(word)));
            0
        }
    }
}

fn via_stacks(
    alloc: Global,
    first: &mut Option<Refusal>,
    words: &[&Tree],
    stacks: &NameIndex,
) -> Result<List<u32>, AllocError>
    ensures noted { OnOk result (first.new ≡ noted first.old (flat_map (unknown_via stacks.now) (trees_of words.now))) }
    ensures value { IfOk result (λ v. v ≡ map (via_stack stacks.now) (trees_of words.now)) }
{
    let mut vias = List::new(alloc);
    for word in words {
        let via = via_stack(first, word, stacks);
        vias.push(via)?;
    }
    Ok(vias)
}

// The vias of some `use_via` lists, of which there may be none.
#[tactic(auto, unfolding(crate::specs::Classes::vias_of, crate::specs::Classes::via_refusals))]
fn vias_of(
    alloc: Global,
    first: &mut Option<Refusal>,
    lists: &Trees,
    stacks: &NameIndex,
) -> Result<Option<List<u32>>, AllocError>
    ensures noted { OnOk result (first.new ≡ noted first.old (via_refusals stacks.now lists.now)) }
    ensures value { IfOk result (λ v. v ≡ vias_of stacks.now lists.now) }
{
    let words = words_in(alloc, lists, 1)?;
    let vias = via_stacks(alloc, first, words.as_slice(), stacks);
    drop(words);
    let vias = vias?;
    if lists.len() == 0 {
        drop(vias);
        Ok(None)
    } else {
        Ok(Some(vias))
    }
}

// A class, and how many lists of its rules were passed over.
#[derive(Drop)]
struct Counted {
    class: ReadClass,
    notes: u64,
}

#[tactic(auto, unfolding(crate::specs::Classes::read_class_of, crate::specs::Classes::class_refusals))]
fn read_class(
    alloc: Global,
    first: &mut Option<Refusal>,
    tree: &Tree,
    stacks: &NameIndex,
    scale: Scale,
) -> Result<Counted, AllocError>
    ensures noted { OnOk result (first.new ≡ noted first.old (class_refusals scale.nm stacks.now tree.now)) }
    ensures class { IfOk result (λ v. v.class ≡ read_class_of scale.nm stacks.now tree.now) }
    ensures notes { IfOk result (λ v. v.notes ≡ capped (rule_notes (rules_in (tree.now ∷ [])))) }
{
    let lists = Trees::in_list(alloc, tree, b"circuit")?.headed(alloc, b"use_via")?;
    let vias = match vias_of(alloc, first, &lists, stacks) {
        Ok(vias) => {
            drop(lists);
            vias
        }
        Err(error) => {
            drop(lists);
            return Err(error);
        }
    };
    match rules_of(alloc, first, tree, scale) {
        Ok(Rules { set, notes }) => Ok(Counted {
            class: ReadClass { vias, rules: set },
            notes,
        }),
        Err(error) => {
            drop(vias);
            Err(error)
        }
    }
}

/// Classes, and how many lists of their rules were passed over.
#[derive(Drop)]
pub(crate) struct Classes {
    pub(crate) classes: List<ReadClass>,
    pub(crate) notes: u64,
}

/// All classes of a network, where the padstacks have the names of the index.
pub(crate) fn read_classes(
    alloc: Global,
    first: &mut Option<Refusal>,
    lists: &Trees,
    stacks: &NameIndex,
    scale: Scale,
) -> Result<Classes, AllocError>
    ensures noted { OnOk result
        (first.new ≡ noted first.old (flat_map (class_refusals scale.nm stacks.now) lists.now)) }
    ensures classes { IfOk result (λ v. v.classes ≡ map (read_class_of scale.nm stacks.now) lists.now) }
    ensures notes { IfOk result (λ v. v.notes ≡ capped (rules_passed lists.now)) }
{
    let trees = lists.as_slice();
    let mut classes = List::new(alloc);
    let mut notes: u64 = 0;
    for tree in trees {
        let read = read_class(alloc, first, tree, stacks, scale)?;
        classes.push(read.class)?;
        notes = notes.saturating_add(read.notes);
    }
    Ok(Classes { classes, notes })
}
