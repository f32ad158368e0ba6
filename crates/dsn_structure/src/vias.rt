//! The via padstacks of a structure, and its switches.
//! Source: SPECCTRA reference, via, control and place_control descriptors.

ghost use Rattle.std.specs.Prelude.{◌≡◌, ◌∷◌, ◌++◌, [], map, IfOk, OnOk};
ghost use Rattle.std.specs.List.{flat_map};
ghost use Rattle.dsn_shapes.specs.Lists.{lists, text_of, trees_of};
ghost use Rattle.dsn_shapes.specs.Names.{names_at};
ghost use Rattle.dsn_shapes.specs.Refusals.{noted};
ghost use Rattle.dsn_structure.specs.Layout.{any_says, controls, flip_last, names_in, padstacks, via_at_smd};
ghost use Rattle.dsn_structure.specs.Layout.{via_lists, via_names, via_refusal, via_refusals, via_words};

use dsn_shapes::table::NO_PADSTACK;
use dsn_shapes::{NameIndex, Refusal, Trees, at_of, is_word, note, refused, says, text_of};
use dsn_tree::{Tree, items};
use geo_kernel::{List, Name};
use std::alloc::{AllocError, Global};

/// The lists with this head that stand directly in these lists.
pub(crate) fn headed_in<'a>(
    alloc: Global,
    trees: Trees<'a>,
    head: &[u8],
) -> Result<Trees<'a>, AllocError>
    ensures { IfOk result (λ ts. ts ≡ lists (head.now ∷ []) trees.entry) }
{
    let found = trees.headed(alloc, head);
    drop(trees);
    found
}

// Appends the words behind the head of a list.
fn push_names<'a>(found: &mut Trees<'a>, tree: &'a Tree) -> Result<(), AllocError>
    ensures { OnOk result (found.new ≡ found.old ++ names_in tree.now) }
{
    if let [_, rest @ ..] = items(tree) {
        for item in rest {
            if is_word(item) {
                found.push(item)?;
            }
        }
    }
    Ok(())
}

fn via_words<'a>(alloc: Global, lists: &[&'a Tree]) -> Result<Trees<'a>, AllocError>
    ensures { IfOk result (λ ts. ts ≡ via_words (trees_of lists.now)) }
{
    let mut found = Trees::new(alloc);
    for tree in lists {
        push_names(&mut found, tree)?;
    }
    Ok(found)
}

fn refuse_unknown_via(first: &mut Option<Refusal>, word: &Tree, known: &NameIndex)
    ensures { first.new ≡ noted first.old (via_refusal known.now word.now) }
{
    if known.first_place(text_of(word)).is_none() {
        note(first, refused(NO_PADSTACK, at_of(word)));
    }
}

fn copy_vias(
    alloc: Global,
    first: &mut Option<Refusal>,
    words: &[&Tree],
    known: &NameIndex,
) -> Result<List<Name>, AllocError>
    ensures noted { OnOk result (first.new ≡ noted first.old (flat_map (via_refusal known.now) (trees_of words.now))) }
    ensures value { IfOk result (λ ns. ns ≡ map text_of (trees_of words.now)) }
{
    let mut names = List::new(alloc);
    for word in words {
        refuse_unknown_via(first, word, known);
        names.push(List::from_slice(alloc, text_of(word))?)?;
    }
    Ok(names)
}

// The index of the names of the library's padstacks.
fn padstack_names<'a>(alloc: Global, pcb: &'a Tree) -> Result<NameIndex<'a>, AllocError>
    ensures { IfOk result (λ x. x ≡ names_at 1 (padstacks pcb.now)) }
{
    let libraries = Trees::in_list(alloc, pcb, b"library")?;
    let stacks = headed_in(alloc, libraries, b"padstack")?;
    NameIndex::new(alloc, &stacks, 1)
}

// The padstacks of the via lists, each of which the library has.
#[tactic(auto, unfolding(crate::specs::Layout::via_refusals, crate::specs::Layout::via_names))]
fn read_vias(
    alloc: Global,
    first: &mut Option<Refusal>,
    pcb: &Tree,
    structs: &Trees,
) -> Result<List<Name>, AllocError>
    ensures noted { OnOk result
        (first.new ≡ noted first.old (via_refusals (names_at 1 (padstacks pcb.now)) (via_lists structs.now))) }
    ensures value { IfOk result (λ ns. ns ≡ via_names (via_lists structs.now)) }
{
    let lists = structs.headed(alloc, b"via")?;
    let words = via_words(alloc, lists.as_slice())?;
    let known = padstack_names(alloc, pcb)?;
    copy_vias(alloc, first, words.as_slice(), &known)
}

#[tactic(auto, unfolding(crate::specs::Layout::any_says))]
fn any_says(trees: &[&Tree], keyword: &[u8]) -> bool
    ensures { result ≡ any_says keyword.now (trees_of trees.now) }
{
    for tree in trees {
        if says(tree, 1, keyword) {
            return true;
        }
    }
    false
}

// `(control (via_at_smd on))`.
#[tactic(auto, unfolding(crate::specs::Layout::via_at_smd))]
fn via_at_smd(alloc: Global, structs: &Trees) -> Result<bool, AllocError>
    ensures { IfOk result (λ b. b ≡ via_at_smd (controls structs.now)) }
{
    let ctrls = structs.headed(alloc, b"control")?;
    let switches = headed_in(alloc, ctrls, b"via_at_smd")?;
    Ok(any_says(switches.as_slice(), b"on"))
}

// `(place_control (flip_style rotate_first))` in the structure or the placement.
#[tactic(auto, unfolding(crate::specs::Layout::flip_last))]
fn flip_last(alloc: Global, pcb: &Tree) -> Result<bool, AllocError>
    ensures { IfOk result (λ b. b ≡ flip_last pcb.now) }
{
    let heads: [&[u8]; 2] = [b"structure", b"placement"];
    let sections = Trees::one(alloc, pcb)?.lists(alloc, &heads)?;
    let place_controls = headed_in(alloc, sections, b"place_control")?;
    let styles = headed_in(alloc, place_controls, b"flip_style")?;
    Ok(any_says(styles.as_slice(), b"rotate_first"))
}

/// The names of the via padstacks, and the switches.
#[derive(Drop)]
pub(crate) struct Vias {
    pub(crate) names: List<Name>,
    pub(crate) at_smd: bool,
    pub(crate) flip_last: bool,
}

/// Reads the via padstacks and the switches.
pub(crate) fn read_switches(
    alloc: Global,
    first: &mut Option<Refusal>,
    pcb: &Tree,
    structs: &Trees,
) -> Result<Vias, AllocError>
    ensures noted { OnOk result
        (first.new ≡ noted first.old (via_refusals (names_at 1 (padstacks pcb.now)) (via_lists structs.now))) }
    ensures names { IfOk result (λ v. v.names ≡ via_names (via_lists structs.now)) }
    ensures at_smd { IfOk result (λ v. v.at_smd ≡ via_at_smd (controls structs.now)) }
    ensures flip_last { IfOk result (λ v. v.flip_last ≡ flip_last pcb.now) }
{
    let at_smd = via_at_smd(alloc, structs)?;
    let flip_last = flip_last(alloc, pcb)?;
    let names = read_vias(alloc, first, pcb, structs)?;
    Ok(Vias {
        names,
        at_smd,
        flip_last,
    })
}
