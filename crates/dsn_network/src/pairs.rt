//! Class pairs: the clearances between the nets of two classes.
//! A pair names its classes, and a name stands for each class list of that name.
//! Source: SPECCTRA reference, class_class descriptor.

ghost use Rattle.std.specs.Prelude.{◌≡◌, ◌≤◌, ◌+◌, ◌∷◌, ◌++◌, [], ℕ, List as TheList, length, map, IfOk, OnOk};
ghost use Rattle.std.specs.Prelude.{if◌then◌else◌};
ghost use Rattle.std.specs.List.{flat_map};
ghost use Rattle.std.specs.Str.{bytes_eq};
ghost use Rattle.dsn_shapes.specs.Lists.{capped, trees_of};
ghost use Rattle.dsn_shapes.specs.Names.{names_at, place_index};
ghost use Rattle.dsn_shapes.specs.Refusals.{noted};
ghost use Rattle.dsn_shapes.specs.Rules.{pair_rule_refusals, pair_rule_set, rule_notes};
ghost use Rattle.dsn_network.specs.Pairs.{counts_with, couples, couples_of, couples_with, name_refusals, pair_by};
ghost use Rattle.dsn_network.specs.Pairs.{pair_count, pair_names, pair_refusals, pairs_of, places_named};
ghost use Rattle.dsn_network.specs.Pairs.{unknown_class};
ghost use Rattle.dsn_network.specs.Places.{places_by};
ghost use Rattle.dsn_network.specs.Whole.{rules_passed};
ghost use Rattle.dsn_network.specs.Words.{rules_in};

use crate::words::words_in;
use dsn_shapes::table::{BAD_PAIR, NO_CLASS};
use dsn_shapes::{
    Refusal, Rules, Trees, at_of, copy_rules, name_of, note, place_index, read_pair_rules, refused,
    text_of,
};
use dsn_tree::Tree;
use dsn_units::Scale;
use geo_kernel::List;
use pcb_model::{ClassPair, RuleSet};
use std::alloc::{AllocError, Global};
use std::collections::BTreeMap;

/// How many class pairs a network may mean. Since a name stands for each class list of that name, a short text may
/// mean more pairs than any machine holds: more are answered as want of memory, before they are made.
pub const MOST_PAIRS: u64 = 16_777_216;

type PlaceMap<'a> = BTreeMap<&'a [u8], List<u32>>;

// Keeps the place of one more class list of a name.
fn keep_class<'a>(
    alloc: Global,
    map: &mut PlaceMap<'a>,
    name: &'a [u8],
    place: usize,
) -> Result<(), AllocError>
    ensures { OnOk result ((q : TheList ℕ)
        → places_by map.new q
        ≡ places_by map.old q ++ (if bytes_eq name.now q then place_index place ∷ [] else [])) }
{
    let mut places = match map.remove(name) {
        Some(places) => places,
        None => List::new(alloc),
    };
    places.push(place_index(place))?;
    map.insert(name, places)?;
    Ok(())
}

/// The class lists of each name, by their places among all.
#[derive(Drop)]
struct ClassPlaces<'a, 'b> {
    lists: &'b Trees<'a>,
    places: PlaceMap<'a>,
    ghost by_name: { (q : TheList ℕ) → places_by places q ≡ places_named q (names_at 1 lists.now) },
}

impl<'a, 'b> ClassPlaces<'a, 'b> {
    // Those of these class lists.
    fn of(alloc: Global, lists: &'b Trees<'a>) -> Result<ClassPlaces<'a, 'b>, AllocError>
        ensures { IfOk result (λ x. x.lists.now ≡ lists.now) }
    {
        let trees = lists.as_slice();
        let mut places = BTreeMap::new(alloc);
        for (k, list) in trees.iter().enumerate() {
            keep_class(alloc, &mut places, name_of(list, 1), k)?;
        }
        Ok(ClassPlaces { lists, places })
    }

    // Those of a name.
    fn named(&self, name: &[u8]) -> &[u32]
        ensures { result.now ≡ places_named name.now (names_at 1 self.now.lists.now) }
    {
        match self.places.get(name) {
            Some(places) => places.as_slice(),
            None => &[],
        }
    }
}

fn refuse_unknown(first: &mut Option<Refusal>, words: &[&Tree], classes: &ClassPlaces)
    ensures { first.new
        ≡ noted first.old (flat_map (unknown_class (names_at 1 classes.now.lists.now)) (trees_of words.now)) }
{
    for word in words {
        if classes.named(text_of(word)).len() == 0 {
            note(first, refused(NO_CLASS, at_of(word)));
        }
    }
}

// The names of a pair's classes.
#[tactic(auto, unfolding(crate::specs::Pairs::name_refusals))]
fn names_of_pair<'a>(
    alloc: Global,
    first: &mut Option<Refusal>,
    tree: &'a Tree,
    classes: &ClassPlaces,
) -> Result<Trees<'a>, AllocError>
    ensures noted { OnOk result
        (first.new ≡ noted first.old (name_refusals (names_at 1 classes.now.lists.now) tree.now)) }
    ensures names { IfOk result (λ ts. ts ≡ pair_names tree.now) }
{
    let lists = Trees::in_list(alloc, tree, b"classes")?;
    let words = words_in(alloc, &lists, 1)?;
    if lists.len() != 1 || words.len() != 2 {
        note(first, refused(BAD_PAIR, at_of(tree)));
    }
    refuse_unknown(first, words.as_slice(), classes);
    Ok(words)
}

fn counts_with(same: bool, a: u32, b: u32) -> bool
    ensures { result ≡ counts_with same a b }
{
    !same || b >= a
}

// Appends the couples of a class list with others, or fails where there come to be more than `most`.
fn push_couples(
    couples: &mut List<(u32, u32)>,
    same: bool,
    a: u32,
    others: &[u32],
    most: u64,
) -> Result<(), AllocError>
    ensures couples { OnOk result (couples.new ≡ couples.old ++ couples_with same others.now a) }
    ensures few { length couples.old ≤ most → OnOk result (length couples.new ≤ most) }
{
    for b in others {
        if counts_with(same, a, *b) {
            if couples.len() as u64 >= most {
                return Err(AllocError);
            }
            couples.push((a, *b))?;
        }
    }
    Ok(())
}

// The couples of two lists of places, or a failure where they are more than `most`.
#[tactic(auto, unfolding(crate::specs::Pairs::couples))]
fn couples_between(
    alloc: Global,
    same: bool,
    ones: &[u32],
    others: &[u32],
    most: u64,
) -> Result<List<(u32, u32)>, AllocError>
    ensures couples { IfOk result (λ v. v ≡ couples same ones.now others.now) }
    ensures few { IfOk result (λ v. length v ≤ most) }
{
    let mut found = List::new(alloc);
    for a in ones {
        push_couples(&mut found, same, *a, others, most)?;
    }
    Ok(found)
}

// The couples that the names of a pair stand for, or a failure where they are more than `most`.
fn couples_of(
    alloc: Global,
    names: &[&Tree],
    classes: &ClassPlaces,
    most: u64,
) -> Result<List<(u32, u32)>, AllocError>
    ensures couples { IfOk result (λ v. v ≡ couples_of (names_at 1 classes.now.lists.now) (trees_of names.now)) }
    ensures few { IfOk result (λ v. length v ≤ most) }
{
    match names {
        [v, w] => {
            let same = text_of(v) == text_of(w);
            let others = classes.named(text_of(w));
            if others.len() == 0 {
                return Ok(List::new(alloc));
            }
            couples_between(alloc, same, classes.named(text_of(v)), others, most)
        }
        _ => Ok(List::new(alloc)),
    }
}

// How many couples may come after those of a list, where `left` may come with them; a failure where they are more.
fn left_after(
    alloc: Global,
    tree: &Tree,
    classes: &ClassPlaces,
    left: u64,
) -> Result<u64, AllocError>
    ensures { IfOk result
        (λ n. n + length (couples_of (names_at 1 classes.now.lists.now) (pair_names tree.now)) ≡ left) }
{
    let lists = Trees::in_list(alloc, tree, b"classes")?;
    let words = words_in(alloc, &lists, 1)?;
    let couples = couples_of(alloc, words.as_slice(), classes, left)?;
    Ok(left - couples.len() as u64)
}

// Fails where the lists mean more pairs than there may be.
fn check_count(alloc: Global, trees: &[&Tree], classes: &ClassPlaces) -> Result<(), AllocError>
    ensures { OnOk result (pair_count (names_at 1 classes.now.lists.now) (trees_of trees.now) ≤ MOST_PAIRS) }
{
    let mut left = MOST_PAIRS;
    for tree in trees {
        let rest = left_after(alloc, tree, classes, left)?;
        left = rest;
    }
    Ok(())
}

// Appends a pair for each couple, with these rules.
fn push_pairs(
    alloc: Global,
    pairs: &mut List<ClassPair>,
    couples: &[(u32, u32)],
    rules: &RuleSet,
) -> Result<(), AllocError>
    ensures { OnOk result (pairs.new ≡ pairs.old ++ map (pair_by rules.now) couples.now) }
{
    for couple in couples {
        let (a, b) = *couple;
        let rules = copy_rules(alloc, rules)?;
        pairs.push(ClassPair { a, b, rules })?;
    }
    Ok(())
}

// Appends the pairs that these names stand for, with these rules.
fn push_named(
    alloc: Global,
    pairs: &mut List<ClassPair>,
    names: &[&Tree],
    classes: &ClassPlaces,
    rules: &RuleSet,
) -> Result<(), AllocError>
    ensures { OnOk result
        (pairs.new
        ≡ pairs.old
        ++ map (pair_by rules.now) (couples_of (names_at 1 classes.now.lists.now) (trees_of names.now))) }
{
    let couples = couples_of(alloc, names, classes, MOST_PAIRS)?;
    let pushed = push_pairs(alloc, pairs, couples.as_slice(), rules);
    drop(couples);
    pushed
}

fn rules_of_pair(
    alloc: Global,
    first: &mut Option<Refusal>,
    tree: &Tree,
    scale: Scale,
) -> Result<Rules, AllocError>
    ensures noted { OnOk result
        (first.new ≡ noted first.old (pair_rule_refusals scale.nm (rules_in (tree.now ∷ [])))) }
    ensures set { IfOk result (λ v. v.set ≡ pair_rule_set scale.nm (rules_in (tree.now ∷ []))) }
    ensures notes { IfOk result (λ v. v.notes ≡ capped (rule_notes (rules_in (tree.now ∷ [])))) }
{
    let rules = Trees::in_list(alloc, tree, b"rule")?;
    let read = read_pair_rules(alloc, first, &rules, scale);
    drop(rules);
    read
}

// Appends the pairs of a list; the answer is how many lists of its rules were passed over.
#[tactic(auto, unfolding(crate::specs::Pairs::pairs_of, crate::specs::Pairs::pair_refusals))]
fn read_pair(
    alloc: Global,
    first: &mut Option<Refusal>,
    pairs: &mut List<ClassPair>,
    tree: &Tree,
    classes: &ClassPlaces,
    scale: Scale,
) -> Result<u64, AllocError>
    ensures noted { OnOk result
        (first.new ≡ noted first.old (pair_refusals scale.nm (names_at 1 classes.now.lists.now) tree.now)) }
    ensures pairs { OnOk result
        (pairs.new ≡ pairs.old ++ pairs_of scale.nm (names_at 1 classes.now.lists.now) tree.now) }
    ensures notes { IfOk result (λ n. n ≡ capped (rule_notes (rules_in (tree.now ∷ [])))) }
{
    let names = names_of_pair(alloc, first, tree, classes)?;
    let Rules { set, notes } = match rules_of_pair(alloc, first, tree, scale) {
        Ok(rules) => rules,
        Err(error) => {
            drop(names);
            return Err(error);
        }
    };
    let pushed = push_named(alloc, pairs, names.as_slice(), classes, &set);
    drop((names, set));
    match pushed {
        Ok(()) => Ok(notes),
        Err(error) => Err(error),
    }
}

/// Class pairs, and how many lists of their rules were passed over.
#[derive(Drop)]
pub(crate) struct Pairs {
    pub(crate) pairs: List<ClassPair>,
    pub(crate) notes: u64,
}

fn read_each_pair(
    alloc: Global,
    first: &mut Option<Refusal>,
    trees: &[&Tree],
    classes: &ClassPlaces,
    scale: Scale,
) -> Result<Pairs, AllocError>
    ensures noted { OnOk result
        (first.new
        ≡ noted first.old (flat_map (pair_refusals scale.nm (names_at 1 classes.now.lists.now)) (trees_of trees.now))) }
    ensures pairs { IfOk result
        (λ v. v.pairs ≡ flat_map (pairs_of scale.nm (names_at 1 classes.now.lists.now)) (trees_of trees.now)) }
    ensures notes { IfOk result (λ v. v.notes ≡ capped (rules_passed (trees_of trees.now))) }
{
    let mut pairs = List::new(alloc);
    let mut notes: u64 = 0;
    for tree in trees {
        let passed = read_pair(alloc, first, &mut pairs, tree, classes, scale)?;
        notes = notes.saturating_add(passed);
    }
    Ok(Pairs { pairs, notes })
}

/// All class pairs of a network, where `classes` are its class lists.
pub(crate) fn read_pairs(
    alloc: Global,
    first: &mut Option<Refusal>,
    lists: &Trees,
    classes: &Trees,
    scale: Scale,
) -> Result<Pairs, AllocError>
    ensures noted { OnOk result
        (first.new ≡ noted first.old (flat_map (pair_refusals scale.nm (names_at 1 classes.now)) lists.now)) }
    ensures pairs { IfOk result
        (λ v. v.pairs ≡ flat_map (pairs_of scale.nm (names_at 1 classes.now)) lists.now) }
    ensures notes { IfOk result (λ v. v.notes ≡ capped (rules_passed lists.now)) }
    ensures few { IfOk result (λ v. length v.pairs ≤ MOST_PAIRS) }
{
    if lists.len() == 0 {
        return Ok(Pairs {
            pairs: List::new(alloc),
            notes: 0,
        });
    }
    let places = ClassPlaces::of(alloc, classes)?;
    let counted = check_count(alloc, lists.as_slice(), &places);
    let read = match counted {
        Ok(()) => read_each_pair(alloc, first, lists.as_slice(), &places, scale),
        Err(error) => Err(error),
    };
    drop(places);
    read
}
