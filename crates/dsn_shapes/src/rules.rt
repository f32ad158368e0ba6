//! Rule sets of a structure, a class, a net or a class pair: widths and clearances in nm.
//! Source: SPECCTRA reference, rule, width and clearance descriptors.

ghost use Rattle.std.specs.Prelude.{◌==◌, ◌<◌, length, position, IfSome, ◌≡◌, ◌++◌, ◌∷◌, [], map, codes, count_by};
ghost use Rattle.std.specs.Prelude.{IfOk, OnOk, if◌then◌else◌};
ghost use Rattle.std.specs.List.{flat_map};
ghost use Rattle.std.specs.Str.{str_eq_ignore_ascii_case};
ghost use Rattle.dsn_shapes.specs.Lists.{capped, left_out_in, trees_of};
ghost use Rattle.dsn_shapes.specs.Numbers.{extent_at, extent_refusal};
ghost use Rattle.dsn_shapes.specs.Refusals.{noted};
ghost use Rattle.dsn_shapes.specs.Rules.{clearances_in, is_plain, is_unknown, is_zero, kind_of, last_of};
ghost use Rattle.dsn_shapes.specs.Rules.{notes_with, pair_of, pair_rule_refusals, pair_rule_set, pairing_of, plain_at};
ghost use Rattle.dsn_shapes.specs.Rules.{refusals_with, rule_notes, rule_refusals, rule_set, rules_left_out, set_of};
ghost use Rattle.dsn_shapes.specs.Rules.{set_refusals, split_pair, typed_at, typed_by, width_left_out, width_refusals};
ghost use Rattle.dsn_shapes.specs.Rules.{zero_width};

use crate::known::ListKind;
use crate::lists::{name_of, nth_word, place_of};
use crate::numbers::{extent_at, peek_extent};
use crate::refusal::{Refusal, note, refused};
use crate::table::{LEFT_OUT, NO_NUMBER};
use crate::trees::{Trees, pass_over};
use dsn_tree::{Tree, child};
use dsn_units::Scale;
use geo_kernel::List;
use pcb_model::{Kind, RuleSet, Typed};
use std::alloc::{AllocError, Global};

/// Which pairs of kinds a clearance is for.
#[derive(Clone, Copy, PartialEq, Eq)]
pub(crate) enum Pairing {
    Plain,
    Unknown,
    Known(Kind, Option<Kind>),
}

fn kind_of(text: &[u8]) -> Option<Kind>
    ensures { result ≡ kind_of text.now }
{
    if text.eq_ignore_ascii_case(b"wire") {
        Some(Kind::Wire)
    } else if text.eq_ignore_ascii_case(b"via") {
        Some(Kind::Via)
    } else if text.eq_ignore_ascii_case(b"pin") {
        Some(Kind::Pin)
    } else if text.eq_ignore_ascii_case(b"smd") {
        Some(Kind::Smd)
    } else if text.eq_ignore_ascii_case(b"area") {
        Some(Kind::Area)
    } else {
        None
    }
}

fn underscore(text: &[u8]) -> Option<usize>
    ensures value { result ≡ position (λ b. b == 95) text.now }
    ensures within { IfSome result (λ i. i < length text.now) }
{
    text.iter().position(|b| *b == b'_')
}

fn split_pair(text: &[u8], at: Option<usize>) -> Pairing
    requires { IfSome at (λ i. i < length text.now) }
    ensures { result ≡ split_pair text.now at }
{
    match at {
        None => Pairing::Unknown,
        Some(i) => {
            let (front, _) = text.split_at(i);
            let (_, back) = text.split_at(i + 1);
            match (kind_of(front), kind_of(back)) {
                (Some(a), Some(b)) => Pairing::Known(a, Some(b)),
                _ => Pairing::Unknown,
            }
        }
    }
}

fn pair_of(text: &[u8]) -> Pairing
    ensures { result ≡ pair_of text.now }
{
    if text.eq_ignore_ascii_case(b"default_smd") {
        return Pairing::Known(Kind::Smd, None);
    }
    split_pair(text, underscore(text))
}

#[tactic(auto, unfolding(crate::specs::Rules::pairing_of))]
fn pairing_of(tree: &Tree) -> Pairing
    ensures { result ≡ pairing_of tree.now }
{
    match child(tree, b"type") {
        Some(found) => pair_of(name_of(found, 1)),
        None => Pairing::Plain,
    }
}

fn is_plain(pairing: Pairing) -> bool
    ensures { result ≡ is_plain pairing }
{
    match pairing {
        Pairing::Plain => true,
        Pairing::Unknown => false,
        Pairing::Known(_, _) => false,
    }
}

fn is_unknown(pairing: Pairing) -> bool
    ensures { result ≡ is_unknown pairing }
{
    match pairing {
        Pairing::Plain => false,
        Pairing::Unknown => true,
        Pairing::Known(_, _) => false,
    }
}

fn last_of(values: &[u64]) -> Option<u64>
    ensures { result ≡ last_of values.now }
{
    let n = values.len();
    values.get(n.saturating_sub(1)).copied()
}

fn refuse_zero_width(first: &mut Option<Refusal>, tree: &Tree, s: Scale)
    ensures { first.new ≡ noted first.old (zero_width s.nm tree.now) }
{
    let Some(word) = nth_word(tree, 1) else {
        return;
    };
    if is_zero(peek_extent(word, s)) {
        note(first, refused(NO_NUMBER, place_of(tree, 1)));
    }
}

fn is_zero(value: Option<u64>) -> bool
    ensures { result ≡ is_zero value }
{
    match value {
        Some(n) => n == 0,
        None => false,
    }
}

fn read_widths(
    alloc: Global,
    first: &mut Option<Refusal>,
    trees: &[&Tree],
    s: Scale,
) -> Result<List<u64>, AllocError>
    ensures noted { OnOk result (first.new ≡ noted first.old (flat_map (width_refusals s.nm) (trees_of trees.now))) }
    ensures value { IfOk result (λ vs. vs ≡ map (λ t. extent_at s.nm t 1) (trees_of trees.now)) }
{
    let mut widths = List::new(alloc);
    for tree in trees {
        let width = extent_at(first, tree, 1, s);
        refuse_zero_width(first, tree, s);
        widths.push(width)?;
    }
    Ok(widths)
}

// The clearances: their values by what they are for.
#[derive(Drop)]
struct Clearances {
    plain: List<u64>,
    typed: List<Typed>,
}

fn add_clearance(clearances: &mut Clearances, tree: &Tree, value: u64) -> Result<(), AllocError>
    ensures plain { OnOk result
        (clearances.new.plain ≡ clearances.old.plain
        ++ (if is_plain (pairing_of tree.now) then value ∷ [] else [])) }
    ensures typed { OnOk result (clearances.new.typed ≡ clearances.old.typed ++ typed_by value (pairing_of tree.now)) }
{
    match pairing_of(tree) {
        Pairing::Plain => clearances.plain.push(value)?,
        Pairing::Unknown => {}
        Pairing::Known(a, b) => clearances.typed.push(Typed { a, b, value })?,
    }
    Ok(())
}

fn read_clearances(
    alloc: Global,
    first: &mut Option<Refusal>,
    trees: &[&Tree],
    s: Scale,
) -> Result<Clearances, AllocError>
    ensures noted { OnOk result
        (first.new ≡ noted first.old (flat_map (λ t. extent_refusal s.nm t 1) (trees_of trees.now))) }
    ensures plain { IfOk result (λ v. v.plain ≡ flat_map (plain_at s.nm) (trees_of trees.now)) }
    ensures typed { IfOk result (λ v. v.typed ≡ flat_map (typed_at s.nm) (trees_of trees.now)) }
{
    let mut clearances = Clearances {
        plain: List::new(alloc),
        typed: List::new(alloc),
    };
    for tree in trees {
        let value = extent_at(first, tree, 1, s);
        add_clearance(&mut clearances, tree, value)?;
    }
    Ok(clearances)
}

fn unknown_pairings(trees: &[&Tree]) -> u64
    ensures { result ≡ count_by (λ t. is_unknown (pairing_of t)) (trees_of trees.now) }
{
    let mut count = 0;
    for tree in trees {
        if is_unknown(pairing_of(tree)) {
            count += 1;
        }
    }
    count
}

#[tactic(auto, unfolding(crate::specs::Rules::set_of, crate::specs::Rules::set_refusals))]
fn read_set(
    alloc: Global,
    first: &mut Option<Refusal>,
    widths: &Trees,
    clearances: &Trees,
    s: Scale,
) -> Result<RuleSet, AllocError>
    ensures noted { OnOk result (first.new ≡ noted first.old (set_refusals s.nm widths.now clearances.now)) }
    ensures value { IfOk result (λ v. v ≡ set_of s.nm widths.now clearances.now) }
{
    let width = read_widths(alloc, first, widths.as_slice(), s)?;
    let values = read_clearances(alloc, first, clearances.as_slice(), s)?;
    Ok(RuleSet {
        width: last_of(width.as_slice()),
        plain: last_of(values.plain.as_slice()),
        typed: values.typed,
    })
}

#[tactic(auto, unfolding(crate::specs::Rules::notes_with, crate::specs::Rules::rules_left_out))]
fn pass_over_rules(first: &mut Option<Refusal>, rules: &Trees, clearances: &Trees) -> u64
    ensures noted { first.new ≡ noted first.old (rules_left_out rules.now clearances.now) }
    ensures value { result ≡ capped (notes_with rules.now clearances.now) }
{
    let beside = pass_over(first, rules, ListKind::Rule);
    let inside = pass_over(first, clearances, ListKind::Rule);
    let unknown = unknown_pairings(clearances.as_slice());
    beside.saturating_add(inside).saturating_add(unknown)
}

/// A rule set, and how many lists in its rules were passed over.
#[derive(Drop)]
pub struct Rules {
    pub set: RuleSet,
    pub notes: u64,
}

// The rule set of some rules, of whose widths these are looked at.
fn read_with(
    alloc: Global,
    first: &mut Option<Refusal>,
    rules: &Trees,
    widths: &Trees,
    s: Scale,
) -> Result<Rules, AllocError>
    ensures noted { OnOk result (first.new ≡ noted first.old (refusals_with s.nm rules.now widths.now)) }
    ensures set { IfOk result (λ v. v.set ≡ set_of s.nm widths.now (clearances_in rules.now)) }
    ensures notes { IfOk result (λ v. v.notes ≡ capped (rule_notes rules.now)) }
{
    let clearances = rules.lists(alloc, &[b"clearance".as_slice()])?;
    let notes = pass_over_rules(first, rules, &clearances);
    match read_set(alloc, first, widths, &clearances, s) {
        Ok(set) => {
            drop(clearances);
            Ok(Rules { set, notes })
        }
        Err(error) => {
            drop(clearances);
            Err(error)
        }
    }
}

/// The rule set of some rules, each a list such as `(rule (width 200) (clearance 200))`.
pub fn read_rules(
    alloc: Global,
    first: &mut Option<Refusal>,
    rules: &Trees,
    s: Scale,
) -> Result<Rules, AllocError>
    ensures noted { OnOk result (first.new ≡ noted first.old (rule_refusals s.nm rules.now)) }
    ensures set { IfOk result (λ v. v.set ≡ rule_set s.nm rules.now) }
    ensures notes { IfOk result (λ v. v.notes ≡ capped (rule_notes rules.now)) }
{
    let widths = rules.lists(alloc, &[b"width".as_slice()])?;
    let read = read_with(alloc, first, rules, &widths, s);
    drop(widths);
    read
}

fn leave_out_widths(first: &mut Option<Refusal>, widths: &[&Tree])
    ensures { first.new ≡ noted first.old (flat_map width_left_out (trees_of widths.now)) }
{
    for tree in widths {
        note(first, refused(LEFT_OUT, place_of(tree, 0)));
    }
}

/// The rule set of rules between two classes, each a list such as `(rule (clearance 200))`.
/// It has no width: a `width` in them is refused at its head word, whatever stands behind that.
#[tactic(auto, unfolding(crate::specs::Rules::pair_rule_refusals))]
pub fn read_pair_rules(
    alloc: Global,
    first: &mut Option<Refusal>,
    rules: &Trees,
    s: Scale,
) -> Result<Rules, AllocError>
    ensures noted { OnOk result (first.new ≡ noted first.old (pair_rule_refusals s.nm rules.now)) }
    ensures set { IfOk result (λ v. v.set ≡ pair_rule_set s.nm rules.now) }
    ensures notes { IfOk result (λ v. v.notes ≡ capped (rule_notes rules.now)) }
{
    let widths = rules.lists(alloc, &[b"width".as_slice()])?;
    leave_out_widths(first, widths.as_slice());
    drop(widths);
    let none = Trees::new(alloc);
    let read = read_with(alloc, first, rules, &none, s);
    drop(none);
    read
}

/// An equal rule set.
pub fn copy_rules(alloc: Global, rules: &RuleSet) -> Result<RuleSet, AllocError>
    ensures { IfOk result (λ r. r ≡ rules.now) }
{
    Ok(RuleSet {
        width: rules.width,
        plain: rules.plain,
        typed: List::from_slice(alloc, rules.typed.as_slice())?,
    })
}
