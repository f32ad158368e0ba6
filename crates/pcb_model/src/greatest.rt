//! The greatest clearance of a design, in nm: how far copper can be asked to keep from other copper.
//! A net without rules of its own has those of the structure, so each net is looked at, and none.

ghost use Rattle.std.specs.Prelude.{◌≡◌, ◌↔◌, ℕ, ◌≤◌, ◌^◌, IsTrue, Some, length, slice_get, MatchOption};
ghost use Rattle.pcb_model.specs.declared.item.Kind.{Kind as OneKind};
ghost use Rattle.pcb_model.specs.Rules.{value_of, pair_value, class_in, class_of};
ghost use Rattle.pcb_model.specs.Sound.{IsSound};
ghost use Rattle.pcb_model.specs.Bounds.{IsValue, AreValuesWithin, AreRulesWithin, IsGreatestClearance};
ghost use Rattle.pcb_model.specs.Greatest.{IsPairCovered};

use crate::rules::{in_pairs, reach_of_rules, value};
use crate::{ClassPair, Design, Kind, Net};

// The greater of a number and the value of a net for two kinds.
fn raised(d: &Design, net: Option<u32>, ka: Kind, kb: Kind, least: u64) -> u64
    requires { IsValue d.now least }
    ensures value { value_of d.now net ka kb ≤ result }
    ensures least { least ≤ result }
    ensures reached { IsValue d.now result }
{
    let next = value(d, net, ka, kb);
    if next > least { next } else { least }
}

// The greatest of a number and the values of a net for a kind and any other.
fn raised_by_kind(d: &Design, net: Option<u32>, kind: Kind, least: u64) -> u64
    requires { IsValue d.now least }
    ensures values { (other : OneKind) → value_of d.now net kind other ≤ result }
    ensures least { least ≤ result }
    ensures reached { IsValue d.now result }
{
    let wire = raised(d, net, kind, Kind::Wire, least);
    let via = raised(d, net, kind, Kind::Via, wire);
    let pin = raised(d, net, kind, Kind::Pin, via);
    let smd = raised(d, net, kind, Kind::Smd, pin);
    raised(d, net, kind, Kind::Area, smd)
}

// The greatest of a number and the values of a net.
fn raised_by_net(d: &Design, net: Option<u32>, least: u64) -> u64
    requires { IsValue d.now least }
    ensures values { AreValuesWithin d.now net result }
    ensures least { least ≤ result }
    ensures reached { IsValue d.now result }
{
    let wire = raised_by_kind(d, net, Kind::Wire, least);
    let via = raised_by_kind(d, net, Kind::Via, wire);
    let pin = raised_by_kind(d, net, Kind::Pin, via);
    let smd = raised_by_kind(d, net, Kind::Smd, pin);
    raised_by_kind(d, net, Kind::Area, smd)
}

fn has_class(n: &Net, class: u32) -> bool
    ensures { IsTrue result ↔ (n.now.class ≡ Some class) }
{
    match n.class {
        Some(c) => c == class,
        None => false,
    }
}

// The first net of a class.
fn net_of(nets: &[Net], class: u32) -> Option<u32>
    requires { length nets.now ≤ 2 ^ 26 }
    ensures { MatchOption result ((i : ℕ) → class_in (slice_get nets.now i) ≡ Some class → ⊥)
        (λ i. class_in (slice_get nets.now i) ≡ Some class) }
{
    for i in 0..nets.len() {
        if has_class(&nets[i], class) {
            return Some(i as u32);
        }
    }
    None
}

// The greater of a number and the value that the class pairs give the classes of a pair, which some nets have.
fn raised_between(d: &Design, p: &ClassPair, a: u32, b: u32, ka: Kind, kb: Kind, least: u64) -> u64
    requires reached { IsValue d.now least }
    requires a_is { class_of d.now (Some a) ≡ Some p.now.a }
    requires b_is { class_of d.now (Some b) ≡ Some p.now.b }
    ensures value { pair_value d.now p.now ka kb ≤ result }
    ensures least { least ≤ result }
    ensures reached { IsValue d.now result }
{
    let next = in_pairs(d.pairs.as_slice(), p.a, p.b, ka, kb, least);
    if next > least { next } else { least }
}

// The greatest of a number and the values of a pair for a kind and any other.
fn raised_between_kind(d: &Design, p: &ClassPair, a: u32, b: u32, kind: Kind, least: u64) -> u64
    requires reached { IsValue d.now least }
    requires a_is { class_of d.now (Some a) ≡ Some p.now.a }
    requires b_is { class_of d.now (Some b) ≡ Some p.now.b }
    ensures values { (other : OneKind) → pair_value d.now p.now kind other ≤ result }
    ensures least { least ≤ result }
    ensures reached { IsValue d.now result }
{
    let wire = raised_between(d, p, a, b, kind, Kind::Wire, least);
    let via = raised_between(d, p, a, b, kind, Kind::Via, wire);
    let pin = raised_between(d, p, a, b, kind, Kind::Pin, via);
    let smd = raised_between(d, p, a, b, kind, Kind::Smd, pin);
    raised_between(d, p, a, b, kind, Kind::Area, smd)
}

// The greatest of a number and the values of a pair.
fn raised_by_nets(d: &Design, p: &ClassPair, a: u32, b: u32, least: u64) -> u64
    requires reached { IsValue d.now least }
    requires a_is { class_of d.now (Some a) ≡ Some p.now.a }
    requires b_is { class_of d.now (Some b) ≡ Some p.now.b }
    ensures values { (one other : OneKind) → pair_value d.now p.now one other ≤ result }
    ensures least { least ≤ result }
    ensures reached { IsValue d.now result }
{
    let wire = raised_between_kind(d, p, a, b, Kind::Wire, least);
    let via = raised_between_kind(d, p, a, b, Kind::Via, wire);
    let pin = raised_between_kind(d, p, a, b, Kind::Pin, via);
    let smd = raised_between_kind(d, p, a, b, Kind::Smd, pin);
    raised_between_kind(d, p, a, b, Kind::Area, smd)
}

// The greatest of a number and the values of a pair, where both of its classes have nets. A pair without a greater
// value of its own raises nothing: what its classes' pairs give is the own value of one of these, which is looked at in
// turn.
fn raised_by_pair(d: &Design, p: &ClassPair, least: u64) -> u64
    requires reached { IsValue d.now least }
    requires few_nets { length d.now.nets ≤ 2 ^ 26 }
    requires rules { AreRulesWithin (2 ^ 28) p.now.rules }
    ensures values { IsPairCovered d.now result p.now }
    ensures least { least ≤ result }
    ensures reached { IsValue d.now result }
{
    if reach_of_rules(&p.rules, 0) <= least {
        return least;
    }
    let nets = d.nets.as_slice();
    match net_of(nets, p.a) {
        Some(a) => match net_of(nets, p.b) {
            Some(b) => raised_by_nets(d, p, a, b, least),
            None => least,
        },
        None => least,
    }
}

/// The greatest value in nm that `clearance` gives for the design.
pub fn greatest_clearance(d: &Design) -> u64
    requires { IsSound d.now }
    ensures greatest { IsGreatestClearance d.now result }
    ensures within { result ≤ 2 ^ 28 }
{
    let mut greatest = raised_by_net(d, None, value(d, None, Kind::Wire, Kind::Wire));
    for net in 0..d.nets.len() as u32 {
        greatest = raised_by_net(d, Some(net), greatest);
    }
    for p in d.pairs.as_slice() {
        greatest = raised_by_pair(d, p, greatest);
    }
    greatest
}
