//! Nets: their pins, their rules and their classes.
//! Source: SPECCTRA reference, net descriptor.

ghost use Rattle.std.specs.Prelude.{◌≡◌, ◌∷◌, [], map, slice_get, IfOk, OnOk};
ghost use Rattle.std.specs.List.{flat_map};
ghost use Rattle.dsn_shapes.specs.Lists.{capped, trees_of};
ghost use Rattle.dsn_shapes.specs.Names.{names_at};
ghost use Rattle.dsn_shapes.specs.Refusals.{noted};
ghost use Rattle.dsn_shapes.specs.Rules.{rule_notes};
ghost use Rattle.dsn_network.specs.Nets.{net_of, net_pins, net_refusals, nets_refusals, pins_taken};
ghost use Rattle.dsn_network.specs.Nets.{ref_refusals, refs_of};
ghost use Rattle.dsn_network.specs.Owners.{pins_of};
ghost use Rattle.dsn_network.specs.Whole.{rules_passed};
ghost use Rattle.dsn_network.specs.Words.{rules_in};

use crate::classes::ClassIndex;
use crate::owners::{Owners, each_once, refuse_taken};
use crate::pins::PinIndex;
use crate::refs::{read_refs, refs_of};
use crate::words::rules_of;
use dsn_shapes::{
    NameIndex, PinRef, ReadNet, Refusal, Rules, Trees, What, name_of, refuse_past,
    refuse_quoted_name,
};
use dsn_tree::Tree;
use dsn_units::Scale;
use geo_kernel::List;
use std::alloc::{AllocError, Global};

#[tactic(auto, unfolding(crate::specs::Nets::net_pins))]
fn read_pins(
    alloc: Global,
    first: &mut Option<Refusal>,
    tree: &Tree,
    pins: &PinIndex,
) -> Result<List<PinRef>, AllocError>
    ensures noted { OnOk result
        (first.new ≡ noted first.old
        (flat_map (ref_refusals pins.now.lib.now pins.now.placing.now) (refs_of tree.now))) }
    ensures value { IfOk result (λ v. v ≡ net_pins pins.now.lib.now pins.now.placing.now tree.now) }
{
    let words = refs_of(alloc, tree)?;
    let named = read_refs(alloc, first, words.as_slice(), pins);
    drop(words);
    let named = named?;
    let once = each_once(alloc, named.as_slice());
    drop(named);
    once
}

// A net, and how many lists of its rules were passed over.
#[derive(Drop)]
struct Counted {
    net: ReadNet,
    notes: u64,
}

#[tactic(auto, unfolding(crate::specs::Nets::net_of, crate::specs::Nets::net_refusals))]
fn read_net(
    alloc: Global,
    first: &mut Option<Refusal>,
    tree: &Tree,
    scale: Scale,
    pins: &PinIndex,
    classes: &ClassIndex,
) -> Result<Counted, AllocError>
    ensures noted { OnOk result
        (first.new ≡ noted first.old (net_refusals scale.nm pins.now.lib.now pins.now.placing.now tree.now)) }
    ensures net { IfOk result
        (λ v. v.net ≡ net_of scale.nm pins.now.lib.now pins.now.placing.now classes.now.lists.now tree.now) }
    ensures notes { IfOk result (λ v. v.notes ≡ capped (rule_notes (rules_in (tree.now ∷ [])))) }
{
    refuse_quoted_name(first, tree, 1);
    let named = read_pins(alloc, first, tree, pins)?;
    let name = match List::from_slice(alloc, name_of(tree, 1)) {
        Ok(name) => name,
        Err(error) => {
            drop(named);
            return Err(error);
        }
    };
    let class = classes.class_of(name_of(tree, 1));
    match rules_of(alloc, first, tree, scale) {
        Ok(Rules { set, notes }) => Ok(Counted {
            net: ReadNet {
                name,
                pins: named,
                rules: set,
                class,
            },
            notes,
        }),
        Err(error) => {
            drop((named, name));
            Err(error)
        }
    }
}

/// Nets, and how many lists of their rules were passed over.
#[derive(Drop)]
pub(crate) struct Nets {
    pub(crate) nets: List<ReadNet>,
    pub(crate) notes: u64,
}

fn read_each_net(
    alloc: Global,
    first: &mut Option<Refusal>,
    trees: &[&Tree],
    scale: Scale,
    pins: &PinIndex,
    classes: &ClassIndex,
) -> Result<Nets, AllocError>
    ensures noted { OnOk result
        (first.new ≡ noted first.old
        (flat_map (net_refusals scale.nm pins.now.lib.now pins.now.placing.now) (trees_of trees.now))) }
    ensures nets { IfOk result
        (λ v. v.nets ≡ map (net_of scale.nm pins.now.lib.now pins.now.placing.now classes.now.lists.now)
        (trees_of trees.now)) }
    ensures notes { IfOk result (λ v. v.notes ≡ capped (rules_passed (trees_of trees.now))) }
{
    let mut nets = List::new(alloc);
    let mut notes: u64 = 0;
    for tree in trees {
        let read = read_net(alloc, first, tree, scale, pins, classes)?;
        nets.push(read.net)?;
        notes = notes.saturating_add(read.notes);
    }
    Ok(Nets { nets, notes })
}

// Refuses the references by which a second net names a pin.
#[tactic(auto, unfolding(crate::specs::Nets::pins_taken))]
fn refuse_pins_taken(
    alloc: Global,
    first: &mut Option<Refusal>,
    lists: &Trees,
    nets: &[ReadNet],
    pins: &PinIndex,
) -> Result<(), AllocError>
    requires { pins_of nets.now ≡ map (net_pins pins.now.lib.now pins.now.placing.now) lists.now }
    ensures { OnOk result (first.new ≡ noted first.old (pins_taken pins.now.lib.now pins.now.placing.now lists.now)) }
{
    let owners = Owners::of(alloc, nets)?;
    refuse_taken(alloc, first, lists.as_slice(), &owners, pins)
}

/// All nets of a network, whose names `names` is the index of.
#[tactic(auto, unfolding(crate::specs::Nets::nets_refusals, dsn_shapes::specs::Names::same_names))]
pub(crate) fn read_nets(
    alloc: Global,
    first: &mut Option<Refusal>,
    lists: &Trees,
    names: &NameIndex,
    scale: Scale,
    pins: &PinIndex,
    classes: &ClassIndex,
) -> Result<Nets, AllocError>
    requires { names.now ≡ names_at 1 lists.now }
    ensures noted { OnOk result
        (first.new ≡ noted first.old (nets_refusals scale.nm pins.now.lib.now pins.now.placing.now lists.now)) }
    ensures nets { IfOk result
        (λ v. v.nets ≡ map (net_of scale.nm pins.now.lib.now pins.now.placing.now classes.now.lists.now)
        lists.now) }
    ensures notes { IfOk result (λ v. v.notes ≡ capped (rules_passed lists.now)) }
{
    names.refuse_same(first, lists, 1);
    refuse_past(first, What::Nets, 0, lists);
    let read = read_each_net(alloc, first, lists.as_slice(), scale, pins, classes)?;
    match refuse_pins_taken(alloc, first, lists, read.nets.as_slice(), pins) {
        Ok(()) => Ok(read),
        Err(error) => {
            drop(read);
            Err(error)
        }
    }
}
