//! Nets: their pins by number, their classes, and the usable padstacks of their vias.
//! Source: SPECCTRA reference, net, class and circuit descriptors.

ghost use Rattle.std.specs.Prelude.{◌≡◌, ◌++◌, filter, map, count_by, not, IfOk};
ghost use Rattle.dsn_shapes.specs.Lists.{capped};
ghost use Rattle.dsn_shapes.specs.Names.{stack_names};
ghost use Rattle.dsn_design.specs.Nets.{class_rules, class_vias, is_usable_at, net_of, stack_numbers};
ghost use Rattle.dsn_design.specs.Nets.{unusable_in, unusable_of_class, usable_of, via_list, via_notes};
ghost use Rattle.dsn_design.specs.Counts.{counted_number};

use dsn_shapes::{PinRef, ReadClass, ReadNet, Stack, copy_rules, names_of, place_index};
use geo_kernel::{List, Name};
use pcb_model::{ClassPair, Net, Padstack, RuleSet};
use std::alloc::{AllocError, Global};

/// The indices of the padstacks of these names.
#[tactic(auto, unfolding(crate::specs::Nets::stack_numbers))]
pub(crate) fn stack_numbers(
    alloc: Global,
    stacks: &List<Stack>,
    names: &[Name],
) -> Result<List<u32>, AllocError>
    ensures { IfOk result (λ ns. ns ≡ stack_numbers stacks.now names.now) }
{
    let known = names_of(alloc, stacks.as_slice())?;
    let mut numbers = List::new(alloc);
    for name in names {
        let place = known.first_place(name.as_slice()).unwrap_or(0);
        numbers.push(place_index(place))?;
    }
    Ok(numbers)
}

fn is_usable_at(stacks: &List<Padstack>, via: u32) -> bool
    ensures { result ≡ is_usable_at stacks.now via }
{
    match stacks.get(via as usize) {
        Some(stack) => stack.usable,
        None => false,
    }
}

#[tactic(auto, unfolding(crate::specs::Nets::usable_of))]
fn usable_of(alloc: Global, stacks: &List<Padstack>, vias: &[u32]) -> Result<List<u32>, AllocError>
    ensures { IfOk result (λ vs. vs ≡ usable_of stacks.now vias.now) }
{
    let mut usable = List::new(alloc);
    for via in vias {
        if is_usable_at(stacks, *via) {
            usable.push(*via)?;
        }
    }
    Ok(usable)
}

#[tactic(auto, unfolding(crate::specs::Nets::unusable_in))]
fn unusable_in(stacks: &List<Padstack>, vias: &[u32]) -> u64
    ensures { result ≡ unusable_in stacks.now vias.now }
{
    let mut count = 0;
    for via in vias {
        if !is_usable_at(stacks, *via) {
            count += 1;
        }
    }
    count
}

/// A net's list of vias: its class's, or else the structure's.
fn via_list<'a>(structure_vias: &'a [u32], classes: &'a [ReadClass], net: &ReadNet) -> &'a [u32]
    ensures { result.now ≡ via_list structure_vias.now classes.now net.now }
{
    let Some(class) = net.class else {
        return structure_vias;
    };
    let Some(class) = classes.get(class as usize) else {
        return structure_vias;
    };
    match &class.vias {
        Some(vias) => vias.as_slice(),
        None => structure_vias,
    }
}

#[tactic(auto, unfolding(crate::specs::Counts::counted_number))]
fn pin_numbers(alloc: Global, firsts: &List<u32>, pins: &[PinRef]) -> Result<List<u32>, AllocError>
    ensures { IfOk result (λ ns. ns ≡ map (counted_number firsts.now) pins.now) }
{
    let mut numbers = List::new(alloc);
    for pin in pins {
        let first = firsts.get(pin.place as usize).copied().unwrap_or(0);
        numbers.push(first.saturating_add(pin.pin))?;
    }
    Ok(numbers)
}

/// What nets are made of: padstacks, the numbers of the components' first pins, and lists of vias.
#[derive(Drop)]
pub(crate) struct Lists<'a> {
    pub(crate) stacks: &'a List<Padstack>,
    pub(crate) firsts: &'a List<u32>,
    pub(crate) vias: &'a List<u32>,
    pub(crate) classes: &'a List<ReadClass>,
}

#[tactic(auto, unfolding(crate::specs::Nets::net_of))]
fn net_of(alloc: Global, lists: &Lists, net: &ReadNet) -> Result<Net, AllocError>
    ensures { IfOk result
        (λ n. n ≡ net_of lists.now.stacks.now (counted_number lists.now.firsts.now) lists.now.vias.now
        lists.now.classes.now net.now) }
{
    let name = List::from_slice(alloc, net.name.as_slice())?;
    let pins = pin_numbers(alloc, lists.firsts, net.pins.as_slice())?;
    let rules = copy_rules(alloc, &net.rules)?;
    let list = via_list(lists.vias.as_slice(), lists.classes.as_slice(), net);
    let vias = usable_of(alloc, lists.stacks, list)?;
    Ok(Net {
        name,
        pins,
        class: net.class,
        rules,
        vias,
    })
}

/// The nets, in the order of the network.
pub(crate) fn nets_of(
    alloc: Global,
    lists: &Lists,
    nets: &[ReadNet],
) -> Result<List<Net>, AllocError>
    ensures { IfOk result
        (λ ns. ns ≡ map
        (net_of lists.now.stacks.now (counted_number lists.now.firsts.now) lists.now.vias.now
        lists.now.classes.now) nets.now) }
{
    let mut all = List::new(alloc);
    for net in nets {
        all.push(net_of(alloc, lists, net)?)?;
    }
    Ok(all)
}

/// The rules of the classes.
pub(crate) fn classes_of(alloc: Global, classes: &[ReadClass]) -> Result<List<RuleSet>, AllocError>
    ensures { IfOk result (λ rs. rs ≡ map class_rules classes.now) }
{
    let mut rules = List::new(alloc);
    for class in classes {
        rules.push(copy_rules(alloc, &class.rules)?)?;
    }
    Ok(rules)
}

/// The class pairs, in the order of the network.
pub(crate) fn pairs_of(alloc: Global, pairs: &[ClassPair]) -> Result<List<ClassPair>, AllocError>
    ensures { IfOk result (λ ps. ps ≡ pairs.now) }
{
    let mut all = List::new(alloc);
    for pair in pairs {
        let rules = copy_rules(alloc, &pair.rules)?;
        all.push(ClassPair {
            a: pair.a,
            b: pair.b,
            rules,
        })?;
    }
    Ok(all)
}

fn unusable_of_class(stacks: &List<Padstack>, class: &ReadClass) -> u64
    ensures { result ≡ unusable_of_class stacks.now class.now }
{
    match &class.vias {
        Some(vias) => unusable_in(stacks, vias.as_slice()),
        None => unusable_in(stacks, &[]),
    }
}

/// How many padstacks of the via lists may not be vias.
#[tactic(auto, unfolding(crate::specs::Nets::via_notes))]
pub(crate) fn via_notes(stacks: &List<Padstack>, vias: &[u32], classes: &[ReadClass]) -> u64
    ensures { result ≡ capped (via_notes stacks.now vias.now classes.now) }
{
    let mut count = unusable_in(stacks, vias);
    for class in classes {
        count = count.saturating_add(unusable_of_class(stacks, class));
    }
    count
}
