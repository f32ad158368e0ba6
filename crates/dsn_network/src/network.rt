//! The network of a design: the nets, the classes and the class pairs of all its sections together.
//! Classes may name nets, and class pairs classes, that stand behind them.
//! Source: SPECCTRA reference, network descriptor.

ghost use Rattle.std.specs.Prelude.{◌≡◌, ◌≤◌, length, map, IfOk, OnOk};
ghost use Rattle.std.specs.List.{flat_map};
ghost use Rattle.dsn_shapes.specs.Lists.{capped};
ghost use Rattle.dsn_shapes.specs.Names.{names_at, stack_names};
ghost use Rattle.dsn_shapes.specs.Refusals.{Reads, noted};
ghost use Rattle.dsn_network.specs.Classes.{class_refusals, read_class_of};
ghost use Rattle.dsn_network.specs.Nets.{net_of, nets_refusals};
ghost use Rattle.dsn_network.specs.Pairs.{pair_refusals, pairs_of};
ghost use Rattle.dsn_network.specs.Sound.{HasFewPlaces, IsNetworkSound};
ghost use Rattle.dsn_network.specs.Whole.{class_lists, classes_left_out, classes_passed, net_lists};
ghost use Rattle.dsn_network.specs.Whole.{network_left_out, network_of, network_passed, network_refusals};
ghost use Rattle.dsn_network.specs.Whole.{networks, pair_lists, refusals_of, rules_passed, value_of};

use crate::class::{Classes, read_classes};
use crate::classes::{ClassIndex, stray_names};
use crate::net::{Nets, read_nets};
use crate::pairs::{MOST_PAIRS, Pairs, read_pairs};
use crate::pins::PinIndex;
use dsn_shapes::{
    Library, ListKind, NameIndex, Network, Placing, ReadFault, Refusal, Trees, names_of, pass_over,
};
use dsn_tree::Tree;
use dsn_units::Scale;
use std::alloc::{AllocError, Global};

// The sections of a network, and the nets, classes and class pairs in them.
#[derive(Drop)]
struct Sections<'a> {
    networks: Trees<'a>,
    nets: Trees<'a>,
    classes: Trees<'a>,
    pairs: Trees<'a>,
}

fn sections_of<'a>(alloc: Global, pcb: &'a Tree) -> Result<Sections<'a>, AllocError>
    ensures networks { IfOk result (λ s. s.networks ≡ networks pcb.now) }
    ensures nets { IfOk result (λ s. s.nets ≡ net_lists pcb.now) }
    ensures classes { IfOk result (λ s. s.classes ≡ class_lists pcb.now) }
    ensures pairs { IfOk result (λ s. s.pairs ≡ pair_lists pcb.now) }
{
    let networks = Trees::in_list(alloc, pcb, b"network")?;
    let nets = match networks.headed(alloc, b"net") {
        Ok(nets) => nets,
        Err(error) => {
            drop(networks);
            return Err(error);
        }
    };
    let classes = match networks.headed(alloc, b"class") {
        Ok(classes) => classes,
        Err(error) => {
            drop((networks, nets));
            return Err(error);
        }
    };
    let pairs = match networks.headed(alloc, b"class_class") {
        Ok(pairs) => pairs,
        Err(error) => {
            drop((networks, nets, classes));
            return Err(error);
        }
    };
    Ok(Sections {
        networks,
        nets,
        classes,
        pairs,
    })
}

// Passes over what stands directly in the classes and their circuits.
#[tactic(auto, unfolding(crate::specs::Whole::classes_left_out, crate::specs::Whole::classes_passed))]
fn pass_over_classes(
    alloc: Global,
    first: &mut Option<Refusal>,
    classes: &Trees,
) -> Result<u64, AllocError>
    ensures noted { OnOk result (first.new ≡ noted first.old (classes_left_out classes.now)) }
    ensures value { IfOk result (λ n. n ≡ capped (classes_passed classes.now)) }
{
    let circuits = classes.headed(alloc, b"circuit")?;
    let in_classes = pass_over(first, classes, ListKind::Class);
    let in_circuits = pass_over(first, &circuits, ListKind::Class);
    Ok(in_classes.saturating_add(in_circuits))
}

// Passes over what stands beside the parts; `names` are those of the nets.
#[tactic(auto, unfolding(crate::specs::Whole::network_left_out, crate::specs::Whole::network_passed))]
fn pass_over_network(
    alloc: Global,
    first: &mut Option<Refusal>,
    parts: &Sections,
    names: &NameIndex,
) -> Result<u64, AllocError>
    requires { names.now ≡ names_at 1 parts.now.nets }
    ensures noted { OnOk result
        (first.new
        ≡ noted first.old
        (network_left_out parts.now.networks parts.now.nets parts.now.classes parts.now.pairs)) }
    ensures value { IfOk result
        (λ n. n ≡ capped (network_passed parts.now.networks parts.now.nets parts.now.classes parts.now.pairs)) }
{
    let in_sections = pass_over(first, &parts.networks, ListKind::Network);
    let in_nets = pass_over(first, &parts.nets, ListKind::Net);
    let in_classes = pass_over_classes(alloc, first, &parts.classes)?;
    let in_pairs = pass_over(first, &parts.pairs, ListKind::Pair);
    let strays = stray_names(alloc, names, &parts.classes)?;
    let in_lists = in_sections.saturating_add(in_nets);
    let beside_nets = in_classes.saturating_add(strays).saturating_add(in_pairs);
    Ok(in_lists.saturating_add(beside_nets))
}

fn nets_of(
    alloc: Global,
    first: &mut Option<Refusal>,
    parts: &Sections,
    names: &NameIndex,
    scale: Scale,
    lib: &Library,
    placing: &Placing,
) -> Result<Nets, AllocError>
    requires { names.now ≡ names_at 1 parts.now.nets }
    ensures noted { OnOk result
        (first.new ≡ noted first.old (nets_refusals scale.nm lib.now placing.now parts.now.nets)) }
    ensures nets { IfOk result
        (λ v. v.nets ≡ map (net_of scale.nm lib.now placing.now parts.now.classes) parts.now.nets) }
    ensures notes { IfOk result (λ v. v.notes ≡ capped (rules_passed parts.now.nets)) }
{
    let pins = PinIndex::of(alloc, lib, placing)?;
    let index = match ClassIndex::of(alloc, &parts.classes) {
        Ok(index) => index,
        Err(error) => {
            drop(pins);
            return Err(error);
        }
    };
    let nets = read_nets(alloc, first, &parts.nets, names, scale, &pins, &index);
    drop((pins, index));
    nets
}

fn classes_of(
    alloc: Global,
    first: &mut Option<Refusal>,
    lists: &Trees,
    scale: Scale,
    lib: &Library,
) -> Result<Classes, AllocError>
    ensures noted { OnOk result
        (first.new ≡ noted first.old (flat_map (class_refusals scale.nm (stack_names lib.now.stacks)) lists.now)) }
    ensures classes { IfOk result
        (λ v. v.classes ≡ map (read_class_of scale.nm (stack_names lib.now.stacks)) lists.now) }
    ensures notes { IfOk result (λ v. v.notes ≡ capped (rules_passed lists.now)) }
{
    let stacks = names_of(alloc, lib.stacks.as_slice())?;
    let classes = read_classes(alloc, first, lists, &stacks, scale);
    drop(stacks);
    classes
}

// The nets, classes and class pairs of a network, where `names` are those of its nets.
#[tactic(auto, unfolding(crate::specs::Whole::refusals_of, crate::specs::Whole::value_of))]
fn parts_of(
    alloc: Global,
    first: &mut Option<Refusal>,
    parts: &Sections,
    names: &NameIndex,
    scale: Scale,
    lib: &Library,
    placing: &Placing,
) -> Result<Network, AllocError>
    requires { names.now ≡ names_at 1 parts.now.nets }
    ensures noted { OnOk result
        (first.new ≡ noted first.old
        (refusals_of scale.nm lib.now placing.now parts.now.networks parts.now.nets parts.now.classes
        parts.now.pairs)) }
    ensures value { IfOk result
        (λ v. v ≡ value_of scale.nm lib.now placing.now parts.now.networks parts.now.nets parts.now.classes
        parts.now.pairs) }
    ensures few { IfOk result (λ v. length v.pairs ≤ MOST_PAIRS) }
{
    let beside = pass_over_network(alloc, first, parts, names)?;
    let Nets { nets, notes } = nets_of(alloc, first, parts, names, scale, lib, placing)?;
    let Classes {
        classes,
        notes: in_classes,
    } = match classes_of(alloc, first, &parts.classes, scale, lib) {
        Ok(classes) => classes,
        Err(error) => {
            drop(nets);
            return Err(error);
        }
    };
    let Pairs {
        pairs,
        notes: in_pairs,
    } = match read_pairs(alloc, first, &parts.pairs, &parts.classes, scale) {
        Ok(pairs) => pairs,
        Err(error) => {
            drop((nets, classes));
            return Err(error);
        }
    };
    let in_rules = notes.saturating_add(in_classes).saturating_add(in_pairs);
    Ok(Network {
        nets,
        classes,
        pairs,
        notes: beside.saturating_add(in_rules),
    })
}

fn note_network(
    alloc: Global,
    first: &mut Option<Refusal>,
    pcb: &Tree,
    scale: Scale,
    lib: &Library,
    placing: &Placing,
) -> Result<Network, AllocError>
    ensures noted { OnOk result (first.new ≡ noted first.old (network_refusals scale.nm lib.now placing.now pcb.now)) }
    ensures value { IfOk result (λ v. v ≡ network_of scale.nm lib.now placing.now pcb.now) }
    ensures few { IfOk result (λ v. length v.pairs ≤ MOST_PAIRS) }
{
    let parts = sections_of(alloc, pcb)?;
    let names = match NameIndex::new(alloc, &parts.nets, 1) {
        Ok(names) => names,
        Err(error) => {
            drop(parts);
            return Err(error);
        }
    };
    let network = parts_of(alloc, first, &parts, &names, scale, lib, placing);
    drop((names, parts));
    network
}

/// The nets, classes and class pairs of all `network` sections of a design together.
/// Lengths are in nm; components, pins, padstacks and classes are indices that count from 0.
///
/// # Errors
///
/// The first of the refusals 9, 10, 13, 14, 16, 17, 18, 19, 21, 23 (nets), 25 and 26 in these sections,
/// or want of memory; that is the answer, too, where the class pairs are more than `MOST_PAIRS`.
pub fn read_network(
    alloc: Global,
    pcb: &Tree,
    s: Scale,
    lib: &Library,
    placing: &Placing,
) -> Result<Network, ReadFault>
    ensures reads { Reads (network_refusals s.nm lib.now placing.now pcb.now)
        (λ v. v ≡ network_of s.nm lib.now placing.now pcb.now) result }
    ensures sound { HasFewPlaces placing.now → IfOk result (IsNetworkSound lib.now placing.now) }
    ensures few_pairs { IfOk result (λ v. length v.pairs ≤ MOST_PAIRS) }
{
    let mut first = None;
    let network = match note_network(alloc, &mut first, pcb, s, lib, placing) {
        Ok(network) => network,
        Err(error) => return Err(ReadFault::Memory(error)),
    };
    match first {
        Some(refusal) => Err(ReadFault::Refused(refusal)),
        None => Ok(network),
    }
}
