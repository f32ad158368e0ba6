//! The wiring of a design: the wires and vias of all its sections together, in the text's order.
//! Source: SPECCTRA reference, wiring descriptor.

ghost use Rattle.std.specs.Prelude.{◌≡◌, map, IfOk, OnOk};
ghost use Rattle.std.specs.List.{flat_map};
ghost use Rattle.dsn_shapes.specs.Names.{stack_names};
ghost use Rattle.dsn_shapes.specs.Refusals.{Reads, noted};
ghost use Rattle.dsn_wiring.specs.Nets.{net_names};
ghost use Rattle.dsn_wiring.specs.Sound.{HasFewStacks, IsWiringSound};
ghost use Rattle.dsn_wiring.specs.Whole.{metal_of, metal_refusals, refusals_of};
ghost use Rattle.dsn_wiring.specs.Whole.{wire_lists, wire_of, wiring_of, wiring_refusals, wirings};

use crate::counts::refuse_many;
use crate::net::{is_fixed, net_of};
use crate::via::note_via;
use crate::wire::note_wire;
use dsn_shapes::{
    Layer, Library, ListKind, NameIndex, Network, Part, Placing, ReadFault, ReadWire, Refusal,
    Stack, Structure, Trees, Wiring, at_of, names_of, pass_over, read_each,
};
use dsn_tree::{Tree, is_headed};
use dsn_units::Scale;
use geo_kernel::List;
use pcb_model::Metal;
use std::alloc::{AllocError, Global};

// Wires and vias, whose padstacks and nets have the names of the two indices.
#[derive(Drop)]
struct Wires<'a, 'b> {
    scale: Scale,
    layers: &'a List<Layer>,
    stacks: &'a List<Stack>,
    names: &'a NameIndex<'b>,
    nets: &'a NameIndex<'b>,
}

#[tactic(auto, unfolding(crate::specs::Whole::metal_of, crate::specs::Whole::metal_refusals))]
fn note_metal(
    alloc: Global,
    first: &mut Option<Refusal>,
    tree: &Tree,
    s: Scale,
    layers: &List<Layer>,
    stacks: &List<Stack>,
    names: &NameIndex,
) -> Result<Metal, AllocError>
    ensures noted { OnOk result
        (first.new ≡ noted first.old (metal_refusals s.nm layers.now stacks.now names.now tree.now)) }
    ensures value { IfOk result (λ m. m ≡ metal_of s.nm layers.now names.now tree.now) }
{
    if is_headed(tree, b"via") {
        Ok(note_via(first, tree, s, stacks, names))
    } else {
        note_wire(alloc, first, tree, s, layers)
    }
}

impl<'a, 'b> Part<ReadWire> for Wires<'a, 'b> {
    ghost use Rattle.dsn_wiring.specs.Whole.{refusals_of, wire_of};

    ghost refusals = { λ p t. refusals_of p.scale.nm p.layers.now p.stacks.now p.names.now p.nets.now t };

    ghost value = { λ p t. wire_of p.scale.nm p.layers.now p.names.now p.nets.now t };

    #[tactic(auto, unfolding(crate::specs::Whole::refusals_of, crate::specs::Whole::wire_of))]
    fn read(
        &self,
        alloc: Global,
        first: &mut Option<Refusal>,
        tree: &Tree,
    ) -> Result<ReadWire, AllocError> {
        let net = net_of(first, self.nets, tree);
        let metal = note_metal(
            alloc,
            first,
            tree,
            self.scale,
            self.layers,
            self.stacks,
            self.names,
        )?;
        Ok(ReadWire {
            at: at_of(tree),
            net,
            fixed: is_fixed(net, tree),
            metal,
        })
    }
}

// Reads wires and vias by the names of the padstacks and nets.
fn read_wires(
    alloc: Global,
    first: &mut Option<Refusal>,
    wires: &Trees,
    scale: Scale,
    st: &Structure,
    lib: &Library,
    net: &Network,
) -> Result<List<ReadWire>, AllocError>
    ensures noted { OnOk result
        (first.new ≡ noted first.old
        (flat_map (refusals_of scale.nm st.now.layers lib.now.stacks (stack_names lib.now.stacks)
        (net_names net.now.nets)) wires.now)) }
    ensures value { IfOk result
        (λ v. v ≡ map (wire_of scale.nm st.now.layers (stack_names lib.now.stacks) (net_names net.now.nets))
        wires.now) }
{
    let names = names_of(alloc, lib.stacks.as_slice())?;
    let nets = names_of(alloc, net.nets.as_slice())?;
    let part = Wires {
        scale,
        layers: &st.layers,
        stacks: &lib.stacks,
        names: &names,
        nets: &nets,
    };
    read_each(alloc, &part, first, wires)
}

#[tactic(auto, unfolding(crate::specs::Whole::lists_left_out, crate::specs::Whole::lists_passed))]
fn note_wiring(
    alloc: Global,
    first: &mut Option<Refusal>,
    pcb: &Tree,
    s: Scale,
    st: &Structure,
    lib: &Library,
    placing: &Placing,
    net: &Network,
) -> Result<Wiring, AllocError>
    ensures noted { OnOk result
        (first.new ≡ noted first.old (wiring_refusals s.nm st.now lib.now placing.now net.now pcb.now)) }
    ensures value { IfOk result (λ v. v ≡ wiring_of s.nm st.now lib.now placing.now net.now pcb.now) }
{
    let sections = Trees::in_list(alloc, pcb, b"wiring")?;
    let lists = match sections.lists(alloc, &[b"wire".as_slice(), b"via"]) {
        Ok(lists) => lists,
        Err(error) => {
            drop(sections);
            return Err(error);
        }
    };
    let in_sections = pass_over(first, &sections, ListKind::Wiring);
    let in_lists = pass_over(first, &lists, ListKind::Wiring);
    let notes = in_sections.saturating_add(in_lists);
    drop(sections);
    refuse_many(first, st, lib, placing, &lists);
    match read_wires(alloc, first, &lists, s, st, lib, net) {
        Ok(wires) => {
            drop(lists);
            Ok(Wiring { wires, notes })
        }
        Err(error) => {
            drop(lists);
            Err(error)
        }
    }
}

/// The wires and vias of all `wiring` sections of a design together, in the text's order.
/// Lengths are in nm; layers, padstacks and nets are indices that count from 0.
/// A wire or via without a net, or of type `fix` or `protect`, is fixed.
///
/// # Errors
///
/// The first of the refusals 9, 10, 12, 14, 20, 21, 22 and 23 (vertices of a path, items of the design)
/// in these sections, or want of memory.
pub fn read_wiring(
    alloc: Global,
    pcb: &Tree,
    s: Scale,
    st: &Structure,
    lib: &Library,
    placing: &Placing,
    net: &Network,
) -> Result<Wiring, ReadFault>
    ensures reads { Reads (wiring_refusals s.nm st.now lib.now placing.now net.now pcb.now)
        (λ v. v ≡ wiring_of s.nm st.now lib.now placing.now net.now pcb.now) result }
    ensures sound { HasFewStacks lib.now → IfOk result (IsWiringSound st.now lib.now net.now) }
{
    let mut first = None;
    let wiring = match note_wiring(alloc, &mut first, pcb, s, st, lib, placing, net) {
        Ok(wiring) => wiring,
        Err(error) => return Err(ReadFault::Memory(error)),
    };
    match first {
        Some(refusal) => Err(ReadFault::Refused(refusal)),
        None => Ok(wiring),
    }
}
