//! The design that the sections of a text make together.
//! Each field is made by itself; the fixed items come last, since vias are of the design's padstacks.

ghost use Rattle.std.specs.Prelude.{◌≡◌, ◌++◌, [], All, IfOk, OnOk};
ghost use Rattle.pcb_model.specs.Bounds.{IsFit};
ghost use Rattle.pcb_model.specs.declared.design.Padstack.{Padstack as TheStack};
ghost use Rattle.dsn_design.specs.Counts.{IsCountedOf, bare_with, connected, counted_items, counted_nets};
ghost use Rattle.dsn_design.specs.Counts.{counted_with, labelled, listed_items, outlined};
ghost use Rattle.dsn_design.specs.Counts.{populated};
ghost use Rattle.dsn_design.specs.Usable.{AreUsable, padstacks_of, usables};
ghost use Rattle.dsn_design.specs.Fit.{ArePartsFit};
ghost use Rattle.dsn_design.specs.Items.{free_wiring, loops_of};
ghost use Rattle.dsn_design.specs.Made.{ArePadstacksOf, bounds_of, layers_of, notes_of};
ghost use Rattle.dsn_design.specs.Made.{structure_vias};

use crate::edges::loops_of;
use crate::items::{numbered, push_bans, push_edges, push_places};
use crate::nets::{Lists, classes_of, nets_of, pairs_of, stack_numbers, via_notes};
use crate::parts::{Parts, layer_count};
use crate::pins::{Board, all_pins, components_of, first_pins};
use crate::stacks::padstacks_of;
use crate::wiring::{free_wiring, push_fixed};
use dsn_network::Owners;
use dsn_shapes::{Head, Layer, LayerShape, Structure, copy_rules};
use geo_kernel::{List, Name, Point};
use pcb_model::{BoardLayer, Design, FreeWire, Item, Net, Padstack, Pin, RuleSet};
use std::alloc::{AllocError, Global};

fn layers_of(alloc: Global, layers: &[Layer]) -> Result<List<BoardLayer>, AllocError>
    ensures { IfOk result (λ ls. ls ≡ layers_of layers.now) }
{
    let mut all = List::new(alloc);
    for layer in layers {
        all.push(BoardLayer {
            name: List::from_slice(alloc, layer.name.as_slice())?,
            power: layer.power,
        })?;
    }
    Ok(all)
}

fn bounds_of(alloc: Global, bounds: &[LayerShape]) -> Result<List<List<List<Point>>>, AllocError>
    ensures { IfOk result (λ bs. bs ≡ bounds_of bounds.now) }
{
    let mut all = List::new(alloc);
    for bound in bounds {
        all.push(loops_of(alloc, &bound.spine)?)?;
    }
    Ok(all)
}

fn copy_name(alloc: Global, name: &Option<Name>) -> Result<Option<Name>, AllocError>
    ensures { IfOk result (λ n. n ≡ name.now) }
{
    match name {
        Some(text) => Ok(Some(List::from_slice(alloc, text.as_slice())?)),
        None => Ok(None),
    }
}

fn notes_of(parts: &Parts, stacks: &List<Padstack>, vias: &List<u32>) -> u64
    requires { vias.now ≡ structure_vias parts.now }
    ensures { result ≡ notes_of parts.now stacks.now }
{
    let unusable = via_notes(stacks, vias.as_slice(), parts.network.classes.as_slice());
    let front = parts.head.notes.saturating_add(parts.structure.notes);
    let middle = parts.library.notes.saturating_add(parts.placing.notes);
    let back = parts.network.notes.saturating_add(parts.wiring.notes);
    front
        .saturating_add(middle)
        .saturating_add(back)
        .saturating_add(unusable)
}

fn counted_nets(
    alloc: Global,
    parts: &Parts,
    stacks: &List<Padstack>,
    vias: &List<u32>,
) -> Result<List<Net>, AllocError>
    requires { vias.now ≡ structure_vias parts.now }
    ensures { IfOk result (λ nets. nets ≡ counted_nets parts.now stacks.now) }
{
    let firsts = first_pins(alloc, &parts.library, parts.placing.places.as_slice())?;
    let lists = Lists {
        stacks,
        firsts: &firsts,
        vias,
        classes: &parts.network.classes,
    };
    nets_of(alloc, &lists, parts.network.nets.as_slice())
}

// The nets, classes and class pairs of a design, and how many lists were passed over.
fn connect(alloc: Global, parts: &Parts, design: &mut Design) -> Result<(), AllocError>
    ensures { OnOk result (design.new ≡ connected parts.now design.old) }
{
    let vias = stack_numbers(
        alloc,
        &parts.library.stacks,
        parts.structure.vias.as_slice(),
    )?;
    design.notes = notes_of(parts, &design.padstacks, &vias);
    design.nets = counted_nets(alloc, parts, &design.padstacks, &vias)?;
    design.classes = classes_of(alloc, parts.network.classes.as_slice())?;
    design.pairs = pairs_of(alloc, parts.network.pairs.as_slice())?;
    Ok(())
}

// The placed components of a design and their pins.
fn populate(alloc: Global, parts: &Parts, design: &mut Design) -> Result<(), AllocError>
    requires { ArePartsFit parts.now }
    ensures { OnOk result (design.new ≡ populated parts.now design.old) }
{
    let board = Board {
        parts,
        owners: Owners::of(alloc, parts.network.nets.as_slice())?,
        stacks: &design.padstacks,
    };
    let pins = all_pins(alloc, &board);
    drop(board);
    design.pins = pins?;
    design.components = components_of(alloc, &parts.library, parts.placing.places.as_slice())?;
    Ok(())
}

// The names of a design and of what wrote it, and its layers, boundaries and rules.
fn outline(
    alloc: Global,
    head: &Head,
    structure: &Structure,
    design: &mut Design,
) -> Result<(), AllocError>
    ensures { OnOk result (design.new ≡ outlined structure.now (labelled head.now design.old)) }
{
    design.name = List::from_slice(alloc, head.name.as_slice())?;
    design.host_cad = copy_name(alloc, &head.host_cad)?;
    design.host_version = copy_name(alloc, &head.host_version)?;
    design.layers = layers_of(alloc, structure.layers.as_slice())?;
    design.bounds = bounds_of(alloc, structure.bounds.as_slice())?;
    design.rules = copy_rules(alloc, &structure.rules)?;
    Ok(())
}

// A design of these padstacks and this free wiring, with nothing else in it yet.
fn bare(alloc: Global, parts: &Parts, padstacks: List<Padstack>, free: List<FreeWire>) -> Design
    ensures { result ≡ bare_with parts.now padstacks free }
{
    Design {
        name: List::new(alloc),
        unit: parts.head.unit,
        per: parts.head.per,
        host_cad: None,
        host_version: None,
        layers: List::new(alloc),
        bounds: List::new(alloc),
        padstacks,
        components: List::new(alloc),
        pins: List::new(alloc),
        nets: List::new(alloc),
        classes: List::new(alloc),
        rules: RuleSet {
            width: None,
            plain: None,
            typed: List::new(alloc),
        },
        pairs: List::new(alloc),
        via_at_smd: parts.structure.via_at_smd,
        fixed: List::new(alloc),
        free,
        notes: 0,
    }
}

// The design without fixed items.
fn frame_of(
    alloc: Global,
    parts: &Parts,
    stacks: List<Padstack>,
    free: List<FreeWire>,
) -> Result<Design, AllocError>
    requires { ArePartsFit parts.now }
    ensures { IfOk result (λ d. d ≡ counted_with parts.now stacks [] free) }
{
    let mut design = bare(alloc, parts, stacks, free);
    outline(alloc, &parts.head, &parts.structure, &mut design)?;
    populate(alloc, parts, &mut design)?;
    connect(alloc, parts, &mut design)?;
    Ok(design)
}

fn push_items(
    alloc: Global,
    items: &mut List<Item>,
    parts: &Parts,
    frame: &Design,
) -> Result<(), AllocError>
    requires parts_fit { ArePartsFit parts.now }
    requires stacks_fit { All (λ (s : TheStack). All IsFit s.pieces) frame.now.padstacks }
    ensures { OnOk result (items.new ≡ items.old ++ listed_items parts.now frame.now.padstacks) }
{
    let n = layer_count(parts);
    push_edges(alloc, items, n, parts.structure.bounds.as_slice())?;
    push_bans(alloc, items, n, parts.structure.bans.as_slice())?;
    let board = Board {
        parts,
        owners: Owners::of(alloc, parts.network.nets.as_slice())?,
        stacks: &frame.padstacks,
    };
    let pushed = push_places(alloc, items, &board, parts.placing.places.as_slice());
    drop(board);
    pushed?;
    push_fixed(alloc, items, frame, parts.wiring.wires.as_slice())
}

// The fixed items, in the order of their ids, on the frame of a design.
#[tactic(auto, unfolding(crate::specs::Counts::counted_items))]
fn fixed_items(alloc: Global, parts: &Parts, frame: &Design) -> Result<List<Item>, AllocError>
    requires parts_fit { ArePartsFit parts.now }
    requires stacks_fit { All (λ (s : TheStack). All IsFit s.pieces) frame.now.padstacks }
    ensures { IfOk result (λ items. items ≡ counted_items parts.now frame.now.padstacks) }
{
    let mut items = List::new(alloc);
    push_items(alloc, &mut items, parts, frame)?;
    numbered(alloc, items)
}

/// The design that the sections of a text make together.
pub(crate) fn make_design(alloc: Global, parts: &Parts) -> Result<Design, AllocError>
    requires { ArePartsFit parts.now }
    ensures { IfOk result (IsCountedOf parts.now) }
{
    let free = free_wiring(alloc, parts.wiring.wires.as_slice())?;
    let stacks = padstacks_of(alloc, layer_count(parts), &parts.library.stacks)?;
    let mut design = frame_of(alloc, parts, stacks, free)?;
    match fixed_items(alloc, parts, &design) {
        Ok(fixed) => {
            design.fixed = fixed;
            Ok(design)
        }
        Err(error) => {
            drop(design);
            Err(error)
        }
    }
}
