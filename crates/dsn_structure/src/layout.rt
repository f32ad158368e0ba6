//! The structure of a design: the layers, boundaries, keepouts, vias and rules of all its sections together.
//! Source: SPECCTRA reference, structure descriptor.

ghost use Rattle.std.specs.Prelude.{◌≡◌, IfOk, OnOk};
ghost use Rattle.dsn_shapes.specs.Refusals.{Reads, noted};
ghost use Rattle.dsn_structure.specs.Layout.{boundaries, keepouts, refusals_of, rule_lists, structure_of};
ghost use Rattle.dsn_structure.specs.Layout.{structure_refusals, structures, value_of};
ghost use Rattle.dsn_structure.specs.Sound.{IsStructureSound};

use crate::areas::{Areas, read_areas};
use crate::layers::{Frame, read_frame};
use crate::vias::{Vias, read_switches};
use dsn_shapes::{ReadFault, Refusal, Rules, Structure, Trees, keepout_heads, read_rules};
use dsn_tree::Tree;
use dsn_units::Scale;
use std::alloc::{AllocError, Global};

// The structure of these sections, with these boundaries, keepouts and rules.
#[tactic(auto, unfolding(crate::specs::Layout::refusals_of, crate::specs::Layout::value_of))]
fn note_parts(
    alloc: Global,
    first: &mut Option<Refusal>,
    pcb: &Tree,
    lists: &Lists,
    s: Scale,
) -> Result<Structure, AllocError>
    ensures noted { OnOk result
        (first.new ≡ noted first.old
        (refusals_of s.nm pcb.now lists.now.structs lists.now.bounds lists.now.bans lists.now.rules)) }
    ensures value { IfOk result
        (λ v. v ≡ value_of s.nm pcb.now lists.now.structs lists.now.bounds lists.now.bans lists.now.rules) }
{
    let Frame { layers, notes } = read_frame(alloc, first, pcb, &lists.structs, &lists.bounds)?;
    let areas = match read_areas(alloc, first, &lists.bounds, &lists.bans, s, &layers) {
        Ok(areas) => areas,
        Err(error) => {
            drop(layers);
            return Err(error);
        }
    };
    let vias = match read_switches(alloc, first, pcb, &lists.structs) {
        Ok(vias) => vias,
        Err(error) => {
            drop((layers, areas));
            return Err(error);
        }
    };
    let rules = match read_rules(alloc, first, &lists.rules, s) {
        Ok(rules) => rules,
        Err(error) => {
            drop((layers, areas, vias));
            return Err(error);
        }
    };
    let Areas {
        bounds,
        bans,
        notes: in_areas,
    } = areas;
    let Vias {
        names,
        at_smd,
        flip_last,
    } = vias;
    let Rules {
        set,
        notes: in_rules,
    } = rules;
    Ok(Structure {
        layers,
        bounds,
        bans,
        vias: names,
        rules: set,
        via_at_smd: at_smd,
        flip_last,
        notes: notes.saturating_add(in_areas.saturating_add(in_rules)),
    })
}

// The sections of a structure, and the lists in them that are read as they are.
#[derive(Drop)]
struct Lists<'a> {
    structs: Trees<'a>,
    bounds: Trees<'a>,
    bans: Trees<'a>,
    rules: Trees<'a>,
}

fn lists_of<'a>(alloc: Global, pcb: &'a Tree) -> Result<Lists<'a>, AllocError>
    ensures structs { IfOk result (λ l. l.structs ≡ structures pcb.now) }
    ensures bounds { IfOk result (λ l. l.bounds ≡ boundaries (structures pcb.now)) }
    ensures bans { IfOk result (λ l. l.bans ≡ keepouts (structures pcb.now)) }
    ensures rules { IfOk result (λ l. l.rules ≡ rule_lists (structures pcb.now)) }
{
    let structs = Trees::in_list(alloc, pcb, b"structure")?;
    let bounds = structs.headed(alloc, b"boundary")?;
    let bans = structs.lists(alloc, keepout_heads())?;
    let rules = structs.headed(alloc, b"rule")?;
    Ok(Lists {
        structs,
        bounds,
        bans,
        rules,
    })
}

#[tactic(auto, unfolding(crate::specs::Layout::structure_of, crate::specs::Layout::structure_refusals))]
fn note_structure(
    alloc: Global,
    first: &mut Option<Refusal>,
    pcb: &Tree,
    s: Scale,
) -> Result<Structure, AllocError>
    ensures noted { OnOk result (first.new ≡ noted first.old (structure_refusals s.nm pcb.now)) }
    ensures value { IfOk result (λ v. v ≡ structure_of s.nm pcb.now) }
{
    let lists = lists_of(alloc, pcb)?;
    let structure = note_parts(alloc, first, pcb, &lists, s);
    drop(lists);
    structure
}

/// The layers, boundaries, keepouts, vias and rules of all `structure` sections of a design together.
/// Lengths are in nm; layers and padstacks are named, and layers counted from 0.
///
/// # Errors
///
/// The first of the refusals 8 (no structure or no layer), 9 to 14, 21, 22, 23 (layers, items and the
/// vertices of a shape) and 24 of these sections, or want of memory.
pub fn read_structure(alloc: Global, pcb: &Tree, s: Scale) -> Result<Structure, ReadFault>
    ensures reads { Reads (structure_refusals s.nm pcb.now) (λ v. v ≡ structure_of s.nm pcb.now) result }
    ensures sound { IfOk result IsStructureSound }
{
    let mut first = None;
    let structure = match note_structure(alloc, &mut first, pcb, s) {
        Ok(structure) => structure,
        Err(error) => return Err(ReadFault::Memory(error)),
    };
    match first {
        Some(refusal) => {
            drop(structure);
            Err(ReadFault::Refused(refusal))
        }
        None => Ok(structure),
    }
}
