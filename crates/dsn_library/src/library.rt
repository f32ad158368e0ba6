//! The library of a design: the padstacks and the images of all its sections together.
//! Source: SPECCTRA reference, library descriptor. Names may be defined after their use.

ghost use Rattle.std.specs.Prelude.{◌≡◌, ◌++◌, map, IfOk, OnOk};
ghost use Rattle.dsn_shapes.specs.Lists.{capped};
ghost use Rattle.dsn_shapes.specs.Names.{names_at};
ghost use Rattle.dsn_shapes.specs.Refusals.{Reads, noted};
ghost use Rattle.dsn_shapes.specs.Within.{IsLibraryWithin};
ghost use Rattle.dsn_library.specs.Images.{image_of, images_refusals};
ghost use Rattle.dsn_library.specs.Padstacks.{stack_of, stacks_refusals};
ghost use Rattle.dsn_library.specs.Sound.{IsLibrarySound};
ghost use Rattle.dsn_library.specs.Whole.{images, libraries, library_left_out, library_notes};
ghost use Rattle.dsn_library.specs.Whole.{library_of, library_refusals, padstacks};

use crate::image::read_images;
use crate::padstack::read_stacks;
use dsn_shapes::{
    Layer, Library, ListKind, NameIndex, ReadFault, Refusal, Trees, ban_notes, keepout_heads,
    pass_over, shape_notes,
};
use dsn_tree::Tree;
use dsn_units::Scale;
use geo_kernel::List;
use std::alloc::{AllocError, Global};

// The sections of a library, and the padstacks and images in them.
#[derive(Drop)]
struct Sections<'a> {
    libraries: Trees<'a>,
    padstacks: Trees<'a>,
    images: Trees<'a>,
}

fn sections_of<'a>(alloc: Global, pcb: &'a Tree) -> Result<Sections<'a>, AllocError>
    ensures libraries { IfOk result (λ s. s.libraries ≡ libraries pcb.now) }
    ensures padstacks { IfOk result (λ s. s.padstacks ≡ padstacks pcb.now) }
    ensures images { IfOk result (λ s. s.images ≡ images pcb.now) }
{
    let libraries = Trees::in_list(alloc, pcb, b"library")?;
    let padstacks = libraries.headed(alloc, b"padstack")?;
    let images = libraries.headed(alloc, b"image")?;
    Ok(Sections {
        libraries,
        padstacks,
        images,
    })
}

// Passes over what stands directly in the sections, the images, the pins and the padstacks, and counts what stands
// beside the forms of shapes and keepouts.
fn pass_over_library(
    alloc: Global,
    first: &mut Option<Refusal>,
    parts: &Sections,
) -> Result<u64, AllocError>
    ensures noted { OnOk result
        (first.new ≡ noted first.old (library_left_out parts.now.libraries parts.now.images parts.now.padstacks)) }
    ensures value { IfOk result
        (λ n. n ≡ capped (library_notes parts.now.libraries parts.now.images parts.now.padstacks)) }
{
    let pins = parts.images.headed(alloc, b"pin")?;
    let in_libraries = pass_over(first, &parts.libraries, ListKind::Library);
    let in_images = pass_over(first, &parts.images, ListKind::Image);
    let in_pins = pass_over(first, &pins, ListKind::Pin);
    let in_padstacks = pass_over(first, &parts.padstacks, ListKind::Padstack);
    let in_sections = in_libraries.saturating_add(in_images);
    let in_parts = in_pins.saturating_add(in_padstacks);
    drop(pins);
    let shapes = parts.padstacks.headed(alloc, b"shape")?;
    let keepouts = parts.images.lists(alloc, keepout_heads())?;
    let beside = shape_notes(&shapes).saturating_add(ban_notes(&keepouts));
    Ok(in_sections.saturating_add(in_parts).saturating_add(beside))
}

// The library of these sections.
fn note_sections(
    alloc: Global,
    first: &mut Option<Refusal>,
    parts: &Sections,
    s: Scale,
    layers: &List<Layer>,
) -> Result<Library, AllocError>
    ensures noted { OnOk result
        (first.new ≡ noted first.old
        (library_left_out parts.now.libraries parts.now.images parts.now.padstacks
        ++ (stacks_refusals s.nm layers.now parts.now.padstacks
        ++ images_refusals s.nm layers.now (names_at 1 parts.now.padstacks) parts.now.images))) }
    ensures stacks { IfOk result (λ v. v.stacks ≡ map (stack_of s.nm layers.now) parts.now.padstacks) }
    ensures images { IfOk result
        (λ v. v.images ≡ map (image_of s.nm layers.now (names_at 1 parts.now.padstacks)) parts.now.images) }
    ensures notes { IfOk result
        (λ v. v.notes ≡ capped (library_notes parts.now.libraries parts.now.images parts.now.padstacks)) }
{
    let notes = pass_over_library(alloc, first, parts)?;
    let names = NameIndex::new(alloc, &parts.padstacks, 1)?;
    let stacks = read_stacks(alloc, first, &parts.padstacks, &names, s, layers)?;
    let images = read_images(alloc, first, &parts.images, &names, s, layers)?;
    Ok(Library {
        stacks,
        images,
        notes,
    })
}

fn note_library(
    alloc: Global,
    first: &mut Option<Refusal>,
    pcb: &Tree,
    s: Scale,
    layers: &List<Layer>,
) -> Result<Library, AllocError>
    ensures noted { OnOk result (first.new ≡ noted first.old (library_refusals s.nm layers.now pcb.now)) }
    ensures value { IfOk result (λ v. v ≡ library_of s.nm layers.now pcb.now) }
{
    let parts = sections_of(alloc, pcb)?;
    note_sections(alloc, first, &parts, s, layers)
}

/// The padstacks and images of all `library` sections of a design together.
/// Lengths are in nm; a pin's padstack and its layers are indices that count from 0.
///
/// # Errors
///
/// The first of the refusals 9, 10, 12, 13, 14, 21, 22 and 23 (vertices of a shape) in these sections,
/// or want of memory.
pub fn read_library(
    alloc: Global,
    pcb: &Tree,
    s: Scale,
    layers: &List<Layer>,
) -> Result<Library, ReadFault>
    ensures reads { Reads (library_refusals s.nm layers.now pcb.now) (λ v. v ≡ library_of s.nm layers.now pcb.now)
        result }
    ensures within { IfOk result IsLibraryWithin }
    ensures sound { IfOk result IsLibrarySound }
{
    let mut first = None;
    let library = match note_library(alloc, &mut first, pcb, s, layers) {
        Ok(library) => library,
        Err(error) => return Err(ReadFault::Memory(error)),
    };
    match first {
        Some(refusal) => Err(ReadFault::Refused(refusal)),
        None => Ok(library),
    }
}
