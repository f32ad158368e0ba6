//! The placement of a design: the components of all its sections together.
//! Source: SPECCTRA reference, placement descriptor. Names may be defined after their use.

ghost use Rattle.std.specs.Prelude.{◌≡◌, ◌∷◌, ◌++◌, ◌+◌, ◌<◌, [], IfOk, OnOk, length, map};
ghost use Rattle.std.specs.Option.{option_map_or};
ghost use Rattle.dsn_shapes.specs.Limits.{past_limit};
ghost use Rattle.dsn_shapes.specs.Lists.{capped};
ghost use Rattle.dsn_shapes.specs.Names.{same_names};
ghost use Rattle.dsn_shapes.specs.Refusals.{Reads, noted};
ghost use Rattle.dsn_shapes.specs.Within.{IsLibraryWithin};
ghost use Rattle.dsn_placement.specs.declared.place.Laid.{Laid as TheLaid};
ghost use Rattle.std.specs.List.{flat_map};
ghost use Rattle.dsn_placement.specs.Places.{component_laid, component_refusals, image_names, places_in};
ghost use Rattle.dsn_placement.specs.Placing.{adds, all_laid, components, limit_refusals};
ghost use Rattle.dsn_placement.specs.Placing.{lists_left_out, lists_passed, first_past, placement_refusals};
ghost use Rattle.dsn_placement.specs.Placing.{placements, placing_of};
ghost use Rattle.dsn_placement.specs.Sound.{HasFewImages, IsPlacingSound};

use crate::place::{Around, Laid, read_components};
use dsn_shapes::{
    Library, ListKind, NameIndex, Place, Placing, ReadFault, Refusal, Structure, Trees, What,
    most_of, names_of, note, pass_over, past_limit,
};
use dsn_tree::Tree;
use dsn_units::Scale;
use geo_kernel::List;
use std::alloc::{AllocError, Global};

// The sections of a placement, the component lists in them, and the components in these.
#[derive(Drop)]
struct Sections<'a> {
    placements: Trees<'a>,
    components: Trees<'a>,
    places: Trees<'a>,
}

fn sections_of<'a>(alloc: Global, pcb: &'a Tree) -> Result<Sections<'a>, AllocError>
    ensures placements { IfOk result (λ s. s.placements ≡ placements pcb.now) }
    ensures components { IfOk result (λ s. s.components ≡ components pcb.now) }
    ensures places { IfOk result (λ s. s.places ≡ places_in (components pcb.now)) }
{
    let placements = Trees::in_list(alloc, pcb, b"placement")?;
    let components = placements.headed(alloc, b"component")?;
    let places = components.headed(alloc, b"place")?;
    Ok(Sections {
        placements,
        components,
        places,
    })
}

fn adds(what: What, laid: &Laid) -> u64
    ensures { result ≡ adds what laid.now }
{
    match what {
        What::Pins => laid.pins,
        What::Items => laid.items,
        _ => 0,
    }
}

// Where the component begins with which a count first passes its limit.
fn place_past(what: What, before: u64, laid: &[Laid]) -> Option<u64>
    ensures { option_map_or (λ at. past_limit what at ∷ []) result [] ≡ first_past what before laid.now }
{
    let limit = most_of(what);
    let mut count = before;
    for component in laid {
        count = count.saturating_add(adds(what, component));
        if count > limit {
            return Some(component.at);
        }
    }
    None
}

fn refuse_past(first: &mut Option<Refusal>, what: What, before: u64, laid: &[Laid])
    ensures { first.new ≡ noted first.old (first_past what before laid.now) }
{
    if let Some(at) = place_past(what, before, laid) {
        note(first, past_limit(what, at));
    }
}

fn places_of(alloc: Global, laid: List<Laid>) -> Result<List<Place>, AllocError>
    ensures { IfOk result (λ ps. ps ≡ map (λ (l : TheLaid). l.place) laid) }
{
    let mut places = List::new(alloc);
    for component in laid.into_vec() {
        let Laid {
            place,
            at: _,
            pins: _,
            items: _,
        } = component;
        places.push(place)?;
    }
    Ok(places)
}

// The components of the image lists, counted behind the items that there are before.
#[tactic(auto, unfolding(crate::specs::Placing::limit_refusals))]
fn read_places(
    alloc: Global,
    first: &mut Option<Refusal>,
    components: &Trees,
    around: Around,
    before: u64,
) -> Result<List<Place>, AllocError>
    requires { IsLibraryWithin around.library.now }
    ensures noted { OnOk result
        (first.new ≡ noted first.old
        (flat_map (component_refusals around.entry.scale.nm around.entry.flip_last around.entry.library.now)
        components.now
        ++ limit_refusals before
        (flat_map (component_laid around.entry.scale.nm around.entry.flip_last around.entry.library.now)
        components.now))) }
    ensures value { IfOk result
        (λ ps. ps ≡ map (λ (l : TheLaid). l.place)
        (flat_map (component_laid around.entry.scale.nm around.entry.flip_last around.entry.library.now)
        components.now)) }
{
    let names = names_of(alloc, around.library.images.as_slice())?;
    let laid = read_components(alloc, first, components.as_slice(), around, &names);
    drop(names);
    let laid = laid?;
    refuse_past(first, What::Pins, 0, laid.as_slice());
    refuse_past(first, What::Items, before, laid.as_slice());
    places_of(alloc, laid)
}

// What stands in these sections, counted behind the items that there are before.
fn note_sections(
    alloc: Global,
    first: &mut Option<Refusal>,
    parts: &Sections,
    around: Around,
    before: u64,
) -> Result<Placing, AllocError>
    requires { IsLibraryWithin around.library.now }
    ensures noted { OnOk result
        (first.new ≡ noted first.old
        (lists_left_out parts.now.placements parts.now.components parts.now.places
        ++ (same_names 1 parts.now.places
        ++ (flat_map (component_refusals around.entry.scale.nm around.entry.flip_last around.entry.library.now)
        parts.now.components
        ++ limit_refusals before
        (flat_map (component_laid around.entry.scale.nm around.entry.flip_last around.entry.library.now)
        parts.now.components))))) }
    ensures value { IfOk result
        (λ v. v ≡ record {
          places = map (λ (l : TheLaid). l.place)
              (flat_map (component_laid around.entry.scale.nm around.entry.flip_last around.entry.library.now)
              parts.now.components);
          notes = capped (lists_passed parts.now.placements parts.now.components parts.now.places);
        }) }
{
    let beside = pass_over(first, &parts.placements, ListKind::Placement);
    let in_components = pass_over(first, &parts.components, ListKind::Component);
    let in_places = pass_over(first, &parts.places, ListKind::Component);
    let notes = beside.saturating_add(in_components.saturating_add(in_places));
    let names = NameIndex::new(alloc, &parts.places, 1)?;
    names.refuse_same(first, &parts.places, 1);
    drop(names);
    let places = read_places(alloc, first, &parts.components, around, before)?;
    Ok(Placing { places, notes })
}

#[tactic(auto, unfolding(crate::specs::Placing::all_laid))]
fn note_placement(
    alloc: Global,
    first: &mut Option<Refusal>,
    pcb: &Tree,
    s: Scale,
    st: &Structure,
    lib: &Library,
) -> Result<Placing, AllocError>
    requires { IsLibraryWithin lib.now }
    ensures noted { OnOk result (first.new ≡ noted first.old (placement_refusals s.nm st.now lib.now pcb.now)) }
    ensures value { IfOk result (λ v. v ≡ placing_of s.nm st.now lib.now pcb.now) }
{
    let parts = sections_of(alloc, pcb)?;
    let around = Around {
        scale: s,
        flip_last: st.flip_last,
        library: lib,
    };
    let before = (st.bounds.len() as u64).saturating_add(st.bans.len() as u64);
    note_sections(alloc, first, &parts, around, before)
}

/// The components of all `placement` sections of a design together, of the images of `lib`.
/// Lengths are in nm; a component's image is an index that counts from 0.
/// A component without coordinates isn't placed.
///
/// # Errors
///
/// The first of the refusals 9, 10, 13, 15, 21, 22 and 23 (placed pins; items) in these sections,
/// or want of memory.
pub fn read_placement(
    alloc: Global,
    pcb: &Tree,
    s: Scale,
    st: &Structure,
    lib: &Library,
) -> Result<Placing, ReadFault>
    requires { IsLibraryWithin lib.now }
    ensures reads { Reads (placement_refusals s.nm st.now lib.now pcb.now)
        (λ v. v ≡ placing_of s.nm st.now lib.now pcb.now)
        result }
    ensures sound { HasFewImages lib.now → IfOk result (IsPlacingSound st.now lib.now) }
{
    let mut first = None;
    let placing = match note_placement(alloc, &mut first, pcb, s, st, lib) {
        Ok(placing) => placing,
        Err(error) => return Err(ReadFault::Memory(error)),
    };
    match first {
        Some(refusal) => Err(ReadFault::Refused(refusal)),
        None => Ok(placing),
    }
}
