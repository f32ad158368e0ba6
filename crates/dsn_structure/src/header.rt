//! What stands before the sections: the design's name, its resolution and unit, and what wrote it.
//! Source: SPECCTRA reference, pcb, parser, resolution and unit descriptors.

ghost use Rattle.std.specs.Prelude.{◌≡◌, ◌≤◌, IfOk, IfSome, OnOk};
ghost use Rattle.dsn_shapes.specs.Refusals.{Reads, noted};
ghost use Rattle.dsn_structure.specs.Header.{count_of, first_of, head_of, head_refusals};
ghost use Rattle.dsn_structure.specs.Header.{header_left_out, header_notes, host_of, host_refusal, hosts};
ghost use Rattle.dsn_structure.specs.Header.{not_pcb, resolution_count, resolution_refusals};
ghost use Rattle.dsn_structure.specs.Header.{resolution_unit, resolutions, scale_of, scale_refusals};
ghost use Rattle.dsn_structure.specs.Header.{unit_in, unit_of, unit_refusal, units};
ghost use Rattle.dsn_structure.specs.Sound.{IsHeadSound};
ghost use Rattle.std.specs.Option.{option_map_or};

use crate::vias::headed_in;
use dsn_shapes::table::{NO_BOARD, NO_NUMBER, NO_SECTION, NO_UNIT};
use dsn_shapes::{
    Head, ListKind, ReadFault, Refusal, Trees, at_of, name_of, note, nth_word, pass_over, place_of,
    refuse_quoted_name, refused, text_of,
};
use dsn_tree::{Tree, is_headed, word};
use dsn_units::{Scale, read_decimal, whole_number};
use geo_kernel::{List, Name, Unit};
use pcb_model::limits::MOST_PER;
use std::alloc::{AllocError, Global};

fn refuse_no_pcb(first: &mut Option<Refusal>, pcb: &Tree)
    ensures { first.new ≡ noted first.old (not_pcb pcb.now) }
{
    if !(is_headed(pcb, b"pcb") && word(pcb, 1).is_some()) {
        note(first, refused(NO_BOARD, at_of(pcb)));
    }
}

/// The unit that a word names: `inch`, `mil`, `cm`, `mm` or `um`, in any case of letters.
pub fn unit_of(text: &[u8]) -> Option<Unit>
    ensures { result ≡ unit_of text.now }
{
    if text.eq_ignore_ascii_case(b"inch") {
        Some(Unit::Inch)
    } else if text.eq_ignore_ascii_case(b"mil") {
        Some(Unit::Mil)
    } else if text.eq_ignore_ascii_case(b"cm") {
        Some(Unit::Cm)
    } else if text.eq_ignore_ascii_case(b"mm") {
        Some(Unit::Mm)
    } else if text.eq_ignore_ascii_case(b"um") {
        Some(Unit::Um)
    } else {
        None
    }
}

fn refuse_unit(first: &mut Option<Refusal>, tree: &Tree)
    ensures { first.new ≡ noted first.old (unit_refusal tree.now) }
{
    if unit_of(name_of(tree, 1)).is_none() {
        note(first, refused(NO_UNIT, place_of(tree, 1)));
    }
}

/// How many units of a resolution are one of its unit, from 1 to 1,000,000, as 10 in `(resolution um 10)`.
pub fn count_of(tree: &Tree) -> Option<u32>
    ensures value { result ≡ count_of tree.now }
    ensures some { IfSome result (λ n. 1 ≤ n) }
{
    match read_decimal(name_of(tree, 2)) {
        Some(decimal) => match whole_number(&decimal, MOST_PER) {
            Some(n) => { if n == 0 { None } else { Some(n) } }
            None => None,
        },
        None => None,
    }
}

fn refuse_resolution(first: &mut Option<Refusal>, pcb: &Tree, resolutions: &Trees)
    ensures { first.new ≡ noted first.old (resolution_refusals pcb.now (first_of resolutions.now)) }
{
    match resolutions.get(0) {
        Some(tree) => {
            refuse_unit(first, tree);
            if count_of(tree).is_none() {
                note(first, refused(NO_NUMBER, place_of(tree, 2)));
            }
        }
        None => note(first, refused(NO_SECTION, at_of(pcb))),
    }
}

#[tactic(auto, unfolding(crate::specs::Header::resolution_count))]
fn per_of(resolutions: &Trees) -> u64
    ensures { result ≡ resolution_count resolutions.now }
{
    match resolutions.get(0) {
        Some(tree) => match count_of(tree) {
            Some(count) => count as u64,
            None => 0,
        },
        None => 0,
    }
}

fn unit_or(lists: &Trees, other: Unit) -> Unit
    ensures { result ≡ option_map_or unit_in (first_of lists.now) other }
{
    match lists.get(0) {
        Some(tree) => unit_of(name_of(tree, 1)).unwrap_or(Unit::Um),
        None => other,
    }
}

// The resolution, and the scale of the design's numbers.
#[derive(Clone, Copy)]
struct Resolution {
    unit: Unit,
    per: u64,
    scale: Scale,
}

#[tactic(auto, unfolding(crate::specs::Header::scale_refusals))]
fn refuse_scale(first: &mut Option<Refusal>, pcb: &Tree, resolutions: &Trees, units: &Trees)
    ensures { first.new ≡ noted first.old (scale_refusals pcb.now resolutions.now units.now) }
{
    refuse_resolution(first, pcb, resolutions);
    if let Some(tree) = units.get(0) {
        refuse_unit(first, tree);
    }
}

#[tactic(auto, unfolding(crate::specs::Header::resolution_unit, crate::specs::Header::scale_of))]
fn read_resolution(
    alloc: Global,
    first: &mut Option<Refusal>,
    pcb: &Tree,
) -> Result<Resolution, AllocError>
    ensures noted { OnOk result
        (first.new ≡ noted first.old (scale_refusals pcb.now (resolutions pcb.now) (units pcb.now))) }
    ensures unit { IfOk result (λ r. r.unit ≡ resolution_unit (resolutions pcb.now)) }
    ensures per { IfOk result (λ r. r.per ≡ resolution_count (resolutions pcb.now)) }
    ensures scale { IfOk result (λ r. r.scale ≡ scale_of (units pcb.now) (resolutions pcb.now)) }
{
    let resolutions = Trees::in_list(alloc, pcb, b"resolution")?;
    let units = Trees::in_list(alloc, pcb, b"unit")?;
    refuse_scale(first, pcb, &resolutions, &units);
    let unit = unit_or(&resolutions, Unit::Um);
    Ok(Resolution {
        unit,
        per: per_of(&resolutions),
        scale: Scale::of(unit_or(&units, unit)),
    })
}

// The tool that wrote the design, or its version.
#[tactic(auto, unfolding(crate::specs::Header::host_of, crate::specs::Header::host_refusal))]
fn read_host(
    alloc: Global,
    first: &mut Option<Refusal>,
    pcb: &Tree,
    head: &[u8],
) -> Result<Option<Name>, AllocError>
    ensures noted { OnOk result (first.new ≡ noted first.old (host_refusal (hosts head.now pcb.now))) }
    ensures value { IfOk result (λ n. n ≡ host_of (hosts head.now pcb.now)) }
{
    let parsers = Trees::in_list(alloc, pcb, b"parser")?;
    let hosts = headed_in(alloc, parsers, head)?;
    match hosts.get(0) {
        Some(tree) => {
            refuse_quoted_name(first, tree, 1);
            match nth_word(tree, 1) {
                Some(word) => Ok(Some(List::from_slice(alloc, text_of(word))?)),
                None => Ok(None),
            }
        }
        None => Ok(None),
    }
}

fn pass_over_header(
    alloc: Global,
    first: &mut Option<Refusal>,
    pcb: &Tree,
) -> Result<u64, AllocError>
    ensures noted { OnOk result (first.new ≡ noted first.old (header_left_out pcb.now)) }
    ensures value { IfOk result (λ n. n ≡ header_notes pcb.now) }
{
    let whole = Trees::one(alloc, pcb)?;
    let beside = pass_over(first, &whole, ListKind::Pcb);
    drop(whole);
    let parsers = Trees::in_list(alloc, pcb, b"parser")?;
    let inside = pass_over(first, &parsers, ListKind::Parser);
    Ok(beside.saturating_add(inside))
}

fn note_head(alloc: Global, first: &mut Option<Refusal>, pcb: &Tree) -> Result<Head, AllocError>
    ensures noted { OnOk result (first.new ≡ noted first.old (head_refusals pcb.now)) }
    ensures value { IfOk result (λ v. v ≡ head_of pcb.now) }
{
    refuse_no_pcb(first, pcb);
    refuse_quoted_name(first, pcb, 1);
    let resolution = read_resolution(alloc, first, pcb)?;
    let host_cad = read_host(alloc, first, pcb, b"host_cad")?;
    let host_version = read_host(alloc, first, pcb, b"host_version")?;
    let notes = pass_over_header(alloc, first, pcb)?;
    let name = List::from_slice(alloc, name_of(pcb, 1))?;
    Ok(Head {
        name,
        unit: resolution.unit,
        per: resolution.per,
        scale: resolution.scale,
        host_cad,
        host_version,
        notes,
    })
}

/// What stands before the sections of a design.
///
/// # Errors
///
/// The first of the refusals 7, 8 (no resolution), 9, 11 and 21 outside the sections, or want of memory.
pub fn read_head(alloc: Global, pcb: &Tree) -> Result<Head, ReadFault>
    ensures reads { Reads (head_refusals pcb.now) (λ v. v ≡ head_of pcb.now) result }
    ensures sound { IfOk result IsHeadSound }
{
    let mut first = None;
    let head = match note_head(alloc, &mut first, pcb) {
        Ok(head) => head,
        Err(error) => return Err(ReadFault::Memory(error)),
    };
    match first {
        Some(refusal) => Err(ReadFault::Refused(refusal)),
        None => Ok(head),
    }
}
