//! Wires: the copper of a wire is its one path.
//! Source: SPECCTRA reference, wire and path descriptors of the routes.

ghost use Rattle.std.specs.Prelude.{◌≡◌, ◌≤◌, ◌++◌, drop, map, unwrap_or, IfOk, OnOk};
ghost use Rattle.std.specs.Option.{option_copied};
ghost use Rattle.std.specs.List.{flat_map};
ghost use Rattle.dsn_shapes.specs.Lists.{trees_of};
ghost use Rattle.dsn_shapes.specs.Refusals.{noted};
ghost use Rattle.dsn_wiring.specs.Wires.{no_wire};
ghost use Rattle.pcb_model.specs.declared.item.Metal.TheVariants.{Wire};
ghost use Rattle.ses_reader.specs.Measures.{extent_at, word_coord, word_refusal};
ghost use Rattle.ses_reader.specs.Copper.{chain_in, number_refusals, numbers_in};
ghost use Rattle.ses_reader.specs.Copper.{only, path_metal, path_refusals, wire_metal, wire_refusals};

use crate::index::DesignIndex;
use crate::measure::Measure;
use crate::numbers::{note_extent, note_unless, note_word};
use crate::table::{NO_LAYER, NO_PATH};
use dsn_shapes::{Refusal, Trees, at_of, name_of, note, place_of, points_of, refused};
use dsn_tree::Tree;
use geo_kernel::{List, Point};
use pcb_model::Metal;
use std::alloc::{AllocError, Global};

fn no_wire(alloc: Global) -> Metal
    ensures { result ≡ no_wire }
{
    Metal::Wire {
        layer: 0,
        width: 0,
        chain: List::new(alloc),
    }
}

fn read_coords(
    alloc: Global,
    first: &mut Option<Refusal>,
    words: &[&Tree],
    m: Measure,
) -> Result<List<Option<i64>>, AllocError>
    requires { 1 ≤ m.per }
    ensures noted { OnOk result (first.new ≡ noted first.old (flat_map (word_refusal m) (trees_of words.now))) }
    ensures value { IfOk result (λ cs. cs ≡ map (word_coord m) (trees_of words.now)) }
{
    let mut coords = List::new(alloc);
    for word in words {
        let coord = note_word(first, word, m);
        coords.push(coord)?;
    }
    Ok(coords)
}

// The words of a list from a place on.
fn words_from<'a>(words: &'a [&'a Tree], from: usize) -> &'a [&'a Tree]
    ensures { trees_of result.now ≡ drop from (trees_of words.now) }
{
    if words.len() < from {
        return &[];
    }
    let (_, rest) = words.split_at(from);
    rest
}

// The points of a path, whose numbers stand behind its width.
fn note_chain(
    alloc: Global,
    first: &mut Option<Refusal>,
    path: &Tree,
    m: Measure,
) -> Result<List<Point>, AllocError>
    requires { 1 ≤ m.per }
    ensures noted { OnOk result (first.new ≡ noted first.old (flat_map (word_refusal m) (numbers_in path.now))) }
    ensures value { IfOk result (λ ps. ps ≡ chain_in m path.now) }
{
    let words = Trees::words(alloc, path)?;
    let coords = read_coords(alloc, first, words_from(words.as_slice(), 3), m)?;
    points_of(alloc, coords.as_slice())
}

// A path on this layer, with its width and its points.
fn note_numbers(
    alloc: Global,
    first: &mut Option<Refusal>,
    path: &Tree,
    m: Measure,
    layer: u8,
) -> Result<Metal, AllocError>
    requires { 1 ≤ m.per }
    ensures noted { OnOk result (first.new ≡ noted first.old (number_refusals m path.now)) }
    ensures value { IfOk result (λ v. v ≡ Wire layer (unwrap_or (extent_at m path.now 2) 0) (chain_in m path.now)) }
{
    let width = note_extent(first, path, 2, m);
    let chain = note_chain(alloc, first, path, m)?;
    Ok(Metal::Wire {
        layer,
        width: width.unwrap_or(0),
        chain,
    })
}

// The copper of a path on a layer of the design, with its width and at least two points.
#[tactic(auto, unfolding(crate::specs::Copper::path_metal, crate::specs::Copper::path_refusals))]
fn note_path(
    alloc: Global,
    first: &mut Option<Refusal>,
    index: &DesignIndex,
    path: &Tree,
    m: Measure,
) -> Result<Metal, AllocError>
    requires { 1 ≤ m.per }
    ensures noted { OnOk result (first.new ≡ noted first.old (path_refusals index.now m path.now)) }
    ensures value { IfOk result (λ v. v ≡ path_metal index.now m path.now) }
{
    // A group of layers is no name.
    let layer = index.layer(name_of(path, 1));
    note_unless(first, layer.is_some(), NO_LAYER, place_of(path, 1));
    let count = Trees::words(alloc, path)?.len();
    if count >= 7 && count % 2 == 1 {
        let layer = layer.unwrap_or(0).min(255) as u8;
        note_numbers(alloc, first, path, m, layer)
    } else {
        note(first, refused(NO_PATH, at_of(path)));
        Ok(no_wire(alloc))
    }
}

// The one tree of a list of one.
fn only<'a>(trees: &Trees<'a>) -> Option<&'a Tree>
    ensures { option_copied result ≡ only trees.now }
{
    if trees.len() == 1 { trees.get(0) } else { None }
}

/// The copper of a wire.
#[tactic(auto, unfolding(crate::specs::Copper::wire_metal, crate::specs::Copper::wire_refusals))]
pub(crate) fn note_wire(
    alloc: Global,
    first: &mut Option<Refusal>,
    index: &DesignIndex,
    wire: &Tree,
    m: Measure,
) -> Result<Metal, AllocError>
    requires { 1 ≤ m.per }
    ensures noted { OnOk result (first.new ≡ noted first.old (wire_refusals index.now m wire.now)) }
    ensures value { IfOk result (λ v. v ≡ wire_metal index.now m wire.now) }
{
    let paths = Trees::in_list(alloc, wire, b"path")?;
    match only(&paths) {
        Some(path) => note_path(alloc, first, index, path, m),
        None => {
            note(first, refused(NO_PATH, at_of(wire)));
            Ok(no_wire(alloc))
        }
    }
}
