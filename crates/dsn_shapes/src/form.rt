//! The forms of a shape: their layers, their widths and the coordinates of their vertices.
//! Source: SPECCTRA reference, circle, rectangle, polygon and path descriptors.

ghost use Rattle.std.specs.Prelude.{◌≡◌, ◌++◌, ◌≤◌, drop, length, map, IfOk, OnOk};
ghost use Rattle.std.specs.List.{flat_map};
ghost use Rattle.dsn_shapes.specs.Forms.{coord_words, first_coord, form_of, has_count, is_closed, is_same};
ghost use Rattle.dsn_shapes.specs.Forms.{nth_coord, outline_of, outline_refusals, points_of, ring_of};
ghost use Rattle.dsn_shapes.specs.Forms.{ring_refusals, vertex_limit, vertices_of, width_of, width_refusal};
ghost use Rattle.dsn_shapes.specs.Lists.{trees_of, words_of};
ghost use Rattle.dsn_shapes.specs.Numbers.{word_coord, word_coord_refusal};
ghost use Rattle.dsn_shapes.specs.Refusals.{noted};

use crate::layers::read_layers;
use crate::limits::past_limit;
use crate::lists::{at_of, place_of};
use crate::numbers::{coord_in, extent_at};
use crate::parts::Layer;
use crate::refusal::{Refusal, What, note, refused};
use crate::table::BAD_FORM;
use crate::trees::Trees;
use dsn_tree::{Tree, is_headed};
use dsn_units::Scale;
use geo_kernel::{List, Point};
use pcb_model::limits::MOST_VERTICES;
use std::alloc::{AllocError, Global};

/// The forms that are read.
#[derive(Clone, Copy, PartialEq, Eq)]
pub(crate) enum Form {
    Circle,
    Rect,
    Polygon,
    Path,
}

/// What a form says: its layers, its width, and the coordinates of its vertices, x and y by turns;
/// None stands for a number that is refused.
#[derive(Drop)]
pub(crate) struct Outline {
    pub(crate) layers: u32,
    pub(crate) width: u64,
    pub(crate) coords: List<Option<i64>>,
}

pub(crate) fn form_of(tree: &Tree) -> Option<Form>
    ensures { result ≡ form_of tree.now }
{
    if is_headed(tree, b"circle") {
        Some(Form::Circle)
    } else if is_headed(tree, b"rect") {
        Some(Form::Rect)
    } else if is_headed(tree, b"polygon") {
        Some(Form::Polygon)
    } else if is_headed(tree, b"path") {
        Some(Form::Path)
    } else {
        None
    }
}

fn has_count(form: Form, count: usize) -> bool
    ensures value { result ≡ has_count form count }
{
    match form {
        Form::Circle => count == 3 || count == 5,
        Form::Rect => count == 6,
        Form::Polygon => count >= 5 && count % 2 == 1,
        Form::Path => count >= 5 && count % 2 == 1,
    }
}

fn first_coord(form: Form) -> usize
    ensures value { result ≡ first_coord form }
    ensures within { result ≤ 3 }
{
    match form {
        Form::Circle => 3,
        Form::Rect => 2,
        Form::Polygon => 3,
        Form::Path => 3,
    }
}

fn read_width(first: &mut Option<Refusal>, tree: &Tree, form: Form, s: Scale) -> u64
    ensures noted { first.new ≡ noted first.old (width_refusal s.nm form tree.now) }
    ensures value { result ≡ width_of s.nm form tree.now }
{
    match form {
        Form::Rect => 0,
        _ => extent_at(first, tree, 2, s),
    }
}

fn read_coords(
    alloc: Global,
    first: &mut Option<Refusal>,
    words: &[&Tree],
    s: Scale,
) -> Result<List<Option<i64>>, AllocError>
    ensures noted { OnOk result
        (first.new ≡ noted first.old (flat_map (word_coord_refusal s.nm) (trees_of words.now))) }
    ensures value { IfOk result (λ cs. cs ≡ map (word_coord s.nm) (trees_of words.now)) }
{
    let mut coords = List::new(alloc);
    for word in words {
        let coord = coord_in(first, word, s);
        coords.push(coord)?;
    }
    Ok(coords)
}

// The coordinates of the words from a place on.
fn read_coords_from(
    alloc: Global,
    first: &mut Option<Refusal>,
    words: &Trees,
    from: usize,
    s: Scale,
) -> Result<List<Option<i64>>, AllocError>
    requires { from ≤ length words.now }
    ensures noted { OnOk result
        (first.new ≡ noted first.old (flat_map (word_coord_refusal s.nm) (drop from words.now))) }
    ensures value { IfOk result (λ cs. cs ≡ map (word_coord s.nm) (drop from words.now)) }
{
    let (_, rest) = words.as_slice().split_at(from);
    read_coords(alloc, first, rest, s)
}

fn vertices_of(
    alloc: Global,
    form: Form,
    coords: List<Option<i64>>,
) -> Result<List<Option<i64>>, AllocError>
    ensures { IfOk result (λ cs. cs ≡ vertices_of form coords) }
{
    match (form, coords.as_slice()) {
        (Form::Circle, []) => List::from_slice(alloc, &[Some(0), Some(0)]),
        (Form::Rect, [x1, y1, x2, y2]) => {
            List::from_slice(alloc, &[*x1, *y1, *x2, *y1, *x2, *y2, *x1, *y2])
        }
        _ => Ok(coords),
    }
}

/// What a form says.
#[tactic(auto, unfolding(crate::specs::Forms::outline_of, crate::specs::Forms::outline_refusals))]
pub(crate) fn read_outline(
    alloc: Global,
    first: &mut Option<Refusal>,
    tree: &Tree,
    form: Form,
    s: Scale,
    layers: &List<Layer>,
) -> Result<Outline, AllocError>
    ensures noted { OnOk result (first.new ≡ noted first.old (outline_refusals s.nm layers.now form tree.now)) }
    ensures value { IfOk result (λ o. o ≡ outline_of s.nm layers.now form tree.now) }
{
    let words = Trees::words(alloc, tree)?;
    if !has_count(form, words.len()) {
        note(first, refused(BAD_FORM, at_of(tree)));
        return Ok(Outline {
            layers: 0,
            width: 0,
            coords: List::new(alloc),
        });
    }
    let layers = read_layers(first, tree, layers.as_slice());
    let width = read_width(first, tree, form, s);
    let numbers = read_coords_from(alloc, first, &words, first_coord(form), s)?;
    let coords = vertices_of(alloc, form, numbers)?;
    Ok(Outline {
        layers,
        width,
        coords,
    })
}

/// The points of coordinates that are taken two by two; a coordinate that isn't there is 0.
pub fn points_of(alloc: Global, coords: &[Option<i64>]) -> Result<List<Point>, AllocError>
    ensures { IfOk result (λ ps. ps ≡ points_of coords.now) }
{
    let mut points = List::new(alloc);
    let mut rest = coords;
    while let [x, y, tail @ ..] = rest {
        points.push(Point {
            x: x.unwrap_or(0),
            y: y.unwrap_or(0),
        })?;
        rest = tail;
    }
    Ok(points)
}

fn is_same(a: Option<i64>, b: Option<i64>) -> bool
    ensures { result ≡ is_same a b }
{
    match (a, b) {
        (Some(a), Some(b)) => a == b,
        _ => false,
    }
}

fn is_closed(coords: &[Option<i64>]) -> bool
    ensures { result ≡ is_closed coords.now }
{
    let n = coords.len();
    if n < 4 {
        return false;
    }
    is_same(coords[0], coords[n - 2]) && is_same(coords[1], coords[n - 1])
}

/// The coordinates of a loop, which loses a last vertex that is equal to its first.
#[tactic(auto, unfolding(crate::specs::Forms::ring_of))]
pub(crate) fn ring_of(coords: &[Option<i64>]) -> &[Option<i64>]
    ensures { result.now ≡ ring_of coords.now }
{
    if is_closed(coords) {
        let (front, _) = coords.split_at(coords.len() - 2);
        front
    } else {
        coords
    }
}

// The words of as many vertices as a shape may have.
const MOST_COORDS: usize = 2 * MOST_VERTICES as usize;

/// Refuses the first vertex past the limit.
pub(crate) fn refuse_many(first: &mut Option<Refusal>, form: Form, tree: &Tree, count: usize)
    ensures { first.new ≡ noted first.old (vertex_limit form tree.now count) }
{
    if count as u64 > MOST_VERTICES {
        let at = place_of(tree, first_coord(form) + MOST_COORDS);
        note(first, past_limit(What::Vertices, at));
    }
}

/// Refuses a loop of fewer than three vertices, and the first vertex past the limit.
pub(crate) fn refuse_ring(first: &mut Option<Refusal>, form: Form, tree: &Tree, count: usize)
    ensures { first.new ≡ noted first.old (ring_refusals form tree.now count) }
{
    if count < 3 {
        note(first, refused(BAD_FORM, at_of(tree)));
    }
    refuse_many(first, form, tree, count);
}
