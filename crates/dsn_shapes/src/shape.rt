//! Shapes: one form as it stands or as a loop of an area, and the form that stands in a list.
//! Source: SPECCTRA reference, shape, window and boundary descriptors.

ghost use Rattle.std.specs.Prelude.{◌≡◌, ◌∷◌, [], IfOk, OnOk, length};
ghost use Rattle.std.specs.Option.{option_copied, option_map_or};
ghost use Rattle.geo_kernel.specs.declared.spine.Spine.TheVariants.{Area};
ghost use Rattle.dsn_shapes.specs.Forms.{points_of, ring_of, ring_refusals};
ghost use Rattle.dsn_shapes.specs.Refusals.{Reads, noted};
ghost use Rattle.dsn_shapes.specs.Shapes.{empty_rim, empty_shape, form_in, is_circle, held_shape};
ghost use Rattle.dsn_shapes.specs.Shapes.{loop_of, loop_refusals, no_form, refusals_in, rim_of, rim_refusals};
ghost use Rattle.dsn_shapes.specs.Shapes.{shape_of, shape_refusals, spine_of, spine_refusals};

use crate::form::{
    Form, Outline, form_of, points_of, read_outline, refuse_many, refuse_ring, ring_of,
};
use crate::known::form_heads;
use crate::lists::{at_of, place_of};
use crate::parts::{Layer, LayerShape};
use crate::refusal::{ReadFault, Refusal, note, refused};
use crate::table::{BAD_FORM, LEFT_OUT};
use crate::trees::has_head;
use dsn_tree::{Tree, is_headed, items};
use dsn_units::Scale;
use geo_kernel::{List, Point, Spine};
use std::alloc::{AllocError, Global};

/// A loop of an area, in nm.
#[derive(Drop)]
pub(crate) struct Rim {
    pub(crate) layers: u32,
    pub(crate) points: List<Point>,
    pub(crate) width: u64,
}

// Refuses a list that is no form.
fn refuse_no_form(first: &mut Option<Refusal>, tree: &Tree)
    ensures { first.new ≡ noted first.old (no_form tree.now) }
{
    if is_headed(tree, b"qarc") || is_headed(tree, b"polyline_path") {
        note(first, refused(LEFT_OUT, place_of(tree, 0)));
    } else {
        note(first, refused(BAD_FORM, at_of(tree)));
    }
}

fn empty_shape(alloc: Global) -> LayerShape
    ensures { result ≡ empty_shape }
{
    LayerShape {
        layers: 0,
        spine: Spine::Chain(List::new(alloc)),
        width: 0,
    }
}

pub(crate) fn empty_rim(alloc: Global) -> Rim
    ensures { result ≡ empty_rim }
{
    Rim {
        layers: 0,
        points: List::new(alloc),
        width: 0,
    }
}

// The one loop of a form.
fn ring(
    alloc: Global,
    first: &mut Option<Refusal>,
    tree: &Tree,
    form: Form,
    outline: &Outline,
) -> Result<List<Point>, AllocError>
    ensures noted { OnOk result
        (first.new ≡ noted first.old
        (ring_refusals form tree.now (length (points_of (ring_of outline.now.coords))))) }
    ensures value { IfOk result (λ ps. ps ≡ points_of (ring_of outline.now.coords)) }
{
    let points = points_of(alloc, ring_of(outline.coords.as_slice()))?;
    refuse_ring(first, form, tree, points.len());
    Ok(points)
}

// The vertices of a form as it stands.
fn spine(
    alloc: Global,
    first: &mut Option<Refusal>,
    tree: &Tree,
    form: Form,
    outline: &Outline,
) -> Result<Spine, AllocError>
    ensures noted { OnOk result (first.new ≡ noted first.old (spine_refusals form tree.now outline.now)) }
    ensures value { IfOk result (λ s. s ≡ spine_of form outline.now) }
{
    match form {
        Form::Circle => Ok(Spine::Chain(points_of(alloc, outline.coords.as_slice())?)),
        Form::Path => {
            let points = points_of(alloc, outline.coords.as_slice())?;
            refuse_many(first, form, tree, points.len());
            Ok(Spine::Chain(points))
        }
        Form::Rect => area(alloc, ring(alloc, first, tree, form, outline)?),
        Form::Polygon => area(alloc, ring(alloc, first, tree, form, outline)?),
    }
}

fn area(alloc: Global, points: List<Point>) -> Result<Spine, AllocError>
    ensures { IfOk result (λ s. s ≡ Area (points ∷ [])) }
{
    let mut loops = List::new(alloc);
    loops.push(points)?;
    Ok(Spine::Area(loops))
}

/// A form as it stands.
#[tactic(auto, unfolding(crate::specs::Shapes::shape_of, crate::specs::Shapes::shape_refusals))]
pub fn note_shape(
    alloc: Global,
    first: &mut Option<Refusal>,
    tree: &Tree,
    s: Scale,
    layers: &List<Layer>,
) -> Result<LayerShape, AllocError>
    ensures noted { OnOk result (first.new ≡ noted first.old (shape_refusals s.nm layers.now tree.now)) }
    ensures value { IfOk result (λ v. v ≡ shape_of s.nm layers.now tree.now) }
{
    let Some(form) = form_of(tree) else {
        refuse_no_form(first, tree);
        return Ok(empty_shape(alloc));
    };
    let outline = read_outline(alloc, first, tree, form, s, layers)?;
    let spine = spine(alloc, first, tree, form, &outline)?;
    Ok(LayerShape {
        layers: outline.layers,
        spine,
        width: outline.width,
    })
}

fn is_circle(form: Form) -> bool
    ensures { result ≡ is_circle form }
{
    match form {
        Form::Circle => true,
        Form::Rect => false,
        Form::Polygon => false,
        Form::Path => false,
    }
}

// A form of this kind as a loop.
fn note_rim(
    alloc: Global,
    first: &mut Option<Refusal>,
    tree: &Tree,
    form: Form,
    s: Scale,
    layers: &List<Layer>,
) -> Result<Rim, AllocError>
    ensures noted { OnOk result (first.new ≡ noted first.old (rim_refusals s.nm layers.now form tree.now)) }
    ensures value { IfOk result (λ v. v ≡ rim_of s.nm layers.now form tree.now) }
{
    if is_circle(form) {
        note(first, refused(BAD_FORM, at_of(tree)));
        return Ok(empty_rim(alloc));
    }
    let outline = read_outline(alloc, first, tree, form, s, layers)?;
    let points = ring(alloc, first, tree, form, &outline)?;
    Ok(Rim {
        layers: outline.layers,
        points,
        width: outline.width,
    })
}

/// A form as a loop of an area.
#[tactic(auto, unfolding(crate::specs::Shapes::loop_of, crate::specs::Shapes::loop_refusals))]
pub(crate) fn note_loop(
    alloc: Global,
    first: &mut Option<Refusal>,
    tree: &Tree,
    s: Scale,
    layers: &List<Layer>,
) -> Result<Rim, AllocError>
    ensures noted { OnOk result (first.new ≡ noted first.old (loop_refusals s.nm layers.now tree.now)) }
    ensures value { IfOk result (λ v. v ≡ loop_of s.nm layers.now tree.now) }
{
    match form_of(tree) {
        Some(form) => note_rim(alloc, first, tree, form, s, layers),
        None => {
            refuse_no_form(first, tree);
            Ok(empty_rim(alloc))
        }
    }
}

// The first form in a list.
pub(crate) fn form_in(tree: &Tree) -> Option<&Tree>
    ensures { option_copied result ≡ form_in tree.now }
{
    for item in items(tree) {
        if has_head(item, form_heads()) {
            return Some(item);
        }
    }
    None
}

/// The shape of a list such as `(shape (circle F.Cu 1000))`: its first form.
#[tactic(auto, unfolding(crate::specs::Shapes::held_shape, crate::specs::Shapes::refusals_in))]
pub(crate) fn note_held_shape(
    alloc: Global,
    first: &mut Option<Refusal>,
    tree: &Tree,
    s: Scale,
    layers: &List<Layer>,
) -> Result<LayerShape, AllocError>
    ensures noted { OnOk result (first.new ≡ noted first.old (refusals_in (shape_refusals s.nm layers.now) tree.now)) }
    ensures value { IfOk result (λ v. v ≡ held_shape s.nm layers.now tree.now) }
{
    match form_in(tree) {
        Some(form) => note_shape(alloc, first, form, s, layers),
        None => {
            note(first, refused(BAD_FORM, at_of(tree)));
            Ok(empty_shape(alloc))
        }
    }
}

/// The shape of a form such as `(circle F.Cu 1000)`.
///
/// # Errors
///
/// The first of the refusals 9, 10, 12, 21, 22 and 23, or want of memory.
pub fn read_shape(
    alloc: Global,
    t: &Tree,
    s: Scale,
    layers: &List<Layer>,
) -> Result<LayerShape, ReadFault>
    ensures { Reads (shape_refusals s.nm layers.now t.now) (λ v. v ≡ shape_of s.nm layers.now t.now) result }
{
    let mut first = None;
    let shape = match note_shape(alloc, &mut first, t, s, layers) {
        Ok(shape) => shape,
        Err(error) => return Err(ReadFault::Memory(error)),
    };
    match first {
        Some(refusal) => Err(ReadFault::Refused(refusal)),
        None => Ok(shape),
    }
}
