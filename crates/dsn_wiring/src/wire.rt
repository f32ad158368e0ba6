//! Wires: the copper of a wire is its first path, on one layer.
//! Source: SPECCTRA reference, wire and path descriptors; every other form in a wire is refused.

ghost use Rattle.std.specs.Prelude.{◌≡◌, ◌∷◌, ◌++◌, [], drop, slice_get, IfOk, OnOk};
ghost use Rattle.std.specs.List.{flat_map};
ghost use Rattle.std.specs.Option.{option_map_or};
ghost use Rattle.dsn_shapes.specs.Lists.{heads_of, lists, trees_of};
ghost use Rattle.dsn_shapes.specs.Refusals.{noted};
ghost use Rattle.dsn_wiring.specs.Wires.{chain_of, further_forms, no_form, no_wire, path_metal, path_refusals};
ghost use Rattle.dsn_wiring.specs.Wires.{paths_in, refused_form, wire_metal, wire_refusals};

use crate::layers::layers_below;
use dsn_shapes::table::{BAD_FORM, LEFT_OUT};
use dsn_shapes::{
    Layer, LayerShape, Refusal, Trees, at_of, form_heads, note, note_shape, place_of, refused,
};
use dsn_tree::Tree;
use dsn_units::Scale;
use geo_kernel::{List, Point, Spine};
use pcb_model::Metal;
use pcb_model::limits::MOST_LAYERS;
use std::alloc::{AllocError, Global};

// The vertices of a chain; an area has none.
fn chain_of(alloc: Global, spine: Spine) -> List<Point>
    ensures { result ≡ chain_of spine }
{
    match spine {
        Spine::Chain(points) => points,
        Spine::Area(_) => List::new(alloc),
    }
}

// The copper of a wire's path, which names one layer and has at least two vertices.
#[tactic(auto, unfolding(crate::specs::Wires::path_metal, crate::specs::Wires::path_refusals))]
fn note_path(
    alloc: Global,
    first: &mut Option<Refusal>,
    path: &Tree,
    s: Scale,
    layers: &List<Layer>,
) -> Result<Metal, AllocError>
    ensures noted { OnOk result (first.new ≡ noted first.old (path_refusals s.nm layers.now path.now)) }
    ensures value { IfOk result (λ m. m ≡ path_metal s.nm layers.now path.now) }
{
    let LayerShape {
        layers,
        spine,
        width,
    } = note_shape(alloc, first, path, s, layers)?;
    let chain = chain_of(alloc, spine);
    let layers = layers_below(alloc, MOST_LAYERS as u8, layers)?;
    if layers.len() > 1 || chain.len() < 2 {
        note(first, refused(BAD_FORM, at_of(path)));
    }
    let layer = layers.get(0).copied().unwrap_or(0);
    Ok(Metal::Wire {
        layer,
        width,
        chain,
    })
}

fn refuse_forms(first: &mut Option<Refusal>, forms: &[&Tree])
    ensures { first.new ≡ noted first.old (flat_map refused_form (trees_of forms.now)) }
{
    for form in forms {
        note(first, refused(LEFT_OUT, place_of(form, 0)));
    }
}

fn refuse_behind(first: &mut Option<Refusal>, paths: &[&Tree])
    ensures { first.new ≡ noted first.old (flat_map refused_form (drop 1 (trees_of paths.now))) }
{
    if let [_, further @ ..] = paths {
        refuse_forms(first, further);
    }
}

// The lists with one of these heads that stand directly in a wire.
fn forms_of<'a>(alloc: Global, wire: &'a Tree, heads: &[&[u8]]) -> Result<Trees<'a>, AllocError>
    ensures { IfOk result (λ ts. ts ≡ lists (heads_of heads.now) (wire.now ∷ [])) }
{
    let whole = Trees::one(alloc, wire)?;
    whole.lists(alloc, heads)
}

// Refuses all forms of a wire but the first of its paths.
#[tactic(auto, unfolding(crate::specs::Wires::further_forms))]
fn refuse_further(
    alloc: Global,
    first: &mut Option<Refusal>,
    paths: &[&Tree],
    wire: &Tree,
) -> Result<(), AllocError>
    requires { trees_of paths.now ≡ paths_in wire.now }
    ensures { OnOk result (first.new ≡ noted first.old (further_forms wire.now)) }
{
    let heads: [&[u8]; 3] = [b"rect", b"circle", b"polygon"];
    let others = forms_of(alloc, wire, &heads)?;
    refuse_behind(first, paths);
    refuse_forms(first, others.as_slice());
    Ok(())
}

// Refuses a wire without any form.
#[tactic(auto, unfolding(crate::specs::Wires::no_form))]
fn refuse_empty(alloc: Global, first: &mut Option<Refusal>, wire: &Tree) -> Result<(), AllocError>
    ensures { OnOk result (first.new ≡ noted first.old (no_form wire.now)) }
{
    let forms = forms_of(alloc, wire, form_heads())?;
    if forms.len() == 0 {
        note(first, refused(BAD_FORM, at_of(wire)));
    }
    Ok(())
}

/// The copper of a wire.
#[tactic(auto, unfolding(crate::specs::Wires::wire_metal, crate::specs::Wires::wire_refusals))]
pub(crate) fn note_wire(
    alloc: Global,
    first: &mut Option<Refusal>,
    wire: &Tree,
    s: Scale,
    layers: &List<Layer>,
) -> Result<Metal, AllocError>
    ensures noted { OnOk result (first.new ≡ noted first.old (wire_refusals s.nm layers.now wire.now)) }
    ensures value { IfOk result (λ m. m ≡ wire_metal s.nm layers.now wire.now) }
{
    refuse_empty(alloc, first, wire)?;
    let paths = Trees::in_list(alloc, wire, b"path")?;
    match note_paths(alloc, first, &paths, wire, s, layers) {
        Ok(metal) => {
            drop(paths);
            Ok(metal)
        }
        Err(error) => {
            drop(paths);
            Err(error)
        }
    }
}

// The copper of a wire of these paths.
fn note_paths(
    alloc: Global,
    first: &mut Option<Refusal>,
    paths: &Trees,
    wire: &Tree,
    s: Scale,
    layers: &List<Layer>,
) -> Result<Metal, AllocError>
    requires { paths.now ≡ paths_in wire.now }
    ensures noted { OnOk result
        (first.new ≡ noted first.old (further_forms wire.now
        ++ option_map_or (path_refusals s.nm layers.now) (slice_get paths.now 0) [])) }
    ensures value { IfOk result
        (λ m. m ≡ option_map_or (path_metal s.nm layers.now) (slice_get paths.now 0) no_wire) }
{
    refuse_further(alloc, first, paths.as_slice(), wire)?;
    match paths.get(0) {
        Some(path) => note_path(alloc, first, path, s, layers),
        None => Ok(Metal::Wire {
            layer: 0,
            width: 0,
            chain: List::new(alloc),
        }),
    }
}
