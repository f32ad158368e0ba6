//! The layers of a structure, the parts that it lacks, and the lists beside its parts.
//! Source: SPECCTRA reference, structure, layer and control descriptors.

ghost use Rattle.std.specs.Prelude.{◌≡◌, IfOk, OnOk};
ghost use Rattle.dsn_shapes.specs.Lists.{capped};
ghost use Rattle.dsn_shapes.specs.Refusals.{noted};
ghost use Rattle.dsn_structure.specs.Layout.{frame_layers, frame_notes, frame_refusals, layer_refusals};
ghost use Rattle.dsn_structure.specs.Layout.{layers_in, lists_left_out, lists_passed, missing};

use dsn_shapes::table::{NO_BOUNDARY, NO_SECTION};
use dsn_shapes::{
    Layer, ListKind, NameIndex, Part, Refusal, Trees, What, at_of, name_of, note, pass_over,
    read_each, refuse_past, refuse_quoted_name, refused, says,
};
use dsn_tree::{Tree, child};
use geo_kernel::List;
use std::alloc::{AllocError, Global};

// Layers, but for names that are given twice.
#[derive(Drop)]
struct LayerPart;

impl Part<Layer> for LayerPart {
    ghost use Rattle.dsn_shapes.specs.Lists.{quoted_name};
    ghost use Rattle.dsn_structure.specs.Layout.{layer_of};

    ghost refusals = { λ p t. quoted_name t 1 };

    ghost value = { λ p t. layer_of t };

    fn read(
        &self,
        alloc: Global,
        first: &mut Option<Refusal>,
        tree: &Tree,
    ) -> Result<Layer, AllocError> {
        refuse_quoted_name(first, tree, 1);
        let power = match child(tree, b"type") {
            Some(found) => says(found, 1, b"power"),
            None => false,
        };
        let name = List::from_slice(alloc, name_of(tree, 1))?;
        Ok(Layer { name, power })
    }
}

#[tactic(auto, unfolding(crate::specs::Layout::layers_in, crate::specs::Layout::layer_refusals))]
fn read_layers(
    alloc: Global,
    first: &mut Option<Refusal>,
    lists: &Trees,
) -> Result<List<Layer>, AllocError>
    ensures noted { OnOk result (first.new ≡ noted first.old (layer_refusals lists.now)) }
    ensures value { IfOk result (λ ls. ls ≡ layers_in lists.now) }
{
    let index = NameIndex::new(alloc, lists, 1)?;
    let layers = match read_each(alloc, &LayerPart, first, lists) {
        Ok(layers) => layers,
        Err(error) => {
            drop(index);
            return Err(error);
        }
    };
    index.refuse_same(first, lists, 1);
    drop(index);
    refuse_past(first, What::Layers, 0, lists);
    Ok(layers)
}

// Refuses a structure without layers, and one without a boundary.
fn refuse_missing(
    first: &mut Option<Refusal>,
    pcb: &Tree,
    structs: &Trees,
    layers: &Trees,
    bounds: &Trees,
)
    ensures { first.new ≡ noted first.old (missing pcb.now structs.now layers.now bounds.now) }
{
    if structs.len() == 0 || layers.len() == 0 {
        note(first, refused(NO_SECTION, at_of(pcb)));
    }
    if let Some(tree) = structs.get(0) {
        if bounds.len() == 0 {
            note(first, refused(NO_BOUNDARY, at_of(tree)));
        }
    }
}

// Passes over what stands in the structure beside its parts.
#[tactic(auto, unfolding(crate::specs::Layout::lists_left_out, crate::specs::Layout::lists_passed))]
fn pass_over_lists(
    first: &mut Option<Refusal>,
    structs: &Trees,
    layers: &Trees,
    ctrls: &Trees,
) -> u64
    ensures noted { first.new ≡ noted first.old (lists_left_out structs.now layers.now ctrls.now) }
    ensures value { result ≡ capped (lists_passed structs.now layers.now ctrls.now) }
{
    let beside = pass_over(first, structs, ListKind::Structure);
    let in_layers = pass_over(first, layers, ListKind::Layer);
    let in_controls = pass_over(first, ctrls, ListKind::Control);
    beside.saturating_add(in_layers.saturating_add(in_controls))
}

/// The layers, with what stands in the structure beside its parts.
#[derive(Drop)]
pub(crate) struct Frame {
    pub(crate) layers: List<Layer>,
    pub(crate) notes: u64,
}

/// What the layers and the other lists of the structure are, and which parts are missing.
#[tactic(auto, unfolding(crate::specs::Layout::frame_refusals, crate::specs::Layout::frame_layers))]
pub(crate) fn read_frame(
    alloc: Global,
    first: &mut Option<Refusal>,
    pcb: &Tree,
    structs: &Trees,
    bounds: &Trees,
) -> Result<Frame, AllocError>
    ensures noted { OnOk result (first.new ≡ noted first.old (frame_refusals pcb.now structs.now bounds.now)) }
    ensures layers { IfOk result (λ f. f.layers ≡ frame_layers structs.now) }
    ensures notes { IfOk result (λ f. f.notes ≡ capped (frame_notes structs.now)) }
{
    let lists = structs.headed(alloc, b"layer")?;
    let ctrls = match structs.headed(alloc, b"control") {
        Ok(ctrls) => ctrls,
        Err(error) => {
            drop(lists);
            return Err(error);
        }
    };
    refuse_missing(first, pcb, structs, &lists, bounds);
    let notes = pass_over_lists(first, structs, &lists, &ctrls);
    drop(ctrls);
    let layers = read_layers(alloc, first, &lists);
    drop(lists);
    Ok(Frame {
        layers: layers?,
        notes,
    })
}
