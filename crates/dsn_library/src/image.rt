//! Images: the pins and keepouts of a component's footprint.
//! Source: SPECCTRA reference, image descriptor.

ghost use Rattle.std.specs.Prelude.{◌≡◌, ◌∷◌, [], map, IfOk, OnOk};
ghost use Rattle.std.specs.List.{flat_map};
ghost use Rattle.dsn_shapes.specs.Refusals.{noted};
ghost use Rattle.dsn_shapes.specs.Shapes.{ban_of, ban_refusals};
ghost use Rattle.dsn_library.specs.Images.{image_of, images_refusals, keepouts_in, pins_in, pins_refusals};
ghost use Rattle.dsn_library.specs.Pins.{pin_of};

use crate::pin::Pins;
use dsn_shapes::{
    BanShape, Image, ImagePin, Keepouts, Layer, NameIndex, Part, Refusal, Trees, keepout_heads,
    name_of, read_each, refuse_quoted_name,
};
use dsn_tree::Tree;
use dsn_units::Scale;
use geo_kernel::List;
use std::alloc::{AllocError, Global};

// Images, whose pins' padstacks are of the index.
#[derive(Drop)]
struct Images<'a, 'b> {
    scale: Scale,
    layers: &'a List<Layer>,
    stacks: &'a NameIndex<'b>,
}

impl<'a, 'b> Part<Image> for Images<'a, 'b> {
    ghost use Rattle.dsn_library.specs.Images.{image_of, image_refusals};

    ghost refusals = { λ p t. image_refusals p.scale.nm p.layers.now p.stacks.now t };

    ghost value = { λ p t. image_of p.scale.nm p.layers.now p.stacks.now t };

    #[tactic(auto, unfolding(crate::specs::Images::image_of, crate::specs::Images::image_refusals))]
    fn read(
        &self,
        alloc: Global,
        first: &mut Option<Refusal>,
        tree: &Tree,
    ) -> Result<Image, AllocError> {
        refuse_quoted_name(first, tree, 1);
        let pins = read_pins(alloc, first, tree, self.scale, self.stacks)?;
        let bans = read_bans(alloc, first, tree, self.scale, self.layers)?;
        let name = List::from_slice(alloc, name_of(tree, 1))?;
        Ok(Image { name, pins, bans })
    }
}

fn read_pins(
    alloc: Global,
    first: &mut Option<Refusal>,
    tree: &Tree,
    scale: Scale,
    stacks: &NameIndex,
) -> Result<List<ImagePin>, AllocError>
    ensures noted { OnOk result
        (first.new ≡ noted first.old (pins_refusals scale.nm stacks.now (pins_in (tree.now ∷ [])))) }
    ensures value { IfOk result (λ v. v ≡ map (pin_of scale.nm stacks.now) (pins_in (tree.now ∷ []))) }
{
    let pins = Trees::in_list(alloc, tree, b"pin")?;
    note_pins(alloc, first, &pins, scale, stacks)
}

// The pins of one image.
#[tactic(auto, unfolding(crate::specs::Images::pins_refusals, dsn_shapes::specs::Names::same_names))]
fn note_pins(
    alloc: Global,
    first: &mut Option<Refusal>,
    pins: &Trees,
    scale: Scale,
    stacks: &NameIndex,
) -> Result<List<ImagePin>, AllocError>
    ensures noted { OnOk result (first.new ≡ noted first.old (pins_refusals scale.nm stacks.now pins.now)) }
    ensures value { IfOk result (λ v. v ≡ map (pin_of scale.nm stacks.now) pins.now) }
{
    let names = NameIndex::new(alloc, pins, 2)?;
    names.refuse_same(first, pins, 2);
    read_each(alloc, &Pins { scale, stacks }, first, pins)
}

fn read_bans(
    alloc: Global,
    first: &mut Option<Refusal>,
    tree: &Tree,
    scale: Scale,
    layers: &List<Layer>,
) -> Result<List<BanShape>, AllocError>
    ensures noted { OnOk result
        (first.new ≡ noted first.old (flat_map (ban_refusals scale.nm layers.now) (keepouts_in (tree.now ∷ [])))) }
    ensures value { IfOk result (λ v. v ≡ map (ban_of scale.nm layers.now) (keepouts_in (tree.now ∷ []))) }
{
    let image = Trees::one(alloc, tree)?;
    let keepouts = image.lists(alloc, keepout_heads())?;
    read_each(alloc, &Keepouts { scale, layers }, first, &keepouts)
}

/// All images of a library, whose padstacks `stacks` is the index of.
#[tactic(auto, unfolding(crate::specs::Images::images_refusals, dsn_shapes::specs::Names::same_names))]
pub(crate) fn read_images(
    alloc: Global,
    first: &mut Option<Refusal>,
    images: &Trees,
    stacks: &NameIndex,
    scale: Scale,
    layers: &List<Layer>,
) -> Result<List<Image>, AllocError>
    ensures noted { OnOk result
        (first.new ≡ noted first.old (images_refusals scale.nm layers.now stacks.now images.now)) }
    ensures value { IfOk result (λ v. v ≡ map (image_of scale.nm layers.now stacks.now) images.now) }
{
    let names = NameIndex::new(alloc, images, 1)?;
    names.refuse_same(first, images, 1);
    read_each(
        alloc,
        &Images {
            scale,
            layers,
            stacks,
        },
        first,
        images,
    )
}
