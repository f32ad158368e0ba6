//! An index of the components and of the pins of each image.
//! A reference is looked up in it in little more than the length of its words.

ghost use Rattle.std.specs.Prelude.{◌≡◌, map, IfOk};
ghost use Rattle.dsn_shapes.specs.declared.parts.Image.{Image as TheImage};
ghost use Rattle.dsn_network.specs.Splits.{pin_names, place_names};

use crate::split::{Pins, pin_ref};
use dsn_shapes::{Image, Library, NameIndex, PinRef, Placing, names_of};
use std::alloc::{AllocError, Global};

/// Pins that are looked up in indices of the components' names and of each image's pins' names.
#[derive(Drop)]
pub(crate) struct PinIndex<'a, 'b> {
    pub(crate) lib: &'a Library,
    pub(crate) placing: &'b Placing,
    places: NameIndex<'b>,
    images: Vec<NameIndex<'a>>,
    ghost by_place: { places ≡ place_names placing.now.places },
    ghost by_image: { images.items ≡ map (λ (image : TheImage). pin_names image.pins) lib.now.images },
}

fn images_of<'a>(alloc: Global, images: &'a [Image]) -> Result<Vec<NameIndex<'a>>, AllocError>
    ensures { IfOk result (λ v. v.items ≡ map (λ (image : TheImage). pin_names image.pins) images.now) }
{
    let mut names = Vec::new(alloc);
    for image in images {
        let pins = names_of(alloc, image.pins.as_slice())?;
        names.push(pins)?;
    }
    Ok(names)
}

impl<'a, 'b> PinIndex<'a, 'b> {
    /// The index of a design's components, whose images are the library's.
    pub(crate) fn of(
        alloc: Global,
        lib: &'a Library,
        placing: &'b Placing,
    ) -> Result<PinIndex<'a, 'b>, AllocError>
        ensures lib { IfOk result (λ x. x.lib.now ≡ lib.now) }
        ensures placing { IfOk result (λ x. x.placing.now ≡ placing.now) }
    {
        let places = names_of(alloc, placing.places.as_slice())?;
        match images_of(alloc, lib.images.as_slice()) {
            Ok(images) => Ok(PinIndex {
                lib,
                placing,
                places,
                images,
            }),
            Err(error) => {
                drop(places);
                Err(error)
            }
        }
    }
}

impl<'a, 'b> Pins for PinIndex<'a, 'b> {
    ghost use Rattle.dsn_network.specs.Splits.{pin_named};

    ghost named = { λ s component name. pin_named s.lib.now s.placing.now component name };

    #[tactic(auto, unfolding(crate::specs::Splits::pin_named))]
    fn find(&self, component: &[u8], name: &[u8]) -> Option<PinRef> {
        let k = self.places.first_place(component)?;
        let place = self.placing.places.get(k)?;
        let pins = self.images.get(place.image as usize)?;
        let j = pins.first_place(name)?;
        Some(pin_ref(k, j))
    }
}
