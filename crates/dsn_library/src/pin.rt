//! Pins of an image: padstack, angle, name and place.
//! Source: SPECCTRA reference, pin descriptor of an image; rotation in degrees counter-clockwise.

ghost use Rattle.std.specs.Prelude.{◌≡◌};
ghost use Rattle.dsn_shapes.specs.Refusals.{noted};
ghost use Rattle.dsn_shapes.specs.Angles.{no_turn};
ghost use Rattle.dsn_library.specs.Pins.{degrees_in, degrees_refusals, pin_stack};
ghost use Rattle.dsn_library.specs.Pins.{rotation_of, rotation_refusals, unknown_stack};

use dsn_shapes::table::{NO_NUMBER, NO_PADSTACK};
use dsn_shapes::{
    ImagePin, NameIndex, Part, Refusal, angle_in, at_of, coord_at, name_of, note, nth_word,
    place_index, place_of, refused,
};
use dsn_tree::{Tree, child};
use dsn_units::{Angle, Scale};
use geo_kernel::{List, Point};
use std::alloc::{AllocError, Global};

fn no_turn() -> Angle
    ensures { result ≡ no_turn }
{
    Angle { microdegrees: 0 }
}

// The angle of a list such as `(rotate 180)`.
#[tactic(auto, unfolding(crate::specs::Pins::degrees_in, crate::specs::Pins::degrees_refusals))]
fn degrees_in(first: &mut Option<Refusal>, tree: &Tree) -> Angle
    ensures noted { first.new ≡ noted first.old (degrees_refusals tree.now) }
    ensures value { result ≡ degrees_in tree.now }
{
    match nth_word(tree, 1) {
        Some(word) => match angle_in(first, word) {
            Some(angle) => angle,
            None => no_turn(),
        },
        None => {
            note(first, refused(NO_NUMBER, at_of(tree)));
            no_turn()
        }
    }
}

#[tactic(auto, unfolding(crate::specs::Pins::rotation_of, crate::specs::Pins::rotation_refusals))]
fn rotation_of(first: &mut Option<Refusal>, pin: &Tree) -> Angle
    ensures noted { first.new ≡ noted first.old (rotation_refusals pin.now) }
    ensures value { result ≡ rotation_of pin.now }
{
    match child(pin, b"rotate") {
        Some(rotate) => degrees_in(first, rotate),
        None => no_turn(),
    }
}

// The index of a pin's padstack.
#[tactic(auto, unfolding(crate::specs::Pins::pin_stack, crate::specs::Pins::unknown_stack))]
fn pin_stack(first: &mut Option<Refusal>, stacks: &NameIndex, pin: &Tree) -> u32
    ensures noted { first.new ≡ noted first.old (unknown_stack stacks.now pin.now) }
    ensures value { result ≡ pin_stack stacks.now pin.now }
{
    match stacks.first_place(name_of(pin, 1)) {
        Some(place) => place_index(place),
        None => {
            note(first, refused(NO_PADSTACK, place_of(pin, 1)));
            0
        }
    }
}

/// Pins of an image, whose padstacks are of the index.
#[derive(Drop)]
pub(crate) struct Pins<'a, 'b> {
    pub(crate) scale: Scale,
    pub(crate) stacks: &'a NameIndex<'b>,
}

impl<'a, 'b> Part<ImagePin> for Pins<'a, 'b> {
    ghost use Rattle.dsn_library.specs.Pins.{pin_of, pin_refusals};

    ghost refusals = { λ p t. pin_refusals p.scale.nm p.stacks.now t };

    ghost value = { λ p t. pin_of p.scale.nm p.stacks.now t };

    fn read(
        &self,
        alloc: Global,
        first: &mut Option<Refusal>,
        tree: &Tree,
    ) -> Result<ImagePin, AllocError> {
        let stack = pin_stack(first, self.stacks, tree);
        let x = coord_at(first, tree, 3, self.scale);
        let y = coord_at(first, tree, 4, self.scale);
        let angle = rotation_of(first, tree);
        let name = List::from_slice(alloc, name_of(tree, 2))?;
        Ok(ImagePin {
            name,
            stack,
            at: Point { x, y },
            angle,
        })
    }
}
