//! Placed components and their pins, which count up in the order of the placement and of the images.
//! Source: SPECCTRA reference, placement, image and pin descriptors. Lengths are in nm.

ghost use Rattle.std.specs.Prelude.{◌≡◌, ◌==◌, ◌≤◌, ◌<◌, ◌++◌, ◌∷◌, [], ◌-◌, ◌^◌, min, All, IfOk, OnOk, filter};
ghost use Rattle.std.specs.Prelude.{length, map, if◌then◌else◌};
ghost use Rattle.std.specs.List.{list_all};
ghost use Rattle.geo_kernel.specs.Spine.{IsSpineWithin};
ghost use Rattle.pcb_model.specs.declared.item.Piece.{Piece as ThePiece};
ghost use Rattle.dsn_shapes.specs.declared.parts.BanShape.{BanShape as TheBan};
ghost use Rattle.dsn_shapes.specs.Within.{IsLibraryWithin, IsPinWithin};
ghost use Rattle.dsn_placement.specs.Copper.{IsStandWithin, stand_of};
ghost use Rattle.dsn_design.specs.Fit.{ArePartsFit, IsPlaceWithin};
ghost use Rattle.dsn_design.specs.Counts.{counted_components, counted_pins, first_pins};
ghost use Rattle.dsn_design.specs.Counts.{firsts_from, pin_count, pins_at};
ghost use Rattle.dsn_design.specs.Counts.{plus};
ghost use Rattle.dsn_design.specs.Pins.{component_of, image_bans, image_name, image_pins};
ghost use Rattle.dsn_design.specs.Pins.{is_smd, net_of_pin, pin_ref};

use crate::parts::Parts;
use dsn_network::Owners;
use dsn_placement::{Stand, pin_centre};
use dsn_shapes::{BanShape, ImagePin, Library, PinRef, Place, place_index};
use geo_kernel::{List, Point};
use pcb_model::{Component, Padstack, Piece, Pin};
use std::alloc::{AllocError, Global};

/// The pins of a component's image.
pub(crate) fn image_pins<'a>(lib: &'a Library, place: &Place) -> &'a [ImagePin]
    requires { IsLibraryWithin lib.now }
    ensures value { result.now ≡ image_pins lib.now place.now }
    ensures within { All IsPinWithin result.now }
{
    match lib.images.get(place.image as usize) {
        Some(image) => image.pins.as_slice(),
        None => &[],
    }
}

/// The keepouts of a component's image.
pub(crate) fn image_bans<'a>(lib: &'a Library, place: &Place) -> &'a [BanShape]
    requires { IsLibraryWithin lib.now }
    ensures value { result.now ≡ image_bans lib.now place.now }
    ensures within { All (λ (ban : TheBan). IsSpineWithin (2 ^ 29) ban.shape.spine) result.now }
{
    match lib.images.get(place.image as usize) {
        Some(image) => image.bans.as_slice(),
        None => &[],
    }
}

fn image_name<'a>(lib: &'a Library, place: &Place) -> &'a [u8]
    ensures { result.now ≡ image_name lib.now place.now }
{
    match lib.images.get(place.image as usize) {
        Some(image) => image.name.as_slice(),
        None => &[],
    }
}

fn component_of(alloc: Global, lib: &Library, place: &Place) -> Result<Component, AllocError>
    ensures { IfOk result (λ c. c ≡ component_of lib.now place.now) }
{
    Ok(Component {
        name: List::from_slice(alloc, place.name.as_slice())?,
        image: List::from_slice(alloc, image_name(lib, place))?,
        at: place.at.unwrap_or(Point { x: 0, y: 0 }),
        back: place.back,
        microdegrees: place.angle.microdegrees,
    })
}

/// The placed components, in the order of the placement.
#[tactic(auto, unfolding(crate::specs::Counts::counted_components))]
pub(crate) fn components_of(
    alloc: Global,
    lib: &Library,
    places: &[Place],
) -> Result<List<Component>, AllocError>
    ensures { IfOk result (λ cs. cs ≡ counted_components lib.now places.now) }
{
    let mut components = List::new(alloc);
    for place in places {
        if place.at.is_some() {
            components.push(component_of(alloc, lib, place)?)?;
        }
    }
    Ok(components)
}

/// Where a component stands.
pub(crate) fn stand_of(flip_last: bool, place: &Place) -> Stand
    requires { IsPlaceWithin place.now }
    ensures value { result ≡ stand_of flip_last place.now }
    ensures within { IsStandWithin result }
{
    Stand {
        at: place.at.unwrap_or(Point { x: 0, y: 0 }),
        back: place.back,
        flip_last,
        angle: place.angle,
    }
}

/// The net that names a pin.
#[tactic(auto, unfolding(crate::specs::Pins::net_of_pin))]
pub(crate) fn net_of_pin(owners: &Owners, pin: PinRef) -> Option<u32>
    ensures { result ≡ net_of_pin owners.now pin }
{
    match owners.net_of(pin) {
        Some(net) => Some(place_index(net)),
        None => None,
    }
}

fn are_on(layer: u8, pieces: &[Piece]) -> bool
    ensures { result ≡ list_all (λ (q : ThePiece). q.layer == layer) pieces.now }
{
    for piece in pieces {
        if piece.layer != layer {
            return false;
        }
    }
    true
}

/// Whether a pin's padstack has copper on one layer only.
#[tactic(auto, unfolding(crate::specs::Pins::is_smd))]
pub(crate) fn is_smd(stacks: &List<Padstack>, pin: &ImagePin) -> bool
    ensures { result ≡ is_smd stacks.now pin.now }
{
    match stacks.get(pin.stack as usize) {
        Some(stack) => match stack.pieces.as_slice() {
            [] => false,
            [first, rest @ ..] => are_on(first.layer, rest),
        },
        None => false,
    }
}

/// What the pins of a board are made of.
#[derive(Drop)]
pub(crate) struct Board<'a> {
    pub(crate) parts: &'a Parts,
    pub(crate) owners: Owners<'a>,
    pub(crate) stacks: &'a List<Padstack>,
    ghost owned: { owners ≡ parts.now.network.nets },
}

#[tactic(auto, unfolding(crate::specs::Pins::pin_of, crate::specs::Pins::centre_of))]
fn push_pins(
    alloc: Global,
    pins: &mut List<Pin>,
    board: &Board,
    component: u32,
    place: &Place,
    number: u32,
    image_pins: &[ImagePin],
) -> Result<(), AllocError>
    requires place_within { IsPlaceWithin place.now }
    requires pins_within { All IsPinWithin image_pins.now }
    ensures { OnOk result
        (pins.new ≡ pins.old ++ pins_at board.now.parts.now board.now.stacks.now number component place.now 0
        image_pins.now) }
{
    let stand = stand_of(board.parts.structure.flip_last, place);
    let mut next: u32 = 0;
    for image_pin in image_pins {
        let number = PinRef {
            place: number,
            pin: next,
        };
        pins.push(Pin {
            component,
            name: List::from_slice(alloc, image_pin.name.as_slice())?,
            net: net_of_pin(&board.owners, number),
            centre: pin_centre(stand, image_pin).unwrap_or(Point { x: 0, y: 0 }),
            smd: is_smd(board.stacks, image_pin),
        })?;
        next = next.saturating_add(1);
    }
    Ok(())
}

/// The pins of all placed components.
#[tactic(auto, unfolding(crate::specs::Counts::counted_pins, crate::specs::Counts::place_pins))]
pub(crate) fn all_pins(alloc: Global, board: &Board) -> Result<List<Pin>, AllocError>
    requires { ArePartsFit board.now.parts.now }
    ensures { IfOk result (λ ps. ps ≡ counted_pins board.now.parts.now board.now.stacks.now) }
{
    let places = board.parts.placing.places.as_slice();
    let mut pins = List::new(alloc);
    let mut number: u32 = 0;
    let mut component: u32 = 0;
    for place in places {
        if place.at.is_some() {
            let image_pins = image_pins(&board.parts.library, place);
            push_pins(
                alloc, &mut pins, board, component, place, number, image_pins,
            )?;
            component = component.saturating_add(1);
        }
        number = number.saturating_add(1);
    }
    Ok(pins)
}

fn pin_count(lib: &Library, place: &Place) -> u32
    ensures { result ≡ min (pin_count lib.now place.now) (2 ^ 32 - 1) }
{
    if place.at.is_none() {
        return 0;
    }
    match lib.images.get(place.image as usize) {
        Some(image) => place_index(image.pins.len()),
        None => 0,
    }
}

/// The number of the first pin of each component.
#[tactic(auto, unfolding(crate::specs::Counts::first_pins))]
pub(crate) fn first_pins(
    alloc: Global,
    lib: &Library,
    places: &[Place],
) -> Result<List<u32>, AllocError>
    ensures { IfOk result (λ ns. ns ≡ first_pins lib.now places.now) }
{
    let mut firsts = List::new(alloc);
    let mut next: u32 = 0;
    for place in places {
        firsts.push(next)?;
        next = next.saturating_add(pin_count(lib, place));
    }
    Ok(firsts)
}
