//! References of pins in nets: what they name, and what refuses them.
//! Source: SPECCTRA reference, net descriptor, pins.

ghost use Rattle.std.specs.Prelude.{◌≡◌, ◌∷◌, [], IfOk, OnOk};
ghost use Rattle.std.specs.List.{flat_map};
ghost use Rattle.std.specs.Option.{option_to_list};
ghost use Rattle.dsn_shapes.specs.Lists.{trees_of};
ghost use Rattle.dsn_shapes.specs.Refusals.{noted};
ghost use Rattle.dsn_network.specs.Nets.{is_placed, ref_pins, ref_refusals, refs_of};

use crate::pins::PinIndex;
use crate::split::split_by;
use crate::words::words_in;
use dsn_shapes::table::{NO_PIN, TWO_PINS, UNPLACED_PIN};
use dsn_shapes::{PinRef, Placing, Refusal, Split, Trees, at_of, note, refused, text_of};
use dsn_tree::Tree;
use geo_kernel::List;
use std::alloc::{AllocError, Global};

/// The references of a net.
pub(crate) fn refs_of<'a>(alloc: Global, net: &'a Tree) -> Result<Trees<'a>, AllocError>
    ensures { IfOk result (λ ts. ts ≡ refs_of net.now) }
{
    let lists = Trees::in_list(alloc, net, b"pins")?;
    words_in(alloc, &lists, 1)
}

fn is_placed(placing: &Placing, pin: PinRef) -> bool
    ensures { result ≡ is_placed placing.now pin }
{
    match placing.places.get(pin.place as usize) {
        Some(place) => place.at.is_some(),
        None => false,
    }
}

#[tactic(auto, unfolding(crate::specs::Nets::ref_refusals, crate::specs::Nets::ref_pins))]
fn read_ref(first: &mut Option<Refusal>, word: &Tree, pins: &PinIndex) -> Option<PinRef>
    ensures noted { first.new ≡ noted first.old (ref_refusals pins.now.lib.now pins.now.placing.now word.now) }
    ensures value { option_to_list result ≡ ref_pins pins.now.lib.now pins.now.placing.now word.now }
{
    match split_by(text_of(word), pins) {
        Split::Unknown => {
            note(first, refused(NO_PIN, at_of(word)));
            None
        }
        Split::One(pin) => {
            if !is_placed(pins.placing, pin) {
                note(first, refused(UNPLACED_PIN, at_of(word)));
            }
            Some(pin)
        }
        Split::Many => {
            note(first, refused(TWO_PINS, at_of(word)));
            None
        }
    }
}

/// The pins that these references name.
pub(crate) fn read_refs(
    alloc: Global,
    first: &mut Option<Refusal>,
    words: &[&Tree],
    pins: &PinIndex,
) -> Result<List<PinRef>, AllocError>
    ensures noted { OnOk result
        (first.new ≡ noted first.old
        (flat_map (ref_refusals pins.now.lib.now pins.now.placing.now) (trees_of words.now))) }
    ensures value { IfOk result
        (λ v. v ≡ flat_map (ref_pins pins.now.lib.now pins.now.placing.now) (trees_of words.now)) }
{
    let mut named = List::new(alloc);
    for word in words {
        if let Some(pin) = read_ref(first, word, pins) {
            named.push(pin)?;
        }
    }
    Ok(named)
}
