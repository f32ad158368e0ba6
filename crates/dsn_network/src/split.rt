//! References of pins, such as `R1-2`: a component's name, a hyphen, and the name of a pin of its image.
//! Both names may hold hyphens, so that each hyphen of a reference is tried.
//! Source: SPECCTRA reference, pin_reference.

ghost use Rattle.std.specs.Prelude.{◌≡◌};
ghost use Rattle.dsn_shapes.specs.Names.{first_place};
ghost use Rattle.dsn_network.specs.Splits.{pin_names, pin_ref, split_of, split_with, with_fit};

use dsn_shapes::{Image, Library, PinRef, Placing, Split, first_named, place_index};
use geo_kernel::Name;

/// What finds a pin by the names of its component and its own.
pub(crate) trait Pins {
    ghost use Rattle.std.specs.Prelude.{◌≡◌, ℕ, List, Option};
    ghost use Rattle.dsn_shapes.specs.declared.parts.PinRef.{PinRef as ThePin};

    ghost named: { Self → List ℕ → List ℕ → Option ThePin };

    /// The pin `name` of the component `component`.
    fn find(&self, component: &[u8], name: &[u8]) -> Option<PinRef>
        ensures { result ≡ named self.now component.now name.now };
}

// The answer with one more split that fits.
fn with_fit(found: Split, pin: PinRef) -> Split
    ensures { result ≡ with_fit found pin }
{
    match found {
        Split::Unknown => Split::One(pin),
        Split::One(_) => Split::Many,
        Split::Many => Split::Many,
    }
}

/// The splits of a reference that fit.
#[tactic(auto, unfolding(crate::specs::Splits::split_with))]
pub(crate) fn split_by<P: Pins>(text: &[u8], pins: &P) -> Split
    ensures { result ≡ split_with (P.named pins.now) text.now }
{
    let mut found = Split::Unknown;
    for (i, byte) in text.iter().enumerate() {
        if *byte == b'-' {
            if let Some(pin) = pins.find(&text[..i], &text[i + 1..]) {
                found = with_fit(found, pin);
            }
        }
    }
    found
}

/// Pin `pin` of component `place`.
pub(crate) fn pin_ref(place: usize, pin: usize) -> PinRef
    ensures { result ≡ pin_ref place pin }
{
    PinRef {
        place: place_index(place),
        pin: place_index(pin),
    }
}

fn pin_named(image: &Image, name: &[u8]) -> Option<usize>
    ensures { result ≡ first_place name.now (pin_names image.now.pins) }
{
    first_named(image.pins.as_slice(), name)
}

// Pins that are looked up in one pass over the components, and one over the image's pins.
#[derive(Drop)]
struct Scan<'a> {
    lib: &'a Library,
    placing: &'a Placing,
}

impl<'a> Pins for Scan<'a> {
    ghost use Rattle.dsn_network.specs.Splits.{pin_named};

    ghost named = { λ s component name. pin_named s.lib.now s.placing.now component name };

    #[tactic(auto, unfolding(crate::specs::Splits::pin_named))]
    fn find(&self, component: &[u8], name: &[u8]) -> Option<PinRef> {
        let k = first_named(self.placing.places.as_slice(), component)?;
        let place = self.placing.places.get(k)?;
        let image = self.lib.images.get(place.image as usize)?;
        let j = pin_named(image, name)?;
        Some(pin_ref(k, j))
    }
}

/// The pin that a reference such as `R1-2` names, by its splits at each hyphen: a split fits where the part before
/// the hyphen is a component's name and the part behind is the name of a pin of its image.
/// The answer has the indices of the component and of the pin, which count from 0. It takes no memory.
pub fn split_pin(text: &Name, lib: &Library, placing: &Placing) -> Split
    ensures { result ≡ split_of lib.now placing.now text.now }
{
    split_by(text.as_slice(), &Scan { lib, placing })
}
