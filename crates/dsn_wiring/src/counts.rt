//! How many items stand before the wiring: boundaries, keepouts, and the pins and keepouts of placed components.
//! Together with the wires and vias there may be `MOST_ITEMS`.

ghost use Rattle.std.specs.Prelude.{◌≡◌};
ghost use Rattle.dsn_shapes.specs.Lists.{capped};
ghost use Rattle.dsn_shapes.specs.declared.refusal.What.TheVariants.{Items};
ghost use Rattle.dsn_shapes.specs.Limits.{too_many};
ghost use Rattle.dsn_shapes.specs.Refusals.{noted};
ghost use Rattle.dsn_wiring.specs.Counts.{items_before, place_items};

use dsn_shapes::{Image, Library, Place, Placing, Refusal, Structure, Trees, What, refuse_past};
use geo_kernel::List;

fn place_items(images: &List<Image>, place: &Place) -> u64
    ensures { result ≡ capped (place_items images.now place.now) }
{
    if place.at.is_none() {
        return 0;
    }
    match images.get(place.image as usize) {
        Some(image) => (image.pins.len() as u64).saturating_add(image.bans.len() as u64),
        None => 0,
    }
}

/// Refuses the first wire or via past the limit of items; the count of those before ends at 2^64 - 1.
#[tactic(auto, unfolding(crate::specs::Counts::items_before))]
pub(crate) fn refuse_many(
    first: &mut Option<Refusal>,
    st: &Structure,
    lib: &Library,
    placing: &Placing,
    wires: &Trees,
)
    ensures { first.new ≡ noted first.old (too_many Items (items_before st.now lib.now placing.now) wires.now) }
{
    let places = placing.places.as_slice();
    let mut before = (st.bounds.len() as u64).saturating_add(st.bans.len() as u64);
    for place in places {
        before = before.saturating_add(place_items(&lib.images, place));
    }
    refuse_past(first, What::Items, before, wires);
}
