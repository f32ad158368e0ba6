//! Components: name, place, side and angle, and whether all of a placed one stands within the plane.
//! Source: SPECCTRA reference, component descriptor; degrees count counter-clockwise, lengths are in nm.

ghost use Rattle.std.specs.Prelude.{◌≡◌, ◌∷◌, ◌++◌, ◌<◌, ◌≤◌, ◌^◌, [], All, IfOk, IfSome, OnOk, map, unsigned_abs};
ghost use Rattle.std.specs.List.{flat_map};
ghost use Rattle.std.specs.Option.{option_copied};
ghost use Rattle.geo_kernel.specs.Plane.{IsWithin};
ghost use Rattle.dsn_shapes.specs.Angles.{no_turn};
ghost use Rattle.dsn_shapes.specs.Lists.{trees_of};
ghost use Rattle.dsn_shapes.specs.Numbers.{coord_refusal};
ghost use Rattle.dsn_shapes.specs.Refusals.{noted};
ghost use Rattle.dsn_shapes.specs.Within.{IsImageWithin, IsLibraryWithin};
ghost use Rattle.dsn_placement.specs.Copper.{IsStandWithin};
ghost use Rattle.dsn_placement.specs.Places.{angle_in, angle_refusal, component_laid, component_refusals};
ghost use Rattle.dsn_placement.specs.Places.{coord_word, counted_by, far_refusal, image_at};
ghost use Rattle.dsn_placement.specs.Places.{image_names, image_place, items_of, laid_of, pins_of};
ghost use Rattle.dsn_placement.specs.Places.{place_by, place_refusals, places_in, point_in};
ghost use Rattle.dsn_placement.specs.Places.{point_refusals, side_in, side_refusal, stand_by, stand_in};
ghost use Rattle.dsn_placement.specs.Places.{stand_refusals, turn_by, unknown_at};

use crate::reach::is_image_placed;
use crate::seat::Stand;
use dsn_shapes::table::{BAD_FORM, NO_IMAGE, NO_NUMBER, OUT_OF_RANGE};
use dsn_shapes::{
    Image, Library, NameIndex, Place, Refusal, Trees, angle_in as word_angle, at_of, coord_in,
    name_of, note, nth_word, place_index, place_of, refuse_quoted_name, refused, says,
};
use dsn_tree::Tree;
use dsn_units::{Angle, Scale};
use geo_kernel::{List, Point};
use std::alloc::{AllocError, Global};

/// A component with the byte offset of its list, and how many pins and items it adds to those that are placed.
#[derive(Drop)]
pub struct Laid {
    pub place: Place,
    pub at: u64,
    pub pins: u64,
    pub items: u64,
}

// What the components are read over.
#[derive(Clone, Copy)]
pub(crate) struct Around<'a> {
    pub(crate) scale: Scale,
    pub(crate) flip_last: bool,
    pub(crate) library: &'a Library,
}

// Word i, which is wanted, as a coordinate in nm.
fn coord_word(first: &mut Option<Refusal>, tree: &Tree, i: usize, s: Scale) -> Option<i64>
    ensures noted { first.new ≡ noted first.old (coord_refusal s.nm tree.now i) }
    ensures value { result ≡ coord_word s.nm tree.now i }
    ensures within { IfSome result (λ x. unsigned_abs x ≤ 2 ^ 29) }
{
    match nth_word(tree, i) {
        Some(word) => coord_in(first, word, s),
        None => {
            note(first, refused(NO_NUMBER, at_of(tree)));
            None
        }
    }
}

fn point_in(first: &mut Option<Refusal>, tree: &Tree, s: Scale) -> Option<Point>
    ensures noted { first.new ≡ noted first.old (point_refusals s.nm tree.now) }
    ensures value { result ≡ point_in s.nm tree.now }
    ensures within { IfSome result (IsWithin (2 ^ 29)) }
{
    let x = coord_word(first, tree, 2, s);
    let y = coord_word(first, tree, 3, s);
    match x {
        Some(x) => match y {
            Some(y) => Some(Point { x, y }),
            None => None,
        },
        None => None,
    }
}

fn side_in(first: &mut Option<Refusal>, tree: &Tree) -> Option<bool>
    ensures noted { first.new ≡ noted first.old (side_refusal tree.now) }
    ensures value { result ≡ side_in tree.now }
{
    if says(tree, 4, b"front") {
        Some(false)
    } else if says(tree, 4, b"back") {
        Some(true)
    } else {
        note(first, refused(BAD_FORM, at_of(tree)));
        None
    }
}

fn angle_in(first: &mut Option<Refusal>, tree: &Tree) -> Option<Angle>
    ensures noted { first.new ≡ noted first.old (angle_refusal tree.now) }
    ensures value { result ≡ angle_in tree.now }
    ensures reduced { IfSome result (λ a. a.microdegrees < 360000000) }
{
    match nth_word(tree, 5) {
        Some(word) => word_angle(first, word),
        None => {
            note(first, refused(NO_NUMBER, at_of(tree)));
            None
        }
    }
}

fn turn_by(flip_last: bool, at: Point, back: Option<bool>, angle: Option<Angle>) -> Option<Stand>
    requires at_within { IsWithin (2 ^ 29) at }
    requires reduced { IfSome angle (λ a. a.microdegrees < 360000000) }
    ensures value { result ≡ turn_by flip_last at back angle }
    ensures within { IfSome result IsStandWithin }
{
    match back {
        Some(back) => match angle {
            Some(angle) => Some(Stand {
                at,
                back,
                flip_last,
                angle,
            }),
            None => None,
        },
        None => None,
    }
}

// Where the words of a component let it stand, if it has any behind its name.
fn stand_in(first: &mut Option<Refusal>, tree: &Tree, s: Scale, flip_last: bool) -> Option<Stand>
    ensures noted { first.new ≡ noted first.old (stand_refusals s.nm tree.now) }
    ensures value { result ≡ stand_in s.nm flip_last tree.now }
    ensures within { IfSome result IsStandWithin }
{
    if nth_word(tree, 2).is_none() {
        return None;
    }
    let at = point_in(first, tree, s);
    let back = side_in(first, tree);
    let angle = angle_in(first, tree);
    match at {
        Some(at) => turn_by(flip_last, at, back, angle),
        None => None,
    }
}

// The image at a place of the library.
fn image_at(library: &Library, place: Option<usize>) -> Option<&Image>
    requires { IsLibraryWithin library.now }
    ensures value { option_copied result ≡ image_at library.now place }
    ensures within { IfSome result (λ i. IsImageWithin i.now) }
{
    match place {
        Some(place) => library.images.get(place),
        None => None,
    }
}

fn refuse_far(
    first: &mut Option<Refusal>,
    at: u64,
    library: &Library,
    image: Option<&Image>,
    stand: Option<Stand>,
)
    requires library_within { IsLibraryWithin library.now }
    requires image_within { IfSome image (λ i. IsImageWithin i.now) }
    requires stand_within { IfSome stand IsStandWithin }
    ensures { first.new ≡ noted first.old (far_refusal at library.now.stacks (option_copied image.entry) stand) }
{
    if let Some(image) = image {
        if let Some(stand) = stand {
            if !is_image_placed(stand, &library.stacks, image) {
                note(first, refused(OUT_OF_RANGE, at));
            }
        }
    }
}

fn place_by(
    alloc: Global,
    name: &[u8],
    image: u32,
    stand: Option<Stand>,
) -> Result<Place, AllocError>
    ensures { IfOk result (λ p. p ≡ place_by name.now image stand) }
{
    let name = List::from_slice(alloc, name)?;
    match stand {
        Some(stand) => Ok(Place {
            name,
            image,
            at: Some(stand.at),
            back: stand.back,
            angle: stand.angle,
        }),
        None => Ok(Place {
            name,
            image,
            at: None,
            back: false,
            angle: Angle { microdegrees: 0 },
        }),
    }
}

fn pins_of(counts: bool, image: Option<&Image>) -> u64
    ensures { result ≡ counted_by counts (pins_of (option_copied image.entry)) }
{
    match image {
        Some(image) if counts => image.pins.len() as u64,
        _ => 0,
    }
}

fn items_of(counts: bool, image: Option<&Image>) -> u64
    ensures { result ≡ counted_by counts (items_of (option_copied image.entry)) }
{
    match image {
        Some(image) if counts => (image.bans.len() as u64).saturating_add(image.pins.len() as u64),
        _ => 0,
    }
}

// A component of the image at a place of the library.
#[tactic(auto, unfolding(crate::specs::Places::place_refusals, crate::specs::Places::laid_of))]
fn read_place(
    alloc: Global,
    first: &mut Option<Refusal>,
    tree: &Tree,
    around: Around,
    image: Option<usize>,
) -> Result<Laid, AllocError>
    requires { IsLibraryWithin around.library.now }
    ensures noted { OnOk result
        (first.new ≡ noted first.old
        (place_refusals around.entry.scale.nm around.entry.flip_last around.entry.library.now image tree.now)) }
    ensures value { IfOk result
        (λ l. l ≡ laid_of around.entry.scale.nm around.entry.flip_last around.entry.library.now image tree.now) }
{
    refuse_quoted_name(first, tree, 1);
    let found = image_at(around.library, image);
    let stand = stand_in(first, tree, around.scale, around.flip_last);
    refuse_far(first, at_of(tree), around.library, found, stand);
    let place = place_by(
        alloc,
        name_of(tree, 1),
        place_index(image.unwrap_or(0)),
        stand,
    )?;
    let counts = nth_word(tree, 2).is_some();
    Ok(Laid {
        place,
        at: at_of(tree),
        pins: pins_of(counts, found),
        items: items_of(counts, found),
    })
}

// Appends the components of one image.
fn push_places(
    alloc: Global,
    first: &mut Option<Refusal>,
    laid: &mut List<Laid>,
    trees: &[&Tree],
    around: Around,
    image: Option<usize>,
) -> Result<(), AllocError>
    requires { IsLibraryWithin around.library.now }
    ensures noted { OnOk result
        (first.new ≡ noted first.old
        (flat_map (place_refusals around.entry.scale.nm around.entry.flip_last around.entry.library.now image)
        (trees_of trees.now))) }
    ensures value { OnOk result
        (laid.new ≡ laid.old
        ++ map (laid_of around.entry.scale.nm around.entry.flip_last around.entry.library.now image)
        (trees_of trees.now)) }
{
    for tree in trees {
        let place = read_place(alloc, first, tree, around, image)?;
        laid.push(place)?;
    }
    Ok(())
}

fn refuse_unknown(first: &mut Option<Refusal>, at: u64, image: Option<usize>)
    ensures { first.new ≡ noted first.old (unknown_at at image) }
{
    if image.is_none() {
        note(first, refused(NO_IMAGE, at));
    }
}

// Appends the components of a list, whose image is found among the names.
#[tactic(auto, unfolding(crate::specs::Places::component_refusals, crate::specs::Places::component_laid))]
fn push_component(
    alloc: Global,
    first: &mut Option<Refusal>,
    laid: &mut List<Laid>,
    tree: &Tree,
    around: Around,
    names: &NameIndex,
) -> Result<(), AllocError>
    requires library_within { IsLibraryWithin around.library.now }
    requires names_of { names.now ≡ image_names around.library.now }
    ensures noted { OnOk result
        (first.new ≡ noted first.old
        (component_refusals around.entry.scale.nm around.entry.flip_last around.entry.library.now tree.now)) }
    ensures value { OnOk result
        (laid.new ≡ laid.old
        ++ component_laid around.entry.scale.nm around.entry.flip_last around.entry.library.now tree.now) }
{
    let image = names.first_place(name_of(tree, 1));
    refuse_unknown(first, place_of(tree, 1), image);
    let places = Trees::in_list(alloc, tree, b"place")?;
    push_places(alloc, first, laid, places.as_slice(), around, image)
}

/// The components of these lists, in order; `names` is the index of the names of the library's images.
pub(crate) fn read_components(
    alloc: Global,
    first: &mut Option<Refusal>,
    trees: &[&Tree],
    around: Around,
    names: &NameIndex,
) -> Result<List<Laid>, AllocError>
    requires library_within { IsLibraryWithin around.library.now }
    requires names_of { names.now ≡ image_names around.library.now }
    ensures noted { OnOk result
        (first.new ≡ noted first.old
        (flat_map (component_refusals around.entry.scale.nm around.entry.flip_last around.entry.library.now)
        (trees_of trees.now))) }
    ensures value { IfOk result
        (λ ls. ls ≡ flat_map
        (component_laid around.entry.scale.nm around.entry.flip_last around.entry.library.now)
        (trees_of trees.now)) }
{
    let mut laid = List::new(alloc);
    for tree in trees {
        push_component(alloc, first, &mut laid, tree, around, names)?;
    }
    Ok(laid)
}
