//! Where points and copper of a component stand.
//! A component on the back is mirrored, turned and moved.

ghost use Rattle.std.specs.Prelude.{All};
ghost use Rattle.dsn_shapes.specs.Within.{IsImageWithin, IsLibraryWithin, IsPinWithin};

use dsn_placement::{Stand, ban_copper, pin_centre, pin_copper, place_point, turn_over};
use dsn_shapes::{Image, ImagePin, LayerShape, Library};
use dsn_units::Angle;
use geo_kernel::{Point, Spine};
use std::alloc::Global;

const ORIGIN: Point = Point { x: 0, y: 0 };

static SIDES: [(bool, bool, i64, i64); 4] = [
    (false, false, 8_660_254, 5_000_000),
    (false, true, 8_660_254, 5_000_000),
    (true, false, -8_660_254, -5_000_000),
    (true, true, -8_660_254, 5_000_000),
];

#[test]
fn points_are_placed_on_both_sides(rt: HostRuntime) {
    let p = Point {
        x: 10_000_000,
        y: 0,
    };
    let a = Angle {
        microdegrees: 30_000_000,
    };
    for &(back, flip_last, x, y) in &SIDES {
        let placed = place_point(p, back, flip_last, a, ORIGIN);
        assert!(rt; placed == Some(Point { x, y }));
    }
}

/// The point one nm to the right of the last place of the plane, turned so far.
fn past_the_edge(degrees: u8) -> Option<Point> {
    let edge = Point {
        x: 536_870_912,
        y: 0,
    };
    let angle = Angle {
        microdegrees: u32::from(degrees) * 1_000_000,
    };
    place_point(Point { x: 1, y: 0 }, false, false, angle, edge)
}

#[test]
fn a_point_past_the_limit_is_not_placed(rt: HostRuntime) {
    assert!(rt; past_the_edge(0).is_none());
    let back = Point {
        x: 536_870_911,
        y: 0,
    };
    assert!(rt; past_the_edge(180) == Some(back));
}

fn turned_over(count: u8, layers: u32) -> u32 {
    if count > 32 {
        return 0;
    }
    turn_over(u32::from(count), layers)
}

static SETS: [(u8, u32, u32); 5] = [
    (2, 0b01, 0b10),
    (4, 0b0011, 0b1100),
    (3, 0b111_010, 0b010),
    (32, 1, 0x8000_0000),
    (0, 7, 0),
];

#[test]
fn sets_of_layers_are_turned_over(rt: HostRuntime) {
    for &(count, layers, wanted) in &SETS {
        assert!(rt; turned_over(count, layers) == wanted);
    }
}

/// Where the component R1 of the board stands: on the back, turned by 90 degrees.
const BACK: Stand = Stand {
    at: Point {
        x: 140_000_000,
        y: -115_000_000,
    },
    back: true,
    flip_last: false,
    angle: Angle {
        microdegrees: 90_000_000,
    },
};

/// Whether that is a disc on the last of three layers.
fn is_disc(shape: &LayerShape, width: u64, at: Point) -> bool {
    match &shape.spine {
        Spine::Chain(points) => {
            (shape.layers, shape.width) == (0b100, width) && points.get(0) == Some(&at)
        }
        Spine::Area(_) => false,
    }
}

/// Whether the first pin of the first image is turned in its image, mirrored and turned again.
fn has_pin(alloc: Global, library: &Library, pin: &ImagePin) -> bool
    requires library_within { IsLibraryWithin library.now }
    requires pin_within { IsPinWithin pin.now }
{
    let (x, beside, y) = (140_000_000, 139_999_000, -114_200_000);
    match pin_copper(alloc, 3, BACK, &library.stacks, pin) {
        Ok(Some(copper)) => match copper.as_slice() {
            [shape] => {
                is_disc(shape, 10, Point { x: beside, y })
                    && pin_centre(BACK, pin) == Some(Point { x, y })
            }
            _ => false,
        },
        _ => false,
    }
}

/// Whether the keepout of an image is mirrored, and its layers are turned over.
fn has_ban(alloc: Global, image: &Image) -> bool
    requires { IsImageWithin image.now }
{
    let (x, y) = (140_000_000, -114_998_000);
    let [ban] = image.bans.as_slice() else {
        return false;
    };
    match ban_copper(alloc, 3, BACK, ban) {
        Ok(Some(shape)) => is_disc(&shape, 5_000, Point { x, y }),
        _ => false,
    }
}

/// Whether the copper of the first image of the board stands where R1 puts it.
pub(crate) fn has_copper(alloc: Global, library: &Library) -> bool
    requires { IsLibraryWithin library.now }
{
    let [image, ..] = library.images.as_slice() else {
        return false;
    };
    let [pin, ..] = image.pins.as_slice() else {
        return false;
    };
    has_pin(alloc, library, pin) && has_ban(alloc, image)
}
