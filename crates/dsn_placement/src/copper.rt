//! Shapes of padstacks and of images where their component stands, on the layers of its side of the board.
//! Source: SPECCTRA reference, placement descriptor: a component on the back has its layers turned over.

ghost use Rattle.std.specs.Prelude.{◌≡◌, ◌+◌, ◌*◌, ◌<◌, ◌≤◌, ◌^◌, All, IfOk, is_some};
ghost use Rattle.geo_kernel.specs.Plane.{IsWithin};
ghost use Rattle.geo_kernel.specs.Spine.{IsSpineWithin};
ghost use Rattle.dsn_shapes.specs.declared.parts.LayerShape.{LayerShape as TheShape};
ghost use Rattle.dsn_shapes.specs.Within.{IsPinWithin, IsStackWithin};
ghost use Rattle.dsn_placement.specs.Copper.{IsSeatWithin, IsStandWithin, all_or_none, ban_copper, bare_seat};
ghost use Rattle.dsn_placement.specs.Copper.{layers_at, pin_centre, pin_copper, pin_seat, placed_shape};
ghost use Rattle.dsn_placement.specs.Copper.{placed_spine, seat_point, stack_shapes, turned_over};

use crate::seat::{Mount, Seat, Stand};
use dsn_shapes::{BanShape, ImagePin, LayerShape, Stack};
use geo_kernel::{List, Point, Spine};
use std::alloc::{AllocError, Global};

fn place_points(
    alloc: Global,
    seat: Seat,
    points: &[Point],
) -> Result<Option<List<Point>>, AllocError>
    requires seat_within { IsSeatWithin seat }
    requires points_within { All (IsWithin (2 ^ 29)) points.now }
    ensures { IfOk result (λ ps. ps ≡ all_or_none (seat_point seat) points.now) }
{
    let mut placed = List::new(alloc);
    for point in points {
        match seat.point(*point) {
            Some(p) => placed.push(p)?,
            None => return Ok(None),
        }
    }
    Ok(Some(placed))
}

fn place_loops(
    alloc: Global,
    seat: Seat,
    loops: &[List<Point>],
) -> Result<Option<List<List<Point>>>, AllocError>
    requires seat_within { IsSeatWithin seat }
    requires loops_within { All (All (IsWithin (2 ^ 29))) loops.now }
    ensures { IfOk result (λ ls. ls ≡ all_or_none (all_or_none (seat_point seat)) loops.now) }
{
    let mut placed = List::new(alloc);
    for points in loops {
        match place_points(alloc, seat, points.as_slice())? {
            Some(ps) => placed.push(ps)?,
            None => return Ok(None),
        }
    }
    Ok(Some(placed))
}

/// A spine with each vertex placed; None exactly where a coordinate passes 2^29 in absolute value.
#[tactic(auto, unfolding(crate::specs::Copper::placed_spine))]
pub fn place_spine(alloc: Global, seat: Seat, spine: &Spine) -> Result<Option<Spine>, AllocError>
    requires seat_within { IsSeatWithin seat }
    requires spine_within { IsSpineWithin (2 ^ 29) spine.now }
    ensures { IfOk result (λ s. s ≡ placed_spine seat spine.now) }
{
    match spine {
        Spine::Chain(points) => match place_points(alloc, seat, points.as_slice())? {
            Some(placed) => Ok(Some(Spine::Chain(placed))),
            None => Ok(None),
        },
        Spine::Area(loops) => match place_loops(alloc, seat, loops.as_slice())? {
            Some(placed) => Ok(Some(Spine::Area(placed))),
            None => Ok(None),
        },
    }
}

/// The set of the first `count` layers of `layers` upside down: layer i becomes layer `count` - 1 - i.
pub fn turn_over(count: u32, layers: u32) -> u32
    requires { count ≤ 32 }
    ensures value { result ≡ turned_over count layers }
    ensures within { result < 2 ^ count }
{
    if count == 0 {
        return 0;
    }
    let rest = turn_over(count - 1, layers / 2);
    if layers % 2 == 0 {
        rest
    } else {
        (1u32 << (count - 1)) + rest
    }
}

fn layers_at(count: u32, back: bool, layers: u32) -> u32
    requires { count ≤ 32 }
    ensures { result ≡ layers_at count back layers }
{
    if back {
        turn_over(count, layers)
    } else {
        layers
    }
}

/// A shape where it stands on a board of `count` layers, at most 32; None exactly where a coordinate passes 2^29.
#[tactic(auto, unfolding(crate::specs::Copper::placed_shape))]
pub fn place_shape(
    alloc: Global,
    count: u32,
    seat: Seat,
    shape: &LayerShape,
) -> Result<Option<LayerShape>, AllocError>
    requires few { count ≤ 32 }
    requires seat_within { IsSeatWithin seat }
    requires shape_within { IsSpineWithin (2 ^ 29) shape.now.spine }
    ensures { IfOk result (λ s. s ≡ placed_shape count seat shape.now) }
{
    match place_spine(alloc, seat, &shape.spine)? {
        Some(spine) => Ok(Some(LayerShape {
            layers: layers_at(count, seat.stand.back, shape.layers),
            spine,
            width: shape.width,
        })),
        None => Ok(None),
    }
}

fn place_shapes(
    alloc: Global,
    count: u32,
    seat: Seat,
    shapes: &[LayerShape],
) -> Result<Option<List<LayerShape>>, AllocError>
    requires few { count ≤ 32 }
    requires seat_within { IsSeatWithin seat }
    requires shapes_within { All (λ (s : TheShape). IsSpineWithin (2 ^ 29) s.spine) shapes.now }
    ensures { IfOk result (λ ss. ss ≡ all_or_none (placed_shape count seat) shapes.now) }
{
    let mut placed = List::new(alloc);
    for shape in shapes {
        match place_shape(alloc, count, seat, shape)? {
            Some(s) => placed.push(s)?,
            None => return Ok(None),
        }
    }
    Ok(Some(placed))
}

/// Where the padstack of a pin stands.
pub fn pin_seat(stand: Stand, pin: &ImagePin) -> Seat
    ensures { result ≡ pin_seat stand pin.now }
{
    Seat {
        pin: Some(Mount {
            at: pin.at,
            angle: pin.angle,
        }),
        stand,
    }
}

/// Where a shape of the image itself stands.
pub fn bare_seat(stand: Stand) -> Seat
    ensures { result ≡ bare_seat stand }
{
    Seat { pin: None, stand }
}

/// The shapes of a pin's padstack.
pub(crate) fn stack_shapes<'a>(stacks: &'a List<Stack>, pin: &ImagePin) -> &'a [LayerShape]
    requires { All IsStackWithin stacks.now }
    ensures value { result.now ≡ stack_shapes stacks.now pin.now }
    ensures within { All (λ (s : TheShape). IsSpineWithin (2 ^ 29) s.spine) result.now }
{
    match stacks.get(pin.stack as usize) {
        Some(stack) => stack.shapes.as_slice(),
        None => &[],
    }
}

/// A pin's own place, in nm; None exactly where a coordinate passes 2^29.
#[tactic(auto, unfolding(crate::specs::Copper::pin_centre))]
pub fn pin_centre(stand: Stand, pin: &ImagePin) -> Option<Point>
    requires stand_within { IsStandWithin stand }
    requires pin_within { IsPinWithin pin.now }
    ensures { result ≡ pin_centre stand pin.now }
{
    bare_seat(stand).point(pin.at)
}

/// The copper of a pin on a board of `count` layers: the placed shapes of its padstack.
/// None exactly where a coordinate of one passes 2^29.
#[tactic(auto, unfolding(crate::specs::Copper::pin_copper))]
pub fn pin_copper(
    alloc: Global,
    count: u32,
    stand: Stand,
    stacks: &List<Stack>,
    pin: &ImagePin,
) -> Result<Option<List<LayerShape>>, AllocError>
    requires few { count ≤ 32 }
    requires stand_within { IsStandWithin stand }
    requires stacks_within { All IsStackWithin stacks.now }
    requires pin_within { IsPinWithin pin.now }
    ensures { IfOk result (λ ss. ss ≡ pin_copper count stand stacks.now pin.now) }
{
    place_shapes(
        alloc,
        count,
        pin_seat(stand, pin),
        stack_shapes(stacks, pin),
    )
}

/// The shape of a keepout of an image on a board of `count` layers; None exactly where a coordinate passes 2^29.
#[tactic(auto, unfolding(crate::specs::Copper::ban_copper))]
pub fn ban_copper(
    alloc: Global,
    count: u32,
    stand: Stand,
    ban: &BanShape,
) -> Result<Option<LayerShape>, AllocError>
    requires few { count ≤ 32 }
    requires stand_within { IsStandWithin stand }
    requires ban_within { IsSpineWithin (2 ^ 29) ban.now.shape.spine }
    ensures { IfOk result (λ s. s ≡ ban_copper count stand ban.now) }
{
    place_shape(alloc, count, bare_seat(stand), &ban.shape)
}
