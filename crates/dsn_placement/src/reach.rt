//! Whether all of a component stands within the plane: no coordinate passes 2^29 nm in absolute value.
//! It is asked without memory, before any copper is made.

ghost use Rattle.std.specs.Prelude.{◌≡◌, ◌<◌, ◌≤◌, ◌^◌, All, is_some};
ghost use Rattle.std.specs.List.{list_all};
ghost use Rattle.geo_kernel.specs.Plane.{IsWithin};
ghost use Rattle.geo_kernel.specs.Spine.{IsSpineWithin};
ghost use Rattle.dsn_shapes.specs.declared.parts.BanShape.{BanShape as TheBan};
ghost use Rattle.dsn_shapes.specs.declared.parts.LayerShape.{LayerShape as TheShape};
ghost use Rattle.dsn_shapes.specs.Within.{IsImageWithin, IsPinWithin, IsStackWithin};
ghost use Rattle.dsn_placement.specs.Copper.{IsSeatWithin, IsStandWithin, all_or_none, bare_seat, is_image_placed};
ghost use Rattle.dsn_placement.specs.Copper.{is_pin_placed, is_spine_placed, placed_spine, seat_point};

use crate::copper::{bare_seat, pin_centre, pin_seat, stack_shapes};
use crate::seat::{Seat, Stand};
use dsn_shapes::{BanShape, Image, ImagePin, LayerShape, Stack};
use geo_kernel::{List, Point, Spine};

fn are_points_placed(seat: Seat, points: &[Point]) -> bool
    requires seat_within { IsSeatWithin seat }
    requires points_within { All (IsWithin (2 ^ 29)) points.now }
    ensures { result ≡ is_some (all_or_none (seat_point seat) points.now) }
{
    for point in points {
        if seat.point(*point).is_none() {
            return false;
        }
    }
    true
}

fn are_loops_placed(seat: Seat, loops: &[List<Point>]) -> bool
    requires seat_within { IsSeatWithin seat }
    requires loops_within { All (All (IsWithin (2 ^ 29))) loops.now }
    ensures { result ≡ is_some (all_or_none (all_or_none (seat_point seat)) loops.now) }
{
    for points in loops {
        if !are_points_placed(seat, points.as_slice()) {
            return false;
        }
    }
    true
}

#[tactic(auto, unfolding(crate::specs::Copper::placed_spine))]
fn is_spine_placed(seat: Seat, spine: &Spine) -> bool
    requires seat_within { IsSeatWithin seat }
    requires spine_within { IsSpineWithin (2 ^ 29) spine.now }
    ensures { result ≡ is_spine_placed seat spine.now }
{
    match spine {
        Spine::Chain(points) => are_points_placed(seat, points.as_slice()),
        Spine::Area(loops) => are_loops_placed(seat, loops.as_slice()),
    }
}

fn are_shapes_placed(seat: Seat, shapes: &[LayerShape]) -> bool
    requires seat_within { IsSeatWithin seat }
    requires shapes_within { All (λ (s : TheShape). IsSpineWithin (2 ^ 29) s.spine) shapes.now }
    ensures { result ≡ list_all (λ (s : TheShape). is_spine_placed seat s.spine) shapes.now }
{
    for shape in shapes {
        if !is_spine_placed(seat, &shape.spine) {
            return false;
        }
    }
    true
}

#[tactic(auto, unfolding(crate::specs::Copper::is_pin_placed))]
fn is_pin_placed(stand: Stand, stacks: &List<Stack>, pin: &ImagePin) -> bool
    requires stand_within { IsStandWithin stand }
    requires stacks_within { All IsStackWithin stacks.now }
    requires pin_within { IsPinWithin pin.now }
    ensures { result ≡ is_pin_placed stand stacks.now pin.now }
{
    pin_centre(stand, pin).is_some()
        && are_shapes_placed(pin_seat(stand, pin), stack_shapes(stacks, pin))
}

fn are_pins_placed(stand: Stand, stacks: &List<Stack>, pins: &[ImagePin]) -> bool
    requires stand_within { IsStandWithin stand }
    requires stacks_within { All IsStackWithin stacks.now }
    requires pins_within { All IsPinWithin pins.now }
    ensures { result ≡ list_all (is_pin_placed stand stacks.now) pins.now }
{
    for pin in pins {
        if !is_pin_placed(stand, stacks, pin) {
            return false;
        }
    }
    true
}

fn are_bans_placed(stand: Stand, bans: &[BanShape]) -> bool
    requires stand_within { IsStandWithin stand }
    requires bans_within { All (λ (b : TheBan). IsSpineWithin (2 ^ 29) b.shape.spine) bans.now }
    ensures { result ≡ list_all (λ (b : TheBan). is_spine_placed (bare_seat stand) b.shape.spine) bans.now }
{
    for ban in bans {
        if !is_spine_placed(bare_seat(stand), &ban.shape.spine) {
            return false;
        }
    }
    true
}

/// Whether all of an image has its place on the board: its pins, their copper and its keepouts.
#[tactic(auto, unfolding(crate::specs::Copper::is_image_placed))]
pub(crate) fn is_image_placed(stand: Stand, stacks: &List<Stack>, image: &Image) -> bool
    requires stand_within { IsStandWithin stand }
    requires stacks_within { All IsStackWithin stacks.now }
    requires image_within { IsImageWithin image.now }
    ensures { result ≡ is_image_placed stand stacks.now image.now }
{
    are_pins_placed(stand, stacks, image.pins.as_slice())
        && are_bans_placed(stand, image.bans.as_slice())
}
