//! Where a component stands on the board, and where a pin's padstack stands in it; points that are placed so.
//! Source: SPECCTRA reference, placement descriptor and pin descriptor of an image. Lengths are in nm.

ghost use Rattle.std.specs.Prelude.{◌≡◌, ◌≤◌, ◌^◌, IfSome};
ghost use Rattle.geo_kernel.specs.Plane.{IsWithin};
ghost use Rattle.dsn_placement.specs.Copper.{IsMountWithin, IsSeatWithin, in_image, seat_point};

use crate::point::{moved, place_point};
use dsn_units::{Angle, rotate};
use geo_kernel::Point;

/// Where a component stands: turned by its angle on its side of the board, with its origin at `at`.
/// On the back x is negated before the turn, or after it where `flip_last` is set.
#[derive(Clone, Copy)]
pub struct Stand {
    pub at: Point,
    pub back: bool,
    pub flip_last: bool,
    pub angle: Angle,
}

/// Where the padstack of a pin stands in its image: turned by the pin's angle, with its origin at `at`.
#[derive(Clone, Copy)]
pub struct Mount {
    pub at: Point,
    pub angle: Angle,
}

/// Where a shape stands: that of a padstack in the pin and its component, another in the component alone.
#[derive(Clone, Copy)]
pub struct Seat {
    pub pin: Option<Mount>,
    pub stand: Stand,
}

fn in_image(pin: Option<Mount>, p: Point) -> Point
    requires pin_within { IfSome pin IsMountWithin }
    requires p_within { IsWithin (2 ^ 29) p }
    ensures value { result ≡ in_image pin p }
    ensures within { IsWithin (2 ^ 31) result }
{
    match pin {
        Some(mount) => moved(rotate(p, mount.angle), mount.at),
        None => p,
    }
}

impl Seat {
    /// The placed point; None exactly where a coordinate of it passes 2^29 in absolute value.
    #[tactic(auto, unfolding(crate::specs::Copper::seat_point))]
    pub fn point(self, p: Point) -> Option<Point>
        requires seat_within { IsSeatWithin self }
        requires p_within { IsWithin (2 ^ 29) p }
        ensures value { result ≡ seat_point self p }
        ensures within { IfSome result (IsWithin (2 ^ 29)) }
    {
        let stand = self.stand;
        place_point(
            in_image(self.pin, p),
            stand.back,
            stand.flip_last,
            stand.angle,
            stand.at,
        )
    }
}
