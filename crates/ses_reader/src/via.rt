//! Vias: a padstack of the design and its place, which its copper may not carry past the board.
//! Source: SPECCTRA reference, via descriptor of the routes; coordinates in nm.

ghost use Rattle.std.specs.Prelude.{◌≡◌, ◌≤◌};
ghost use Rattle.dsn_shapes.specs.Refusals.{noted};
ghost use Rattle.ses_reader.specs.Copper.{is_via_past, padstack_at, via_metal, via_refusals};

use crate::index::DesignIndex;
use crate::measure::Measure;
use crate::numbers::{note_coord, note_unless};
use crate::table::{NO_MEASURE, NO_PADSTACK};
use crate::vertices::is_stack_past;
use dsn_shapes::{Refusal, at_of, name_of, place_index, place_of};
use dsn_tree::Tree;
use dsn_wiring::point_by;
use geo_kernel::Point;
use pcb_model::{Design, Metal};

#[tactic(auto, unfolding(crate::specs::Copper::is_via_past))]
fn is_via_past(d: &Design, place: Option<usize>, at: Option<Point>) -> bool
    ensures { result ≡ is_via_past (padstack_at d.now place) at }
{
    let (Some(place), Some(at)) = (place, at) else {
        return false;
    };
    match d.padstacks.get(place) {
        Some(padstack) => is_stack_past(at, padstack),
        None => false,
    }
}

/// The padstack of a via, and its place.
pub(crate) fn note_via(
    first: &mut Option<Refusal>,
    index: &DesignIndex,
    via: &Tree,
    m: Measure,
) -> Metal
    requires { 1 ≤ m.per }
    ensures noted { first.new ≡ noted first.old (via_refusals index.now m via.now) }
    ensures value { result ≡ via_metal index.now m via.now }
{
    let place = index.padstack(name_of(via, 1));
    note_unless(first, place.is_some(), NO_PADSTACK, place_of(via, 1));
    let x = note_coord(first, via, 2, m);
    let y = note_coord(first, via, 3, m);
    let at = point_by(x, y);
    let is_past = is_via_past(index.design(), place, at);
    note_unless(first, !is_past, NO_MEASURE, at_of(via));
    Metal::Via {
        padstack: place_index(place.unwrap_or(0)),
        at: at.unwrap_or(Point { x: 0, y: 0 }),
    }
}
