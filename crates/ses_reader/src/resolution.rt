//! The resolution of a session's routes, such as `(resolution um 10)`: ten of its units are one micrometre.
//! Source: SPECCTRA reference, unit and resolution descriptors.

ghost use Rattle.std.specs.Prelude.{◌≡◌, ◌≤◌, unwrap_or};
ghost use Rattle.dsn_shapes.specs.Refusals.{noted};
ghost use Rattle.dsn_structure.specs.Header.{count_of, unit_of};
ghost use Rattle.ses_reader.specs.Measures.{measure_in, resolution_refusals};

use crate::measure::Measure;
use crate::numbers::note_unless;
use crate::table::{NO_MEASURE, NO_SESSION};
use dsn_shapes::{Refusal, at_of, name_of, note, place_of, refused};
use dsn_structure::{count_of, unit_of};
use dsn_tree::{Tree, child};
use geo_kernel::Unit;

fn per_in(tree: &Tree) -> u32
    ensures value { result ≡ unwrap_or (count_of tree.now) 1 }
    ensures some { 1 ≤ result }
{
    match count_of(tree) {
        Some(count) => count,
        None => 1,
    }
}

/// The unit of the numbers of these routes; a part of the resolution that is refused stands for `um` or 1.
#[tactic(auto, unfolding(crate::specs::Measures::measure_in))]
pub(crate) fn measure_in(routes: &Tree) -> Measure
    ensures value { result ≡ measure_in routes.now }
    ensures some { 1 ≤ result.per }
{
    match child(routes, b"resolution") {
        Some(tree) => Measure {
            unit: unit_of(name_of(tree, 1)).unwrap_or(Unit::Um),
            per: per_in(tree),
        },
        None => Measure {
            unit: Unit::Um,
            per: 1,
        },
    }
}

/// Refuses the resolution of these routes, or their lack of one.
#[tactic(auto, unfolding(crate::specs::Measures::resolution_refusals))]
pub(crate) fn refuse_resolutions(first: &mut Option<Refusal>, routes: &Tree)
    ensures { first.new ≡ noted first.old (resolution_refusals routes.now) }
{
    match child(routes, b"resolution") {
        Some(tree) => {
            let unit = unit_of(name_of(tree, 1));
            note_unless(first, unit.is_some(), NO_MEASURE, place_of(tree, 1));
            let count = count_of(tree);
            note_unless(first, count.is_some(), NO_MEASURE, place_of(tree, 2));
        }
        None => note(first, refused(NO_SESSION, at_of(routes))),
    }
}
