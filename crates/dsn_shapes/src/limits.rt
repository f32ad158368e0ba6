//! How much of what is counted a design may have, and what is refused past that.

ghost use Rattle.std.specs.Prelude.{◌≡◌, ◌<◌, ◌^◌};
ghost use Rattle.dsn_shapes.specs.Limits.{most_of, past_limit, too_many};
ghost use Rattle.dsn_shapes.specs.Refusals.{noted};

use crate::lists::at_of;
use crate::refusal::{Refusal, What, note};
use crate::table::PAST_LIMIT;
use crate::trees::Trees;
use pcb_model::limits::{MOST_ITEMS, MOST_LAYERS, MOST_NETS, MOST_PINS, MOST_VERTICES};

/// How many of these a design may have; 0 where nothing is counted.
pub fn most_of(what: What) -> u64
    ensures value { result ≡ most_of what }
    ensures small { result < 2 ^ 32 }
{
    match what {
        What::Nothing => 0,
        What::Layers => MOST_LAYERS,
        What::Nets => MOST_NETS,
        What::Pins => MOST_PINS,
        What::Items => MOST_ITEMS,
        What::Vertices => MOST_VERTICES,
    }
}

/// The refusal, at its place, of what is one too many.
pub fn past_limit(what: What, at: u64) -> Refusal
    ensures { result ≡ past_limit what at }
{
    Refusal {
        number: PAST_LIMIT,
        at,
        what,
        limit: most_of(what),
    }
}

/// Refuses the first list that is one too many, where `before` of what they are stand before them.
pub fn refuse_past(first: &mut Option<Refusal>, what: What, before: u64, lists: &Trees)
    ensures { first.new ≡ noted first.old (too_many what before lists.now) }
{
    if let Some(tree) = lists.get(most_of(what).saturating_sub(before) as usize) {
        note(first, past_limit(what, at_of(tree)));
    }
}
