//! The net of a wire or via, and whether it is fixed.
//! Source: SPECCTRA reference, wire and via descriptors of the wiring.

ghost use Rattle.std.specs.Prelude.{◌≡◌};
ghost use Rattle.dsn_shapes.specs.Refusals.{noted};
ghost use Rattle.dsn_wiring.specs.Nets.{is_fixed, net_of, net_refusals, place_in};

use dsn_shapes::table::NO_NET;
use dsn_shapes::{
    NameIndex, Refusal, note, nth_word, place_index, place_of, refused, says, text_of,
};
use dsn_tree::{Tree, child};

fn place_in(nets: &NameIndex, tree: &Tree) -> Option<usize>
    ensures { result ≡ place_in nets.now tree.now }
{
    match nth_word(tree, 1) {
        Some(word) => nets.first_place(text_of(word)),
        None => None,
    }
}

/// The net of a wire or via, if it has one.
#[tactic(auto, unfolding(crate::specs::Nets::net_of, crate::specs::Nets::net_refusals))]
pub(crate) fn net_of(first: &mut Option<Refusal>, nets: &NameIndex, tree: &Tree) -> Option<u32>
    ensures noted { first.new ≡ noted first.old (net_refusals nets.now tree.now) }
    ensures value { result ≡ net_of nets.now tree.now }
{
    let Some(found) = child(tree, b"net") else {
        return None;
    };
    match place_in(nets, found) {
        Some(place) => Some(place_index(place)),
        None => {
            note(first, refused(NO_NET, place_of(found, 1)));
            None
        }
    }
}

/// Whether a wire or via of this net, or of none, is fixed.
#[tactic(auto, unfolding(crate::specs::Nets::is_fixed))]
pub(crate) fn is_fixed(net: Option<u32>, tree: &Tree) -> bool
    ensures { result ≡ is_fixed net tree.now }
{
    if net.is_none() {
        return true;
    }
    match child(tree, b"type") {
        Some(tree) => says(tree, 1, b"fix") || says(tree, 1, b"protect"),
        None => false,
    }
}
