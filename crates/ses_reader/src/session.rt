//! The reader of a session: its first `routes`, and in it the first `resolution` and the first `network_out`.
//! Source: SPECCTRA reference, session file descriptor; other lists are passed over.

ghost use Rattle.std.specs.Prelude.{◌≡◌, ◌≢◌, All, IfOk, OnOk, alloc_error};
ghost use Rattle.pcb_model.specs.Sound.{HasFewParts};
ghost use Rattle.dsn_shapes.specs.Refusals.{Reads, noted};
ghost use Rattle.ses_reader.specs.Session.{routes_items, routes_refusals, session_items, session_refusals};
ghost use Rattle.ses_reader.specs.Reading.{ReadsSession};
ghost use Rattle.ses_reader.specs.Sound.{IsItemSound};

use crate::item::{SesFault, SesItem};
use crate::network::note_network;
use crate::numbers::note_unless;
use crate::resolution::{measure_in, refuse_resolutions};
use crate::table::NO_SESSION;
use dsn_shapes::{ReadFault, Refusal, at_of, note, refused};
use dsn_tree::{Tree, TreeFault, child, is_headed, read_tree};
use geo_kernel::List;
use pcb_model::Design;
use std::alloc::{AllocError, Global};

#[tactic(auto, unfolding(crate::specs::Session::routes_items, crate::specs::Session::routes_refusals))]
fn note_routes(
    alloc: Global,
    first: &mut Option<Refusal>,
    d: &Design,
    routes: &Tree,
) -> Result<List<SesItem>, AllocError>
    ensures noted { OnOk result (first.new ≡ noted first.old (routes_refusals d.now routes.now)) }
    ensures value { IfOk result (λ v. v ≡ routes_items d.now routes.now) }
{
    refuse_resolutions(first, routes);
    match child(routes, b"network_out") {
        Some(network) => note_network(alloc, first, d, network, measure_in(routes)),
        None => {
            note(first, refused(NO_SESSION, at_of(routes)));
            Ok(List::new(alloc))
        }
    }
}

#[tactic(auto, unfolding(crate::specs::Session::session_items, crate::specs::Session::session_refusals))]
fn note_session(
    alloc: Global,
    first: &mut Option<Refusal>,
    d: &Design,
    tree: &Tree,
) -> Result<List<SesItem>, AllocError>
    ensures noted { OnOk result (first.new ≡ noted first.old (session_refusals d.now tree.now)) }
    ensures value { IfOk result (λ v. v ≡ session_items d.now tree.now) }
{
    note_unless(first, is_headed(tree, b"session"), NO_SESSION, at_of(tree));
    match child(tree, b"routes") {
        Some(routes) => note_routes(alloc, first, d, routes),
        None => {
            note(first, refused(NO_SESSION, at_of(tree)));
            Ok(List::new(alloc))
        }
    }
}

// The items of a tree that is a session of the design, or the refusal that counts.
fn read_items(alloc: Global, d: &Design, tree: &Tree) -> Result<List<SesItem>, ReadFault>
    ensures reads { Reads (session_refusals d.now tree.now) (λ v. v ≡ session_items d.now tree.now) result }
    ensures sound { HasFewParts d.now → IfOk result (All (IsItemSound d.now)) }
{
    let mut first = None;
    let items = match note_session(alloc, &mut first, d, tree) {
        Ok(items) => items,
        Err(error) => return Err(ReadFault::Memory(error)),
    };
    match first {
        Some(refusal) => Err(ReadFault::Refused(refusal)),
        None => Ok(items),
    }
}

/// The wires and vias of the nets of a session of the design, in the text's order.
/// Lengths are in nm; nets, layers and padstacks are indices of the design, which count from 0.
/// Each item is a wire of at least two points on a layer of the design, or a via of one of its padstacks;
/// coordinates, also those of a via's copper, are at most 2^29 in absolute value, and widths at most 2^28.
///
/// # Errors
///
/// The fault of the text's tree that is met first, or the refusal of the least place, and there of the least number;
/// or want of memory.
pub fn read_session(alloc: Global, text: &[u8], d: &Design) -> Result<List<SesItem>, SesFault>
    ensures reads { ReadsSession text.now d.now result }
    ensures sound { HasFewParts d.now → IfOk result (All (IsItemSound d.now)) }
    ensures memory { result ≢ Err (SesFault.Spelling (TreeFault.Memory alloc_error)) }
{
    let tree = match read_tree(alloc, text) {
        Ok(tree) => tree,
        Err(TreeFault::Memory(error)) => return Err(SesFault::Memory(error)),
        Err(fault) => return Err(SesFault::Spelling(fault)),
    };
    let read = read_items(alloc, d, &tree);
    drop(tree);
    match read {
        Ok(items) => Ok(items),
        Err(ReadFault::Refused(refusal)) => Err(SesFault::Refused {
            number: refusal.number,
            at: refusal.at,
        }),
        Err(ReadFault::Memory(error)) => Err(SesFault::Memory(error)),
    }
}
